//! Makes a book from limbs, and limbs from a book.

ghost use Rattle.std.specs.Prelude.{◌≡◌, Ok, OnOk, IfOk, IfErr};
ghost use Rattle.schedule_trie.specs.Forest.{IsRefused};
ghost use Rattle.schedule_trie.specs.Limbs.{forest_of, loaded};
ghost use Rattle.cutoff.specs.Charts.{CanBegin, CanLoad};
ghost use Rattle.sessions.specs.World.{opening_of_limbs};
ghost use Rattle.sessions.specs.Books.{IsNewBook, world_of};
ghost use Rattle.sessions.specs.Saves.{IsSaved};

use super::Book;
use cutoff::chart::Chart;
use frames::register::Register;
use schedule_trie::limb::Limb;
use schedule_trie::limits::Limits;
use schedule_trie::refusal::Refusal;
use std::alloc::{AllocError, Global};

impl<R: Register> Book<R> {
    /// A book before its first command: its log is empty, no session has joined, and its branches
    /// are those that these limbs describe. There has to be at least one limb. The limbs have to be
    /// lawful, as follows. Each has a well-formed name that no earlier limb has. Each either shares
    /// no cells (its `from` and `shared` are 0), or shares the first cells of an earlier limb's
    /// branch; if it shares cells, the last shared cell is one of the earlier limb's own cells, not
    /// one that the earlier limb shares. The limbs' steps have to fit the register, the limits have
    /// to be in their ranges, and the initial value `value` has to be one of the register's values.
    ///
    /// # Errors
    ///
    /// Full if the limbs have, in all, more own cells than the limits allow; else TooManyBranches
    /// if there are more limbs than the limits allow branches; else Memory if memory runs out.
    pub fn load(
        alloc: Global,
        register: R,
        value: u32,
        limits: Limits,
        limbs: &[Limb],
    ) -> Result<Book<R>, Refusal>
        requires limbs { CanLoad (R.behaviour register) limbs.now }
        requires begins { CanBegin (R.behaviour register) value limits }
        ensures new { IfOk result (IsNewBook R.behaviour
            (opening_of_limbs (R.behaviour register) value limits limbs.now)) }
        ensures ok { OnOk result (loaded limits limbs.now ≡ Ok (forest_of limbs.now)) }
        ensures err { IfErr result (IsRefused (loaded limits limbs.now)) }
    {
        let chart = Chart::load(alloc, register, value, limits, limbs)?;
        Ok(Book::over(alloc, chart, limits)?)
    }

    /// The limbs of the book's branches, in the order the branches were made. There is at least one
    /// limb. The limbs are lawful, as follows. Each has a well-formed name that no earlier limb
    /// has. Each either shares no cells (its `from` and `shared` are 0), or shares the first cells
    /// of an earlier limb's branch; if it shares cells, the last shared cell is one of the earlier
    /// limb's own cells, not one that the earlier limb shares. The limbs' steps fit the register.
    /// In each limb, the index of the branch that it shares cells with, and the count of the shared
    /// cells, are within the book's limits.
    ///
    /// # Errors
    ///
    /// If there is no memory for the limbs.
    pub fn limbs(&self, alloc: Global) -> Result<Vec<Limb>, AllocError>
        ensures { IfOk result (λ limbs. IsSaved (world_of R.behaviour self.now.now) limbs.items) }
    {
        self.workspace.chart.limbs(alloc)
    }
}
