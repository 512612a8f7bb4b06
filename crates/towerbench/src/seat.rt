//! A seat: a desk and one of its chairs, by which a script's lines are answered.

ghost use Rattle.std.specs.Prelude.{◌≡◌, ◌≤◌, Bool, Some, Ok, OnOk, IfOk, IfErr};
ghost use Rattle.schedule_trie.specs.Forest.{IsRefused};
ghost use Rattle.schedule_trie.specs.Limbs.{forest_of, loaded};
ghost use Rattle.command_line.specs.Ranges.{limits_of};
ghost use Rattle.turn.specs.Chairs.{view};
ghost use Rattle.sessions.specs.Looks.{looked_in, shown_in};
ghost use Rattle.sessions.specs.Saves.{IsSaved};
ghost use Rattle.desk.specs.Chairs.{IsChairOf};
ghost use Rattle.desk.specs.Works.{IsPaged, NeedsBranch, answer_by};
ghost use Rattle.script.specs.Answers.{carried_out};
ghost use Rattle.towerbench.specs.DeskOpenings.{CanOpen, opening_world};
ghost use Rattle.towerbench.specs.Seats.{IsAlone, seated, world_at};

use crate::opening::Opening;
use desk::{Chair, Desk, Item, Journal, Report};
use frames::register::Register;
use schedule_trie::limb::Limb;
use schedule_trie::name::Name;
use schedule_trie::refusal::Refusal;
use sessions::command::Command;
use sessions::reply::Reply;
use std::alloc::{AllocError, Global};
use std::marker::Model;
use std::sync::Wait;
use std::thread::Threads;
use turn::Counted;
use views::lens::Lens;
use views::page::Page;
use views::query::Query;
use views::slip::Slip;

/// A desk, and a chair at it, which is one caller's part of the desk. If the chair holds all 16
/// shares, no one else calls the desk; so each call finds just the history of logged calls that the
/// chair has seen. At most 4 thieves, which are threads that take jobs, help with the chair's
/// fills. All looks share one lens, a cache of configurations that is made for the first look.
#[derive(Drop)]
pub(crate) struct Seat<'a, R: Register, W>
where
    Journal<R>: Counted<Entry = Item<R>>,
{
    rt: &'a W,
    desk: Desk<R>,
    chair: Chair<R>,
    thieves: u32,
    lens: Option<Lens<R>>,
}

impl<'a, R: Register, W> Model for Seat<'a, R, W>
where
    Journal<R>: Counted<Entry = Item<R>>,
{
    ghost use Rattle.std.specs.Prelude.{◌≤◌};
    ghost use Rattle.turn.specs.Chairs as chairs;
    ghost use Rattle.desk.specs.Chairs.{IsChairOf};
    ghost use Rattle.towerbench.specs.Seats.{Seated, seated};

    ghost Value = { Seated R R.Pending };

    ghost view = { λ s. seated s.desk (chairs.view s.chair) };

    ghost invariant = { λ s. IsChairOf R.behaviour s.desk s.chair × (s.thieves ≤ 4) };
}

impl<'a, R: Register, W> Seat<'a, R, W> {
    /// The seat of `chair`, which must be a chair of `desk`. At most 4 `thieves` (threads that take
    /// jobs) help with its fills.
    pub(crate) fn new(rt: &'a W, desk: Desk<R>, chair: Chair<R>, thieves: u32) -> Seat<'a, R, W>
        requires chair { IsChairOf R.behaviour desk chair }
        requires thieves { thieves ≤ 4 }
        ensures { result ≡ seated desk (view chair) }
    {
        Seat {
            rt,
            desk,
            chair,
            thieves,
            lens: None,
        }
    }

    /// Opens a desk with what `opening` gives, and returns the seat of the desk's only chair, which
    /// holds every share. The limbs of the opening are dropped.
    ///
    /// # Errors
    ///
    /// Full if the limbs have, in all, more own cells than may be made; else TooManyBranches if
    /// there are too many limbs; else Memory if memory runs out.
    pub(crate) fn open(
        rt: &'a W,
        alloc: Global,
        opening: Opening<R>,
    ) -> Result<Seat<'a, R, W>, Refusal>
        requires { CanOpen R.behaviour opening }
        ensures alone { IfOk result IsAlone }
        ensures opens { IfOk result
            (λ seat. world_at R.behaviour seat ≡ opening_world R.behaviour opening) }
        ensures room { let limbs = opening.setup.bench.limbs in
            OnOk result (loaded (limits_of opening.setup.options) limbs ≡ Ok (forest_of limbs)) }
        ensures err { let limits = limits_of opening.setup.options in
            IfErr result (IsRefused (loaded limits opening.setup.bench.limbs)) }
    {
        let limits = opening.setup.options.limits();
        let limbs = opening.setup.bench.limbs.as_slice();
        match Desk::open_limbs(alloc, opening.register, opening.value, limits, limbs) {
            Ok((desk, chair)) => Ok(Seat::new(rt, desk, chair, opening.setup.options.workers)),
            Err(refusal) => Err(refusal),
        }
    }
}

impl<R: Register, W: Wait> Seat<'_, R, W> {
    /// Carries out a session's command, if its guard `if_at` allows that, and returns the reply. If
    /// the chair holds every share, the reply is Memory only if the log isn't full, and after that
    /// reply the world is unchanged.
    pub(crate) fn act(
        &mut self,
        alloc: Global,
        session: u32,
        if_at: Option<u64>,
        command: &Command,
    ) -> Reply
        ensures acts { let w = world_at R.behaviour self.old in IsAlone self.old → (memory : Bool)
            × (carried_out memory session if_at command.now w
            ≡ record { world = world_at R.behaviour self.new; reply = result }) }
        ensures alone { IsAlone self.old → IsAlone self.new }
    {
        let receipt = self
            .desk
            .act(self.rt, alloc, &mut self.chair, session, if_at, command);
        receipt.reply
    }

    /// Returns the page of a look. If the chair holds every share, the page shows the seat's world,
    /// which the look leaves unchanged.
    ///
    /// # Errors
    ///
    /// NoSession for the cursor of a session that hasn't joined; NoBranch; NoPlace if the place is
    /// after the branch's last place; otherwise Memory, if memory runs out.
    pub(crate) fn look(&mut self, alloc: Global, query: Query) -> Result<Page, Refusal>
        ensures page { IsAlone self.old → IfOk result (λ page.
            Some page ≡ shown_in (world_at R.behaviour self.old) query) }
        ensures found { let w = world_at R.behaviour self.old in
            IsAlone self.old → OnOk result (looked_in w query ≡ Ok w.forest) }
        ensures err { IsAlone self.old
            → IfErr result (IsRefused (looked_in (world_at R.behaviour self.old) query)) }
        ensures kept { IsAlone self.old → world_at R.behaviour self.new
            ≡ world_at R.behaviour self.old }
        ensures alone { IsAlone self.old → IsAlone self.new }
    {
        // The lens is made after the slip, so that its memory is refused after any other refusal.
        let (_, slip) = self.desk.slip(self.rt, alloc, &mut self.chair, query);
        paged(alloc, &mut self.lens, slip)
    }

    /// The limbs of the branches, in the order in which the branches were made.
    ///
    /// # Errors
    ///
    /// If there is no memory for the limbs.
    pub(crate) fn limbs(&mut self, alloc: Global) -> Result<Vec<Limb>, AllocError>
        ensures { IsAlone self.old
            → IfOk result (λ limbs. IsSaved (world_at R.behaviour self.old) limbs.items) }
    {
        let Ok(saved) = self.desk.limbs(self.rt, alloc, &mut self.chair) else {
            return Err(AllocError);
        };
        Ok(saved.limbs.into_vec())
    }
}

impl<R: Register + Send + Sync, W: Threads + Wait + Sync> Seat<'_, R, W>
where
    R::Pending: Send + Sync,
{
    /// Stores runs for `branch` and for the other branches, as far as there is memory, and reports
    /// how the jobs (segments to be replayed) ended. If the chair holds every share, the seat's
    /// world is unchanged.
    ///
    /// # Errors
    ///
    /// NoBranch if there is no such branch; Memory if there is no memory to list the jobs, or for
    /// the threads that run them.
    pub(crate) fn fill(&mut self, alloc: Global, branch: &Name) -> Result<Report, Refusal>
        ensures found { IsAlone self.old
            → NeedsBranch branch.now (world_at R.behaviour self.old) result }
        ensures kept { IsAlone self.old → world_at R.behaviour self.new
            ≡ world_at R.behaviour self.old }
        ensures alone { IsAlone self.old → IsAlone self.new }
    {
        self.desk
            .fill(self.rt, alloc, &mut self.chair, branch, self.thieves)
    }
}

/// Makes the page of a slip with `lens`, or with a new lens if that is `None`. If the look is
/// refused, returns that refusal; if memory runs out, Memory.
fn paged<R: Register>(
    alloc: Global,
    lens: &mut Option<Lens<R>>,
    slip: Result<Slip<R>, Refusal>,
) -> Result<Page, Refusal>
    ensures { IsPaged (answer_by slip) result }
{
    let slip = slip?;
    let mut own = lens_of(alloc, lens.take())?;
    let page = slip.into_page(alloc, &mut own);
    *lens = Some(own);
    Ok(page?)
}

/// Returns `lens`, or a new lens if it is `None`.
fn lens_of<R: Register>(alloc: Global, lens: Option<Lens<R>>) -> Result<Lens<R>, AllocError> {
    match lens {
        Some(lens) => Ok(lens),
        None => Lens::new(alloc),
    }
}
