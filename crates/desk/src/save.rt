//! A save: the desk's branches as limbs, from which a desk can be opened again.

ghost use Rattle.turn.specs.Histories.{OwnsItsCalls};
ghost use Rattle.turn.specs.Chairs.{view};
ghost use Rattle.desk.specs.Items.{made_under};
ghost use Rattle.desk.specs.Chairs.{IsChairOf, SavedFrom, book_at_first};

use crate::desk::{Chair, Desk};
use crate::journal::Journal;
use crate::receipt::Saved;
use frames::register::Register;
use schedule_trie::Limbs;
use schedule_trie::refusal::Refusal;
use std::alloc::Global;
use std::sync::Wait;
use turn::Work;

/// The work that describes each branch by a limb.
#[derive(Drop)]
struct Save {
    alloc: Global,
}

impl<R: Register> Work<Journal<R>> for Save {
    ghost use Rattle.desk.specs.Works.{IsReading, IsSaving};

    type Out = Result<Saved, Refusal>;

    ghost relation = { λ work before after out _. IsReading R.behaviour (λ n world. IsSaving n world out) before after };

    fn work(&mut self, journal: &mut Journal<R>, _number: u32) -> Result<Saved, Refusal> {
        let book = &*journal.book;
        let at = u64::from(book.len());
        let limbs = book.limbs(self.alloc)?;
        let limbs = Limbs::new(limbs);
        Ok(Saved { at, limbs })
    }
}

impl<R: Register> Desk<R> {
    /// Waits for the turn, and returns the desk's branches as limbs, with the length of the
    /// history. Each limb has a branch's name, how many cells it shares with which branch, and its
    /// own steps. From these limbs, `open_limbs` can open a desk with the same branches. The chair
    /// has then seen the history that the save found; the save adds no call to it.
    ///
    /// # Errors
    ///
    /// Memory if memory runs out.
    pub fn limbs<W: Wait>(
        &self,
        rt: &W,
        alloc: Global,
        chair: &mut Chair<R>,
    ) -> Result<Saved, Refusal>
        requires { IsChairOf R.behaviour self.now chair.old }
        ensures chair { IsChairOf R.behaviour self.now chair.new }
        ensures saved { SavedFrom R.behaviour (book_at_first self.now) (view chair.old)
            (view chair.new)
            result }
        ensures owns { OwnsItsCalls made_under (view chair.new) }
    {
        self.turn.with(rt, chair, &mut Save { alloc })
    }
}
