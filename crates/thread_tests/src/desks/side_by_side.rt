//! Two chairs of a desk, each doing its own work on its own thread.

ghost use denote.Param.Send.{IsSync};
ghost use Rattle.frames.specs.SafeBit.{safe_behaviour};
ghost use Rattle.desk.specs.Chairs.{IsChairOf};

use super::{Tester, take_in};
use desk::Chair;
use frames::safe::Safe;
use std::process::Abort;
use std::sync::Wait;
use std::thread;
use std::thread::Threads;

/// What a thread does with its chair.
#[derive(Clone, Copy)]
pub(super) enum Work {
    /// It makes this number of inserts.
    Inserts(u32),
    /// It makes the guarded inserts of this session.
    GuardedInserts(u32),
    /// It makes the rounds of this session.
    Rounds(u32),
    /// It fills branch `a`, over and over.
    Fills,
    /// It makes this number of inserts, and then drops `a`.
    InsertsAndDrop(u32),
}

impl<R: Abort + Threads + Wait + Sync> Tester<'_, R> {
    /// Does a thread's work with its chair. Returns the chair, and whether everything went well.
    fn do_work(&self, task: (Chair<Safe>, Work)) -> (Chair<Safe>, bool)
        requires { IsChairOf (λ _. safe_behaviour) self.now.desk.now task.0 }
        ensures { IsChairOf (λ _. safe_behaviour) self.now.desk.now result.0 }
    {
        let (mut chair, work) = task;
        let fine = match work {
            Work::Inserts(count) => self.insert_all(&mut chair, count),
            Work::GuardedInserts(who) => self.insert_guarded(&mut chair, who),
            Work::Rounds(who) => self.rounds(&mut chair, who),
            Work::Fills => self.fill_all(&mut chair),
            Work::InsertsAndDrop(count) => self.insert_and_drop(&mut chair, count),
        };
        (chair, fine)
    }

    /// Two threads do their work at the same time; then the second chair is joined to the first.
    /// Returns the first chair, and whether everything went well.
    pub(super) fn side_by_side(
        &self,
        first: (Chair<Safe>, Work),
        second: (Chair<Safe>, Work),
    ) -> (Chair<Safe>, bool)
        requires { IsChairOf (λ _. safe_behaviour) self.now.desk.now first.0
            × IsChairOf (λ _. safe_behaviour) self.now.desk.now second.0 }
        ensures { IsChairOf (λ _. safe_behaviour) self.now.desk.now result.0 }
    {
        let (rt, alloc, desk) = (self.rt, self.alloc, self.desk);
        let ((mut first, one), (second, other)) = thread::join(
            rt,
            move || -> (Chair<Safe>, bool)
                requires sync { IsSync R.row }
                requires chair { IsChairOf (λ _. safe_behaviour) desk.now first.0 }
                ensures { IsChairOf (λ _. safe_behaviour) desk.entry.now result.0 }
            { Tester::new(rt, alloc, desk).do_work(first) },
            move || -> (Chair<Safe>, bool)
                requires sync { IsSync R.row }
                requires chair { IsChairOf (λ _. safe_behaviour) desk.now second.0 }
                ensures { IsChairOf (λ _. safe_behaviour) desk.entry.now result.0 }
            { Tester::new(rt, alloc, desk).do_work(second) },
        );
        take_in(desk, &mut first, second);
        (first, one && other)
    }
}
