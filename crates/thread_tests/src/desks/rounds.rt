//! Tests of the rounds of a fill of two branches that share a segment, and of what the fill's gate
//! is offered.

ghost use Rattle.std.specs.Prelude.{◌≤◌};
ghost use Rattle.frames.specs.SafeBit.{safe_behaviour};
ghost use Rattle.schedule_trie.specs.Trie.{AreLimits};
ghost use Rattle.desk.specs.Chairs.{IsChairOf};

use super::fills::all_installed;
use super::openings::opened_with_writes;
use super::{READ, Tester, name};
use desk::{Chair, Report};
use frames::safe::Safe;
use schedule_trie::limits::Limits;
use schedule_trie::refusal::Refusal;
use sessions::command::Command;
use std::alloc::Global;
use std::process::Abort;
use std::sync::Wait;
use std::sync::atomic::{AtomicU64, Ordering};
use std::test::Fail;
use std::thread::Threads;
use workers::gate::Gate;

/// A gate that counts all offers, and also the rounds: in each round, job 0 is offered once.
#[derive(Drop)]
pub(super) struct Offers {
    all: AtomicU64,
    rounds: AtomicU64,
}

impl Offers {
    /// A gate that has counted nothing.
    pub(super) fn new() -> Offers {
        Offers {
            all: AtomicU64::new(0),
            rounds: AtomicU64::new(0),
        }
    }

    /// How many offers there were, and in how many rounds.
    pub(super) fn counted(&self) -> (u64, u64) {
        let all = self.all.load(Ordering::SeqCst);
        (all, self.rounds.load(Ordering::SeqCst))
    }
}

impl<W: Wait> Gate<W> for Offers {
    fn offer(&self, _rt: &W, index: usize) {
        self.all.fetch_add(1, Ordering::SeqCst);
        if index == 0 {
            self.rounds.fetch_add(1, Ordering::SeqCst);
        }
    }
}

/// The number of cells in a full segment.
const FULL_SEGMENT: u32 = 128;

/// Limits that allow two branches of 41 full segments each, which share one, and a logged call for
/// each step of the second branch.
fn two_branch_limits() -> Limits
    ensures { AreLimits result }
{
    Limits {
        cells: 16_384,
        branches: 2,
        log: 8_192,
    }
}

impl<R: Abort + Threads + Wait + Sync> Tester<'_, R> {
    /// Forks `a` after the first segment of `main`, and gives it 40 segments of its own. Returns
    /// whether each edit was accepted.
    fn grow_a(&self, chair: &mut Chair<Safe>) -> bool
        requires { IsChairOf (λ _. safe_behaviour) self.now.desk.now chair.old }
        ensures { IsChairOf (λ _. safe_behaviour) self.now.desk.now chair.new }
    {
        let branch = name(self.rt, b"a");
        let fork = Command::Fork {
            b: name(self.rt, b"main"),
            k: FULL_SEGMENT,
            name: branch,
        };
        let mut all = self.accepts(chair, &fork);
        for place in FULL_SEGMENT..41 * FULL_SEGMENT {
            let insert = Command::Insert {
                b: branch,
                k: place,
                step: READ,
            };
            all &= self.accepts(chair, &insert);
        }
        all
    }

    /// Fills `main` through a gate. Unlike that of `Desk::fill_with`, this contract promises
    /// nothing about histories.
    pub(super) fn filled_with<G: Gate<R> + Sync>(
        &self,
        chair: &mut Chair<Safe>,
        thieves: u32,
        offers: &G,
    ) -> Result<Report, Refusal>
        requires at { IsChairOf (λ _. safe_behaviour) self.now.desk.now chair.old }
        requires thieves { thieves ≤ 4 }
        ensures { IsChairOf (λ _. safe_behaviour) self.now.desk.now chair.new }
    {
        let branch = name(self.rt, b"main");
        self.desk
            .fill_with(self.rt, self.alloc, chair, &branch, thieves, offers)
    }
}

/// Forks and grows `a` at a desk whose `main` has 41 segments, and fills the desk with `thieves`
/// thieves. Returns whether all 81 runs were installed, how many offers there were, and in how many
/// rounds.
fn grown_and_filled<R: Abort + Threads + Wait + Sync>(
    tester: &Tester<'_, R>,
    chair: &mut Chair<Safe>,
    thieves: u32,
) -> Result<(bool, (u64, u64)), Refusal>
    requires at { IsChairOf (λ _. safe_behaviour) tester.now.desk.now chair.old }
    requires thieves { thieves ≤ 4 }
{
    let grown = tester.grow_a(chair);
    let offers = Offers::new();
    let report = tester.filled_with(chair, thieves, &offers)?;
    Ok((grown && report == all_installed(81), offers.counted()))
}

/// Fills a desk's branches, with the help of `thieves` thieves. The branches `main` and `a` have 41
/// segments each, and share the first. Returns the result of `grown_and_filled`.
fn filled_by<R: Abort + Threads + Wait + Sync>(
    rt: &R,
    alloc: Global,
    thieves: u32,
) -> Result<(bool, (u64, u64)), Refusal>
    requires { thieves ≤ 4 }
{
    let (desk, mut chair) = opened_with_writes(alloc, 41 * FULL_SEGMENT, two_branch_limits())?;
    grown_and_filled(&Tester::new(rt, alloc, &desk), &mut chair, thieves)
}

/// The two branches share one segment, and have 40 each of their own. So the first round has one
/// job, and each later round has two.
#[test]
fn forty_one_rounds(rt: HostRuntime) -> Result<(), Fail> {
    for thieves in [0, 1, 4] {
        let (installed, offered) = filled_by(&rt, rt.alloc(), thieves)?;
        assert!(rt; installed);
        assert_eq!(rt; offered, (81, 41));
    }
    Ok(())
}
