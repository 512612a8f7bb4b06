//! Fills of branches that share segments are compared with a model, round by round. In the model a
//! plan has, for each branch, the first segment without a run; no segment is in a plan twice, and
//! every run is installed before the next plan.

ghost use Rattle.std.specs.Prelude.{◌≤◌};
ghost use Rattle.frames.specs.SafeBit.{safe_behaviour};
ghost use Rattle.schedule_trie.specs.Trie.{AreLimits};
ghost use Rattle.desk.specs.Chairs.{IsChairOf};

use super::fills::all_installed;
use super::openings::opened_with_writes;
use super::rounds::Offers;
use super::{READ, Tester, name};
use desk::Chair;
use frames::safe::Safe;
use schedule_trie::limits::Limits;
use schedule_trie::name::Name;
use schedule_trie::refusal::Refusal;
use schedule_trie::trie::{SegKey, Trie};
use sessions::command::Command;
use std::alloc::{AllocError, Global};
use std::process::Abort;
use std::sync::Wait;
use std::sync::atomic::{AtomicU64, Ordering};
use std::test::Fail;
use std::thread::Threads;
use workers::gate::Gate;

/// How many forests are filled.
const FORESTS: u32 = 50;

/// The number of a forest's first inserts; each later series has fewer. 384 make three full
/// segments.
const INSERTS: u32 = 385;

/// The most rounds of a fill.
const ROUNDS: usize = 64;

/// The names of new branches, one letter each. A forest grows once for each name, by a series of
/// inserts and one other edit.
const NAMES: &[u8] = b"abcdefgh";

/// Limits for each of these forests.
fn forest_limits() -> Limits
    ensures { AreLimits result }
{
    Limits {
        cells: 32_768,
        branches: 8,
        log: 8_192,
    }
}

/// Pseudorandom numbers by a linear congruence (Knuth, volume 2, section 3.3.4).
#[derive(Drop)]
struct Sequence {
    state: u32,
}

impl Sequence {
    /// The next number, below `count`; 0 if `count` is 0.
    fn below(&mut self, count: u32) -> u32 {
        self.state = self
            .state
            .wrapping_mul(1_664_525)
            .wrapping_add(1_013_904_223);
        if count == 0 {
            return 0;
        }
        (self.state >> 16) % count
    }
}

/// A forest, and the commands that make it from one branch without steps.
#[derive(Drop)]
struct Forest {
    alloc: Global,
    trie: Trie<u32>,
    commands: Vec<Command>,
}

impl Forest {
    fn new(alloc: Global) -> Result<Forest, Refusal> {
        Ok(Forest {
            alloc,
            trie: Trie::new(alloc, forest_limits(), &[])?,
            commands: Vec::new(alloc),
        })
    }

    /// Makes an edit of the trie, and returns whether it was accepted.
    fn accepts(&mut self, command: &Command) -> bool {
        let edited = match command {
            Command::Insert {
                b: branch,
                k: place,
                step,
            } => self.trie.insert(self.alloc, branch, *place, *step),
            Command::Fork {
                b: branch,
                k: place,
                name,
            } => self.trie.fork(self.alloc, branch, *place, *name),
            Command::Remove {
                b: branch,
                k: place,
            } => self.trie.remove(branch, *place),
            Command::Detach { b: branch } => self.trie.detach(self.alloc, branch),
            Command::Drop { b: branch } => self.trie.drop_branch(branch),
            _ => Err(Refusal::BadLine),
        };
        edited.is_ok()
    }

    /// Makes an edit, and keeps its command if it is accepted.
    fn edit(&mut self, command: Command) -> Result<(), AllocError> {
        if self.accepts(&command) {
            self.commands.push(command)?;
        }
        Ok(())
    }

    /// One of the branches and a place of it, chosen by the next two numbers.
    fn choose(&self, sequence: &mut Sequence) -> Option<(Name, u32)> {
        let index = sequence.below(self.trie.branches());
        let branch = self.trie.name_at(index)?;
        let len = self.trie.len(&branch)?;
        Some((branch, sequence.below(len.saturating_add(1))))
    }

    /// Inserts `count` reads at a place.
    fn insert_reads(&mut self, branch: Name, place: u32, count: u32) -> Result<(), AllocError> {
        for _ in 0..count {
            self.edit(Command::Insert {
                b: branch,
                k: place,
                step: READ,
            })?;
        }
        Ok(())
    }

    /// Makes a series of inserts and one other edit. A fork is named `fresh`; `main` is never
    /// dropped.
    fn grow(
        &mut self,
        sequence: &mut Sequence,
        main: &Name,
        fresh: Name,
    ) -> Result<(), AllocError> {
        if let Some((branch, place)) = self.choose(sequence) {
            self.insert_reads(branch, place, sequence.below(INSERTS))?;
        }
        let Some((branch, place)) = self.choose(sequence) else {
            return Ok(());
        };
        let command = match sequence.below(8) {
            0 => Command::Detach { b: branch },
            1 => Command::Remove {
                b: branch,
                k: place,
            },
            2 if branch != *main => Command::Drop { b: branch },
            _ => Command::Fork {
                b: branch,
                k: place,
                name: fresh,
            },
        };
        self.edit(command)
    }

    /// The key of a branch's first segment that has no run; `None` if each has one.
    fn first_missing(&self, branch: &Name) -> Result<Option<SegKey>, Refusal> {
        for key in self.trie.segments(self.alloc, branch)?.as_slice() {
            if self.trie.note(*key).is_none() {
                return Ok(Some(*key));
            }
        }
        Ok(None)
    }

    /// The keys of the jobs of a plan, by the model.
    fn plan(&self) -> Result<Vec<SegKey>, Refusal> {
        let mut jobs = Vec::new(self.alloc);
        for index in 0..self.trie.branches() {
            let Some(branch) = self.trie.name_at(index) else {
                break;
            };
            if let Some(key) = self.first_missing(&branch)? {
                if !jobs.contains(&key) && jobs.push(key).is_err() {
                    return Err(Refusal::Memory);
                }
            }
        }
        Ok(jobs)
    }

    /// How many jobs the next round of a fill has, by the model. Notes a run for each job.
    fn round(&mut self) -> Result<u64, Refusal> {
        let jobs = self.plan()?;
        for key in jobs.as_slice() {
            self.trie.set_note(*key, Some(0));
        }
        Ok(jobs.len() as u64)
    }

    /// How many jobs each round of a fill has, by the model.
    fn rounds(&mut self) -> Result<Vec<u64>, Refusal> {
        let mut counts = Vec::new(self.alloc);
        for _ in 0..ROUNDS {
            let jobs = self.round()?;
            if jobs == 0 {
                break;
            }
            if counts.push(jobs).is_err() {
                return Err(Refusal::Memory);
            }
        }
        Ok(counts)
    }
}

/// Grows a forest of `main` alone by the numbers from a seed.
fn grow_from(rt: &impl Abort, forest: &mut Forest, seed: u32) -> Result<(), Refusal> {
    let mut sequence = Sequence { state: seed };
    let main = name(rt, b"main");
    forest.insert_reads(main, 0, INSERTS)?;
    for index in 0..NAMES.len() {
        let fresh = name(rt, &NAMES[index..index + 1]);
        forest.grow(&mut sequence, &main, fresh)?;
    }
    Ok(())
}

/// The forest that grows by the numbers from a seed.
fn forest_from(rt: &impl Abort, alloc: Global, seed: u32) -> Result<Forest, Refusal> {
    let mut forest = Forest::new(alloc)?;
    grow_from(rt, &mut forest, seed)?;
    Ok(forest)
}

/// A gate that counts the offers of each round. A round begins with the offer of job 0.
#[derive(Drop)]
struct OffersByRound {
    rounds: AtomicU64,
    counts: Vec<AtomicU64>,
}

impl OffersByRound {
    fn new(alloc: Global) -> Result<OffersByRound, AllocError> {
        let mut counts = Vec::new(alloc);
        for _ in 0..=ROUNDS {
            counts.push(AtomicU64::new(0))?;
        }
        Ok(OffersByRound {
            rounds: AtomicU64::new(0),
            counts,
        })
    }
}

impl<W: Wait> Gate<W> for OffersByRound {
    fn offer(&self, _rt: &W, index: usize) {
        if index == 0 {
            self.rounds.fetch_add(1, Ordering::SeqCst);
        }
        let round = self.rounds.load(Ordering::SeqCst);
        if let Some(offers) = self.counts.get(round as usize) {
            offers.fetch_add(1, Ordering::SeqCst);
        }
    }
}

impl<R: Abort + Threads + Wait + Sync> Tester<'_, R> {
    /// Gives the desk edits, and returns whether each was accepted.
    pub(super) fn act_all(&self, chair: &mut Chair<Safe>, commands: &[Command]) -> bool
        requires { IsChairOf (λ _. safe_behaviour) self.now.desk.now chair.old }
        ensures { IsChairOf (λ _. safe_behaviour) self.now.desk.now chair.new }
    {
        let mut all = true;
        for command in commands {
            all &= self.accepts(chair, command);
        }
        all
    }
}

/// The sum of these counts, which is far below 2^64.
fn sum_of(counts: &[u64]) -> u64 {
    let mut sum: u64 = 0;
    for count in counts {
        sum = sum.wrapping_add(*count);
    }
    sum
}

/// A gate whose offers are compared with the model's rounds.
trait Tally {
    /// Whether the offers agree with `counts`, the number of jobs in each round.
    fn agrees(&self, counts: &[u64]) -> bool;
}

impl Tally for OffersByRound {
    fn agrees(&self, counts: &[u64]) -> bool {
        let begun = self.rounds.load(Ordering::SeqCst);
        let Some(seen) = self.counts.get(1..) else {
            return false;
        };
        begun == counts.len() as u64
            && counts
                .iter()
                .zip(seen)
                .all(|(count, offers)| offers.load(Ordering::SeqCst) == *count)
    }
}

impl Tally for Offers {
    fn agrees(&self, counts: &[u64]) -> bool {
        self.counted() == (sum_of(counts), counts.len() as u64)
    }
}

/// Makes a forest by its commands at a new desk, and fills it by the caller and `thieves` thieves.
/// Returns whether the report and the gate agree with the model's counts of jobs.
fn is_filled_at<R: Abort + Threads + Wait + Sync, G: Gate<R> + Tally + Sync>(
    tester: &Tester<'_, R>,
    chair: &mut Chair<Safe>,
    commands: &[Command],
    counts: &[u64],
    thieves: u32,
    offers: &G,
) -> Result<bool, Refusal>
    requires at { IsChairOf (λ _. safe_behaviour) tester.now.desk.now chair.old }
    requires thieves { thieves ≤ 4 }
{
    let all_edited = tester.act_all(chair, commands);
    let report = tester.filled_with(chair, thieves, offers)?;
    Ok(all_edited && report == all_installed(sum_of(counts)) && offers.agrees(counts))
}

/// Makes a forest by its commands, and fills it by the caller and `thieves` thieves. Returns
/// whether the report and the gate agree with the model's counts of jobs.
fn is_filled_by<R: Abort + Threads + Wait + Sync, G: Gate<R> + Tally + Sync>(
    rt: &R,
    alloc: Global,
    commands: &[Command],
    counts: &[u64],
    thieves: u32,
    offers: &G,
) -> Result<bool, Refusal>
    requires { thieves ≤ 4 }
{
    let (desk, mut chair) = opened_with_writes(alloc, 0, forest_limits())?;
    let tester = Tester::new(rt, alloc, &desk);
    is_filled_at(&tester, &mut chair, commands, counts, thieves, offers)
}

/// Whether a forest is filled as in the model, without thieves and with two.
fn is_filled_twice<R: Abort + Threads + Wait + Sync>(
    rt: &R,
    alloc: Global,
    commands: &[Command],
    counts: &[u64],
) -> Result<bool, Refusal> {
    let by_round = OffersByRound::new(alloc)?;
    let alone = is_filled_by(rt, alloc, commands, counts, 0, &by_round)?;
    Ok(alone && is_filled_by(rt, alloc, commands, counts, 2, &Offers::new())?)
}

/// Whether the forest from a seed is filled as in the model, without thieves and with two.
fn is_filled<R: Abort + Threads + Wait + Sync>(
    rt: &R,
    alloc: Global,
    seed: u32,
) -> Result<bool, Refusal> {
    let mut forest = forest_from(rt, alloc, seed)?;
    let counts = forest.rounds()?;
    is_filled_twice(rt, alloc, forest.commands.as_slice(), &counts)
}

#[test]
fn fifty_forests(rt: HostRuntime) -> Result<(), Fail> {
    for seed in 0..FORESTS {
        assert!(rt; is_filled(&rt, rt.alloc(), seed)?, "{seed}");
    }
    Ok(())
}
