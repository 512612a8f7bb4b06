//! Of the shortest schedules with the same answers, `tidy`, which `find` calls last, lists one that
//! is easiest to read: with the fewest hit reads and, of these, the fewest switches, at which the
//! next step is another process's. It is compared with all schedules of its length.

use answers::find::find;
use answers::found::Possible;
use answers::outcomes::Outcomes;
use answers::question::Question;
use frames::config::Config;
use frames::register::Register;
use frames::types::{Event, Op, Outcome, Step};
use std::alloc::{AllocError, Global};
use std::process::Abort;
use std::test::Fail;
use towers::{regular, stamped, unary};

/// The beginning of a schedule: the configuration after it, how many operations each process has
/// ended, the process of the last step, and how many hit reads and switches there are.
#[derive(Drop)]
struct Beginning<R: Register> {
    config: Config<R>,
    ended: Vec<usize>,
    last: Option<u32>,
    hits: usize,
    switches: usize,
}

/// The outcome of the operation that ends in this event.
fn outcome_of(event: Event) -> Option<Outcome> {
    match event {
        Event::Got(_, v) => Some(Outcome::Value(v)),
        Event::Wrote(_) => Some(Outcome::Written),
        Event::Refused(_, layer) => Some(Outcome::Spent(layer)),
        _ => None,
    }
}

/// Outcome `index` of process `p`.
fn nth_outcome(answers: &[Outcomes], p: u32, index: usize) -> Option<Outcome> {
    let outcomes = answers.get(p as usize)?;
    Some(*outcomes.as_slice().get(index)?)
}

impl<R: Register> Beginning<R> {
    /// The beginning with no steps, from the value 0; `None` if the register has no values.
    fn new(alloc: Global, register: R) -> Result<Option<Beginning<R>>, AllocError> {
        if register.values() == 0 {
            return Ok(None);
        }
        let config = Config::initial(alloc, register, 0)?;
        let mut ended = Vec::new(alloc);
        for _ in 0..register.processes() {
            ended.push(0)?;
        }
        Ok(Some(Beginning {
            config,
            ended,
            last: None,
            hits: 0,
            switches: 0,
        }))
    }

    /// The number of operations that process `p` has ended.
    fn ended_by(&self, p: u32) -> usize {
        match self.ended.get(p as usize) {
            Some(count) => *count,
            None => 0,
        }
    }

    /// Adds an event of process `p`, and returns whether it agrees with the answers.
    fn add_event(&mut self, p: u32, event: Event, answers: &[Outcomes]) -> bool {
        if let Event::Chosen(..) = event {
            self.hits = self.hits.saturating_add(1);
        }
        let outcome = outcome_of(event);
        if outcome.is_none() {
            return true;
        }
        let index = self.ended_by(p);
        if (p as usize) < self.ended.len() {
            self.ended[p as usize] = index.saturating_add(1);
        }
        outcome == nth_outcome(answers, p, index)
    }

    /// The beginning with one more step; `None` if the step doesn't fit, or an operation ends in it
    /// that has another outcome in `answers`.
    fn with_step(
        &self,
        alloc: Global,
        step: Step,
        answers: &[Outcomes],
    ) -> Result<Option<Beginning<R>>, AllocError> {
        if !self.config.fits(step) {
            return Ok(None);
        }
        let mut config = self.config.copy(alloc)?;
        let events = config.step(step);
        let p = step.process();
        let switch = if self.last.is_some() && self.last != Some(p) {
            1
        } else {
            0
        };
        let mut next = Beginning {
            config,
            ended: Vec::from_slice(alloc, &self.ended)?,
            last: Some(p),
            hits: self.hits,
            switches: self.switches.saturating_add(switch),
        };
        for event in [events.first, events.second] {
            if let Some(event) = event {
                if !next.add_event(p, event, answers) {
                    return Ok(None);
                }
            }
        }
        Ok(Some(next))
    }

    /// Whether each process has ended all its operations.
    fn is_done(&self, question: &Question) -> bool {
        for p in 0..self.config.register().processes() {
            if op_at(question, p, self.ended_by(p)).is_some() {
                return false;
            }
        }
        true
    }

    /// How many hit reads and switches there are.
    fn cost(&self) -> (usize, usize) {
        (self.hits, self.switches)
    }
}

/// Operation `index` of process `p`.
fn op_at(question: &Question, p: u32, index: usize) -> Option<Op> {
    let operations = question.operations.get(p as usize)?;
    Some(*operations.get(index)?)
}

/// The steps that process `p` may make: its next invocation, or a bit action with either choice.
fn steps_of<R: Register>(
    alloc: Global,
    question: &Question,
    beginning: &Beginning<R>,
    p: u32,
) -> Result<Vec<Step>, AllocError> {
    let mut steps = Vec::new(alloc);
    if beginning.config.op(p).is_some() {
        steps.push(Step::Go { p, c: 0 })?;
        steps.push(Step::Go { p, c: 1 })?;
        return Ok(steps);
    }
    match op_at(question, p, beginning.ended_by(p)) {
        Some(Op::Read) => steps.push(Step::Read { p })?,
        Some(Op::Write(v)) => steps.push(Step::Write { p, v })?,
        None => {}
    }
    Ok(steps)
}

/// Adds the beginnings that are one step longer. Choice 1 matters only if a hit read ends.
fn add_longer<R: Register>(
    alloc: Global,
    question: &Question,
    answers: &[Outcomes],
    beginning: &Beginning<R>,
    longer: &mut Vec<Beginning<R>>,
) -> Result<(), AllocError> {
    for p in 0..beginning.config.register().processes() {
        let steps = steps_of(alloc, question, beginning, p)?;
        for step in &steps {
            let Some(next) = beginning.with_step(alloc, *step, answers)? else {
                continue;
            };
            let is_second = *step == Step::Go { p, c: 1 };
            if !is_second || next.hits > beginning.hits {
                longer.push(next)?;
            }
        }
    }
    Ok(())
}

/// All beginnings as long as the listed schedule, with no outcome that differs from its answers.
fn all_schedules<R: Register>(
    alloc: Global,
    register: &R,
    question: &Question,
    possible: &Possible,
) -> Result<Vec<Beginning<R>>, AllocError> {
    let mut beginnings = Vec::new(alloc);
    if let Some(first) = Beginning::new(alloc, *register)? {
        beginnings.push(first)?;
    }
    for _ in 0..possible.steps.len() {
        let mut longer = Vec::new(alloc);
        for beginning in &beginnings {
            add_longer(alloc, question, &possible.answers, beginning, &mut longer)?;
        }
        beginnings = longer;
    }
    Ok(beginnings)
}

/// How many hit reads and switches the listed schedule has; `None` if a step of it doesn't fit, or
/// an operation has another outcome than listed.
fn listed_cost<R: Register>(
    alloc: Global,
    register: &R,
    possible: &Possible,
) -> Result<Option<(usize, usize)>, AllocError> {
    let Some(first) = Beginning::new(alloc, *register)? else {
        return Ok(None);
    };
    let mut beginning = first;
    for step in &possible.steps {
        let Some(next) = beginning.with_step(alloc, *step, &possible.answers)? else {
            return Ok(None);
        };
        beginning = next;
    }
    Ok(Some(beginning.cost()))
}

/// Whether there are fewer hit reads than in `other`, or as many and fewer switches; true if there
/// is no other.
fn is_less(cost: (usize, usize), other: Option<(usize, usize)>) -> bool {
    match other {
        Some((hits, switches)) => cost.0 < hits || (cost.0 == hits && cost.1 < switches),
        None => true,
    }
}

/// Asserts that no schedule as long as a listed one, with the same answers, has fewer hit reads, or
/// as many and fewer switches.
fn assert_easiest<R: Register>(
    rt: &impl Abort,
    alloc: Global,
    register: &R,
    question: &Question,
    lists: usize,
) -> Result<(), Fail> {
    let found = find(alloc, register, question, 1000)?;
    assert_eq!(rt; found.possible.len(), lists);
    for possible in &found.possible {
        let mut least = None;
        for schedule in &all_schedules(alloc, register, question, possible)? {
            let cost = schedule.cost();
            if schedule.is_done(question) && is_less(cost, least) {
                least = Some(cost);
            }
        }
        assert!(rt; least.is_some());
        assert_eq!(rt; listed_cost(alloc, register, possible)?, least);
    }
    Ok(())
}

/// A question: the register is 0, process 0 writes 1, and process `i + 1` makes `readers[i]` reads.
fn asked(alloc: Global, readers: &[usize]) -> Result<Question, AllocError> {
    let mut operations = Vec::new(alloc);
    operations.push(Vec::from_slice(alloc, &[Op::Write(1)])?)?;
    for count in readers {
        let mut reads = Vec::new(alloc);
        for _ in 0..*count {
            reads.push(Op::Read)?;
        }
        operations.push(reads)?;
    }
    Ok(Question {
        value: 0,
        operations,
        after: Vec::new(alloc),
        may_stop: Vec::new(alloc),
    })
}

/// One write of a unary number and two reads, as in lesson 5: new may come before old.
#[test]
fn two_reads_of_a_unary_number(rt: HostRuntime) -> Result<(), Fail> {
    let question = asked(rt.alloc(), &[2])?;
    assert_easiest(&rt, rt.alloc(), &unary(2, 1), &question, 4)
}

/// On a stamped register, new never comes before old.
#[test]
fn two_reads_of_a_stamped_register(rt: HostRuntime) -> Result<(), Fail> {
    let question = asked(rt.alloc(), &[2])?;
    assert_easiest(&rt, rt.alloc(), &stamped(2, 1), &question, 3)
}

/// Two readers of a regular bit, as in lesson 6.
#[test]
fn two_readers_of_a_regular_bit(rt: HostRuntime) -> Result<(), Fail> {
    let question = asked(rt.alloc(), &[1, 1])?;
    assert_easiest(&rt, rt.alloc(), &regular(2), &question, 4)
}
