//! Configurations of a register, and the steps of a schedule.

ghost use Rattle.std.specs.Prelude.{◌≡◌, ◌==◌, ℕ, ◌<◌, ◌+◌, Bool, true, false, Option, Some, None, IfOk, IsTrue, IfSome, MatchOption, ⊤, List, length, IfNone, slice_index_or, slice_set, replicate};
ghost use Rattle.std.specs.Bool.{Decides};
ghost use Rattle.std.specs.Option.{option_map};
ghost use Rattle.safe_bit.specs.Memory.{Memory};
ghost use Rattle.frames.specs.Configuration.{running_at, is_stopped, initial_configuration, fits_step, events_of, stepped, with_stop_mark, only_records, acting, invoking, going, HasStepEffect};
ghost use Rattle.schedule_steps.specs.Steps.{process_of};
ghost use Rattle.frames.specs.StoredConfiguration.{IsConfiguration, idle, stacks_of, marks_of};
ghost use Rattle.frames.specs.Flat.{stack_of};

use crate::flat::FlatStack;
use crate::own::{ORIGIN, invoke_own, one_event, proceed_own, store_of};
use crate::register::Register;
use crate::roles::step_fits;
use crate::types::{Action, Event, Op, Reason, Stack, Step, StepEvents};
use safe_bit::Store;
use std::alloc::{AllocError, Global};
use std::marker::Model;

/// A configuration: a register, its cells and words, and for each process the frames of its pending
/// operation and whether it has stopped.
#[derive(Drop)]
pub struct Config<R: Register> {
    register: R,
    store: Store,
    processes: Vec<ProcessState>,
}

/// A process: the frames of its pending operation, and whether it has stopped.
#[derive(Drop)]
struct ProcessState {
    stack: FlatStack,
    stopped: bool,
}

impl PartialEq for ProcessState {
    ghost use Rattle.frames.specs.laws.Flat.{process_eq, process_per};

    ghost eq = { process_eq };

    ghost laws = { process_per };

    fn eq(&self, other: &ProcessState) -> bool {
        self.stack == other.stack && self.stopped == other.stopped
    }
}

impl ProcessState {
    /// A process that has no operation pending and hasn't stopped.
    fn idle() -> ProcessState
        ensures { result ≡ idle }
    {
        ProcessState {
            stack: FlatStack::new(),
            stopped: false,
        }
    }

    /// An equal copy.
    fn copy(&self) -> ProcessState
        ensures { result ≡ self.now }
    {
        ProcessState {
            stack: self.stack.copy(),
            stopped: self.stopped,
        }
    }
}

impl<R: Register> Model for Config<R> {
    ghost use Rattle.frames.specs.Configuration.{Configuration};
    ghost use Rattle.frames.specs.StoredConfiguration.{IsFlat, stacked_configuration, stacks_of, marks_of};

    ghost Value = { Configuration R R.Pending };

    ghost view = { λ c. stacked_configuration (R.point c.register) c.register c.store
        (stacks_of c.processes.items) (marks_of c.processes.items) };

    ghost invariant = { λ c. IsFlat (R.behaviour c.register) (R.Holds c.register)
        (R.Reaches c.register)
        (stacked_configuration (R.point c.register) c.register c.store
        (stacks_of c.processes.items) (marks_of c.processes.items))
        (stacks_of c.processes.items) };
}

/// Two configurations are equal if they have equal registers, cells and words, and the same pending
/// operations and stopped processes.
impl<R: Register> PartialEq for Config<R> {
    ghost use Rattle.std.specs.Prelude.{◌≡◌};
    ghost use Rattle.std.specs.Bool.{Decides};
    ghost use Rattle.frames.specs.Equality.{configuration_eq, configuration_per, SameConfiguration};

    ghost eq = { configuration_eq R.PartialEq.eq R.Pending.PartialEq.eq };

    ghost laws = { configuration_per R.PartialEq.eq R.Pending.PartialEq.eq R.PartialEq.laws R.same_pending };

    fn eq(&self, other: &Config<R>) -> bool
        ensures gives { result ≡ ⟦<Config<R> as PartialEq>⟧.eq self.now other.now }
        ensures same { Decides result (SameConfiguration R.PartialEq.eq self.now other.now) }
    {
        self.register == other.register
            && self.store == other.store
            && self.processes == other.processes
    }
}

impl<R: Register> Config<R> {
    /// The initial configuration: the register holds `value`, which is below its number of values;
    /// no process has an operation pending, and none has stopped. `AllocError` if memory runs out.
    pub fn initial(alloc: Global, register: R, value: u32) -> Result<Config<R>, AllocError>
        requires { value < (R.behaviour register).values }
        ensures { IfOk result
            (λ c. c ≡ initial_configuration (R.behaviour register) register value) }
    {
        let store = store_of(alloc, &register, value)?;
        let processes = all_idle(alloc, register.processes())?;
        Ok(Config {
            register,
            store,
            processes,
        })
    }

    /// An equal copy, with its own cells and words. `AllocError` if memory runs out.
    // (inlined, so that a replay makes the copy in place)
    #[inline(always)]
    pub fn copy(&self, alloc: Global) -> Result<Config<R>, AllocError>
        ensures { IfOk result (λ c. c ≡ self.now) }
    {
        Ok(Config {
            register: self.register,
            store: self.store.copy(alloc)?,
            processes: copies(alloc, &self.processes)?,
        })
    }

    /// The register whose configuration this is.
    pub fn register(&self) -> R
        ensures { result ≡ self.now.register }
    {
        self.register
    }

    /// The configuration's cells and words.
    pub fn store(&self) -> &Store
        ensures { result.now ≡ self.now.memory }
    {
        &self.store
    }

    /// Whether the step fits the register, as `roles::step_fits` says.
    pub fn fits(&self, step: Step) -> bool
        ensures { result ≡ fits_step (R.behaviour self.now.register) step }
    {
        step_fits(&self.register, step)
    }

    /// The operation that process `p` has pending; `None` if `p` is idle or doesn't exist.
    pub fn op(&self, p: u32) -> Option<Op>
        ensures { result ≡ option_map (λ r. r.op) (running_at p self.now) }
    {
        self.frames(p)?.op()
    }

    /// The frames of process `p`'s pending operation, outermost first; `None` if `p` is idle or
    /// doesn't exist. The stack has its inline capacity of 8 frames, so nothing is allocated.
    pub fn stack(&self, alloc: Global, p: u32) -> Option<Stack>
        ensures frames { option_map (λ s. s.items) result
            ≡ option_map (λ r. (R.behaviour self.now.register).frames r.point)
            (running_at p self.now) }
        ensures inline { IfSome result (λ s. s.capacity ≡ 8) }
    {
        let frames = self.frames(p)?;
        if frames.is_empty() {
            return None;
        }
        Some(frames.to_stack(alloc))
    }

    /// The next bit action of process `p`; the action's `cell` is the cell's number in the store.
    /// `None` if `p` is idle or doesn't exist.
    pub fn action(&self, p: u32) -> Option<Action>
        ensures { result ≡ option_map (λ r. (R.behaviour self.now.register).acts r.point)
            (running_at p self.now) }
    {
        let frames = self.frames(p)?;
        let point = self.register.pending_on(frames, 0, p)?;
        Some(self.register.action(&point, ORIGIN))
    }

    /// Whether process `p` has stopped; false if `p` doesn't exist.
    pub fn stopped(&self, p: u32) -> bool
        ensures { result ≡ is_stopped p self.now }
    {
        match self.processes.get(p as usize) {
            Some(process) => process.stopped,
            None => false,
        }
    }

    /// The frames of process `p`'s pending operation; an empty stack if `p` is idle, and `None` if
    /// `p` doesn't exist.
    fn frames(&self, p: u32) -> Option<&FlatStack>
        ensures there { IfSome result
            (λ s. s.now ≡ stack_of (R.behaviour self.now.register) (running_at p self.now)) }
        ensures beyond { IfNone result (running_at p self.now ≡ None) }
        ensures reached { MatchOption (running_at p self.now) ⊤
            (λ r. R.Reaches self.now.register p r.op r.point) }
    {
        Some(&self.processes.get(p as usize)?.stack)
    }

    /// Makes a step that fits the register, and returns its events, at most two. If the step isn't
    /// enabled, its one event is a `Void`, and nothing changes.
    #[inline(always)]
    pub fn step(&mut self, step: Step) -> StepEvents
        requires { fits_step (R.behaviour self.old.register) step ≡ true }
        ensures events { result ≡ events_of (R.behaviour self.old.register) self.old step }
        ensures after { self.new ≡ stepped (R.behaviour self.old.register) self.old step }
    {
        let who = step.process();
        if self.has_stopped(who) {
            return one_event(Event::Void(who, Reason::Stopped));
        }
        self.act(step)
    }

    /// Whether process `who`, which must exist, has stopped.
    #[inline(always)]
    fn has_stopped(&self, who: u32) -> bool
        requires { who < (R.behaviour self.now.register).processes }
        ensures { result ≡ is_stopped who self.now }
    {
        self.processes[who as usize].stopped
    }

    /// Makes the step, without testing whether its process has stopped.
    #[inline(always)]
    fn act(&mut self, step: Step) -> StepEvents
        requires { fits_step (R.behaviour self.old.register) step ≡ true }
        ensures { let p = process_of step in
            HasStepEffect p (acting (R.behaviour self.old.register) step (running_at p self.old)
            self.old.memory)
            (with_stop_mark step self.old) result self.new }
    {
        match step {
            Step::Write { p, v } => self.invoke(p, Op::Write(v)),
            Step::Read { p } => self.invoke(p, Op::Read),
            Step::Go { p, c } => self.proceed(p, c),
            Step::Stop { p } => self.stop(p),
        }
    }

    /// Process `who` stops. Its operation stays pending, and no cell or word changes.
    fn stop(&mut self, who: u32) -> StepEvents
        requires { who < (R.behaviour self.old.register).processes }
        ensures { HasStepEffect who
            (only_records (Event.Stop who) (running_at who self.old) self.old.memory)
            (record self.old { stopped = slice_set self.old.stopped who true }) result self.new }
    {
        mark_stopped(&mut self.processes, who);
        one_event(Event::Stop(who))
    }

    /// Process `who` invokes `op`. If the process has an operation pending already, the step is
    /// void.
    #[inline(always)]
    fn invoke(&mut self, who: u32, op: Op) -> StepEvents
        requires { (R.behaviour self.old.register).suits who op ≡ true }
        ensures { HasStepEffect who (invoking (R.behaviour self.old.register) who op
            (running_at who self.old) self.old.memory) self.old result self.new }
    {
        let stack = &mut self.processes[who as usize].stack;
        invoke_own(&self.register, &mut self.store, who, op, stack)
    }

    /// Process `who` makes its next bit action. A hit read of a bit gives 1 if `c` is 1, and else
    /// 0. If the process has no operation pending, the step is void.
    #[inline(always)]
    fn proceed(&mut self, who: u32, c: u32) -> StepEvents
        requires { who < (R.behaviour self.old.register).processes }
        ensures { HasStepEffect who (going (R.behaviour self.old.register) who (c == 1)
            (running_at who self.old) self.old.memory) self.old result self.new }
    {
        let stack = &mut self.processes[who as usize].stack;
        proceed_own(&self.register, &mut self.store, who, stack, c)
    }
}

/// Marks process `who` as stopped; its operation stays pending.
fn mark_stopped(processes: &mut [ProcessState], who: u32)
    requires { who < length processes.old }
    ensures stacks { stacks_of processes.new ≡ stacks_of processes.old }
    ensures marks { marks_of processes.new ≡ slice_set (marks_of processes.old) who true }
{
    processes[who as usize].stopped = true;
}

/// A list of `processes` processes. None has an operation pending, and none has stopped.
fn all_idle(alloc: Global, processes: u32) -> Result<Vec<ProcessState>, AllocError>
    ensures { IfOk result (λ all. all.items ≡ replicate processes idle) }
{
    let mut all = Vec::with_capacity(alloc, processes as usize)?;
    for _ in 0..processes {
        all.push_reserved(ProcessState::idle());
    }
    Ok(all)
}

/// A copy of each process, in the same order.
fn copies(alloc: Global, processes: &[ProcessState]) -> Result<Vec<ProcessState>, AllocError>
    ensures { IfOk result (λ copied. copied.items ≡ processes.now) }
{
    let mut copied = Vec::with_capacity(alloc, processes.len())?;
    for process in processes {
        copied.push_reserved(process.copy());
    }
    Ok(copied)
}
