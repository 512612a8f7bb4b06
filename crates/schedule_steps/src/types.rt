//! Operations, steps, and items of a schedule that hold a step.

ghost use Rattle.std.specs.Prelude.{◌≡◌};
ghost use Rattle.std.specs.Bool.{Decides};
ghost use Rattle.schedule_steps.specs.Steps.{process_of};

/// An operation of a register.
#[derive(Clone, Copy, Debug, PartialEq, Eq, Default)]
pub enum Op {
    /// A write of a value.
    Write(u32),
    /// A read.
    #[default]
    Read,
}

impl Op {
    /// Whether two operations are the same: `==`, with a contract that says so.
    pub fn is(self, other: Op) -> bool
        ensures { Decides result (self ≡ other) }
    {
        self == other
    }
}

/// One atomic step of a schedule.
#[derive(Clone, Copy, Debug, PartialEq, Eq)]
pub enum Step {
    /// Process `p` invokes a write of `v`.
    Write { p: u32, v: u32 },
    /// Process `p` invokes a read.
    Read { p: u32 },
    /// Process `p` makes its next bit action. If this ends a hit read of a bit, the read gives `c`,
    /// which is 0 or 1.
    Go { p: u32, c: u32 },
    /// Process `p` stops for good: it makes no further step.
    Stop { p: u32 },
}

impl Step {
    /// The process that makes the step.
    pub fn process(self) -> u32
        ensures { result ≡ process_of self }
    {
        match self {
            Step::Write { p, .. } | Step::Read { p } | Step::Go { p, .. } | Step::Stop { p } => p,
        }
    }
}

/// A step, or a schedule's item that holds a step.
pub trait HasStep: Copy {
    ghost use Rattle.schedule_steps.specs.declared.types.Step.{Step};

    // The item's step, as contracts see it.
    ghost step_in: { Self → Step };

    /// The step that the item holds.
    fn step(&self) -> Step
        ensures { result ≡ Self.step_in self.now };
}

impl HasStep for Step {
    ghost step_in = { λ s. s };

    #[inline(always)]
    fn step(&self) -> Step {
        *self
    }
}
