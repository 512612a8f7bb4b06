//! The states of a search for answers, as nodes of a graph.

ghost use Rattle.std.specs.Prelude.{◌≡◌, true, IfOk};
ghost use Rattle.std.specs.Rc.{rc_value};
ghost use Rattle.frames.specs.Configuration.{events_of, fits_step};
ghost use Rattle.answers.specs.States.{advanced, with_events};

use crate::moves::{add_events, copy_answers, ends};
use crate::outcomes::Outcomes;
use frames::config::Config;
use frames::register::Register;
use frames::types::{Step, StepEvents};
use std::alloc::{AllocError, Global};
use std::marker::Model;
use std::rc::Rc;

/// A configuration, and for each process the outcomes of the operations that it has ended. A step
/// that ends no operation leads to a state that shares these.
#[derive(Drop)]
pub struct State<R: Register> {
    pub config: Config<R>,
    answers: Rc<Vec<Outcomes>>,
}

impl<R: Register> Model for State<R> {
    ghost use Rattle.std.specs.Rc.{rc_value};
    ghost use Rattle.answers.specs.States.{StateOf};

    ghost Value = { StateOf R R.Pending };

    ghost view = { λ s. record { configuration = s.config; answers = (rc_value s.answers).items } };
}

impl<R: Register> PartialEq for State<R> {
    ghost use Rattle.answers.specs.laws.StateLaws.{state_eq, state_per};

    ghost eq = { state_eq R.PartialEq.eq R.Pending.PartialEq.eq };

    ghost laws = { state_per R.PartialEq.eq R.Pending.PartialEq.eq R.same_pending R.PartialEq.laws };

    fn eq(&self, other: &State<R>) -> bool {
        self.answers() == other.answers() && self.config == other.config
    }
}

impl<R: Register> Eq for State<R> {
    ghost use Rattle.answers.specs.laws.StateLaws.{state_equivalence};

    ghost laws = { state_equivalence R.PartialEq.eq R.Pending.PartialEq.eq R.same_pending R.Eq.laws };
}

impl<R: Register> State<R> {
    /// The state of this configuration and these outcomes.
    pub(crate) fn new(
        alloc: Global,
        config: Config<R>,
        answers: Vec<Outcomes>,
    ) -> Result<State<R>, AllocError>
        ensures configuration { IfOk result (λ s. s.configuration ≡ config) }
        ensures answers { IfOk result (λ s. s.answers ≡ answers.items) }
    {
        let answers = Rc::new(alloc, answers)?;
        Ok(State { config, answers })
    }

    /// For each process the outcomes of the operations that it has ended.
    pub(crate) fn answers(&self) -> &[Outcomes]
        ensures { result.now ≡ self.now.answers }
    {
        self.answers.as_slice()
    }

    /// The state after a step that fits. `AllocError` if memory runs out.
    pub(crate) fn advanced(&self, alloc: Global, step: Step) -> Result<State<R>, AllocError>
        requires { fits_step (R.behaviour self.now.configuration.register) step ≡ true }
        ensures { IfOk result
            (λ s. s ≡ advanced (R.behaviour self.now.configuration.register) self.now step) }
    {
        let (state, _) = self.advanced_with_events(alloc, step)?;
        Ok(state)
    }

    /// The state after a step that fits, and the step's events. `AllocError` if memory runs out.
    #[inline(always)]
    pub(crate) fn advanced_with_events(
        &self,
        alloc: Global,
        step: Step,
    ) -> Result<(State<R>, StepEvents), AllocError>
        requires { fits_step (R.behaviour self.now.configuration.register) step ≡ true }
        ensures state { IfOk result
            (λ m. m.0 ≡ advanced (R.behaviour self.now.configuration.register) self.now step) }
        ensures events { IfOk result (λ m. m.1
            ≡ events_of (R.behaviour self.now.configuration.register) self.now.configuration step) }
    {
        let mut config = self.config.copy(alloc)?;
        let events = config.step(step);
        let answers = self.answers_after(alloc, step.process(), events)?;
        Ok((State { config, answers }, events))
    }

    /// The answers after a step of process `p` with these events: the same ones, shared, if it ends
    /// no operation.
    fn answers_after(
        &self,
        alloc: Global,
        p: u32,
        events: StepEvents,
    ) -> Result<Rc<Vec<Outcomes>>, AllocError>
        ensures { IfOk result
            (λ answers. (rc_value answers).items ≡ with_events p events self.now.answers) }
    {
        if !ends(p, events) {
            return self.answers.clone();
        }
        let mut answers = copy_answers(alloc, self.answers())?;
        add_events(&mut answers, p, events)?;
        let answers = Rc::new(alloc, answers)?;
        Ok(answers)
    }
}
