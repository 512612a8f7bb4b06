//! The search for all answers.

ghost use Rattle.std.specs.Prelude.{◌≡◌, ◌+◌, ◌*◌, ◌/◌, ◌%◌, ◌<◌, ◌≤◌, [], Err, IfOk, OnOk, length, replicate, slice_get, Some};
ghost use Rattle.std.specs.List.{list_any};
ghost use Rattle.breadth_first.specs.Paths.{depth_at};
ghost use Rattle.std.specs.Bool.{Decides};
ghost use Rattle.answers.specs.declared.find.TheConstants.{MOST_STATES};
ghost use Rattle.answers.specs.declared.found.Unfound.TheVariants.{TooMany, Unfit};
ghost use Rattle.answers.specs.laws.StateLaws.{answers_eq};
ghost use Rattle.answers.specs.Questions.{FitsQuestion};
ghost use Rattle.answers.specs.States as spec;
ghost use Rattle.answers.specs.States.{StateOf, first_state};
ghost use Rattle.answers.specs.Answers.{AllAnswered};
ghost use Rattle.answers.specs.Gathered.{AreTooManyStates, IsBuilding, IsGathered, IsSearched};

use crate::fits::fits;
use crate::found::{Found, Possible, Unfound};
use crate::key::StateKey;
use crate::moves::{KINDS, Moves, copy_answers, step_by};
use crate::outcomes::{Outcomes, no_answers};
use crate::question::Question;
use crate::state::State;
use crate::tidy::tidy;
use breadth_first::mark::{Mark, Unreached};
use breadth_first::path::path_to;
use breadth_first::reach::{Reached, reach};
use frames::config::Config;
use frames::register::Register;
use frames::types::Step;
use std::alloc::{AllocError, Global};

impl<R: Register> State<R> {
    /// The initial state of a register that holds `value`.
    pub(crate) fn initial(alloc: Global, register: R, value: u32) -> Result<State<R>, AllocError>
        requires { value < (R.behaviour register).values }
        ensures { IfOk result (λ s. s ≡ first_state (R.behaviour register) value register) }
    {
        let config = Config::initial(alloc, register, value)?;
        let answers = no_answers(alloc, register.processes())?;
        State::new(alloc, config, answers)
    }
}

/// A state, and the steps of a schedule that leads to it.
#[derive(Drop)]
struct Walk<R: Register> {
    state: State<R>,
    steps: Vec<Step>,
}

/// The step of the move that a mark notes, from the state that the move leads from.
fn step_at<'q, R: Register>(moves: &Moves<'q, R>, state: &State<R>, mark: Mark) -> Option<Step>
    requires labelled { mark.label < (R.behaviour moves.now.register).processes * 4 }
    ensures { result ≡ spec.step_by moves.now.question.now state.now.answers (mark.label / 4)
        (mark.label % 4) }
{
    // for the proof: reading a field opens the model, so what its invariant says is known
    let _processes = moves.register.processes();
    step_by(
        moves.question,
        state.answers(),
        (mark.label / KINDS) as u32,
        mark.label % KINDS,
    )
}

/// The state to which a path leads from `start`, and the steps along the path.
fn walk_along<'q, R: Register>(
    alloc: Global,
    moves: &Moves<'q, R>,
    start: State<R>,
    path: &[Mark],
) -> Result<Walk<R>, AllocError>
    requires { (end : StateOf R R.Pending) × IsBuilding R.behaviour
        (R.behaviour moves.now.register) moves.now.question.now end start [] path.now }
    ensures led { IfOk result (λ w. (end : StateOf R R.Pending)
        → IsBuilding R.behaviour (R.behaviour moves.now.register) moves.now.question.now end
        start [] path.now
        → IsBuilding R.behaviour (R.behaviour moves.now.register) moves.now.question.now end
        w.state w.steps.items []) }
    ensures long { IfOk result (λ w. length w.steps.items ≡ length path.now) }
{
    let mut state = start;
    let mut steps = Vec::new(alloc);
    for mark in path {
        let Some(step) = step_at(moves, &state, *mark) else {
            unreachable!();
        };
        let Ok(next) = state.advanced(alloc, step) else {
            return Err(AllocError);
        };
        let Ok(()) = steps.push(step) else {
            return Err(AllocError);
        };
        state = next;
    }
    Ok(Walk { state, steps })
}

/// The state at `index`, and the steps of a shortest schedule that leads to it.
fn walk_to<'q, R: Register>(
    alloc: Global,
    moves: &Moves<'q, R>,
    reached: &Reached<StateKey>,
    index: u32,
) -> Result<Walk<R>, AllocError>
    requires value { moves.now.question.now.value < (R.behaviour moves.now.register).values }
    requires searched { IsSearched R.behaviour R.PartialEq.eq R.Pending.PartialEq.eq
        moves.now.question.now moves.now.register (R.Holds moves.now.register)
        (R.Reaches moves.now.register) reached.now.keys.keys reached.now.goals.items
        reached.now.marks.items }
    requires there { index < length reached.now.marks.items }
    ensures led { IfOk result (λ w. (s : IsSearched R.behaviour R.PartialEq.eq
        R.Pending.PartialEq.eq moves.now.question.now moves.now.register
        (R.Holds moves.now.register) (R.Reaches moves.now.register) reached.now.keys.keys
        reached.now.goals.items reached.now.marks.items)
        (k : StateOf R R.Pending) → slice_get s.nodes index ≡ Some k
        → IsBuilding R.behaviour (R.behaviour moves.now.register) moves.now.question.now k
        w.state w.steps.items []) }
    ensures long { IfOk result (λ w. length w.steps.items
        ≡ depth_at reached.now.marks.items index) }
{
    let path = path_to(alloc, moves, &reached.marks, index)?;
    let start = State::initial(alloc, moves.register, moves.question.value)?;
    walk_along(alloc, moves, start, &path)
}

/// Whether these answers are those of `possible`.
fn has_answers(possible: &Possible, answers: &[Outcomes]) -> bool
    ensures { result ≡ answers_eq possible.now.answers.items answers.now }
{
    possible.answers.as_slice() == answers
}

/// Whether these answers are listed.
fn is_listed(found: &[Possible], answers: &[Outcomes]) -> bool
    ensures { result ≡ list_any (λ a. answers_eq a.answers.items answers.now) found.now }
{
    found.iter().any(|possible| has_answers(possible, answers))
}

/// Lists the answers of the state at `index`, if it is done, and they aren't listed.
fn gather_one<'q, R: Register>(
    alloc: Global,
    moves: &Moves<'q, R>,
    reached: &Reached<StateKey>,
    index: u32,
    found: &mut Vec<Possible>,
) -> Result<(), AllocError>
    requires value { moves.now.question.now.value < (R.behaviour moves.now.register).values }
    requires searched { IsSearched R.behaviour R.PartialEq.eq R.Pending.PartialEq.eq
        moves.now.question.now moves.now.register (R.Holds moves.now.register)
        (R.Reaches moves.now.register) reached.now.keys.keys reached.now.goals.items
        reached.now.marks.items }
    requires there { index < length reached.now.marks.items }
    ensures { OnOk result ((s : IsSearched R.behaviour R.PartialEq.eq R.Pending.PartialEq.eq
        moves.now.question.now moves.now.register (R.Holds moves.now.register)
        (R.Reaches moves.now.register) reached.now.keys.keys reached.now.goals.items
        reached.now.marks.items)
        → IsGathered (R.behaviour moves.now.register) moves.now.question.now s.nodes
        reached.now.marks.items index found.old.items
        → IsGathered (R.behaviour moves.now.register) moves.now.question.now s.nodes
        reached.now.marks.items (index + 1) found.new.items) }
{
    if !reached.goals[index as usize] {
        return Ok(());
    }
    let Ok(walk) = walk_to(alloc, moves, reached, index) else {
        return Err(AllocError);
    };
    let Walk { state, steps } = walk;
    if is_listed(found, state.answers()) {
        return Ok(());
    }
    let Ok(answers) = copy_answers(alloc, state.answers()) else {
        return Err(AllocError);
    };
    let Ok(()) = found.push(Possible { answers, steps }) else {
        return Err(AllocError);
    };
    Ok(())
}

/// Lists the answers of all states that are done.
fn gather<'q, R: Register>(
    alloc: Global,
    moves: &Moves<'q, R>,
    reached: &Reached<StateKey>,
    most: u32,
) -> Result<Vec<Possible>, AllocError>
    requires value { moves.now.question.now.value < (R.behaviour moves.now.register).values }
    requires searched { IsSearched R.behaviour R.PartialEq.eq R.Pending.PartialEq.eq
        moves.now.question.now moves.now.register (R.Holds moves.now.register)
        (R.Reaches moves.now.register) reached.now.keys.keys reached.now.goals.items
        reached.now.marks.items }
    requires few { length reached.now.keys.keys ≤ most }
    ensures { IfOk result (λ found. AllAnswered (R.behaviour moves.now.register)
        moves.now.question.now found.items) }
{
    let mut found = Vec::new(alloc);
    for index in 0..most {
        if index as usize >= reached.marks.len() {
            break;
        }
        let Ok(()) = gather_one(alloc, moves, reached, index, &mut found) else {
            return Err(AllocError);
        };
    }
    Ok(found)
}

/// All states that the question's schedules reach, if they are at most `most`. The error
/// is never `Unfit`.
fn explore<'q, R: Register>(
    alloc: Global,
    moves: &Moves<'q, R>,
    most: u32,
) -> Result<Reached<StateKey>, Unfound>
    requires { moves.now.question.now.value < (R.behaviour moves.now.register).values }
    ensures searched { IfOk result (λ r. IsSearched R.behaviour R.PartialEq.eq
        R.Pending.PartialEq.eq moves.now.question.now moves.now.register
        (R.Holds moves.now.register) (R.Reaches moves.now.register) r.keys.keys r.goals.items
        r.marks.items) }
    ensures few { IfOk result (λ r. length r.keys.keys ≤ most) }
    ensures fit { result ≡ Err Unfit → ⊥ }
    ensures too_many { result ≡ Err TooMany → AreTooManyStates R.behaviour R.PartialEq.eq
        R.Pending.PartialEq.eq moves.now.question.now moves.now.register most }
{
    let Ok(start) = State::initial(alloc, moves.register, moves.question.value) else {
        return Err(Unfound::Memory);
    };
    match reach(alloc, moves, start, most) {
        Ok(reached) => Ok(reached),
        Err(Unreached::TooMany) => Err(Unfound::TooMany),
        Err(Unreached::Memory) => Err(Unfound::Memory),
    }
}

/// All answers to a question whose initial value is one of the register's values. The error
/// is never `Unfit`.
fn answer<'q, R: Register>(alloc: Global, moves: &Moves<'q, R>, most: u32) -> Result<Found, Unfound>
    requires { moves.now.question.now.value < (R.behaviour moves.now.register).values }
    ensures answered { IfOk result (λ f. AllAnswered (R.behaviour moves.now.register)
        moves.now.question.now f.possible.items) }
    ensures few { IfOk result (λ f. f.states ≤ most) }
    ensures fit { result ≡ Err Unfit → ⊥ }
    ensures too_many { result ≡ Err TooMany → AreTooManyStates R.behaviour R.PartialEq.eq
        R.Pending.PartialEq.eq moves.now.question.now moves.now.register most }
{
    let reached = match explore(alloc, moves, most) {
        Ok(reached) => reached,
        Err(why) => return Err(why),
    };
    let Ok(mut possible) = gather(alloc, moves, &reached, most) else {
        return Err(Unfound::Memory);
    };
    let Ok(()) = tidy(alloc, moves, &mut possible) else {
        return Err(Unfound::Memory);
    };
    let states = reached.keys.len();
    Ok(Found { possible, states })
}

/// The most states that a search may be allowed.
pub const MOST_STATES: u32 = 16_777_216;

/// All answers that schedules of what is asked have, each once, with a shortest schedule. `Unfit`
/// if the question doesn't fit the register, or `most_states` isn't 1 to `MOST_STATES`; `TooMany`
/// if more than `most_states` states are reachable; `Memory` if memory runs out.
pub fn find<R: Register>(
    alloc: Global,
    register: &R,
    question: &Question,
    most_states: u32,
) -> Result<Found, Unfound>
    ensures answered { IfOk result (λ f. AllAnswered (R.behaviour register.now) question.now
        f.possible.items) }
    ensures few { IfOk result (λ f. f.states ≤ most_states) }
    ensures fits { IfOk result (λ _. FitsQuestion (R.behaviour register.now) question.now) }
    ensures limit { IfOk result (λ _. (1 ≤ most_states) × (most_states ≤ MOST_STATES)) }
    ensures unfit { result ≡ Err Unfit → FitsQuestion (R.behaviour register.now) question.now
        → 1 ≤ most_states → most_states ≤ MOST_STATES → ⊥ }
    ensures too_many { result ≡ Err TooMany → AreTooManyStates R.behaviour R.PartialEq.eq
        R.Pending.PartialEq.eq question.now register.now most_states }
{
    if !is_limit(most_states) {
        return Err(Unfound::Unfit);
    }
    let Ok(fit) = fits(alloc, register, question) else {
        return Err(Unfound::Memory);
    };
    if !fit {
        return Err(Unfound::Unfit);
    }
    let moves = Moves {
        register: *register,
        question,
    };
    answer(alloc, &moves, most_states)
}

/// Whether a search may be allowed this number of states: 1 to `MOST_STATES`.
fn is_limit(most_states: u32) -> bool
    ensures { Decides result ((1 ≤ most_states) × (most_states ≤ MOST_STATES)) }
{
    1 <= most_states && most_states <= MOST_STATES
}
