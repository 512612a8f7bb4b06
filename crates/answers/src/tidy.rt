//! Of the shortest schedules with the same answers, one that is easy to read: with the fewest hit
//! reads, and then with the fewest switches between processes.
//!
//! A dynamic program over the number of steps. Of the drafts of one length that are alike
//! (`is_like`), the easiest to read is kept; each process makes as many steps as in the schedule
//! given. No clause says that the result is the easiest of all. That it is a schedule with the same
//! answers, and as long, is seen by a replay, and is proved.

ghost use Rattle.std.specs.Prelude.{◌≡◌, ◌<◌, Some, IfOk, IfSome, OnOk, length, slice_get, slice_set};
ghost use Rattle.answers.specs.declared.found.Possible.{Possible};
ghost use Rattle.answers.specs.Answers.{AllAnswered, HasItsSchedule};
ghost use Rattle.answers.specs.States.{IsStateOfRun};
ghost use Rattle.answers.specs.laws.StateLaws.{answers_eq};

use crate::done::is_done;
use crate::draft::{Draft, first_draft, replayed, step_after};
use crate::found::Possible;
use crate::moves::{KINDS, Moves};
use crate::outcomes::Outcomes;
use crate::state::State;
use frames::register::Register;
use frames::types::Step;
use std::alloc::{AllocError, Global};

/// The most drafts of one length that are kept.
const MOST_DRAFTS: usize = 32;

/// The most lists whose schedules are made easier to read: with more, it would take longer than the
/// search.
const MOST_LISTS: usize = 16;

/// The index of a kept draft that this one may replace: the one that is like it or, if
/// `MOST_DRAFTS` are kept, the hardest to read. `None` if there is no such draft.
fn rival<R: Register>(drafts: &[Draft<R>], draft: &Draft<R>) -> Option<usize>
    ensures { IfSome result (λ index. index < length drafts.now) }
{
    let mut costliest = 0;
    for index in 0..drafts.len() {
        if drafts[index].is_like(draft) {
            return Some(index);
        }
        if drafts[costliest].is_easier(&drafts[index]) {
            costliest = index;
        }
    }
    if drafts.len() < MOST_DRAFTS {
        None
    } else {
        Some(costliest)
    }
}

/// Keeps a draft if it has no rival, or in place of its rival if it is easier to read.
fn keep<R: Register>(drafts: &mut Vec<Draft<R>>, draft: Draft<R>) -> Result<(), AllocError> {
    match rival(drafts, &draft) {
        Some(index) => {
            if draft.is_easier(&drafts[index]) {
                drafts[index] = draft;
            }
        }
        None => drafts.push(draft)?,
    }
    Ok(())
}

/// Keeps the drafts that are one step longer, and may become easier than `given`.
fn keep_longer<'q, R: Register>(
    alloc: Global,
    moves: &Moves<'q, R>,
    given: &Draft<R>,
    draft: &Draft<R>,
    kept: &mut Vec<Draft<R>>,
) -> Result<(), AllocError> {
    for p in 0..moves.register.processes() {
        for kind in 0..KINDS {
            let Some(step) = step_after(moves, draft, p, kind) else {
                continue;
            };
            if !draft.may_take(given, step) {
                continue;
            }
            let Ok(longer) = draft.with_step(alloc, step) else {
                return Err(AllocError);
            };
            if !longer.agrees(given, p) {
                continue;
            }
            let Ok(()) = keep(kept, longer) else {
                return Err(AllocError);
            };
        }
    }
    Ok(())
}

/// The drafts that are as long as `given`, and easier.
fn easier_drafts<'q, R: Register>(
    alloc: Global,
    moves: &Moves<'q, R>,
    given: &Draft<R>,
) -> Result<Vec<Draft<R>>, AllocError>
    requires { moves.now.question.now.value < (R.behaviour moves.now.register).values }
{
    let mut drafts = Vec::new(alloc);
    let Ok(first) = first_draft(alloc, moves) else {
        return Err(AllocError);
    };
    let Ok(()) = drafts.push(first) else {
        return Err(AllocError);
    };
    for _ in 0..given.steps.len() {
        let mut kept = Vec::new(alloc);
        for draft in &drafts {
            let Ok(()) = keep_longer(alloc, moves, given, draft, &mut kept) else {
                return Err(AllocError);
            };
        }
        drafts = kept;
    }
    Ok(drafts)
}

/// The easiest of `given` and of the drafts that are done.
fn easiest<'d, 'q, R: Register>(
    moves: &Moves<'q, R>,
    given: &'d Draft<R>,
    drafts: &'d [Draft<R>],
) -> &'d Draft<R> {
    let mut best = given;
    for draft in drafts {
        if draft.is_easier(best) && is_done(moves, &draft.state) {
            best = draft;
        }
    }
    best
}

/// Whether these are the state's answers.
fn has_answers<R: Register>(state: &State<R>, answers: &[Outcomes]) -> bool
    ensures { result ≡ answers_eq state.now.answers answers.now }
{
    state.answers() == answers
}

/// The draft's steps, if they are a schedule with the answers listed, as long as the one listed.
fn steps_like<'q, R: Register>(
    moves: &Moves<'q, R>,
    draft: Draft<R>,
    possible: &Possible,
) -> Option<Vec<Step>>
    requires { IsStateOfRun R.behaviour (R.behaviour moves.now.register)
        moves.now.question.now.value moves.now.question.now draft.steps.items draft.state }
    ensures sound { IfSome result (λ steps. HasItsSchedule (R.behaviour moves.now.register)
        moves.now.question.now (record possible.now { steps = steps })) }
    ensures long { IfSome result (λ steps.
        length steps.items ≡ length possible.now.steps.items) }
{
    if draft.steps.len() != possible.steps.len() {
        return None;
    }
    if !is_done(moves, &draft.state) {
        return None;
    }
    if !has_answers(&draft.state, &possible.answers) {
        return None;
    }
    Some(draft.steps)
}

/// The steps of a schedule as long as the one listed, with the same answers, and as easy or easier;
/// `None` if a replay doesn't show that it is one.
fn easier_steps<'q, R: Register>(
    alloc: Global,
    moves: &Moves<'q, R>,
    possible: &Possible,
) -> Result<Option<Vec<Step>>, AllocError>
    requires { moves.now.question.now.value < (R.behaviour moves.now.register).values }
    ensures sound { IfOk result (λ r. IfSome r (λ steps.
        HasItsSchedule (R.behaviour moves.now.register) moves.now.question.now
        (record possible.now { steps = steps }))) }
    ensures long { IfOk result (λ r. IfSome r (λ steps.
        length steps.items ≡ length possible.now.steps.items)) }
{
    let Ok(replay) = replayed(alloc, moves, &possible.steps) else {
        return Err(AllocError);
    };
    let Some(given) = replay else {
        return Ok(None);
    };
    let Ok(drafts) = easier_drafts(alloc, moves, &given) else {
        return Err(AllocError);
    };
    let best = easiest(moves, &given, &drafts);
    let Ok(again) = replayed(alloc, moves, &best.steps) else {
        return Err(AllocError);
    };
    match again {
        Some(draft) => Ok(steps_like(moves, draft, possible)),
        None => Ok(None),
    }
}

/// Replaces the steps of the schedule listed at `index`.
fn put(found: &mut Vec<Possible>, index: usize, steps: Vec<Step>)
    requires { index < length found.old.items }
    ensures { (a : Possible) → slice_get found.old.items index ≡ Some a
        → found.new.items ≡ slice_set found.old.items index (record a { steps = steps }) }
{
    found[index].steps = steps;
}

/// Replaces the schedule listed at `index` by one that is as easy to read, or easier.
fn tidy_one<'q, R: Register>(
    alloc: Global,
    moves: &Moves<'q, R>,
    found: &mut Vec<Possible>,
    index: usize,
) -> Result<(), AllocError>
    requires value { moves.now.question.now.value < (R.behaviour moves.now.register).values }
    requires there { index < length found.old.items }
    requires answered { AllAnswered (R.behaviour moves.now.register) moves.now.question.now
        found.old.items }
    ensures { OnOk result (AllAnswered (R.behaviour moves.now.register) moves.now.question.now
        found.new.items) }
{
    let Ok(easier) = easier_steps(alloc, moves, &found[index]) else {
        return Err(AllocError);
    };
    let Some(steps) = easier else {
        return Ok(());
    };
    put(found, index, steps);
    Ok(())
}

/// Replaces the schedules that are listed by ones that are as easy to read, or easier.
// (not inlined, so that what it costs can be measured)
#[inline(never)]
pub(crate) fn tidy<'q, R: Register>(
    alloc: Global,
    moves: &Moves<'q, R>,
    found: &mut Vec<Possible>,
) -> Result<(), AllocError>
    requires value { moves.now.question.now.value < (R.behaviour moves.now.register).values }
    requires answered { AllAnswered (R.behaviour moves.now.register) moves.now.question.now
        found.old.items }
    ensures { OnOk result (AllAnswered (R.behaviour moves.now.register) moves.now.question.now
        found.new.items) }
{
    if found.len() > MOST_LISTS {
        return Ok(());
    }
    for index in 0..found.len() {
        if index >= found.len() {
            break;
        }
        let Ok(()) = tidy_one(alloc, moves, found, index) else {
            return Err(AllocError);
        };
    }
    Ok(())
}
