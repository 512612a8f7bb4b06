//! The bytes of a state, under which the search keeps it.

ghost use Rattle.std.specs.Prelude.{◌≡◌, ◌+◌, ◌*◌, ◌^◌, ◌<◌, ◌≤◌, ℕ, List, [], ◌∷◌, ◌++◌, length, map, slice_index_or, if◌then◌else◌, IfOk, OnOk, vec_len, vec_capacity};
ghost use Rattle.frames.specs.Configuration.{is_stopped, running_at};
ghost use Rattle.frames.specs.Flat.{stack_of};
ghost use Rattle.frames.specs.declared.types.TheConstants.{STACK_FRAMES};
ghost use Rattle.frames.specs.declared.types.Outcome.TheVariants.{Spent};
ghost use Rattle.answers.specs.Packing as spec;

use crate::outcomes::Outcomes;
use frames::config::Config;
use frames::register::Register;
use frames::types::{Frame, FrameLayer, Layer, Op, Outcome};
use safe_bit::{Cell, Store};
use std::alloc::{AllocError, Global};

/// Room for the bytes of most states.
const ROOM: usize = 256;

/// A number below 32 for a cell: a bit for each of its fields, and two for the value being written.
#[inline]
fn cell_code(cell: Cell) -> u64
    ensures { result ≡ spec.cell_code cell }
{
    let value = if cell.value { 1 } else { 0 };
    let writing = match cell.writing {
        None => 0,
        Some(false) => 2,
        Some(true) => 4,
    };
    let reading = if cell.reading { 8 } else { 0 };
    let hit = if cell.hit { 16 } else { 0 };
    value + writing + reading + hit
}

/// A number for an operation: 0 for a read, one more than its value for a write.
fn op_code(op: Op) -> u64
    ensures code { result ≡ spec.op_code op }
    ensures low { result ≤ 2 ^ 32 }
{
    match op {
        Op::Read => 0,
        Op::Write(v) => u64::from(v) + 1,
    }
}

/// A number for a frame's layer; one for all layers with names of their own.
fn layer_code(layer: FrameLayer) -> u64
    ensures code { result ≡ spec.layer_code layer }
    ensures low { result ≤ 7 }
{
    match layer {
        FrameLayer::Safe => 0,
        FrameLayer::Copies => 1,
        FrameLayer::Regular => 2,
        FrameLayer::Unary => 3,
        FrameLayer::Stamped => 4,
        FrameLayer::MatrixRead => 5,
        FrameLayer::MatrixWrite => 6,
        FrameLayer::Named(_) => 7,
    }
}

/// A number for an outcome: 0 to 2 for one without a value, or else three more than its value.
fn outcome_code(outcome: Outcome) -> u64
    ensures { result ≡ spec.outcome_code outcome }
{
    match outcome {
        Outcome::Written => 0,
        Outcome::Spent(layer) => spent_code(layer),
        Outcome::Value(v) => u64::from(v) + 3,
    }
}

/// The number for the outcome that a layer's stamps or tags are spent.
fn spent_code(layer: Layer) -> u64
    ensures { result ≡ spec.outcome_code (Spent layer) }
{
    match layer {
        Layer::Stamped => 1,
        Layer::Matrix => 2,
    }
}

/// Adds a byte.
// (inlined: `push` makes a call to see whether there is room)
#[inline(always)]
fn add_byte(bytes: &mut Vec<u8>, byte: u8) -> Result<(), AllocError>
    ensures { OnOk result (bytes.new.items ≡ bytes.old.items ++ byte ∷ []) }
{
    if bytes.len() == bytes.capacity() {
        take_room(bytes)?;
    }
    bytes.push_reserved(byte);
    Ok(())
}

/// Reserves memory for `ROOM` more bytes.
#[cold]
#[inline(never)]
fn take_room(bytes: &mut Vec<u8>) -> Result<(), AllocError>
    ensures items { bytes.new.items ≡ bytes.old.items }
    ensures room { OnOk result (vec_len bytes.new < vec_capacity bytes.new) }
{
    bytes.reserve(ROOM)
}

/// Adds the four bytes of a number below 2^32, the lowest first.
fn add_half(bytes: &mut Vec<u8>, number: u64) -> Result<(), AllocError>
    requires { number < 2 ^ 32 }
    ensures { OnOk result (bytes.new.items ≡ bytes.old.items ++ spec.half_bytes number) }
{
    add_byte(bytes, (number % 256) as u8)?;
    add_byte(bytes, (number / 256 % 256) as u8)?;
    add_byte(bytes, (number / 256 / 256 % 256) as u8)?;
    add_byte(bytes, (number / 256 / 256 / 256) as u8)?;
    Ok(())
}

/// Adds the bytes of a number that isn't small: two if its first one is below 255, or else nine.
// (not inlined, so that what adds a small number stays short)
#[inline(never)]
fn add_large(bytes: &mut Vec<u8>, number: u64) -> Result<(), AllocError>
    requires { 192 ≤ number }
    ensures { OnOk result (bytes.new.items ≡ bytes.old.items ++ spec.number_bytes number) }
{
    if number < 16128 {
        add_byte(bytes, (192 + number / 256) as u8)?;
        add_byte(bytes, (number % 256) as u8)?;
        return Ok(());
    }
    add_byte(bytes, 255)?;
    add_half(bytes, number % (1 << 32))?;
    add_half(bytes, number / (1 << 32))
}

/// Adds the bytes of a number: one, if it is below 192.
#[inline(always)]
fn add_number(bytes: &mut Vec<u8>, number: u64) -> Result<(), AllocError>
    ensures { OnOk result (bytes.new.items ≡ bytes.old.items ++ spec.number_bytes number) }
{
    if number < 192 {
        add_byte(bytes, number as u8)?;
        return Ok(());
    }
    add_large(bytes, number)
}

/// Adds a number of a list that has `gap` zeros before it. Returns the number of zeros before the
/// list's next number.
#[inline(always)]
fn add_after(bytes: &mut Vec<u8>, gap: u64, number: u64) -> Result<u64, AllocError>
    requires { gap < 2 ^ 32 }
    ensures added { IfOk result (λ next. (later : List ℕ)
        → bytes.new.items ++ spec.packed (spec.by_gaps next later)
        ≡ bytes.old.items ++ spec.packed (spec.by_gaps gap (number ∷ later))) }
    ensures low { IfOk result (λ next. next ≤ gap + 1) }
{
    if number == 0 {
        return Ok(gap + 1);
    }
    if number == 1 {
        add_number(bytes, 2 * gap)?;
        return Ok(0);
    }
    add_number(bytes, 2 * gap + 1)?;
    add_number(bytes, number)?;
    Ok(0)
}

/// Adds the numbers for a list of cells, which are below 32 and mostly 0.
fn add_cells(bytes: &mut Vec<u8>, cells: &[Cell]) -> Result<(), AllocError>
    requires { length cells.now < 2 ^ 32 }
    ensures { OnOk result (bytes.new.items
        ≡ bytes.old.items ++ spec.packed (spec.by_gaps 0 (map spec.cell_code cells.now))) }
{
    let mut gap = 0;
    for cell in cells {
        gap = add_after(bytes, gap, cell_code(*cell))?;
    }
    add_number(bytes, 2 * gap)
}

/// Adds the numbers for a list of words, which are mostly 0.
fn add_words(bytes: &mut Vec<u8>, words: &[u32]) -> Result<(), AllocError>
    requires { length words.now < 2 ^ 32 }
    ensures { OnOk result (bytes.new.items
        ≡ bytes.old.items ++ spec.packed (spec.by_gaps 0 words.now)) }
{
    let mut gap = 0;
    for word in words {
        gap = add_after(bytes, gap, u64::from(*word))?;
    }
    add_number(bytes, 2 * gap)
}

/// Adds the numbers for all cells and words of a store.
fn add_store(bytes: &mut Vec<u8>, store: &Store) -> Result<(), AllocError>
    ensures { OnOk result (bytes.new.items
        ≡ bytes.old.items ++ spec.packed (spec.memory_numbers store.now)) }
{
    store.lemma_numbered();
    add_cells(bytes, store.cells())?;
    add_words(bytes, store.words())
}

/// Adds the letters of a layer's own name, if it has one.
fn add_name(bytes: &mut Vec<u8>, layer: FrameLayer) -> Result<(), AllocError>
    ensures { OnOk result (bytes.new.items
        ≡ bytes.old.items ++ spec.packed (spec.name_numbers layer)) }
{
    if let FrameLayer::Named(name) = layer {
        add_number(bytes, u64::from(name.0))?;
        add_number(bytes, u64::from(name.1))?;
        add_number(bytes, u64::from(name.2))?;
    }
    Ok(())
}

/// Adds the numbers for a frame.
fn add_frame(bytes: &mut Vec<u8>, frame: Frame) -> Result<(), AllocError>
    ensures { OnOk result (bytes.new.items
        ≡ bytes.old.items ++ spec.packed (spec.frame_numbers frame)) }
{
    add_number(bytes, layer_code(frame.layer) + 8 * op_code(frame.op))?;
    add_number(bytes, u64::from(frame.i))?;
    add_number(bytes, u64::from(frame.x))?;
    add_name(bytes, frame.layer)
}

/// Adds the numbers for frames, without their count.
fn add_frames(bytes: &mut Vec<u8>, frames: &[Frame]) -> Result<(), AllocError>
    ensures { OnOk result (bytes.new.items
        ≡ bytes.old.items ++ spec.packed (spec.frames_numbers frames.now)) }
{
    for frame in frames {
        add_frame(bytes, *frame)?;
    }
    Ok(())
}

/// Adds the numbers for a stack and a stop mark: one for the count and the mark, then the frames'.
fn add_stack(bytes: &mut Vec<u8>, frames: &[Frame], stopped: bool) -> Result<(), AllocError>
    requires { length frames.now ≤ STACK_FRAMES }
    ensures { OnOk result (bytes.new.items
        ≡ bytes.old.items ++ spec.packed (spec.stack_numbers frames.now stopped)) }
{
    let stop = if stopped { 1 } else { 0 };
    add_number(bytes, 2 * frames.len() as u64 + stop)?;
    add_frames(bytes, frames)
}

/// Adds the numbers for outcomes: their count, and one for each.
fn add_outcomes(bytes: &mut Vec<u8>, outcomes: &[Outcome]) -> Result<(), AllocError>
    ensures { OnOk result (bytes.new.items
        ≡ bytes.old.items ++ spec.packed (spec.outcomes_numbers outcomes.now)) }
{
    add_number(bytes, outcomes.len() as u64)?;
    for outcome in outcomes {
        add_number(bytes, outcome_code(*outcome))?;
    }
    Ok(())
}

/// Adds process `p`'s frames and stop mark.
fn add_pending<R: Register>(
    bytes: &mut Vec<u8>,
    config: &Config<R>,
    p: u32,
) -> Result<(), AllocError>
    ensures { OnOk result (bytes.new.items ≡ bytes.old.items ++ spec.packed
        (spec.stack_numbers (stack_of (R.behaviour config.now.register) (running_at p config.now))
        (is_stopped p config.now))) }
{
    let stopped = config.stopped(p);
    match config.stack(config.store().allocator(), p) {
        Some(stack) => add_stack(bytes, stack.as_slice(), stopped),
        None => add_stack(bytes, &[], stopped),
    }
}

/// Adds the outcomes of process `p`'s operations.
fn add_answers(bytes: &mut Vec<u8>, answers: &[Outcomes], p: u32) -> Result<(), AllocError>
    ensures { OnOk result (bytes.new.items ≡ bytes.old.items
        ++ spec.packed (spec.outcomes_numbers (slice_index_or answers.now p []))) }
{
    match answers.get(p as usize) {
        Some(outcomes) => add_outcomes(bytes, outcomes.as_slice()),
        None => add_outcomes(bytes, &[]),
    }
}

/// Adds the numbers for process `p`: for its frames, its stop mark and its outcomes.
fn add_process<R: Register>(
    bytes: &mut Vec<u8>,
    config: &Config<R>,
    answers: &[Outcomes],
    p: u32,
) -> Result<(), AllocError>
    ensures { OnOk result (bytes.new.items ≡ bytes.old.items ++ spec.packed
        (spec.process_numbers (R.behaviour config.now.register) config.now.running
        config.now.stopped answers.now p)) }
{
    add_pending(bytes, config, p)?;
    add_answers(bytes, answers, p)
}

/// The bytes of a configuration and answers: of all cells, words, frames, stops and answers.
pub(crate) fn bytes_of<R: Register>(
    alloc: Global,
    config: &Config<R>,
    answers: &[Outcomes],
) -> Result<Vec<u8>, AllocError>
    ensures { IfOk result (λ bytes. bytes.items
        ≡ spec.packed (spec.state_numbers (R.behaviour config.now.register)
        config.now.memory config.now.running config.now.stopped answers.now)) }
{
    let mut bytes = Vec::with_capacity(alloc, ROOM)?;
    add_store(&mut bytes, config.store())?;
    for p in 0..config.register().processes() {
        add_process(&mut bytes, config, answers, p)?;
    }
    // a copy has no room to spare
    Vec::from_slice(alloc, &bytes)
}
