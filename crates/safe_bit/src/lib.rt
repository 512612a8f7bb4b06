//! Shared memory: cells and words. Each cell is a safe bit; a write of it takes two actions, and so
//! does a read. Each word is a number that a layer above keeps for itself.
//!
//! The four actions make a cell Lamport's safe register ("On Interprocess Communication", 1986): a
//! read that overlaps a write may give either value; any other read gives the value last written.
#![tactic(auto)]

ghost use Rattle.std.specs.Prelude.{◌≡◌, ◌<◌, ℕ, IfOk, length, Option, Some, None};
ghost use Rattle.safe_bit.specs.Actions.{idle_cell, start_write, end_write, start_read, end_read, read_gives};
ghost use Rattle.safe_bit.specs.Memory.{IsNumbered, blank, cell_at, word_at, on_cell, with_word};

use std::alloc::{AllocError, Global};
use std::marker::Model;

/// A safe bit: its value, the value being written, whether it is being read, and whether that read
/// is hit.
#[derive(Clone, Copy, Debug, PartialEq, Eq)]
pub struct Cell {
    /// The value that a read gives if it overlaps no write.
    pub value: bool,
    /// The value being written; `None` if no write is in progress.
    pub writing: Option<bool>,
    /// Whether a read is in progress.
    pub reading: bool,
    /// Whether the read in progress has overlapped a write.
    pub hit: bool,
}

/// A place in a store, at which a register's own memory begins; or a size, in cells and words.
#[derive(Clone, Copy, Debug, PartialEq, Eq, Default)]
pub struct Place {
    /// The first cell of a place, or the number of cells of a size.
    pub cell: u32,
    /// The first word of a place, or the number of words of a size.
    pub word: u32,
}

/// The shared memory: cells and words.
#[derive(Debug, Drop)]
pub struct Store {
    cells: Vec<Cell>,
    words: Vec<u32>,
}

impl Model for Store {
    ghost use Rattle.safe_bit.specs.Memory.{Memory, IsNumbered};

    ghost Value = { Memory };

    ghost view = { λ s. record { cells = s.cells.items; words = s.words.items } };

    ghost invariant = { λ s. IsNumbered (record { cells = s.cells.items; words = s.words.items }) };
}

/// Two stores are equal if their cells and their words are equal.
impl PartialEq for Store {
    ghost use Rattle.std.specs.Prelude.{◌≡◌};
    ghost use Rattle.std.specs.Bool.{Decides};
    ghost use Rattle.safe_bit.specs.laws.Equality.{memory_eq, memory_decides, per_from_decides};

    ghost eq = { memory_eq };

    ghost laws = { per_from_decides memory_eq memory_decides };

    fn eq(&self, other: &Store) -> bool
        ensures gives { result ≡ ⟦<Store as PartialEq>⟧.eq self.now other.now }
        ensures same { Decides result (self.now ≡ other.now) }
    {
        self.cells == other.cells && self.words == other.words
    }
}

impl Cell {
    const IDLE: Cell = Cell {
        value: false,
        writing: None,
        reading: false,
        hit: false,
    };
}

impl Store {
    /// A new store. It has `cells` idle cells, whose value is 0, and `words` words, which are 0.
    /// `AllocError` if memory runs out.
    pub fn new(alloc: Global, cells: u32, words: u32) -> Result<Store, AllocError>
        ensures { IfOk result (λ store. store ≡ blank cells words) }
    {
        let mut idle = Vec::with_capacity(alloc, cells as usize)?;
        idle.resize(cells as usize, Cell::IDLE)?;
        let mut zeros = Vec::with_capacity(alloc, words as usize)?;
        zeros.resize(words as usize, 0)?;
        Ok(Store {
            cells: idle,
            words: zeros,
        })
    }

    /// A store with the same cells and words. `AllocError` if memory runs out.
    pub fn copy(&self, alloc: Global) -> Result<Store, AllocError>
        ensures { IfOk result (λ store. store ≡ self.now) }
    {
        let cells = Vec::from_slice(alloc, &self.cells)?;
        let words = Vec::from_slice(alloc, &self.words)?;
        Ok(Store { cells, words })
    }

    /// The allocator that the store was made with.
    pub fn allocator(&self) -> Global {
        *self.cells.allocator()
    }

    /// Does nothing. Callers use its contract, which states that the store has fewer than 2^32
    /// cells and fewer than 2^32 words.
    pub fn lemma_numbered(&self)
        ensures { IsNumbered self.now }
    {
        // for the proof: reading a field opens the model, so what its invariant says is known
        let _cells = &self.cells;
    }

    /// The cells, in order.
    pub fn cells(&self) -> &[Cell]
        ensures { result.now ≡ self.now.cells }
    {
        &self.cells
    }

    /// The words, in order.
    pub fn words(&self) -> &[u32]
        ensures { result.now ≡ self.now.words }
    {
        &self.words
    }

    /// Cell `i`, which must exist.
    pub fn cell(&self, i: u32) -> Cell
        requires { i < length self.now.cells }
        ensures { result ≡ cell_at i self.now }
    {
        self.cells[i as usize]
    }

    /// Word `i`, which must exist.
    pub fn word(&self, i: u32) -> u32
        requires { i < length self.now.words }
        ensures { result ≡ word_at i self.now }
    {
        self.words[i as usize]
    }

    /// Sets word `i`, which must exist, to `x`, and changes nothing else.
    pub fn set_word(&mut self, i: u32, x: u32)
        requires { i < length self.old.words }
        ensures { self.new ≡ with_word i x self.old }
    {
        self.words[i as usize] = x;
    }

    /// Makes cell `i` hold `value`, with no write and no read in progress.
    pub fn set_value(&mut self, i: u32, value: bool)
        requires { i < length self.old.cells }
        ensures { self.new ≡ on_cell i (λ _. idle_cell value) self.old }
    {
        let cell = &mut self.cells[i as usize];
        *cell = Cell {
            value,
            ..Cell::IDLE
        };
    }

    /// Starts a write of `value` to cell `i`. If a read of the cell is in progress, it is now hit.
    pub fn start_write(&mut self, i: u32, value: bool)
        requires { i < length self.old.cells }
        ensures { self.new ≡ on_cell i (start_write value) self.old }
    {
        let cell = &mut self.cells[i as usize];
        cell.writing = Some(value);
        cell.hit = cell.hit || cell.reading;
    }

    /// Ends the write of cell `i`: the cell takes the value being written. If no write is in
    /// progress, nothing changes.
    pub fn end_write(&mut self, i: u32)
        requires { i < length self.old.cells }
        ensures { self.new ≡ on_cell i end_write self.old }
    {
        let cell = &mut self.cells[i as usize];
        cell.value = cell.writing.take().unwrap_or(cell.value);
    }

    /// Starts a read of cell `i`. The read is hit at once if a write of the cell is in progress.
    pub fn start_read(&mut self, i: u32)
        requires { i < length self.old.cells }
        ensures { self.new ≡ on_cell i start_read self.old }
    {
        let cell = &mut self.cells[i as usize];
        cell.reading = true;
        cell.hit = cell.writing.is_some();
    }

    /// Ends the read of cell `i`, so that no read of it is in progress. Returns `choice` if the
    /// read was hit, else the cell's value.
    pub fn end_read(&mut self, i: u32, choice: bool) -> bool
        requires { i < length self.old.cells }
        ensures value { result ≡ read_gives choice (cell_at i self.old) }
        ensures after { self.new ≡ on_cell i end_read self.old }
    {
        let cell = &mut self.cells[i as usize];
        let value = if cell.hit { choice } else { cell.value };
        cell.reading = false;
        cell.hit = false;
        value
    }
}
