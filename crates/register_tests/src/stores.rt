//! Tests of stores. Calls that allocate succeed if there is plenty of memory, and a read overlaps a
//! write.

use safe_bit::{Cell, Store};
use std::test::Fail;

const IDLE: Cell = Cell {
    value: false,
    writing: None,
    reading: false,
    hit: false,
};

#[test]
fn new_is_blank(rt: HostRuntime) -> Result<(), Fail> {
    let store = Store::new(rt.alloc(), 2, 3)?;
    assert_eq!(rt; [store.cell(0), store.cell(1)], [IDLE; 2]);
    assert_eq!(rt; [store.word(0), store.word(1), store.word(2)], [0; 3]);
    Ok(())
}

#[test]
fn copy_is_independent(rt: HostRuntime) -> Result<(), Fail> {
    let mut store = Store::new(rt.alloc(), 2, 1)?;
    store.set_value(1, true);
    store.set_word(0, 7);
    let copy = store.copy(rt.alloc())?;
    assert!(rt; copy == store);
    store.set_word(0, 8);
    assert!(rt; copy != store);
    assert_eq!(rt; (copy.cell(1).value, copy.word(0)), (true, 7));
    Ok(())
}

/// A read that starts during a write and ends after it gives the chosen bit. The cell then holds
/// the bit that was written.
#[test]
fn overlapped_read(rt: HostRuntime) -> Result<(), Fail> {
    let mut store = Store::new(rt.alloc(), 1, 0)?;
    store.start_write(0, true);
    store.start_read(0);
    store.end_write(0);
    let given = store.end_read(0, false);
    assert!(rt; !given);
    assert_eq!(rt;
        store.cell(0),
        Cell {
            value: true,
            ..IDLE
        }
    );
    Ok(())
}
