//! A store of cells and words.

use safe_bit::{Cell, Place, Store};
use std::test::Fail;

#[test]
fn each_call_of_a_store(rt: HostRuntime) -> Result<(), Fail> {
    let mut store = Store::new(rt.alloc(), 1, 1)?;
    let at = Place { cell: 0, word: 0 };
    store.set_word(at.word, 7);
    store.set_value(at.cell, true);
    store.start_write(at.cell, false);
    store.start_read(at.cell);
    store.end_write(at.cell);
    let copy = store.copy(rt.alloc())?;
    assert!(rt; copy == store);
    assert!(rt; store.end_read(at.cell, true));
    assert_eq!(rt; store.word(at.word), 7);
    let idle = Cell {
        value: false,
        writing: None,
        reading: false,
        hit: false,
    };
    assert_eq!(rt; store.cell(at.cell), idle);
    Ok(())
}
