//! Serves a script at a desk after two chairs worked at it and were joined.

use crate::threads::desks::{Tester, opened};
use std::test::Fail;
use towerbench::serve;

const SCRIPT: &[u8] = b"0 branches\n0 state main 2\n0 fill main\n";

const ANSWERS: &[u8] = b"0: branches 1 edits 1 made 2\n  main 2\n\
    0: state main 2 of 2\n  p0 idle\n  p1 idle\n  bits 0\n  words -\n\
    0: filled\n";

#[test]
fn served_after_two_chairs(rt: HostRuntime) -> Result<(), Fail> {
    let (desk, mut chair) = opened(rt.alloc())?;
    Tester::new(&rt, rt.alloc(), &desk).insert_by_two(&mut chair);
    let mut reader = SCRIPT;
    let mut writer = Vec::new(rt.alloc());
    let served = serve(&rt, rt.alloc(), desk, chair, 1, &mut reader, &mut writer);
    assert!(rt; served.is_ok());
    assert_eq!(rt; writer.as_slice(), ANSWERS);
    Ok(())
}
