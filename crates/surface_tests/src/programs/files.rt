//! Files of one schedule and of branches, read and printed.

use crate::branches::shown::is_text;
use std::test::Fail;
use tower_file::{BenchFile, FaultKind, FileFault, parse, parse_bench, print, print_bench};

const TOWER: &[u8] = b"tower 2\nsafe 0\nr 1\nx 1\n";

const BENCH: &[u8] = b"bench 1\nsafe 0\nbranch main 0 0\nr 1\nbranch a 0 1\ng 1 0\n";

#[test]
fn tower_is_read_and_printed(rt: HostRuntime) -> Result<(), Fail> {
    let file = parse(rt.alloc(), TOWER)?;
    assert_eq!(rt; file.steps.as_slice().len(), 2);
    assert!(rt; is_text(&print(rt.alloc(), &file), TOWER));
    let fault = FileFault {
        kind: FaultKind::BadHeader,
        line: 1,
    };
    assert_eq!(rt; parse(rt.alloc(), b"").err(), Some(fault));
    Ok(())
}

#[test]
fn bench_is_read_and_printed(rt: HostRuntime) -> Result<(), Fail> {
    let file = parse_bench(rt.alloc(), BENCH)?;
    assert_eq!(rt; file.limbs.as_slice().len(), 2);
    assert!(rt; is_text(&print_bench(rt.alloc(), &file), BENCH));
    assert!(rt; BenchFile::new(file.tower, Vec::new(rt.alloc())).is_none());
    Ok(())
}
