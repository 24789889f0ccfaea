//! Tests of runs over `Hello $name!` in which the reader or the writer fails, at each of its calls in turn.

use crate::runs::{CALLS, Call, Run};
use std::alloc::{AllocError, Global};
use std::io::ErrorKind;
use std::test::Fail;
use subst_testing::fakes::Fault;

/// The output of `Hello $name!` if `name` is `world`.
const OUTPUT: &str = "Hello world!";

fn run(call: Call) -> Run<'static> {
    Run::new(call, b"Hello $name!", "name=world")
}

/// Returns the expected end of a run whose writer fails after `count` bytes.
fn end_after(alloc: Global, count: usize) -> Result<String, AllocError> {
    match OUTPUT.get(..count) {
        None | Some("") => String::from_str(alloc, "write failed"),
        Some(taken) => format!(in alloc; "write failed after {taken}"),
    }
}

/// Expects a run to fail if any of its 13 reads fails: one for each of the 12 bytes, and one at the end.
fn expect_failed_reads(alloc: Global, call: Call, kind: ErrorKind) -> Result<(), Fail> {
    for number in 0..13 {
        let read = Fault { call: number, kind };
        Run { read, ..run(call) }.expect(alloc, "read failed")?;
    }
    let read = Fault { call: 13, kind };
    Run { read, ..run(call) }.expect(alloc, "gives Hello world!")
}

/// Expects a run to fail if the write of any of its 12 bytes fails, or if the flush fails.
fn expect_failed_writes(alloc: Global, call: Call, kind: ErrorKind) -> Result<(), Fail> {
    for number in 0..13 {
        let write = Fault { call: number, kind };
        Run { write, ..run(call) }.expect(alloc, end_after(alloc, number)?.as_str())?;
    }
    let write = Fault { call: 13, kind };
    Run { write, ..run(call) }.expect(alloc, "gives Hello world!")
}

/// Expects a run to fail if its writer accepts fewer bytes than the 12 of its output.
fn expect_full_writer(alloc: Global, call: Call) -> Result<(), Fail> {
    for capacity in 0..12 {
        Run {
            capacity,
            ..run(call)
        }
        .expect(alloc, end_after(alloc, capacity)?.as_str())?;
    }
    let capacity = 12;
    Run {
        capacity,
        ..run(call)
    }
    .expect(alloc, "gives Hello world!")
}

#[test]
fn failed_read_is_returned_and_nothing_is_written(rt: HostRuntime) -> Result<(), Fail> {
    for call in CALLS {
        expect_failed_reads(rt.alloc(), call, ErrorKind::Interrupted)?;
        expect_failed_reads(rt.alloc(), call, ErrorKind::Other)?;
    }
    Ok(())
}

#[test]
fn failed_write_is_returned_after_a_prefix_is_written(rt: HostRuntime) -> Result<(), Fail> {
    for call in CALLS {
        expect_failed_writes(rt.alloc(), call, ErrorKind::BrokenPipe)?;
        expect_failed_writes(rt.alloc(), call, ErrorKind::Other)?;
        expect_full_writer(rt.alloc(), call)?;
    }
    Ok(())
}
