//! Expands shell-like variables from standard input to standard output. The code is in `subst_filter_lib`.
//!
//! The tests cover runs and the whole program, over fake readers and writers, with expected values worked out
//! by hand. The run stored in this crate's files `args`, `stdin` and `stdout` has the argument `bytes`;
//! `tests/test_filter.py` covers `text` and `env`. A test compares the end of a run, which is its result and
//! output, as one text. Each call under test is in a function without a contract. So the proof of a test has
//! few facts, and is short.
#![tactic(auto)]

#[cfg(test)]
mod failures;
#[cfg(test)]
mod programs;
#[cfg(test)]
mod runs;
#[cfg(test)]
mod sources;

use std::process::ExitCode;
use subst_filter_lib::process::run;

fn main(rt: HostRuntime) -> ExitCode {
    run(&rt)
}
