//! The program `subst`: expands the variables in files, or in standard input.
//!
//! `subst [OPTIONS] [FILE]..`: the crate `subst_options` parses the arguments, and `subst_filter_lib::status`
//! has the exit statuses. The run stored in this crate's files `args`, `stdin` and `stdout` expands a
//! greeting; the tests in `tests/` cover all else.
#![tactic(auto)]

mod disk;
pub mod entries;
mod files;
mod input;
mod letters;
mod one_output;
mod output;
mod per_file;
mod printer;
pub mod process;
mod reading;
mod refusals;
mod report;
mod row_messages;
mod run;
mod templates;
mod writing;

use process::run;
use std::process::ExitCode;

fn main(rt: HostRuntime) -> ExitCode {
    run(&rt)
}
