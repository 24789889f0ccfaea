//! Checks the rows of files: `subst_vectors FILE..`.
//!
//! Each row is checked with the calls for its kind. `data/README.md` describes the rows. For each file, the
//! program prints how many rows hold, or each row that doesn't, with the expected answer, the actual one, and
//! the call. The exit status is 1 if a row doesn't hold or is malformed, or if a file can't be read.
#![tactic(auto)]

use std::process::ExitCode;
use std::{env, io};

mod answer;
mod bytes;
mod document;
mod encoding;
mod fault;
mod format;
mod lists;
mod row;
mod run;
mod text;
mod toml_tree;
mod ways;

fn main(rt: HostRuntime) -> io::Result<ExitCode> {
    let files: Vec<String> = env::args(&rt)?.skip(1).collect(rt.alloc())?;
    let mut status = ExitCode::SUCCESS;
    if files.is_empty() {
        println!(rt; "usage: subst_vectors FILE..")?;
        status = ExitCode::FAILURE;
    }
    for file in &files {
        if !run::rows_hold(&rt, file.as_str())? {
            status = ExitCode::FAILURE;
        }
    }
    Ok(status)
}
