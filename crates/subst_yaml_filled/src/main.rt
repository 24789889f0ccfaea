//! Prints texts of YAML with their variables filled in: `subst_yaml_filled FILE..`.
//!
//! A file has documents. Before each document come a line about it and a line for each of its variables. The
//! first line has the document's length in bytes, the syntax of its variables, and their number. The syntax
//! is `all`, `own`, `envsubst`, `shell` or `paths`. The line of a variable has its name and, if it is set,
//! `=` and its value, in which `%XX` is a byte.
//!
//! For each document a line with the kind and the length of its output is printed, and then the output. The
//! syntax `paths` is that of `all`, but the output has the paths to the refused strings.
#![tactic(auto)]

use cases::{Case, next_case};
use shown::shown;
use std::{env, fs, io};

mod cases;
mod chosen;
#[cfg(test)]
mod path_tests;
#[cfg(test)]
mod place_tests;
mod shown;
#[cfg(test)]
mod tests;

fn main(rt: HostRuntime) -> io::Result<()> {
    let files: Vec<String> = env::args(&rt)?.skip(1).collect(rt.alloc())?;
    for file in &files {
        let text = fs::read_to_string(&rt, file.as_str())?;
        print_cases(&rt, text.as_str())?;
    }
    Ok(())
}

/// Prints the outputs of the documents of a file.
fn print_cases(rt: &HostRuntime, text: &str) -> io::Result<()> {
    let mut rest = text;
    for _ in 0..text.len() {
        let Some(Case { case, rest: after }) = next_case(rt.alloc(), rest)? else {
            break;
        };
        rt.print(shown(rt.alloc(), &case)?.as_str())?;
        rest = after;
    }
    Ok(())
}
