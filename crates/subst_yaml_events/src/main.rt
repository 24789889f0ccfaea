//! Prints the events of documents of YAML: `subst_yaml_events FILE..`.
//!
//! A file has documents, each after a line with its length in bytes. The events of a document are printed on
//! one line each, followed by a line `end`. For a refused document, one line is printed, with the span, the
//! line number and the reason.
#![tactic(auto)]

use shown::shown;
use std::{env, fs, io};

mod shown;
#[cfg(test)]
mod tests;

fn main(rt: HostRuntime) -> io::Result<()> {
    let files: Vec<String> = env::args(&rt)?.skip(1).collect(rt.alloc())?;
    for file in &files {
        let text = fs::read_to_string(&rt, file.as_str())?;
        print_events(&rt, text.as_str())?;
    }
    Ok(())
}

/// Prints the events of the documents of a file.
fn print_events(rt: &HostRuntime, text: &str) -> io::Result<()> {
    let mut rest = text;
    for _ in 0..text.len() {
        let Some((document, after)) = next_document(rest) else {
            break;
        };
        rt.print(shown(rt.alloc(), document)?.as_str())?;
        rest = after;
    }
    Ok(())
}

/// Returns the first document of `text`, and the text after the document. The document follows a line with
/// its length in bytes. The result is `None` if no such document is left.
fn next_document(text: &str) -> Option<(&str, &str)> {
    let (len, rest) = text.split_once('\n')?;
    let len = len.parse::<usize>().ok()?;
    Some((rest.get(..len)?, rest.get(len..)?))
}
