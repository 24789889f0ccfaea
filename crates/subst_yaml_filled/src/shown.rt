//! The text that is printed for a document.

use crate::cases::{Document, Written};
use crate::chosen::Chosen;
use std::alloc::{AllocError, Global};
use subst_foreign::{Forms, OnlyNames};
use subst_yaml::{Error, fill_in, fill_in_by, refusals_in};

/// Returns a line with a kind and a length, and then a text of that length: a document's output or its
/// error's text.
pub(crate) fn shown(alloc: Global, document: &Document<'_>) -> Result<String, AllocError> {
    let filled = match document.written {
        Written::All => fill_in(alloc, document.text, &document.values),
        Written::Some(forms) => filled_by_names(alloc, document, forms),
        Written::Paths => return shown_paths(alloc, document),
    };
    match filled {
        Ok(Some(text)) => block(alloc, "filled", text.as_str()),
        Ok(None) => block(alloc, "unconfirmed", ""),
        Err(e) => failed(alloc, e),
    }
}

/// Returns a line with the kind and the length of an error's text, and then this text.
fn failed(alloc: Global, error: Error) -> Result<String, AllocError> {
    match error {
        Error::OutOfMemory(e) => Err(e),
        Error::Yaml(fault) => block(alloc, "yaml", format!(in alloc; "{fault}")?.as_str()),
        Error::Subst(fault) => block(alloc, "subst", format!(in alloc; "{fault}")?.as_str()),
    }
}

/// Returns the refused strings of a document: for each a line with the offset of its token and the path to
/// it.
fn shown_paths(alloc: Global, document: &Document<'_>) -> Result<String, AllocError> {
    let all = match refusals_in(alloc, document.text, &document.values) {
        Ok(all) => all,
        Err(e) => return failed(alloc, e),
    };
    let mut lines = String::new(alloc);
    for it in all.iter() {
        let start = it.span.start;
        let path = &it.path;
        let line: String = format!(in alloc; "{start} {path}\n")?;
        lines.push_str(line.as_str())?;
    }
    block(alloc, "paths", lines.as_str())
}

/// Fills in a document, in which only variables in these forms and of the document's names are expanded.
fn filled_by_names(
    alloc: Global,
    document: &Document<'_>,
    forms: Forms,
) -> Result<Option<String>, Error> {
    let names = OnlyNames::new(alloc, document.names.as_slice())?;
    let chosen = Chosen {
        forms,
        names: &names,
        values: &document.values,
    };
    fill_in_by(alloc, document.text, &chosen)
}

/// Returns a text, preceded by a line with a kind and the text's length in bytes.
fn block(alloc: Global, kind: &str, text: &str) -> Result<String, AllocError> {
    let len = text.len();
    format!(in alloc; "{kind} {len}\n{text}\n")
}
