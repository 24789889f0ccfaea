//! Reads the documents of a file and their variables.

use std::alloc::{AllocError, Global};
use std::collections::BTreeMap;
use subst_foreign::Forms;

/// The syntax of a document's variables.
#[derive(Clone, Copy)]
pub(crate) enum Written {
    /// The language of templates.
    All,
    /// These forms, for chosen names.
    Some(Forms),
    /// The language of templates; the document isn't filled in, but its refused strings are listed.
    Paths,
}

/// A document, and its variables.
#[derive(Drop)]
pub(crate) struct Document<'t> {
    pub(crate) written: Written,
    pub(crate) text: &'t str,
    pub(crate) names: Vec<&'t str>,
    pub(crate) values: BTreeMap<&'t str, String>,
}

/// A document of a file, and the text of the file after it.
#[derive(Drop)]
pub(crate) struct Case<'t> {
    pub(crate) case: Document<'t>,
    pub(crate) rest: &'t str,
}

/// Returns the first document in `text` and the text after the document. The result is `None` if the document
/// is incomplete, or if the lines about it are missing or wrong.
pub(crate) fn next_case(alloc: Global, text: &str) -> Result<Option<Case<'_>>, AllocError> {
    let Some((head, mut rest)) = text.split_once('\n') else {
        return Ok(None);
    };
    let Some((len, written, count)) = head_of(head) else {
        return Ok(None);
    };
    let mut names = Vec::new(alloc);
    let mut values = BTreeMap::new(alloc);
    for _ in 0..count {
        let Some((line, after)) = rest.split_once('\n') else {
            return Ok(None);
        };
        rest = after;
        match line.split_once('=') {
            Some((name, value)) => {
                names.push(name)?;
                let _ = values.insert(name, plain(alloc, value)?)?;
            }
            None => names.push(line)?,
        }
    }
    let (Some(text), Some(rest)) = (rest.get(..len), rest.get(len..)) else {
        return Ok(None);
    };
    let case = Document {
        written,
        text,
        names,
        values,
    };
    Ok(Some(Case { case, rest }))
}

/// Reads the line about a document: the document's length, the syntax of its variables, and their number. The
/// result is `None` for any other line.
fn head_of(line: &str) -> Option<(usize, Written, usize)> {
    let (len, rest) = line.split_once(' ')?;
    let (written, count) = rest.split_once(' ')?;
    let written = match written {
        "all" => Written::All,
        "paths" => Written::Paths,
        "own" => Written::Some(Forms::Own),
        "envsubst" => Written::Some(Forms::Envsubst),
        "shell" => Written::Some(Forms::Shell),
        _ => return None,
    };
    Some((
        len.parse::<usize>().ok()?,
        written,
        count.parse::<usize>().ok()?,
    ))
}

/// Returns a value with each `%XX` replaced by its byte.
fn plain(alloc: Global, value: &str) -> Result<String, AllocError> {
    let mut bytes = Vec::new(alloc);
    let mut rest = value.as_bytes();
    while let [first, tail @ ..] = rest {
        match (*first, tail) {
            (b'%', [high, low, after @ ..]) => {
                bytes.push(digit(*high).wrapping_mul(16) | digit(*low))?;
                rest = after;
            }
            _ => {
                bytes.push(*first)?;
                rest = tail;
            }
        }
    }
    String::from_utf8(bytes).map_err(|_| AllocError)
}

/// Returns the value of a hexadecimal digit. A letter has to be a capital.
fn digit(byte: u8) -> u8 {
    if byte >= b'A' && byte <= b'F' {
        byte - b'A' + 10
    } else {
        byte.wrapping_sub(b'0') & 15
    }
}
