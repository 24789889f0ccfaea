//! The listing of the variables in sources.

use crate::excerpt::{CUT, cut};
use crate::kinds::Placeholders;
use crate::part::Occurrence;
use crate::position::Position;
use crate::terminal::printable;
use std::alloc::{AllocError, Global};
use std::collections::HashMap;
use subst::VariableKind;
use subst::foreign::Forms;

/// The most bytes of a default that are read, so that nested defaults don't take quadratic time.
const MOST_OF_DEFAULT: usize = 1 << 10;

/// The width, in terminal columns, to which wider defaults in a listing are cut.
const WIDEST_DEFAULT: usize = 240;

/// A listed variable.
#[derive(Drop)]
struct ListedVariable {
    name: String,
    /// The file, line and column of the first use.
    position: String,
    kind: VariableKind,
    /// The default of the first use, or an empty text.
    default: String,
}

/// The variables that are used, in the order of their first uses.
#[derive(Drop)]
pub struct Listing {
    names: Vec<ListedVariable>,
    /// The index of each variable in `names`, by its name.
    indices: HashMap<String, usize>,
}

impl Listing {
    /// Returns an empty listing.
    pub fn new(alloc: Global) -> Self {
        Listing {
            names: Vec::new(alloc),
            indices: HashMap::new(alloc),
        }
    }

    /// Adds a use of a variable. A variable is required if any of its uses is.
    ///
    /// # Errors
    ///
    /// If allocation fails.
    pub fn add(
        &mut self,
        alloc: Global,
        it: Occurrence,
        file: &str,
        position: Position,
    ) -> Result<(), AllocError> {
        let Occurrence {
            name,
            kind,
            default,
            ..
        } = it;
        if let Some(index) = self.indices.get(name.as_str()) {
            if kind == VariableKind::Required
                && let Some(listed) = self.names.get_mut(*index)
            {
                listed.kind = kind;
            }
            return Ok(());
        }
        let Position { line, column } = position;
        let position = format!(in alloc; "{file}:{line}:{column}")?;
        self.indices
            .insert(String::from_str(alloc, &name)?, self.names.len())?;
        self.names.push(ListedVariable {
            name,
            position,
            kind,
            default,
        })?;
        Ok(())
    }

    /// Returns the listing: for each variable a line with its name, position, kind and any default, separated
    /// by tabs.
    ///
    /// # Errors
    ///
    /// If allocation fails.
    pub fn text(&self, alloc: Global) -> Result<String, AllocError> {
        let mut text = String::new(alloc);
        for ListedVariable {
            name,
            position,
            kind,
            default,
        } in &self.names {
            let (kind, tab, default) = match kind {
                VariableKind::Required => ("required", "", ""),
                VariableKind::Optional => ("optional", "", ""),
                VariableKind::WithDefault => ("default", "\t", default.as_str()),
            };
            let line = format!(in alloc; "{name}\t{position}\t{kind}{tab}{default}\n")?;
            text.push_str(&line)?;
        }
        Ok(text)
    }
}

/// Returns the default of the variable whose name ends at the offset `end`, as written in `source` but
/// escaped for a terminal. A very long default is cut.
///
/// # Errors
///
/// If allocation fails.
pub fn printable_default(
    alloc: Global,
    source: &[u8],
    end: usize,
    placeholders: &Placeholders<'_>,
) -> Result<String, AllocError> {
    let has_escapes = matches!(placeholders, Placeholders::Own);
    let rest = source.get(end..).unwrap_or(&[]);
    let text = after_operator(rest, placeholders);
    let text = text.get(..MOST_OF_DEFAULT).unwrap_or(text);
    let Some(end) = end_of_default(text, has_escapes) else {
        let mut start = printable(alloc, text)?;
        start.push_str(CUT)?;
        return cut(alloc, start, WIDEST_DEFAULT);
    };
    let default = text.get(..end).unwrap_or(text);
    cut(alloc, printable(alloc, default)?, WIDEST_DEFAULT)
}

/// Removes the operator before a default: `:`, or in shell forms `:-` or `-`.
fn after_operator<'t>(text: &'t [u8], placeholders: &Placeholders<'_>) -> &'t [u8] {
    let rest = text.strip_prefix(b":").unwrap_or(text);
    match placeholders {
        Placeholders::Chosen(chosen) if matches!(chosen.forms, Forms::Shell) => {
            rest.strip_prefix(b"-").unwrap_or(rest)
        }
        _ => rest,
    }
}

/// Returns the length of a default, up to the brace that closes its variable, or `None` without that brace.
fn end_of_default(text: &[u8], has_escapes: bool) -> Option<usize> {
    let mut depth = 0usize;
    let mut is_escaped = false;
    for (at, byte) in text.iter().enumerate() {
        match byte {
            _ if is_escaped => is_escaped = false,
            b'\\' if has_escapes => is_escaped = true,
            b'{' => depth = depth.saturating_add(1),
            b'}' if depth == 0 => return Some(at),
            b'}' => depth = depth.saturating_sub(1),
            _ => {}
        }
    }
    None
}
