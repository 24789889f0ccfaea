//! Parsing a source into the cells of a template.

ghost use Rattle.std.specs.Prelude.{◌≡◌, ◌<◌, ◌≤◌, ◌^◌, ◌↔◌, ℕ, List, Err, IfOk, length};
ghost use Rattle.subst_error.specs.ErrorFault.{parse_fault};
ghost use Rattle.subst_language.specs.Calls.Outcome.{OnFault};
ghost use Rattle.subst_language.specs.Language.BadItem.{HasFault};
ghost use Rattle.subst_indexed.specs.Parsed.{IsCellsOf, index_fault};
ghost use Rattle.subst_indexed.specs.declared.parse.IndexError.TheVariants as errors;

use crate::cell::Cell;
use crate::cell_sink::CellSink;
use std::alloc::{AllocError, Global};
use subst_error::ParseError;
use subst_parse::{Reads, parse_into};

/// An error of parsing a source into cells.
#[derive(Clone, Copy, Debug, PartialEq, Eq)]
pub enum IndexError {
    /// The source has more than `u32::MAX` bytes.
    TooLong,
    /// The source isn't a sentence of the template language, or an allocation failed.
    Parse(ParseError),
}

impl From<ParseError> for IndexError {
    ghost from_gives = { λ e error. error ≡ errors.Parse e };

    fn from(e: ParseError) -> IndexError {
        IndexError::Parse(e)
    }
}

/// Parses a source into the cells of a template: a head, a cell for each part, and a cell with the first use
/// of each name. The names are numbered in the order of first use.
///
/// # Errors
///
/// - `TooLong` if the source has more than `u32::MAX` bytes.
/// - `Parse` with the source's first fault if it isn't a sentence of the template language, or with
///   `OutOfMemory` if allocation fails.
pub fn parse(alloc: Global, source: &[u8]) -> Result<Vec<Cell>, IndexError>
    ensures ok { IfOk result (λ cells.
        (names : List (List ℕ)) × IsCellsOf source.now names cells.items) }
    ensures fault { OnFault index_fault result (HasFault 0 source.now) }
    ensures too_long { (result ≡ Err errors.TooLong) ↔ (2 ^ 32 ≤ length source.now) }
{
    if source.len() > u32::MAX as usize {
        return Err(IndexError::TooLong);
    }
    Ok(parse_short(alloc, source)?)
}

/// Parses a source of at most `u32::MAX` bytes, as `parse` does.
///
/// # Errors
///
/// The source's first fault if it isn't a sentence of the template language, or out of memory.
fn parse_short(alloc: Global, source: &[u8]) -> Result<Vec<Cell>, ParseError>
    requires { length source.now < 2 ^ 32 }
    ensures ok { IfOk result (λ cells.
        (names : List (List ℕ)) × IsCellsOf source.now names cells.items) }
    ensures fault { OnFault parse_fault result (HasFault 0 source.now) }
{
    let sink = CellSink::new(alloc, source)?;
    let (sink, _, outcome) = parse_into(alloc, source, 0, sink, Reads::new());
    match outcome {
        Ok(()) => Ok(sink.finish()?),
        Err(e) => Err(e),
    }
}
