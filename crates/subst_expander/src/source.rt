//! Sources, and the messages for their faults.

ghost use Rattle.std.specs.Prelude.{IfOk, IfSome, string_bytes};
ghost use Rattle.subst_expander.specs.Messages.{AreMessages, IsMessage, IsReport, IsShown};

use crate::excerpt::{cut, excerpt};
use crate::fault::Fault;
use crate::position::{Position, Positions};
use crate::terminal::printable;
use std::alloc::{AllocError, Global};
use std::fmt;

/// The widest message of a fault, in columns. Longer ones are cut.
const WIDEST_FAULT: usize = 240;

/// The widest path of a string, in columns. Longer ones are cut.
const WIDEST_PATH: usize = 120;

/// A source: the path and the bytes of a file, or of standard input.
#[derive(Drop)]
pub struct Source {
    /// The path: an argument, or a path below a directory that is an argument.
    pub path: String,
    /// The name for diagnostics.
    pub name: String,
    /// All bytes of the file.
    pub bytes: Vec<u8>,
}

/// A refused source, with its faults.
#[derive(Drop)]
pub struct Refused {
    /// The source.
    pub source: Source,
    /// The faults, in the order of their positions.
    pub faults: Vec<Fault>,
}

/// The choice between messages with and without excerpts.
#[derive(Clone, Copy, PartialEq, Eq)]
pub enum Excerpts {
    /// Messages with an excerpt for each fault.
    All,
    /// Messages without excerpts, for values files, whose lines may be secret.
    None,
}

/// Returns a message for each fault, with the line and column of the fault in `bytes`.
pub fn messages(
    alloc: Global,
    name: &str,
    bytes: &[u8],
    faults: &[Fault],
    excerpts: Excerpts,
) -> Result<String, AllocError>
    ensures { IfOk result
        (λ text. AreMessages excerpts name.now bytes.now faults.now (string_bytes text)) }
{
    let mut positions = Positions::of(bytes);
    let mut text = String::new(alloc);
    for fault in faults {
        let position = positions.at(alloc, fault.range.start)?;
        let report = report(alloc, name, bytes, fault, position, excerpts)?;
        text.push_str(&report)?;
    }
    Ok(text)
}

/// Returns the message for a fault at a position, followed by the excerpt, if there is to be one.
fn report(
    alloc: Global,
    name: &str,
    bytes: &[u8],
    fault: &Fault,
    position: Position,
    excerpts: Excerpts,
) -> Result<String, AllocError>
    ensures { IfOk result (λ text.
        IsReport excerpts name.now position.line position.column fault.now (string_bytes text)) }
{
    let Position { line, column } = position;
    let message = fault_message(alloc, fault)?;
    let range = fault.range.start..fault.range.end;
    let excerpt = match excerpts {
        Excerpts::All => excerpt(alloc, bytes, range)?,
        Excerpts::None => String::new(alloc),
    };
    format!(in alloc; "{name}:{line}:{column}: error: {message}\n{excerpt}")
}

/// Returns the path and the message of a fault, or the message alone if the path is empty. Each is escaped
/// for a terminal, and cut if too wide.
fn fault_message(alloc: Global, fault: &Fault) -> Result<String, AllocError>
    ensures { IfOk result (λ message. IsMessage fault.now (string_bytes message)) }
{
    let cause = format_within(alloc, &fault.cause, WIDEST_FAULT)?;
    if fault.path.is_empty() {
        return Ok(cause);
    }
    let path = format_within(alloc, &fault.path, WIDEST_PATH)?;
    format!(in alloc; "{path}: {cause}")
}

/// Formats a value, escaped for a terminal, and cut to `columns` if it is wider.
fn format_within<D: fmt::Display>(
    alloc: Global,
    value: &D,
    columns: usize,
) -> Result<String, AllocError>
    ensures { IfOk result (λ shown. IfSome (D.output value.now)
        (λ text. IsShown columns text (string_bytes shown))) }
{
    let text = format!(in alloc; "{value}")?;
    cut(alloc, printable(alloc, text.as_bytes())?, columns)
}
