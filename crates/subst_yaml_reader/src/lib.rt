//! Reads a text of YAML as a list of events, without a tree. [`read`] returns the spans and styles of keys
//! and values. [`value_of`] decodes a scalar, and folds its lines.
//!
//! [`read`] accepts collections with and without brackets, scalars in all styles, aliases, anchors, tags,
//! comments and several documents. The directive `%YAML 1.1` or `%YAML 1.2` may precede the first document.
//! [`read`] refuses forms on which readers differ or that few people write, among them:
//!
//! - keys after `?`, keys over several lines, and keys that are collections;
//! - other directives;
//! - tabs in the indentation;
//! - characters that some readers take for line ends.
#![tactic(auto)]

ghost use Rattle.std.specs.Prelude.{◌≡◌, Some, IfErr, IfOk};
ghost use Rattle.subst_yaml_reader.specs.Reading.{read};
ghost use Rattle.subst_yaml_reader.specs.Refusal.{IsRefused};

pub use decoded::value_of;
pub use error::{Error, Fault, Reason};
pub use event::{Bracket, Event, Span, Style};
use std::alloc::Global;
pub use stream::Events;

mod block;
mod bytes;
mod decoded;
mod error;
mod event;
mod flow;
mod folded;
pub mod laws;
mod reader;
mod runs;
mod scalar;
mod search;
mod stream;
mod turns;

/// Reads a text of YAML, and returns its events.
///
/// A byte order mark is refused: pass the text after it.
///
/// ```rust
/// let events = read(alloc, "port: 80 # c\n")?;
/// // Document, Key { depth: 1, style: Plain, span: 0..4 },
/// // Value { style: Plain, span: 6..8, in_flow: false, indent: 0 }
/// ```
///
/// # Errors
///
/// If the text is refused, or if allocation fails.
pub fn read(alloc: Global, source: &str) -> Result<Vec<Event>, Error>
    ensures ok { IfOk result (λ events. read source.now ≡ Some events.items) }
    ensures err { IfErr result (λ error. IsRefused error source.now (read source.now)) }
{
    stream::read(alloc, source)
}
