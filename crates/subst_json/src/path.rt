//! Paths to the strings of a tree.

ghost use Rattle.std.specs.Prelude.{Some};
ghost use Rattle.std.specs.Fmt.{WritesOnOk};
ghost use Rattle.std.specs.List.{flat_map};
ghost use Rattle.std.specs.Char.{encode_utf8};
ghost use Rattle.subst_document.specs.Paths.{step_of};
ghost use Rattle.subst_json.specs.Paths.{steps_of};
ghost use Rattle.subst_json.specs.Pointer.{escaped_byte, pointer_text, step_text};

use std::fmt;
use std::fmt::Write;
use subst_document::PathStep;

/// The path from a tree to one of its strings. It displays as a JSON Pointer (RFC 6901), such as
/// `/server/list/0/x~1y`.
#[derive(Clone, Debug, PartialEq, Eq, Drop)]
pub struct Path {
    /// The steps, from the root.
    pub steps: Vec<PathStep>,
}

/// Writes each step as `/`, followed by its index or its escaped key. In a key, `~` is written as `~0`, and
/// `/` as `~1`.
impl fmt::Display for Path {
    ghost output = { λ path. Some (pointer_text (steps_of path)) };

    fn fmt<W: fmt::Write>(&self, f: &mut fmt::Formatter<W>) -> fmt::Result {
        for step in self.steps.iter() {
            write_step(f, step)?;
        }
        Ok(())
    }
}

/// Writes a step: `/`, and then its index or its escaped key.
///
/// # Errors
///
/// If the writer fails.
fn write_step<W: fmt::Write>(f: &mut fmt::Formatter<W>, step: &PathStep) -> fmt::Result
    ensures { WritesOnOk W.write_str_gives f.old result (step_text (step_of step.now)) f.new }
{
    f.write_str("/")?;
    match step {
        PathStep::Key(key) => write_escaped(f, key),
        PathStep::Index(index) => write!(f, "{index}"),
    }
}

/// Writes a key, with each `~` as `~0` and each `/` as `~1`.
///
/// # Errors
///
/// If the writer fails.
fn write_escaped<W: fmt::Write>(f: &mut fmt::Formatter<W>, key: &str) -> fmt::Result
    ensures { WritesOnOk W.write_str_gives f.old result (flat_map escaped_byte key.now) f.new }
{
    for c in key.chars() {
        write_escaped_char(f, c)?;
    }
    Ok(())
}

/// Writes a character of a key, escaped if it is `~` or `/`.
///
/// # Errors
///
/// If the writer fails.
fn write_escaped_char<W: fmt::Write>(f: &mut fmt::Formatter<W>, c: char) -> fmt::Result
    ensures { WritesOnOk W.write_str_gives f.old result
        (flat_map escaped_byte (encode_utf8 c)) f.new }
{
    match c {
        '~' => f.write_str("~0"),
        '/' => f.write_str("~1"),
        c => f.write_char(c),
    }
}
