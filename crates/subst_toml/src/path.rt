//! Paths to the strings of a tree.

ghost use Rattle.std.specs.Prelude.{Some};
ghost use Rattle.std.specs.Fmt.{WritesOnOk};
ghost use Rattle.subst_document.specs.Paths.{step_of};
ghost use Rattle.subst_toml.specs.DottedKey.{dotted_text, step_text};
ghost use Rattle.subst_toml.specs.Paths.{steps_of};

use std::fmt;
use std::fmt::Write;
use subst_document::PathStep;
use toml_writer::write_key;

/// The path from a tree to one of its strings. It displays as a dotted key with indices in brackets, such as
/// `a."b c"[2].d`.
#[derive(Clone, Debug, PartialEq, Eq, Drop)]
pub struct Path {
    /// The steps, from the root.
    pub steps: Vec<PathStep>,
}

/// Writes the keys, quoted if need be, and the indices in brackets. A dot precedes each key that isn't the
/// first step.
impl fmt::Display for Path {
    ghost output = { λ path. Some (dotted_text (steps_of path)) };

    fn fmt<W: fmt::Write>(&self, f: &mut fmt::Formatter<W>) -> fmt::Result {
        let mut dot = "";
        for step in self.steps.iter() {
            write_step(f, dot, step)?;
            dot = ".";
        }
        Ok(())
    }
}

/// Writes a step: a key after `dot`, or an index in brackets.
///
/// # Errors
///
/// If the writer fails.
fn write_step<W: fmt::Write>(f: &mut fmt::Formatter<W>, dot: &str, step: &PathStep) -> fmt::Result
    ensures { WritesOnOk W.write_str_gives f.old result
        (step_text dot.now (step_of step.now)) f.new }
{
    match step {
        PathStep::Key(key) => {
            f.write_str(dot)?;
            write_key(f, key)
        }
        PathStep::Index(index) => write!(f, "[{index}]"),
    }
}
