//! Paths to the values of a text.

ghost use Rattle.std.specs.Prelude.{Some, map};
ghost use Rattle.std.specs.Fmt.{WritesOnOk};
ghost use Rattle.subst_document.specs.Paths.{step_of};
ghost use Rattle.subst_yaml.specs.Paths.{document_text, path_of, path_text, step_text, steps_text};

use std::fmt;
use std::fmt::Write;
use subst_document::PathStep;

/// The path to a value of a text. It displays as keys separated by dots, and indices in brackets, such as
/// `services.web.ports[0]`. From the second document on, the number of the document and a colon come first,
/// as in `2:kind`. The colon is left out if the value is the whole document.
#[derive(Clone, Debug, PartialEq, Eq, Drop)]
pub struct Path {
    /// The number of the document, from 1.
    pub document: usize,
    /// The steps from the root to the value. A key is as it is written, with its quotes.
    pub steps: Vec<PathStep>,
}

impl Path {
    /// Writes the steps: keys with dots between them, and indices in brackets.
    ///
    /// # Errors
    ///
    /// If the writer fails.
    fn write_steps<W: fmt::Write>(&self, f: &mut fmt::Formatter<W>) -> fmt::Result
        ensures { WritesOnOk W.write_str_gives f.old result
            (steps_text (path_of self.now).steps) f.new }
    {
        let mut dot = "";
        for step in self.steps.iter() {
            write_step(f, dot, step)?;
            dot = ".";
        }
        Ok(())
    }
}

/// Writes the path: the keys as they are written, with dots between them, and the indices in brackets. From
/// the second document on, the document's number comes first, with a colon if there are steps.
impl fmt::Display for Path {
    ghost output = { λ path. Some (path_text (path_of path)) };

    fn fmt<W: fmt::Write>(&self, f: &mut fmt::Formatter<W>) -> fmt::Result {
        write_document(f, self.document, &self.steps)?;
        self.write_steps(f)
    }
}

/// Writes the number of a document, and a colon if there are steps. For the first document, nothing is
/// written.
///
/// # Errors
///
/// If the writer fails.
fn write_document<W: fmt::Write>(
    f: &mut fmt::Formatter<W>,
    document: usize,
    steps: &[PathStep],
) -> fmt::Result
    ensures { WritesOnOk W.write_str_gives f.old result
        (document_text document (map step_of steps.now)) f.new }
{
    if document <= 1 {
        Ok(())
    } else if steps.is_empty() {
        write!(f, "{document}")
    } else {
        write!(f, "{document}:")
    }
}

/// Writes a step: a key after `dot`, or an index in brackets.
///
/// # Errors
///
/// If the writer fails.
fn write_step<W: fmt::Write>(f: &mut fmt::Formatter<W>, dot: &str, step: &PathStep) -> fmt::Result
    ensures { WritesOnOk W.write_str_gives f.old result
        (step_text dot.now (step_of step.now)) f.new }
{
    match step {
        PathStep::Key(key) => {
            f.write_str(dot)?;
            f.write_str(key)
        }
        PathStep::Index(index) => write!(f, "[{index}]"),
    }
}
