//! The sink that the parser appends parts to.

ghost use Rattle.std.specs.Prelude.{◌+◌, List, ℕ, IfOk, OnErr, OnOk};
ghost use Rattle.subst_language.specs.Parts.Sink.{Adds, CanClose, CanTake, ClosesDefault, HasLength, IsClosed, Keeps};
ghost use Rattle.subst_language.specs.declared.part.Part.{Part};
ghost use Rattle.subst_language.specs.declared.part.Part.TheVariants as parts;

use crate::part::{Part, Span};
use std::alloc::AllocError;

/// A sink for parsed parts, appended in order. A default is opened before its parts and closed after them.
///
/// Contracts see a sink through five ghost members:
///
/// - `First`: the type of a sink's first state, as contracts see it.
/// - `holds`: the relation of a sink, its first state, and the parts that the sink holds.
/// - `source`: the relation of the first state and the source of these parts.
/// - `limit`: the bound that each offset and index in a part has to be below.
/// - `asks`: the statement that the sink may allocate. It is false if the sink never does.
pub trait Sink {
    ghost First: { Type 0 };

    ghost holds: { Self → First → List Part → Type 0 };

    ghost source: { First → List ℕ → Type 0 };

    ghost limit: { ℕ };

    ghost asks: { Type 0 };

    /// Appends a part.
    ///
    /// # Errors
    ///
    /// If allocation fails. The sink is then unchanged.
    fn take(&mut self, part: Part) -> Result<(), AllocError>
        requires fits { CanTake holds source limit self.old (λ _. part) }
        requires closed { (index : ℕ) → IsClosed (index + 1) part }
        ensures taken { OnOk result (Adds holds self.old (λ _. part) self.new) }
        ensures kept { OnErr result (Keeps holds self.old self.new) }
        ensures cause { OnErr result asks };

    /// Appends an optional variable: a default without parts, whose `next` is its own index plus 1.
    ///
    /// # Errors
    ///
    /// If allocation fails. The sink is then unchanged.
    fn take_optional(&mut self, name: Span) -> Result<(), AllocError>
        requires { CanTake holds source limit self.old (λ index. parts.Default name (index + 1)) }
        ensures taken { OnOk result
            (Adds holds self.old (λ index. parts.Default name (index + 1)) self.new) }
        ensures kept { OnErr result (Keeps holds self.old self.new) }
        ensures cause { OnErr result asks };

    /// Appends a default, opens it, and returns its index. Until the default is closed, all parts appended
    /// after it are its own.
    ///
    /// # Errors
    ///
    /// If allocation fails. The sink is then unchanged.
    fn open(&mut self, name: Span) -> Result<usize, AllocError>
        requires { CanTake holds source limit self.old (λ _. parts.Default name 0) }
        ensures taken { OnOk result (Adds holds self.old (λ _. parts.Default name 0) self.new) }
        ensures index { IfOk result (λ index. HasLength holds self.old index) }
        ensures kept { OnErr result (Keeps holds self.old self.new) }
        ensures cause { OnErr result asks };

    /// Closes the innermost open default, whose index is `index` and whose name is in the range `name`. All
    /// parts after the default in the sink are its own.
    fn close(&mut self, index: usize, name: Span)
        requires { CanClose holds limit self.old index name }
        ensures { ClosesDefault holds self.old index name self.new };
}
