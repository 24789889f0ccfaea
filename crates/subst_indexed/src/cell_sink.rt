//! The sink that writes each part that is parsed as a cell, and numbers the variables.

ghost use Rattle.std.specs.Prelude.{◌≡◌, ◌+◌, ◌<◌, ◌^◌, ℕ, IfOk, OnErr, OnOk};
ghost use Rattle.subst_language.specs.Parts.Sink.{Adds, CanTake, Keeps};

use crate::cell::{Cell, HEAD, NumberedPart};
use crate::head::check_sum;
use crate::names::{Names, index_as_u32};
use std::alloc::{AllocError, Global};
use subst_language::{Part, Sink, Span};

/// The initial capacity of the list of cells, so that the lists of most templates are allocated once.
const FIRST_CELLS: usize = 32;

/// The sink that a source is parsed into. Its cells are a head, which isn't complete yet, and a cell for each
/// part. The cells of the names are appended in the end.
#[derive(Drop)]
pub(crate) struct CellSink<'s> {
    pub source: &'s [u8],
    pub cells: Vec<Cell>,
    pub names: Names<'s>,
}

impl<'s> CellSink<'s> {
    ghost use Rattle.std.specs.Prelude.{◌≡◌, [], ◌∷◌, ◌++◌, List, drop, length, map};
    ghost use Rattle.subst_language.specs.declared.part.Part.{Part};
    ghost use Rattle.subst_language.specs.declared.part.Part.TheVariants as parts;
    ghost use Rattle.subst_language.specs.Parts.Span.{IsSpan};
    ghost use Rattle.subst_indexed.specs.Names.{AllNamed, uses_of};
    ghost use Rattle.subst_indexed.specs.Template.{template_cells, use_cell};
    ghost use Rattle.subst_indexed.specs.Sink.{IsUnchanged, KeepsFirst, PushesCell, PushesDefault, SinkHolds};

    /// Creates a sink that has taken no parts.
    ///
    /// # Errors
    ///
    /// If allocation fails.
    pub fn new(alloc: Global, source: &'s [u8]) -> Result<Self, AllocError>
        ensures { IfOk result (λ sink. SinkHolds sink source.now []
            × (sink.source.now ≡ source.now)) }
    {
        let mut cells = Vec::with_capacity(alloc, FIRST_CELLS)?;
        cells.push(Cell {
            kind: HEAD,
            first: 0,
            second: 0,
            number: 0,
        })?;
        Ok(CellSink {
            source,
            cells,
            names: Names::new(alloc)?,
        })
    }

    /// Completes the template: its head, and the cells of the names. Returns its cells.
    ///
    /// # Errors
    ///
    /// If allocation fails, or if there are more than 2^32 parts.
    pub fn finish(self) -> Result<Vec<Cell>, AllocError>
        requires some { 0 < length self.cells.items }
        requires fits { length self.source.now < 2 ^ 32 }
        requires named { AllNamed self.source.now self.names.list.items }
        ensures { IfOk result (λ cells. cells.items ≡ template_cells (length self.entry.source.now)
            (drop 1 self.entry.cells.items) (map use_cell (uses_of self.entry.names.list.items))) }
    {
        let CellSink {
            source,
            mut cells,
            names,
        } = self;
        let count = index_as_u32(cells.len() - 1)?;
        names.append_to(&mut cells)?;
        let number = check_sum(count, &cells[1..]);
        cells[0] = Cell {
            kind: HEAD,
            first: source.len() as u32,
            second: count,
            number,
        };
        Ok(cells)
    }

    /// Appends the cell that keeps a part.
    ///
    /// # Errors
    ///
    /// If allocation fails. The sink is then unchanged.
    #[inline(always)]
    fn push(&mut self, part: NumberedPart) -> Result<(), AllocError>
        ensures ok { OnOk result (PushesCell part self.old self.new) }
        ensures err { OnErr result (IsUnchanged self.old self.new) }
    {
        self.cells.push(Cell::of(part))?;
        Ok(())
    }

    /// Appends the cell that keeps a part whose name may be new.
    ///
    /// # Errors
    ///
    /// If allocation fails. The sink then has only the first `known` names, and is otherwise unchanged.
    #[inline(always)]
    fn push_or_truncate(&mut self, part: NumberedPart, known: usize) -> Result<(), AllocError>
        ensures ok { OnOk result (PushesCell part self.old self.new) }
        ensures err { OnErr result (KeepsFirst known self.old self.new) }
    {
        match self.push(part) {
            Ok(()) => Ok(()),
            Err(e) => {
                self.names.truncate(known);
                Err(e)
            }
        }
    }

    /// Appends the cell of a required variable whose name is in the span of the source.
    ///
    /// # Errors
    ///
    /// If allocation fails. The sink is then unchanged.
    #[inline(always)]
    fn push_variable(&mut self, name: Span) -> Result<(), AllocError>
        requires { CanTake SinkHolds (λ first s. first ≡ s) (2 ^ 32) self.old
            (λ _. parts.Variable name) }
        ensures taken { OnOk result (Adds SinkHolds self.old (λ _. parts.Variable name) self.new) }
        ensures kept { OnErr result (Keeps SinkHolds self.old self.new) }
    {
        let known = self.names.list.len();
        let number = self.names.number(self.source, name)?;
        let part = NumberedPart::Variable {
            start: name.start as u32,
            end: name.end as u32,
            number,
        };
        self.push_or_truncate(part, known)
    }

    /// Appends the cell of a variable with a default, which has this jump. The variable's name is in the span
    /// of the source.
    ///
    /// # Errors
    ///
    /// If allocation fails. The sink is then unchanged.
    fn push_default(&mut self, name: Span, jump: u32) -> Result<(), AllocError>
        requires inside { IsSpan self.old.source.now name }
        requires fits { name.start < 2 ^ 32 }
        requires named { AllNamed self.old.source.now self.old.names.list.items }
        ensures ok { OnOk result (PushesDefault name jump self.old self.new) }
        ensures err { OnErr result (IsUnchanged self.old self.new) }
    {
        let known = self.names.list.len();
        let number = self.names.number(self.source, name)?;
        self.push_or_truncate(NumberedPart::Default { jump, number }, known)
    }
}

impl<'s> Sink for CellSink<'s> {
    ghost use Rattle.std.specs.Prelude.{◌≡◌, List, ℕ};
    ghost use Rattle.subst_indexed.specs.Sink.{SinkHolds};

    ghost First = { List ℕ };

    ghost holds = { SinkHolds };

    ghost source = { λ first s. first ≡ s };

    ghost limit = { 2 ^ 32 };

    ghost asks = { Unit {0} };

    #[inline(always)]
    fn take(&mut self, part: Part) -> Result<(), AllocError> {
        match part {
            Part::Literal(span) => self.push(NumberedPart::Literal {
                start: span.start as u32,
                end: span.end as u32,
            }),
            Part::Escaped(byte) => self.push(NumberedPart::Escaped(byte)),
            Part::Variable(name) => self.push_variable(name),
            Part::Default { name, next } => {
                let jump = next.saturating_sub(self.cells.len());
                self.push_default(name, jump as u32)
            }
        }
    }

    #[inline(always)]
    fn take_optional(&mut self, name: Span) -> Result<(), AllocError> {
        self.push_default(name, 0)
    }

    #[inline(always)]
    fn open(&mut self, name: Span) -> Result<usize, AllocError> {
        let index = self.cells.len() - 1;
        self.push_default(name, 0)?;
        Ok(index)
    }

    #[inline(always)]
    fn close(&mut self, index: usize, name: Span) {
        let jump = self.cells.len() - index - 2;
        self.cells[index + 1].first = jump as u32;
    }
}
