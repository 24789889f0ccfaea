//! The walk of an expansion over cells.

ghost use Rattle.std.specs.Prelude.{◌≡◌, None};
ghost use Rattle.subst_language.specs.Parts.Span.{IsSpan, span_bytes};
ghost use Rattle.subst_indexed.specs.Cell.{decoded};
ghost use Rattle.subst_indexed.specs.Expansion as spans;
ghost use Rattle.subst_indexed.specs.Expansion.{Gives, Lacks, Values, if_within, part_jump, part_output};
ghost use Rattle.subst_indexed.specs.Slot.{Agree, known_at};
ghost use Rattle.subst_indexed.specs.Walk.{IsMoveFor, Walks};
ghost use Rattle.subst_indexed.specs.declared.walk.Stop.TheVariants as stops;

use crate::cell::{Cell, NumberedPart};
use crate::output::Output;
use crate::slot::{AsSlot, Slot, slot_at};
use std::alloc::AllocError;
use subst_language::Span;

/// The reason why an expansion stopped.
#[derive(Clone, Copy)]
pub enum Stop {
    /// The output is too small and can't grow.
    Full(AllocError),
    /// A needed variable has no value. Its name is in this span of the source.
    Missing(Span),
    /// The value with this number hasn't been asked for.
    Asks(u32),
    /// The cells are no template of the source.
    NotATemplate,
}

impl From<AllocError> for Stop {
    ghost from_gives = { λ e stop. stop ≡ stops.Full e };

    fn from(e: AllocError) -> Stop {
        Stop::Full(e)
    }
}

/// The move of an expansion at a cell.
#[derive(Clone, Copy)]
enum Move<'a> {
    /// Append bytes, and skip the next `skip` cells.
    Bytes { bytes: &'a [u8], skip: u32 },
    /// Append a byte.
    Byte(u8),
    /// Append nothing.
    Pass,
    /// Stop: a needed variable has no value. Its name is in this span of the source.
    Miss(Span),
    /// Stop: the value with this number hasn't been asked for.
    Ask(u32),
    /// Stop: the cells are no template of the source.
    Break,
}

/// Returns the move of an expansion at a cell.
#[inline(always)]
fn move_at<'a, V: AsSlot>(cell: Cell, source: &'a [u8], values: &'a [V]) -> Move<'a>
    ensures { (all : Values) → Agree V.known values.now all → IsMoveFor result
        (λ number. known_at V.known values.now number ≡ None)
        (part_output (decoded cell) source.now all) (part_jump (decoded cell) all) }
{
    match cell.decode() {
        Some(NumberedPart::Literal { start, end }) => literal_move(source, span_of(start, end)),
        Some(NumberedPart::Escaped(byte)) => Move::Byte(byte),
        Some(NumberedPart::Variable { start, end, number }) => match slot_at(values, number) {
            Slot::Set(bytes) => Move::Bytes { bytes, skip: 0 },
            Slot::Unset => missing_move(source, span_of(start, end)),
            Slot::Unasked => Move::Ask(number),
        },
        Some(NumberedPart::Default { jump, number }) => match slot_at(values, number) {
            Slot::Set(bytes) => Move::Bytes { bytes, skip: jump },
            Slot::Unset => Move::Pass,
            Slot::Unasked => Move::Ask(number),
        },
        None => Move::Break,
    }
}

/// Returns the span from `start` to `end`.
#[inline(always)]
pub(crate) fn span_of(start: u32, end: u32) -> Span
    ensures { result ≡ spans.span_of start end }
{
    Span {
        start: start as usize,
        end: end as usize,
    }
}

/// Returns the move at a literal: the bytes of the source in the span.
#[inline(always)]
fn literal_move(source: &[u8], span: Span) -> Move<'_>
    ensures { IsMoveFor result (λ number. ⊥)
        (if_within source.now span (Gives (span_bytes span source.now))) 0 }
{
    match source.get(span.start..span.end) {
        Some(bytes) => Move::Bytes { bytes, skip: 0 },
        None => Move::Break,
    }
}

/// Returns the move at a needed variable without a value, whose name is in the span of the source.
#[cold]
fn missing_move(source: &[u8], name: Span) -> Move<'_>
    ensures { IsMoveFor result (λ number. ⊥) (if_within source.now name (Lacks name)) 0 }
{
    if name.start <= name.end && name.end <= source.len() {
        Move::Miss(name)
    } else {
        Move::Break
    }
}

/// Expands cells from the one with the index `at` on, and appends the bytes to the output. Moves `at` to the
/// cell where the expansion ends. A walk from there continues it.
///
/// # Errors
///
/// The reason why the walk stopped at the cell `at`. If it is `Full`, the output has some of the bytes.
#[inline(always)]
pub fn walk<V: AsSlot, W: Output>(
    cells: &[Cell],
    source: &[u8],
    values: &[V],
    at: &mut usize,
    output: &mut W,
) -> Result<(), Stop>
    ensures { Walks W.holds W.len W.capacity (λ number. known_at V.known values.now number ≡ None)
        (Agree V.known values.now) cells.now source.now result at.old at.new output.old output.new }
{
    while let Some(cell) = cells.get(*at) {
        match move_at(*cell, source, values) {
            Move::Bytes { bytes, skip } => {
                output.append_bytes(bytes)?;
                *at += 1 + skip as usize;
            }
            Move::Byte(byte) => {
                output.append_byte(byte)?;
                *at += 1;
            }
            Move::Pass => *at += 1,
            Move::Miss(name) => return Err(Stop::Missing(name)),
            Move::Ask(number) => return Err(Stop::Asks(number)),
            Move::Break => return Err(Stop::NotATemplate),
        }
    }
    if *at > cells.len() {
        return Err(Stop::NotATemplate);
    }
    Ok(())
}
