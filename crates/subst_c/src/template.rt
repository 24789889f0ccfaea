//! The calls for templates that C keeps: a source is parsed into cells once, and the cells are expanded with
//! values by number. The variables of a template are numbered in the order of first use.

ghost use Rattle.std.specs.Prelude.{◌≡◌, ◌≢◌, ◌⊎◌, ◌<◌, ◌≤◌, ◌^◌, ℕ, List, None, Result, length};
ghost use Rattle.std.specs.Str.{IsUtf8};
ghost use Rattle.subst_error.specs.Highlighting.{highlighting_at};
ghost use Rattle.subst_error.specs.Range.{IsRangeIn, range_at};
ghost use Rattle.subst_indexed.specs.Expansion.{Breaks, Values};
ghost use Rattle.subst_indexed.specs.Laws.{IsHarmless};
ghost use Rattle.subst_indexed.specs.Parsed.{IsCellsOf};
ghost use Rattle.subst_indexed.specs.Slot.{Agree, known_at};
ghost use Rattle.subst_indexed.specs.Step.{StepsTo};
ghost use Rattle.subst_indexed.specs.Template.{name_cells, template_expansion};
ghost use Rattle.subst_indexed.specs.declared.walk.Stop.{Stop};
ghost use Rattle.subst_c.specs.Buffer.{FillsBuffer};
ghost use Rattle.subst_c.specs.Cells.{AreCells, IsParseFault, IsUnparsed};
ghost use Rattle.subst_c.specs.Errors.{IsErrorText, stated_fault};
ghost use Rattle.subst_c.specs.Expanded.{Expands, ExpandsEach, HasUnasked, IsBroken, IsOtherExpanded, IsToldAs};
ghost use Rattle.subst_c.specs.Fault.{SetsFault};
ghost use Rattle.subst_c.specs.Names.{IsNameTold, IsUseTold, span_at};
ghost use Rattle.subst_c.specs.Values.{AnswersByNumber, CellsAnswer, given_values, under_numbers, under_values, value_known};
ghost use Rattle.subst_c.specs.declared.outcome.TheConstants.{DONE, REFUSED, OUT_OF_MEMORY, ROOM_TOO_SMALL, NOT_UTF8, NOT_A_BOUNDARY, NOT_A_TEMPLATE, ASKS};

use crate::cells::cells_of;
use crate::fault::FaultRecord;
use crate::outcome::{DONE, NOT_A_BOUNDARY, NOT_UTF8, OUT_OF_MEMORY};
use crate::value::{Value, ValueRow};
use crate::variables::VariableRecord;
use crate::{buffer, error, expand, names, rows};
use std::alloc::Global;
use std::mem;
use subst_error::underline;
use subst_indexed::cell::Cell;
use subst_indexed::head::name_count;
use subst_indexed::laws;
use subst_indexed::step::Cursor;

/// Parses `source` into cells, and writes these to the front of `cells`. The flags are 0 or [`NO_OPTIONAL`].
#[unsafe(no_mangle)]
pub extern "C" fn subst_parse(
    alloc: Global,
    source: &[u8],
    flags: u32,
    cells: &mut [Cell],
    needed: &mut usize,
    fault: &mut FaultRecord,
) -> u32
    // The buffer begins with the cells of the source.
    ensures cells { FillsBuffer (AreCells flags source.now)
        result needed.old needed.new cells.old cells.new }

    // The fault is the one that the source has under the flags, and lies in the source.
    ensures fault { SetsFault (IsParseFault flags source.now) source.now
        result fault.old fault.new }

    // Every other result has its reason.
    ensures others { result ≢ DONE → result ≢ ROOM_TOO_SMALL → IsUnparsed flags source.now result }
{
    match cells_of(alloc, source, flags, fault) {
        Ok(list) => buffer::deliver(&list, cells, needed),
        Err(result) => result,
    }
}

/// Parses `source` into cells, like `subst_parse`, in memory that C frees.
#[unsafe(no_mangle)]
pub extern "C" fn subst_template_new(
    alloc: Global,
    source: &[u8],
    flags: u32,
    cells: &mut *mut Cell,
    cells_len: &mut usize,
    fault: &mut FaultRecord,
) -> u32
    // There are as many cells as the source has; that the memory has them is tested, not proved.
    ensures cells { result ≡ DONE
        → (kept : List Cell) × AreCells flags source.now kept × (cells_len.new ≡ length kept) }
    ensures cells_kept { result ≢ DONE → (cells.new ≡ cells.old) × (cells_len.new ≡ cells_len.old) }
    ensures fault { SetsFault (IsParseFault flags source.now) source.now
        result fault.old fault.new }
    ensures others { result ≢ DONE → IsUnparsed flags source.now result }
{
    match cells_of(alloc, source, flags, fault) {
        Ok(mut list) => {
            *cells_len = list.len();
            *cells = list.as_mut_ptr();
            mem::forget(list);
            DONE
        }
        Err(result) => result,
    }
}

/// Returns how many variables a template has. Each name counts once.
#[unsafe(no_mangle)]
pub extern "C" fn subst_template_variables(cells: &[Cell]) -> usize
    // Any cells have as many variables as name cells. Those of a source have one for each of its names.
    ensures any { result ≡ length (name_cells cells.now) }
    ensures parsed { (s : List ℕ) (names : List (List ℕ)) → IsCellsOf s names cells.now
        → result ≡ length names }
{
    laws::cells_expand_to_the_value();
    name_count(cells)
}

/// Writes the record of the first use of the variable with a number.
#[unsafe(no_mangle)]
pub extern "C" fn subst_template_variable(
    cells: &[Cell],
    source: &[u8],
    number: usize,
    first_use: &mut VariableRecord,
) -> u32
    // The record is that of the span that any cells have for the variable, if the source has this span.
    ensures any { IsUseTold source.now (span_at cells.now number)
        result first_use.old first_use.new }

    // With the cells of the source, each of its names has a record.
    ensures parsed { (names : List (List ℕ)) → IsCellsOf source.now names cells.now
        → IsNameTold source.now names number result first_use.new }
{
    names::deliver(cells, source, number, first_use)
}

/// Expands a template.
#[unsafe(no_mangle)]
pub extern "C" fn subst_expand(
    cells: &[Cell],
    source: &[u8],
    values: &[Value],
    buffer: &mut [u8],
    needed: &mut usize,
    fault: &mut FaultRecord,
) -> u32
    // With the cells of the source, the answer is that of the source with the values by name.
    ensures parsed { (names : List (List ℕ)) → IsCellsOf source.now names cells.now
        → Expands (AnswersByNumber source.now names (given_values values.now)) source.now
        result needed.new buffer.old buffer.new fault.old fault.new × (result ≢ NOT_A_TEMPLATE) }

    // With any cells, the answer is that of the cells: bytes of the source, of values and of cells, a name in
    // the source, or none.
    ensures any { Expands (CellsAnswer cells.now source.now (given_values values.now)) source.now
        result needed.new buffer.old buffer.new fault.old fault.new }
    ensures broken { result ≡ NOT_A_TEMPLATE
        → template_expansion cells.now source.now (given_values values.now) ≡ Breaks }
    ensures harmless { IsHarmless source.now (given_values values.now) cells.now
        (template_expansion cells.now source.now (given_values values.now)) }

    // The result is `ASKS` only if a value hasn't been asked for.
    ensures asks { result ≡ ASKS → (number : ℕ) × (known_at value_known values.now number ≡ None) }
    ensures needed_kept { result ≢ DONE → result ≢ ROOM_TOO_SMALL → needed.new ≡ needed.old }
    ensures others { IsOtherExpanded result }
{
    laws::cells_expand_to_the_value();
    laws::any_cells_are_harmless();
    expand::expand_into(cells, source, values, buffer, needed, fault)
}

/// Expands a template with each row of values. Writes the outputs to the front of the buffer, one after the
/// other, and the position at which each ends to the front of `ends`. Unless the result is `DONE`, the
/// contents of both are unspecified.
#[unsafe(no_mangle)]
pub extern "C" fn subst_expand_each(
    cells: &[Cell],
    source: &[u8],
    rows: &[ValueRow],
    buffer: &mut [u8],
    ends: &mut [usize],
    needed: &mut usize,
    row: &mut usize,
    fault: &mut FaultRecord,
) -> u32
    // With the cells of the source, the answers are those of the source with the values of each row by name.
    ensures parsed { (names : List (List ℕ)) → IsCellsOf source.now names cells.now
        → ExpandsEach (under_numbers source.now names) source.now rows.now result needed.new row.new
        buffer.old buffer.new ends.old ends.new fault.old fault.new × (result ≢ NOT_A_TEMPLATE) }

    // With any cells, the answers are those of the cells.
    ensures any { ExpandsEach (under_values cells.now source.now) source.now rows.now result
        needed.new row.new buffer.old buffer.new ends.old ends.new fault.old fault.new }
    ensures broken { result ≡ NOT_A_TEMPLATE → IsBroken cells.now source.now rows.now }
    ensures harmless { (values : Values) → IsHarmless source.now values cells.now
        (template_expansion cells.now source.now values) }

    // The result is `ASKS` only if a value of some row hasn't been asked for.
    ensures asks { result ≡ ASKS → HasUnasked rows.now }
    ensures row_kept { result ≢ REFUSED → row.new ≡ row.old }
    ensures needed_kept { result ≢ DONE → result ≢ ROOM_TOO_SMALL → needed.new ≡ needed.old }
    ensures others { IsOtherExpanded result }
{
    laws::cells_expand_to_the_value();
    laws::any_cells_are_harmless();
    rows::expand_each(cells, source, rows, buffer, ends, needed, row, fault)
}

/// Continues the expansion of a template.
#[unsafe(no_mangle)]
pub extern "C" fn subst_expand_step(
    cells: &[Cell],
    source: &[u8],
    values: &[Value],
    cursor: &mut Cursor,
    buffer: &mut [u8],
    asked: &mut usize,
    fault: &mut FaultRecord,
) -> u32
    // From the old cursor to the new one, the expansion is that of the cells, whatever the values are that
    // haven't been asked for.
    ensures steps { (stop : Result (Unit {0}) Stop) × StepsTo
        (λ number. known_at value_known values.now number ≡ None) (Agree value_known values.now)
        cells.now source.now stop cursor.old cursor.new buffer.old buffer.new
        × IsToldAs stop cursor.new.written (length buffer.old) result
        asked.old asked.new fault.old fault.new }
{
    expand::step(cells, source, values, cursor, buffer, asked, fault)
}

/// Writes the text of a fault of `source` to the front of the buffer. The text is empty if the record states
/// no fault of the source.
#[unsafe(no_mangle)]
pub extern "C" fn subst_error_text(
    alloc: Global,
    source: &[u8],
    fault: &FaultRecord,
    buffer: &mut [u8],
    needed: &mut usize,
) -> u32
    ensures buffer { FillsBuffer (IsErrorText (stated_fault source.now fault.now))
        result needed.old needed.new buffer.old buffer.new }
    ensures others { result ≢ DONE → result ≢ ROOM_TOO_SMALL → result ≡ OUT_OF_MEMORY }
{
    match error::text_of(alloc, source, fault) {
        Ok(text) => buffer::deliver(text.as_bytes(), buffer, needed),
        Err(_) => OUT_OF_MEMORY,
    }
}

/// Writes the line of a fault of `source` to the front of the buffer, with the fault underlined. If the line
/// is wider than 60 columns, the text is empty.
#[unsafe(no_mangle)]
pub extern "C" fn subst_error_highlighting(
    alloc: Global,
    source: &[u8],
    fault: &FaultRecord,
    buffer: &mut [u8],
    needed: &mut usize,
) -> u32
    ensures buffer { FillsBuffer (λ text. text
        ≡ highlighting_at (range_at fault.now.position fault.now.length) source.now)
        result needed.old needed.new buffer.old buffer.new }

    // The result is `NOT_UTF8` exactly if the source isn't UTF-8.
    ensures text { result ≢ NOT_UTF8 → IsUtf8 source.now }
    ensures not_text { result ≡ NOT_UTF8 → ¬ (IsUtf8 source.now) }

    // If the result is `NOT_A_BOUNDARY`, the fault isn't in the source, or begins or ends inside a character.
    ensures not_boundary { result ≡ NOT_A_BOUNDARY
        → ¬ (IsRangeIn source.now (range_at fault.now.position fault.now.length)) }
    ensures others { result ≢ DONE → result ≢ ROOM_TOO_SMALL → result ≢ NOT_UTF8
        → result ≢ NOT_A_BOUNDARY → result ≡ OUT_OF_MEMORY }
{
    let Ok(source) = str::from_utf8(source) else {
        return NOT_UTF8;
    };
    let Some(end) = fault.position.checked_add(fault.length) else {
        return NOT_A_BOUNDARY;
    };
    if !source.is_char_boundary(fault.position) || !source.is_char_boundary(end) {
        return NOT_A_BOUNDARY;
    }
    match underline(alloc, source, fault.position..end) {
        Ok(shown) => buffer::deliver(shown.as_bytes(), buffer, needed),
        Err(_) => OUT_OF_MEMORY,
    }
}
