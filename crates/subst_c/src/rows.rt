//! Expanding cells with rows of values by number, for C.

ghost use Rattle.std.specs.Prelude.{◌≡◌, ◌≢◌, ◌+◌, ◌≤◌, ◌++◌, None, drop, length, take};
ghost use Rattle.subst_indexed.specs.Outcome.{IsOutcome};
ghost use Rattle.subst_indexed.specs.Slot.{known_at};
ghost use Rattle.subst_indexed.specs.Template.{template_expansion};
ghost use Rattle.subst_c.specs.Expanded.{ExpandsEach, HasUnasked, IsBroken, IsOtherExpanded};
ghost use Rattle.subst_c.specs.Values.{given_values, under_values, value_known};
ghost use Rattle.subst_c.specs.declared.outcome.TheConstants.{DONE, REFUSED, ROOM_TOO_SMALL, NOT_A_TEMPLATE, ASKS};

use crate::expand::refuse;
use crate::fault::FaultRecord;
use crate::outcome::{DONE, REFUSED, ROOM_TOO_SMALL};
use crate::value::ValueRow;
use std::alloc::AllocError;
use subst_indexed::cell::Cell;
use subst_indexed::expand::expand_into_slice;
use subst_indexed::laws;
use subst_indexed::walk::Stop;

/// Expands cells with each row of values, one output after the other into the front of the buffer. No memory
/// is allocated.
pub fn expand_each(
    cells: &[Cell],
    source: &[u8],
    rows: &[ValueRow],
    buffer: &mut [u8],
    ends: &mut [usize],
    needed: &mut usize,
    row: &mut usize,
    fault: &mut FaultRecord,
) -> u32
    ensures answers { ExpandsEach (under_values cells.now source.now) source.now rows.now
        result needed.new row.new buffer.old buffer.new ends.old ends.new fault.old fault.new }
    ensures broken { result ≡ NOT_A_TEMPLATE → IsBroken cells.now source.now rows.now }
    ensures asks { result ≡ ASKS → HasUnasked rows.now }
    ensures row_kept { result ≢ REFUSED → row.new ≡ row.old }
    ensures needed_kept { result ≢ DONE → result ≢ ROOM_TOO_SMALL → needed.new ≡ needed.old }
    ensures others { IsOtherExpanded result }
{
    laws::any_cells_are_harmless();
    let mut written: usize = 0;
    for (i, values) in rows.iter().enumerate() {
        match append_row(cells, source, values, buffer, written) {
            Ok(end) => written = end,
            Err(stop) => {
                let result = refuse(stop, fault);
                if result == REFUSED {
                    *row = i;
                }
                return result;
            }
        }
        if i < ends.len() {
            ends[i] = written;
        }
    }
    *needed = written;
    if buffer.len() < written || ends.len() < rows.len() {
        return ROOM_TOO_SMALL;
    }
    DONE
}

/// Writes the output of cells with a row of values to the buffer, after the first `written` bytes. Returns
/// the position at which it ends. If this is past the buffer's end, the buffer's contents are unspecified.
///
/// # Errors
///
/// As `expand_into_slice`, and `Full` also if the position overflows a `usize`.
fn append_row(
    cells: &[Cell],
    source: &[u8],
    row: &ValueRow,
    buffer: &mut [u8],
    written: usize,
) -> Result<usize, Stop>
    ensures { IsOutcome (λ number. known_at value_known row.now.values.now number ≡ None)
        (template_expansion cells.now source.now (given_values row.now.values.now)) result
        (λ end x. (end ≡ written + length x)
        × (end ≤ length buffer.old
        → buffer.new ≡ take written buffer.old ++ x ++ drop end buffer.old)) }
{
    let from = written.min(buffer.len());
    match expand_into_slice(cells, source, row.values, &mut buffer[from..]) {
        Ok(length) => match written.checked_add(length) {
            Some(end) => Ok(end),
            None => Err(Stop::Full(AllocError)),
        },
        Err(stop) => Err(stop),
    }
}
