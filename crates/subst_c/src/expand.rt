//! Expanding cells with values by number, for C.

ghost use Rattle.std.specs.Prelude.{◌≡◌, ◌≢◌, ℕ, None, Result, length};
ghost use Rattle.subst_indexed.specs.Slot.{Agree, known_at};
ghost use Rattle.subst_indexed.specs.Step.{StepsTo};
ghost use Rattle.subst_indexed.specs.Expansion.{Breaks};
ghost use Rattle.subst_indexed.specs.Template.{template_expansion};
ghost use Rattle.subst_indexed.specs.declared.walk.Stop.{Stop};
ghost use Rattle.subst_c.specs.Expanded.{Expands, IsOtherExpanded, IsToldAs, stop_fault, stop_number};
ghost use Rattle.subst_c.specs.Values.{CellsAnswer, given_values, value_known};
ghost use Rattle.subst_c.specs.declared.outcome.TheConstants.{DONE, REFUSED, ROOM_TOO_SMALL, NOT_A_TEMPLATE, ASKS};

use crate::fault::{FaultRecord, NO_SUCH_VARIABLE};
use crate::outcome::{ASKS, DONE, NOT_A_TEMPLATE, OUT_OF_MEMORY, REFUSED, ROOM_TOO_SMALL};
use crate::value::{Value, ValueRow};
use subst_indexed::cell::Cell;
use subst_indexed::expand::expand_into_slice;
use subst_indexed::laws;
use subst_indexed::step::{Cursor, expand_step};
use subst_indexed::walk::Stop;

/// Expands cells into the front of the buffer. No memory is allocated.
pub fn expand_into(
    cells: &[Cell],
    source: &[u8],
    values: &[Value],
    buffer: &mut [u8],
    needed: &mut usize,
    fault: &mut FaultRecord,
) -> u32
    ensures answer { Expands (CellsAnswer cells.now source.now (given_values values.now)) source.now
        result needed.new buffer.old buffer.new fault.old fault.new }
    ensures broken { result ≡ NOT_A_TEMPLATE
        → template_expansion cells.now source.now (given_values values.now) ≡ Breaks }
    ensures asks { result ≡ ASKS → (number : ℕ) × (known_at value_known values.now number ≡ None) }
    ensures needed_kept { result ≢ DONE → result ≢ ROOM_TOO_SMALL → needed.new ≡ needed.old }
    ensures others { IsOtherExpanded result }
{
    laws::any_cells_are_harmless();
    match expand_into_slice(cells, source, values, buffer) {
        Ok(length) => {
            *needed = length;
            if buffer.len() < length {
                return ROOM_TOO_SMALL;
            }
            DONE
        }
        Err(stop) => refuse(stop, fault),
    }
}

/// Continues an expansion from a cursor, and writes the number of the variable whose value isn't known to
/// `asked`.
pub fn step(
    cells: &[Cell],
    source: &[u8],
    values: &[Value],
    cursor: &mut Cursor,
    buffer: &mut [u8],
    asked: &mut usize,
    fault: &mut FaultRecord,
) -> u32
    ensures steps { (stop : Result (Unit {0}) Stop) × StepsTo
        (λ number. known_at value_known values.now number ≡ None) (Agree value_known values.now)
        cells.now source.now stop cursor.old cursor.new buffer.old buffer.new
        × IsToldAs stop cursor.new.written (length buffer.old) result
        asked.old asked.new fault.old fault.new }
{
    match expand_step(cells, source, values, cursor, buffer) {
        Ok(()) => {
            if buffer.len() < cursor.written {
                return ROOM_TOO_SMALL;
            }
            DONE
        }
        Err(stop) => {
            if let Stop::Asks(number) = stop {
                *asked = number as usize;
            }
            refuse(stop, fault)
        }
    }
}

/// Returns the number of the result of an expansion that stopped, and writes the fault of a missing variable.
pub fn refuse(stop: Stop, fault: &mut FaultRecord) -> u32
    ensures number { result ≡ stop_number stop }
    ensures fault { fault.new ≡ stop_fault stop fault.old }
{
    match stop {
        Stop::Full(_) => OUT_OF_MEMORY,
        Stop::Missing(name) => {
            *fault = FaultRecord {
                kind: NO_SUCH_VARIABLE,
                position: name.start,
                length: name.end.saturating_sub(name.start),
            };
            REFUSED
        }
        Stop::Asks(_) => ASKS,
        Stop::NotATemplate => NOT_A_TEMPLATE,
    }
}
