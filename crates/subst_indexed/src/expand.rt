//! The expansion of a template's cells with values by number. The calls take any cells. If these are no
//! template of the source, the output is still made of the source, of values, and of single bytes of cells.

ghost use Rattle.std.specs.Prelude.{◌≡◌, ◌≤◌, ◌<◌, ◌+◌, ◌^◌, ◌++◌, None, OnErr, drop, length, vec_capacity, vec_len};
ghost use Rattle.subst_indexed.specs.Expansion.{Values};
ghost use Rattle.subst_indexed.specs.Outcome.{AppendsTemplate, IfFull, IsOutcome};
ghost use Rattle.subst_indexed.specs.Slot.{Agree, known_at};
ghost use Rattle.subst_indexed.specs.Template.{template_expansion, template_written};

use crate::cell::Cell;
use crate::head::{is_whole, part_cells};
use crate::output::{Output, SliceOutput};
use crate::slot::AsSlot;
use crate::walk::{Stop, walk};

/// Appends what a template expands to, over its source and with values by number, to `output`.
///
/// # Errors
///
/// `NotATemplate` if the cells are no template of a source with this length, or are damaged. `Missing` for
/// the first needed variable without a value, `Asks` for the first one whose value hasn't been asked for, and
/// `Full` if allocation fails. The items of `output` are then unchanged.
pub fn expand<V: AsSlot>(
    cells: &[Cell],
    source: &[u8],
    values: &[V],
    output: &mut Vec<u8>,
) -> Result<(), Stop>
    ensures expands { (all : Values) → Agree V.known values.now all → IsOutcome
        (λ number. known_at V.known values.now number ≡ None)
        (template_expansion cells.now source.now all) result
        (λ done x. output.new.items ≡ output.old.items ++ x) }
    ensures kept { OnErr result (output.new.items ≡ output.old.items) }
    ensures full { (all : Values) → Agree V.known values.now all → IfFull result
        (vec_capacity output.old
        < vec_len output.old + length (template_written cells.now source.now all)) }
{
    let len = output.len();
    match append(cells, source, values, output) {
        Ok(()) => Ok(()),
        Err(stop) => {
            output.truncate(len);
            Err(stop)
        }
    }
}

/// Writes what a template expands to, over its source and with values by number, to the start of a slice.
/// Returns the length in bytes. If the slice is shorter, its contents are unspecified.
///
/// # Errors
///
/// As `expand`, but `Full` only if the length overflows a `usize`. The contents of the slice are then
/// unspecified.
pub fn expand_into_slice<V: AsSlot>(
    cells: &[Cell],
    source: &[u8],
    values: &[V],
    slice: &mut [u8],
) -> Result<usize, Stop>
    ensures expands { (all : Values) → Agree V.known values.now all → IsOutcome
        (λ number. known_at V.known values.now number ≡ None)
        (template_expansion cells.now source.now all) result
        (λ needed x. (needed ≡ length x)
        × (needed ≤ length slice.old → slice.new ≡ x ++ drop needed slice.old)) }
    ensures full { (all : Values) → Agree V.known values.now all → IfFull result
        (2 ^ 64 ≤ length (template_written cells.now source.now all)) }
{
    let mut output = SliceOutput { slice, written: 0 };
    match append(cells, source, values, &mut output) {
        Ok(()) => Ok(output.written),
        Err(stop) => Err(stop),
    }
}

/// Appends what a template expands to to any output.
#[inline(always)]
fn append<V: AsSlot, W: Output>(
    cells: &[Cell],
    source: &[u8],
    values: &[V],
    output: &mut W,
) -> Result<(), Stop>
    ensures { AppendsTemplate W.holds W.len W.capacity
        (λ number. known_at V.known values.now number ≡ None) (Agree V.known values.now)
        cells.now source.now result output.old output.new }
{
    let Some(parts) = part_cells(cells, source.len()) else {
        return Err(Stop::NotATemplate);
    };
    if !is_whole(cells) {
        return Err(Stop::NotATemplate);
    }
    walk(parts, source, values, &mut 0, output)
}
