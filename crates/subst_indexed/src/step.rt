//! Expansion in steps: it stops at a value that hasn't been asked for, and continues where it stopped.

ghost use Rattle.std.specs.Prelude.{◌≡◌, None};
ghost use Rattle.subst_indexed.specs.Slot.{Agree, known_at};
ghost use Rattle.subst_indexed.specs.Step.{StepsTo};

use crate::cell::Cell;
use crate::head::{is_whole, part_cells};
use crate::output::SliceOutput;
use crate::slot::AsSlot;
use crate::walk::{Stop, walk};

/// Where an expansion in steps has stopped.
#[repr(C)]
#[derive(Clone, Copy)]
pub struct Cursor {
    /// The number of cells of parts that are done: the index of the next one.
    pub index: usize,
    /// The number of bytes that are written.
    pub written: usize,
}

/// Continues an expansion from a cursor, and moves the cursor to where the expansion stops. A new expansion
/// begins with both numbers 0. The bytes are written to the slice after those that are written already. If
/// the slice is shorter, its contents are unspecified.
///
/// # Errors
///
/// - `Asks` with the number of a value that hasn't been asked for. The next call continues there.
/// - `Missing` for a needed variable without a value.
/// - `NotATemplate` if the cells are no template of a source with this length. The check sum is compared only
///   at the beginning.
/// - `Full` if the length overflows a `usize`. The cursor and the slice's contents are then unspecified.
pub fn expand_step<V: AsSlot>(
    cells: &[Cell],
    source: &[u8],
    values: &[V],
    cursor: &mut Cursor,
    slice: &mut [u8],
) -> Result<(), Stop>
    ensures steps { StepsTo (λ number. known_at V.known values.now number ≡ None)
        (Agree V.known values.now) cells.now source.now result cursor.old cursor.new
        slice.old slice.new }
{
    let Some(parts) = part_cells(cells, source.len()) else {
        return Err(Stop::NotATemplate);
    };
    if cursor.index == 0 && !is_whole(cells) {
        return Err(Stop::NotATemplate);
    }
    let mut output = SliceOutput {
        slice,
        written: cursor.written,
    };
    let outcome = walk(parts, source, values, &mut cursor.index, &mut output);
    cursor.written = output.written;
    outcome
}
