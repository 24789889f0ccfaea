//! Writing to the caller's buffer.

ghost use Rattle.std.specs.Prelude.{◌≡◌, ◌≢◌};
ghost use Rattle.subst_c.specs.Buffer.{FillsBuffer};
ghost use Rattle.subst_c.specs.declared.outcome.TheConstants.{DONE, ROOM_TOO_SMALL};

use crate::outcome::{DONE, ROOM_TOO_SMALL};

/// Writes items to the front of the buffer, and their number to `needed`. If they don't fit, the buffer is
/// unchanged.
pub fn deliver<T: Copy>(items: &[T], buffer: &mut [T], needed: &mut usize) -> u32
    ensures buffer { FillsBuffer (λ x. x ≡ items.now)
        result needed.old needed.new buffer.old buffer.new }
    ensures others { result ≢ DONE → result ≡ ROOM_TOO_SMALL }
{
    *needed = items.len();
    if buffer.len() < items.len() {
        return ROOM_TOO_SMALL;
    }
    buffer[..items.len()].copy_from_slice(items);
    DONE
}
