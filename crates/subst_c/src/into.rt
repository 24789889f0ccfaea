//! Expanding straight into the caller's buffer.

ghost use Rattle.std.specs.Prelude.{◌≡◌, ◌≢◌, ◌^◌, ◌≤◌, length};
ghost use Rattle.subst_language.specs.Language.Sentence.{ByTree};
ghost use Rattle.subst_language.specs.Language.Written.{written};
ghost use Rattle.subst_c.specs.Fault.{IsRecordOf, SetsFault};
ghost use Rattle.subst_c.specs.Pairs.{pair_value, GivenBy, RefusedBy};
ghost use Rattle.subst_c.specs.Buffer.{IsPut, IsTooLong};
ghost use Rattle.subst_c.specs.declared.outcome.TheConstants.{DONE, REFUSED, OUT_OF_MEMORY, ROOM_TOO_SMALL};
ghost use Rattle.subst_c.specs.Results.{IsOther};

use crate::fault::{self, FaultRecord};
use crate::outcome::{DONE, ROOM_TOO_SMALL};
use crate::pairs::{Pair, Pairs, index_of};
use std::alloc::Global;
use subst_template::ByteTemplate;

/// Expands the template with the pairs into the front of the buffer. The output's length in bytes is written
/// to `needed`, even if the buffer is shorter. At most an index of the pairs is allocated. If that allocation
/// fails, the pairs are searched instead. The result `OUT_OF_MEMORY` means that the output's length overflows
/// a `usize`. Unless the result is `DONE`, the buffer's contents are unspecified.
pub fn expand_into_buffer(
    alloc: Global,
    template: &ByteTemplate,
    pairs: &[Pair],
    buffer: &mut [u8],
    needed: &mut usize,
    fault: &mut FaultRecord,
) -> u32
    ensures done { result ≡ DONE
        → IsPut (GivenBy template.now pairs.now) needed.new buffer.old buffer.new }
    ensures fault { SetsFault (IsRecordOf (RefusedBy template.now pairs.now)) template.now
        result fault.old fault.new }
    ensures too_small { result ≡ ROOM_TOO_SMALL
        → IsTooLong (GivenBy template.now pairs.now) needed.new buffer.old }
    ensures others { IsOther result }
    ensures memory { result ≡ OUT_OF_MEMORY → ByTree template.now
        (λ t. 2 ^ 64 ≤ length (written 0 t (pair_value pairs.now))) }
    ensures needed_kept { result ≢ DONE → result ≢ ROOM_TOO_SMALL → needed.new ≡ needed.old }
{
    let index = index_of(alloc, template.source(), pairs);
    let written = template.expand_into_slice(buffer, &Pairs { pairs, index });
    match written {
        Ok(length) => {
            *needed = length;
            if buffer.len() < length {
                return ROOM_TOO_SMALL;
            }
            DONE
        }
        Err(e) => fault::refuse_missing(&e, fault),
    }
}
