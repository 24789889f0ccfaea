//! The run of the filter over a source of any bytes.

ghost use Rattle.std.specs.Prelude.{◌≡◌, ℕ, List, true, OnOk, IfErr, IfSome, IsErrOf};
ghost use Rattle.std.specs.Io.KnownBytes.{Keeps};
ghost use Rattle.subst.specs.Calls.VariableMap.{ByLookUp};
ghost use Rattle.subst_filter_lib.specs.Device.{ReadsAll};
ghost use Rattle.subst_filter_lib.specs.FilterRun.{RunAnswers, OnceRead, UnlessReadFails, UnlessWriteFails, UnlessWriting};
ghost use Rattle.subst_filter_lib.specs.RunError.{IsFaultOfBytes};

use super::{deliver, read_all, refusal};
use crate::device::{ByteInput, ByteOutput};
use crate::run_error::RunError;
use std::alloc::Global;
use std::convert::AsSlice;
use subst::{VariableMap, substitute_bytes_owned};

/// Reads the source from `input` to its end, and expands it with `variables`. Then writes the resulting bytes
/// to `output`, and flushes `output`. Nothing is written if reading or expanding fails.
///
/// # Errors
///
/// - [`RunError::Read`] if the input fails.
/// - [`RunError::Subst`], with an empty highlighting, if the source is refused.
/// - [`RunError::Write`] if the output fails. A prefix of the resulting bytes was then written.
/// - [`RunError::OutOfMemory`] if memory runs out.
#[tactic(auto, using(crate::proofs::FilterRunLemmas::delivered, crate::proofs::FilterRunLemmas::refused))]
pub fn run_bytes<'a, I: ByteInput, O: ByteOutput, M: VariableMap<'a>>(
    alloc: Global,
    input: &mut I,
    output: &mut O,
    variables: &'a M,
) -> Result<(), RunError>
where
    M::Value: AsSlice<u8> + Drop,

    // The result and the bytes that were written agree with the answer of the source.
    ensures answer { ByLookUp M.Value.items M.see (M.look_up variables.now)
        (λ look. IfSome (I.left input.old) (λ source. RunAnswers source look
        result (O.written output.old) (O.written output.new))) }

    // The source was read to its end, unless reading failed or memory ran out.
    ensures whole { OnceRead result (ReadsAll (I.left input.old) (I.left input.new)) }

    // Nothing was written, unless the run succeeded or writing failed.
    ensures unwritten { UnlessWriting result (Keeps (O.written output.old) (O.written output.new)) }

    // If the run succeeded, the output was flushed after the last byte was written.
    ensures flushed { OnOk result (O.is_flushed output.new ≡ true) }

    // A device is blamed only if it has failed, and the source is never blamed for not being UTF-8.
    ensures read_fault { IsErrOf result RunError.Read → I.has_failed input.new ≡ true }
    ensures write_fault { IsErrOf result RunError.Write → O.has_failed output.new ≡ true }
    ensures faults { IfErr result IsFaultOfBytes }

    // A failure isn't forgotten: if a device fails during the run, the result blames it.
    ensures input_unfailed { UnlessReadFails result
        (I.has_failed input.new ≡ I.has_failed input.old) }
    ensures output_unfailed { UnlessWriteFails result
        (O.has_failed output.new ≡ O.has_failed output.old) }
{
    let source = read_all(alloc, input)?;
    match substitute_bytes_owned(alloc, source, variables) {
        Ok(bytes) => deliver(output, &bytes),
        Err(e) => Err(refusal(e, String::new(alloc))),
    }
}
