//! The run of the filter over a source that has to be UTF-8.

ghost use Rattle.std.specs.Prelude.{◌≡◌, ℕ, List, true, OnOk, IfErr, IfSome, IsErrOf};
ghost use Rattle.std.specs.Io.KnownBytes.{Keeps};
ghost use Rattle.subst.specs.Calls.VariableMap.{ByLookUp};
ghost use Rattle.subst.specs.ErrorFault.{error_fault};
ghost use Rattle.subst.specs.Range.{IsRangeIn, range_of};
ghost use Rattle.subst_filter_lib.specs.Device.{ReadsAll};
ghost use Rattle.subst_filter_lib.specs.FilterRun.{RunAnswers, ReportsText, OnceRead, UnlessReadFails, UnlessWriteFails, UnlessWriting};
ghost use Rattle.subst_filter_lib.specs.RunError.{HighlightsFault, IsFaultOfText, IsRefusalOf};

use super::{deliver, read_all, refusal};
use crate::device::{ByteInput, ByteOutput};
use crate::run_error::RunError;
use std::alloc::Global;
use std::convert::AsStr;
use subst::escape::is_plain;
use subst::{Error, VariableMap, substitute};

/// Reads the source from `input` to its end, and expands it with `variables`, whose values are texts. Then
/// writes the resulting text to `output`, and flushes `output`. Nothing is written if reading or expanding
/// fails.
///
/// # Errors
///
/// - [`RunError::Read`] if the input fails.
/// - [`RunError::NotUtf8`] if the source isn't UTF-8.
/// - [`RunError::Subst`], with the highlighting of the fault in the source, if the source is refused.
/// - [`RunError::Write`] if the output fails. A prefix of the resulting text's bytes was then written.
/// - [`RunError::OutOfMemory`] if memory runs out, including the memory for the highlighting.
#[tactic(auto, using(crate::proofs::FilterRunLemmas::delivered, crate::proofs::FilterRunLemmas::delivered_text, crate::proofs::FilterRunLemmas::delivered_unhighlighted, crate::proofs::FilterRunLemmas::refused_highlighted))]
pub fn run_text<'a, I: ByteInput, O: ByteOutput, M: VariableMap<'a>>(
    alloc: Global,
    input: &mut I,
    output: &mut O,
    variables: &'a M,
) -> Result<(), RunError>
where
    M::Value: AsStr + Drop,

    // The result and the bytes that were written agree with the answer of the source.
    ensures answer { ByLookUp M.Value.text M.see (M.look_up variables.now)
        (λ look. IfSome (I.left input.old) (λ source. RunAnswers source look
        result (O.written output.old) (O.written output.new))) }

    // The result reports whether the source is UTF-8, unless reading failed or memory ran out.
    ensures text { IfSome (I.left input.old) (ReportsText result) }

    // The source was read to its end, unless reading failed or memory ran out.
    ensures whole { OnceRead result (ReadsAll (I.left input.old) (I.left input.new)) }

    // Nothing was written, unless the run succeeded or writing failed.
    ensures unwritten { UnlessWriting result (Keeps (O.written output.old) (O.written output.new)) }

    // If the run succeeded, the output was flushed after the last byte was written.
    ensures flushed { OnOk result (O.is_flushed output.new ≡ true) }

    // A device is blamed only if it has failed.
    ensures read_fault { IsErrOf result RunError.Read → I.has_failed input.new ≡ true }
    ensures write_fault { IsErrOf result RunError.Write → O.has_failed output.new ≡ true }
    ensures faults { IfErr result IsFaultOfText }

    // A refusal holds the highlighting of its fault in the source.
    ensures highlighted { IfSome (I.left input.old)
        (λ source. IfErr result (HighlightsFault source)) }

    // A failure isn't forgotten: if a device fails during the run, the result blames it.
    ensures input_unfailed { UnlessReadFails result
        (I.has_failed input.new ≡ I.has_failed input.old) }
    ensures output_unfailed { UnlessWriteFails result
        (O.has_failed output.new ≡ O.has_failed output.old) }
{
    let bytes = read_all(alloc, input)?;
    let Ok(source) = simdutf8::basic::from_utf8(&bytes) else {
        return Err(RunError::NotUtf8);
    };
    if is_plain(source.as_bytes()) {
        return deliver(output, source.as_bytes());
    }
    match substitute(alloc, source, variables) {
        Ok(text) => deliver(output, text.as_bytes()),
        Err(e) => Err(highlighted_refusal(alloc, e, source)),
    }
}

/// Converts `e`, the error of an expansion of `source`, into the error of a run, with the fault highlighted.
/// Returns [`RunError::OutOfMemory`] if `e` is [`Error::OutOfMemory`], or if memory runs out for the
/// highlighting.
fn highlighted_refusal(alloc: Global, e: Error, source: &str) -> RunError
    requires { IsRangeIn source.now (range_of (error_fault e)) }
    ensures refusal { IsRefusalOf e result }
    ensures highlighted { HighlightsFault source.now result }
{
    match e.source_highlighting(alloc, source) {
        Ok(highlighting) => refusal(e, highlighting),
        Err(_) => RunError::OutOfMemory,
    }
}
