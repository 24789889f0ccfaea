//! Runs of the filter over any input and output device.
//!
//! A run reads its source to the end, expands it, and only then writes. The runs, [`run_bytes`] and
//! [`run_text`], are in the child modules. The functions that both use are here.

ghost use Rattle.std.specs.Prelude.{◌≡◌, true, IfOk, IfErr, OnOk, OnErr, MatchOption};
ghost use Rattle.std.specs.Io.KnownBytes.{Appends};
ghost use Rattle.subst.specs.ErrorFault.{error_fault};
ghost use Rattle.subst_filter_lib.specs.Device.{ReadsExactly, AppendsPrefix};
ghost use Rattle.subst_filter_lib.specs.FilterRun.{UnlessReadFails};
ghost use Rattle.subst_filter_lib.specs.RunError.{IsReadFault, IsWriteFault};

use crate::device::{ByteInput, ByteOutput, Failed};
use crate::run_error::RunError;
pub use bytes::run_bytes;
use std::alloc::Global;
use subst::Error;
pub use text::run_text;

mod bytes;
mod text;

/// The length in bytes of the first read's buffer: more than most sources have, and cheap to clear.
const FIRST_CHUNK: usize = 4096;

/// The length in bytes of the buffer once a read has filled the first one: the capacity of a pipe.
const CHUNK: usize = 65536;

/// Reads the input to its end, and returns the bytes read.
///
/// # Errors
///
/// [`RunError::Read`] if the input fails, and [`RunError::OutOfMemory`] if memory runs out.
#[tactic(auto, using(crate::proofs::DeviceLemmas::reads_to_end, crate::proofs::DeviceLemmas::reads_on))]
fn read_all<I: ByteInput>(alloc: Global, input: &mut I) -> Result<Vec<u8>, RunError>
    ensures ok { IfOk result (λ all. ReadsExactly (I.left input.old) (I.left input.new) all.items) }
    ensures err { IfErr result (IsReadFault (I.has_failed input.new)) }
    ensures unfailed { UnlessReadFails result (I.has_failed input.new ≡ I.has_failed input.old) }
{
    let mut all = Vec::new(alloc);
    let mut chunk = vec![in alloc; 0; FIRST_CHUNK]?;
    loop {
        let Ok(count) = input.read(&mut chunk) else {
            return Err(RunError::Read);
        };
        if count == 0 {
            return Ok(all);
        }
        all.extend_from_slice(&chunk[..count])?;
        if count == chunk.len() {
            chunk.resize(CHUNK, 0)?;
        }
    }
}

/// Converts the error `e` of an expansion into the error of a run: out of memory, or else a refused source.
/// `highlighting` is that of the fault, or empty.
fn refusal(e: Error, highlighting: String) -> RunError
    ensures { MatchOption (error_fault e) (result ≡ RunError.OutOfMemory)
        (λ _. result ≡ RunError.Subst e highlighting) }
{
    match e {
        Error::OutOfMemory(_) => RunError::OutOfMemory,
        refused => RunError::Subst(refused, highlighting),
    }
}

/// Writes all bytes to the output, and flushes it.
///
/// # Errors
///
/// [`RunError::Write`] if the output fails. A prefix of the bytes, possibly empty or whole, was then written.
pub fn deliver<O: ByteOutput>(output: &mut O, bytes: &[u8]) -> Result<(), RunError>
    ensures ok { OnOk result (Appends (O.written output.old) (O.written output.new) bytes.now) }
    ensures prefix { AppendsPrefix (O.written output.old) (O.written output.new) bytes.now }
    ensures err { IfErr result (IsWriteFault (O.has_failed output.new)) }
    ensures unfailed { OnOk result (O.has_failed output.new ≡ O.has_failed output.old) }
    ensures flushed { OnOk result (O.is_flushed output.new ≡ true) }
{
    if write_all(output, bytes).is_ok() && output.flush().is_ok() {
        Ok(())
    } else {
        Err(RunError::Write)
    }
}

/// Writes all bytes to the output, without flushing it.
///
/// # Errors
///
/// [`Failed`] if the output fails. A prefix of the bytes was then written, possibly none.
#[tactic(auto, using(crate::proofs::DeviceLemmas::longer_prefix))]
pub fn write_all<O: ByteOutput>(output: &mut O, bytes: &[u8]) -> Result<(), Failed>
    ensures ok { OnOk result (Appends (O.written output.old) (O.written output.new) bytes.now) }
    ensures prefix { AppendsPrefix (O.written output.old) (O.written output.new) bytes.now }
    ensures failed { OnErr result (O.has_failed output.new ≡ true) }
    ensures unfailed { OnOk result (O.has_failed output.new ≡ O.has_failed output.old) }
{
    let mut at = 0;
    while at < bytes.len() {
        at += output.write(&bytes[at..])?;
    }
    Ok(())
}
