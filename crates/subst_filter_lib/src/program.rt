//! The program, as a function of its arguments, the names and values of the environment, and three devices.

ghost use Rattle.std.specs.Prelude.{◌≡◌, ◌≢◌, ◌≤◌, ◌⊎◌, ◌↔◌, true, None, drop, OnOk, IfSome, IsErrOf};
ghost use Rattle.std.specs.Io.KnownBytes.{Keeps};
ghost use Rattle.subst_filter_lib.specs.Device.{ReadsAll};
ghost use Rattle.subst_filter_lib.specs.FilterRun.{RunAnswers, WritesAnswer, WritesPrefix, IsRefusedBy, Reports, OnceRead, UnlessReadFails, UnlessWriteFails, UnlessWriting};
ghost use Rattle.subst_filter_lib.specs.RunError.{error_status};
ghost use Rattle.subst_filter_lib.specs.Task.{task_of, Accepts, look_up_of_task};

use crate::device::{ByteInput, ByteOutput};
use crate::engine::{run_bytes, run_text, write_all};
use crate::run_error::RunError;
use crate::status::{DEVICE_FAILED, DONE, OUT_OF_MEMORY, REFUSED, WRONG_ARGUMENTS};
use crate::task::Task;
use crate::values::{values_of_arguments, values_of_pairs};
use std::alloc::Global;
use std::fmt;
use std::fmt::Write;

/// The usage line, printed if the arguments are wrong.
const USAGE: &str = "usage: subst_filter bytes|text|env [NAME=VALUE]...\n";

/// Runs the program with the arguments after its name, with the names and values of the environment, and with
/// devices in place of its streams. Returns the exit status:
///
/// - [`DONE`]: the source was read from `input` to its end, its expansion was written to `output`, and
///   `output` was flushed.
/// - [`REFUSED`]: the source is refused, or isn't UTF-8 but has to be, and nothing was written to `output`.
/// - [`WRONG_ARGUMENTS`]: the arguments are wrong, nothing was read from `input`, and nothing was written to
///   `output`.
/// - [`DEVICE_FAILED`]: `input` or `output` failed, and at most a prefix of the expansion was written to
///   `output`.
/// - [`OUT_OF_MEMORY`]: memory ran out, and nothing was written to `output`.
///
/// At each status but [`DONE`] the reason is written to `errors`. A failure of `errors` doesn't change the
/// status. The `pairs` of the environment are used only if the sole argument is `env`.
pub fn run_program<I: ByteInput, O: ByteOutput, P: ByteOutput>(
    alloc: Global,
    arguments: &[String],
    pairs: Vec<(String, String)>,
    input: &mut I,
    output: &mut O,
    errors: &mut P,
) -> u8
    ensures statuses { result ≤ OUT_OF_MEMORY }
    ensures wrong_arguments { (result ≡ WRONG_ARGUMENTS) ↔ (task_of arguments.now ≡ None) }

    // Done: the source was read to its end, and exactly its expansion was written.
    ensures done { result ≡ DONE → ReadsAll (I.left input.old) (I.left input.new)
        × IfSome (task_of arguments.now) (λ task. IfSome (I.left input.old) (λ source.
        Accepts task source × WritesAnswer source (look_up_of_task task arguments.now pairs.items)
        (O.written output.old) (O.written output.new))) }

    // Done: the output was flushed after the last byte was written.
    ensures flushed { result ≡ DONE → O.is_flushed output.new ≡ true }

    // A failure isn't forgotten: at any status but DEVICE_FAILED, neither the input nor the output has failed
    // during the run.
    ensures unfailed { result ≢ DEVICE_FAILED
        → (I.has_failed input.new ≡ I.has_failed input.old)
        × (O.has_failed output.new ≡ O.has_failed output.old) }

    // Wrong arguments: nothing was read.
    ensures untouched { result ≡ WRONG_ARGUMENTS → Keeps (I.left input.old) (I.left input.new) }

    // Refused: the source was read to its end. Either the task doesn't accept it, or its answer is a refusal.
    ensures refused { result ≡ REFUSED → ReadsAll (I.left input.old) (I.left input.new)
        × IfSome (task_of arguments.now) (λ task. IfSome (I.left input.old) (λ source.
        IsRefusedBy task source (look_up_of_task task arguments.now pairs.items))) }

    // A device failed: either nothing was written, or a prefix of the expansion.
    ensures failed { result ≡ DEVICE_FAILED
        → (I.has_failed input.new ≡ true) ⊎ (O.has_failed output.new ≡ true) }
    ensures prefix { result ≡ DEVICE_FAILED → Keeps (O.written output.old) (O.written output.new)
        ⊎ IfSome (task_of arguments.now) (λ task. IfSome (I.left input.old) (λ source.
        Accepts task source × WritesPrefix source (look_up_of_task task arguments.now pairs.items)
        (O.written output.old) (O.written output.new))) }

    // At any status but DONE and DEVICE_FAILED, nothing was written to the output.
    ensures unwritten { result ≢ DONE → result ≢ DEVICE_FAILED
        → Keeps (O.written output.old) (O.written output.new) }
{
    let Some(task) = Task::of_arguments(arguments) else {
        write_text(errors, USAGE);
        return WRONG_ARGUMENTS;
    };
    match run_task(alloc, task, arguments, &pairs, input, output) {
        Ok(()) => DONE,
        Err(e) => end_with(&e, errors),
    }
}

/// Builds the map of the task's variables and runs the filter with it. The variables are those of the
/// arguments after the first one, or of the environment.
///
/// # Errors
///
/// As [`run_bytes`] and [`run_text`]. Also [`RunError::OutOfMemory`] if memory runs out for the map.
fn run_task<I: ByteInput, O: ByteOutput>(
    alloc: Global,
    task: Task,
    arguments: &[String],
    pairs: &[(String, String)],
    input: &mut I,
    output: &mut O,
) -> Result<(), RunError>
    // The result and the bytes that were written agree with the answer of the source.
    ensures answer { IfSome (I.left input.old) (λ source. RunAnswers source
        (look_up_of_task task arguments.now pairs.now)
        result (O.written output.old) (O.written output.new)) }

    // The result reports whether the task accepts the source, unless reading failed or memory ran out.
    ensures source { IfSome (I.left input.old) (λ source. Reports (Accepts task source) result) }

    ensures whole { OnceRead result (ReadsAll (I.left input.old) (I.left input.new)) }
    ensures unwritten { UnlessWriting result (Keeps (O.written output.old) (O.written output.new)) }
    ensures flushed { OnOk result (O.is_flushed output.new ≡ true) }
    ensures read_fault { IsErrOf result RunError.Read → I.has_failed input.new ≡ true }
    ensures write_fault { IsErrOf result RunError.Write → O.has_failed output.new ≡ true }
    ensures input_unfailed { UnlessReadFails result
        (I.has_failed input.new ≡ I.has_failed input.old) }
    ensures output_unfailed { UnlessWriteFails result
        (O.has_failed output.new ≡ O.has_failed output.old) }
{
    let rest = after_first(arguments);
    match task {
        Task::Bytes => run_bytes(alloc, input, output, &values_of_arguments(alloc, rest)?),
        Task::Text => run_text(alloc, input, output, &values_of_arguments(alloc, rest)?),
        Task::Environment => run_text(alloc, input, output, &values_of_pairs(alloc, pairs)?),
    }
}

/// Returns the arguments after the first one, or none if there are no arguments.
fn after_first(arguments: &[String]) -> &[String]
    ensures { result.now ≡ drop 1 arguments.now }
{
    match arguments {
        [_, rest @ ..] => rest,
        [] => arguments,
    }
}

/// Writes the message of an error, with its highlighting, to `errors`. Returns the exit status for the error,
/// even if `errors` fails.
pub fn end_with<P: ByteOutput>(error: &RunError, errors: &mut P) -> u8
    ensures status { result ≡ error_status error.now }
{
    let highlighting = match error {
        RunError::Subst(_, highlighting) => highlighting.as_str(),
        _ => "",
    };
    write_text(errors, format_args!("subst: {error}\n{highlighting}"));
    error.status()
}

/// Writes a text to the device `errors`, and flushes the device. Failures are ignored.
fn write_text<P: ByteOutput, D: fmt::Display + Drop>(errors: &mut P, text: D) {
    let mut texts = Texts { output: errors };
    let _ = texts.write(text);
    let _ = errors.flush();
}

/// A writer of text to an output device.
#[derive(Drop)]
struct Texts<'p, P> {
    output: &'p mut P,
}

impl<P: ByteOutput> fmt::Write for Texts<'_, P> {
    fn write_str(&mut self, s: &str) -> fmt::Result {
        write_all(self.output, s.as_bytes()).map_err(|_| fmt::Error)
    }
}
