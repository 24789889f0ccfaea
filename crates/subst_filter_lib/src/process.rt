//! Runs the program with the arguments, the environment and the standard streams of its process.

ghost use Rattle.std.specs.Prelude.{◌≡◌, ◌≢◌, ◌≤◌, Some, [], IsOkAnd};
ghost use Rattle.std.specs.IoError.{error_kind};
ghost use Rattle.std.specs.Process.{exit_status};
ghost use Rattle.std.specs.declared.env.VarError.TheVariants as reading;
ghost use Rattle.subst_filter_lib.specs.Task.{task_of};

use crate::device::standard::{FromReader, ToWriter};
use crate::program::{end_with, run_program};
use crate::run_error::RunError;
use crate::status::OUT_OF_MEMORY;
use crate::task::Task;
use std::env::VarError;
use std::io::ErrorKind;
use std::process::ExitCode;
use std::{env, io};

/// Runs the program with the arguments of its command line, its environment and its standard streams. Returns
/// the exit status of [`run_program`]. If reading the arguments or the environment fails, returns the
/// [`RunError::status`] of the error instead. The environment is read only if the sole argument is `env`.
pub fn run(rt: &HostRuntime) -> ExitCode
    ensures statuses { exit_status result ≤ OUT_OF_MEMORY }
{
    let mut input = FromReader::new(rt.stdin());
    let mut output = ToWriter::new(rt.stdout());
    let mut errors = ToWriter::new(rt.stderr());
    let status = match arguments_and_pairs(rt) {
        Ok((arguments, pairs)) => run_program(
            rt.alloc(),
            &arguments,
            pairs,
            &mut input,
            &mut output,
            &mut errors,
        ),
        Err(e) => end_with(&e, &mut errors),
    };
    ExitCode::from(status)
}

/// Returns the arguments after the program's name, and the environment's pairs if the sole argument is `env`.
///
/// # Errors
///
/// [`RunError::OutOfMemory`] if memory runs out, and [`RunError::Read`] if an argument or a pair isn't UTF-8.
fn arguments_and_pairs(rt: &HostRuntime) -> Result<(Vec<String>, Vec<(String, String)>), RunError> {
    let arguments = arguments(rt).map_err(|e| error_of_arguments(&e))?;
    let pairs = pairs(rt, &arguments).map_err(|e| error_of_pairs(&e))?;
    Ok((arguments, pairs))
}

/// Returns the arguments after the program's name.
fn arguments(rt: &HostRuntime) -> io::Result<Vec<String>> {
    let arguments = env::args(rt)?.skip(1).collect(rt.alloc())?;
    Ok(arguments)
}

/// Returns the names and values of the environment if the sole argument is `env`. Otherwise returns no pairs,
/// without reading the environment.
fn pairs(rt: &HostRuntime, arguments: &[String]) -> Result<Vec<(String, String)>, VarError>
    ensures unread { task_of arguments.now ≢ Some Task.Environment
        → IsOkAnd result (λ pairs. pairs.items ≡ []) }
{
    if Task::of_arguments(arguments) != Some(Task::Environment) {
        return Ok(Vec::new(rt.alloc()));
    }
    let pairs = env::vars(rt)?.collect(rt.alloc())?;
    Ok(pairs)
}

/// Converts `e`, the error of reading the arguments, into the program's error: out of memory, or else a
/// failed read.
fn error_of_arguments(e: &io::Error) -> RunError
    ensures memory { error_kind e.now ≡ ErrorKind.OutOfMemory → result ≡ RunError.OutOfMemory }
    ensures other { error_kind e.now ≢ ErrorKind.OutOfMemory → result ≡ RunError.Read }
{
    match e.kind() {
        ErrorKind::OutOfMemory => RunError::OutOfMemory,
        _ => RunError::Read,
    }
}

/// Converts `e`, the error of reading the environment, into the program's error: out of memory, or else a
/// failed read.
fn error_of_pairs(e: &VarError) -> RunError
    ensures memory { e.now ≡ VarError.OutOfMemory → result ≡ RunError.OutOfMemory }
    ensures other { e.now ≢ VarError.OutOfMemory → result ≡ RunError.Read }
{
    match e {
        VarError::OutOfMemory => RunError::OutOfMemory,
        VarError::NotUnicode | VarError::NotPresent => RunError::Read,
    }
}
