//! Runs the program with the arguments, the environment and the standard streams of its process.

ghost use Rattle.std.specs.Prelude.{◌≤◌};
ghost use Rattle.std.specs.Process.{exit_status};

use crate::disk::Disk;
use crate::output;
use crate::printer::StandardOutput;
use crate::report::Report;
use crate::run::run_options;
use clap::Error;
use clap::error::ErrorKind;
use std::alloc::AllocError;
use std::process::ExitCode;
use std::{env, io};
use subst_expander::terminal::printable_lines;
use subst_filter_lib::status::OUT_OF_MEMORY;
use subst_options::Options;

/// Runs the program with its arguments, its environment, its standard streams and the files that the
/// arguments name. Returns the exit status: the highest of all events that were reported, or `DONE`.
pub fn run(rt: &HostRuntime) -> ExitCode
    ensures statuses { exit_status result ≤ OUT_OF_MEMORY }
{
    let mut report = Report::new(rt);
    if run_arguments(rt, &mut report).is_err() {
        report.out_of_memory("subst");
    }
    ExitCode::from(report.status())
}

/// Parses the arguments and runs the program with them, or prints the message of `clap` or of an error.
fn run_arguments(rt: &HostRuntime, report: &mut Report<'_>) -> Result<(), AllocError> {
    let arguments = match arguments(rt) {
        Ok(arguments) => arguments,
        Err(e) if e.kind() == io::ErrorKind::OutOfMemory => return Err(AllocError),
        Err(_) => {
            report.wrong_arguments("subst: error: an argument isn't UTF-8\n");
            return Ok(());
        }
    };
    match Options::parse(rt.alloc(), &arguments) {
        Ok(options) => run_on_host(rt, &options, report),
        Err(e) => print_message(rt, &e, report),
    }
}

/// Runs the program with these options, over the file system and standard output.
fn run_on_host(
    rt: &HostRuntime,
    options: &Options<'_>,
    report: &mut Report<'_>,
) -> Result<(), AllocError> {
    let mut files = Disk::new(rt, options.action);
    let mut printer = StandardOutput::new(rt.stdout());
    run_options(rt.alloc(), rt, options, &mut files, &mut printer, report)
}

/// Returns the arguments, the first of which is the program's name.
fn arguments(rt: &HostRuntime) -> io::Result<Vec<String>> {
    let arguments = env::args(rt)?.collect(rt.alloc())?;
    Ok(arguments)
}

/// Prints the message of `clap`: help and version to standard output, errors to standard error.
fn print_message(rt: &HostRuntime, e: &Error, report: &mut Report<'_>) -> Result<(), AllocError> {
    let alloc = rt.alloc();
    if e.kind() == ErrorKind::OutOfMemory {
        return Err(AllocError);
    }
    let text = format!(in alloc; "{e}")?;
    if e.use_stderr() {
        let message = printable_lines(alloc, text.strip_prefix("error: ").unwrap_or(&text))?;
        report.wrong_arguments(&format!(in alloc; "subst: error: {message}")?);
        return Ok(());
    }
    match output::print(rt, text.as_bytes()) {
        Ok(()) => Ok(()),
        Err(e) => report.failed("<stdout>", &e),
    }
}
