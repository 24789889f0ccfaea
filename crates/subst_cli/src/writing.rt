//! Writing bytes to a file or to standard output, with a report of a failure.

ghost use Rattle.std.specs.Prelude.{◌≡◌, ◌⊎◌, ◌∷◌, [], ℕ, List, OnErr, OnOk};
ghost use Rattle.subst_cli.specs.Expanded.{IsPrinted};
ghost use Rattle.subst_cli.specs.Files.{Event, GoesOn, IsFileWritten, Committed, Staged, Uncommitted, Unstaged};
ghost use Rattle.subst_cli.specs.Status.{Raises};

use crate::files::Files;
use crate::printer::Printer;
use crate::report::Report;
use std::alloc::AllocError;
use std::io;
use subst_filter_lib::engine::deliver;

/// Writes bytes to the file at a path, or reports why they can't be written. A new file gets its permissions
/// from the file `template`, if there is one.
///
/// # Errors
///
/// If allocation fails.
pub(crate) fn write<F: Files>(
    template: Option<&str>,
    path: &str,
    bytes: &[u8],
    files: &mut F,
    report: &mut Report<'_>,
) -> Result<(), AllocError>
    ensures { (status : ℕ) × (calls : List Event) × IsFileWritten path.now bytes.now status calls
        × GoesOn (F.history files.old) (F.history files.new) calls
        × OnOk result (Raises report.old.worst report.new.worst status) }
{
    match hand_on(template, path, bytes, files) {
        Ok(()) => Ok(()),
        Err(e) => files.report_unwritten(path, &e, report),
    }
}

/// Hands on bytes to be written to the file at a path.
///
/// # Errors
///
/// If writing fails, or if allocation fails.
fn hand_on<F: Files>(
    template: Option<&str>,
    path: &str,
    bytes: &[u8],
    files: &mut F,
) -> io::Result<()>
    ensures written { OnOk result (GoesOn (F.history files.old) (F.history files.new)
        (Staged path.now bytes.now ∷ Committed path.now ∷ [])) }
    ensures unwritten { OnErr result (GoesOn (F.history files.old) (F.history files.new)
        (Unstaged path.now bytes.now ∷ [])
        ⊎ GoesOn (F.history files.old) (F.history files.new)
        (Staged path.now bytes.now ∷ Uncommitted path.now ∷ [])) }
{
    let staged = files.stage(template, path, bytes)?;
    files.commit(&staged)
}

/// Prints bytes, or reports why they can't be printed.
///
/// # Errors
///
/// If allocation fails.
pub(crate) fn print<P: Printer>(
    bytes: &[u8],
    printer: &mut P,
    report: &mut Report<'_>,
) -> Result<(), AllocError>
    ensures { (status : ℕ)
        × IsPrinted bytes.now status (P.written printer.old) (P.written printer.new)
        × OnOk result (Raises report.old.worst report.new.worst status) }
{
    match deliver(printer, bytes) {
        Ok(()) => Ok(()),
        Err(_) => printer.report_failure(report),
    }
}
