//! A run whose outputs are written to one place: standard output, or a file.

ghost use Rattle.std.specs.Prelude.{◌<◌, OnOk, length};
ghost use Rattle.subst_cli.specs.Expanded.{AreOutputsWritten, AreSourcesRead, IsExpandRun};
ghost use Rattle.subst_cli.specs.Run.{entries_for};
ghost use Rattle.subst_cli.specs.Status.{Raises};
ghost use Rattle.subst_filter_lib.specs.declared.status.TheConstants.{REFUSED};

use crate::entries::fill_in;
use crate::files::Files;
use crate::printer::Printer;
use crate::reading::source_to_expand;
use crate::refusals::report_refused;
use crate::report::Report;
use crate::writing::{print, write};
use std::alloc::{AllocError, Global};
use subst_expander::layers::Layers;
use subst_expander::source::{Refused, Source};
use subst_options::{Action, Options, STANDARD_INPUT};

/// Expands all files, and writes the outputs to a file or to standard output. Writes nothing if a file can't
/// be read or is refused.
///
/// # Errors
///
/// If allocation fails.
pub(crate) fn expand_all<F: Files, P: Printer>(
    alloc: Global,
    options: &Options<'_>,
    read: Layers,
    files: &mut F,
    printer: &mut P,
    report: &mut Report<'_>,
) -> Result<(), AllocError>
    ensures handed_on { let entries = entries_for options.now read in
        IsExpandRun options.now.action options.now.formats options.now.placeholders entries
        report.new.worst result options.now.files.items report.old.worst
        (F.history files.old) (F.history files.new)
        (P.written printer.old) (P.written printer.new) }
{
    let sources = sources(alloc, options, files, report)?;
    let mut unset = Vec::new(alloc);
    let outputs = fill_in(alloc, options, read, sources, &mut unset)?;
    report.hint_unset(unset)?;
    match outputs {
        Ok(all) => write_outputs(options, &all, files, printer, report),
        Err(refused) => report_all(alloc, options, &refused, report),
    }
}

/// Reads the files to be expanded, and reports those that can't be read.
fn sources<F: Files>(
    alloc: Global,
    options: &Options<'_>,
    files: &mut F,
    report: &mut Report<'_>,
) -> Result<Vec<Source>, AllocError>
    ensures { AreSourcesRead options.now.files.items report.old.worst report.new.worst
        (F.history files.old) (F.history files.new) result }
{
    let mut sources = Vec::new(alloc);
    for file in &options.files {
        if let Some(source) = source_to_expand(alloc, options, file, files, report)? {
            sources.push(source)?;
        }
    }
    Ok(sources)
}

/// Writes the outputs to a file or to standard output, unless an error has been reported.
fn write_outputs<F: Files, P: Printer>(
    options: &Options<'_>,
    all: &[u8],
    files: &mut F,
    printer: &mut P,
    report: &mut Report<'_>,
) -> Result<(), AllocError>
    ensures { AreOutputsWritten options.now.action all.now report.old.worst report.new.worst
        (F.history files.old) (F.history files.new)
        (P.written printer.old) (P.written printer.new) result }
{
    if !report.is_empty() {
        return Ok(());
    }
    match options.action {
        Action::WriteTo(path) => write(only_template(options), path, all, files, report),
        _ => print(all, printer, report),
    }
}

/// Returns the path of the only file to be expanded. Returns `None` if there are several, or if it is
/// standard input.
pub(crate) fn only_template<'w>(options: &Options<'w>) -> Option<&'w str> {
    match options.files.as_slice() {
        [template] if *template != STANDARD_INPUT => Some(*template),
        _ => None,
    }
}

/// Reports all refused sources.
fn report_all(
    alloc: Global,
    options: &Options<'_>,
    refused: &[Refused],
    report: &mut Report<'_>,
) -> Result<(), AllocError>
    ensures { OnOk result (0 < length refused.now
        → Raises report.old.worst report.new.worst REFUSED) }
{
    for it in refused {
        report_refused(alloc, options, it, report)?;
    }
    Ok(())
}
