//! Reports of refused sources, with hints.

ghost use Rattle.std.specs.Prelude.{OnOk, ◌⊎◌};
ghost use Rattle.subst_cli.specs.Status.{Raises};
ghost use Rattle.subst_filter_lib.specs.declared.status.TheConstants.{DONE, REFUSED};

use crate::report::Report;
use std::alloc::{AllocError, Global};
use subst_expander::hints;
use subst_expander::source::{Excerpts, Refused, Source, messages};
use subst_expander::text::split_source;
use subst_options::Options;

/// Reports the faults of a refused source, and prints a hint if one applies.
pub(crate) fn report_refused(
    alloc: Global,
    options: &Options<'_>,
    refused: &Refused,
    report: &mut Report<'_>,
) -> Result<(), AllocError>
    ensures { OnOk result (Raises report.old.worst report.new.worst REFUSED) }
{
    let Refused { source, faults } = refused;
    let format = options.formats.format_of(&source.path);
    let (_, bytes) = split_source(format, &source.bytes);
    report.refused(&messages(alloc, &source.name, bytes, faults, Excerpts::All)?);
    report.hint(hints::faults_hint(options.sets_no_variables(), &options.placeholders, faults));
    let hint = hints::document_hint(alloc, format, &source.name, bytes, faults)?;
    report.hint(hint.as_deref());
    Ok(())
}

/// Reports the faults of a values file or `.env` file, without the file's lines, which may have secrets.
pub(crate) fn report_values(
    alloc: Global,
    refused: &Refused,
    report: &mut Report<'_>,
) -> Result<(), AllocError>
    ensures { OnOk result (Raises report.old.worst report.new.worst REFUSED) }
{
    let Refused { source, faults } = refused;
    report.refused(&messages(alloc, &source.name, &source.bytes, faults, Excerpts::None)?);
    Ok(())
}

/// Reports the defaults in a source that look like another tool's.
pub(crate) fn report_defaults(
    alloc: Global,
    options: &Options<'_>,
    source: &Source,
    report: &mut Report<'_>,
) -> Result<(), AllocError>
    ensures { OnOk result (Raises report.old.worst report.new.worst DONE
        ⊎ Raises report.old.worst report.new.worst REFUSED) }
{
    let faults = hints::default_faults(alloc, options.formats, &options.placeholders, source)?;
    if !faults.is_empty() {
        report.refused(&messages(alloc, &source.name, &source.bytes, &faults, Excerpts::All)?);
    }
    Ok(())
}
