//! Reading files, with a report of a failure.

ghost use Rattle.std.specs.Prelude.{◌≡◌, ◌⊎◌, ◌∷◌, [], IfNone, IfOk, IfSome, List, OnErr, string_bytes};
ghost use Rattle.subst_cli.specs.Files.{GoesOn, IsReadOrNot, OnlyReads, Read, Unread};
ghost use Rattle.subst_cli.specs.Status.{Raises};
ghost use Rattle.subst_filter_lib.specs.declared.status.TheConstants.{DEVICE_FAILED, DONE};

use crate::files::Files;
use crate::input::display_name;
use crate::report::Report;
use std::alloc::{AllocError, Global};
use subst_expander::hints;
use subst_expander::source::Source;
use subst_options::Options;

/// Reads a file to be expanded, or reports why it can't be read and returns `None`. Prints a hint for a
/// default that looks like another tool's, unless the options refuse such defaults.
///
/// # Errors
///
/// If allocation fails.
pub(crate) fn source_to_expand<F: Files>(
    alloc: Global,
    options: &Options<'_>,
    file: &str,
    files: &mut F,
    report: &mut Report<'_>,
) -> Result<Option<Source>, AllocError>
    ensures read { IfOk result (λ found. IfSome found (λ source.
        GoesOn (F.history files.old) (F.history files.new) (Read file.now source.bytes.items ∷ [])
        × (string_bytes source.path ≡ file.now) × Raises report.old.worst report.new.worst DONE)) }
    ensures unread { IfOk result (λ found. IfNone found
        (GoesOn (F.history files.old) (F.history files.new) (Unread file.now ∷ [])
        × Raises report.old.worst report.new.worst DEVICE_FAILED)) }
    ensures gave_up { OnErr result
        (IsReadOrNot file.now (F.history files.old) (F.history files.new)) }
    ensures reads { OnlyReads (F.history files.old) (F.history files.new) }
{
    let found = source(alloc, file, files, report)?;
    match &found {
        Some(_) if options.refuses_defaults => {}
        Some(source) => report.hint(hints::default_hint(
            alloc,
            options.formats,
            &options.placeholders,
            source,
        )?.as_deref()),
        None => report.hint(hints::file_hint(alloc, file)?.as_deref()),
    }
    Ok(found)
}

/// Reads a file, or reports why it can't be read and returns `None`.
///
/// # Errors
///
/// If allocation fails.
#[tactic(auto, using(crate::proofs::ReadLemmas::read_one, crate::proofs::ReadLemmas::unread_one))]
pub(crate) fn source<F: Files>(
    alloc: Global,
    file: &str,
    files: &mut F,
    report: &mut Report<'_>,
) -> Result<Option<Source>, AllocError>
    ensures read { IfOk result (λ found. IfSome found (λ source.
        GoesOn (F.history files.old) (F.history files.new) (Read file.now source.bytes.items ∷ [])
        × (string_bytes source.path ≡ file.now) × (report.new.worst ≡ report.old.worst))) }
    ensures unread { IfOk result (λ found. IfNone found
        (GoesOn (F.history files.old) (F.history files.new) (Unread file.now ∷ [])
        × Raises report.old.worst report.new.worst DEVICE_FAILED)) }
    ensures gave_up { OnErr result
        (IsReadOrNot file.now (F.history files.old) (F.history files.new)) }
    ensures reads { OnlyReads (F.history files.old) (F.history files.new) }
{
    match files.read(file) {
        Ok(bytes) => Ok(Some(source_of(alloc, file, bytes)?)),
        Err(e) => {
            report.failed(&display_name(alloc, file)?, &e)?;
            Ok(None)
        }
    }
}

/// Returns the source with the bytes of a file.
fn source_of(alloc: Global, file: &str, bytes: Vec<u8>) -> Result<Source, AllocError>
    ensures { IfOk result (λ source.
        (string_bytes source.path ≡ file.now) × (source.bytes.items ≡ bytes.items)) }
{
    Ok(Source {
        path: String::from_str(alloc, file)?,
        name: display_name(alloc, file)?,
        bytes,
    })
}
