//! A run that expands one template for each row of a file.

ghost use Rattle.std.specs.Prelude.{◌≡◌, ◌⊎◌, ◌∷◌, ◌<◌, [], IfNone, IfOk, IfSome, IsSome, IsUtf8, List, OnOk, false, option_map, true};
ghost use Rattle.std.specs.List.{Any};
ghost use Rattle.subst_cli.specs.Files.{Event, GoesOn, OnlyReads, Read};
ghost use Rattle.subst_expander.specs.Layers.{entries_of, look_up_in};
ghost use Rattle.subst_cli.specs.Letters as letters;
ghost use Rattle.subst_cli.specs.Letters.{HeadRefused, IsExpanded, IsLetter, IsRowsRun, IsSheetRun, FailsToRead, IsLetterWritten, TemplateRefused, TextRefused, look_for};
ghost use Rattle.subst_cli.specs.Status.{Raises};
ghost use Rattle.subst_filter_lib.specs.declared.status.TheConstants.{DEVICE_FAILED, DONE, REFUSED};
ghost use Rattle.subst_language.specs.Language.LookUp.{LookUp};
ghost use Rattle.subst_indexed.specs.Parsed.{index_fault};
ghost use Rattle.subst_indexed.specs.Slot.{values_of};
ghost use Rattle.subst_indexed.specs.declared.parse.IndexError.TheVariants as index_errors;
ghost use Rattle.subst_rows.specs.Columns.{bytes_of};
ghost use Rattle.subst_rows.specs.Letter.{AreLetterValues};
ghost use Rattle.subst_rows.specs.Row.{IsLookOf, look_in_row};
ghost use Rattle.subst_rows.specs.declared.error.RowsError.TheVariants as errors;

use crate::entries::entries_around;
use crate::files::Files;
use crate::one_output::only_template;
use crate::printer::Printer;
use crate::reading::{source, source_to_expand};
use crate::report::Report;
use crate::row_messages::{head_hint, message_of_refusal, message_of_rows, repeated_name};
use crate::writing::write;
use std::alloc::{AllocError, Global};
use subst::error::ParseError;
use subst_expander::entry::Entry;
use subst_expander::expansion::uses;
use subst_expander::hints;
use subst_expander::kinds::InputFormat;
use subst_expander::layers::Layers;
use subst_expander::source::{Excerpts, Source, messages};
use subst_expander::text::text_of;
use subst_indexed::IndexedTemplate;
use subst_indexed::parse::IndexError;
use subst_options::{Action, Options, RowsOptions, STANDARD_INPUT};
use subst_rows::columns::{first_repeated, names_of};
use subst_rows::error::RowsError;
use subst_rows::letter::{Layout, Letter, RefusedRows, WriteError};

/// A file with rows, and the template that is expanded for each of them.
#[derive(Clone, Copy)]
struct Sheet<'r, 'w> {
    alloc: Global,
    options: &'r Options<'w>,
    rows: RowsOptions<'w>,
    /// The file with the rows.
    table: &'r Source,
    /// The template.
    template: &'r Source,
}

/// Expands a template for each row of a file, and writes the outputs to one place. Writes nothing if a file
/// can't be read, or if the template, the rows' text or, without `--keep-going`, a row is refused.
///
/// # Errors
///
/// If allocation fails.
pub(crate) fn expand_rows<'w, F: Files, P: Printer>(
    alloc: Global,
    options: &Options<'w>,
    rows: RowsOptions<'w>,
    read: Layers,
    files: &mut F,
    printer: &mut P,
    report: &mut Report<'_>,
) -> Result<(), AllocError>
    ensures rows { IsRowsRun result options.now rows.entry (look_for options.now read)
        report.new.worst report.old.worst (F.history files.old) (F.history files.new)
        (P.written printer.old) (P.written printer.new) }
{
    let Some((table, template)) = both_sources(alloc, options, rows, files, report)? else {
        return Ok(());
    };
    let sheet = Sheet {
        alloc,
        options,
        rows,
        table: &table,
        template: &template,
    };
    sheet.expand(read, files, printer, report)
}

/// Reads the file with the rows, and then the template. Reports the first that can't be read, and returns
/// `None` then.
fn both_sources<F: Files>(
    alloc: Global,
    options: &Options<'_>,
    rows: RowsOptions<'_>,
    files: &mut F,
    report: &mut Report<'_>,
) -> Result<Option<(Source, Source)>, AllocError>
    ensures read { IfOk result (λ found. IfSome found (λ both.
        GoesOn (F.history files.old) (F.history files.new)
        (Read rows.entry.file.now both.0.bytes.items
        ∷ Read (letters.template_path options.now.files.items) both.1.bytes.items ∷ [])
        × Raises report.old.worst report.new.worst DONE)) }
    ensures unread { IfOk result (λ found. IfNone found (Raises report.old.worst report.new.worst
        DEVICE_FAILED × ((calls : List Event)
        × GoesOn (F.history files.old) (F.history files.new) calls × Any FailsToRead calls))) }
    ensures reads { OnlyReads (F.history files.old) (F.history files.new) }
{
    let Some(table) = source(alloc, rows.file, files, report)? else {
        return Ok(None);
    };
    let path = template_path(options);
    let Some(template) = source_to_expand(alloc, options, path, files, report)? else {
        return Ok(None);
    };
    Ok(Some((table, template)))
}

/// Returns the path of the template: the first file, or standard input if there is none.
fn template_path<'w>(options: &Options<'w>) -> &'w str
    ensures { result.now ≡ letters.template_path options.now.files.items }
{
    match options.files.first() {
        Some(path) => path,
        None => STANDARD_INPUT,
    }
}

impl Sheet<'_, '_> {
    /// Expands the template for each row, and writes the outputs. Or reports why nothing is written.
    fn expand<F: Files, P: Printer>(
        &self,
        read: Layers,
        files: &mut F,
        printer: &mut P,
        report: &mut Report<'_>,
    ) -> Result<(), AllocError>
        ensures sheet { IsSheetRun result self.now.options.now self.now.rows
            (look_for self.now.options.now read) report.new.worst report.old.worst
            (F.history files.old) (F.history files.new) (P.written printer.old)
            (P.written printer.new) self.now.table.now.bytes.items
            self.now.template.now.bytes.items }
    {
        let alloc = self.alloc;
        if !self.is_readable() {
            return self.refuse_template(report);
        }
        let template = match IndexedTemplate::from_slice(alloc, &self.template.bytes) {
            Ok(template) => template,
            Err(e) => return self.refuse_by(e, report),
        };
        let names = names_of(alloc, &template)?;
        let (first, rest) = entries_around(alloc, self.options, read)?;
        let fixed = values_of(alloc, &names, &first)?;
        let fallback = values_of(alloc, &names, &rest)?;
        let letter = Letter {
            template: &template,
            names: &names,
            fixed: &fixed,
            fallback: &fallback,
            no_empty: self.options.no_empty,
            text: &self.table.bytes,
            format: self.rows.format,
            nested: self.rows.nested,
        };
        self.expand_letter(&letter, &rest, files, printer, report)
    }

    /// Returns whether the template is UTF-8, or has the format for bytes that needn't be.
    fn is_readable(&self) -> bool
        ensures { result ≡ false → ¬ (IsUtf8 self.now.template.now.bytes.items) }
    {
        self.options.formats.format_of(&self.template.path) == InputFormat::Bytes
            || text_of(&self.template.bytes).is_some()
    }

    /// Reports the error of a template that can't be parsed.
    ///
    /// # Errors
    ///
    /// If allocation fails, or if the error is out of memory.
    fn refuse_by(&self, e: IndexError, report: &mut Report<'_>) -> Result<(), AllocError>
        ensures told { OnOk result (IsSome (index_fault e) ⊎ (e ≡ index_errors.TooLong)) }
        ensures status { OnOk result (Raises report.old.worst report.new.worst REFUSED) }
    {
        if let IndexError::Parse(ParseError::OutOfMemory(e)) = e {
            return Err(e);
        }
        self.refuse_template(report)
    }

    /// Reports the faults of a template that can't be expanded.
    fn refuse_template(&self, report: &mut Report<'_>) -> Result<(), AllocError>
        ensures { OnOk result (Raises report.old.worst report.new.worst REFUSED) }
    {
        let Source { name, bytes, .. } = self.template;
        let Options {
            formats,
            placeholders,
            ..
        } = self.options;
        match uses(self.alloc, self.template, *formats, placeholders)? {
            Err(faults) => {
                report.refused(&messages(self.alloc, name, bytes, &faults, Excerpts::All)?);
                report.hint(hints::faults_hint(false, placeholders, &faults));
            }
            Ok(_) => {
                let why = "a template for rows has less than 4 GiB";
                report.refused(&format!(in self.alloc; "{name}: error: {why}\n")?);
            }
        }
        Ok(())
    }

    /// Expands a letter, and writes the outputs. Or reports why nothing is written. `rest` are the variables
    /// that come after those of the rows.
    fn expand_letter<F: Files, P: Printer>(
        &self,
        letter: &Letter<'_>,
        rest: &[Entry],
        files: &mut F,
        printer: &mut P,
        report: &mut Report<'_>,
    ) -> Result<(), AllocError>
        ensures letter { (fixed fallback : LookUp) → AreLetterValues letter.now fixed fallback
            → IsExpanded result self.now.options.now self.now.rows
            (λ row. look_in_row letter.now.no_empty row fixed fallback) report.new.worst
            report.old.worst (F.history files.old) (F.history files.new) (P.written printer.old)
            (P.written printer.new) letter.now }
    {
        if !self.check_head(letter, report)? {
            return Ok(());
        }
        let refused = match letter.refused_rows(self.alloc) {
            Ok(refused) => refused,
            Err(e) => return self.refuse_rows(letter, e, report),
        };
        self.report_refused(letter, rest, &refused, report)?;
        let leaves_out = refused.count > 0;
        if leaves_out && !self.rows.keeps_going {
            return Ok(());
        }
        self.write(letter, leaves_out, files, printer, report)
    }

    /// Opens the rows, checks their head, and prints hints about it. If there is an error, reports it and
    /// returns `false`.
    fn check_head(&self, letter: &Letter<'_>, report: &mut Report<'_>) -> Result<bool, AllocError>
        ensures good { IfOk result (λ good. good ≡ true → report.new.worst ≡ report.old.worst) }
        ensures bad { IfOk result (λ good. good ≡ false → Raises report.old.worst report.new.worst
            REFUSED × (TextRefused letter.now ⊎ HeadRefused letter.now)) }
    {
        let rows = match letter.open(self.alloc) {
            Ok(rows) => rows,
            Err(e) => {
                self.refuse_rows(letter, e, report)?;
                return Ok(false);
            }
        };
        let head = rows.head(self.alloc)?;
        if let Some(index) = first_repeated(&head) {
            let name = head.get(index).copied().unwrap_or(&[]);
            report.refused(&repeated_name(self.alloc, &self.table.name, name)?);
            return Ok(false);
        }
        let hint = head_hint(
            self.alloc,
            &self.table.name,
            &self.template.name,
            letter,
            &head,
        )?;
        report.hint(hint.as_deref());
        Ok(true)
    }

    /// Reports an error of the rows' text.
    ///
    /// # Errors
    ///
    /// If allocation fails, or if the error is out of memory.
    fn refuse_rows(
        &self,
        letter: &Letter<'_>,
        e: RowsError,
        report: &mut Report<'_>,
    ) -> Result<(), AllocError>
        ensures { OnOk result (Raises report.old.worst report.new.worst REFUSED
            × ¬ (e ≡ errors.OutOfMemory)) }
    {
        if let RowsError::OutOfMemory = e {
            return Err(AllocError);
        }
        report.refused(&message_of_rows(self.alloc, &self.table.name, letter.names, e)?);
        Ok(())
    }

    /// Reports the rows that are refused: the first of them, and how many more there are.
    fn report_refused(
        &self,
        letter: &Letter<'_>,
        rest: &[Entry],
        refused: &RefusedRows<'_>,
        report: &mut Report<'_>,
    ) -> Result<(), AllocError>
        ensures none { OnOk result (refused.now.count ≡ 0
            → report.new.worst ≡ report.old.worst) }
        ensures some { OnOk result (0 < refused.now.count
            → Raises report.old.worst report.new.worst REFUSED) }
    {
        if refused.count == 0 {
            return Ok(());
        }
        let alloc = self.alloc;
        let mut text = String::new(alloc);
        for refusal in &refused.first {
            let message = message_of_refusal(
                alloc,
                self.table,
                self.template,
                letter.names,
                rest,
                refusal,
            )?;
            text.push_str(&message)?;
        }
        let more = refused.count.saturating_sub(refused.first.len());
        if more > 0 {
            let name = &self.table.name;
            text.push_str(&format!(in alloc; "{name}: error: {more} more errors\n")?)?;
        }
        report.refused(&text);
        Ok(())
    }

    /// Writes the outputs for the rows as the action says, without the refused ones if `leaves_out` is set.
    fn write<F: Files, P: Printer>(
        &self,
        letter: &Letter<'_>,
        leaves_out: bool,
        files: &mut F,
        printer: &mut P,
        report: &mut Report<'_>,
    ) -> Result<(), AllocError>
        ensures written { (fixed fallback : LookUp) → AreLetterValues letter.now fixed fallback
            → IsLetterWritten result letter.now
            (λ row. look_in_row letter.now.no_empty row fixed fallback)
            self.now.rows.separator.now leaves_out report.old.worst report.new.worst
            (F.history files.old) (F.history files.new) (P.written printer.old)
            (P.written printer.new) self.now.options.now.action }
    {
        let layout = Layout {
            separator: self.rows.separator.as_bytes(),
            leaves_out,
        };
        match self.options.action {
            Action::Check => Ok(()),
            Action::WriteTo(path) => match letter.collect(self.alloc, layout) {
                Ok(all) => write(only_template(self.options), path, &all, files, report),
                Err(_) => Err(AllocError),
            },
            _ => match letter.write(self.alloc, layout, printer) {
                Ok(()) => Ok(()),
                Err(WriteError::Failed) => printer.report_failure(report),
                Err(WriteError::Refused | WriteError::OutOfMemory) => Err(AllocError),
            },
        }
    }
}

/// Returns the value of each name, by the first of the entries that has the name. The value is `None` if no
/// entry has it, or if it isn't UTF-8.
///
/// # Errors
///
/// If allocation fails.
fn values_of<'e>(
    alloc: Global,
    names: &[&[u8]],
    entries: &'e [Entry],
) -> Result<Vec<Option<&'e [u8]>>, AllocError>
    ensures { IfOk result (λ values. IsLookOf (bytes_of names.now) (values_of values.items)
        (look_up_in (entries_of entries.now))) }
{
    let mut values = Vec::with_capacity(alloc, names.len())?;
    for name in names {
        values.push(value_of(entries, name))?;
    }
    Ok(values)
}

/// Returns the value of the first of the entries with a name. It is `None` if no entry has the name, or if
/// the value isn't UTF-8.
fn value_of<'e>(entries: &'e [Entry], name: &[u8]) -> Option<&'e [u8]>
    ensures { option_map (λ value. value.now) result
        ≡ look_up_in (entries_of entries.now) name.now }
{
    for entry in entries {
        if name == entry.name.as_bytes() {
            return match &entry.value {
                Some(value) => Some(value.as_bytes()),
                None => None,
            };
        }
    }
    None
}
