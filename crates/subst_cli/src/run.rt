//! A run: reads variables and sources, expands the sources, and writes the outputs.

ghost use Rattle.std.specs.Prelude.{ℕ, List};
ghost use Rattle.subst_cli.specs.Expanded.{IsPrinted};
ghost use Rattle.subst_cli.specs.Files.{OnlyReads};
ghost use Rattle.subst_cli.specs.Run.{entries_for};
ghost use Rattle.subst_cli.specs.WholeRun.{HandlesTemplates, IsWholeRun};

use crate::entries::{all_entries, dotenv_entries, expander_of};
use crate::files::Files;
use crate::input::{display_name, path_in};
use crate::letters::expand_rows;
use crate::one_output::expand_all;
use crate::per_file::Run;
use crate::printer::Printer;
use crate::reading::source;
use crate::refusals::{report_refused, report_values};
use crate::report::Report;
use crate::templates::{Template, templates};
use crate::writing::print;
use std::alloc::{AllocError, Global};
use std::env::Env;
use subst::is_name;
use subst_expander::entry::Entry;
use subst_expander::expansion::uses;
use subst_expander::layers::{Layers, Variables};
use subst_expander::listing::Listing;
use subst_expander::position::Positions;
use subst_expander::source::{Refused, Source};
use subst_expander::text::split_source;
use subst_expander::values_file::{ValuesSource, lines_of};
use subst_expander::{environment, hints};
use subst_options::{Action, Options};

/// Reads the variables, and performs the action of the options unless an error has been reported.
///
/// # Errors
///
/// If allocation fails.
pub(crate) fn run_options<E: Env, F: Files, P: Printer>(
    alloc: Global,
    env: &E,
    options: &Options<'_>,
    files: &mut F,
    printer: &mut P,
    report: &mut Report<'_>,
) -> Result<(), AllocError>
    ensures whole { IsWholeRun options.now report.new.worst result
        (F.history files.old) (F.history files.new)
        (P.written printer.old) (P.written printer.new) }
{
    let variables = variable_files(alloc, options, files, report)?;
    let read = layers(alloc, env, options, variables, report)?;
    if !report.is_empty() {
        return Ok(());
    }
    if let Some(rows) = options.rows {
        return expand_rows(alloc, options, rows, read, files, printer, report);
    }
    match options.action {
        Action::ListNames => list(alloc, options, files, printer, report),
        Action::Print | Action::WriteTo(_) => {
            expand_all(alloc, options, read, files, printer, report)
        }
        Action::Replace | Action::Check | Action::WriteInto(_) => {
            run_per_file(alloc, options, read, files, report)
        }
    }
}

/// Handles each file on its own, by the action of the options.
fn run_per_file<F: Files>(
    alloc: Global,
    options: &Options<'_>,
    read: Layers,
    files: &mut F,
    report: &mut Report<'_>,
) -> Result<(), AllocError>
    ensures { HandlesTemplates options.now (entries_for options.now read) report.new.worst result
        options.now.action (F.history files.old) (F.history files.new) }
{
    let entries = all_entries(alloc, options, read)?;
    let variables = Variables::of(alloc, &entries)?;
    let run = Run {
        alloc,
        options,
        expander: expander_of(options, variables),
    };
    let templates = all_templates(alloc, options, files, report)?;
    match options.action {
        Action::WriteInto(directory) => run.write_each(directory, &templates, files, report),
        Action::Replace => run.replace_each(&templates, files, report),
        _ => {
            run.check_each(&templates, files, report);
            Ok(())
        }
    }
}

/// The files that variables are read from.
#[derive(Drop)]
struct VariableFiles {
    /// The values files.
    values: Vec<ValuesSource>,
    /// The files of `--set-file`.
    named: Vec<ValuesSource>,
    /// The defaults files.
    defaults: Vec<ValuesSource>,
    /// The `.env` files.
    dotenv: Vec<Source>,
}

/// Reads the files that the options take variables from. Reports files that can't be read.
#[tactic(auto, using(crate::proofs::ReadLemmas::no_reads))]
fn variable_files<F: Files>(
    alloc: Global,
    options: &Options<'_>,
    files: &mut F,
    report: &mut Report<'_>,
) -> Result<VariableFiles, AllocError>
    ensures { OnlyReads (F.history files.old) (F.history files.new) }
{
    let values = values_sources(alloc, options, &options.values_files, files, report)?;
    let mut named = Vec::new(alloc);
    for (name, file) in &options.named_files {
        add_named(alloc, options, name, file, &mut named, files, report)?;
    }
    let defaults = values_sources(alloc, options, &options.defaults_files, files, report)?;
    let dotenv = sources(alloc, &options.dotenv_files, files, report)?;
    Ok(VariableFiles {
        values,
        named,
        defaults,
        dotenv,
    })
}

/// Reads files, and reports those that can't be read.
#[tactic(auto, using(crate::proofs::ReadLemmas::no_reads))]
fn sources<F: Files>(
    alloc: Global,
    paths: &[&str],
    files: &mut F,
    report: &mut Report<'_>,
) -> Result<Vec<Source>, AllocError>
    ensures { OnlyReads (F.history files.old) (F.history files.new) }
{
    let mut sources = Vec::new(alloc);
    for path in paths {
        if let Some(source) = source(alloc, path, files, report)? {
            sources.push(source)?;
        }
    }
    Ok(sources)
}

/// Returns the variables of these files and of the environment. Reports files that are refused.
fn layers<E: Env>(
    alloc: Global,
    env: &E,
    options: &Options<'_>,
    files: VariableFiles,
    report: &mut Report<'_>,
) -> Result<Layers, AllocError> {
    let mut read = Layers {
        lines: entries(alloc, files.values, report)?,
        named: entries(alloc, files.named, report)?,
        environment: Vec::new(alloc),
        dotenv: Vec::new(alloc),
        defaults: entries(alloc, files.defaults, report)?,
    };
    if options.environment {
        read.environment = environment::read(alloc, env)?;
    }
    if report.is_empty() && !files.dotenv.is_empty() {
        read.dotenv = dotenv(alloc, options, &read, files.dotenv, report)?;
    }
    Ok(read)
}

/// Parses `.env` files, and prints hints for unset variables. If a file is refused, reports it and returns no
/// entries.
fn dotenv(
    alloc: Global,
    options: &Options<'_>,
    read: &Layers,
    files: Vec<Source>,
    report: &mut Report<'_>,
) -> Result<Vec<Entry>, AllocError> {
    let mut unset = Vec::new(alloc);
    let outcome = dotenv_entries(alloc, options, read, files, &mut unset)?;
    if options.hints_unset {
        report.hint_unset(unset)?;
    }
    match outcome {
        Ok(entries) => Ok(entries),
        Err(refused) => {
            report_values(alloc, &refused, report)?;
            Ok(Vec::new(alloc))
        }
    }
}

/// Reads values files. For a directory, reads each file in it whose name is a variable name. Reports files
/// that can't be read.
#[tactic(auto, using(crate::proofs::ReadLemmas::no_reads))]
fn values_sources<F: Files>(
    alloc: Global,
    options: &Options<'_>,
    paths: &[&str],
    files: &mut F,
    report: &mut Report<'_>,
) -> Result<Vec<ValuesSource>, AllocError>
    ensures { OnlyReads (F.history files.old) (F.history files.new) }
{
    let mut sources = Vec::new(alloc);
    for path in paths {
        add_values(alloc, options, path, &mut sources, files, report)?;
    }
    Ok(sources)
}

/// Reads a values file, or each file in a directory whose name is a variable name. Appends them to `sources`,
/// or reports why they can't be read.
#[tactic(auto, using(crate::proofs::ReadLemmas::no_reads))]
fn add_values<F: Files>(
    alloc: Global,
    options: &Options<'_>,
    path: &str,
    sources: &mut Vec<ValuesSource>,
    files: &mut F,
    report: &mut Report<'_>,
) -> Result<(), AllocError>
    ensures { OnlyReads (F.history files.old) (F.history files.new) }
{
    match files.names_in(path) {
        Ok(Some(names)) => add_directory(alloc, options, path, names, sources, files, report),
        Ok(None) => add_lines(alloc, path, sources, files, report),
        Err(e) => report.failed(&display_name(alloc, path)?, &e),
    }
}

/// Reads a values file and appends it to `sources`, or reports why it can't be read.
#[tactic(auto, using(crate::proofs::ReadLemmas::no_reads))]
fn add_lines<F: Files>(
    alloc: Global,
    path: &str,
    sources: &mut Vec<ValuesSource>,
    files: &mut F,
    report: &mut Report<'_>,
) -> Result<(), AllocError>
    ensures { OnlyReads (F.history files.old) (F.history files.new) }
{
    if let Some(source) = source(alloc, path, files, report)? {
        report.hint(hints::values_hint(alloc, &source)?.as_deref());
        sources.push(ValuesSource::Lines(source))?;
    }
    Ok(())
}

/// Reads each file in `directory` whose name is a variable name. Appends it to `sources` as the value of that
/// variable, or reports why it can't be read.
#[tactic(auto, using(crate::proofs::ReadLemmas::no_reads))]
fn add_directory<F: Files>(
    alloc: Global,
    options: &Options<'_>,
    directory: &str,
    names: Vec<String>,
    sources: &mut Vec<ValuesSource>,
    files: &mut F,
    report: &mut Report<'_>,
) -> Result<(), AllocError>
    ensures { OnlyReads (F.history files.old) (F.history files.new) }
{
    for name in names {
        let file = path_in(alloc, directory, &name)?;
        if is_name(name.as_bytes()) && !files.is_directory(&file) {
            add_value(alloc, options, name, &file, sources, files, report)?;
        }
    }
    Ok(())
}

/// Reads `file` and appends it to `sources` as the value of `name`, or reports why `file` can't be read.
#[tactic(auto, using(crate::proofs::ReadLemmas::no_reads))]
fn add_value<F: Files>(
    alloc: Global,
    options: &Options<'_>,
    name: String,
    file: &str,
    sources: &mut Vec<ValuesSource>,
    files: &mut F,
    report: &mut Report<'_>,
) -> Result<(), AllocError>
    ensures { OnlyReads (F.history files.old) (F.history files.new) }
{
    if let Some(source) = source(alloc, file, files, report)? {
        sources.push(ValuesSource::Value(name, options.line_end, source))?;
    }
    Ok(())
}

/// Reads `file` and appends it to `sources` as the value of `name`, or reports why `file` can't be read.
#[tactic(auto, using(crate::proofs::ReadLemmas::no_reads))]
fn add_named<F: Files>(
    alloc: Global,
    options: &Options<'_>,
    name: &str,
    file: &str,
    sources: &mut Vec<ValuesSource>,
    files: &mut F,
    report: &mut Report<'_>,
) -> Result<(), AllocError>
    ensures { OnlyReads (F.history files.old) (F.history files.new) }
{
    let name = String::from_str(alloc, name)?;
    add_value(alloc, options, name, file, sources, files, report)
}

/// Returns the variables of values files, in order. If files are refused, reports them and returns no
/// variables.
fn entries(
    alloc: Global,
    files: Vec<ValuesSource>,
    report: &mut Report<'_>,
) -> Result<Vec<Entry>, AllocError> {
    match lines_of(alloc, files)? {
        Ok(lines) => Ok(lines),
        Err(refused) => {
            for it in refused {
                report_values(alloc, &it, report)?;
            }
            Ok(Vec::new(alloc))
        }
    }
}

/// Returns the templates of all files and directories, in order. Reports directories that can't be read, and
/// prints a hint if no file has the suffix.
fn all_templates<F: Files>(
    alloc: Global,
    options: &Options<'_>,
    files: &F,
    report: &mut Report<'_>,
) -> Result<Vec<Template>, AllocError> {
    let mut all: Vec<Template> = Vec::new(alloc);
    for path in &options.files {
        match templates(alloc, files, path, options.suffix) {
            Ok(mut found) => all.append(&mut found)?,
            Err(e) => report.failed(&display_name(alloc, path)?, &e)?,
        }
    }
    let suffix = options.suffix;
    if !suffix.is_empty() && !all.iter().any(|it| it.file.ends_with(suffix)) {
        report.hint(Some(&hints::suffix_hint(alloc, suffix)?));
    }
    Ok(all)
}

/// Prints a listing of the variables in all files. Reports files that can't be read or are refused.
fn list<F: Files, P: Printer>(
    alloc: Global,
    options: &Options<'_>,
    files: &mut F,
    printer: &mut P,
    report: &mut Report<'_>,
) -> Result<(), AllocError>
    ensures reads { OnlyReads (F.history files.old) (F.history files.new) }
    ensures printed { (text : List ℕ) × (status : ℕ)
        × IsPrinted text status (P.written printer.old) (P.written printer.new) }
{
    let text = listing(alloc, options, files, report)?;
    print(text.as_bytes(), printer, report)
}

/// Returns the listing of the variables in all files. Reports files that can't be read or are refused.
#[tactic(auto, using(crate::proofs::ReadLemmas::no_reads))]
fn listing<F: Files>(
    alloc: Global,
    options: &Options<'_>,
    files: &mut F,
    report: &mut Report<'_>,
) -> Result<String, AllocError>
    ensures { OnlyReads (F.history files.old) (F.history files.new) }
{
    let mut listing = Listing::new(alloc);
    for Template { file, .. } in all_templates(alloc, options, files, report)? {
        if let Some(source) = source(alloc, &file, files, report)? {
            list_source(alloc, options, source, &mut listing, report)?;
        }
    }
    listing.text(alloc)
}

/// Adds the variables of a source to a listing, or reports the source's faults.
fn list_source(
    alloc: Global,
    options: &Options<'_>,
    source: Source,
    listing: &mut Listing,
    report: &mut Report<'_>,
) -> Result<(), AllocError> {
    match uses(alloc, &source, options.formats, &options.placeholders)? {
        Ok(uses) => {
            let format = options.formats.format_of(&source.path);
            let (_, filled) = split_source(format, &source.bytes);
            let mut positions = Positions::of(filled);
            for it in uses {
                let position = positions.at(alloc, it.range.start)?;
                listing.add(alloc, it, &source.name, position)?;
            }
            Ok(())
        }
        Err(faults) => report_refused(alloc, options, &Refused { source, faults }, report),
    }
}
