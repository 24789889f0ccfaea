//! The options of a run, parsed from its arguments.
#![tactic(auto)]

ghost use Rattle.std.specs.Prelude.{◌≡◌, ◌<◌, ◌≤◌, ◌++◌, ◌⊎◌, List, IfErr, IfOk, IsSome, None, OnOk, Some, [], codes, is_some, length, map, not, unwrap_or};
ghost use Rattle.std.specs.List.{All};
ghost use Rattle.clap.specs.Walk.{texts};
ghost use Rattle.clap.specs.Words.{app_of, args_of, first_of, found_of, kind_of, rows_of};
ghost use Rattle.clap.specs.declared.error.kind.ErrorKind.TheVariants.{OutOfMemory};
ghost use Rattle.subst_options.specs.Arguments as arguments;
ghost use Rattle.subst_options.specs.Arguments.{borrowed_pair, files_or_input, pair_in, text_pair};
ghost use Rattle.subst_options.specs.CommandLine as command_line;
ghost use Rattle.subst_options.specs.CommandLine.{AreAlone, AreOnce, AreRows, CommandOption, IsAction, IsFlag, IsOnce, NeedsNoRows, asked_by, escape_name, exclusion_of, exclusion_of_row, exclusions, keeps_line_end, nested_name, option_of, option_values, rows_format, rule_of_row, subst_app, with_rules};

use clap::error::ErrorKind;
use clap::{Arg, ArgAction, ArgMatches, Command, Error};
use std::alloc::{AllocError, Global};
use subst::foreign::{Forms, Missing, OnlyNames};
use subst::is_name;
use subst_expander::document::Format;
use subst_expander::format_rule::FormatRule;
use subst_expander::kinds::{Choice, Chosen, Escape, InputFormat, LineEnd, Placeholders};
use subst_expander::layers::Pair;
pub use subst_rows::rows::RowsFormat;
use table::{OPTIONS, Row};

pub mod table;

/// The argument for standard input.
pub const STANDARD_INPUT: &str = "-";

/// Paths of standard input.
const STANDARD_INPUT_PATHS: [&str; 3] = ["/dev/stdin", "/dev/fd/0", "/proc/self/fd/0"];

/// The values of `--output` for standard output.
const STANDARD_OUTPUT: [&str; 2] = ["-", "/dev/stdout"];

/// Options of other programs, each with this program's option to use instead.
const FOREIGN: [(&str, &str); 2] = [
    ("--env-file", "--values"),
    ("--output-dir", "--output-folder"),
];

/// The options that choose a format. Each has the name of its format.
const FORMATS: [&str; 5] = ["json", "toml", "yaml", "bytes", "auto"];

/// The options that make sense only if another option sets variables.
const NEEDY: [&str; 4] = ["shell", "compose", "known", "optional"];

/// The end of the help.
const AFTER_HELP: &str = "\
A backslash escapes \\ $ { } and :. With --only, --envsubst, --known or --shell,
a backslash is text.

Precedence of values, the first one wins: --set, --set-file, the row, values
files, the environment, .env files, --default, defaults files. All unset
variables of a file are reported. If it has another error, only that error is
reported; with --only, --envsubst, --known or --shell, all refused forms are
reported.

Exit status: 0 done, 1 a file or value is refused, 2 wrong arguments, 3 a file
or device failed, 4 out of memory. See subst(1) for more.";

/// The action of a run.
#[derive(Clone, Copy, PartialEq, Eq)]
pub enum Action<'w> {
    /// Print the outputs.
    Print,
    /// Write the outputs to a file.
    WriteTo(&'w str),
    /// Write the output of each file, also of those in directories, into a directory.
    WriteInto(&'w str),
    /// Replace each file, also those in directories, by its output.
    Replace,
    /// Report the faults of each file, also of those in directories.
    Check,
    /// List the variables of each file, also of those in directories.
    ListNames,
}

/// The rows for which a template is expanded.
#[derive(Clone, Copy)]
pub struct RowsOptions<'w> {
    /// The file with the rows.
    pub file: &'w str,
    /// The format of the file.
    pub format: RowsFormat,
    /// The text between the outputs of two rows.
    pub separator: &'w str,
    /// Whether rows that are refused are left out, and the others are written.
    pub keeps_going: bool,
    /// Whether the value of an array or object is its JSON text. Otherwise such a value is an error.
    pub nested: bool,
}

/// A name, and the path of the file whose contents are the name's value.
pub type NamedFile<'w> = (&'w str, &'w str);

/// The options of a run.
#[derive(Drop)]
pub struct Options<'w> {
    /// The variables of `--set`, in the order of the arguments.
    pub pairs: Vec<Pair>,
    /// The names and files of `--set-file`.
    pub named_files: Vec<NamedFile<'w>>,
    /// The values files, and the directories with a file per variable.
    pub values_files: Vec<&'w str>,
    /// The treatment of the last line end in a file whose contents are a value.
    pub line_end: LineEnd,
    /// Whether the environment's variables are used.
    pub environment: bool,
    /// The `.env` files.
    pub dotenv_files: Vec<&'w str>,
    /// The variables of `--default`, in the order of the arguments.
    pub defaults: Vec<Pair>,
    /// The files and directories of `--defaults`, which have the lowest precedence.
    pub defaults_files: Vec<&'w str>,
    /// The rows for which the template is expanded, or `None` if the template is expanded once.
    pub rows: Option<RowsOptions<'w>>,
    /// Whether empty values are treated as unset.
    pub no_empty: bool,
    /// The language that values are escaped for.
    pub escape: Escape,
    /// The rule for the format of each source.
    pub formats: FormatRule<'w>,
    /// The kind of placeholders that sources have: the template language's, or chosen forms and names.
    pub placeholders: Placeholders<'w>,
    /// Whether hints are printed for unset variables in shell-style texts. `--optional` turns the hints off.
    pub hints_unset: bool,
    /// Whether a default that looks like another tool's default is a fault. It is a fault with `--check
    /// --strict`, and otherwise only causes a hint.
    pub refuses_defaults: bool,
    /// The action of the run.
    pub action: Action<'w>,
    /// The suffix of `--strip`, or an empty text if that option isn't set. In directories, only files with
    /// this suffix are templates. With `--output-folder`, the suffix is removed from the names of outputs.
    pub suffix: &'w str,
    /// The files and directories to be expanded, of which there is at least one.
    pub files: Vec<&'w str>,
}

impl<'w> Options<'w> {
    /// Parses arguments, the first of which is the program's name.
    ///
    /// # Errors
    ///
    /// If the arguments are wrong, if they are for the help or the version, or if allocation fails.
    pub fn parse(alloc: Global, arguments: &'w [String]) -> Result<Options<'w>, Error>
        ensures pairs { IfOk result (λ options. map text_pair options.pairs.items
            ≡ map pair_in (option_values (codes "set") (asked_by arguments.entry.now))) }
        ensures named_files { IfOk result (λ options. map borrowed_pair options.named_files.items
            ≡ map pair_in (option_values (codes "set-file") (asked_by arguments.entry.now))) }
        ensures values_files { IfOk result (λ options. texts options.values_files.items
            ≡ option_values (codes "values") (asked_by arguments.entry.now)) }
        ensures line_end { IfOk result (λ options. IsFlag (asked_by arguments.entry.now)
            (codes "keep-line-end") (keeps_line_end options.line_end)) }
        ensures environment { IfOk result (λ options. IsFlag (asked_by arguments.entry.now)
            (codes "env") options.environment) }
        ensures dotenv_files { IfOk result (λ options. texts options.dotenv_files.items
            ≡ option_values (codes "dotenv") (asked_by arguments.entry.now)) }
        ensures defaults { IfOk result (λ options. map text_pair options.defaults.items
            ≡ map pair_in (option_values (codes "default") (asked_by arguments.entry.now))) }
        ensures defaults_files { IfOk result (λ options. texts options.defaults_files.items
            ≡ option_values (codes "defaults") (asked_by arguments.entry.now)) }
        ensures rows { IfOk result (λ options.
            AreRows (asked_by arguments.entry.now) options.rows) }
        ensures one_template { IfOk result (λ options. IsSome options.rows
            → length options.files.items ≡ 1) }
        ensures no_empty { IfOk result (λ options. IsFlag (asked_by arguments.entry.now)
            (codes "no-empty") options.no_empty) }
        ensures escape { IfOk result (λ options. first_of (codes "escape")
            (asked_by arguments.entry.now) ≡ escape_name options.escape) }
        ensures hints_unset { IfOk result (λ options. IsFlag (asked_by arguments.entry.now)
            (codes "optional") (not options.hints_unset)) }
        ensures action { IfOk result (λ options.
            IsAction (asked_by arguments.entry.now) options.action) }
        ensures suffix { IfOk result (λ options. options.suffix.now
            ≡ unwrap_or (first_of (codes "strip") (asked_by arguments.entry.now)) []) }
        ensures inputs { IfOk result (λ options. texts options.files.items
            ≡ files_or_input (option_values (codes "files") (asked_by arguments.entry.now))) }
        ensures alone { IfOk result (λ options. AreAlone (asked_by arguments.entry.now)) }
        ensures once { IfOk result (λ options. AreOnce (asked_by arguments.entry.now)) }
        ensures files { IfOk result (λ options. 0 < length options.files.items) }
    {
        let matches = matches_in(alloc, arguments)?;
        let files = list(alloc, &matches, "files")?;
        let action = action_of(&matches);
        check_named(alloc, action, &files)?;
        let suffix = suffix_of(alloc, &matches, action)?;
        let options = Options {
            pairs: pairs_of(alloc, &matches, "set")?,
            named_files: named_files_of(alloc, &matches)?,
            values_files: list(alloc, &matches, "values")?,
            line_end: line_end_of(&matches),
            environment: has_flag(&matches, "env"),
            dotenv_files: list(alloc, &matches, "dotenv")?,
            defaults: pairs_of(alloc, &matches, "default")?,
            defaults_files: list(alloc, &matches, "defaults")?,
            rows: rows_of_template(alloc, &matches, &files)?,
            no_empty: has_flag(&matches, "no-empty"),
            escape: escape_of(alloc, &matches)?,
            formats: format_rule_of(alloc, &matches, suffix)?,
            placeholders: placeholders_of(alloc, &matches)?,
            hints_unset: !has_flag(&matches, "optional"),
            refuses_defaults: action == Action::Check && has_flag(&matches, "strict"),
            action,
            suffix,
            files: or_standard_input(files)?,
        };
        options.check_read_once(alloc)?;
        options.check_variables(alloc, &matches)?;
        Ok(options)
    }

    /// Returns whether no option sets variables.
    pub fn sets_no_variables(&self) -> bool {
        let in_arguments = self.pairs.is_empty() && self.defaults.is_empty();
        let in_files = self.named_files.is_empty()
            && self.values_files.is_empty()
            && self.dotenv_files.is_empty()
            && self.defaults_files.is_empty();
        in_arguments && in_files && self.rows.is_none() && !self.environment
    }

    /// Refuses an option that needs variables, unless another option sets variables or the action lists
    /// names.
    fn check_variables(&self, alloc: Global, matches: &ArgMatches<'_>) -> Result<(), Error> {
        let Some(option) = first_flag(matches, &NEEDY) else {
            return Ok(());
        };
        if self.action == Action::ListNames || !self.sets_no_variables() {
            return Ok(());
        }
        let message = format!(in alloc;
            "--{option} needs variables; use -e for the environment's"
        )?;
        Err(wrong(alloc, &message))
    }

    /// Refuses arguments that read standard input twice for values, or both for values and as a source.
    fn check_read_once(&self, alloc: Global) -> Result<(), Error> {
        let mut readers = count_standard_input(&self.values_files)
            .saturating_add(count_standard_input(&self.dotenv_files))
            .saturating_add(count_standard_input(&self.defaults_files));
        if let Some(rows) = self.rows {
            readers = readers.saturating_add(usize::from(is_standard_input(rows.file)));
        }
        for (_, file) in &self.named_files {
            readers = readers.saturating_add(usize::from(is_standard_input(file)));
        }
        if readers > 1 || readers == 1 && count_standard_input(&self.files) > 0 {
            return Err(wrong(
                alloc,
                "standard input can be read only once; if values are read from it, name the files to fill in",
            ));
        }
        Ok(())
    }
}

/// Parses arguments with `clap`. The first argument is the program's name. Refuses options that can't be used
/// together, and an option that is given more often than it may be.
fn matches_in<'w>(alloc: Global, arguments: &'w [String]) -> Result<ArgMatches<'w>, Error>
    ensures rows { IfOk result (λ m. rows_of (found_of m) ≡ asked_by arguments.entry.now) }
    ensures alone { IfOk result (λ m. AreAlone (rows_of (found_of m))) }
    ensures once { IfOk result (λ m. AreOnce (rows_of (found_of m))) }
{
    let matches = match command(alloc)?.try_get_matches_from(arguments) {
        Ok(matches) => matches,
        Err(e) => return Err(with_tip(alloc, e)),
    };
    check_once(alloc, &OPTIONS, &matches)?;
    Ok(matches)
}

/// Refuses a repeated option of a table that may be given once.
fn check_once(alloc: Global, rows: &[Row], matches: &ArgMatches<'_>) -> Result<(), Error>
    ensures { OnOk result ((options : List CommandOption) → map option_of rows.now ≡ options
        → All (IsOnce (rows_of (found_of matches.now))) options) }
{
    for row in rows {
        row.check_once(alloc, matches)?;
    }
    Ok(())
}

/// Returns whether a flag is given.
fn has_flag(matches: &ArgMatches<'_>, id: &str) -> bool
    ensures { IsFlag (rows_of (found_of matches.now)) id.now result }
{
    matches.get_flag(id)
}

/// Returns the first of these options that is set, or `None` if none is.
fn first_flag(matches: &ArgMatches<'_>, options: &[&'static str]) -> Option<&'static str> {
    for option in options {
        if has_flag(matches, option) {
            return Some(option);
        }
    }
    None
}

/// Returns the values of an option, in the order of the arguments.
fn list<'w>(alloc: Global, matches: &ArgMatches<'w>, id: &str) -> Result<Vec<&'w str>, AllocError>
    ensures { IfOk result (λ values. texts values.items
        ≡ option_values id.now (rows_of (found_of matches.now))) }
{
    let mut values = Vec::new(alloc);
    let Some(found) = matches.get_strs(id) else {
        return Ok(values);
    };
    values.extend_from_slice(found)?;
    Ok(values)
}

/// Returns the files, or standard input if there are none.
fn or_standard_input(mut files: Vec<&str>) -> Result<Vec<&str>, AllocError>
    ensures some { IfOk result (λ all. 0 < length all.items) }
    ensures inputs { IfOk result (λ all. texts all.items
        ≡ files_or_input (texts files.entry.items)) }
{
    if files.is_empty() {
        files.push(STANDARD_INPUT)?;
    }
    Ok(files)
}

/// Refuses standard input, and an empty list of files, if `action` writes a file for each source.
fn check_named(alloc: Global, action: Action<'_>, files: &[&str]) -> Result<(), Error> {
    let option = match action {
        Action::Replace => "--in-place",
        Action::WriteInto(_) => "--output-folder",
        _ => return Ok(()),
    };
    if files.is_empty() {
        return Err(wrong(alloc, &format!(in alloc; "{option} needs a file")?));
    }
    if files.iter().any(|file| *file == STANDARD_INPUT) {
        let message = format!(in alloc; "{option} can't be used with standard input")?;
        return Err(wrong(alloc, &message));
    }
    Ok(())
}

/// Returns the number of these files that are standard input.
fn count_standard_input(files: &[&str]) -> usize {
    files.iter().filter(|file| is_standard_input(file)).count()
}

/// Returns whether a file is standard input, by any of its names.
fn is_standard_input(file: &str) -> bool {
    file == STANDARD_INPUT || STANDARD_INPUT_PATHS.contains(&file)
}

/// Returns the variables of an option, in the order of the arguments.
fn pairs_of(alloc: Global, matches: &ArgMatches<'_>, id: &str) -> Result<Vec<Pair>, Error>
    ensures { IfOk result (λ pairs. map text_pair pairs.items
        ≡ map pair_in (option_values id.now (rows_of (found_of matches.now)))) }
{
    let mut pairs = Vec::new(alloc);
    let arguments = list(alloc, matches, id)?;
    for argument in &arguments {
        let (name, value) = split_pair(alloc, *argument, pairs.len().saturating_add(1), id)?;
        pairs.push(owned(alloc, name, value)?)?;
    }
    Ok(pairs)
}

/// Returns the names and files of `--set-file`.
fn named_files_of<'w>(alloc: Global, matches: &ArgMatches<'w>) -> Result<Vec<NamedFile<'w>>, Error>
    ensures { IfOk result (λ files. map borrowed_pair files.items
        ≡ map pair_in (option_values (codes "set-file") (rows_of (found_of matches.now)))) }
{
    let mut files = Vec::new(alloc);
    let arguments = list(alloc, matches, "set-file")?;
    for argument in &arguments {
        files.push(split_pair(alloc, *argument, files.len().saturating_add(1), "set-file")?)?;
    }
    Ok(files)
}

/// Splits `argument` at its first `=`. Fails if there is no `=`, or no variable name before the `=`.
fn split_pair<'w>(
    alloc: Global,
    argument: &'w str,
    number: usize,
    id: &str,
) -> Result<(&'w str, &'w str), Error>
    ensures pair { IfOk result (λ pair. pair_in argument.now ≡ borrowed_pair pair) }
    ensures refused { IfErr result (λ e. (kind_of e ≡ OutOfMemory)
        ⊎ (pair_in argument.now ≡ None)) }
{
    let Some((name, value)) = argument.split_once('=') else {
        let message = format!(in alloc; "no '=' in argument {number} of --{id}")?;
        return Err(wrong(alloc, &message));
    };
    if !is_name(name.as_bytes()) {
        let message = format!(in alloc; "'{name}' of --{id} is not a variable name")?;
        return Err(wrong(alloc, &message));
    }
    Ok((name, value))
}

/// Copies a name and a value into a pair.
fn owned(alloc: Global, name: &str, value: &str) -> Result<Pair, AllocError>
    ensures { IfOk result (λ pair. text_pair pair ≡ Some (name.now, value.now)) }
{
    Ok((
        String::from_str(alloc, name)?,
        String::from_str(alloc, value)?,
    ))
}

/// Returns the rule for the format of each source. If the ending of a source's path decides the format, a
/// `suffix` after the ending is ignored.
fn format_rule_of<'w>(
    alloc: Global,
    matches: &ArgMatches<'w>,
    suffix: &'w str,
) -> Result<FormatRule<'w>, Error> {
    let name = match matches.get_str("format") {
        Some(name) => name,
        None => first_flag(matches, &FORMATS).unwrap_or("text"),
    };
    let format = match name {
        "json" => InputFormat::Document(Format::Json),
        "toml" => InputFormat::Document(Format::Toml),
        "yaml" => InputFormat::Document(Format::Yaml),
        "text" => InputFormat::Text,
        "bytes" => InputFormat::Bytes,
        "auto" => return Ok(FormatRule::ByEnding(suffix)),
        _ => {
            return Err(wrong(
                alloc,
                "--format must be json, toml, yaml, text, bytes or auto",
            ));
        }
    };
    Ok(FormatRule::One(format))
}

/// Returns the treatment of the last line end in a file whose contents are a value.
fn line_end_of(matches: &ArgMatches<'_>) -> LineEnd
    ensures { IsFlag (rows_of (found_of matches.now)) (codes "keep-line-end")
        (keeps_line_end result) }
{
    if has_flag(matches, "keep-line-end") {
        LineEnd::Kept
    } else {
        LineEnd::Removed
    }
}

/// Returns the language that values are escaped for.
fn escape_of(alloc: Global, matches: &ArgMatches<'_>) -> Result<Escape, Error>
    ensures { IfOk result (λ escape. first_of (codes "escape") (rows_of (found_of matches.now))
        ≡ escape_name escape) }
{
    match matches.get_str("escape") {
        None => Ok(Escape::Nothing),
        Some("json") => Ok(Escape::Json),
        Some("sh") => Ok(Escape::Sh),
        Some(_) => Err(wrong(alloc, "--escape must be json or sh")),
    }
}

/// Returns the rows for which a template is expanded, or `None` if there is no `--rows`. Fails if an option
/// of rows is wrong or lacks `--rows`, or if `files` has more than one template for rows.
fn rows_of_template<'w>(
    alloc: Global,
    matches: &ArgMatches<'w>,
    files: &[&str],
) -> Result<Option<RowsOptions<'w>>, Error>
    ensures rows { IfOk result (λ rows. AreRows (rows_of (found_of matches.now)) rows) }
    ensures one_template { IfOk result (λ rows. IsSome rows → length files.now ≤ 1) }
{
    let Some(file) = matches.get_str("rows") else {
        check_rows_named(alloc, matches)?;
        return Ok(None);
    };
    if files.len() > 1 {
        return Err(wrong(alloc, "--rows takes one template"));
    }
    Ok(Some(RowsOptions {
        file,
        format: rows_format_of(alloc, matches, file)?,
        separator: matches.get_str("separator").unwrap_or(""),
        keeps_going: has_flag(matches, "keep-going"),
        nested: is_nested(alloc, matches)?,
    }))
}

/// Refuses an option that needs `--rows`.
fn check_rows_named(alloc: Global, matches: &ArgMatches<'_>) -> Result<(), Error>
    ensures { OnOk result (NeedsNoRows (rows_of (found_of matches.now))) }
{
    let option = if is_set(matches, "rows-format") {
        "rows-format"
    } else if is_set(matches, "separator") {
        "separator"
    } else if is_set(matches, "nested") {
        "nested"
    } else if has_flag(matches, "keep-going") {
        "keep-going"
    } else {
        return Ok(());
    };
    Err(wrong(alloc, &format!(in alloc; "--{option} needs --rows")?))
}

/// Returns whether an option with a value is given.
fn is_set(matches: &ArgMatches<'_>, id: &str) -> bool
    ensures { result ≡ is_some (first_of id.now (rows_of (found_of matches.now))) }
{
    matches.get_str(id).is_some()
}

/// Returns the format of rows: the one that `--rows-format` names, or else the one for the ending of `file`.
fn rows_format_of(alloc: Global, matches: &ArgMatches<'_>, file: &str) -> Result<RowsFormat, Error>
    ensures { IfOk result (λ format. rows_format (rows_of (found_of matches.now)) file.now
        ≡ Some format) }
{
    if let Some(name) = matches.get_str("rows-format") {
        return match rows_format_named(name) {
            Some(format) => Ok(format),
            None => Err(wrong(alloc, "--rows-format must be csv, tsv or jsonl")),
        };
    }
    match rows_format_by_ending(file.as_bytes()) {
        Some(format) => Ok(format),
        None => Err(wrong(
            alloc,
            "--rows needs --rows-format, since the file's ending isn't .csv, .tsv or .jsonl",
        )),
    }
}

/// Returns the format of rows that has this name, or `None` if no format has it.
fn rows_format_named(name: &str) -> Option<RowsFormat>
    ensures { result ≡ command_line.rows_format_named name.now }
{
    match name {
        "csv" => Some(RowsFormat::Csv),
        "tsv" => Some(RowsFormat::Tsv),
        "jsonl" => Some(RowsFormat::JsonLines),
        _ => None,
    }
}

/// Returns the format of rows for a path's ending, or `None` if the ending is unknown. The case of letters
/// matters.
fn rows_format_by_ending(path: &[u8]) -> Option<RowsFormat>
    ensures { result ≡ command_line.rows_format_by_ending path.now }
{
    if path.ends_with(b".csv") {
        Some(RowsFormat::Csv)
    } else if path.ends_with(b".tsv") {
        Some(RowsFormat::Tsv)
    } else if path.ends_with(b".jsonl") {
        Some(RowsFormat::JsonLines)
    } else {
        None
    }
}

/// Returns whether the value of an array or object is its JSON text.
fn is_nested(alloc: Global, matches: &ArgMatches<'_>) -> Result<bool, Error>
    ensures { IfOk result (λ is_nested. first_of (codes "nested") (rows_of (found_of matches.now))
        ≡ nested_name is_nested) }
{
    match matches.get_str("nested") {
        None => Ok(false),
        Some("json") => Ok(true),
        Some(_) => Err(wrong(alloc, "--nested must be json")),
    }
}

/// Returns the suffix of `--strip`, or an empty text if that option isn't set.
fn suffix_of<'w>(
    alloc: Global,
    matches: &ArgMatches<'w>,
    action: Action<'_>,
) -> Result<&'w str, Error>
    ensures { IfOk result (λ suffix. suffix.now
        ≡ unwrap_or (first_of (codes "strip") (rows_of (found_of matches.now))) []) }
{
    let Some(suffix) = matches.get_str("strip") else {
        return Ok("");
    };
    if suffix.is_empty() || matches!(action, Action::Print | Action::WriteTo(_)) {
        return Err(wrong(
            alloc,
            "--strip needs a suffix, and one of --output-folder, --in-place, --check or --names",
        ));
    }
    Ok(suffix)
}

/// Returns the placeholders that the options choose, or an error if these options are wrong.
fn placeholders_of<'w>(alloc: Global, matches: &ArgMatches<'w>) -> Result<Placeholders<'w>, Error> {
    let forms = forms_of(matches);
    let names = choice_of(alloc, matches)?;
    let missing = missing_of(alloc, matches, forms)?;
    if matches!((forms, &names), (Forms::Own, Choice::All)) {
        if matches!(missing, Missing::Nothing) {
            return Err(wrong(
                alloc,
                "--optional needs --envsubst, --shell, --only or --known",
            ));
        }
        return Ok(Placeholders::Own);
    }
    Ok(Placeholders::Chosen(Chosen {
        forms,
        names,
        missing,
    }))
}

/// Returns the forms that the options choose for variables.
fn forms_of(matches: &ArgMatches<'_>) -> Forms {
    if has_flag(matches, "envsubst") {
        Forms::Envsubst
    } else if has_flag(matches, "shell") || has_flag(matches, "compose") {
        Forms::Shell
    } else {
        Forms::Own
    }
}

/// Returns the choice of names by `--only` or `--known`. Without these options, all names are chosen.
fn choice_of<'w>(alloc: Global, matches: &ArgMatches<'w>) -> Result<Choice<'w>, Error> {
    if matches.contains_id("only") {
        only_names(alloc, matches)
    } else if has_flag(matches, "known") {
        Ok(Choice::Known)
    } else {
        Ok(Choice::All)
    }
}

/// Returns how an unset variable expands. `--optional` or `--strict` decides this, and without either,
/// `forms` does.
fn missing_of(alloc: Global, matches: &ArgMatches<'_>, forms: Forms) -> Result<Missing, Error> {
    let is_strict = has_flag(matches, "strict");
    let is_optional = has_flag(matches, "optional");
    if is_strict && is_optional {
        return Err(wrong(alloc, "--strict can't be used with --optional"));
    }
    let is_shell = matches!(forms, Forms::Shell);
    Ok(if is_optional || is_shell && !is_strict {
        Missing::Nothing
    } else {
        Missing::Fault
    })
}

/// Returns the names and prefixes of `--only`.
fn only_names<'w>(alloc: Global, matches: &ArgMatches<'w>) -> Result<Choice<'w>, Error> {
    let mut names = Vec::new(alloc);
    let mut starts = Vec::new(alloc);
    for text in list(alloc, matches, "only")? {
        add_names(alloc, &mut names, &mut starts, text)?;
    }
    if names.is_empty() && starts.is_empty() {
        return Err(wrong(alloc, "--only needs a name"));
    }
    Ok(Choice::Only(OnlyNames::new(alloc, &names)?, starts))
}

/// Appends the names in `text` to `names`, and the prefixes to `starts`. A name is written `NAME`, `$NAME` or
/// `${NAME}`. A prefix is followed by `*`, as in `APP_*`. Commas or blanks separate names and prefixes.
fn add_names<'w>(
    alloc: Global,
    names: &mut Vec<&'w str>,
    starts: &mut Vec<&'w str>,
    text: &'w str,
) -> Result<(), Error> {
    for item in text.split(|c: char| c == ',' || c.is_ascii_whitespace()) {
        let name = without_dollar(item);
        let start = name.strip_suffix('*').unwrap_or("");
        if is_name(name.as_bytes()) {
            names.push(name)?;
        } else if is_name(start.as_bytes()) {
            starts.push(start)?;
        } else if !item.is_empty() {
            let message = format!(in alloc; "'{item}' of --only is not a variable name")?;
            return Err(wrong(alloc, &message));
        }
    }
    Ok(())
}

/// Returns the name in `$NAME` or `${NAME}`, and any other text unchanged.
fn without_dollar(text: &str) -> &str
    ensures { result.now ≡ arguments.without_dollar text.now }
{
    let Some(name) = text.strip_prefix('$') else {
        return text;
    };
    let Some(open) = name.strip_prefix('{') else {
        return name;
    };
    open.strip_suffix('}').unwrap_or(text)
}

/// Returns the action that the options choose.
fn action_of<'w>(matches: &ArgMatches<'w>) -> Action<'w>
    ensures { IsAction (rows_of (found_of matches.now)) result }
{
    if let Some(file) = matches.get_str("output") {
        if STANDARD_OUTPUT.contains(&file) {
            Action::Print
        } else {
            Action::WriteTo(file)
        }
    } else if let Some(directory) = matches.get_str("output-folder") {
        Action::WriteInto(directory)
    } else if has_flag(matches, "in-place") {
        Action::Replace
    } else if has_flag(matches, "check") {
        Action::Check
    } else if has_flag(matches, "names") {
        Action::ListNames
    } else {
        Action::Print
    }
}

/// Replaces an error about another program's option by an error that names the option to use instead.
fn with_tip(alloc: Global, e: Error) -> Error {
    match tip(alloc, &e) {
        Ok(None) => e,
        Ok(Some(message)) => wrong(alloc, &message),
        Err(e) => Error::from(e),
    }
}

/// Returns the message for another program's option, or `None` if the error is about something else.
fn tip(alloc: Global, e: &Error) -> Result<Option<String>, AllocError> {
    if e.kind() != ErrorKind::UnknownArgument {
        return Ok(None);
    }
    let text = format!(in alloc; "{e}")?;
    for (foreign, ours) in &FOREIGN {
        let unknown = format!(in alloc; "unexpected argument '{foreign}' found")?;
        if text.contains(unknown.as_str()) {
            let message = format!(in alloc;
                "{unknown}\n\n  tip: a similar argument exists: '{ours}'"
            )?;
            return Ok(Some(message));
        }
    }
    Ok(None)
}

/// Returns the error for wrong arguments, with the usage, or the error of a failed allocation.
fn wrong(alloc: Global, message: &str) -> Error {
    match error(alloc, message) {
        Ok(e) => e,
        Err(e) => Error::from(e),
    }
}

/// Returns the error for wrong arguments, with the usage, or `AllocError` if allocation fails.
fn error(alloc: Global, message: &str) -> Result<Error, AllocError> {
    command(alloc)?.error(ErrorKind::InvalidValue, message)
}

/// Returns the command of `clap` with all options.
fn command<'a>(alloc: Global) -> Result<Command<'a>, AllocError>
    ensures app { IfOk result (λ c. app_of c ≡ subst_app) }
    ensures excludes { IfOk result (λ c. map exclusion_of (args_of c) ≡ exclusions) }
{
    let command = Command::new(alloc, "subst")
        .version(subst_version::TEXT)
        .about("Fill in $name, ${name}, ${name:default} and ${name?} in files.")
        .after_help(AFTER_HELP)
        // Each use of a flag overrides those before it.
        .args_override_self(true);
    let files = Arg::new(alloc, "files")
        .value_name("FILE")
        .help("Files to fill in; standard input if there are none, or for '-'")
        .action(ArgAction::Append);
    with_options(alloc, command, &OPTIONS)?.arg(files)
}

/// Adds the options of a table to a command.
fn with_options<'a>(
    alloc: Global,
    mut command: Command<'a>,
    rows: &[Row],
) -> Result<Command<'a>, AllocError>
    ensures app { IfOk result (λ c. app_of c
        ≡ with_rules (app_of command.entry) (map rule_of_row rows.now)) }
    ensures excludes { IfOk result (λ c. map exclusion_of (args_of c)
        ≡ map exclusion_of (args_of command.entry) ++ map exclusion_of_row rows.now) }
{
    for row in rows {
        command = command.arg(row.to_arg(alloc)?)?;
    }
    Ok(command)
}
