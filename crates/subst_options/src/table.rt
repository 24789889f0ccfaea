//! The table of the command line's options.

ghost use Rattle.std.specs.Prelude.{◌≡◌, IfOk, None, OnOk, false, length, map};
ghost use Rattle.clap.specs.Words.{found_of, rows_of, rule_of};
ghost use Rattle.subst_options.specs.CommandLine.{IsOnce, option_of, rule_of_option, option_values};

use clap::{Arg, ArgAction, ArgMatches, Error};
use std::alloc::{AllocError, Global};

/// How often an option with a value may be given.
#[derive(Clone, Copy, PartialEq, Eq)]
pub enum Uses {
    /// Once.
    Once,
    /// Any number of times.
    Many,
}

/// An option of the command line.
pub struct Row {
    /// The heading in the help.
    heading: &'static str,
    pub long: &'static str,
    short: Option<char>,
    /// The value's name in the help, and how often the option may be given, or `None` if the option takes no
    /// value.
    pub takes: Option<(&'static str, Uses)>,
    help: &'static str,
    /// Options that can't be used with this one. Those that list this one needn't be listed here.
    conflicts: &'static [&'static str],
}

impl Row {
    /// Converts the option into an argument of `clap`.
    pub fn to_arg<'a>(&self, alloc: Global) -> Result<Arg<'a>, AllocError>
        ensures rule { IfOk result (λ arg. rule_of arg ≡ rule_of_option (option_of self.now)) }
        ensures local { IfOk result (λ arg. arg.global ≡ false) }
        ensures excludes { IfOk result (λ arg. map (λ id. id.now) arg.conflicts.items
            ≡ (option_of self.now).excludes) }
    {
        let arg = Arg::new(alloc, self.long)
            .long(self.long)
            .help(self.help)
            .help_heading(self.heading)
            .conflicts_with_all(self.conflicts)?;
        let arg = with_short(arg, self.short);
        // Values are collected, and each use of a flag overrides those before it.
        Ok(match self.takes {
            Some((name, _)) => arg.value_name(name).action(ArgAction::Append),
            None => arg.action(ArgAction::SetTrue),
        })
    }

    /// Refuses the option if it may be given once and is repeated.
    pub fn check_once(&self, alloc: Global, matches: &ArgMatches<'_>) -> Result<(), Error>
        ensures { OnOk result (IsOnce (rows_of (found_of matches.now)) (option_of self.now)) }
    {
        let Some((value, Uses::Once)) = self.takes else {
            return Ok(());
        };
        if count(matches, self.long) <= 1 {
            return Ok(());
        }
        let message = format!(in alloc;
            "the argument '--{} <{value}>' cannot be used multiple times",
            self.long
        )?;
        Err(super::wrong(alloc, &message))
    }
}

/// Returns the number of an option's values.
fn count(matches: &ArgMatches<'_>, id: &str) -> usize
    ensures { result ≡ length (option_values id.now (rows_of (found_of matches.now))) }
{
    match matches.get_strs(id) {
        Some(values) => values.len(),
        None => 0,
    }
}

/// Adds a short form to an option, or returns the option unchanged if `short` is `None`.
fn with_short<'a>(arg: Arg<'a>, short: Option<char>) -> Arg<'a>
    ensures { arg.entry.short ≡ None → result ≡ record arg.entry { short = short } }
{
    match short {
        Some(short) => arg.short(short),
        None => arg,
    }
}

/// The options, in the order of the help.
pub static OPTIONS: [Row; 34] = [
    Row {
        heading: "Variables",
        long: "set",
        short: Some('s'),
        takes: Some(("NAME=VALUE", Uses::Many)),
        help: "Set NAME to VALUE; the last one wins",
        conflicts: &[],
    },
    Row {
        heading: "Variables",
        long: "set-file",
        short: None,
        takes: Some(("NAME=FILE", Uses::Many)),
        help: "Set NAME to the contents of FILE, without a final newline",
        conflicts: &[],
    },
    Row {
        heading: "Variables",
        long: "values",
        short: Some('f'),
        takes: Some(("FILE", Uses::Many)),
        help: "Read NAME=VALUE lines (as docker run --env-file), or a directory with a file per name",
        conflicts: &[],
    },
    Row {
        heading: "Variables",
        long: "keep-line-end",
        short: None,
        takes: None,
        help: "Keep the last line end of a file whose contents are a value",
        conflicts: &[],
    },
    Row {
        heading: "Variables",
        long: "env",
        short: Some('e'),
        takes: None,
        help: "Use the environment's variables",
        conflicts: &[],
    },
    Row {
        heading: "Variables",
        long: "dotenv",
        short: None,
        takes: Some(("FILE", Uses::Many)),
        help: "Read a .env file, with quotes, 'export', comments, and variables as with --shell",
        conflicts: &[],
    },
    Row {
        heading: "Variables",
        long: "default",
        short: None,
        takes: Some(("NAME=VALUE", Uses::Many)),
        help: "Set NAME to VALUE if no row and no option above sets it",
        conflicts: &[],
    },
    Row {
        heading: "Variables",
        long: "defaults",
        short: None,
        takes: Some(("FILE", Uses::Many)),
        help: "Read FILE as --values does, for names that no row and no option above sets",
        conflicts: &[],
    },
    Row {
        heading: "Variables",
        long: "no-empty",
        short: None,
        takes: None,
        help: "Treat empty values as unset",
        conflicts: &[],
    },
    Row {
        heading: "Variables",
        long: "escape",
        short: None,
        takes: Some(("json|sh", Uses::Once)),
        help: "Escape values for sh or json; in YAML, json is right only between double quotes (see --yaml)",
        conflicts: &[],
    },
    Row {
        heading: "Rows",
        long: "rows",
        short: None,
        takes: Some(("FILE", Uses::Once)),
        help: "Expand the template once for each row of FILE: .csv, .tsv or .jsonl; '-' is standard input",
        conflicts: &[
            "escape",
            "format",
            "json",
            "toml",
            "yaml",
            "auto",
            "only",
            "envsubst",
            "known",
            "shell",
            "compose",
            "strict",
            "optional",
            "output-folder",
            "strip",
            "in-place",
            "names",
        ],
    },
    Row {
        heading: "Rows",
        long: "rows-format",
        short: None,
        takes: Some(("csv|tsv|jsonl", Uses::Once)),
        help: "Read rows in this format, whatever the ending of FILE",
        conflicts: &[],
    },
    Row {
        heading: "Rows",
        long: "separator",
        short: None,
        takes: Some(("TEXT", Uses::Once)),
        help: "Write TEXT between the outputs of rows; nothing by default",
        conflicts: &[],
    },
    Row {
        heading: "Rows",
        long: "nested",
        short: None,
        takes: Some(("json", Uses::Once)),
        help: "Insert arrays and objects of JSON Lines as their JSON text; by default they are errors",
        conflicts: &[],
    },
    Row {
        heading: "Rows",
        long: "keep-going",
        short: None,
        takes: None,
        help: "Report and leave out rows that are refused, and write the others",
        conflicts: &[],
    },
    Row {
        heading: "Formats",
        long: "format",
        short: None,
        takes: Some(("json|toml|yaml|text|bytes|auto", Uses::Once)),
        help: "Read files in this format; the options below are its short forms",
        conflicts: &["json", "toml", "yaml", "bytes", "auto"],
    },
    Row {
        heading: "Formats",
        long: "json",
        short: None,
        takes: None,
        help: "Fill in the strings of JSON documents",
        conflicts: &["toml", "yaml", "bytes", "auto"],
    },
    Row {
        heading: "Formats",
        long: "toml",
        short: None,
        takes: None,
        help: "Fill in the strings of TOML documents",
        conflicts: &["yaml", "bytes", "auto"],
    },
    Row {
        heading: "Formats",
        long: "yaml",
        short: None,
        takes: None,
        help: "Fill in the values of YAML documents, and quote those that need it",
        conflicts: &["bytes", "auto"],
    },
    Row {
        heading: "Formats",
        long: "bytes",
        short: None,
        takes: None,
        help: "Accept any bytes; by default input must be UTF-8",
        conflicts: &["auto"],
    },
    Row {
        heading: "Formats",
        long: "auto",
        short: None,
        takes: None,
        help: "Choose the format of each file by its ending: .json, .toml, .yaml or .yml; other files are text",
        conflicts: &[],
    },
    Row {
        heading: "Reading",
        long: "only",
        short: None,
        takes: Some(("NAMES", Uses::Many)),
        help: "Expand only these variables (NAME or APP_*); leave all other text as it is",
        conflicts: &["known"],
    },
    Row {
        heading: "Reading",
        long: "envsubst",
        short: None,
        takes: None,
        help: "Expand only $NAME and ${NAME}, like envsubst; leave all other text as it is",
        conflicts: &["shell", "compose"],
    },
    Row {
        heading: "Reading",
        long: "known",
        short: None,
        takes: None,
        help: "Expand only variables that are set; leave all other text as it is",
        conflicts: &["names"],
    },
    Row {
        heading: "Reading",
        long: "shell",
        short: None,
        takes: None,
        help: "Expand ${NAME:-default} and the other forms of Docker Compose",
        conflicts: &[],
    },
    Row {
        heading: "Reading",
        long: "compose",
        short: None,
        takes: None,
        help: "Same as --shell",
        conflicts: &[],
    },
    Row {
        heading: "Reading",
        long: "strict",
        short: None,
        takes: None,
        help: "With --shell, report unset variables; with --check, report defaults written as ${NAME:-x}",
        conflicts: &[],
    },
    Row {
        heading: "Reading",
        long: "optional",
        short: None,
        takes: None,
        help: "With --envsubst, --shell, --only or --known, expand unset variables to nothing",
        conflicts: &[],
    },
    Row {
        heading: "Writing",
        long: "output",
        short: Some('o'),
        takes: Some(("FILE", Uses::Once)),
        help: "Write the output to FILE, whole or not at all",
        conflicts: &["output-folder", "in-place", "check", "names"],
    },
    Row {
        heading: "Writing",
        long: "output-folder",
        short: Some('O'),
        takes: Some(("FOLDER", Uses::Once)),
        help: "Write each file's output into FOLDER; directories are read recursively",
        conflicts: &["in-place", "check", "names"],
    },
    Row {
        heading: "Writing",
        long: "strip",
        short: None,
        takes: Some(("SUFFIX", Uses::Once)),
        help: "In directories, process only files whose names end in SUFFIX; with -O, remove it from output names",
        conflicts: &["output"],
    },
    Row {
        heading: "Writing",
        long: "in-place",
        short: Some('i'),
        takes: None,
        help: "Replace each file by its output, whole or not at all; directories are read recursively",
        conflicts: &["check", "names"],
    },
    Row {
        heading: "Asking",
        long: "check",
        short: None,
        takes: None,
        help: "Report all errors and write nothing; directories are read recursively",
        conflicts: &["names"],
    },
    Row {
        heading: "Asking",
        long: "names",
        short: None,
        takes: None,
        help: "List the variables: name, first use, whether required, and default",
        conflicts: &[],
    },
];
