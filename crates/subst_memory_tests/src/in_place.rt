//! Calls that fill in a document in place, and that list its strings.

use crate::calls::{Show, again};
use crate::documents::VARIABLES;
use std::alloc::AllocError;
use std::ops::Range;
use subst::json::StringAt;
use subst::{json, toml as filled, yaml};
use subst_testing::variables::texts;

/// A JSON text with a string that changes, one that doesn't, and other values.
const JSON: &str = "{\"k\" : [\"$name\", 1.50],\n \"$a\":\"\\u0061\"}";

/// A JSON text whose second and third strings are refused. The second has an escape.
const MISSING_IN_JSON: &str = "[\"$name\",[\"\\u00e9$absent\"],\"$\"]";

/// A TOML document like `JSON`.
const TOML: &str = "k = [\"$name\", 1.50] # $b\n[t]\n'$a' = \"\\u0061\"\n";

const MISSING_IN_TOML: &str = "k = ['$name', [\"\\u00E9$absent\"], '$']\n";

/// A YAML text like `JSON`, with a value in each style.
const YAML: &str =
    "k: [$name, 1.50] # $b\n\"$a\": \"\\u0061\"\nl: '$name'\nm: \"$name\"\nn: |\n  $name\no: >\n  a\n";

const MISSING_IN_YAML: &str = "k: ['$name', [\"\\u00E9$absent\"], '$']\n";

/// A text that isn't valid YAML: the error follows a value that would change.
const NO_YAML: &str = "k: $name\nl: b: c\n";

impl Show for StringAt {
    fn show(&self, rt: &HostRuntime, word: &str) {
        self.span.show(rt, word);
        self.text.show(rt, word);
    }
}

impl Show for json::RefusalAt {
    fn show(&self, rt: &HostRuntime, word: &str) {
        self.path.show(rt, word);
        self.span.show(rt, word);
        self.text.show(rt, word);
        self.error.show(rt, word);
    }
}

impl Show for filled::RefusalAt {
    fn show(&self, rt: &HostRuntime, word: &str) {
        self.path.show(rt, word);
        self.span.show(rt, word);
        self.text.show(rt, word);
        self.error.show(rt, word);
    }
}

impl Show for yaml::RefusalAt {
    fn show(&self, rt: &HostRuntime, word: &str) {
        self.path.show(rt, word);
        self.span.show(rt, word);
        self.text.show(rt, word);
        self.error.show(rt, word);
    }
}

impl Show for yaml::Error {
    fn show(&self, rt: &HostRuntime, word: &str) {
        match self {
            yaml::Error::Subst(fault) => fault.show(rt, "refused in a string"),
            yaml::Error::Yaml(fault) => {
                let _ = rt.println(format_args!("{word} {fault}"));
            }
            yaml::Error::OutOfMemory(fault) => fault.show(rt, word),
        }
    }
}

/// Returns two byte ranges in a document's first refused string: that of the name, and the empty one at the
/// string's end.
fn ranges() -> [Range<usize>; 2] {
    [3..9, 9..9]
}

/// Makes a format's calls that fill in a document: over `$source`, and over `$missing`, which has two refused
/// strings.
macro_rules! calls_of_fill_in {
    ($rt:ident, $format:ident $name:literal => $source:ident, $missing:ident) => {
        let alloc = $rt.alloc();
        let map = texts(alloc, VARIABLES)?;
        again!($rt, concat!($name, "::fill_in"), [$source, map],
            Err($format::Error::OutOfMemory(_)) => $format::fill_in(alloc, $source, &map));
        again!($rt, concat!($name, "::fill_in of a missing variable"), [$missing, map],
            Err($format::Error::OutOfMemory(_)) => $format::fill_in(alloc, $missing, &map));
        again!($rt, concat!($name, "::fill_in_slice"), [$source, map],
            Err($format::Error::OutOfMemory(_)) => $format::fill_in_slice(alloc, $source.as_bytes(), &map));
    };
}

/// Makes the calls of a format over `$source`, and over `$missing`, whose first refused string has the span
/// `$span`. Of a report, only the length is printed.
macro_rules! calls_in_place {
    ($rt:ident, $format:ident $name:literal => $source:ident, $missing:ident, $span:expr, $file:expr) => {
        let alloc = $rt.alloc();
        let map = texts(alloc, VARIABLES)?;
        calls_of_fill_in!($rt, $format $name => $source, $missing);
        again!($rt, concat!($name, "::strings"), [$source],
            Err($format::Error::OutOfMemory(_)) => $format::strings(alloc, $source));
        again!($rt, concat!($name, "::refusals_in"), [$missing, map],
            Err($format::Error::OutOfMemory(_)) => $format::refusals_in(alloc, $missing, &map));
        again!($rt, concat!($name, "::places_in"), [$missing],
            Err(_) => $format::places_in(alloc, $missing, $span, &ranges()));
        if let Err(e) = $format::value_from_str(alloc, $missing, &map) {
            again!($rt, concat!($name, "::report"), [$missing, map],
                Err(_) => $format::report(alloc, $file, $missing, &map, &e).map(|it| 0..it.len()));
        }
    };
}

pub fn json_calls(rt: &HostRuntime) -> Result<(), AllocError> {
    calls_in_place!(rt, json "json" => JSON, MISSING_IN_JSON, 10..25, "web.json");
    Ok(())
}

pub fn toml_calls(rt: &HostRuntime) -> Result<(), AllocError> {
    calls_in_place!(rt, filled "toml" => TOML, MISSING_IN_TOML, 15..30, "app.toml");
    Ok(())
}

pub fn yaml_calls(rt: &HostRuntime) -> Result<(), AllocError> {
    calls_of_fill_in!(rt, yaml "yaml" => YAML, MISSING_IN_YAML);
    let alloc = rt.alloc();
    let map = texts(alloc, VARIABLES)?;
    again!(rt, "yaml::fill_in of a refused text", [NO_YAML, map],
        Err(yaml::Error::OutOfMemory(_)) => yaml::fill_in(alloc, NO_YAML, &map));
    again!(rt, "yaml::strings", [YAML],
        Err(yaml::Error::OutOfMemory(_)) => yaml::strings(alloc, YAML));
    again!(rt, "yaml::refusals_in", [MISSING_IN_YAML, map],
        Err(yaml::Error::OutOfMemory(_)) => yaml::refusals_in(alloc, MISSING_IN_YAML, &map));
    again!(rt, "yaml::places_in", [MISSING_IN_YAML],
        Err(_) => yaml::places_in(alloc, MISSING_IN_YAML, 14..29, &ranges()));
    if let Err(e) = yaml::fill_in(alloc, MISSING_IN_YAML, &map) {
        again!(rt, "yaml::report", [MISSING_IN_YAML, map],
            Err(_) => yaml::report(alloc, "app.yaml", MISSING_IN_YAML, &map, &e).map(|it| 0..it.len()));
    }
    Ok(())
}
