//! Calls about a document's refused strings: `place_in` for a name in such a string, and `Display` of the
//! string's path.

use crate::calls::{Show, again, print};
use crate::documents::VARIABLES;
use crate::free_errors::display;
use std::alloc::AllocError;
use std::ops::Range;
use subst::{json, toml as filled, yaml};
use subst_testing::variables::texts;

/// A JSON text with two equal keys. The second and the third of its members have refused strings.
const JSON: &str = "{\"a\":\"x\",\"\\u0061\":{\"b/~\":[\"$name\",\"\\u00e9$absent\"]},\"c\":\"$\"}";

/// A TOML document with two refused strings, the first under a dotted key.
const TOML: &str = "a.\"\\u0062 c\" = ['$name', \"\\u00E9$absent\"]\nd = '$'\n";

/// A YAML text with two refused values, the first under a quoted key.
const YAML: &str = "a: x\nb: {\"c d\": [$name, \"\\u00e9$absent\"]}\nd: $\n";

/// Returns the byte range of the name in the first refused string of each document.
fn name_in_string() -> Range<usize> {
    3..9
}

impl<T: Show> Show for Option<T> {
    fn show(&self, rt: &HostRuntime, word: &str) {
        match self {
            Some(it) => it.show(rt, word),
            None => print(rt, word, "none"),
        }
    }
}

impl Show for Range<usize> {
    fn show(&self, rt: &HostRuntime, word: &str) {
        let _ = rt.println(format_args!("{word} {}..{}", self.start, self.end));
    }
}

impl Show for json::Path {
    fn show(&self, rt: &HostRuntime, word: &str) {
        let _ = rt.println(format_args!("{word} {self}"));
    }
}

impl Show for filled::Path {
    fn show(&self, rt: &HostRuntime, word: &str) {
        let _ = rt.println(format_args!("{word} {self}"));
    }
}

impl Show for yaml::Path {
    fn show(&self, rt: &HostRuntime, word: &str) {
        let _ = rt.println(format_args!("{word} {self}"));
    }
}

/// Makes the calls on the first refused string of a document: `place_in` for the name in it, and `Display` of
/// its path. The pattern `$listed` matches the result of `refusals_in`, and binds the list in it to
/// `$refused`.
macro_rules! calls_of_refusals {
    ($rt:ident, $format:ident, $name:literal, $source:ident, $refused:ident in $listed:pat) => {
        let alloc = $rt.alloc();
        let map = texts(alloc, VARIABLES)?;
        let $listed = $format::refusals_in(alloc, $source, &map) else {
            return Err(AllocError);
        };
        let Some(first) = $refused.first() else {
            return Err(AllocError);
        };
        let (start, end) = (first.span.start, first.span.end);
        again!($rt, concat!($name, "::place_in"), [$source],
            Err(_) => $format::place_in(alloc, $source, start..end, name_in_string()));
        display($rt, concat!("Display of ", $name, "::Path"), &first.path)?;
    };
}

pub fn json_calls(rt: &HostRuntime) -> Result<(), AllocError> {
    calls_of_refusals!(rt, json, "json", JSON, refused in Ok(Some(refused)));
    Ok(())
}

pub fn toml_calls(rt: &HostRuntime) -> Result<(), AllocError> {
    calls_of_refusals!(rt, filled, "toml", TOML, refused in Ok(Some(refused)));
    Ok(())
}

pub fn yaml_calls(rt: &HostRuntime) -> Result<(), AllocError> {
    calls_of_refusals!(rt, yaml, "yaml", YAML, refused in Ok(refused));
    Ok(())
}
