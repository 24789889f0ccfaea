//! Look-ups, recorded by a map: the name of each placeholder that a call reaches is looked up once, in order.
//! If a source has a fault, calls without a template still look up the names before the fault.
//!
//! No contract states how often `get` is called, or with which names.

ghost use Rattle.std.specs.Prelude.{Some, None, codes, if◌then◌else◌, bytes_eq};

use std::alloc::{AllocError, Global};
use std::cell::Cell;
use subst::{
    ByteTemplate, Template, VariableMap, json, substitute, substitute_bytes,
    substitute_bytes_owned, substitute_into, substitute_owned, toml,
};

/// A map in which only `1` is set. It records the names looked up, in order, as the digits of `names`.
#[derive(Drop)]
struct RecordingMap {
    names: Cell<u64>,
}

impl RecordingMap {
    fn new() -> RecordingMap {
        RecordingMap {
            names: Cell::new(0),
        }
    }
}

impl<'a> VariableMap<'a> for RecordingMap {
    ghost use Rattle.std.specs.Prelude.{ℕ, List};

    type Value = &'static str;

    ghost Seen = { List ℕ };

    ghost see = { λ v. v.now };

    ghost look_up = { λ _ name. if bytes_eq name (codes "1") then Some (codes "one") else None };

    fn get(&'a self, key: &str) -> Option<&'static str> {
        let digit: u64 = key.parse().unwrap_or(0);
        let names = self.names.get().wrapping_mul(10).wrapping_add(digit);
        self.names.set(names);
        if key == "1" { Some("one") } else { None }
    }
}

/// Returns the names that the expansion of a text looks up, as the digits of a number.
fn names_by_text(alloc: Global, source: &str) -> u64 {
    let variables = RecordingMap::new();
    let _ = substitute(alloc, source, &variables);
    variables.names.get()
}

/// Returns the names that the expansion of a text's bytes looks up, as the digits of a number.
fn names_by_bytes(alloc: Global, source: &str) -> u64 {
    let variables = RecordingMap::new();
    let _ = substitute_bytes(alloc, source.as_bytes(), &variables);
    variables.names.get()
}

/// Returns the names that the expansion of an owned text looks up, as the digits of a number.
fn names_by_owner(alloc: Global, source: &str) -> Result<u64, AllocError> {
    let variables = RecordingMap::new();
    let _ = substitute_owned(alloc, String::from_str(alloc, source)?, &variables);
    Ok(variables.names.get())
}

/// Returns the names that the expansion of owned bytes looks up, as the digits of a number.
fn names_by_byte_owner(alloc: Global, source: &str) -> Result<u64, AllocError> {
    let variables = RecordingMap::new();
    let bytes = Vec::from_slice(alloc, source.as_bytes())?;
    let _ = substitute_bytes_owned(alloc, bytes, &variables);
    Ok(variables.names.get())
}

/// Returns the names that the expansion of a text into a buffer looks up, as the digits of a number.
fn names_by_output(alloc: Global, source: &str) -> u64 {
    let variables = RecordingMap::new();
    let mut output = String::new(alloc);
    let _ = substitute_into(alloc, source, &mut output, &variables);
    variables.names.get()
}

/// Returns the names looked up by parsing a template, and those by parsing and expanding it, as the digits of
/// two numbers.
fn names_by_template(alloc: Global, source: &str) -> (u64, u64) {
    let variables = RecordingMap::new();
    match Template::from_str(alloc, source) {
        Ok(template) => {
            let none = variables.names.get();
            let _ = template.expand(alloc, &variables);
            (none, variables.names.get())
        }
        Err(_) => (0, variables.names.get()),
    }
}

/// Returns the names looked up by parsing a byte template, and those by parsing and expanding it, as the
/// digits of two numbers.
fn names_by_byte_template(alloc: Global, source: &str) -> (u64, u64) {
    let variables = RecordingMap::new();
    match ByteTemplate::from_slice(alloc, source.as_bytes()) {
        Ok(template) => {
            let none = variables.names.get();
            let _ = template.expand(alloc, &variables);
            (none, variables.names.get())
        }
        Err(_) => (0, variables.names.get()),
    }
}

/// Returns whether each way of expanding a source looks up exactly `names`.
fn looks_up(alloc: Global, source: &str, names: u64) -> bool {
    names_by_text(alloc, source) == names
        && names_by_bytes(alloc, source) == names
        && names_by_owner(alloc, source) == Ok(names)
        && names_by_byte_owner(alloc, source) == Ok(names)
        && names_by_output(alloc, source) == names
        && names_by_template(alloc, source) == (0, names)
        && names_by_byte_template(alloc, source) == (0, names)
}

/// Returns whether `substitute` and `substitute_bytes` look up `names` before they find a source's fault, and
/// templates look up none.
fn looks_up_before_fault(alloc: Global, source: &str, names: u64) -> bool {
    names_by_text(alloc, source) == names
        && names_by_bytes(alloc, source) == names
        && names_by_template(alloc, source) == (0, 0)
        && names_by_byte_template(alloc, source) == (0, 0)
}

/// Returns the index of the first row for which `looks_up` returns false, or `None` if there is no such row.
fn wrong_row(alloc: Global, rows: &[(&str, u64)]) -> Option<usize> {
    for (row, &(source, names)) in rows.iter().enumerate() {
        if !looks_up(alloc, source, names) {
            return Some(row);
        }
    }
    None
}

#[test]
fn each_visited_variable_is_looked_up_once_and_in_order(rt: HostRuntime) {
    let rows = [
        ("no name: \\$1", 0),
        ("$1", 1),
        ("$1 ${1} ${1?} ${1:x}", 1111),
        ("${2?}${3:x}${4?}$1", 2341),
        // A default that isn't used, with names in it.
        ("${1:$2 ${3:$4} ${5?}}${6?}", 16),
        // Defaults that are used.
        ("${2:$1${3:${4?}$1}}${5?}", 213415),
        // Nothing is looked up after a missing variable.
        ("$1 $2 $1", 12),
        ("${1:$7}${2:$3}$1", 123),
    ];
    assert_eq!(rt; wrong_row(rt.alloc(), rows.as_slice()), None);
}

#[test]
fn names_before_a_fault_are_looked_up_where_no_template_is_kept(rt: HostRuntime) {
    let alloc = rt.alloc();
    assert!(rt; looks_up_before_fault(alloc, "$1 ${2?} $", 12));
    assert!(rt; looks_up_before_fault(alloc, "$1 ${2", 1));
    assert!(rt; looks_up_before_fault(alloc, "${1:$2 $", 1));
    assert!(rt; looks_up_before_fault(alloc, "${2:$1 $", 21));
    // Nothing is looked up after a missing variable.
    assert!(rt; looks_up_before_fault(alloc, "$2 $1 $", 2));
}

/// Returns the names that a template looks up to list its missing variables, as the digits of a number.
fn names_by_missing(alloc: Global, source: &str) -> u64 {
    let variables = RecordingMap::new();
    if let Ok(template) = Template::from_str(alloc, source) {
        let _ = template.missing(alloc, &variables);
    }
    variables.names.get()
}

#[test]
fn lists_of_missing_variables_look_up_each_visited_variable_once(rt: HostRuntime) {
    let alloc = rt.alloc();
    assert_eq!(rt;
        names_by_missing(alloc, "$1 $2 ${2:$3}${1:$4}${5?}"),
        122315
    );
    assert_eq!(rt; names_by_missing(alloc, "${2:${3:$4}$1}$6"), 23416);
}

/// A JSON text whose members are in another order than in its tree. `TOML` has the same members.
const JSON: &str = r#"{"b":["$1","${2:$1}"],"a":"${3?}$1","c":"$1"}"#;

const TOML: &str = "b = ['$1', '${2:$1}']\na = '${3?}$1'\nc = '$1'\n";

/// Reading a tree looks up the names of each string once, and so does filling in a text in place. If a string
/// of the text changes and has several placeholders outside defaults, its names are looked up once more.
/// Filling in a TOML text in place fills in its tree first, so the names of each string are looked up one
/// more time.
#[test]
fn documents_look_up_the_names_of_each_string(rt: HostRuntime) {
    let alloc = rt.alloc();
    let variables = RecordingMap::new();
    let _ = json::value_from_str(alloc, JSON, &variables);
    assert_eq!(rt; variables.names.get(), 311211);
    let variables = RecordingMap::new();
    let _ = toml::value_from_str(alloc, TOML, &variables);
    assert_eq!(rt; variables.names.get(), 311211);
    let variables = RecordingMap::new();
    let _ = json::fill_in(alloc, JSON, &variables);
    assert_eq!(rt; variables.names.get(), 12131311);
    let variables = RecordingMap::new();
    let _ = toml::fill_in(alloc, TOML, &variables);
    assert_eq!(rt; variables.names.get(), 31121112131311);
    let variables = RecordingMap::new();
    let _ = json::refusals_in(alloc, JSON, &variables);
    assert_eq!(rt; variables.names.get(), 121311);
    let variables = RecordingMap::new();
    let _ = toml::refusals_in(alloc, TOML, &variables);
    assert_eq!(rt; variables.names.get(), 121311);
}
