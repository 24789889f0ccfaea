//! Spans of strings in documents, worked out by hand.

use std::alloc::{AllocError, Global};
use std::fmt::Display;
use std::ops::Range;
use subst::json::StringAt;
use subst::{NoSubstitution, json, toml as filled};

/// A document with equal keys, and refused strings.
const JSON: &str =
    "{\"b\":[1,\"x\",{\"k\":\"$M\"},\"$\"],\"a\":\"$N\", \"b\":\"\\u00e9${\",\"\":\"\"}";

/// A document with strings in a table of an array, one of them under a dotted key.
const TOML: &str =
    "k = '$' # '$'\n[[t]]\n[[t]]\n\"$\" = [1, {a.b = '''$$''', c = '3'}]\n[t.u]\nx = '0'\ny='${'\n";

/// Appends a line for a string: its path, its text and its span.
fn add<P: Display>(
    alloc: Global,
    lines: &mut String,
    path: &P,
    text: &str,
    span: &Range<usize>,
) -> Result<(), AllocError> {
    let line = format!(in alloc; "{path} {text} {}..{}\n", span.start, span.end)?;
    lines.push_str(&line)
}

fn listed(alloc: Global, strings: Option<Vec<StringAt>>) -> Result<String, AllocError> {
    let mut lines = String::new(alloc);
    for StringAt { text, span } in strings.unwrap_or(Vec::new(alloc)) {
        add(alloc, &mut lines, &"-", &text, &span)?;
    }
    Ok(lines)
}

fn strings_of_json(alloc: Global) -> Result<String, json::Error> {
    Ok(listed(alloc, json::strings(alloc, JSON)?)?)
}

fn strings_of_toml(alloc: Global) -> Result<String, filled::Error> {
    Ok(listed(alloc, filled::strings(alloc, TOML)?)?)
}

#[test]
fn strings_are_listed_in_the_order_of_the_text(rt: HostRuntime) {
    let strings = strings_of_json(rt.alloc()).unwrap_or(String::new(rt.alloc()));
    assert_eq!(rt;
        strings.as_str(),
        "- x 8..11\n- $M 17..21\n- $ 23..26\n- $N 32..36\n- é${ 42..52\n-  56..58\n"
    );
    let strings = strings_of_toml(rt.alloc()).unwrap_or(String::new(rt.alloc()));
    assert_eq!(rt;
        strings.as_str(),
        "- $ 4..7\n- $$ 43..51\n- 3 57..60\n- 0 73..76\n- ${ 79..83\n"
    );
}

fn refused_in_json(alloc: Global) -> Result<String, json::Error> {
    let mut lines = String::new(alloc);
    let refused = json::refusals_in(alloc, JSON, &NoSubstitution)?;
    for it in refused.unwrap_or(Vec::new(alloc)) {
        add(alloc, &mut lines, &it.path, &it.text, &it.span)?;
    }
    Ok(lines)
}

fn refused_in_toml(alloc: Global) -> Result<String, filled::Error> {
    let mut lines = String::new(alloc);
    let refused = filled::refusals_in(alloc, TOML, &NoSubstitution)?;
    for it in refused.unwrap_or(Vec::new(alloc)) {
        add(alloc, &mut lines, &it.path, &it.text, &it.span)?;
    }
    Ok(lines)
}

#[test]
fn refused_strings_have_their_paths(rt: HostRuntime) {
    let refused = refused_in_json(rt.alloc()).unwrap_or(String::new(rt.alloc()));
    assert_eq!(rt;
        refused.as_str(),
        "/b/2/k $M 17..21\n/b/3 $ 23..26\n/a $N 32..36\n/b é${ 42..52\n"
    );
    let refused = refused_in_toml(rt.alloc()).unwrap_or(String::new(rt.alloc()));
    assert_eq!(rt;
        refused.as_str(),
        "k $ 4..7\nt[1].\"$\"[1].a.b $$ 43..51\nt[1].u.y ${ 79..83\n"
    );
}

/// Returns the spans, as a text.
fn spans(alloc: Global, places: Option<Vec<Range<usize>>>) -> Result<String, AllocError> {
    let mut lines = String::new(alloc);
    for span in places.unwrap_or(Vec::new(alloc)) {
        add(alloc, &mut lines, &"-", "", &span)?;
    }
    Ok(lines)
}

fn places_in_json(alloc: Global) -> Result<String, AllocError> {
    let source = "[\"\\u00e9a\\n\\ud83d\\ude00$\",\"\\tb$\"]";
    let mut finder = json::RangeFinder::new(alloc);
    let ranges = [0..2, 3..4, 4..8, 9..9];
    let mut places = spans(alloc, finder.find(alloc, source, 1..25, &ranges)?)?;
    let next = finder.find(alloc, source, 26..32, &[1..2, 2..3])?;
    places.push_str(&spans(alloc, next)?)?;
    Ok(places)
}

fn places_in_toml(alloc: Global) -> Result<String, AllocError> {
    let source = "k = \"\"\"\né\\\n  \\u0024$\"\"\"";
    spans(
        alloc,
        filled::places_in(alloc, source, 4..24, &[2..3, 3..4, 4..4])?,
    )
}

#[test]
fn ranges_of_a_string_are_found_by_one_pass(rt: HostRuntime) {
    let places = places_in_json(rt.alloc()).unwrap_or(String::new(rt.alloc()));
    assert_eq!(rt;
        places.as_str(),
        "-  2..8\n-  9..11\n-  11..23\n-  24..24\n-  29..30\n-  30..31\n"
    );
    let places = places_in_toml(rt.alloc()).unwrap_or(String::new(rt.alloc()));
    assert_eq!(rt; places.as_str(), "-  14..20\n-  20..21\n-  21..21\n");
}
