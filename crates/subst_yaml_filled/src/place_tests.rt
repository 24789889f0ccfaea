//! Tests of the spans of placeholders.

use std::alloc::{AllocError, AllocGlobal};
use std::collections::BTreeMap;
use std::process::Abort;
use std::test::Fail;
use subst_error::line_and_column;
use subst_yaml::{fill_in, place_in, places_in, refusals_in, report};

/// The runtime of a test: an allocator, and assertions that end the test.
trait Testing: Abort + AllocGlobal {}

impl<R: Abort + AllocGlobal> Testing for R {}

/// Texts with unset variables, and for each refused string the line and the column of its fault, and the text
/// there.
const FAULTS: [(&'static str, &'static str); 40] = [
    ("$X", "1:2=X"),
    ("a: $X", "1:5=X"),
    ("a: 'it''s $X'", "1:12=X"),
    ("a: \"\\t\\x41\\u00e9\\U0001F600\\N\\L$X\"", "1:32=X"),
    ("a: \"é$X\" # c", "1:7=X"),
    ("a: ü b\n  c  $X\n  d\n", "2:7=X"),
    ("a: b\n\n\n  c $X\n", "4:6=X"),
    ("a: b\n  $X\n", "2:4=X"),
    ("a: 'b\n\n\n  ''$X'\n", "4:6=X"),
    ("a: \"b  \n   $X\"\n", "2:5=X"),
    ("a: \"b\\\n   $X\"\n", "2:5=X"),
    ("a: \"b \\\n\n   \\ $X\"\n", "3:7=X"),
    ("a: \"\\x24{X}\"", "1:10=X"),
    ("a: \"${\\x58}\"", "1:7=\\x58"),
    ("a: |\n  $X\n", "2:4=X"),
    ("a: |\n  b\n\n    $X\n", "4:6=X"),
    ("a: |2-\n    b\n  $X\n", "3:4=X"),
    ("a: | # c\n\n  b\n  c$X", "4:5=X"),
    ("a: |\r\n  b\r\n  é$X\r\n", "3:5=X"),
    ("a: |-\n  b\n  $X\nc: 1\n", "3:4=X"),
    ("a: >\n  $X\n", "2:4=X"),
    ("a: >\n\n  b\n  $X\n", "4:4=X"),
    ("a: >-\n  b\n\n\n  c $X\n", "5:6=X"),
    ("a: >+\n   b\n\n    c\n   $X\n\n", "5:5=X"),
    ("a: >\r\n  b\r\n  c $X\r\n", "3:6=X"),
    ("- >\n b\n   c $X\n d\n", "3:7=X"),
    ("a: [$X, 'b $Y', \"c $Z\"]", "1:6=X 1:13=Y 1:21=Z"),
    ("a: {b: $X, c:\n  '$Y'}", "1:9=X 2:5=Y"),
    ("a: ${X b}", "1:7= "),
    ("a: ${X\n  b}", "1:7="),
    ("a: '${X  \n\n\n  b}'", "1:8="),
    ("a: |\n  ${X\n  b}\n", "2:6="),
    ("a: |\n  ${X\n\n\n  b}\n", "2:6="),
    ("a: >\n  ${X\n   b}\n", "2:6="),
    ("a: >\n   c\n    ${X\n\n   b}\n", "3:8="),
    ("a: b\\\n  c\n", "1:5=\\"),
    ("a: ${X", "1:5={"),
    ("a: ${X:b\n  c", "1:5={"),
    ("a: b\n---\n- $X\n---\n- >\n b $Y\n", "3:4=X 6:5=Y"),
    ("a: $\nb: 'c $'\n", "1:4=$ 2:7=$"),
];

/// Returns the line and the column of each refused string's fault, with the text there.
fn faults(rt: &impl Testing, source: &str) -> Result<String, AllocError> {
    let variables: BTreeMap<&str, &str> = BTreeMap::new(rt.alloc());
    let mut shown = String::new(rt.alloc());
    let Ok(all) = refusals_in(rt.alloc(), source, &variables) else {
        return String::from_str(rt.alloc(), "not read");
    };
    for it in all.iter() {
        if !shown.as_str().is_empty() {
            shown.push_str(" ")?;
        }
        let token = it.span.start..it.span.end;
        match place_in(rt.alloc(), source, token, it.error.source_range())? {
            Some(place) => {
                let (line, column) = line_and_column(source, place.start);
                let text = source.get(place.start..place.end).unwrap_or("none");
                shown.push_str(&format!(in rt.alloc(); "{line}:{column}={text}")?)?;
            }
            None => shown.push_str("not found")?,
        }
    }
    Ok(shown)
}

#[test]
fn faults_have_their_own_places(rt: HostRuntime) -> Result<(), Fail> {
    for (source, want) in &FAULTS {
        let shown = faults(&rt, source)?;
        assert_eq!(rt; shown.as_str(), *want, "{source:?}");
    }
    Ok(())
}

#[test]
fn ranges_of_one_string_have_places(rt: HostRuntime) -> Result<(), Fail> {
    let source = "a: >-\n  ${b:\n\n  c} é\n  $d\n";
    let token = 3..source.len();
    let ranges = [0..7, 11..13, 11..13, 13..13];
    let wanted = ["${b:\n\n  c}", "$d", "", ""];
    match places_in(rt.alloc(), source, token.start..token.end, &ranges)? {
        Some(_) => panic!(rt; "ranges that overlap have places"),
        None => {}
    }
    let Some(places) = places_in(rt.alloc(), source, token, &[0..7, 11..13, 13..13])? else {
        panic!(rt; "no places");
    };
    for (place, want) in places.iter().zip(wanted.iter()) {
        assert_eq!(rt; source.get(place.start..place.end), Some(*want));
    }
    assert!(rt; place_in(rt.alloc(), source, 0..1, 0..1)?.is_none());
    assert!(rt; place_in(rt.alloc(), "a: [", 0..1, 0..1)?.is_none());
    Ok(())
}

#[test]
fn reports_have_all_that_is_refused(rt: HostRuntime) -> Result<(), Fail> {
    let variables: BTreeMap<&str, &str> = BTreeMap::new(rt.alloc());
    let rows = [
        (
            "a: $X\nb:\n- |\n  c $\n",
            "f:1:5: a: No such variable: $X\n  a: $X\n      ^\n\
             f:4:5: b[0]: Missing variable name\n    c $\n      ^\n",
        ),
        (
            "a: b\n\tc: $X",
            "f:2:1: a tab in the indentation\n  \tc: $X\n  ^\n",
        ),
    ];
    for (source, want) in &rows {
        match fill_in(rt.alloc(), source, &variables) {
            Ok(_) => panic!(rt; "not refused"),
            Err(e) => {
                let text = report(rt.alloc(), "f", source, &variables, &e)?;
                assert_eq!(rt; text.as_str(), *want);
            }
        }
    }
    Ok(())
}
