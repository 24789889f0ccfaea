//! Tests of how values are spelled, and of refusals. `tests/test_yaml.py` reads the values back with PyYAML.

use std::alloc::{AllocError, AllocGlobal};
use std::collections::BTreeMap;
use std::process::Abort;
use std::test::Fail;
use subst_yaml::{Error, Reason, fill_in, fill_in_slice};

/// The runtime of a test: an allocator, and assertions that end the test.
trait Testing: Abort + AllocGlobal {}

impl<R: Abort + AllocGlobal> Testing for R {}

/// A text, the value of `$X`, and the output.
type Row<'t> = (&'t str, &'t str, &'t str);

/// Sources with an unquoted value.
const PLAIN: [Row<'static>; 46] = [
    ("a: $X", "8080", "a: 8080"),
    ("a: $X", "-x", "a: -x"),
    ("a: $X", "null", "a: null"),
    ("a: $X", "yes", "a: yes"),
    ("a: $X", "a: b", "a: \"a: b\""),
    ("a: $X", "x #y", "a: \"x #y\""),
    ("a: $X", "", "a: \"\""),
    ("a: $X", "- x", "a: \"- x\""),
    ("a: $X", "-", "a: \"-\""),
    ("a: [$X]", "-", "a: [\"-\"]"),
    ("a: $X", "-[", "a: \"-[\""),
    ("a: $X", "*a", "a: \"*a\""),
    ("a: $X", "&a", "a: \"&a\""),
    ("a: $X", "!t", "a: \"!t\""),
    ("a: $X", "%", "a: \"%\""),
    ("a: $X", "@", "a: \"@\""),
    ("a: $X", "`", "a: \"`\""),
    ("a: $X", "?", "a: \"?\""),
    ("a: $X", ":x", "a: \":x\""),
    ("a: $X", ",", "a: \",\""),
    ("a: $X", "[", "a: \"[\""),
    ("a: $X", "}", "a: \"}\""),
    ("a: $X", "#", "a: \"#\""),
    ("a: $X", "|", "a: \"|\""),
    ("a: $X", ">", "a: \">\""),
    ("a: $X", "'", "a: \"'\""),
    ("a: $X", "\"", "a: \"\\\"\""),
    ("a: $X", "---", "a: \"---\""),
    ("a: $X", "...", "a: \"...\""),
    ("a: $X", "<<", "a: \"<<\""),
    ("a: $X", "=", "a: \"=\""),
    ("a: $X", "x:", "a: \"x:\""),
    ("a: $X", "x ", "a: \"x \""),
    ("a: $X", " x", "a: \" x\""),
    ("a: $X", "a\tb", "a: \"a\\tb\""),
    ("a: $X", "l1\nl2", "a: \"l1\\nl2\""),
    ("a: [$X]", "a, b", "a: [\"a, b\"]"),
    ("a: [$X]", "a:b", "a: [a:b]"),
    ("a: [$X]", "a:?", "a: [\"a:?\"]"),
    ("a: $X", "a:?b", "a: a:?b"),
    ("a: $X", "x{y}", "a: x{y}"),
    ("a: http://$X/", "h:80", "a: http://h:80/"),
    ("a: x$X # c", "y", "a: xy # c"),
    ("$X: $X", "y", "$X: y"),
    ("- &b !t $X\n- *b", "a: b", "- &b !t \"a: b\"\n- *b"),
    ("- '$A'\n- $X # $X", "y", "- '$A'\n- y # $X"),
];

/// Sources with a value in quotes.
const QUOTED: [Row<'static>; 12] = [
    ("a: '$X'", "it's", "a: 'it''s'"),
    ("a: 'it''s $X'", "#", "a: 'it''s #'"),
    ("a: '$X'", "l1\nl2", "a: \"l1\\nl2\""),
    ("a: '$X'", "\u{7f}", "a: \"\\x7F\""),
    ("a: \"$X\"", "a\"b\\c", "a: \"a\\\"b\\\\c\""),
    ("a: \"\\x41\\u00e9 $X\"", "8080", "a: \"Aé 8080\""),
    ("a: \"\\x24X\"", "y", "a: \"y\""),
    ("a: \"$X\"", "\u{0}\u{1b}\r", "a: \"\\x00\\x1B\\r\""),
    ("a: \"$X\"", "\u{85}\u{2028}", "a: \"\\x85\\u2028\""),
    ("a: \"$X\"", "\u{feff}", "a: \"\\uFEFF\""),
    ("a: \"$X\"", "\u{1f9c0}", "a: \"\u{1f9c0}\""),
    ("a: \"\\n\" # \\n", "y", "a: \"\\n\" # \\n"),
];

/// Sources with a value in the style `|`.
const LINES: [Row<'static>; 17] = [
    ("a: |\n  k: $X\n", "v #w", "a: |\n  k: v #w\n"),
    ("a: |\n  k: $X\n", "l1\nl2", "a: |\n  k: l1\n  l2\n"),
    ("a: |\n  $X\n", " x", "a: \" x\\n\"\n"),
    ("a: |\n  $X\n", "", "a: \"\\n\"\n"),
    ("a: |\n  $X\n", "l\n\n\tm", "a: |\n  l\n\n  \tm\n"),
    ("a: |\n  $X\n", "l\n ", "a: \"l\\n \\n\"\n"),
    ("a: |\n  $X\n", "l\n", "a: \"l\\n\\n\"\n"),
    ("a: |\n  $X\n", "\u{7f}", "a: \"\\x7F\\n\"\n"),
    ("a: |- # c\n  $X\nb: c", "l", "a: |- # c\n  l\nb: c"),
    ("a: |- # c\n  $X\nb: c", "l\n", "a: \"l\\n\" # c\nb: c"),
    ("a: |+\n  $X\n\nb: c", "l", "a: \"l\\n\\n\"\nb: c"),
    ("a: |2\n  $X\n", " x", "a: \" x\\n\"\n"),
    ("a: |2-\n  $X\n", "x", "a: |2-\n  x\n"),
    ("a: |\n  $X", "x", "a: \"x\"\n"),
    ("a: |\r\n  $X\r\n", "l\nm", "a: |\r\n  l\r\n  m\r\n"),
    ("a: |\n   $X\n\nb: c", "x", "a: |\n   x\n\nb: c"),
    (
        "- |\n  $X\n  # no comment\n# one\n",
        "x",
        "- |\n  x\n  # no comment\n# one\n",
    ),
];

/// Sources with a value over several lines, unquoted or in quotes.
const OVER_LINES: [Row<'static>; 29] = [
    ("a: $X b\n   c", "x", "a: x b\n   c"),
    ("a: b\n\n  # c $X\n", "x", "a: b\n\n  # c $X\n"),
    ("a: b\n\n  c $X # d\n", "x", "a: b\n\n  c x # d\n"),
    ("a: b\n  $X\n  c", "", "a: b  c"),
    ("a: b\n  $X", "c: d", "a: \"b c: d\""),
    ("a: b\n  $X", "# c", "a: \"b # c\""),
    ("a: b\n\n  $X", "#c", "a: \"b\\n#c\""),
    ("a: b $X\n\n  c", "d:", "a: \"b d:\\nc\""),
    ("a: $X\n\n  c", "", "a: \"\\nc\""),
    ("a: b\n  $X", "l\nm", "a: \"b l\\nm\""),
    ("a: b\n  ${Y:c\n  $X}", "x", "a: b c x"),
    ("b\n$X", "---", "b ---"),
    ("b\n\n$X", "...", "\"b\\n...\""),
    ("b\n$X\nc $X", "x", "b\nx\nc x"),
    ("a: b\r\n  $X\r\nc: d", "x", "a: b\r\n  x\r\nc: d"),
    ("a: '$X\n   b'", "it's", "a: 'it''s\n   b'"),
    ("a: 'b \n\n  $X'", "x", "a: 'b \n\n  x'"),
    ("a: 'b\n  $X'", " x", "a: 'b  x'"),
    ("a: 'b\n\n  $X\n  c'", "", "a: \"b\\n c\""),
    ("a: 'b\n  $X'", "l\nm", "a: \"b l\\nm\""),
    ("'b\n$X'", "---", "'b ---'"),
    ("a: [$X, 'b\n$X']", "x", "a: [x, 'b\nx']"),
    ("a: \"$X \\\n   b\\x41\"", "x", "a: \"x \\\n   b\\x41\""),
    ("a: \"b\\x24{X}\\\n  c\"", "x", "a: \"bx\\\n  c\""),
    (
        "a: \"b\\ \n  $X\\t\n  c\"",
        "\"",
        "a: \"b\\ \n  \\\"\\t\n  c\"",
    ),
    ("a: \"b\n\n  $X\"", "l\nm", "a: \"b\n\n  l\\nm\""),
    ("a: \"b\n  $X\"", " x", "a: \"b  x\""),
    ("a: \"$\\\n  X\"", "x", "a: \"x\""),
    ("a: \"$X\\\\\\\\\n  c\"", "x", "a: \"x\\\\\n  c\""),
];

/// Sources with a value in the style `>`.
const FOLDED: [Row<'static>; 20] = [
    ("a: >\n  b\n  c\nd: $X", "x", "a: >\n  b\n  c\nd: x"),
    ("a: >\n  b $X\n  c\n", "x", "a: >\n  b x\n  c\n"),
    (
        "a: >- # d\n  b $X\n\n   c\n  $X\n",
        "x",
        "a: >- # d\n  b x\n\n   c\n  x\n",
    ),
    (
        "a: >\n  b\n  $X\n  c\n",
        "l\nm",
        "a: >\n  b\n  l\n\n  m\n  c\n",
    ),
    ("a: >\n  b\n  $X\n", "l\n\nm", "a: >\n  b\n  l\n\n\n  m\n"),
    ("a: >\n  b\n  $X\n  c\n", "", "a: >\n  b  c\n"),
    ("a: >\n  b\n  $X\n  c\n", " x", "a: >\n  b  x c\n"),
    ("a: >\n  b\n  $X\n", "l\n m", "a: \"b l\\n m\\n\"\n"),
    ("a: > # d\n  $X\n", " x", "a: \" x\\n\" # d\n"),
    ("a: >\n  $X\n", "", "a: \"\\n\"\n"),
    ("a: >\n  b\n  $X\n", "l\n", "a: \"b l\\n\\n\"\n"),
    ("a: >-\n  b\n  $X\n", "l\n", "a: \"b l\\n\"\n"),
    ("a: >\n  b\n  $X\n", "\u{7f}", "a: \"b \\x7F\\n\"\n"),
    ("a: >+\n  b\n  $X\n\n", "x", "a: \"b x\\n\\n\"\n"),
    ("a: >\n  b\n  $X", "x", "a: \"b x\"\n"),
    ("a: >\n  b\n  ${Y:c\n  $X}\n", "x", "a: >\n  b c x\n"),
    (
        "a: >\r\n  b\r\n  $X\r\n",
        "l\nm",
        "a: >\r\n  b\r\n  l\r\n\r\n  m\r\n",
    ),
    ("a: >2\n  b\n  $X\n", "x", "a: >2\n  b\n  x\n"),
    ("a: >\n  b\n   c $X\n  d\n", "x", "a: >\n  b\n   c x\n  d\n"),
    (
        "- >\n  b $X\n  # no comment\n# one\n",
        "x",
        "- >\n  b x\n  # no comment\n# one\n",
    ),
];

/// Texts that are refused, and their errors.
const REFUSED: [(&'static str, &'static str); 3] = [
    ("a: b\n\tc: $X", "line 2: a tab in the indentation"),
    ("a: ${Y}", "No such variable: $Y"),
    ("a: >\n  b\n  ${Y}\n", "No such variable: $Y"),
];

/// Checks the output of each source, with the row's value of `$X`.
fn expect_rows(rt: &impl Testing, rows: &[Row<'_>]) -> Result<(), AllocError> {
    for (source, value, want) in rows {
        let mut variables = BTreeMap::new(rt.alloc());
        let _ = variables.insert("X", *value)?;
        let _ = variables.insert("A", "$A")?;
        match fill_in(rt.alloc(), source, &variables) {
            Ok(Some(text)) => assert_eq!(rt; text.as_str(), *want, "{source:?}, {value:?}"),
            Ok(None) => panic!(rt; "{source:?}, {value:?}: not confirmed"),
            Err(e) => panic!(rt; "{source:?}, {value:?}: {e}"),
        }
    }
    Ok(())
}

#[test]
fn values_without_quotes_are_quoted_if_they_have_to_be(rt: HostRuntime) -> Result<(), Fail> {
    expect_rows(&rt, &PLAIN)?;
    Ok(())
}

#[test]
fn quotes_are_kept_if_the_value_fits(rt: HostRuntime) -> Result<(), Fail> {
    expect_rows(&rt, &QUOTED)?;
    Ok(())
}

#[test]
fn lines_are_kept_if_the_value_fits(rt: HostRuntime) -> Result<(), Fail> {
    expect_rows(&rt, &LINES)?;
    Ok(())
}

#[test]
fn values_over_lines_keep_their_lines(rt: HostRuntime) -> Result<(), Fail> {
    expect_rows(&rt, &OVER_LINES)?;
    Ok(())
}

#[test]
fn folded_lines_are_kept_if_the_value_fits(rt: HostRuntime) -> Result<(), Fail> {
    expect_rows(&rt, &FOLDED)?;
    Ok(())
}

#[test]
fn refusals_name_the_line(rt: HostRuntime) -> Result<(), Fail> {
    let mut variables = BTreeMap::new(rt.alloc());
    let _ = variables.insert("X", "x")?;
    for (source, want) in &REFUSED {
        match fill_in(rt.alloc(), source, &variables) {
            Ok(_) => panic!(rt; "{source:?} is filled in"),
            Err(e) => {
                let text: String = format!(in rt.alloc(); "{e}")?;
                assert_eq!(rt; text.as_str(), *want, "{source:?}");
            }
        }
    }
    Ok(())
}

#[test]
fn bytes_are_refused_that_are_no_text(rt: HostRuntime) -> Result<(), Fail> {
    let mut variables = BTreeMap::new(rt.alloc());
    let _ = variables.insert("X", "x")?;
    match fill_in_slice(rt.alloc(), b"a: $X\nb: \xff\n", &variables) {
        Err(Error::Yaml(fault)) => {
            assert!(rt; matches!(fault.reason, Reason::InvalidUtf8));
            assert_eq!(rt; (fault.line, fault.span.start, fault.span.end), (2, 9, 10));
        }
        _ => panic!(rt; "no fault"),
    }
    match fill_in_slice(rt.alloc(), b"a: $X", &variables) {
        Ok(Some(text)) => assert_eq!(rt; text.as_str(), "a: x"),
        _ => panic!(rt; "no text"),
    }
    Ok(())
}
