//! Tests of texts and their events, and of texts that are refused, with the reasons. If libyaml reads a text
//! too, libyaml's events are the same.

use std::alloc::{AllocError, AllocGlobal, Global};
use std::process::Abort;
use std::test::Fail;
use subst_yaml_reader::{Bracket, Error, Event, Reason, Span, Style, read, value_of};

/// The runtime of a test: an allocator, and assertions that end the test.
trait Testing: Abort + AllocGlobal {}

impl<R: Abort + AllocGlobal> Testing for R {}

/// A text, and its events with spaces between them:
///
/// - `doc`: a document
/// - `i`: an item, with its depth
/// - `k`: a key, with its depth if it is outside brackets
/// - `v`: a value outside brackets
/// - `f`: a value in brackets
/// - `[`, `{` and `(`: the start of a sequence, a mapping or a pair in brackets
/// - `)`: the end of any of these
/// - `~`: a missing value
///
/// A key or a value is followed by the mark of its style and by its span. After the span of a block scalar
/// come `/` and its indentation.
type Row<'t> = (&'t str, &'t str);

/// Sequences and mappings without brackets.
const BLOCK: [Row<'static>; 6] = [
    ("- a\n- b", "doc i1 v:2-3 i1 v:6-7"),
    ("a: b\nc: d", "doc k1:0-1 v:3-4 k1:5-6 v:8-9"),
    ("a:\n- b\n-\nc: d", "doc k1:0-1 i2 v:5-6 i2 k1:9-10 v:12-13"),
    ("a:\n  - b\n  - c", "doc k1:0-1 i2 v:7-8 i2 v:13-14"),
    (
        "- a: b\n  c: d\n-   - e\n    - f",
        "doc i1 k2:2-3 v:5-6 k2:9-10 v:12-13 i1 i2 v:20-21 i2 v:28-29",
    ),
    (
        "a:\n  b:\n    c: d\n  e:\nf: g",
        "doc k1:0-1 k2:5-6 k3:12-13 v:15-16 k2:19-20 k1:22-23 v:25-26",
    ),
];

/// Collections in brackets.
const BRACKETS: [Row<'static>; 7] = [
    ("[a, b,]", "doc [ f:1-2 f:4-5 )"),
    ("{a: b, c, d: }", "doc { k:1-2 f:4-5 k:7-8 ~ k:10-11 ~ )"),
    ("[a: b, c]", "doc [ ( k:1-2 f:4-5 ) f:7-8 )"),
    (
        "a: [\nb, # c\n  {c: [d]}\n]",
        "doc k1:0-1 [ f:5-6 { k:15-16 [ f:19-20 ) ) )",
    ),
    (
        "{\"a\":b, 'c' :d, *e : f}",
        "doc { k\"1-4 f:5-6 k'8-11 f:13-14 k*16-18 f:21-22 )",
    ),
    ("[]", "doc [ )"),
    ("[-, a:b, x y]", "doc [ f:1-2 f:4-7 f:9-12 )"),
];

/// Scalars in each style, and aliases.
const SCALARS: [Row<'static>; 12] = [
    ("a: b c\n  d\n\n e", "doc k1:0-1 v:3-14"),
    ("a\nb", "doc v:0-3"),
    ("'a''b\n c'", "doc v'0-9"),
    ("\"a\\\"b\\x41\\u00e9\\U0001F600\\\n c\"", "doc v\"0-30"),
    (
        "a: 'b'\n\"c\" : \"d\"",
        "doc k1:0-1 v'3-6 k1\"7-10 v\"13-16",
    ),
    (
        "a: |\n  b\n\n   c\n\nd: e",
        "doc k1:0-1 v|3-15/2 k1:16-17 v:19-20",
    ),
    ("- >2-\n    a\n   b", "doc i1 v>2-16/2"),
    ("- |+\n a\n\n", "doc i1 v|2-9/1"),
    ("- |-2 # c\n   a", "doc i1 v|2-14/2"),
    ("a: *b\n*c : d", "doc k1:0-1 v*3-5 k1*6-8 v:11-12"),
    ("a: http://h:80/#x", "doc k1:0-1 v:3-17"),
    (
        "a: -b\nc: ?d\ne: :f",
        "doc k1:0-1 v:3-5 k1:6-7 v:9-11 k1:12-13 v:15-17",
    ),
];

/// Documents with their marks, `---` and `...`, and with directives and comments.
const DOCUMENTS: [Row<'static>; 10] = [
    ("", ""),
    ("# c\n\n", ""),
    ("---\n---\n...\n...\n---\na", "doc doc doc v:20-21"),
    ("a: b\n---\n- c\n...\n", "doc k1:0-1 v:3-4 doc i1 v:11-12"),
    ("--- a # b\n--- # c\nd: e", "doc v:4-5 doc k1:18-19 v:21-22"),
    ("a #b\n...\n# c", "doc v:0-1"),
    ("%YAML 1.1\n---\na", "doc v:14-15"),
    (
        "# a\n\n%YAML 1.2 \t# b\n\n # c\n--- d\n---\ne",
        "doc v:30-31 doc v:36-37",
    ),
    ("%YAML 1.1\r\n---\r\n- a", "doc i1 v:18-19"),
    ("%YAML 1.2\n---", "doc"),
];

/// Anchors and tags.
const PROPERTIES: [Row<'static>; 6] = [
    ("a: &b c\nd: !e f", "doc k1:0-1 v:6-7 k1:8-9 v:14-15"),
    (
        "- &a !t\n  b: c\n- !!t &a [d]",
        "doc i1 k2:10-11 v:13-14 i1 [ f:25-26 )",
    ),
    ("!a/b.c:d {&e f: !g h}", "doc { k:13-14 f:19-20 )"),
    ("[&a , !t b]", "doc [ ~ f:9-10 )"),
    ("a: &b\nc: !t\n- d", "doc k1:0-1 k1:6-7 i2 v:14-15"),
    ("&a\n&b c: d", "doc k1:6-7 v:9-10"),
];

/// Characters of several bytes, `\r\n` as a line end, and tabs.
const CHARACTERS: [Row<'static>; 3] = [
    ("é: € 😀", "doc k1:0-2 v:4-12"),
    (
        "a: b\r\nc:\r\n  - |\r\n    d\r\n",
        "doc k1:0-1 v:3-4 k1:6-7 i2 v|14-24/4",
    ),
    (
        "a:\tb\t# c\t\nc:  \t'd'\t",
        "doc k1:0-1 v:3-4 k1:10-11 v'15-18",
    ),
];

/// Texts that are refused, each with the reason, the span and the line.
const REFUSED: [(&str, Reason, usize, usize, usize); 106] = [
    ("? a", Reason::ComplexKey, 0, 1, 1),
    ("- ? a", Reason::ComplexKey, 2, 3, 1),
    ("[? a]", Reason::ComplexKey, 1, 2, 1),
    (": a", Reason::NoKey, 0, 1, 1),
    ("{: a}", Reason::NoKey, 1, 2, 1),
    ("&a : b", Reason::NoKey, 3, 4, 1),
    ("[a]: b", Reason::CollectionKey, 3, 4, 1),
    ("{a: {b}: c}", Reason::CollectionKey, 7, 8, 1),
    ("a: {{ b }}", Reason::CollectionKey, 4, 5, 1),
    ("{{ b }}: a", Reason::CollectionKey, 1, 2, 1),
    ("\"a\n b\": c", Reason::LongKey, 0, 1, 1),
    ("a\n b: c", Reason::NotAValue, 4, 5, 2),
    ("{\"a\n b\": c}", Reason::LongKey, 1, 2, 1),
    ("[a\n b]", Reason::FlowLines, 4, 5, 2),
    ("[a,\n'b'\nc]", Reason::TextAfterValue, 8, 9, 3),
    ("|\n a", Reason::BlockHeader, 0, 1, 1),
    ("--- >\n a", Reason::BlockHeader, 4, 5, 1),
    ("- |\n  \n a", Reason::BlockSpaces, 4, 5, 2),
    ("- >1\n   \n  a", Reason::BlockSpaces, 5, 6, 2),
    ("- | a", Reason::BlockHeader, 4, 5, 1),
    ("- |0\n a", Reason::BlockHeader, 3, 4, 1),
    ("%YAML 1.2\na", Reason::Directive, 0, 1, 1),
    ("%YAML 1.2", Reason::Directive, 0, 1, 1),
    ("%YAML 1.1\n ---\na", Reason::Directive, 0, 1, 1),
    ("%YAML 1.1\n...\n---\na", Reason::Directive, 0, 1, 1),
    ("%YAML 1.1 ---\na", Reason::Directive, 0, 1, 1),
    ("%YAML 1.1#\n---\na", Reason::Directive, 0, 1, 1),
    ("%YAML 1.1\n%YAML 1.1\n---\na", Reason::Directive, 0, 1, 1),
    ("%YAML 1.1\n%TAG ! b:\n---\na", Reason::Directive, 0, 1, 1),
    ("%YAML 1.3\n---\na", Reason::Directive, 0, 1, 1),
    ("%YAML 1.10\n---\na", Reason::Directive, 0, 1, 1),
    ("%YAML  1.1\n---\na", Reason::Directive, 0, 1, 1),
    ("%TAG ! b:\n---\na", Reason::Directive, 0, 1, 1),
    (" %YAML 1.1\n---\na", Reason::Directive, 1, 2, 1),
    (
        "%YAML 1.1\n---\na\n...\n%YAML 1.1\n---\nb",
        Reason::TextAfterEnd,
        20,
        21,
        5,
    ),
    ("a\n...\n%TAG ! b\n", Reason::TextAfterEnd, 6, 7, 3),
    ("a\n...\nb", Reason::TextAfterEnd, 6, 7, 3),
    ("...\na", Reason::TextAfterEnd, 0, 1, 1),
    ("! a", Reason::Name, 1, 2, 1),
    ("!<a> b", Reason::Name, 1, 2, 1),
    ("&a.b c", Reason::Name, 2, 3, 1),
    ("*a: b", Reason::Name, 2, 3, 1),
    ("&é a", Reason::Name, 1, 3, 1),
    ("[!t, a]", Reason::Name, 3, 4, 1),
    ("a:\n\tb", Reason::Tab, 3, 4, 2),
    ("- a\n\t\n- b", Reason::Tab, 4, 5, 2),
    ("-\ta", Reason::Tab, 1, 2, 1),
    ("- \ta: b", Reason::Tab, 2, 3, 1),
    ("[\n\ta]", Reason::Tab, 2, 3, 2),
    ("- |\n\ta", Reason::Tab, 4, 5, 2),
    ("a\n\tb", Reason::Tab, 2, 3, 2),
    ("a\u{1}b", Reason::Character, 1, 2, 1),
    ("a\u{7f}", Reason::Character, 1, 2, 1),
    ("\u{85}a", Reason::Character, 0, 2, 1),
    ("a\u{2028}b", Reason::Character, 1, 4, 1),
    ("a\u{2029}", Reason::Character, 1, 4, 1),
    ("\u{feff}a", Reason::Character, 0, 3, 1),
    ("\u{fffe}", Reason::Character, 0, 3, 1),
    ("\u{ffff}", Reason::Character, 0, 3, 1),
    ("a\u{0}b", Reason::Zero, 1, 2, 1),
    ("a\rb", Reason::CarriageReturn, 1, 2, 1),
    ("a: b\n c: d", Reason::NotAValue, 7, 8, 2),
    ("  a: b\n c: d", Reason::Indentation, 8, 9, 2),
    ("a:\n  b: c\n d: e", Reason::Indentation, 11, 12, 3),
    ("a: b\n- c", Reason::NotAnEntry, 5, 6, 2),
    ("- a\nb: c", Reason::NotAnEntry, 4, 5, 2),
    ("a: - b", Reason::NotAValue, 3, 4, 1),
    ("a: b: c", Reason::NotAValue, 3, 4, 1),
    ("--- a: b", Reason::NotAValue, 4, 5, 1),
    ("--- - a", Reason::NotAValue, 4, 5, 1),
    ("- - a: b\n- c: d: e", Reason::NotAValue, 14, 15, 2),
    ("\"a\" b", Reason::TextAfterValue, 4, 5, 1),
    ("a: 'b' c", Reason::TextAfterValue, 7, 8, 1),
    ("a: [b] c", Reason::TextAfterValue, 7, 8, 1),
    ("a: 'b'\n  c", Reason::Indentation, 9, 10, 2),
    ("a: b\nc", Reason::NotAnEntry, 5, 6, 2),
    ("'a", Reason::Quote, 0, 1, 1),
    ("\"a", Reason::Quote, 0, 1, 1),
    ("a: \"b\n---\nc\"", Reason::Quote, 3, 4, 1),
    ("'a\n... b'", Reason::Quote, 0, 1, 1),
    ("\"\\z\"", Reason::Escape, 2, 3, 1),
    ("\"\\x4g\"", Reason::Escape, 4, 5, 1),
    ("\"\\uD800\"", Reason::Escape, 6, 7, 1),
    ("\"\\U00110000\"", Reason::Escape, 10, 11, 1),
    ("[a", Reason::Bracket, 2, 2, 1),
    ("{a: b]", Reason::Bracket, 5, 6, 1),
    ("[a, , b]", Reason::Bracket, 4, 5, 1),
    ("[, a]", Reason::Bracket, 1, 2, 1),
    ("[a]]", Reason::TextAfterValue, 3, 4, 1),
    ("]", Reason::Bracket, 0, 1, 1),
    ("[\n---\n]", Reason::Bracket, 2, 3, 2),
    ("[- a]", Reason::NotAValue, 1, 2, 1),
    ("a: @b", Reason::Indicator, 3, 4, 1),
    ("a: `b`", Reason::Indicator, 3, 4, 1),
    ("a: %b", Reason::Directive, 3, 4, 1),
    ("a: #b\n c\n d: e", Reason::NotAValue, 11, 12, 3),
    ("&a &b c", Reason::Properties, 3, 4, 1),
    ("!a !b c", Reason::Properties, 3, 4, 1),
    ("&a\n&b c", Reason::Properties, 6, 7, 2),
    ("&a *b", Reason::Properties, 3, 4, 1),
    ("&a *b : c", Reason::Properties, 0, 1, 1),
    ("[a:]", Reason::NotAValue, 2, 3, 1),
    ("{a:,}", Reason::NotAValue, 2, 3, 1),
    ("[a:?b]", Reason::NotAValue, 2, 3, 1),
    ("a:\n&b\n  c: d", Reason::NotAnEntry, 3, 4, 2),
    ("\"a\"#b", Reason::TextAfterValue, 3, 4, 1),
];

/// The text of each reason.
const REASONS: [(Reason, &str); 23] = [
    (Reason::Tab, "a tab in the indentation"),
    (
        Reason::Indentation,
        "an indentation that no earlier line has",
    ),
    (
        Reason::NotAValue,
        "a key or an item in place of a value; quote values that contain ': '",
    ),
    (
        Reason::NotAnEntry,
        "neither a key nor an item of the collection at this indentation",
    ),
    (Reason::TextAfterValue, "text after a value"),
    (Reason::TextAfterEnd, "text after '...' without '---'"),
    (Reason::ComplexKey, "a key after '?' isn't supported"),
    (Reason::NoKey, "a value without a key isn't supported"),
    (
        Reason::CollectionKey,
        "a collection as a key isn't supported; is this a Helm or Jinja template?",
    ),
    (
        Reason::LongKey,
        "a key over several lines or of more than 1,024 bytes isn't supported",
    ),
    (
        Reason::Directive,
        "directives aren't supported, nor values that begin with '%'",
    ),
    (
        Reason::Name,
        "an unsupported name of an anchor, alias or tag",
    ),
    (
        Reason::Properties,
        "a second anchor or tag, or an anchor or tag at an alias",
    ),
    (Reason::Quote, "a missing closing quote"),
    (Reason::Escape, "an unknown escape"),
    (
        Reason::Bracket,
        "a missing closing bracket, or a bracket or comma out of place",
    ),
    (
        Reason::FlowLines,
        "a value over several lines in brackets; quote it",
    ),
    (
        Reason::BlockHeader,
        "text on the same line after '|' or '>' isn't supported, nor a document that is only a '|' or '>' block",
    ),
    (
        Reason::BlockSpaces,
        "a line of spaces before the first line of text after '|' or '>'",
    ),
    (
        Reason::Indicator,
        "a value can't begin with this character; quote it",
    ),
    (
        Reason::Character,
        "a character that some YAML readers reject",
    ),
    (
        Reason::CarriageReturn,
        "a carriage return without a line feed",
    ),
    (Reason::Zero, "a zero byte; is this UTF-16?"),
];

/// Tokens with their styles and the indentation of their lines, and the values that they are decoded to.
const VALUES: [(Style, usize, &str, Option<&str>); 31] = [
    (Style::Plain, 0, "a b", Some("a b")),
    (Style::Plain, 0, "a\n b", Some("a b")),
    (Style::Plain, 0, "a \t\n\n \n  b\r\nc", Some("a\n\nb c")),
    (Style::Single, 0, "''", Some("")),
    (Style::Single, 0, "'it''s \\n'", Some("it's \\n")),
    (Style::Single, 0, "'a\n b'", Some("a b")),
    (Style::Single, 0, "' a\r\n\r\n\t'", Some(" a\n")),
    (Style::Single, 0, "'\n '' b '", Some(" ' b ")),
    (Style::Single, 0, "'a' b'", None),
    (Style::Double, 0, "\"\"", Some("")),
    (
        Style::Double,
        0,
        "\"\\0\\a\\b\\t\\\t\\n\\v\\f\\r\\e\\ \\\"\\/\\\\\"",
        Some("\0\u{7}\u{8}\t\t\n\u{b}\u{c}\r\u{1b} \"/\\"),
    ),
    (
        Style::Double,
        0,
        "\"\\N\\_\\L\\P\\x41\\u00e9\\U0001F600\"",
        Some("\u{85}\u{a0}\u{2028}\u{2029}A\u{e9}\u{1f600}"),
    ),
    (Style::Double, 0, "\"a\\\n b\"", Some("ab")),
    (Style::Double, 0, "\"a \\\n \n b\"", Some("a \nb")),
    (Style::Double, 0, "\"a\\\r\n\r\n\\  b\"", Some("a\n  b")),
    (Style::Double, 0, "\"a\\ \n \\tb\"", Some("a  \tb")),
    (Style::Double, 0, "\"a\n \\\n b\\x20\n\"", Some("a b  ")),
    (Style::Double, 0, "\"a\\ \\\n\"", Some("a ")),
    (
        Style::Literal,
        2,
        "|\n  a\n   b\n\n  c\n",
        Some("a\n b\n\nc\n"),
    ),
    (Style::Literal, 1, "|\r\n\r\n a\r\n", Some("\na\n")),
    (Style::Literal, 2, "|- # c\n  a\n", Some("a")),
    (Style::Literal, 2, "|2-\n   a", Some(" a")),
    (Style::Literal, 1, "|+\n a\n\n", Some("a\n\n")),
    (Style::Literal, 1, "|", Some("")),
    (Style::Folded, 1, ">\n a\n b\n", Some("a b\n")),
    (Style::Folded, 2, ">-\n\n  a\n\n\n  b \n", Some("\na\n\nb ")),
    (
        Style::Folded,
        2,
        ">\r\n  a\r\n   b\r\n\r\n  c\r\n",
        Some("a\n b\n\nc\n"),
    ),
    (Style::Folded, 1, ">+\n \ta\n b\n\n", Some("\ta\nb\n\n")),
    (Style::Folded, 2, ">2 # c\n   a\n   b", Some(" a\n b")),
    (Style::Folded, 1, ">", Some("")),
    (Style::Alias, 0, "*a", None),
];

/// Returns the mark of a style in a row's events, such as `'` for single quotes.
fn mark(style: Style) -> &'static str {
    match style {
        Style::Plain => ":",
        Style::Single => "'",
        Style::Double => "\"",
        Style::Literal => "|",
        Style::Folded => ">",
        Style::Alias => "*",
    }
}

/// Joins an event's `head`, the mark of its token's style, and the token's span, in the notation of a row.
fn token(alloc: Global, head: &str, style: Style, span: Span) -> Result<String, AllocError> {
    let (mark, Span { start, end }) = (mark(style), span);
    format!(in alloc; "{head}{mark}{start}-{end}")
}

/// Returns the event of a value in the notation of a row.
fn value(
    alloc: Global,
    style: Style,
    span: Span,
    in_flow: bool,
    indent: usize,
) -> Result<String, AllocError> {
    let text = token(alloc, if in_flow { "f" } else { "v" }, style, span)?;
    match style {
        Style::Literal | Style::Folded => format!(in alloc; "{text}/{indent}"),
        _ => Ok(text),
    }
}

/// Returns an event in the notation of a row.
fn sketch(alloc: Global, event: &Event) -> Result<String, AllocError> {
    match *event {
        Event::Document => String::from_str(alloc, "doc"),
        Event::Item { depth } => format!(in alloc; "i{depth}"),
        Event::Key { depth, style, span } => {
            let head: String = format!(in alloc; "k{depth}")?;
            token(alloc, &head, style, span)
        }
        Event::Value {
            style,
            span,
            in_flow,
            indent,
        } => value(alloc, style, span, in_flow, indent),
        Event::Open(Bracket::Sequence) => String::from_str(alloc, "["),
        Event::Open(Bracket::Mapping) => String::from_str(alloc, "{"),
        Event::Open(Bracket::Pair) => String::from_str(alloc, "("),
        Event::FlowKey { style, span } => token(alloc, "k", style, span),
        Event::Null => String::from_str(alloc, "~"),
        Event::Close => String::from_str(alloc, ")"),
    }
}

/// Checks that the events of a text are `want`, written as in a `Row`.
fn expect(rt: &impl Testing, source: &str, want: &str) -> Result<(), Fail> {
    let events = read(rt.alloc(), source)?;
    let mut sketches = String::new(rt.alloc());
    for event in &events {
        if !sketches.is_empty() {
            sketches.push_str(" ")?;
        }
        sketches.push_str(sketch(rt.alloc(), event)?.as_str())?;
    }
    assert_eq!(rt; sketches.as_str(), want, "{source:?}");
    Ok(())
}

/// Checks that a text is refused for this reason, with this span and line.
fn expect_refused(rt: &impl Testing, source: &str, reason: Reason, span: Span, line: usize) {
    match read(rt.alloc(), source) {
        Err(Error::Refused(fault)) => {
            assert_eq!(rt; fault.reason, reason, "{source:?}");
            assert_eq!(rt; fault.span, span, "{source:?}");
            assert_eq!(rt; fault.line, line, "{source:?}");
        }
        _ => panic!(rt; "{source:?} isn't refused"),
    }
}

#[test]
fn block(rt: HostRuntime) -> Result<(), Fail> {
    for (source, events) in BLOCK {
        expect(&rt, source, events)?;
    }
    Ok(())
}

#[test]
fn brackets(rt: HostRuntime) -> Result<(), Fail> {
    for (source, events) in BRACKETS {
        expect(&rt, source, events)?;
    }
    Ok(())
}

#[test]
fn scalars(rt: HostRuntime) -> Result<(), Fail> {
    for (source, events) in SCALARS {
        expect(&rt, source, events)?;
    }
    Ok(())
}

#[test]
fn documents(rt: HostRuntime) -> Result<(), Fail> {
    for (source, events) in DOCUMENTS {
        expect(&rt, source, events)?;
    }
    Ok(())
}

#[test]
fn properties(rt: HostRuntime) -> Result<(), Fail> {
    for (source, events) in PROPERTIES {
        expect(&rt, source, events)?;
    }
    Ok(())
}

#[test]
fn characters(rt: HostRuntime) -> Result<(), Fail> {
    for (source, events) in CHARACTERS {
        expect(&rt, source, events)?;
    }
    Ok(())
}

#[test]
fn refused(rt: HostRuntime) {
    for (source, reason, start, end, line) in REFUSED {
        expect_refused(&rt, source, reason, Span { start, end }, line);
    }
}

#[test]
fn values(rt: HostRuntime) -> Result<(), Fail> {
    for (style, indent, token, want) in VALUES {
        let value = value_of(rt.alloc(), style, indent, token.as_bytes())?;
        match (value, want) {
            (Some(value), Some(want)) => assert_eq!(rt;
                value.as_slice(),
                want.as_bytes(),
                "{token:?}"
            ),
            (value, want) => assert_eq!(rt; value.is_none(), want.is_none(), "{token:?}"),
        }
    }
    Ok(())
}

#[test]
fn a_key_has_at_most_1024_bytes(rt: HostRuntime) -> Result<(), Fail> {
    let key = "a".repeat(rt.alloc(), 1024)?;
    let longest: String = format!(in rt.alloc(); "{key}: b")?;
    expect(&rt, &longest, "doc k1:0-1024 v:1026-1027")?;
    let longer: String = format!(in rt.alloc(); "a{key}: b")?;
    expect_refused(&rt, &longer, Reason::LongKey, Span { start: 0, end: 1 }, 1);
    Ok(())
}

#[test]
fn depth_has_no_limit(rt: HostRuntime) -> Result<(), Fail> {
    let items = "- ".repeat(rt.alloc(), 10000)?;
    assert_eq!(rt; read(rt.alloc(), &items)?.len(), 10001);
    let brackets = "[".repeat(rt.alloc(), 10000)?;
    expect_refused(
        &rt,
        &brackets,
        Reason::Bracket,
        Span {
            start: 10000,
            end: 10000,
        },
        1,
    );
    Ok(())
}

#[test]
fn reasons(rt: HostRuntime) -> Result<(), Fail> {
    for (reason, want) in REASONS {
        let text = reason.to_string(rt.alloc())?;
        assert_eq!(rt; text.as_str(), want);
    }
    Ok(())
}

#[test]
fn messages(rt: HostRuntime) -> Result<(), Fail> {
    let Err(error) = read(rt.alloc(), "a:\n\tb") else {
        panic!(rt; "isn't refused");
    };
    let text = error.to_string(rt.alloc())?;
    assert_eq!(rt; text.as_str(), "line 2: a tab in the indentation");
    Ok(())
}
