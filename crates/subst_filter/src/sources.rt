//! Tests of sources: their outputs, or their faults with highlighting.

use crate::runs::{Call, Run, expect_runs, expect_texts};
use std::alloc::{AllocError, Global};
use std::test::Fail;

#[test]
fn bytes_are_filled_in_or_refused(rt: HostRuntime) -> Result<(), Fail> {
    let rows = [
        ("Hello $name!", "name=world", "gives Hello world!"),
        ("$name $", "name=world", "6..7: MissingVariableName\n"),
    ];
    expect_runs(rt.alloc(), Call::RunBytes, &rows)
}

#[test]
fn characters_past_ascii_are_filled_in_or_refused(rt: HostRuntime) -> Result<(), Fail> {
    let rows = [
        ("", "b=❤", "gives "),
        ("é: {❤}", "b=❤", "gives é: {❤}"),
        ("${a:é}$b", "b=❤", "gives é❤"),
        (
            "$b é $",
            "b=❤",
            "6..7: MissingVariableName\n  $b é $\n       ^\n",
        ),
    ];
    expect_runs(rt.alloc(), Call::RunText, &rows)
}

#[test]
fn bytes_that_are_no_text_are_refused(rt: HostRuntime) -> Result<(), Fail> {
    // A byte that UTF-8 never has, and a truncated character after a variable or before a fault.
    let sources: [&[u8]; 3] = [b"\xFF", b"$b\xC3", b"\xC3$"];
    for source in sources {
        Run::new(Call::RunText, source, "b=❤").expect(rt.alloc(), "input is not UTF-8")?;
    }
    Ok(())
}

#[test]
fn faults_are_shown_in_their_line(rt: HostRuntime) -> Result<(), Fail> {
    let rows = [
        ("Hi $!", "3..4: MissingVariableName\n  Hi $!\n     ^\n"),
        ("one\nHi $!", "7..8: MissingVariableName\n  Hi $!\n     ^\n"),
        ("$\n", "0..1: MissingVariableName\n  $\n  ^\n"),
        ("a\r\n$", "3..4: MissingVariableName\n  $\n  ^\n"),
        ("a\r$", "2..3: MissingVariableName\n  $\n  ^\n"),
        ("a\n\r$", "3..4: MissingVariableName\n  $\n  ^\n"),
        (
            "\r\n\r\n a$\r\nb",
            "6..7: MissingVariableName\n   a$\n    ^\n",
        ),
        ("a\n\nb\n$", "5..6: MissingVariableName\n  $\n  ^\n"),
        ("${a:\n$z}", "6..7: NoSuchVariable z\n  $z}\n   ^\n"),
        ("\n${a:\n", "2..3: MissingClosingBrace\n  ${a:\n   ^\n"),
        ("日本 ${", "7..9: MissingVariableName\n  日本 ${\n       ^^\n"),
        ("x\\\ny", "1..3: InvalidEscapeSequence \\\n\n  x\\\n   ^\n"),
        ("\\\r\n", "0..2: InvalidEscapeSequence \\\r\n  \\\n  ^\n"),
        ("${a\n", "3..4: UnexpectedCharacter \n\n  ${a\n     \n"),
        ("\\é", "0..3: InvalidEscapeSequence \\é\n  \\é\n  ^^\n"),
        (
            "emoticon: \\（ ^▽^ ）/",
            "10..14: InvalidEscapeSequence \\（\n  emoticon: \\（ ^▽^ ）/\n            ^^^\n",
        ),
    ];
    expect_texts(rt.alloc(), &rows)
}

/// Describes the fault of a dollar after `count` letters, with its line highlighted.
fn fault_with_line(alloc: Global, count: usize) -> Result<String, AllocError> {
    let (line, spaces) = ("x".repeat(alloc, count)?, " ".repeat(alloc, count)?);
    let end = count.saturating_add(1);
    format!(in alloc; "{count}..{end}: MissingVariableName\n  {line}$\n  {spaces}^\n")
}

/// Expects a run over `count` letters and a dollar to end with the fault `expected`.
fn expect_after(alloc: Global, count: usize, expected: &str) -> Result<(), Fail> {
    let letters = "x".repeat(alloc, count)?;
    let source = format!(in alloc; "{letters}$")?;
    expect_texts(alloc, &[(source.as_str(), expected)])
}

#[test]
fn widest_highlighted_line_has_60_columns(rt: HostRuntime) -> Result<(), Fail> {
    let widest = fault_with_line(rt.alloc(), 59)?;
    expect_after(rt.alloc(), 59, widest.as_str())?;
    expect_after(rt.alloc(), 60, "60..61: MissingVariableName\n")
}

/// Expects the fault of an unset variable to contain the variable's whole name of `len` letters.
fn expect_name(alloc: Global, len: usize) -> Result<(), Fail> {
    let name = "n".repeat(alloc, len)?;
    let source = format!(in alloc; "${name}")?;
    let end = len.saturating_add(1);
    let expected = format!(in alloc; "1..{end}: NoSuchVariable {name}\n")?;
    expect_texts(alloc, &[(source.as_str(), expected.as_str())])
}

#[test]
fn long_names_are_printed_whole(rt: HostRuntime) -> Result<(), Fail> {
    expect_name(rt.alloc(), 300)?;
    expect_name(rt.alloc(), 100_000)
}

/// Returns a source of 100,000 nested defaults, of which `closed` have a closing brace.
fn defaults(alloc: Global, closed: usize) -> Result<String, AllocError> {
    let mut source = "${a:".repeat(alloc, 100_000)?;
    source.push_str("}".repeat(alloc, closed)?.as_str())?;
    Ok(source)
}

#[test]
fn many_defaults_in_each_other_give_nothing_or_are_not_closed(rt: HostRuntime) -> Result<(), Fail> {
    for (closed, expected) in [(100_000, "gives "), (99_999, "1..2: MissingClosingBrace\n")] {
        let source = defaults(rt.alloc(), closed)?;
        expect_texts(rt.alloc(), &[(source.as_str(), expected)])?;
    }
    Ok(())
}
