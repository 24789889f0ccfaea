//! Positions in reports: the line and the column of a fault, both from 1.
//!
//! Each refused source is also in `data/rows.tsv` of `subst_vectors`, with the range, source line and
//! underline of its fault.

ghost use Rattle.subst.specs.ErrorFault.{error_fault};
ghost use Rattle.subst.specs.Range.{range_of, IsRangeIn};

use crate::expect::{Testing, expect};
use std::alloc::AllocError;
use std::fmt;
use std::test::Fail;
use subst::error::{MissingClosingBrace, MissingVariableName};
use subst::{Error, NoSubstitution, substitute};

/// Expects that a fault's line and column are `want`, such as `1:7`. Also expects that
/// `write_source_highlighting` writes the text that `source_highlighting` returns.
fn expect_position(
    rt: &impl Testing,
    fault: &Error,
    source: &str,
    want: &str,
) -> Result<(), AllocError>
    requires { IsRangeIn source.now (range_of (error_fault fault.now)) }
{
    let (line, column) = fault.source_position(source);
    expect(rt, source, format!(in rt.alloc(); "{line}:{column}"), want);
    let lines = fault.source_highlighting(rt.alloc(), source)?;
    let mut written = String::from_str(rt.alloc(), "> ")?;
    assert!(rt;
        fault
            .write_source_highlighting(&mut written, source)
            .is_ok()
    );
    let written = written.as_str().strip_prefix("> ");
    assert_eq!(rt; written, Some(lines.as_str()), "{source:?}");
    Ok(())
}

/// Expects a fault at `want` when a source is expanded without variables. `expect_position` checks the fault.
fn expect_refused(rt: &impl Testing, source: &str, want: &str) -> Result<(), AllocError> {
    match substitute(rt.alloc(), source, &NoSubstitution) {
        Ok(_) => panic!(rt; "no fault: {source:?}"),
        Err(fault) => expect_position(rt, &fault, source, want),
    }
}

#[test]
fn lines_and_columns(rt: HostRuntime) -> Result<(), Fail> {
    let rows: &[(&str, &str)] = &[
        ("Hello \\world!", "1:7"),
        ("Hello \\❤❤", "1:7"),
        ("Hello world!\\", "1:13"),
        ("emoticon: \\（ ^▽^ ）/", "1:11"),
        ("\\😀", "1:1"),
        ("Hello $!", "1:7"),
        ("Hello ${}!", "1:7"),
        ("Hello ${:fallback}!", "1:7"),
        ("$x${", "1:3"),
        ("$é", "1:1"),
        ("Hello \u{3000}$❤", "1:9"),
        ("Hello ${name)!", "1:13"),
        ("Hello ${name❤", "1:13"),
        ("${aé}", "1:4"),
        ("Hello ${name", "1:8"),
        ("Hello ${name:fallback", "1:8"),
        ("Hello ${name}!", "1:9"),
        ("Hello $name!", "1:8"),
        // A line ends at a line feed, a carriage return, or a carriage return followed by a line feed.
        ("one\nHi $!", "2:4"),
        ("$\n", "1:1"),
        ("a\r\n$", "2:1"),
        ("a\r$", "2:1"),
        ("a\n\r$", "3:1"),
        ("\r\n\r\n a$\r\nb", "3:3"),
        ("a\n\nb\n$", "4:1"),
        ("${a:\n$z}", "2:2"),
        ("\n${a:\n", "2:2"),
        ("x\\\ny", "1:2"),
        ("\\\r\n", "1:1"),
        ("${a\n", "1:4"),
        // A wide character has two columns, and a control character one. A combining character or a joiner
        // has none.
        ("Hello $", "1:7"),
        ("Hello \u{3000}$", "1:9"),
        ("日本語$", "1:7"),
        ("❤$", "1:2"),
        ("e\u{301}$", "1:2"),
        ("\u{200b}$", "1:1"),
        ("a\u{200d}b$", "1:3"),
        ("\t$", "1:2"),
        ("\u{1}\u{7f}$", "1:3"),
        ("\u{85}$", "1:2"),
        ("👩\u{200d}👧$", "1:3"),
    ];
    for &(source, want) in rows {
        expect_refused(&rt, source, want)?;
    }
    Ok(())
}

#[test]
fn columns_of_wide_lines(rt: HostRuntime) -> Result<(), Fail> {
    let rows = [
        ("x", 59, "1:60"),
        ("x", 60, "1:61"),
        ("\u{3000}", 29, "1:59"),
        ("\u{3000}", 30, "1:61"),
    ];
    for (text, count, want) in rows {
        let before = text.repeat(rt.alloc(), count)?;
        let source = format!(in rt.alloc(); "{before}$")?;
        expect_refused(&rt, &source, want)?;
    }
    Ok(())
}

/// Expects that a fault is at `position`, and that `want` is the fault's range, source line and highlighting.
fn expect_report(
    rt: &impl Testing,
    fault: &Error,
    source: &str,
    position: &str,
    want: &str,
) -> Result<(), AllocError>
    requires { IsRangeIn source.now (range_of (error_fault fault.now)) }
{
    expect_position(rt, fault, source, position)?;
    let (range, line) = (fault.source_range(), fault.source_line(source));
    let lines = fault.source_highlighting(rt.alloc(), source)?;
    let actual = format!(in rt.alloc(); "{range:?} of {line:?}\n{lines}");
    expect(rt, source, actual, want);
    Ok(())
}

#[test]
fn range_of_two_lines(rt: HostRuntime) -> Result<(), Fail> {
    let two_lines = Error::from(MissingVariableName {
        position: 1,
        len: 4,
    });
    let want = "1..5 of \"ab\"\n  ab\n   ^\n";
    expect_report(&rt, &two_lines, "ab\ncd", "1:2", want)?;
    Ok(())
}

#[test]
fn ranges_at_the_end_of_a_line(rt: HostRuntime) -> Result<(), Fail> {
    let line_end = Error::from(MissingClosingBrace { position: 2 });
    let want = "2..3 of \"ab\"\n  ab\n    \n";
    expect_report(&rt, &line_end, "ab\ncd", "1:3", want)?;
    expect_report(&rt, &line_end, "a\r\nb", "2:1", "2..3 of \"\"\n  \n  \n")?;
    Ok(())
}

#[test]
fn range_of_out_of_memory(rt: HostRuntime) -> Result<(), Fail> {
    let nowhere = Error::from(AllocError);
    expect_report(&rt, &nowhere, "a\nb", "1:1", "0..0 of \"a\"\n")?;
    Ok(())
}

/// A writer whose first `after` calls succeed, and whose later calls fail.
#[derive(Drop)]
struct Fails {
    after: u8,
}

impl fmt::Write for Fails {
    fn write_str(&mut self, _: &str) -> fmt::Result {
        if self.after == 0 {
            return Err(fmt::Error);
        }
        self.after -= 1;
        Ok(())
    }
}

#[test]
fn failure_of_a_writer_is_handed_on(rt: HostRuntime) {
    let fault = Error::from(MissingVariableName {
        position: 0,
        len: 1,
    });
    for (after, is_written) in [
        (0, false),
        (1, false),
        (2, false),
        (3, false),
        (4, false),
        (9, true),
    ] {
        let written = fault.write_source_highlighting(&mut Fails { after }, "$");
        assert_eq!(rt; written.is_ok(), is_written, "after {after}");
    }
}
