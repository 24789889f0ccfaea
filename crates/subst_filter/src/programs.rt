//! Tests of the whole program: its exit status, output and standard error, over fake streams.

use std::alloc::{AllocError, Global};
use std::io::ErrorKind;
use std::test::Fail;
use subst::error::{
    CharOrByte, Error, ExpectedCharacter, MissingVariableName, NoSuchVariable, UnexpectedCharacter,
};
use subst_filter_lib::device::standard::{FromReader, ToWriter};
use subst_filter_lib::program::run_program;
use subst_testing::fakes::{Drip, Fault, Trickle};
use subst_testing::variables::owned_pairs;

fn arguments(alloc: Global, texts: &[&str]) -> Result<Vec<String>, AllocError> {
    let mut arguments = Vec::new(alloc);
    for text in texts {
        arguments.push(String::from_str(alloc, text)?)?;
    }
    Ok(arguments)
}

/// The arguments of a command line, a source, and the failing calls of the reader and the writer.
#[derive(Clone, Copy)]
struct Program<'a> {
    line: &'a [&'a str],
    source: &'a [u8],
    read: Fault,
    write: Fault,
}

impl<'a> Program<'a> {
    /// Creates a program in which nothing fails.
    fn new(line: &'a [&'a str], source: &'a [u8]) -> Self {
        Program {
            line,
            source,
            read: Fault::never(),
            write: Fault::never(),
        }
    }

    /// Runs the program, and expects its end to be `expected`: status, output and standard error, separated
    /// by bars.
    fn expect(&self, alloc: Global, expected: &str) -> Result<(), Fail> {
        let actual = self.end(alloc)?;
        if actual.as_str() == expected {
            return Ok(());
        }
        let (line, source) = (self.line, String::from_utf8_lossy(alloc, self.source)?);
        let end = actual.as_str();
        Err(Fail::new(format_args!("{line:?} over {source}: expected: {expected}; actual: {end}")))
    }

    fn end(&self, alloc: Global) -> Result<String, AllocError> {
        let mut output = Drip::new(alloc, usize::MAX, self.write)?;
        let mut errors = Vec::new(alloc);
        let status = self.run(alloc, &mut output, &mut errors)?;
        end_text(alloc, status, output.taken.as_slice(), errors.as_slice())
    }

    fn run(
        &self,
        alloc: Global,
        output: &mut Drip,
        errors: &mut Vec<u8>,
    ) -> Result<u8, AllocError> {
        let line = arguments(alloc, self.line)?;
        let pairs = owned_pairs(alloc, &[("A", "1"), ("A", "2"), ("B", "")])?;
        let (left, fault) = (self.source, self.read);
        let mut input = FromReader::new(Trickle { left, fault });
        let mut output = ToWriter::new(output);
        let mut errors = ToWriter::new(errors);
        Ok(run_program(alloc, &line, pairs, &mut input, &mut output, &mut errors))
    }
}

fn end_text(alloc: Global, status: u8, output: &[u8], errors: &[u8]) -> Result<String, AllocError> {
    let output = String::from_utf8_lossy(alloc, output)?;
    let errors = String::from_utf8_lossy(alloc, errors)?;
    format!(in alloc; "{status}|{output}|{errors}")
}

/// Runs the program over the source of each row, with the row's arguments, and expects the end that the row
/// states.
fn expect_ends(alloc: Global, rows: &[(&[&str], &[u8], &str)]) -> Result<(), Fail> {
    for &(line, source, expected) in rows {
        Program::new(line, source).expect(alloc, expected)?;
    }
    Ok(())
}

#[test]
fn wrong_arguments_print_the_usage_line(rt: HostRuntime) -> Result<(), Fail> {
    let lines: &[&[&str]] = &[
        &[],
        &[""],
        &["a=1"],
        &["Bytes"],
        &["bytes", "a=1", "name"],
        &["text", "name"],
        &["env", "A=1"],
        &["env", "env"],
        &["bytes", "name"],
    ];
    let expected = "2||usage: subst_filter bytes|text|env [NAME=VALUE]...\n";
    for line in lines {
        Program::new(line, b"a").expect(rt.alloc(), expected)?;
    }
    Ok(())
}

#[test]
fn variables_are_filled_in_where_the_task_takes_the_source(rt: HostRuntime) -> Result<(), Fail> {
    let rows: &[(&[&str], &[u8], &str)] = &[
        (&["bytes", "name=world"], b"Hello $name!", "0|Hello world!|"),
        (&["bytes", "A=1", "A=2"], b"$A", "0|2|"),
        (&["bytes", "=x", "a=b=c"], b"$a", "0|b=c|"),
        (&["bytes", "e=", "="], b"<$e>", "0|<>|"),
        (&["bytes"], b"", "0||"),
        (&["bytes", "a=1"], b"a}:{?", "0|a}:{?|"),
        (&["text", "A=1", "A=2"], b"$A", "0|2|"),
        (&["text", "=x", "a=b=c"], b"$a", "0|b=c|"),
        (&["text"], b"\xC3\xA9", "0|é|"),
        (&["text"], b"a${x?}b", "0|ab|"),
        (&["env"], b"a", "0|a|"),
        (&["env"], b"$A<$B>${C?}", "0|1<>|"),
        (&["text"], b"\xFF", "1||subst: input is not UTF-8\n"),
        (&["env"], b"\xFF", "1||subst: input is not UTF-8\n"),
    ];
    expect_ends(rt.alloc(), rows)
}

/// Expects a program with the arguments `line`, over `source`, to print `fault` and its highlighting `lines`.
fn expect_refusal<'a>(
    alloc: Global,
    line: &'a [&'a str],
    source: &'a [u8],
    fault: Error,
    lines: &str,
) -> Result<(), Fail> {
    let expected = format!(in alloc; "1||subst: {fault}\n{lines}")?;
    Program::new(line, source).expect(alloc, expected.as_str())
}

fn absent(alloc: Global, position: usize, name: &str) -> Result<Error, AllocError> {
    let name = String::from_str(alloc, name)?;
    Ok(Error::from(NoSuchVariable { position, name }))
}

#[test]
fn fault_of_a_source_is_printed(rt: HostRuntime) -> Result<(), Fail> {
    let alloc = rt.alloc();
    let (position, len) = (0, 1);
    let fault = Error::from(MissingVariableName { position, len });
    expect_refusal(alloc, &["bytes"], b"$", fault, "")?;
    let (position, character) = (4, CharOrByte::Char('y'));
    let unexpected = UnexpectedCharacter {
        position,
        character,
        expected: ExpectedCharacter::new("a closing brace ('}')"),
    };
    let lines = "  ${x?y}\n      ^\n";
    expect_refusal(alloc, &["text"], b"${x?y}", Error::from(unexpected), lines)
}

#[test]
fn missing_variable_of_a_source_is_printed(rt: HostRuntime) -> Result<(), Fail> {
    let alloc = rt.alloc();
    let rows: &[(&[&str], &[u8], &str, &str)] = &[
        (&["bytes"], b"$A", "A", ""),
        (&["text"], b"$A", "A", "  $A\n   ^\n"),
        (&["env"], b"${A}\n$C", "C", "  $C\n   ^\n"),
    ];
    for &(line, source, name, lines) in rows {
        expect_refusal(alloc, line, source, absent(alloc, 1, name)?, lines)?;
    }
    Ok(())
}

/// Expects each task to have the end `expected` if `read` and `write` are the failing calls of its reader and
/// its writer. Without failures, the output of each task is `a1`.
fn expect_failure(alloc: Global, read: Fault, write: Fault, expected: &str) -> Result<(), Fail> {
    let lines: [&[&str]; 3] = [&["bytes", "A=1"], &["text", "A=1"], &["env"]];
    for line in lines {
        let mut program = Program::new(line, b"a$A");
        program.read = read;
        program.write = write;
        program.expect(alloc, expected)?;
    }
    Ok(())
}

#[test]
fn failed_read_or_write_is_printed(rt: HostRuntime) -> Result<(), Fail> {
    let (alloc, kind, never) = (rt.alloc(), ErrorKind::Other, Fault::never());
    expect_failure(
        alloc,
        Fault { call: 1, kind },
        never,
        "3||subst: read failed\n",
    )?;
    let rows = [
        (0, "3||subst: write failed\n"),
        (1, "3|a|subst: write failed\n"),
        (2, "3|a1|subst: write failed\n"),
        (3, "0|a1|"),
    ];
    for (call, expected) in rows {
        expect_failure(alloc, never, Fault { call, kind }, expected)?;
    }
    Ok(())
}
