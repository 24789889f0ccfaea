//! Runs of the filter over inputs that are read byte by byte.

use crate::calls::{Show, again, once, print_end, print_result};
use crate::marks::print_out_of_memory;
use std::alloc::{AllocError, Global};
use subst_filter_lib::device::standard::{FromReader, ToWriter};
use subst_filter_lib::engine::{run_bytes, run_text};
use subst_filter_lib::program::run_program;
use subst_filter_lib::run_error::RunError;
use subst_filter_lib::status::OUT_OF_MEMORY;
use subst_filter_lib::values::{Values, values_of_arguments, values_of_pairs};
use subst_testing::fakes::{Drip, Fault, Trickle};
use subst_testing::variables::{ByteValues, Texts, byte_values, owned_pairs, texts};

/// A sentence with a missing variable.
const MISSING: &[u8] = b"Hi ${hi:$name and ${who:$absent}}!";

/// Creates a reader that never fails.
pub fn new_trickle(left: &[u8]) -> Trickle<'_> {
    Trickle {
        left,
        fault: Fault::never(),
    }
}

/// Creates a writer that accepts all bytes and never fails.
pub fn new_drip(alloc: Global) -> Result<Drip, AllocError> {
    Drip::new(alloc, usize::MAX, Fault::never())
}

impl Show for Drip {
    fn show(&self, rt: &HostRuntime, word: &str) {
        let text = str::from_utf8(self.taken.as_slice()).unwrap_or("no text");
        let _ = rt.println(format_args!("{word} {text:?}, {} bytes flushed", self.flushed));
    }
}

impl Show for RunError {
    fn show(&self, rt: &HostRuntime, word: &str) {
        match self {
            RunError::Subst(fault, highlighting) => {
                fault.show(rt, word);
                let _ = rt.println(format_args!("{word} {highlighting:?}"));
            }
            _ => {
                let _ = rt.println(format_args!("{word}: {self}"));
            }
        }
    }
}

fn ran_over_bytes(
    alloc: Global,
    source: &[u8],
    drip: &mut Drip,
    values: &ByteValues<'_>,
) -> Result<(), RunError> {
    let mut input = FromReader::new(new_trickle(source));
    run_bytes(alloc, &mut input, &mut ToWriter::new(drip), values)
}

fn ran_over_text(
    alloc: Global,
    source: &[u8],
    drip: &mut Drip,
    texts: &Texts<'_>,
) -> Result<(), RunError> {
    let mut input = FromReader::new(new_trickle(source));
    run_text(alloc, &mut input, &mut ToWriter::new(drip), texts)
}

fn run_over_bytes(rt: &HostRuntime, name: &str, source: &[u8]) -> Result<(), AllocError> {
    let alloc = rt.alloc();
    let map = byte_values(alloc, "name=the whole round world with all that is in it")?;
    let mut drip = new_drip(alloc)?;
    again!(rt, name, [drip, map],
        Err(RunError::OutOfMemory) => ran_over_bytes(alloc, source, &mut drip, &map));
    Ok(())
}

fn run_over_text(rt: &HostRuntime, name: &str, source: &[u8]) -> Result<(), AllocError> {
    let alloc = rt.alloc();
    let map = texts(
        alloc,
        "name=❤ and the whole round world with all that is in it",
    )?;
    let mut drip = new_drip(alloc)?;
    again!(rt, name, [drip, map],
        Err(RunError::OutOfMemory) => ran_over_text(alloc, source, &mut drip, &map));
    Ok(())
}

/// An exit status of the program.
#[derive(Drop)]
pub struct Status(u8);

impl Show for Status {
    fn show(&self, rt: &HostRuntime, word: &str) {
        let _ = rt.println(format_args!("{word} status {}", self.0));
    }
}

/// The output and the standard error of the program.
#[derive(Drop)]
struct Written {
    output: Drip,
    errors: Drip,
}

impl Written {
    fn new(alloc: Global) -> Result<Self, AllocError> {
        let output = new_drip(alloc)?;
        let errors = new_drip(alloc)?;
        Ok(Written { output, errors })
    }
}

impl Show for Written {
    fn show(&self, rt: &HostRuntime, word: &str) {
        self.output.show(rt, word);
        self.errors.show(rt, word);
    }
}

/// Runs the program with the arguments `line`, the environment `pairs` and the input `Hello $name!`, and
/// returns the exit status.
pub fn status_of_run(
    alloc: Global,
    line: &[String],
    pairs: Vec<(String, String)>,
    output: &mut Drip,
    errors: &mut Drip,
) -> u8 {
    let mut input = FromReader::new(new_trickle(b"Hello $name!"));
    let mut output = ToWriter::new(output);
    let mut errors = ToWriter::new(errors);
    run_program(alloc, line, pairs, &mut input, &mut output, &mut errors)
}

/// Runs the program with the environment `pairs`, and returns the exit status. If an earlier call has taken
/// `pairs`, the environment is `name=world` instead. If the program's only message is that memory ran out,
/// the message is discarded, and the result is an error.
fn ended(
    alloc: Global,
    line: &[String],
    pairs: &mut Option<Vec<(String, String)>>,
    written: &mut Written,
) -> Result<Status, AllocError> {
    let pairs = match pairs.take() {
        Some(pairs) => pairs,
        None => owned_pairs(alloc, &[("name", "world")])?,
    };
    let status = status_of_run(alloc, line, pairs, &mut written.output, &mut written.errors);
    let errors = &mut written.errors;
    if status == OUT_OF_MEMORY && errors.taken.as_slice() == b"subst: out of memory\n".as_slice() {
        *errors = new_drip(alloc)?;
        return Err(AllocError);
    }
    Ok(Status(status))
}

/// Splits a line into arguments.
pub fn arguments_of(alloc: Global, line: &str) -> Result<Vec<String>, AllocError> {
    let mut arguments = Vec::new(alloc);
    for word in line.split(' ') {
        arguments.push(String::from_str(alloc, word)?)?;
    }
    Ok(arguments)
}

impl Show for (String, String) {
    fn show(&self, rt: &HostRuntime, word: &str) {
        let _ = rt.println(format_args!("{word} {}={}", self.0, self.1));
    }
}

impl Show for Values<'_> {
    fn show(&self, rt: &HostRuntime, word: &str) {
        for (name, value) in self.iter() {
            let _ = rt.println(format_args!("{word} {name}={value}"));
        }
    }
}

fn run_after(rt: &HostRuntime, name: &str, line: &str) -> Result<(), AllocError> {
    let alloc = rt.alloc();
    let arguments = arguments_of(alloc, line)?;
    let mut pairs = Some(owned_pairs(alloc, &[("name", "world")])?);
    let mut written = Written::new(alloc)?;
    again!(rt, name, [arguments, written],
        Err(_) => ended(alloc, &arguments, &mut pairs, &mut written));
    Ok(())
}

/// Makes a call as `again!` does, for a result that borrows from the argument.
macro_rules! make_values {
    ($rt:ident, $call:ident, $name:literal => $borrowed:ident) => {
        $borrowed.show($rt, "borrowed");
        match once!($rt, $name => $call($rt.alloc(), $borrowed)) {
            Ok(values) => values.show($rt, "gives"),
            Err(_) => {
                print_out_of_memory($rt);
                $borrowed.show($rt, "borrowed");
                print_result($rt, $call($rt.alloc(), $borrowed));
            }
        }
        $borrowed.show($rt, "borrowed");
        print_end($rt);
    };
}

fn make_values_of_arguments(rt: &HostRuntime, arguments: &Vec<String>) {
    make_values!(rt, values_of_arguments, "values_of_arguments" => arguments);
}

fn make_values_of_pairs(rt: &HostRuntime, pairs: &Vec<(String, String)>) {
    make_values!(rt, values_of_pairs, "values_of_pairs" => pairs);
}

pub fn calls(rt: &HostRuntime) -> Result<(), AllocError> {
    run_over_bytes(rt, "run_bytes", b"Hi ${hi:\\{${who:you}\\}} and $name!")?;
    run_over_bytes(rt, "run_bytes of a plain source", b"Hi {you}!")?;
    run_over_bytes(rt, "run_bytes of a missing variable", MISSING)?;
    run_over_bytes(
        rt,
        "run_bytes of a bad escape",
        b"Hi ${hi:$name and ${who:\\!}}!",
    )?;
    run_over_text(rt, "run_text", "${a:é}: ${b:\\{$name\\}}".as_bytes())?;
    run_over_text(rt, "run_text of a plain source", b"Hi {you}!")?;
    run_over_text(rt, "run_text of a missing variable", MISSING)?;
    run_over_text(rt, "run_text of Hi $!", b"Hi $!")?;
    run_over_text(rt, "run_text of bytes that aren't UTF-8", b"$name\xFF")?;
    run_after(rt, "run_program bytes name=world", "bytes name=world")?;
    run_after(rt, "run_program text name=world", "text name=world")?;
    run_after(rt, "run_program env", "env")?;
    make_values_of_arguments(rt, &arguments_of(rt.alloc(), "name=world")?);
    make_values_of_pairs(rt, &owned_pairs(rt.alloc(), &[("name", "world")])?);
    Ok(())
}
