//! Helpers for tests of runs. The source of a run is read one byte per call, and the end of the run is
//! described in a text.

use std::alloc::{AllocError, Global};
use std::test::Fail;
use subst_filter_lib::device::standard::{FromReader, ToWriter};
use subst_filter_lib::engine::{run_bytes, run_text};
use subst_filter_lib::run_error::RunError;
use subst_testing::answers::fault_text;
use subst_testing::fakes::{Drip, Fault, Trickle};
use subst_testing::variables::{ByteValues, Texts, byte_values, texts};

type Ended = Result<(), RunError>;

/// The function under test.
#[derive(Clone, Copy)]
pub enum Call {
    RunBytes,
    RunText,
}

pub const CALLS: [Call; 2] = [Call::RunBytes, Call::RunText];

/// A run, with its variables as pairs `a=1,b=2`, and the failing calls of its reader and writer.
#[derive(Clone, Copy)]
pub struct Run<'a> {
    pub call: Call,
    pub source: &'a [u8],
    pub pairs: &'a str,
    pub read: Fault,
    pub write: Fault,
    pub capacity: usize,
}

impl<'a> Run<'a> {
    /// Creates a run in which nothing fails.
    pub fn new(call: Call, source: &'a [u8], pairs: &'a str) -> Self {
        Run {
            call,
            source,
            pairs,
            read: Fault::never(),
            write: Fault::never(),
            capacity: usize::MAX,
        }
    }

    /// Runs the function under test, and expects its end to be described as `expected`.
    pub fn expect(&self, alloc: Global, expected: &str) -> Result<(), Fail> {
        let actual = self.end(alloc)?;
        if actual.as_str() == expected {
            return Ok(());
        }
        let source = String::from_utf8_lossy(alloc, self.source)?;
        let end = actual.as_str();
        Err(Fail::new(format_args!("{source}: expected: {expected}; actual: {end}")))
    }

    fn end(&self, alloc: Global) -> Result<String, AllocError> {
        let mut drip = Drip::new(alloc, self.capacity, self.write)?;
        let ended = match self.call {
            Call::RunBytes => self.over_bytes(alloc, &mut drip, &byte_values(alloc, self.pairs)?),
            Call::RunText => self.over_text(alloc, &mut drip, &texts(alloc, self.pairs)?),
        };
        end_text(alloc, &ended, &drip)
    }

    fn over_bytes(&self, alloc: Global, drip: &mut Drip, variables: &ByteValues<'_>) -> Ended {
        let mut input = FromReader::new(self.reader());
        run_bytes(alloc, &mut input, &mut ToWriter::new(drip), variables)
    }

    fn over_text(&self, alloc: Global, drip: &mut Drip, variables: &Texts<'_>) -> Ended {
        let mut input = FromReader::new(self.reader());
        run_text(alloc, &mut input, &mut ToWriter::new(drip), variables)
    }

    fn reader(&self) -> Trickle<'a> {
        Trickle {
            left: self.source,
            fault: self.read,
        }
    }
}

/// Describes the end of a run: `gives Hello world!`, `read failed`, `write failed after Hello`, or a fault
/// with its highlighting below. If a successful run didn't flush its whole output, or a failed run flushed
/// any bytes, describes how many bytes were flushed.
fn end_text(alloc: Global, ended: &Ended, drip: &Drip) -> Result<String, AllocError> {
    let written = String::from_utf8_lossy(alloc, drip.taken.as_slice())?;
    let written = written.as_str();
    let to_flush = if ended.is_ok() { drip.taken.len() } else { 0 };
    if drip.flushed != to_flush {
        return format!(in alloc; "{} bytes flushed of {written}", drip.flushed);
    }
    match ended {
        Ok(()) => format!(in alloc; "gives {written}"),
        Err(e) if !written.is_empty() => format!(in alloc; "{e} after {written}"),
        Err(RunError::Subst(e, highlighting)) => {
            let fault = fault_text(alloc, e)?;
            format!(in alloc; "{}\n{}", fault.as_str(), highlighting.as_str())
        }
        Err(e) => format!(in alloc; "{e}"),
    }
}

/// Runs `call` over the source of each row with the variables of the row, and expects each run to end as its
/// row describes.
pub fn expect_runs(alloc: Global, call: Call, rows: &[(&str, &str, &str)]) -> Result<(), Fail> {
    for &(source, pairs, expected) in rows {
        Run::new(call, source.as_bytes(), pairs).expect(alloc, expected)?;
    }
    Ok(())
}

/// Runs `run_text` without variables over the source of each row, and expects each run to end as its row
/// describes.
pub fn expect_texts(alloc: Global, rows: &[(&str, &str)]) -> Result<(), Fail> {
    for &(source, expected) in rows {
        Run::new(Call::RunText, source.as_bytes(), "").expect(alloc, expected)?;
    }
    Ok(())
}
