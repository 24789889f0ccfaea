//! Standard output as an output device.

ghost use Rattle.std.specs.Prelude.{◌≡◌, OnOk, is_some};
ghost use Rattle.subst_cli.specs.Status.{Raises};
ghost use Rattle.subst_filter_lib.specs.declared.status.TheConstants.{DEVICE_FAILED};

use crate::report::Report;
use std::alloc::AllocError;
use std::io;
use std::io::{ErrorKind, Write};
use subst_filter_lib::device::{ByteOutput, Failed};

/// An output device that reports its failure.
pub(crate) trait Printer: ByteOutput {
    /// Reports that the device failed.
    ///
    /// # Errors
    ///
    /// If allocation fails.
    fn report_failure(&self, report: &mut Report<'_>) -> Result<(), AllocError>
        ensures { OnOk result (Raises report.old.worst report.new.worst DEVICE_FAILED) };
}

/// Standard output, over a writer of the standard library. An interrupted write is repeated.
#[derive(Drop)]
pub(crate) struct StandardOutput<W> {
    writer: W,
    is_flushed: bool,
    /// The error of the last failed call.
    error: Option<io::Error>,
}

impl<W: Write> StandardOutput<W> {
    /// Creates an output over `writer`. The output hasn't failed.
    pub fn new(writer: W) -> Self {
        StandardOutput {
            writer,
            is_flushed: false,
            error: None,
        }
    }
}

impl<W: Write> ByteOutput for StandardOutput<W> {
    ghost written = { λ output. W.contents output.writer };

    ghost has_failed = { λ output. is_some output.error };

    ghost is_flushed = { λ output. output.is_flushed };

    /// Writes a prefix of `bytes`. Fails if the writer fails, or if it writes nothing although `bytes` isn't
    /// empty.
    fn write(&mut self, bytes: &[u8]) -> Result<usize, Failed> {
        self.is_flushed = false;
        for _ in 0..u64::MAX {
            match self.writer.write(bytes) {
                Ok(n) if n > 0 || bytes.is_empty() => return Ok(n),
                Err(e) if e.kind() == ErrorKind::Interrupted => {}
                Ok(_) => break,
                Err(e) => {
                    self.error = Some(e);
                    return Err(Failed);
                }
            }
        }
        self.error = Some(io::Error::from(ErrorKind::WriteZero));
        Err(Failed)
    }

    fn flush(&mut self) -> Result<(), Failed> {
        match self.writer.flush() {
            Ok(()) => {
                self.is_flushed = true;
                Ok(())
            }
            Err(e) => {
                self.error = Some(e);
                Err(Failed)
            }
        }
    }

    fn failed(&self) -> bool {
        self.error.is_some()
    }
}

impl<W: Write> Printer for StandardOutput<W> {
    fn report_failure(&self, report: &mut Report<'_>) -> Result<(), AllocError> {
        match &self.error {
            Some(e) => report.failed("<stdout>", e),
            None => report.failed_since("<stdout>", "write failed"),
        }
    }
}
