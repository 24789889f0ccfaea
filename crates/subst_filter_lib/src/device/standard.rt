//! Readers and writers of the standard library as devices.

ghost use Rattle.std.specs.Prelude.{◌≡◌, false};

use super::{ByteInput, ByteOutput, Failed};
use std::io::{Read, Write};

/// An input device over a reader of the standard library. Each call reads from the reader once, so an
/// interrupted read is a failure.
#[derive(Drop)]
pub struct FromReader<R> {
    reader: R,
    failed: bool,
}

impl<R: Read> FromReader<R> {
    /// Creates an input over the rest of `reader`. The input hasn't failed.
    pub fn new(reader: R) -> Self
        ensures left { ⟦<FromReader<R> as ByteInput>⟧.left result ≡ R.remaining reader }
        ensures unfailed { ⟦<FromReader<R> as ByteInput>⟧.has_failed result ≡ false }
    {
        FromReader {
            reader,
            failed: false,
        }
    }
}

impl<R: Read> ByteInput for FromReader<R> {
    ghost left = { λ input. R.remaining input.reader };

    ghost has_failed = { λ input. input.failed };

    fn read(&mut self, buf: &mut [u8]) -> Result<usize, Failed> {
        match self.reader.read(buf) {
            Ok(n) => Ok(n),
            Err(_) => {
                self.failed = true;
                Err(Failed)
            }
        }
    }

    fn failed(&self) -> bool {
        self.failed
    }
}

/// An output device over a writer of the standard library. Each call writes to the writer once, so an
/// interrupted write is a failure.
#[derive(Drop)]
pub struct ToWriter<W> {
    writer: W,
    failed: bool,
    flushed: bool,
}

impl<W: Write> ToWriter<W> {
    /// Creates an output over `writer`. The output hasn't failed.
    pub fn new(writer: W) -> Self
        ensures written { ⟦<ToWriter<W> as ByteOutput>⟧.written result ≡ W.contents writer }
        ensures unfailed { ⟦<ToWriter<W> as ByteOutput>⟧.has_failed result ≡ false }
        ensures unflushed { ⟦<ToWriter<W> as ByteOutput>⟧.is_flushed result ≡ false }
    {
        ToWriter {
            writer,
            failed: false,
            flushed: false,
        }
    }
}

impl<W: Write> ByteOutput for ToWriter<W> {
    ghost written = { λ output. W.contents output.writer };

    ghost has_failed = { λ output. output.failed };

    ghost is_flushed = { λ output. output.flushed };

    /// Writes a prefix of `bytes`. Fails if the writer fails, or if it writes nothing although `bytes` isn't
    /// empty.
    fn write(&mut self, bytes: &[u8]) -> Result<usize, Failed> {
        self.flushed = false;
        match self.writer.write(bytes) {
            Ok(n) if n > 0 || bytes.is_empty() => Ok(n),
            _ => {
                self.failed = true;
                Err(Failed)
            }
        }
    }

    fn flush(&mut self) -> Result<(), Failed> {
        match self.writer.flush() {
            Ok(()) => {
                self.flushed = true;
                Ok(())
            }
            Err(_) => {
                self.failed = true;
                Err(Failed)
            }
        }
    }

    fn failed(&self) -> bool {
        self.failed
    }
}
