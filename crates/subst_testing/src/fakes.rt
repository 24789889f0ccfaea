//! A fake reader and a fake writer, which move one byte per call and fail from a given call on.

use std::alloc::{AllocError, Global};
use std::io;
use std::io::{ErrorKind, Read, Write};

/// The failure of a device: every call from number `call` on, counted from 0, fails with an error of `kind`.
#[derive(Clone, Copy)]
pub struct Fault {
    pub call: usize,
    pub kind: ErrorKind,
}

impl Fault {
    /// Creates the fault of a device that never fails.
    pub fn never() -> Self {
        Fault {
            call: usize::MAX,
            kind: ErrorKind::Other,
        }
    }

    /// Counts a call, or returns the error if the call has to fail.
    fn count_call(&mut self) -> io::Result<()> {
        if self.call == 0 {
            return Err(io::Error::from(self.kind));
        }
        self.call -= 1;
        Ok(())
    }
}

/// A fake reader, which returns one byte of `left` per call.
#[derive(Drop)]
pub struct Trickle<'a> {
    pub left: &'a [u8],
    pub fault: Fault,
}

impl Read for Trickle<'_> {
    fn read(&mut self, buf: &mut [u8]) -> io::Result<usize> {
        self.fault.count_call()?;
        let Some((first, left)) = self.left.split_first() else {
            return Ok(0);
        };
        if buf.is_empty() {
            return Ok(0);
        }
        buf[0] = *first;
        self.left = left;
        Ok(1)
    }
}

/// A fake writer, which accepts one byte per call and keeps it. `flushed` is the number of bytes flushed.
#[derive(Drop)]
pub struct Drip {
    pub taken: Vec<u8>,
    pub flushed: usize,
    /// The number of bytes that the writer accepts. Later calls accept none, but don't fail.
    pub capacity: usize,
    pub fault: Fault,
}

impl Drip {
    /// Creates a writer that accepts `capacity` bytes. Its buffer has capacity for the first 128.
    pub fn new(alloc: Global, capacity: usize, fault: Fault) -> Result<Self, AllocError> {
        let (taken, flushed) = (Vec::with_capacity(alloc, 128)?, 0);
        Ok(Drip {
            taken,
            flushed,
            capacity,
            fault,
        })
    }
}

impl Write for Drip {
    fn write(&mut self, buf: &[u8]) -> io::Result<usize> {
        self.fault.count_call()?;
        match buf.first() {
            Some(first) if self.taken.len() < self.capacity => {
                self.taken.push(*first)?;
                Ok(1)
            }
            _ => Ok(0),
        }
    }

    fn flush(&mut self) -> io::Result<()> {
        self.fault.count_call()?;
        self.flushed = self.taken.len();
        Ok(())
    }
}
