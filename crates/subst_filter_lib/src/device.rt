//! Traits of devices: one to read bytes from, and one to write bytes to.

ghost use Rattle.std.specs.Prelude.{◌≡◌, ◌≤◌, ◌<◌, ℕ, List, Option, Bool, true, false, length, IfOk, OnOk, OnErr};
ghost use Rattle.std.specs.Io.KnownBytes.{ReadConsumes, WriteAppends, Keeps};

pub mod standard;

/// The error of a call whose device failed. It doesn't state the cause.
#[derive(Clone, Copy, Debug, PartialEq, Eq)]
pub struct Failed;

/// A device to read bytes from.
pub trait ByteInput {
    // The bytes still to be read, or `None` if they aren't known.
    ghost left: { Self → Option (List ℕ) };

    // Whether an earlier call of this input has returned `Failed`.
    ghost has_failed: { Self → Bool };

    /// Reads the next bytes into the start of `buf`, and returns their number. The number is 0 at the end of
    /// the input or if `buf` is empty, and only then.
    ///
    /// # Errors
    ///
    /// [`Failed`] if the device fails. The bytes still to be read are then unchanged.
    fn read(&mut self, buf: &mut [u8]) -> Result<usize, Failed>
        ensures bound { IfOk result (λ n. n ≤ length buf.new) }
        ensures bytes { ReadConsumes (left self.old) (left self.new) result buf.new }
        ensures ok { OnOk result (has_failed self.new ≡ has_failed self.old) }
        ensures err { OnErr result (has_failed self.new ≡ true) };

    /// Returns whether an earlier call of this input has returned [`Failed`].
    fn failed(&self) -> bool
        ensures failed { result ≡ has_failed self.now };
}

/// A device to write bytes to.
pub trait ByteOutput {
    // The bytes written so far, or `None` if they aren't known.
    ghost written: { Self → Option (List ℕ) };

    // Whether an earlier call of this output has returned `Failed`.
    ghost has_failed: { Self → Bool };

    // Whether a flush has succeeded since the last call of `write`.
    ghost is_flushed: { Self → Bool };

    /// Writes a prefix of `bytes`, and returns its length: at least 1, unless `bytes` is empty.
    ///
    /// # Errors
    ///
    /// [`Failed`] if the device fails. No byte was then written.
    fn write(&mut self, bytes: &[u8]) -> Result<usize, Failed>
        ensures bound { IfOk result (λ n. n ≤ length bytes.now) }
        ensures some { IfOk result (λ n. 0 < length bytes.now → 0 < n) }
        ensures bytes { WriteAppends (written self.old) (written self.new) result bytes.now }
        ensures unflushed { is_flushed self.new ≡ false }
        ensures ok { OnOk result (has_failed self.new ≡ has_failed self.old) }
        ensures err { OnErr result (has_failed self.new ≡ true) };

    /// Flushes all bytes written so far.
    ///
    /// # Errors
    ///
    /// [`Failed`] if the device fails.
    fn flush(&mut self) -> Result<(), Failed>
        ensures bytes { Keeps (written self.old) (written self.new) }
        ensures flushed { OnOk result (is_flushed self.new ≡ true) }
        ensures unflushed { OnErr result (is_flushed self.new ≡ is_flushed self.old) }
        ensures ok { OnOk result (has_failed self.new ≡ has_failed self.old) }
        ensures err { OnErr result (has_failed self.new ≡ true) };

    /// Returns whether an earlier call of this output has returned [`Failed`].
    fn failed(&self) -> bool
        ensures failed { result ≡ has_failed self.now };
}
