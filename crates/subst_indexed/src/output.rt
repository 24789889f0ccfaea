//! Outputs of an expansion: a `Vec` that grows, or a slice. Bytes past the end of the slice are only counted.

ghost use Rattle.std.specs.Prelude.{◌≡◌, ◌+◌, ◌<◌, ◌≤◌, ℕ, List, [], ◌∷◌, length, OnErr, OnOk};
ghost use Rattle.subst_indexed.specs.Output.{Puts};

use std::alloc::AllocError;

/// An output to which bytes are appended.
///
/// Contracts see an output by its ghost members. `holds` relates an output, its first state (of type `First`)
/// and its bytes. `len` is the number of bytes, and `capacity` is the capacity in bytes.
pub trait Output {
    ghost First: { Type 0 };

    ghost holds: { Self → First → List ℕ → Type 0 };

    ghost len: { Self → ℕ };

    ghost capacity: { Self → ℕ };

    /// Appends bytes.
    ///
    /// # Errors
    ///
    /// If the capacity is too small and can't grow. Nothing is appended then.
    fn append_bytes(&mut self, bytes: &[u8]) -> Result<(), AllocError>
        ensures ok { OnOk result (Puts holds self.old bytes.now self.new) }
        ensures err { OnErr result (Puts holds self.old [] self.new) }
        ensures len { OnOk result (len self.new ≡ len self.old + length bytes.now) }
        ensures full { OnErr result (capacity self.old < len self.old + length bytes.now) }
        ensures capacity { capacity self.old ≤ capacity self.new };

    /// Appends a byte, as `append_bytes` does.
    ///
    /// # Errors
    ///
    /// As `append_bytes`.
    fn append_byte(&mut self, byte: u8) -> Result<(), AllocError>
        ensures ok { OnOk result (Puts holds self.old (byte ∷ []) self.new) }
        ensures err { OnErr result (Puts holds self.old [] self.new) }
        ensures len { OnOk result (len self.new ≡ len self.old + 1) }
        ensures full { OnErr result (capacity self.old ≤ len self.old) }
        ensures capacity { capacity self.old ≤ capacity self.new };
}

/// Contracts see a `Vec` as its items.
impl Output for Vec<u8> {
    ghost use Rattle.std.specs.Prelude.{◌≡◌, vec_capacity, vec_len};

    ghost First = { Unit {0} };

    ghost holds = { λ output _ x. output.items ≡ x };

    ghost len = { vec_len };

    ghost capacity = { vec_capacity };

    #[inline(always)]
    fn append_bytes(&mut self, bytes: &[u8]) -> Result<(), AllocError> {
        self.extend_from_slice(bytes)
    }

    #[inline(always)]
    fn append_byte(&mut self, byte: u8) -> Result<(), AllocError> {
        Ok(self.push(byte)?)
    }
}

/// A slice that is written from its start. Bytes past its end are only counted, and its contents are then
/// unspecified.
#[derive(Drop)]
pub struct SliceOutput<'r> {
    pub slice: &'r mut [u8],
    pub written: usize,
}

/// Contracts compare a slice with its first state. If the bytes written fit, the slice begins with them, and
/// its rest is unchanged.
impl<'r> Output for SliceOutput<'r> {
    ghost use Rattle.std.specs.Prelude.{◌-◌, ◌^◌};
    ghost use Rattle.subst_indexed.specs.SliceOutput.{SliceHolds, SliceAtFirst};

    ghost First = { SliceAtFirst };

    ghost holds = { λ output first x. SliceHolds output.slice.ghost_name output.slice.now
        output.written first x };

    ghost len = { λ output. output.written };

    ghost capacity = { λ _. 2 ^ 64 - 1 };

    fn append_bytes(&mut self, bytes: &[u8]) -> Result<(), AllocError> {
        let Some(end) = self.written.checked_add(bytes.len()) else {
            return Err(AllocError);
        };
        if end <= self.slice.len() {
            self.slice[self.written..end].copy_from_slice(bytes);
        }
        self.written = end;
        Ok(())
    }

    fn append_byte(&mut self, byte: u8) -> Result<(), AllocError> {
        let Some(end) = self.written.checked_add(1) else {
            return Err(AllocError);
        };
        if end <= self.slice.len() {
            self.slice[self.written] = byte;
        }
        self.written = end;
        Ok(())
    }
}
