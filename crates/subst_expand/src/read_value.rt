//! Readers of the bytes of a variable's value, which is a byte slice or a text.

ghost use Rattle.std.specs.Prelude.{◌≡◌, ℕ, List};

use std::convert::{AsSlice, AsStr};

/// A reader of the bytes of a value.
///
/// Contracts see the bytes of a value (`read`), and a property that these bytes have as a whole (`is_read`),
/// for example that they are UTF-8.
pub trait ReadValue<V> {
    ghost read: { V → List ℕ };

    ghost is_read: { List ℕ → Type 0 };

    /// Returns the bytes of a value.
    fn bytes_of(value: &V) -> &[u8]
        ensures bytes { result.now ≡ read value.now }
        ensures property { is_read result.now };
}

/// The reader of values that are byte slices.
pub struct SliceBytes;

impl<V: AsSlice<u8>> ReadValue<V> for SliceBytes {
    ghost read = { V.items };

    ghost is_read = { λ _. Unit {0} };

    fn bytes_of(value: &V) -> &[u8] {
        value.as_slice()
    }
}

/// The reader of values that are texts.
pub struct TextBytes;

impl<V: AsStr> ReadValue<V> for TextBytes {
    ghost use Rattle.std.specs.Str.{IsUtf8};

    ghost read = { V.text };

    ghost is_read = { IsUtf8 };

    fn bytes_of(value: &V) -> &[u8] {
        value.as_str().as_bytes()
    }
}
