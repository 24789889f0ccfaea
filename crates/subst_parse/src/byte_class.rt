//! Classes of bytes: bytes of names, plain bytes, and plain bytes except braces. The parser finds runs of
//! bytes of one class. Each class consists of the bytes that its definition in `specs/` states.

ghost use Rattle.std.specs.Prelude.{◌≡◌, ◌↔◌, ℕ, IsTrue};
ghost use Rattle.subst_language.specs.Language.Bytes as bytes;
ghost use Rattle.subst_language.specs.Language.Name as name;
ghost use Rattle.subst_parse.specs.Inner as inner;
ghost use Rattle.subst_parse.specs.Lanes.{HasOutside};

use crate::search::{either, equal_to};
use std::simd::prelude::*;

/// A table that has each name byte at its own index, and commas elsewhere.
static NAME_BYTES: [u8; 256] = *b"\
    ,,,,,,,,,,,,,,,,,,,,,,,,,,,,,,,,\
    ,,,,,,,,,,,,,,,,0123456789,,,,,,\
    ,ABCDEFGHIJKLMNOPQRSTUVWXYZ,,,,_\
    ,abcdefghijklmnopqrstuvwxyz,,,,,\
    ,,,,,,,,,,,,,,,,,,,,,,,,,,,,,,,,\
    ,,,,,,,,,,,,,,,,,,,,,,,,,,,,,,,,\
    ,,,,,,,,,,,,,,,,,,,,,,,,,,,,,,,,\
    ,,,,,,,,,,,,,,,,,,,,,,,,,,,,,,,,";

/// A table that has the backslash, the dollar and the braces at their own indexes, and commas elsewhere.
static MARKERS: [u8; 256] = *b"\
    ,,,,,,,,,,,,,,,,,,,,,,,,,,,,,,,,\
    ,,,,$,,,,,,,,,,,,,,,,,,,,,,,,,,,\
    ,,,,,,,,,,,,,,,,,,,,,,,,,,,,\\,,,\
    ,,,,,,,,,,,,,,,,,,,,,,,,,,,{,},,\
    ,,,,,,,,,,,,,,,,,,,,,,,,,,,,,,,,\
    ,,,,,,,,,,,,,,,,,,,,,,,,,,,,,,,,\
    ,,,,,,,,,,,,,,,,,,,,,,,,,,,,,,,,\
    ,,,,,,,,,,,,,,,,,,,,,,,,,,,,,,,,";

/// A class of bytes. The parser searches for the first byte that isn't in the class.
pub(crate) trait ByteClass {
    ghost is_in: { ℕ → Type 0 };

    /// Returns whether a byte is in the class.
    fn has(byte: u8) -> bool
        ensures { IsTrue result ↔ is_in byte };
}

/// A class that tests 32 bytes at a time.
pub(crate) trait VectorClass: ByteClass {
    /// Returns a vector in which a lane's top bit is set if and only if the lane's byte in `bytes` isn't in
    /// the class.
    fn outside(bytes: u8x32) -> u8x32
        ensures { HasOutside Self.is_in bytes result };
}

/// The bytes that have no meaning of their own outside braces: all but `$` and `\`.
pub(crate) struct PlainBytes;

impl ByteClass for PlainBytes {
    ghost use Rattle.subst_language.specs.Language.Bytes.{IsPlain};

    ghost is_in = { IsPlain };

    #[inline(always)]
    fn has(byte: u8) -> bool {
        byte != b'$' && byte != b'\\'
    }
}

impl VectorClass for PlainBytes {
    #[inline(always)]
    fn outside(bytes: u8x32) -> u8x32 {
        either(equal_to(bytes, b'$'), equal_to(bytes, b'\\'))
    }
}

/// The bytes that have no meaning of their own inside a default: all but `$`, `\` and the braces.
pub(crate) struct InnerBytes;

impl ByteClass for InnerBytes {
    ghost use Rattle.subst_parse.specs.Inner.{IsInner};

    ghost is_in = { IsInner };

    #[inline(always)]
    fn has(byte: u8) -> bool {
        is_inner(byte)
    }
}

impl VectorClass for InnerBytes {
    #[inline(always)]
    fn outside(bytes: u8x32) -> u8x32 {
        let items = either(equal_to(bytes, b'$'), equal_to(bytes, b'\\'));
        let braces = either(equal_to(bytes, b'{'), equal_to(bytes, b'}'));
        either(items, braces)
    }
}

/// The bytes of names: ASCII letters, digits and underscores.
pub(crate) struct NameBytes;

impl ByteClass for NameBytes {
    ghost use Rattle.subst_language.specs.Language.Name.{IsNameByte};

    ghost is_in = { IsNameByte };

    #[inline(always)]
    fn has(byte: u8) -> bool {
        is_name_byte(byte)
    }
}

/// Returns whether a byte is an ASCII letter, an ASCII digit or an underscore.
#[inline(always)]
fn is_name_byte(b: u8) -> bool
    ensures { result ≡ name.is_name_byte b }
{
    NAME_BYTES[b as usize] != b','
}

/// Returns whether a byte is none of `\`, `$`, `{` and `}`.
#[inline(always)]
fn is_inner(b: u8) -> bool
    ensures { result ≡ inner.is_inner b }
{
    MARKERS[b as usize] == b','
}

/// Returns whether a backslash may escape the byte.
#[inline(always)]
pub(crate) fn is_escapable(b: u8) -> bool
    ensures { result ≡ bytes.is_escapable b }
{
    b == b'\\' || b == b'$' || b == b'{' || b == b'}' || b == b':'
}
