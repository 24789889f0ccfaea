//! Packed parts, which take 16 bytes each with 32-bit offsets and indexes, or 32 bytes each with 64-bit ones.
//! Contracts state the part that a packed part unpacks to.

ghost use Rattle.std.specs.Prelude.{◌≡◌, ◌<◌, ◌^◌, ℕ};
ghost use Rattle.subst_expand.specs.Packed.{same_number, unpacked};
ghost use Rattle.subst_language.specs.Parts.Sink.{FitsBelow};

use subst_language::{Part, Span};

/// A type for the offsets and indexes in parts. It can hold each number below `limit`.
pub trait Offset: Copy {
    ghost value: { Self → ℕ };

    ghost limit: { ℕ };

    /// Converts into a `usize`.
    fn to_usize(self) -> usize
        ensures { result ≡ value self };

    /// Converts from a `usize`.
    fn from_usize(number: usize) -> Self
        requires { number < limit }
        ensures { value result ≡ number };
}

impl Offset for u32 {
    ghost value = { same_number };

    ghost limit = { 2 ^ 32 };

    #[inline(always)]
    fn to_usize(self) -> usize {
        self as usize
    }

    #[inline(always)]
    fn from_usize(number: usize) -> u32 {
        number as u32
    }
}

impl Offset for usize {
    ghost value = { same_number };

    ghost limit = { 2 ^ 64 };

    #[inline(always)]
    fn to_usize(self) -> usize {
        self
    }

    #[inline(always)]
    fn from_usize(number: usize) -> usize {
        number
    }
}

/// A packed part, with offsets and indexes of type `O`.
#[derive(Clone, Copy)]
pub(crate) enum PackedPart<O> {
    Literal { start: O, end: O },
    Escaped(u8),
    Variable { start: O, end: O },
    Default { start: O, end: O, next: O },
}

// `PackedPart` has its fields in the variants themselves, since a struct in a variant would take more bytes.
const _: () = prove!(size_of::<PackedPart<u32>>() == 16);

impl<O: Offset> PackedPart<O> {
    /// Packs a part, whose offsets and indexes must be below the limit of `O`.
    #[inline(always)]
    pub fn pack(part: Part) -> Self
        requires { FitsBelow O.limit part }
        ensures { unpacked O.value result ≡ part }
    {
        match part {
            Part::Literal(Span { start, end }) => PackedPart::Literal {
                start: O::from_usize(start),
                end: O::from_usize(end),
            },
            Part::Escaped(byte) => PackedPart::Escaped(byte),
            Part::Variable(Span { start, end }) => PackedPart::Variable {
                start: O::from_usize(start),
                end: O::from_usize(end),
            },
            Part::Default {
                name: Span { start, end },
                next,
            } => PackedPart::Default {
                start: O::from_usize(start),
                end: O::from_usize(end),
                next: O::from_usize(next),
            },
        }
    }

    /// Converts back into the part that was packed.
    #[inline(always)]
    pub fn unpack(self) -> Part
        ensures { result ≡ unpacked O.value self }
    {
        match self {
            PackedPart::Literal { start, end } => Part::Literal(span(start, end)),
            PackedPart::Escaped(byte) => Part::Escaped(byte),
            PackedPart::Variable { start, end } => Part::Variable(span(start, end)),
            PackedPart::Default { start, end, next } => Part::Default {
                name: span(start, end),
                next: next.to_usize(),
            },
        }
    }
}

/// Returns the span from `start` to `end`, converted into `usize`.
#[inline(always)]
fn span<O: Offset>(start: O, end: O) -> Span
    ensures { result ≡ record { start = O.value start; end = O.value end } }
{
    Span {
        start: start.to_usize(),
        end: end.to_usize(),
    }
}
