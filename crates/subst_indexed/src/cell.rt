//! The cells of an indexed template, and the parts that they keep.

ghost use Rattle.std.specs.Prelude.{◌≡◌, Some};
ghost use Rattle.subst_indexed.specs.Cell.{decoded};

/// A cell of an indexed template: four numbers, whose meaning depends on `kind`.
#[repr(C)]
#[derive(Clone, Copy)]
pub struct Cell {
    pub kind: u32,
    pub first: u32,
    pub second: u32,
    pub number: u32,
}

/// The kind of a cell that keeps a literal: its range in the source, from `first` to `second`.
pub const LITERAL: u32 = 0;

/// The kind of a cell that keeps an escaped byte, `first`.
pub const ESCAPED: u32 = 1;

/// The kind of a cell that keeps a required variable: the range of its name, and its number.
pub const VARIABLE: u32 = 2;

/// The kind of a cell that keeps a variable with a default: the number of cells of the default, `first`, and
/// the variable's number.
pub const DEFAULT: u32 = 3;

/// The kind of a cell that keeps the span of the first use of a name.
pub const NAME: u32 = 4;

/// The kind of a template's head, which has the format's version: the bytes `SUB` and 1. The head also has
/// the length of the source, the number of parts, and the check sum.
pub const HEAD: u32 = 0x0142_5553;

/// A part of a template, as a cell keeps it. Offsets are byte offsets in the source, from 0.
#[derive(Clone, Copy)]
pub enum NumberedPart {
    /// A range of the source that is copied to the output.
    Literal { start: u32, end: u32 },
    /// The byte after a backslash.
    Escaped(u8),
    /// A required variable: the range of its name, and its number.
    Variable { start: u32, end: u32, number: u32 },
    /// A variable with a default. The `jump` cells after this one are the default's, and are skipped if the
    /// variable has a value.
    Default { jump: u32, number: u32 },
}

impl Cell {
    /// Returns the cell that keeps a part.
    pub fn of(part: NumberedPart) -> Cell
        ensures { decoded result ≡ Some part }
    {
        let (kind, first, second, number) = match part {
            NumberedPart::Literal { start, end } => (LITERAL, start, end, 0),
            NumberedPart::Escaped(byte) => (ESCAPED, u32::from(byte), 0, 0),
            NumberedPart::Variable { start, end, number } => (VARIABLE, start, end, number),
            NumberedPart::Default { jump, number } => (DEFAULT, jump, 0, number),
        };
        Cell {
            kind,
            first,
            second,
            number,
        }
    }

    /// Returns the part that the cell keeps, or `None` if it keeps none.
    #[inline(always)]
    pub fn decode(self) -> Option<NumberedPart>
        ensures { result ≡ decoded self }
    {
        match self.kind {
            LITERAL => Some(NumberedPart::Literal {
                start: self.first,
                end: self.second,
            }),
            ESCAPED => Some(NumberedPart::Escaped(u8::try_from(self.first).ok()?)),
            VARIABLE => Some(NumberedPart::Variable {
                start: self.first,
                end: self.second,
                number: self.number,
            }),
            DEFAULT => Some(NumberedPart::Default {
                jump: self.first,
                number: self.number,
            }),
            _ => None,
        }
    }
}
