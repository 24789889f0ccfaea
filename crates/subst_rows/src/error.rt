//! The errors of reading rows.

/// An error of reading rows. Lines are those of the rows' text, from 1.
#[derive(Clone, Copy, Debug, PartialEq, Eq)]
pub enum RowsError {
    /// Allocation failed.
    OutOfMemory,
    /// The text isn't UTF-8. The first byte that isn't is on this line.
    NotUtf8 {
        line: usize,
    },
    /// A quote isn't closed. It is on this line.
    OpenQuote {
        line: usize,
    },
    /// The table has no head.
    NoHead,
    /// The row that begins on this line has more or fewer cells than the head has names.
    Length {
        line: usize,
        cells: usize,
        names: usize,
    },
    /// The line isn't JSON.
    NotJson {
        line: usize,
    },
    /// An object on the line has a key twice.
    KeyTwice {
        line: usize,
    },
    /// The line is JSON, but no object.
    NotAnObject {
        line: usize,
    },
    /// The member with the name that has this number is an array or an object.
    Nested {
        line: usize,
        number: usize,
    },
}
