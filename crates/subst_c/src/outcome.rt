//! The results of calls, as numbers. The numbers never change.

/// The call is done.
pub const DONE: u32 = 0;

/// The source is refused.
pub const REFUSED: u32 = 1;

/// Out of memory.
pub const OUT_OF_MEMORY: u32 = 4;

/// The buffer is too small.
pub const ROOM_TOO_SMALL: u32 = 5;

/// A source or a value that has to be a text isn't UTF-8.
pub const NOT_UTF8: u32 = 6;

/// A position is past the end of the source, or inside a character.
pub const NOT_A_BOUNDARY: u32 = 7;

/// The output of a document isn't confirmed to be right.
pub const NOT_CONFIRMED: u32 = 8;

/// The flags of a parse, or a style's `forms`, `names` or `missing`, aren't a defined number.
pub const NO_SUCH_STYLE: u32 = 9;

/// The cells are no template of a source of this length, or are damaged.
pub const NOT_A_TEMPLATE: u32 = 10;

/// The value of a needed variable hasn't been asked for.
pub const ASKS: u32 = 11;

/// The source has more than `u32::MAX` bytes.
pub const TOO_LONG: u32 = 12;
