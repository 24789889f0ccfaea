//! The exit statuses of the program.

/// The source was read to its end, and its expansion was written.
pub const DONE: u8 = 0;

/// The source is refused.
pub const REFUSED: u8 = 1;

/// The arguments of the command line are wrong.
pub const WRONG_ARGUMENTS: u8 = 2;

/// The input or the output failed.
pub const DEVICE_FAILED: u8 = 3;

/// Memory ran out.
pub const OUT_OF_MEMORY: u8 = 4;
