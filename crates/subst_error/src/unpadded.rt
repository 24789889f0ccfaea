//! Short texts, written without padding or truncation.

ghost use Rattle.std.specs.Fmt.{DisplaysOnOk, DisplaysStyledOnOk};

use std::fmt;
use std::fmt::{InlineText, Write};

/// The maximum length in bytes of a text that [`write_unpadded`] writes.
const TEXT_CAPACITY: usize = 16;

/// Writes the text of a value, ignoring the formatter's width and precision.
///
/// # Errors
///
/// If the writer fails, or if the text is longer than [`TEXT_CAPACITY`] bytes. Nothing is written of a
/// longer text.
pub(crate) fn write_unpadded<D: fmt::Display + Drop, W: fmt::Write>(
    value: D,
    f: &mut fmt::Formatter<W>,
) -> fmt::Result
    ensures writes { DisplaysOnOk W.write_str_gives f.old result (D.output value) f.new }
    ensures styled { DisplaysStyledOnOk W.write_str_gives f.old result (D.output value) f.new }
{
    let mut text = InlineText::<TEXT_CAPACITY>::new();
    text.write(value)?;
    f.write_str(text.as_str())
}
