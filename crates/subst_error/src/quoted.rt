//! Characters in single quotes, as errors print them.

ghost use Rattle.std.specs.Fmt.{DisplaysStyledOnOk};
ghost use Rattle.subst_error.specs.Display.{IsQuotedChar, quoted_char};
ghost use Rattle.subst_error.specs.Writing.{WritesSome};

use crate::CharOrByte;
use crate::unpadded::write_unpadded;
use std::fmt;
use std::marker::Model;

/// A character that displays in single quotes, escaped if it isn't printable.
///
/// A byte that isn't ASCII displays as its hexadecimal value, like `'\x81'`.
#[derive(Clone, Copy, Debug)]
pub struct QuotedPrintable {
    character: CharOrByte,
}

impl Model for QuotedPrintable {
    ghost use Rattle.subst_error.specs.declared.CharOrByte.{CharOrByte};

    ghost Value = { CharOrByte };

    ghost view = { λ quoted. quoted.character };

    ghost inverse = { λ character. record { character = character } };
}

impl CharOrByte {
    ghost use Rattle.std.specs.Prelude.{◌≡◌};

    /// Returns the character in single quotes, for display.
    pub fn quoted_printable(&self) -> QuotedPrintable
        ensures character { result ≡ self.now }
    {
        QuotedPrintable { character: *self }
    }
}

impl fmt::Display for QuotedPrintable {
    ghost use Rattle.std.specs.Fmt.{DisplaysOnOk};
    ghost use Rattle.subst_error.specs.Display.{quoted_of, IsQuoted};

    ghost output = { quoted_of };

    ghost styled_output = { λ quoted _. quoted_of quoted };

    #[tactic(auto, using(std::proofs::lemmas::Fmt::hex_byte))]
    fn fmt<W: fmt::Write>(&self, f: &mut fmt::Formatter<W>) -> fmt::Result
        ensures writes { DisplaysOnOk W.write_str_gives f.old result (quoted_of self.now) f.new }
        ensures styled { DisplaysStyledOnOk W.write_str_gives f.old result
            (quoted_of self.now) f.new }
        ensures text { WritesSome W.write_str_gives f.old result (IsQuoted self.now) f.new }
    {
        match self.character {
            CharOrByte::Char(c) => write_quoted(c, f),
            CharOrByte::Byte(b) => {
                if b.is_ascii() {
                    write_quoted(char::from(b), f)
                } else {
                    write_unpadded(format_args!("'\\x{b:02X}'"), f)
                }
            }
        }
    }
}

/// Writes a character in single quotes, as `{:?}` does.
///
/// The contract of `{:?}` covers ASCII alone. So any other character is written without `{:?}`: as its code
/// point if `escape_debug` escapes it, otherwise unchanged.
#[tactic(auto, using(crate::proofs::QuotedLemmas::debug_is_quoted))]
fn write_quoted<W: fmt::Write>(c: char, f: &mut fmt::Formatter<W>) -> fmt::Result
    ensures styled { DisplaysStyledOnOk W.write_str_gives f.old result (quoted_char c) f.new }
    ensures text { WritesSome W.write_str_gives f.old result (IsQuotedChar c) f.new }
{
    if c.is_ascii() {
        write_unpadded(format_args!("{c:?}"), f)
    } else if c.escape_debug().count() == 1 {
        write!(f, "'{c}'")
    } else {
        write!(f, "'\\u{{{:x}}}'", u32::from(c))
    }
}
