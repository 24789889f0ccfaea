//! The byte order mark.

ghost use Rattle.std.specs.Prelude.{◌≡◌};
ghost use Rattle.csv.specs.Reading.{is_bom, strip_bom};

/// Returns a text without the byte order mark at its start, if it has one.
pub(crate) fn without_mark(text: &[u8]) -> &[u8]
    ensures { result.now ≡ strip_bom text.now }
{
    if text.len() < 3 {
        return text;
    }
    if is_mark(text[0], text[1], text[2]) {
        &text[3..]
    } else {
        text
    }
}

/// Returns whether three bytes are a byte order mark.
fn is_mark(a: u8, b: u8, c: u8) -> bool
    ensures { result ≡ is_bom a b c }
{
    a == 0xef && b == 0xbb && c == 0xbf
}
