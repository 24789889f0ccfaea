//! Classes of bytes and characters.

ghost use Rattle.std.specs.Prelude.{◌≡◌, slice_index};
ghost use Rattle.subst_yaml_reader.specs.Bytes.{begins, is_apart, is_blank, is_bracket, is_control, is_document_mark, is_foreign, is_indicator, is_line_end, is_line_over, is_mark, is_mark_of_three, is_name_byte, is_odd};
ghost use Rattle.subst_yaml_reader.specs.Search.{is_inner};

/// A table from bytes to bytes. Blanks, line ends, the colon and `,[]{}` are mapped to themselves, and all
/// other bytes to a dot.
static OUTER_BYTES: [u8; 256] = *b"\
    .........\t\n..\r..................\
    \x20...........,.............:.....\
    ...........................[.]..\
    ...........................{.}..\
    ................................\
    ................................\
    ................................\
    ................................";

/// Returns whether a byte is a space or a tab.
pub(crate) fn is_blank(byte: u8) -> bool
    ensures { result ≡ is_blank byte }
{
    byte == b' ' || byte == b'\t'
}

/// Returns whether a byte is a line feed or a carriage return. In a text that every reader accepts, a line
/// feed follows each carriage return.
pub(crate) fn is_line_end(byte: u8) -> bool
    ensures { result ≡ is_line_end byte }
{
    byte == b'\n' || byte == b'\r'
}

/// Returns whether a byte is one of `,[]{}`, which end unquoted text in brackets.
pub(crate) fn is_bracket(byte: u8) -> bool
    ensures { result ≡ is_bracket byte }
{
    byte == b',' || byte == b'[' || byte == b']' || byte == b'{' || byte == b'}'
}

/// Returns whether a byte belongs to unquoted text, whatever follows it, and isn't a blank.
#[inline(always)]
pub(crate) fn is_inner(byte: u8) -> bool
    ensures { result ≡ is_inner byte }
{
    OUTER_BYTES[byte as usize] == b'.'
}

/// Returns whether a byte is one of `,[]{}#&*!|>'"%@` or the grave accent, which can't begin unquoted text.
pub(crate) fn is_indicator(byte: u8) -> bool
    ensures { result ≡ is_indicator byte }
{
    is_bracket(byte)
        || byte == b'#'
        || byte == b'&'
        || byte == b'*'
        || byte == b'!'
        || byte == b'|'
        || byte == b'>'
        || byte == b'\''
        || byte == b'"'
        || byte == b'%'
        || byte == b'@'
        || byte == b'`'
}

/// Returns whether a byte may be in the name of an anchor or an alias, or of a tag if `in_tag`.
pub(crate) fn is_name_byte(byte: u8, in_tag: bool) -> bool
    ensures { result ≡ is_name_byte in_tag byte }
{
    byte.is_ascii_alphanumeric()
        || byte == b'_'
        || byte == b'-'
        || in_tag && (byte == b'.' || byte == b'/' || byte == b':')
}

/// Returns whether the text begins with this byte.
pub(crate) fn begins(text: &[u8], byte: u8) -> bool
    ensures { result ≡ begins byte text.now }
{
    match text {
        [] => false,
        [first, ..] => *first == byte,
    }
}

/// Returns whether the text is empty or begins with a line end.
pub(crate) fn is_line_over(text: &[u8]) -> bool
    ensures { result ≡ is_line_over text.now }
{
    match text {
        [] => true,
        [first, ..] => is_line_end(*first),
    }
}

/// Returns whether the text is empty, or begins with a blank or a line end.
pub(crate) fn is_apart(text: &[u8]) -> bool
    ensures { result ≡ is_apart text.now }
{
    match text {
        [] => true,
        [first, ..] => is_blank(*first) || is_line_end(*first),
    }
}

/// Returns whether the text begins with this byte, followed by white space or the end.
pub(crate) fn is_mark(text: &[u8], byte: u8) -> bool
    ensures { result ≡ is_mark byte text.now }
{
    match text {
        [] => false,
        [first, rest @ ..] => *first == byte && is_apart(rest),
    }
}

/// Returns whether the text begins with this byte three times, followed by white space or the end.
pub(crate) fn is_mark_of_three(text: &[u8], byte: u8) -> bool
    ensures { result ≡ is_mark_of_three byte text.now }
{
    match text {
        [first, second, rest @ ..] => *first == byte && *second == byte && is_mark(rest, byte),
        _ => false,
    }
}

/// Returns whether the text begins with `---` or `...`, followed by white space or the end.
pub(crate) fn is_document_mark(text: &[u8]) -> bool
    ensures { result ≡ is_document_mark text.now }
{
    is_mark_of_three(text, b'-') || is_mark_of_three(text, b'.')
}

/// Returns the byte at an index of the text, or 0 if the text ends before that index.
fn byte_at(text: &[u8], index: usize) -> u8
    ensures { result ≡ slice_index text.now index }
{
    if index < text.len() { text[index] } else { 0 }
}

/// Returns whether `byte`, which `next` follows, is a control character other than a tab or a part of a line
/// end.
fn is_control(byte: u8, next: u8) -> bool
    ensures { result ≡ is_control byte next }
{
    byte == 127 || byte < 32 && byte != b'\t' && byte != b'\n' && !(byte == b'\r' && next == b'\n')
}

/// Returns whether three bytes begin with one of U+0080 to U+009F, U+2028, U+2029, U+FEFF, U+FFFE and U+FFFF.
fn is_odd(byte: u8, next: u8, third: u8) -> bool
    ensures { result ≡ is_odd byte next third }
{
    byte == 194 && next < 160
        || byte == 226 && next == 128 && (third == 168 || third == 169)
        || byte == 239 && next == 187 && third == 191
        || byte == 239 && next == 191 && (third == 190 || third == 191)
}

/// Returns whether a byte begins a character that not every reader accepts. `rest` is the text after the
/// byte.
pub(crate) fn is_foreign(byte: u8, rest: &[u8]) -> bool
    ensures { result ≡ is_foreign byte rest.now }
{
    if byte >= b' ' && byte < 127 {
        return false;
    }
    is_control(byte, byte_at(rest, 0)) || is_odd(byte, byte_at(rest, 0), byte_at(rest, 1))
}
