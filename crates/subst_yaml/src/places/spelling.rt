//! Divides a token into pieces, and computes how many bytes of the string each piece spells. No contract
//! covers this. Instead, the calling module confirms each span before returning it.

use std::ops::Range;
use subst_yaml_reader::Style;

/// The style of a value. For a value after `|` or `>`, `indent` is the number of spaces before each of its
/// lines.
#[derive(Clone, Copy)]
pub(crate) struct Scalar {
    pub(crate) style: Style,
    pub(crate) indent: usize,
}

/// The span that spells a range of a string.
#[derive(Drop)]
pub(crate) struct Found {
    /// The byte range in the source.
    pub(crate) place: Range<usize>,
    /// The range of the string that is spelled at `place`: the range that was looked for, without a line
    /// break at its end.
    pub(crate) short: Range<usize>,
}

/// A piece of a token.
#[derive(Clone, Copy)]
struct Piece {
    /// The length of the piece in the token, in bytes.
    len: usize,
    /// The length of the part of the string that the piece spells, in bytes.
    spelled: usize,
    /// Whether the piece is a line break, with the white space around it.
    is_break: bool,
}

impl Piece {
    /// Creates a piece that isn't a line break.
    fn of(len: usize, spelled: usize) -> Piece {
        Piece {
            len,
            spelled,
            is_break: false,
        }
    }

    /// Returns whether the piece is verbatim: it isn't a line break, and spells as many bytes as it has.
    fn is_verbatim(&self) -> bool {
        !self.is_break && self.len == self.spelled
    }
}

/// A position in a token, which advances piece by piece.
#[derive(Clone, Copy)]
pub(crate) struct Cursor<'t> {
    scalar: Scalar,
    /// The rest of the token, from the next piece on.
    rest: &'t [u8],
    /// The next piece, or what is left of it, and `None` at the end of the token's content.
    piece: Option<Piece>,
    /// The offset of the next piece in the source.
    place: usize,
    /// The offset of the next piece in the string.
    offset: usize,
    /// Whether a blank follows the indentation of the current line after `|` or `>`, or `None` before the
    /// first line.
    is_indented: Option<bool>,
}

impl<'t> Cursor<'t> {
    /// Creates the position at the start of a token's content, after the quote or the header, if any. The
    /// line end of a header is part of the content. `start` is the offset of the token in the source.
    pub(crate) fn new(scalar: Scalar, token: &'t [u8], start: usize) -> Cursor<'t> {
        let len = opening_len(scalar.style, token);
        let rest = token.get(len..).unwrap_or(&[]);
        Cursor {
            scalar,
            rest,
            piece: first_piece(scalar, rest, None),
            place: start.saturating_add(len),
            offset: 0,
            is_indented: None,
        }
    }

    /// Advances to the end of a range of the string. Returns the range's span, or `None` if it isn't found.
    pub(crate) fn find(&mut self, range: &Range<usize>) -> Option<Found> {
        self.pass_to(range.start);
        if self.offset != range.start {
            return None;
        }
        let start = self.place;
        let end = self.pass_until(range.end)?;
        Some(Found {
            place: start..self.place,
            short: range.start..end,
        })
    }

    /// Advances to the character at an offset of the string, past any bytes before it that spell nothing.
    fn pass_to(&mut self, offset: usize) {
        for _ in 0..self.rest.len() {
            match self.piece {
                Some(piece) if self.offset.saturating_add(piece.spelled) <= offset => self.pass(
                    piece,
                ),
                Some(piece) => {
                    self.pass_part(piece, offset);
                    return;
                }
                None => return,
            }
        }
    }

    /// Advances to an offset of the string, or only to the start of a line break that contains the offset or
    /// ends there. Returns the offset reached, or `None` if `offset` is past the string's end or within an
    /// escape.
    fn pass_until(&mut self, offset: usize) -> Option<usize> {
        for _ in 0..self.rest.len() {
            if self.offset >= offset {
                break;
            }
            let piece = self.piece?;
            if self.offset.saturating_add(piece.spelled) < offset {
                self.pass(piece);
            } else if piece.is_break {
                return Some(self.offset);
            } else if piece.is_verbatim() {
                self.pass_part(piece, offset);
            } else {
                self.pass(piece);
            }
        }
        if self.offset == offset {
            Some(offset)
        } else {
            None
        }
    }

    /// Advances within a piece to an offset of the string, if the piece is verbatim.
    fn pass_part(&mut self, piece: Piece, offset: usize) {
        let len = offset.saturating_sub(self.offset);
        if !piece.is_verbatim() || len == 0 {
            return;
        }
        self.advance(len, len);
        if len >= piece.len {
            self.piece = first_piece(self.scalar, self.rest, self.is_indented);
        } else {
            let left = piece.len.saturating_sub(len);
            self.piece = Some(Piece::of(left, left));
        }
    }

    /// Advances past `piece` to the next piece.
    fn pass(&mut self, piece: Piece) {
        self.advance(piece.len, piece.spelled);
        if piece.is_break {
            self.is_indented = Some(is_blank(self.rest));
        }
        self.piece = first_piece(self.scalar, self.rest, self.is_indented);
    }

    /// Advances by `len` bytes of the token and `spelled` bytes of the string.
    fn advance(&mut self, len: usize, spelled: usize) {
        self.rest = self.rest.get(len..).unwrap_or(&[]);
        self.place = self.place.saturating_add(len);
        self.offset = self.offset.saturating_add(spelled);
    }
}

/// Returns the length of a token's opening quote or header, in bytes, or 0 if it has neither. The header is
/// the line of `|` or `>`, without its line end.
fn opening_len(style: Style, token: &[u8]) -> usize {
    match style {
        Style::Plain | Style::Alias => 0,
        Style::Single | Style::Double => 1,
        Style::Literal | Style::Folded => token
            .iter()
            .take_while(|byte| **byte != b'\n' && **byte != b'\r')
            .count(),
    }
}

/// Returns the first piece of the rest of a token, or `None` at the end of its content.
fn first_piece(scalar: Scalar, rest: &[u8], is_indented: Option<bool>) -> Option<Piece> {
    match (scalar.style, rest) {
        (_, []) | (Style::Double, [b'"', ..]) | (Style::Alias, _) => None,
        (Style::Single, [b'\'', b'\'', ..]) => Some(Piece::of(2, 1)),
        (Style::Single, [b'\'', ..]) => None,
        (Style::Double, [b'\\', after @ ..]) => Some(escape(after)),
        (Style::Literal | Style::Folded, [b'\n' | b'\r', ..]) => {
            Some(lines(scalar, rest, is_indented))
        }
        (Style::Plain | Style::Single | Style::Double, [b' ' | b'\t' | b'\n' | b'\r', ..]) => {
            Some(white_space(rest))
        }
        _ => Some(Piece::of(1, 1)),
    }
}

/// Returns the length of the white space at the start of a text, in bytes.
fn white_len(text: &[u8]) -> usize {
    text.iter()
        .take_while(|byte| matches!(**byte, b' ' | b'\t' | b'\n' | b'\r'))
        .count()
}

/// Returns the number of line feeds in a text.
fn line_feeds(text: &[u8]) -> usize {
    text.iter().filter(|byte| **byte == b'\n').count()
}

/// Returns the number of bytes that line feeds spell when they are folded.
fn joined_len(line_feeds: usize) -> usize {
    if line_feeds == 1 {
        1
    } else {
        line_feeds.saturating_sub(1)
    }
}

/// Returns one piece for the white space at the start of a text.
fn white_space(text: &[u8]) -> Piece {
    let len = white_len(text);
    match line_feeds(text.get(..len).unwrap_or(&[])) {
        0 => Piece::of(len, len),
        feeds => Piece {
            len,
            spelled: joined_len(feeds),
            is_break: true,
        },
    }
}

/// Returns the piece for an escape whose backslash is right before `text`.
fn escape(text: &[u8]) -> Piece {
    match text {
        [b'\n' | b'\r', ..] => {
            let len = white_len(text);
            Piece {
                len: len.saturating_add(1),
                spelled: line_feeds(text.get(..len).unwrap_or(&[])).saturating_sub(1),
                is_break: true,
            }
        }
        [b'x', digits @ ..] => hex_escape(digits, 2),
        [b'u', digits @ ..] => hex_escape(digits, 4),
        [b'U', digits @ ..] => hex_escape(digits, 8),
        [b'N' | b'_', ..] => Piece::of(2, 2),
        [b'L' | b'P', ..] => Piece::of(2, 3),
        _ => Piece::of(2, 1),
    }
}

/// Returns the piece for a hexadecimal escape. Its digits are the first `count` bytes of `digits`.
fn hex_escape(digits: &[u8], count: usize) -> Piece {
    let mut value = 0u32;
    for digit in digits.iter().take(count) {
        let digit = (*digit as char).to_digit(16).unwrap_or(0);
        value = value.saturating_mul(16).saturating_add(digit);
    }
    let spelled = match char::from_u32(value) {
        Some(character) => character.len_utf8(),
        None => 1,
    };
    Piece::of(count.saturating_add(2), spelled)
}

/// Returns one piece for the line ends at the start of a text, including the indentation after each of them.
fn lines(scalar: Scalar, text: &[u8], is_indented: Option<bool>) -> Piece {
    let mut rest = text;
    let mut feeds = 0usize;
    for _ in 0..text.len() {
        rest = match rest {
            [b'\r', b'\n', after @ ..] | [b'\n', after @ ..] => after,
            _ => break,
        };
        feeds = feeds.saturating_add(1);
        let spaces = rest
            .iter()
            .take(scalar.indent)
            .take_while(|byte| **byte == b' ')
            .count();
        rest = rest.get(spaces..).unwrap_or(&[]);
    }
    let spelled = match is_indented {
        None => feeds.saturating_sub(1),
        Some(is_before) if matches!(scalar.style, Style::Folded) && !is_before && !is_blank(rest) =>
            { joined_len(feeds) }
        Some(_) => feeds,
    };
    Piece {
        len: text.len().saturating_sub(rest.len()).max(1),
        spelled,
        is_break: true,
    }
}

/// Returns whether a text begins with a blank.
fn is_blank(text: &[u8]) -> bool {
    matches!(text, [b' ' | b'\t', ..])
}
