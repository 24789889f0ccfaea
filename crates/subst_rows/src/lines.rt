//! The lines of a text.

ghost use Rattle.std.specs.Prelude.{◌≡◌, ◌+◌, ◌≤◌, ◌<◌, IsTrue, drop, length};
ghost use Rattle.subst_error.specs.Position.{ends_line};
ghost use Rattle.subst_rows.specs.Lines.{ends_line_at, line_ends};

/// A count of the line ends of a text up to a position, which moves forward. A line ends at a line feed, a
/// carriage return, or a carriage return and a line feed.
#[derive(Clone, Copy)]
pub struct Lines<'t> {
    text: &'t [u8],
    at: usize,
    count: usize,
    ghost within: { at ≤ length text.now },
    ghost counted: { count ≡ line_ends at text.now },
    ghost few: { count ≤ at },
}

impl<'t> Lines<'t> {
    /// Creates a count that is at the start of the text.
    pub fn new(text: &'t [u8]) -> Self
        ensures { result.text.now ≡ text.now }
    {
        Lines {
            text,
            at: 0,
            count: 0,
        }
    }

    /// Returns the line of the byte with an offset, from 1. Calls with rising offsets read the text once. An
    /// offset past the end counts as the end.
    pub fn line_at(&mut self, offset: usize) -> usize
        ensures line { offset ≤ length self.old.text.now
            → result ≡ 1 + line_ends offset self.old.text.now }
        ensures text { self.new.text.now ≡ self.old.text.now }
    {
        let offset = offset.min(self.text.len());
        let (from, before) = if offset < self.at {
            (0, 0)
        } else {
            (self.at, self.count)
        };
        let count = before + ends_between(self.text, from, offset);
        *self = Lines {
            text: self.text,
            at: offset,
            count,
        };
        count + 1
    }
}

/// Returns the number of line ends of the text from one offset to another.
fn ends_between(text: &[u8], from: usize, to: usize) -> usize
    requires ordered { from ≤ to }
    requires within { to ≤ length text.now }
    ensures count { line_ends from text.now + result ≡ line_ends to text.now }
    ensures bound { from + result ≤ to }
{
    let mut count = 0;
    for at in from..to {
        count += usize::from(ends_line(&text[at..]));
    }
    count
}

/// Returns whether the first byte of the text ends a line.
fn ends_line(text: &[u8]) -> bool
    ensures { result ≡ ends_line_at text.now }
{
    match text {
        [b'\n', ..] => true,
        [b'\r', rest @ ..] => !rest.starts_with(b"\n"),
        _ => false,
    }
}
