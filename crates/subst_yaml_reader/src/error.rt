//! The errors of reading a text.

ghost use Rattle.subst_yaml_reader.specs.declared.error.Halt.TheVariants.{OutOfMemory as HaltedByMemory};
ghost use Rattle.subst_yaml_reader.specs.declared.error.Halt.TheVariants.{Refused as HaltedByText};
ghost use Rattle.std.specs.Prelude.{◌≡◌, ◌+◌, Some, length};
ghost use Rattle.subst_yaml_reader.specs.Display.{display_of_error, display_of_fault, display_of_reason};

use crate::event::Span;
use std::alloc::AllocFailed;
use std::error::Error as ErrorTrait;
use std::fmt;

/// The reason why a text is refused.
#[derive(Clone, Copy, Debug, PartialEq, Eq)]
pub enum Reason {
    /// A tab is in the indentation, or between `- ` and the token after it.
    Tab,
    /// A line's indentation matches that of no open collection.
    Indentation,
    /// A key or an item is where only a value can be.
    NotAValue,
    /// A mapping is continued by something other than a key with a colon, or a sequence by something other
    /// than an item.
    NotAnEntry,
    /// Text comes after a value.
    TextAfterValue,
    /// Text follows `...` without a `---` between them.
    TextAfterEnd,
    /// A key is written after `?`, as in `? key`.
    ComplexKey,
    /// A colon has no key before it, as in `: value`.
    NoKey,
    /// A collection is a key.
    CollectionKey,
    /// A key spans lines, or is longer than 1,024 bytes.
    LongKey,
    /// `%` begins a line or a value.
    Directive,
    /// The name of an anchor, an alias or a tag isn't accepted.
    Name,
    /// A node has two anchors or two tags, or an alias has an anchor or a tag.
    Properties,
    /// A quote isn't closed before the end of its document.
    Quote,
    /// An escape between double quotes isn't known.
    Escape,
    /// An opening bracket isn't closed, or a closing bracket or a comma is where none can be.
    Bracket,
    /// Unquoted text in brackets is continued on another line.
    FlowLines,
    /// Text follows the header of a block scalar on the same line, or a block scalar is the whole document.
    BlockHeader,
    /// A line of only spaces comes before the first line of text after `|` or `>`.
    BlockSpaces,
    /// A value begins with a character that can't begin one.
    Indicator,
    /// The text has a character that not every reader accepts.
    Character,
    /// A carriage return has no line feed after it.
    CarriageReturn,
    /// A zero byte: the text may be UTF-16.
    Zero,
}

impl Reason {
    /// Returns the text of the reason.
    fn text(self) -> &'static str
        ensures { result.now ≡ display_of_reason self }
    {
        match self {
            Reason::Tab => "a tab in the indentation",
            Reason::Indentation => "an indentation that no earlier line has",
            Reason::NotAValue =>
                "a key or an item in place of a value; quote values that contain ': '",
            Reason::NotAnEntry => "neither a key nor an item of the collection at this indentation",
            Reason::TextAfterValue => "text after a value",
            Reason::TextAfterEnd => "text after '...' without '---'",
            Reason::ComplexKey => "a key after '?' isn't supported",
            Reason::NoKey => "a value without a key isn't supported",
            Reason::CollectionKey =>
                "a collection as a key isn't supported; is this a Helm or Jinja template?",
            Reason::LongKey =>
                "a key over several lines or of more than 1,024 bytes isn't supported",
            Reason::Directive => "directives aren't supported, nor values that begin with '%'",
            Reason::Name => "an unsupported name of an anchor, alias or tag",
            Reason::Properties => "a second anchor or tag, or an anchor or tag at an alias",
            Reason::Quote => "a missing closing quote",
            Reason::Escape => "an unknown escape",
            Reason::Bracket => "a missing closing bracket, or a bracket or comma out of place",
            Reason::FlowLines => "a value over several lines in brackets; quote it",
            Reason::BlockHeader =>
                "text on the same line after '|' or '>' isn't supported, nor a document that is only a '|' or '>' block",
            Reason::BlockSpaces =>
                "a line of spaces before the first line of text after '|' or '>'",
            Reason::Indicator => "a value can't begin with this character; quote it",
            Reason::Character => "a character that some YAML readers reject",
            Reason::CarriageReturn => "a carriage return without a line feed",
            Reason::Zero => "a zero byte; is this UTF-16?",
        }
    }
}

impl fmt::Display for Reason {
    ghost output = { λ reason. Some (display_of_reason reason) };

    ghost styled_output = { λ reason _. Some (display_of_reason reason) };

    fn fmt<W: fmt::Write>(&self, f: &mut fmt::Formatter<W>) -> fmt::Result {
        f.write_str(self.text())
    }
}

/// A refusal of a text: its reason and its place.
#[derive(Clone, Copy, Debug, PartialEq, Eq)]
pub struct Fault {
    /// The reason why the text is refused.
    pub reason: Reason,
    /// The span of the refused character, empty at the end of the text.
    pub span: Span,
    /// The line of the character, from 1.
    pub line: usize,
}

impl fmt::Display for Fault {
    ghost output = { λ fault. Some (display_of_fault fault) };

    fn fmt<W: fmt::Write>(&self, f: &mut fmt::Formatter<W>) -> fmt::Result {
        let line = self.line;
        let reason = self.reason;
        write!(f, "line {line}: {reason}")
    }
}

/// The error of reading a text.
#[derive(Clone, Copy, Debug, PartialEq, Eq)]
pub enum Error {
    /// The text is refused.
    Refused(Fault),
    /// An allocation failed.
    OutOfMemory,
}

impl fmt::Display for Error {
    ghost output = { λ error. Some (display_of_error error) };

    fn fmt<W: fmt::Write>(&self, f: &mut fmt::Formatter<W>) -> fmt::Result {
        match self {
            Error::Refused(fault) => write!(f, "{fault}"),
            Error::OutOfMemory => f.write_str("out of memory"),
        }
    }
}

impl ErrorTrait for Error {}

/// The reason why reading stops before the end of a text.
#[derive(Clone, Copy, Drop)]
pub(crate) enum Halt {
    /// The text is refused. The fields are the reason, and the number of bytes from the refused character to
    /// the end of the text.
    Refused(Reason, usize),
    /// An allocation failed.
    OutOfMemory,
}

impl Halt {
    /// Creates the refusal of the character at which `text`, the rest of the source, begins.
    pub(crate) fn at(reason: Reason, text: &[u8]) -> Halt
        ensures { result ≡ HaltedByText reason (length text.now) }
    {
        Halt::Refused(reason, text.len())
    }

    /// Creates the refusal of the byte before `text`, the rest of the source.
    pub(crate) fn before(reason: Reason, text: &[u8]) -> Halt
        ensures { result ≡ HaltedByText reason (length text.now + 1) }
    {
        Halt::Refused(reason, text.len() + 1)
    }
}

impl<T: Drop> From<AllocFailed<T>> for Halt {
    ghost from_gives = { λ _ halt. halt ≡ HaltedByMemory };

    fn from(_failed: AllocFailed<T>) -> Halt {
        Halt::OutOfMemory
    }
}
