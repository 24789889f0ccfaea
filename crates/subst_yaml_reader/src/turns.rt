//! A turn, which reads one token, and the steps before the first turn.

ghost use Rattle.std.specs.Prelude.{◌≡◌, ◌≢◌, ◌↔◌, ◌≤◌, Some, None, IfErr, IfOk, length, option_map};
ghost use Rattle.subst_yaml_reader.specs.Reading.{after_directive, after_version, directive_end, events_of, finish, is_at_line, read, turn};
ghost use Rattle.subst_yaml_reader.specs.Refusal.{IsInside, IsRefused};
ghost use Rattle.subst_yaml_reader.specs.Reader.{state_of};
ghost use Rattle.subst_yaml_reader.specs.declared.error.Halt.TheVariants.{OutOfMemory};
ghost use Rattle.subst_yaml_reader.specs.declared.error.Error.TheVariants.{OutOfMemory as MemoryError};

use crate::bytes::{is_foreign, is_mark_of_three};
use crate::error::{Error, Fault, Halt, Reason};
use crate::event::{Event, Span};
use crate::reader::Reader;
use crate::runs::{after_lines, is_text};
use crate::scalar::line_end_of;
use std::alloc::Global;

impl Reader {
    /// Reads a token. Returns the text from the next token on.
    #[tactic(auto, unfolding(crate::specs::Reading::turn))]
    pub(crate) fn turn<'t>(&mut self, text: &'t [u8]) -> Result<&'t [u8], Halt>
        ensures ok { IfOk result (λ rest. turn (state_of self.old) text.now
            ≡ Some (state_of self.new, rest.now)) }
        ensures err { IfErr result (λ halt. halt ≢ OutOfMemory
            → turn (state_of self.old) text.now ≡ None) }
    {
        match self.innermost_bracket() {
            None => self.block_turn(text),
            Some(_) => self.flow_turn(text),
        }
    }
}

/// Returns the text after `%YAML 1.1` or `%YAML 1.2` at its start, or `None` if it begins with neither.
fn after_version(text: &[u8]) -> Option<&[u8]>
    ensures { option_map (λ rest. rest.now) result ≡ after_version text.now }
{
    if text.starts_with(b"%YAML 1.1") || text.starts_with(b"%YAML 1.2") {
        Some(text.split_at(9).1)
    } else {
        None
    }
}

/// Returns the text from the end of its first line on. Returns `None` if that line isn't `%YAML 1.1` or
/// `%YAML 1.2`, with or without a comment.
fn directive_end(text: &[u8]) -> Option<&[u8]>
    ensures { option_map (λ rest. rest.now) result ≡ directive_end text.now }
{
    line_end_of(after_version(text)?)
}

/// Returns whether `text` begins at the start of a line. `line` is the length of the source from the start of
/// the line in which `text` begins.
fn is_at_line(line: usize, text: &[u8]) -> bool
    ensures { result ≡ is_at_line (line, text.now) }
{
    line.saturating_sub(text.len()) == 0
}

/// Skips the directive `%YAML 1.1` or `%YAML 1.2` if `---` follows it. Returns the number of bytes from the
/// start of the next token's line to the source's end, and the text from that token on. If nothing is
/// skipped, returns the arguments.
#[tactic(auto, unfolding(crate::specs::Reading::after_directive))]
pub(crate) fn after_directive(line: usize, text: &[u8]) -> (usize, &[u8])
    ensures { after_directive (line, text.now) ≡ (result.0, result.1.now) }
{
    let Some(end) = directive_end(text) else {
        return (line, text);
    };
    let (begin, next) = after_lines(end, 0, true);
    if is_at_line(line, text) && is_at_line(begin, next) && is_mark_of_three(next, b'-') {
        (begin, next)
    } else {
        (line, text)
    }
}

/// Returns the refusal of the first character that not every YAML reader accepts. The text has to contain
/// such a character.
pub(crate) fn foreign(text: &[u8]) -> Halt {
    let mut rest = text;
    while let [first, tail @ ..] = rest {
        if is_foreign(*first, tail) {
            let reason = match *first {
                b'\r' => Reason::CarriageReturn,
                0 => Reason::Zero,
                _ => Reason::Character,
            };
            return Halt::at(reason, rest);
        }
        rest = tail;
    }
    Halt::at(Reason::Character, rest)
}

/// Converts a halt into an error. A refusal has the span and the line of the refused character in `source`.
pub(crate) fn error_of(source: &[u8], halt: Halt) -> Error
    ensures out_of_memory { result ≡ MemoryError ↔ halt ≡ OutOfMemory }
    ensures span { IsInside result source.now }
{
    match halt {
        Halt::OutOfMemory => Error::OutOfMemory,
        Halt::Refused(reason, left) => {
            let start = source.len().saturating_sub(left);
            let (before, after) = source.split_at(start);
            let lines = before.iter().filter(|byte| **byte == b'\n').count();
            let end = start + character_len(after);
            let span = Span { start, end };
            Error::Refused(Fault {
                reason,
                span,
                line: lines + 1,
            })
        }
    }
}

/// Returns the length in bytes of a text's first character, or 0 if the text is empty.
fn character_len(text: &[u8]) -> usize
    ensures { result ≤ length text.now }
{
    let len = match text {
        [] => 0,
        [first, ..] if *first < 0xC0 => 1,
        [first, ..] if *first < 0xE0 => 2,
        [first, ..] if *first < 0xF0 => 3,
        _ => 4,
    };
    len.min(text.len())
}
