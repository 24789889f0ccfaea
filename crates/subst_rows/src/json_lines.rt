//! JSON Lines: a text with an object on each line, whose members are the cells of a row.

ghost use Rattle.std.specs.Prelude.{◌≡◌, ◌+◌, ◌<◌, ◌^◌, [], IfSome, length, ℕ};
ghost use Rattle.csv.specs.Reading.{strip_bom};
ghost use Rattle.subst_rows.specs.JsonLines.{Follows, IsNext, is_blank, is_space, row_if, rows_from};

use crate::mark::without_mark;
use memchr::memchr;
use std::marker::Model;

/// A line of a text.
#[derive(Clone, Copy)]
pub struct Line<'t> {
    /// The number of the line, from 1.
    pub number: usize,
    /// The bytes, without the line feed.
    pub bytes: &'t [u8],
}

/// The lines of a text that aren't blank, one after the other. A line ends at a line feed. Contracts see the
/// number and the bytes of each line that is left.
#[derive(Drop)]
pub struct JsonLines<'t> {
    rest: &'t [u8],
    read: usize,
}

impl<'t> Model for JsonLines<'t> {
    ghost use Rattle.std.specs.Prelude.{ℕ, List, [], ◌+◌, ◌<◌, ◌^◌, length};
    ghost use Rattle.subst_rows.specs.JsonLines.{rows_from};

    ghost Value = { List (ℕ × List ℕ) };

    ghost view = { λ t. rows_from (t.read + 1) [] t.rest.now };

    ghost invariant = { λ t. t.read + length t.rest.now < 2 ^ 63 };
}

impl<'t> JsonLines<'t> {
    /// Returns the lines of a text, after a byte order mark at its start.
    pub fn new(text: &'t [u8]) -> Self
        ensures { result ≡ rows_from 1 [] (strip_bom text.now) }
    {
        JsonLines {
            rest: without_mark(text),
            read: 0,
        }
    }

    /// Returns the number of the line that was returned last, from 1, or 0 if there was none.
    pub fn line(&self) -> usize {
        self.read
    }

    /// Returns the next line that isn't blank, or `None` if there is none.
    #[tactic(auto, using(crate::proofs::JsonLineLemmas::rows_of_nothing))]
    pub fn next_line(&mut self) -> Option<Line<'t>>
        ensures { Follows self.old result self.new }
    {
        match next_line(self.rest, self.read) {
            Some((line, rest)) => {
                self.read = line.number;
                self.rest = rest;
                Some(line)
            }
            None => {
                self.rest = &[];
                None
            }
        }
    }
}

/// Returns the first line of a text that isn't blank, and the text after it, or `None` if there is none.
/// `read` is the number of lines before the text.
fn next_line(text: &[u8], read: usize) -> Option<(Line<'_>, &[u8])>
    requires { read + length text.now < 2 ^ 63 }
    ensures next { IsNext (rows_from (read + 1) [] text.now) result }
    ensures bound { IfSome result (λ next. next.0.number + length next.1.now < 2 ^ 63) }
{
    let mut rest = text;
    let mut read = read;
    while !rest.is_empty() {
        let (bytes, after) = split_line(rest);
        rest = after;
        read += 1;
        if !is_blank(bytes) {
            let number = read;
            return Some((Line { number, bytes }, rest));
        }
    }
    None
}

/// Returns the first line of a text without its line feed, and the text after it.
fn split_line(text: &[u8]) -> (&[u8], &[u8])
    ensures split { (number : ℕ) → rows_from number [] text.now
        ≡ row_if number result.0.now (rows_from (number + 1) [] result.1.now) }
    ensures shorter { 0 < length text.now → length result.1.now < length text.now }
{
    match memchr(b'\n', text) {
        Some(at) => (&text[..at], &text[at + 1..]),
        None => (text, &text[text.len()..]),
    }
}

/// Returns whether a line is blank: each of its bytes is a space, a tab or a carriage return.
fn is_blank(line: &[u8]) -> bool
    ensures { result ≡ is_blank line.now }
{
    line.iter().all(|byte| is_space(*byte))
}

/// Returns whether a byte is a space, a tab or a carriage return.
fn is_space(byte: u8) -> bool
    ensures { result ≡ is_space byte }
{
    byte == b' ' || byte == b'\t' || byte == b'\r'
}
