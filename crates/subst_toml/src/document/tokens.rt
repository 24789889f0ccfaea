//! The string values of a document, in order, found in a walk through its text. Keys are read too, so that no
//! key is taken for a value.

ghost use Rattle.std.specs.Prelude.{◌≡◌, ◌<◌, ◌≤◌, true, ◌∷◌, drop, Some, IfOk, IfSome, length, map, option_map, slice_index};
ghost use Rattle.toml_parser.specs.Strings.{starts_string};
ghost use Rattle.toml.specs.Parse as toml;
ghost use Rattle.subst_toml.specs.Filled as spec;
ghost use Rattle.subst_toml.specs.Filled.{scanner_of, spelled_of};

use std::alloc::{AllocError, Global};
use subst_document::StringAt;
use toml_parser::text::{byte_at, first, skip, skip_blank, skip_ws};
use toml_parser::{ErrorKind, ParseError, dotted_key, quoted, starts_string, unquoted};

/// An open bracket.
#[derive(Clone, Copy)]
enum Bracket {
    /// The opening bracket of an array.
    Array,
    /// The opening brace of an inline table.
    InlineTable,
}

/// The state of the walk through a document.
#[derive(Drop)]
struct Scanner {
    /// The length of the document in bytes.
    source_len: usize,
    /// The open brackets, the innermost one last.
    brackets: Vec<Bracket>,
    /// The strings so far.
    found: Vec<StringAt>,
}

/// Returns the string values of a document, or `None` if a part of the text can't be read.
pub(crate) fn strings_in(alloc: Global, source: &str) -> Result<Option<Vec<StringAt>>, AllocError>
    ensures { IfOk result (λ found. IfSome found
        (λ found. spec.strings_in source.now ≡ Some (map spelled_of found.items))) }
{
    match all_strings(alloc, source) {
        Ok(found) => Ok(Some(found)),
        Err(ParseError::OutOfMemory) => Err(AllocError),
        Err(ParseError::At(..)) => Ok(None),
    }
}

/// Returns the string values of a document.
fn all_strings(alloc: Global, source: &str) -> Result<Vec<StringAt>, ParseError>
    ensures { IfOk result
        (λ found. spec.strings_in source.now ≡ Some (map spelled_of found.items)) }
{
    let mut scanner = Scanner {
        source_len: source.len(),
        brackets: Vec::new(alloc),
        found: Vec::new(alloc),
    };
    let mut rest = without_mark(source);
    'tokens: loop {
        let start = skip_blank(rest, true);
        if start.is_empty() {
            return Ok(scanner.found);
        }
        rest = scanner.step(alloc, start)?;
    }
}

impl Scanner {
    /// Reads the part of the document at the start of `text`, and returns the text after the part. With no
    /// bracket open, the part is a header, or a key and its value. Otherwise it is read as by
    /// [`Scanner::item`] or [`Scanner::member`].
    fn step<'s>(&mut self, alloc: Global, text: &'s str) -> Result<&'s str, ParseError>
        ensures reads { IfOk result (λ rest. spec.step (scanner_of self.old) text.now
            ≡ Some (scanner_of self.new, rest.now)) }
        ensures shorter { IfOk result (λ rest. length rest.now < length text.now) }
    {
        match self.brackets.last() {
            None if first(text) == b'[' => header(alloc, skip(text, 1)),
            None => self.pair(alloc, text),
            Some(Bracket::Array) => self.item(alloc, text),
            Some(Bracket::InlineTable) => self.member(alloc, text),
        }
    }

    /// Reads an item of an array, a comma or the closing bracket, and returns the text after it.
    fn item<'s>(&mut self, alloc: Global, text: &'s str) -> Result<&'s str, ParseError>
        requires { 0 < length self.old.brackets.items }
        ensures reads { IfOk result (λ rest. spec.step_in (Some Bracket.Array)
            (scanner_of self.old) text.now
            ≡ Some (scanner_of self.new, rest.now)) }
        ensures shorter { IfOk result (λ rest. length rest.now < length text.now) }
    {
        match first(text) {
            b',' => Ok(skip(text, 1)),
            b']' => Ok(self.close(text)),
            _ => self.value(alloc, text),
        }
    }

    /// Reads a member of an inline table, a comma or the closing brace, and returns the text after it.
    fn member<'s>(&mut self, alloc: Global, text: &'s str) -> Result<&'s str, ParseError>
        requires { 0 < length self.old.brackets.items }
        ensures reads { IfOk result (λ rest. spec.step_in (Some Bracket.InlineTable)
            (scanner_of self.old) text.now
            ≡ Some (scanner_of self.new, rest.now)) }
        ensures shorter { IfOk result (λ rest. length rest.now < length text.now) }
    {
        match first(text) {
            b',' => Ok(skip(text, 1)),
            b'}' => Ok(self.close(text)),
            _ => self.pair(alloc, text),
        }
    }

    /// Reads a closing bracket, and returns the text after it.
    fn close<'s>(&mut self, text: &'s str) -> &'s str
        requires some { 0 < slice_index text.now 0 }
        requires ascii { slice_index text.now 0 < 128 }
        requires inside { 0 < length self.old.brackets.items }
        ensures reads { scanner_of self.new ≡ spec.closed (scanner_of self.old) }
        ensures rest { result.now ≡ drop 1 text.now }
        ensures shorter { length result.now < length text.now }
    {
        let _ = self.brackets.pop();
        skip(text, 1)
    }

    /// Reads a key and its value, and returns the rest of the text. Of an array or inline table, only the
    /// opening bracket is read.
    fn pair<'s>(&mut self, alloc: Global, text: &'s str) -> Result<&'s str, ParseError>
        ensures reads { IfOk result (λ rest. spec.pair (scanner_of self.old) text.now
            ≡ Some (scanner_of self.new, rest.now)) }
        ensures shorter { IfOk result (λ rest. length rest.now < length text.now) }
    {
        self.value(alloc, key_equals(alloc, text)?)
    }

    /// Reads a value, or only the opening bracket of an array or inline table. Returns the text after it.
    fn value<'s>(&mut self, alloc: Global, text: &'s str) -> Result<&'s str, ParseError>
        ensures reads { IfOk result (λ rest. spec.value (scanner_of self.old) text.now
            ≡ Some (scanner_of self.new, rest.now)) }
        ensures shorter { IfOk result (λ rest. length rest.now < length text.now) }
    {
        if starts_string(text) {
            return self.string(alloc, text);
        }
        match first(text) {
            b'[' => {
                self.brackets.push(Bracket::Array)?;
                Ok(skip(text, 1))
            }
            b'{' => {
                self.brackets.push(Bracket::InlineTable)?;
                Ok(skip(text, 1))
            }
            _ => Ok(unquoted(alloc, text)?.1),
        }
    }

    /// Reads a string, adds it to the strings found, and returns the text after it.
    fn string<'s>(&mut self, alloc: Global, text: &'s str) -> Result<&'s str, ParseError>
        requires { starts_string text.now ≡ true }
        ensures reads { IfOk result (λ rest. spec.value (scanner_of self.old) text.now
            ≡ Some (scanner_of self.new, rest.now)) }
        ensures shorter { IfOk result (λ rest. length rest.now < length text.now) }
    {
        let (string, rest) = quoted(alloc, text)?;
        let start = self.source_len.saturating_sub(text.len());
        let end = self.source_len.saturating_sub(rest.len());
        self.found.push(StringAt {
            text: string,
            span: start..end,
        })?;
        Ok(rest)
    }
}

/// Reads the rest of a header, whose first bracket precedes `text`. Returns the text after the header.
fn header(alloc: Global, text: &str) -> Result<&str, ParseError>
    ensures reads { IfOk result (λ rest. spec.header text.now ≡ Some rest.now) }
    ensures shorter { IfOk result (λ rest. length rest.now < length text.now) }
{
    if first(text) == b'[' {
        after_byte(header_key(alloc, skip(text, 1))?, b']')
    } else {
        header_key(alloc, text)
    }
}

/// Reads the key of a header and one closing bracket, and returns the text after both.
#[tactic(auto, unfolding(toml::specs::Parse::header_key))]
fn header_key(alloc: Global, text: &str) -> Result<&str, ParseError>
    ensures reads { IfOk result
        (λ rest. option_map (λ k. k.1) (toml.header_key text.now) ≡ Some rest.now) }
    ensures shorter { IfOk result (λ rest. length rest.now < length text.now) }
{
    let (_, after) = dotted_key(alloc, skip_ws(text))?;
    after_byte(after, b']')
}

/// Reads a key, the `=`, and white space. Returns the text after the white space.
#[tactic(auto, unfolding(toml::specs::Parse::key_equals))]
fn key_equals(alloc: Global, text: &str) -> Result<&str, ParseError>
    ensures reads { IfOk result
        (λ rest. option_map (λ k. k.1) (toml.key_equals text.now) ≡ Some rest.now) }
    ensures shorter { IfOk result (λ rest. length rest.now < length text.now) }
{
    let (_, after) = dotted_key(alloc, text)?;
    Ok(skip_ws(after_byte(after, b'=')?))
}

/// Returns the text without its byte order mark, if there is one.
fn without_mark(text: &str) -> &str
    ensures rest { result.now ≡ toml.skip_bom text.now }
    ensures within { length result.now ≤ length text.now }
{
    if first(text) == 0xEF && byte_at(text, 1) == 0xBB && byte_at(text, 2) == 0xBF {
        &text[3..]
    } else {
        text
    }
}

/// Returns `text` without its first byte, or an error if that byte isn't `byte`.
fn after_byte(text: &str, byte: u8) -> Result<&str, ParseError>
    requires some { 0 < byte }
    requires ascii { byte < 128 }
    ensures reads { IfOk result (λ rest. toml.after_byte byte text.now ≡ Some rest.now) }
    ensures shorter { IfOk result (λ rest. length rest.now < length text.now) }
{
    if first(text) == byte {
        Ok(skip(text, 1))
    } else {
        Err(ParseError::at(ErrorKind::Content, text))
    }
}
