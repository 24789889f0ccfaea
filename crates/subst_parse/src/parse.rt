//! The parser: it reads a source once, from the left, and appends its parts to a sink. If it succeeds, the
//! sink holds the parts of the source's template. Otherwise it returns an error: the source's fault or out of
//! memory.

ghost use Rattle.std.specs.Prelude.{◌≡◌, ◌+◌, ◌-◌, ◌*◌, ◌<◌, ◌≤◌, ℕ, List, [], ◌∷◌, length, drop, slice_get, vec_len, IfErr, OnErr, OnOk, IsSomeAnd, IsTrue, ◌↔◌};
ghost use Rattle.subst_error.specs.ErrorFault.{parse_fault};
ghost use Rattle.subst_error.specs.Fault.{MissingClosingBrace};
ghost use Rattle.subst_language.specs.Language.Bytes.{IsPlain, dollar, colon, backslash, closing_brace};
ghost use Rattle.subst_language.specs.Language.BadItem.{HasFault};
ghost use Rattle.subst_language.specs.Calls.Clauses.{ContainsDefault};
ghost use Rattle.subst_language.specs.Calls.Outcome.{OnFault, OnOutOfMemory};
ghost use Rattle.subst_parse.specs.ByteRun.{IsRun};
ghost use Rattle.subst_parse.specs.Cost.{GrowsBetween, StepReads, StepReadsAfterFirst};
ghost use Rattle.subst_parse.specs.Halt.{halt_fault};
ghost use Rattle.subst_parse.specs.Placeholder.{IsInBraces, IsOptional, StatesBadItem};
ghost use Rattle.subst_language.specs.Parts.Sink.{FitsBelow, HoldsSome, HoldsTemplate, since};

use crate::halt::Halt;
use crate::item::{Placeholder, escape_at, placeholder_at};
use crate::reads::Reads;
use crate::scan::closes_all;
use crate::tape::Tape;
use std::alloc::{AllocError, Global};
use subst_error::ParseError;
use subst_language::{Part, Sink, Span};

/// A default whose closing brace hasn't been read yet.
#[derive(Clone, Copy)]
pub(crate) struct OpenDefault {
    /// The index of its part.
    pub part: usize,
    /// The number of open braces around it.
    pub depth: usize,
    /// The name of its variable.
    pub name: Span,
}

/// The state of a parse.
#[derive(Drop)]
pub(crate) struct Parser<'s, S: Sink> {
    tape: Tape<'s>,
    sink: S,
    /// The open defaults, the outermost first.
    defaults: Vec<OpenDefault>,
    /// The number of open braces: those of the defaults, and bare ones inside defaults.
    depth: usize,
    /// The start of the pending literal bytes, which have no part yet and end at `at`.
    literal_start: usize,
    /// The offset up to which the source has been read.
    at: usize,
}

/// Appends the parts of a source to a sink. Returns the sink, the counter of reads, and the outcome. The
/// outcome is `Ok`, or an error: the source's fault or out of memory. The first `plain` bytes must have no
/// `$` and no `\`, and aren't read.
#[inline(always)]
pub fn parse_into<S: Sink>(
    alloc: Global,
    source: &[u8],
    plain: usize,
    sink: S,
    reads: Reads,
) -> (S, Reads, Result<(), ParseError>)
    requires plain { IsRun IsPlain source.now 0 plain }
    requires fits { length source.now < S.limit }
    requires empty { (first : S.First) × S.source first source.now × S.holds sink first [] }
    ensures ok { OnOk result.2 ((first : S.First) → S.holds sink first []
        → HoldsTemplate (since S.holds first) source.now result.0) }
    ensures err { OnFault parse_fault result.2 (HasFault 0 source.now) }
    ensures cause { ¬ S.asks → OnOutOfMemory parse_fault result.2 (ContainsDefault source.now) }
    ensures held { OnErr result.2 ((first : S.First) → S.holds sink first []
        → HoldsSome S.holds result.0 first) }
    ensures bound { result.1 + 3 * plain ≤ reads + 3 * length source.now + 8 }
    ensures grows { reads ≤ result.1 }
    ensures whole { OnOk result.2 (reads + length source.now ≤ result.1 + plain) }
    ensures refused { IfErr result.2 (λ e. reads + 1 ≤ result.1 + plain) }
{
    let mut parser = Parser::new(alloc, Tape::new(source, reads), plain, sink);
    let outcome = parser.read_to_end();
    let Parser { tape, sink, .. } = parser;
    let reads = tape.into_reads();
    match outcome {
        Ok(()) => (sink, reads, Ok(())),
        Err(halt) => (sink, reads, Err(halt.into())),
    }
}

impl<'s, S: Sink> Parser<'s, S> {
    ghost use Rattle.subst_parse.specs.Parsing.{FromReading, IsFlushed, IsPart, IsReading, IsReadingSince, StepsOrFails};

    /// Creates a parser at the offset `at`, before which the source has no `$` and no `\`.
    fn new(alloc: Global, tape: Tape<'s>, at: usize, sink: S) -> Self
        requires plain { IsRun IsPlain tape.source.now 0 at }
        requires fits { length tape.source.now < S.limit }
        requires empty { (first : S.First) × S.source first tape.source.now
            × S.holds sink first [] }
        ensures reading { (first : S.First) → S.holds sink first []
            → IsReading (since S.holds first) S.limit result }
        ensures source { result.tape ≡ tape.entry }
        ensures start { result.at ≡ at }
    {
        Parser {
            tape,
            sink,
            defaults: Vec::new(alloc),
            depth: 0,
            literal_start: 0,
            at,
        }
    }

    /// Reads the source to its end, or returns an error: the source's fault or out of memory.
    fn read_to_end(&mut self) -> Result<(), Halt>
        requires reading { IsReadingSince S.holds S.source S.limit self.old }
        ensures ok { OnOk result (FromReading S.holds S.limit self.old (λ first.
            HoldsTemplate (since S.holds first) self.old.tape.source.now self.new.sink)) }
        ensures held { OnErr result
            (FromReading S.holds S.limit self.old (HoldsSome S.holds self.new.sink)) }
        ensures err { OnFault halt_fault result (HasFault 0 self.old.tape.source.now) }
        ensures cause { ¬ S.asks
            → OnOutOfMemory halt_fault result (ContainsDefault self.old.tape.source.now) }
        ensures bound { self.new.tape.reads + 3 * self.old.at
            ≤ self.old.tape.reads + 3 * length self.old.tape.source.now + 8 }
        ensures grows { self.old.tape.reads ≤ self.new.tape.reads }
        ensures whole { OnOk result (self.old.tape.reads + length self.old.tape.source.now
            ≤ self.new.tape.reads + self.old.at) }
        ensures refused { IfErr result
            (λ e. self.old.tape.reads + 1 ≤ self.new.tape.reads + self.old.at) }
    {
        while self.tape.has(self.at) {
            self.read_item()?;
        }
        self.finish()
    }

    /// Reads plain bytes, and then an escape or a placeholder. Inside a default, a brace may follow the plain
    /// bytes instead.
    #[inline(always)]
    fn read_item(&mut self) -> Result<(), Halt>
        requires reading { IsReadingSince S.holds S.source S.limit self.old }
        requires more { self.old.at < length self.old.tape.source.now }
        ensures answer { StepsOrFails S.holds S.limit S.asks self.old result self.new }
        ensures cost { StepReads self.old result self.new }
    {
        if self.is_at_top() {
            self.read_at_top()
        } else {
            self.read_in_default()
        }
    }

    /// Returns whether no brace is open.
    #[inline(always)]
    fn is_at_top(&self) -> bool
        ensures { IsTrue result ↔ (self.now.depth ≡ 0) }
    {
        self.depth == 0
    }

    /// Reads plain bytes, and the escape or placeholder after them, outside all defaults.
    #[inline(always)]
    fn read_at_top(&mut self) -> Result<(), Halt>
        requires reading { IsReadingSince S.holds S.source S.limit self.old }
        requires more { self.old.at < length self.old.tape.source.now }
        requires top { self.old.depth ≡ 0 }
        ensures answer { StepsOrFails S.holds S.limit S.asks self.old result self.new }
        ensures cost { StepReads self.old result self.new }
    {
        self.at = self.tape.find_special(self.at);
        match self.tape.byte_at(self.at) {
            None => Ok(()),
            Some(b'\\') => self.read_escape(),
            Some(_) => self.read_placeholder(),
        }
    }

    /// Reads plain bytes, and the brace, escape or placeholder after them, inside a default.
    #[inline(always)]
    fn read_in_default(&mut self) -> Result<(), Halt>
        requires reading { IsReadingSince S.holds S.source S.limit self.old }
        requires more { self.old.at < length self.old.tape.source.now }
        requires inside { 0 < self.old.depth }
        ensures answer { StepsOrFails S.holds S.limit S.asks self.old result self.new }
        ensures cost { StepReads self.old result self.new }
    {
        self.at = self.tape.find_inner(self.at);
        match self.tape.byte_at(self.at) {
            None => Ok(()),
            Some(b'\\') => self.read_escape(),
            Some(b'$') => self.read_placeholder(),
            Some(b'{') => {
                self.depth += 1;
                self.at += 1;
                Ok(())
            }
            Some(_) => self.close_brace(),
        }
    }

    /// Reads the escape at `at` and appends its part, or returns the source's fault.
    #[inline(always)]
    fn read_escape(&mut self) -> Result<(), Halt>
        requires reading { IsReadingSince S.holds S.source S.limit self.old }
        requires spelled { (rest : List ℕ)
            × (drop self.old.at self.old.tape.source.now ≡ backslash ∷ rest) }
        ensures answer { StepsOrFails S.holds S.limit S.asks self.old result self.new }
        ensures cost { StepReadsAfterFirst self.old result self.new }
    {
        match escape_at(&mut self.tape, self.at) {
            Ok(byte) => self.add_part(Part::Escaped(byte), self.at + 2),
            Err(halt) => Err(self.fault_of_source(halt)),
        }
    }

    /// Reads the placeholder at `at` and appends its part, or returns the source's fault. A placeholder
    /// `${name:default}` is read up to its colon.
    #[inline(always)]
    fn read_placeholder(&mut self) -> Result<(), Halt>
        requires reading { IsReadingSince S.holds S.source S.limit self.old }
        requires spelled { (rest : List ℕ)
            × (drop self.old.at self.old.tape.source.now ≡ dollar ∷ rest) }
        ensures answer { StepsOrFails S.holds S.limit S.asks self.old result self.new }
        ensures cost { StepReadsAfterFirst self.old result self.new }
    {
        match placeholder_at(&mut self.tape, self.at) {
            Ok(Placeholder::Short(name)) => self.add_part(Part::Variable(name), name.end),
            Ok(Placeholder::Braced(name)) => self.add_part(Part::Variable(name), name.end + 1),
            Ok(Placeholder::Optional(name)) => self.add_optional(name),
            Ok(Placeholder::Default(name)) => self.open_default(name),
            Err(halt) => Err(self.fault_of_source(halt)),
        }
    }

    /// Appends the pending literal bytes, if there are any, as one `Literal` part.
    #[inline(always)]
    fn flush_literal(&mut self) -> Result<(), AllocError>
        requires { IsReadingSince S.holds S.source S.limit self.old }
        ensures kept { OnOk result
            (self.new ≡ record self.old { sink = self.new.sink; literal_start = self.old.at }) }
        ensures flushed { OnOk result (FromReading S.holds S.limit self.old (λ first.
            IsFlushed (since S.holds first) self.old self.new)) }
        ensures held { OnErr result
            (FromReading S.holds S.limit self.old (HoldsSome S.holds self.new.sink)) }
        ensures same { self.new.tape ≡ self.old.tape }
        ensures some { IfErr result (λ e. 0 < self.old.at) }
        ensures cause { OnErr result S.asks }
    {
        if self.literal_start < self.at {
            self.sink.take(Part::Literal(Span {
                start: self.literal_start,
                end: self.at,
            }))?;
        }
        self.literal_start = self.at;
        Ok(())
    }

    /// Appends the pending literal bytes, and then `part`, which ends at `end`.
    #[inline(always)]
    fn add_part(&mut self, part: Part, end: usize) -> Result<(), Halt>
        requires reading { IsReadingSince S.holds S.source S.limit self.old }
        requires fits { FitsBelow S.limit part }
        requires part { (i : ℕ) → IsPart self.old.tape.source.now self.old.at end i part }
        requires within { end ≤ length self.old.tape.source.now }
        requires forward { self.old.at < end }
        ensures answer { StepsOrFails S.holds S.limit S.asks self.old result self.new }
        ensures position { OnOk result (self.new.at ≡ end) }
        ensures same { self.new.tape ≡ self.old.tape }
    {
        self.flush_literal()?;
        self.sink.take(part)?;
        self.at = end;
        self.literal_start = end;
        Ok(())
    }

    /// Appends the pending literal bytes, and then the part of the placeholder `${name?}` at `at`.
    #[inline(always)]
    fn add_optional(&mut self, name: Span) -> Result<(), Halt>
        requires reading { IsReadingSince S.holds S.source S.limit self.old }
        requires optional { IsOptional self.old.tape.source.now self.old.at name }
        ensures answer { StepsOrFails S.holds S.limit S.asks self.old result self.new }
        ensures position { OnOk result (self.new.at ≡ name.end + 2) }
        ensures same { self.new.tape ≡ self.old.tape }
    {
        self.flush_literal()?;
        self.sink.take_optional(name)?;
        self.at = name.end + 2;
        self.literal_start = self.at;
        Ok(())
    }

    /// Appends pending literal bytes and the part of the placeholder `${name:` at `at`. Opens its default.
    #[inline(always)]
    fn open_default(&mut self, name: Span) -> Result<(), Halt>
        requires reading { IsReadingSince S.holds S.source S.limit self.old }
        requires head { IsInBraces self.old.tape.source.now self.old.at name colon }
        ensures answer { StepsOrFails S.holds S.limit S.asks self.old result self.new }
        ensures position { OnOk result (self.new.at ≡ name.end + 1) }
        ensures same { self.new.tape ≡ self.old.tape }
    {
        self.flush_literal()?;
        let part = self.sink.open(name)?;
        self.defaults.push(OpenDefault {
            part,
            depth: self.depth,
            name,
        })?;
        self.depth += 1;
        self.at = name.end + 1;
        self.literal_start = self.at;
        Ok(())
    }

    /// Reads a closing brace inside a default. It closes the default, or a bare brace in it.
    fn close_brace(&mut self) -> Result<(), Halt>
        requires reading { IsReadingSince S.holds S.source S.limit self.old }
        requires inside { 0 < self.old.depth }
        requires spelled { drop self.old.at self.old.tape.source.now
            ≡ closing_brace ∷ drop (self.old.at + 1) self.old.tape.source.now }
        ensures answer { StepsOrFails S.holds S.limit S.asks self.old result self.new }
        ensures position { OnOk result (self.new.at ≡ self.old.at + 1) }
        ensures same { self.new.tape ≡ self.old.tape }
    {
        match self.defaults.last().copied() {
            Some(innermost) if innermost.depth + 1 == self.depth => self.close_default(innermost),
            _ => {
                self.depth -= 1;
                self.at += 1;
                Ok(())
            }
        }
    }

    /// Reads the closing brace of the innermost default, and closes the default.
    fn close_default(&mut self, innermost: OpenDefault) -> Result<(), Halt>
        requires reading { IsReadingSince S.holds S.source S.limit self.old }
        requires innermost { slice_get self.old.defaults.items
            (length self.old.defaults.items - 1) ≡ Some innermost }
        requires closes { innermost.depth + 1 ≡ self.old.depth }
        requires spelled { drop self.old.at self.old.tape.source.now
            ≡ closing_brace ∷ drop (self.old.at + 1) self.old.tape.source.now }
        ensures answer { StepsOrFails S.holds S.limit S.asks self.old result self.new }
        ensures position { OnOk result (self.new.at ≡ self.old.at + 1) }
        ensures same { self.new.tape ≡ self.old.tape }
    {
        self.flush_literal()?;
        let _ = self.defaults.pop();
        self.sink.close(innermost.part, innermost.name);
        self.depth = innermost.depth;
        self.at += 1;
        self.literal_start = self.at;
        Ok(())
    }

    /// Returns the fault of a source that has a bad item at `at`. If a default around the item is never
    /// closed, the result is the missing brace of the outermost default. Otherwise it is `halt`, the item's
    /// own fault.
    #[cold]
    #[inline(never)]
    fn fault_of_source(&mut self, halt: Halt) -> Halt
        requires reading { IsReadingSince S.holds S.source S.limit self.old }
        requires bad { StatesBadItem halt self.old.tape.source.now self.old.at }
        ensures answer { IsSomeAnd (halt_fault result) (HasFault 0 self.old.tape.source.now) }
        ensures sink { self.new.sink ≡ self.old.sink }
        ensures cost { GrowsBetween 0 (length self.old.tape.source.now - self.old.at + 1)
            self.old.tape.reads self.new.tape.reads }
    {
        let Some(outermost) = self.defaults.first().copied() else {
            return halt;
        };
        if closes_all(&mut self.tape, self.at, self.depth) {
            halt
        } else {
            unclosed(outermost.name)
        }
    }

    /// Appends the source's last literal bytes, or returns the source's fault if a default is open.
    fn finish(&mut self) -> Result<(), Halt>
        requires reading { IsReadingSince S.holds S.source S.limit self.old }
        requires end { length self.old.tape.source.now ≤ self.old.at }
        ensures ok { OnOk result (FromReading S.holds S.limit self.old (λ first.
            HoldsTemplate (since S.holds first) self.old.tape.source.now self.new.sink)) }
        ensures held { OnErr result
            (FromReading S.holds S.limit self.old (HoldsSome S.holds self.new.sink)) }
        ensures err { OnFault halt_fault result (HasFault 0 self.old.tape.source.now) }
        ensures cause { ¬ S.asks
            → OnOutOfMemory halt_fault result (ContainsDefault self.old.tape.source.now) }
        ensures same { self.new.tape ≡ self.old.tape }
        ensures some { IfErr result (λ e. 0 < self.old.at) }
    {
        if let Some(outermost) = self.defaults.first().copied() {
            return Err(unclosed(outermost.name));
        }
        self.flush_literal()?;
        Ok(())
    }
}

/// Returns the fault of a default without its closing brace. `name` is the range of its variable's name.
fn unclosed(name: Span) -> Halt
    requires { 0 < name.start }
    ensures { halt_fault result ≡ Some (MissingClosingBrace (name.start - 1)) }
{
    Halt::Unclosed {
        position: name.start - 1,
    }
}
