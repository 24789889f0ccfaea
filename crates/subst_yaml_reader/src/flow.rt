//! Collections in brackets.

ghost use Rattle.std.specs.Prelude.{◌≡◌, ◌≢◌, Some, None, IfErr, IfOk};
ghost use Rattle.subst_yaml_reader.specs.Flow.{close, close_pair, closing, ended, finished, flow_content, flow_key, flow_scalar, flow_turn, is_flow_key, is_in, is_key_due, is_node_over, is_same, keyed, lone_key, member, next_entry};
ghost use Rattle.subst_yaml_reader.specs.Reader.{state_of};
ghost use Rattle.subst_yaml_reader.specs.declared.error.Halt.TheVariants.{OutOfMemory};

use crate::block::{has_any, is_alias};
use crate::bytes::{begins, is_document_mark, is_mark};
use crate::error::{Halt, Reason};
use crate::event::{Bracket, Event, Span, Style};
use crate::reader::{EventKind, Next, Reader};
use crate::runs::after_blanks;
use crate::scalar::{
    Properties, after_byte, colon_follows, fits_key, joined, node_properties, scalar,
};

/// Returns whether two collections in brackets are of the same kind.
fn is_same(one: Bracket, other: Bracket) -> bool
    ensures { result ≡ is_same one other }
{
    match one {
        Bracket::Sequence => matches!(other, Bracket::Sequence),
        Bracket::Mapping => matches!(other, Bracket::Mapping),
        Bracket::Pair => matches!(other, Bracket::Pair),
    }
}

/// Returns whether no node follows an anchor or a tag on the same line. This is so if `text`, the text after
/// the anchor or the tag, is on another line (`is_fresh`), or begins with `,`, `]` or `}`.
fn is_node_over(is_fresh: bool, text: &[u8]) -> bool
    ensures { result ≡ is_node_over is_fresh text.now }
{
    is_fresh || begins(text, b',') || begins(text, b']') || begins(text, b'}')
}

impl Reader {
    /// Returns whether the innermost collection in brackets is of this kind.
    fn is_in(&self, bracket: Bracket) -> bool
        ensures { result ≡ is_in bracket (state_of self.now) }
    {
        match self.innermost_bracket() {
            Some(innermost) => is_same(bracket, innermost),
            None => false,
        }
    }

    /// Returns whether a key of a mapping in brackets is expected.
    fn is_key_due(&self) -> bool
        ensures { result ≡ is_key_due (state_of self.now) }
    {
        matches!(self.next, Next::Member) && self.is_in(Bracket::Mapping)
    }

    /// Reads a token in brackets. Returns the text from the next token on.
    #[tactic(auto, unfolding(crate::specs::Flow::flow_turn))]
    pub(crate) fn flow_turn<'t>(&mut self, text: &'t [u8]) -> Result<&'t [u8], Halt>
        ensures ok { IfOk result (λ rest. flow_turn (state_of self.old) text.now
            ≡ Some (state_of self.new, rest.now)) }
        ensures err { IfErr result (λ halt. halt ≢ OutOfMemory
            → flow_turn (state_of self.old) text.now ≡ None) }
    {
        if self.is_fresh && self.column(text) == 0 && is_document_mark(text) {
            return Err(Halt::at(Reason::Bracket, text));
        }
        match text {
            [b',', rest @ ..] => self.next_entry(rest),
            [b']', rest @ ..] => self.close(Bracket::Sequence, rest),
            [b'}', rest @ ..] => self.close(Bracket::Mapping, rest),
            _ => self.member(text),
        }
    }

    /// Appends a null if the entry is a key without a value, or an item that is only an anchor or a tag.
    /// Refuses the byte before `rest` if no entry can end there.
    #[tactic(auto, unfolding(crate::specs::Flow::finished))]
    fn finish_entry(&mut self, rest: &[u8]) -> Result<(), Halt>
        ensures ok { IfOk result (λ _. finished (state_of self.old) ≡ Some (state_of self.new)) }
        ensures err { IfErr result (λ halt. halt ≢ OutOfMemory
            → finished (state_of self.old) ≡ None) }
    {
        match self.next {
            Next::Done => Ok(()),
            Next::Value => self.emit(Event::Null),
            Next::Member if has_any(self.pending) && self.is_in(Bracket::Sequence) => {
                self.emit(Event::Null)
            }
            _ => Err(Halt::before(Reason::Bracket, rest)),
        }
    }

    /// Ends an entry at the byte before `rest`. If the entry is a pair `key: value` in a sequence, the pair
    /// is closed too.
    #[tactic(auto, unfolding(crate::specs::Flow::ended))]
    fn end_entry(&mut self, rest: &[u8]) -> Result<(), Halt>
        ensures ok { IfOk result (λ _. ended (state_of self.old) ≡ Some (state_of self.new)) }
        ensures err { IfErr result (λ halt. halt ≢ OutOfMemory → ended (state_of self.old) ≡ None) }
    {
        self.finish_entry(rest)?;
        if self.is_in(Bracket::Pair) {
            self.close_bracket()?;
        }
        Ok(())
    }

    /// Reads a comma, the byte before `rest`.
    #[tactic(auto, unfolding(crate::specs::Flow::next_entry))]
    fn next_entry<'t>(&mut self, rest: &'t [u8]) -> Result<&'t [u8], Halt>
        ensures ok { IfOk result (λ next. next_entry (state_of self.old) rest.now
            ≡ Some (state_of self.new, next.now)) }
        ensures err { IfErr result (λ halt. halt ≢ OutOfMemory
            → next_entry (state_of self.old) rest.now ≡ None) }
    {
        self.end_entry(rest)?;
        self.expect(Next::Member);
        Ok(self.go_on(rest))
    }

    /// Ends the last entry, if there is one. The byte before `rest` is the closing bracket.
    #[tactic(auto, unfolding(crate::specs::Flow::closing))]
    fn end_last(&mut self, rest: &[u8]) -> Result<(), Halt>
        ensures ok { IfOk result (λ _. closing (state_of self.old) ≡ Some (state_of self.new)) }
        ensures err { IfErr result (λ halt. halt ≢ OutOfMemory
            → closing (state_of self.old) ≡ None) }
    {
        if matches!(self.next, Next::Member) && !has_any(self.pending) {
            Ok(())
        } else {
            self.end_entry(rest)
        }
    }

    /// Reads the closing bracket of a collection of this kind. The bracket is the byte before `rest`.
    #[tactic(auto, unfolding(crate::specs::Flow::close))]
    fn close<'t>(&mut self, bracket: Bracket, rest: &'t [u8]) -> Result<&'t [u8], Halt>
        ensures ok { IfOk result (λ next. close bracket (state_of self.old) rest.now
            ≡ Some (state_of self.new, next.now)) }
        ensures err { IfErr result (λ halt. halt ≢ OutOfMemory
            → close bracket (state_of self.old) rest.now ≡ None) }
    {
        self.end_last(rest)?;
        if !self.is_in(bracket) {
            return Err(Halt::before(Reason::Bracket, rest));
        }
        self.close_bracket()?;
        self.expect(Next::Done);
        Ok(self.go_on(rest))
    }

    /// Reads the anchor and the tag of a member, and then its content if that is on the same line.
    #[tactic(auto, unfolding(crate::specs::Flow::member))]
    fn member<'t>(&mut self, text: &'t [u8]) -> Result<&'t [u8], Halt>
        ensures ok { IfOk result (λ rest. member (state_of self.old) text.now
            ≡ Some (state_of self.new, rest.now)) }
        ensures err { IfErr result (λ halt. halt ≢ OutOfMemory
            → member (state_of self.old) text.now ≡ None) }
    {
        if matches!(self.next, Next::Done) {
            return Err(self.text_after_member(text));
        }
        let (properties, spot) = node_properties(text, self.line, true)?;
        if !is_node_over(spot.0, spot.2) {
            return self.flow_content(properties, text, spot.2);
        }
        self.pending = joined(self.pending, properties, text)?;
        self.place(&spot);
        Ok(spot.2)
    }

    /// Returns the refusal of text after a value in brackets.
    fn text_after_member(&self, text: &[u8]) -> Halt {
        let is_next_line = self.is_fresh && !is_mark(text, b':');
        let reason = match (text, self.last_kind()) {
            ([b'\t', ..], _) => Reason::Tab,
            (_, EventKind::Unquoted) if is_next_line => Reason::FlowLines,
            ([b':', ..], EventKind::Close) => Reason::CollectionKey,
            ([b':', ..], _) => Reason::NotAValue,
            _ => Reason::TextAfterValue,
        };
        Halt::at(reason, text)
    }

    /// Reads the content of a node in brackets. The content is from `at` on, and the node's anchor and tag
    /// are from `text` to `at`.
    #[tactic(auto, unfolding(crate::specs::Flow::flow_content))]
    fn flow_content<'t>(
        &mut self,
        properties: Properties,
        text: &'t [u8],
        at: &'t [u8],
    ) -> Result<&'t [u8], Halt>
        ensures ok { IfOk result (λ rest. flow_content properties (state_of self.old) text.now
            at.now ≡ Some (state_of self.new, rest.now)) }
        ensures err { IfErr result (λ halt. halt ≢ OutOfMemory
            → flow_content properties (state_of self.old) text.now at.now ≡ None) }
    {
        match at {
            [first, rest @ ..] if *first == b'[' || *first == b'{' => {
                if self.is_key_due() {
                    return Err(Halt::at(Reason::CollectionKey, at));
                }
                self.open_collection(properties, *first, rest)
            }
            _ => {
                let (style, rest) = scalar(at, true)?;
                self.flow_scalar(properties, style, text, at, rest)
            }
        }
    }

    /// Reads a scalar or an alias in brackets, as a key or a value. The token is from `at` to `rest`.
    #[tactic(auto, unfolding(crate::specs::Flow::flow_scalar))]
    fn flow_scalar<'t>(
        &mut self,
        properties: Properties,
        style: Style,
        text: &'t [u8],
        at: &'t [u8],
        rest: &'t [u8],
    ) -> Result<&'t [u8], Halt>
        ensures ok { IfOk result (λ next. flow_scalar properties style (state_of self.old)
            text.now at.now rest.now ≡ Some (state_of self.new, next.now)) }
        ensures err { IfErr result (λ halt. halt ≢ OutOfMemory
            → flow_scalar properties style (state_of self.old) text.now at.now rest.now ≡ None) }
    {
        let colon = after_blanks(rest);
        let is_colon = colon_follows(colon, true, style);
        if is_colon || self.is_key_due() {
            if !self.is_flow_key(properties, style, text, colon) {
                return Err(Halt::at(Reason::LongKey, text));
            }
            let span = self.span(at, rest);
            return if is_colon {
                self.flow_key(style, span, colon)
            } else {
                self.lone_key(style, span, rest)
            };
        }
        self.value(true, properties, style, 0, at, rest)?;
        Ok(self.go_on(rest))
    }

    /// Returns whether a node in brackets may be a key. The node, its anchor and tag included, is from `text`
    /// to `colon`.
    fn is_flow_key(&self, properties: Properties, style: Style, text: &[u8], colon: &[u8]) -> bool
        ensures { result ≡ is_flow_key properties style (state_of self.now) text.now colon.now }
    {
        fits_key(text, colon) && !has_any(self.pending) && !(is_alias(style) && has_any(properties))
    }

    /// Appends the event of a key in brackets, and expects its value.
    fn emit_key(&mut self, style: Style, span: Span) -> Result<(), Halt>
        ensures ok { IfOk result (λ _. state_of self.new ≡ keyed style span (state_of self.old)) }
        ensures err { IfErr result (λ halt. halt ≡ OutOfMemory) }
    {
        self.emit(Event::FlowKey { style, span })?;
        self.expect(Next::Value);
        Ok(())
    }

    /// Appends the event of a key, and reads its colon. In a sequence, a pair begins with the key.
    #[tactic(auto, unfolding(crate::specs::Flow::flow_key))]
    fn flow_key<'t>(&mut self, style: Style, span: Span, colon: &'t [u8]) -> Result<&'t [u8], Halt>
        ensures ok { IfOk result (λ next. flow_key style span (state_of self.old) colon.now
            ≡ Some (state_of self.new, next.now)) }
        ensures err { IfErr result (λ halt. halt ≢ OutOfMemory
            → flow_key style span (state_of self.old) colon.now ≡ None) }
    {
        if !matches!(self.next, Next::Member) {
            return Err(Halt::at(Reason::NotAValue, colon));
        }
        if !self.is_in(Bracket::Mapping) {
            self.open_bracket(Bracket::Pair)?;
        }
        self.emit_key(style, span)?;
        Ok(self.go_on(after_byte(colon, b':')))
    }

    /// Appends the events of a key without a value.
    #[tactic(auto, unfolding(crate::specs::Flow::lone_key))]
    fn lone_key<'t>(&mut self, style: Style, span: Span, rest: &'t [u8]) -> Result<&'t [u8], Halt>
        ensures ok { IfOk result (λ next. lone_key style span (state_of self.old) rest.now
            ≡ Some (state_of self.new, next.now)) }
        ensures err { IfErr result (λ halt. halt ≡ OutOfMemory) }
    {
        self.emit_key(style, span)?;
        self.emit(Event::Null)?;
        self.expect(Next::Done);
        Ok(self.go_on(rest))
    }
}
