//! Collections without brackets, their entries and values, and the marks of documents.

ghost use Rattle.std.specs.Prelude.{◌≡◌, ◌≢◌, ◌+◌, ◌∷◌, Some, None, false, IfErr, IfOk, OnErr, length};
ghost use Rattle.subst_yaml_reader.specs.Block.{after_mark, block_indent, block_lines, block_scalar, block_turn, content, document, entry, first_deeper, fresh_turn, has_any, is_alias, is_mapping_at, is_sequence_at, item, key, line_turn, may_open, node, open_bracket, opened_for, properties_alone, scalar_node, shallower, value, value_end};
ghost use Rattle.subst_yaml_reader.specs.Reader.{state_of};
ghost use Rattle.subst_yaml_reader.specs.State.{push_block};
ghost use Rattle.subst_yaml_reader.specs.declared.error.Halt.TheVariants.{OutOfMemory};
ghost use Rattle.subst_yaml_reader.specs.declared.reader.Kind.TheVariants.{Sequence};

use crate::bytes::{begins, is_document_mark, is_line_over, is_mark};
use crate::error::{Halt, Reason};
use crate::event::{Bracket, Event, Style};
use crate::reader::{Collection, EventKind, Kind, Next, Reader};
use crate::runs::{
    after_blanks, after_block, after_line_ends, after_lines, after_plain_lines, after_spaces,
    is_past,
};
use crate::scalar::{
    Header, Properties, after_byte, colon_follows, fits_key, header, joined, node_properties,
    scalar,
};

/// The role of a node by its position: a value, a key, or either.
#[derive(Clone, Copy)]
pub(crate) enum Role {
    /// A value, or the first key of a mapping at this column.
    Open(usize),
    /// The key of an entry of the innermost mapping.
    Entry,
    /// A value after other text on its line.
    Inline,
}

/// Returns whether a node has an anchor or a tag.
pub(crate) fn has_any(properties: Properties) -> bool
    ensures { result ≡ has_any properties }
{
    properties.anchor || properties.tag
}

/// Returns whether a token is an alias.
pub(crate) fn is_alias(style: Style) -> bool
    ensures { result ≡ is_alias style }
{
    matches!(style, Style::Alias)
}

/// Returns whether a collection is a mapping whose entries are at this column.
fn is_mapping_at(block: Option<Collection>, column: usize) -> bool
    ensures { result ≡ is_mapping_at column block }
{
    match block {
        Some(block) => matches!(block.kind, Kind::Mapping) && block.column == column,
        None => false,
    }
}

/// Returns whether a collection is a sequence whose entries are at this column.
fn is_sequence_at(block: Option<Collection>, column: usize) -> bool
    ensures { result ≡ is_sequence_at column block }
{
    match block {
        Some(block) => matches!(block.kind, Kind::Sequence) && block.column == column,
        None => false,
    }
}

/// Returns the index of the first collection whose entries are past this column, or `None` if there is none.
fn first_deeper(blocks: &[Collection], column: usize) -> Option<usize>
    ensures { result ≡ first_deeper column blocks.now }
{
    blocks.iter().position(|block| block.column > column)
}

/// Returns the text after a document mark, which has three bytes.
fn after_mark(text: &[u8]) -> &[u8]
    ensures { result.now ≡ after_mark text.now }
{
    match text {
        [_, _, _, rest @ ..] => rest,
        _ => text,
    }
}

/// Returns the column of a block scalar's lines. If the header has a digit, the result is `column` + `digit`.
/// Otherwise `digit` is 0, and the result is `spaces`, but at least `column` + 1. `column` is the column of
/// the scalar's collection. `spaces` is the number of spaces at the start of the first line that isn't empty.
fn block_indent(column: usize, digit: usize, spaces: usize) -> usize
    ensures { result ≡ block_indent column digit spaces }
{
    if digit > 0 {
        column.saturating_add(digit)
    } else {
        column.saturating_add(1).max(spaces)
    }
}

/// Reads the lines of a block scalar after its header, in a collection at `column`. Returns the column of the
/// lines, and the text after the lines.
#[tactic(auto, unfolding(crate::specs::Block::block_lines))]
fn block_lines(column: usize, header: Header<'_>) -> Result<(usize, &[u8]), Halt>
    ensures ok { IfOk result (λ found. block_lines column
        (header.entry.0, header.entry.1, header.entry.2.now) ≡ Some (found.0, found.1.now)) }
    ensures err { OnErr result (block_lines column
        (header.entry.0, header.entry.1, header.entry.2.now) ≡ None) }
{
    let (digit, keep, head) = header;
    let first = after_line_ends(head);
    let words = after_spaces(first);
    let spaces = first.len().saturating_sub(words.len());
    if spaces > 0 && is_line_over(words) {
        return Err(Halt::at(Reason::BlockSpaces, first));
    }
    if digit == 0 && begins(words, b'\t') {
        return Err(Halt::at(Reason::Tab, words));
    }
    let indent = block_indent(column, digit, spaces);
    let end = if keep { first } else { head };
    Ok((indent, after_block(first, end, indent, keep)))
}

impl Reader {
    /// Reads a token outside brackets. Returns the text from the next token on.
    #[tactic(auto, unfolding(crate::specs::Block::block_turn))]
    pub(crate) fn block_turn<'t>(&mut self, text: &'t [u8]) -> Result<&'t [u8], Halt>
        ensures ok { IfOk result (λ rest. block_turn (state_of self.old) text.now
            ≡ Some (state_of self.new, rest.now)) }
        ensures err { IfErr result (λ halt. halt ≢ OutOfMemory
            → block_turn (state_of self.old) text.now ≡ None) }
    {
        if !self.is_fresh {
            return match self.next {
                Next::Value => self.node(Role::Inline, text),
                _ => Err(self.text_after_value(text)),
            };
        }
        let column = self.column(text);
        if column == 0 && is_document_mark(text) {
            self.document(text)
        } else {
            self.fresh_turn(column, text)
        }
    }

    /// Returns the refusal of text after a value or after `...`, on the same line.
    fn text_after_value(&self, text: &[u8]) -> Halt {
        let reason = match (text, self.next, self.last_kind()) {
            (_, Next::Ended, _) => Reason::TextAfterEnd,
            ([b':', ..], _, EventKind::Close) => Reason::CollectionKey,
            ([b':', ..], _, _) => Reason::NotAValue,
            _ => Reason::TextAfterValue,
        };
        Halt::at(reason, text)
    }

    /// Reads a document mark, `---` or `...`.
    #[tactic(auto, unfolding(crate::specs::Block::document))]
    fn document<'t>(&mut self, text: &'t [u8]) -> Result<&'t [u8], Halt>
        ensures ok { IfOk result (λ rest. document (state_of self.old) text.now
            ≡ Some (state_of self.new, rest.now)) }
        ensures err { IfErr result (λ halt. halt ≢ OutOfMemory
            → document (state_of self.old) text.now ≡ None) }
    {
        if begins(text, b'-') {
            self.emit(Event::Document)?;
            self.expect(Next::Value);
        } else if matches!(self.next, Next::Start) {
            return Err(Halt::at(Reason::TextAfterEnd, text));
        } else {
            self.expect(Next::Ended);
        }
        self.blocks.clear();
        Ok(self.go_on(after_mark(text)))
    }

    /// Reads a token that is the first on its line, or the first after `- `. The first document begins there
    /// too if it has no `---` and hasn't begun yet.
    #[tactic(auto, unfolding(crate::specs::Block::fresh_turn))]
    #[inline(always)]
    fn fresh_turn<'t>(&mut self, column: usize, text: &'t [u8]) -> Result<&'t [u8], Halt>
        ensures ok { IfOk result (λ rest. fresh_turn column (state_of self.old) text.now
            ≡ Some (state_of self.new, rest.now)) }
        ensures err { IfErr result (λ halt. halt ≢ OutOfMemory
            → fresh_turn column (state_of self.old) text.now ≡ None) }
    {
        match self.next {
            Next::Start => {
                self.emit(Event::Document)?;
                self.expect(Next::Value);
                self.line_turn(column, text)
            }
            Next::Value | Next::Done => self.line_turn(column, text),
            Next::Ended | Next::Member => Err(Halt::at(Reason::TextAfterEnd, text)),
        }
    }

    /// Returns whether a value or a collection may begin at this column. `is_item` is whether `- ` is there.
    fn may_open(&self, column: usize, is_item: bool) -> bool
        ensures { result ≡ may_open column is_item (state_of self.now) }
    {
        matches!(self.next, Next::Value)
            && (is_past(self.outer_column(), column)
                || is_item && is_mapping_at(self.innermost_block(), column))
    }

    /// Reads a token that is the first on its line, or the first after `- `.
    #[tactic(auto, unfolding(crate::specs::Block::line_turn))]
    #[inline(always)]
    fn line_turn<'t>(&mut self, column: usize, text: &'t [u8]) -> Result<&'t [u8], Halt>
        ensures ok { IfOk result (λ rest. line_turn column (state_of self.old) text.now
            ≡ Some (state_of self.new, rest.now)) }
        ensures err { IfErr result (λ halt. halt ≢ OutOfMemory
            → line_turn column (state_of self.old) text.now ≡ None) }
    {
        let is_item = is_mark(text, b'-');
        if !self.may_open(column, is_item) {
            let outer = self.outer_column();
            self.close_deeper(column, is_item);
            return self.entry(column, is_item, outer, text);
        }
        if is_item {
            self.open_block(Kind::Sequence, column)?;
            self.item(text)
        } else {
            self.node(Role::Open(column), text)
        }
    }

    /// Closes collections with entries past this column. Unless `is_item`, also closes a sequence at this
    /// column.
    #[tactic(auto, unfolding(crate::specs::Block::shallower))]
    fn close_deeper(&mut self, column: usize, is_item: bool)
        ensures { state_of self.new ≡ shallower column is_item (state_of self.old) }
    {
        if let Some(count) = first_deeper(&self.blocks, column) {
            self.blocks.truncate(count);
        }
        if !is_item && is_sequence_at(self.innermost_block(), column) {
            let _ = self.blocks.pop();
        }
    }

    /// Reads an entry of the innermost collection, or refuses the entry if that collection is at another
    /// column or of another kind. `is_item` is whether the entry begins with `- `. `outer` is the column of
    /// the collection that was innermost before deeper ones were closed.
    #[tactic(auto, unfolding(crate::specs::Block::entry))]
    #[inline(always)]
    fn entry<'t>(
        &mut self,
        column: usize,
        is_item: bool,
        outer: Option<usize>,
        text: &'t [u8],
    ) -> Result<&'t [u8], Halt>
        ensures ok { IfOk result (λ rest. entry column is_item (state_of self.old) text.now
            ≡ Some (state_of self.new, rest.now)) }
        ensures err { IfErr result (λ halt. halt ≢ OutOfMemory
            → entry column is_item (state_of self.old) text.now ≡ None) }
    {
        if is_item && is_sequence_at(self.innermost_block(), column) {
            self.item(text)
        } else if !is_item && is_mapping_at(self.innermost_block(), column) {
            self.node(Role::Entry, text)
        } else {
            Err(self.no_entry(column, outer, text))
        }
    }

    /// Returns the refusal of a token that is no entry at this column. `outer` is the column of the
    /// collection that was innermost before deeper ones were closed.
    fn no_entry(&self, column: usize, outer: Option<usize>, text: &[u8]) -> Halt {
        let reason = match (outer, self.outer_column()) {
            _ if begins(text, b'\t') => Reason::Tab,
            (None, _) => Reason::TextAfterValue,
            (Some(before), _) if before == column => Reason::NotAnEntry,
            (_, Some(after)) if after == column => Reason::NotAnEntry,
            _ => Reason::Indentation,
        };
        Halt::at(reason, text)
    }

    /// Reads the `-` of an item, and appends its event.
    #[tactic(auto, unfolding(crate::specs::Block::item))]
    fn item<'t>(&mut self, text: &'t [u8]) -> Result<&'t [u8], Halt>
        ensures ok { IfOk result (λ rest. item (state_of self.old) text.now
            ≡ Some (state_of self.new, rest.now)) }
        ensures err { IfErr result (λ halt. halt ≡ OutOfMemory) }
    {
        let depth = self.blocks.len();
        self.emit(Event::Item { depth })?;
        self.expect(Next::Value);
        let (line, rest) = after_lines(after_byte(text, b'-'), self.line, true);
        self.place(&(true, line, rest));
        Ok(rest)
    }

    /// Reads the anchor and the tag of a node, and then its content. If no content is on their line, they are
    /// kept for the next value.
    #[tactic(auto, unfolding(crate::specs::Block::node))]
    fn node<'t>(&mut self, role: Role, text: &'t [u8]) -> Result<&'t [u8], Halt>
        ensures ok { IfOk result (λ rest. node role (state_of self.old) text.now
            ≡ Some (state_of self.new, rest.now)) }
        ensures err { IfErr result (λ halt. halt ≢ OutOfMemory
            → node role (state_of self.old) text.now ≡ None) }
    {
        let (properties, spot) = node_properties(text, self.line, false)?;
        if !spot.0 {
            return self.content(role, properties, text, spot.2);
        }
        if matches!(role, Role::Entry) {
            return Err(Halt::at(Reason::NotAnEntry, text));
        }
        self.pending = joined(self.pending, properties, text)?;
        self.place(&spot);
        Ok(spot.2)
    }

    /// Reads the content of a node from `at` on. Its anchor and tag are from `text` to `at`.
    #[tactic(auto, unfolding(crate::specs::Block::content))]
    fn content<'t>(
        &mut self,
        role: Role,
        properties: Properties,
        text: &'t [u8],
        at: &'t [u8],
    ) -> Result<&'t [u8], Halt>
        ensures ok { IfOk result (λ rest. content role properties (state_of self.old) text.now
            at.now ≡ Some (state_of self.new, rest.now)) }
        ensures err { IfErr result (λ halt. halt ≢ OutOfMemory
            → content role properties (state_of self.old) text.now at.now ≡ None) }
    {
        let is_entry = matches!(role, Role::Entry);
        match at {
            [] => Err(Halt::at(Reason::NotAnEntry, at)),
            [first, rest @ ..] if *first == b'[' || *first == b'{' => {
                if is_entry {
                    return Err(Halt::at(Reason::CollectionKey, at));
                }
                self.open_collection(properties, *first, rest)
            }
            [first, rest @ ..] if *first == b'|' || *first == b'>' => {
                if is_entry {
                    return Err(Halt::at(Reason::NotAnEntry, at));
                }
                self.block_scalar(properties, *first, rest, at)
            }
            _ => self.scalar_node(role, properties, text, at),
        }
    }

    /// Reads a scalar or an alias from `at` on: as a key if a colon follows, and otherwise as a value.
    #[tactic(auto, unfolding(crate::specs::Block::scalar_node))]
    fn scalar_node<'t>(
        &mut self,
        role: Role,
        properties: Properties,
        text: &'t [u8],
        at: &'t [u8],
    ) -> Result<&'t [u8], Halt>
        ensures ok { IfOk result (λ rest. scalar_node role properties (state_of self.old) text.now
            at.now ≡ Some (state_of self.new, rest.now)) }
        ensures err { IfErr result (λ halt. halt ≢ OutOfMemory
            → scalar_node role properties (state_of self.old) text.now at.now ≡ None) }
    {
        let (style, rest) = scalar(at, false)?;
        let colon = after_blanks(rest);
        if colon_follows(colon, false, style) {
            if !fits_key(text, colon) {
                return Err(Halt::at(Reason::LongKey, text));
            }
            if is_alias(style) && has_any(properties) {
                return Err(Halt::at(Reason::Properties, text));
            }
            return self.key(role, style, at, rest);
        }
        if matches!(role, Role::Entry) {
            return Err(Halt::at(Reason::NotAnEntry, at));
        }
        let end = self.value_end(style, rest);
        self.value(false, properties, style, 0, at, end)?;
        Ok(self.go_on(end))
    }

    /// Returns the text after a value. `rest` begins after the value, or after the first line of an unquoted
    /// value.
    fn value_end<'t>(&self, style: Style, rest: &'t [u8]) -> &'t [u8]
        ensures { result.now ≡ value_end (state_of self.now) style rest.now }
    {
        if matches!(style, Style::Plain) {
            after_plain_lines(rest, self.outer_column())
        } else {
            rest
        }
    }

    /// Reads a key, from `at` to `rest`, and its colon. In the role `Open`, the key begins a mapping.
    #[tactic(auto, unfolding(crate::specs::Block::key))]
    fn key<'t>(
        &mut self,
        role: Role,
        style: Style,
        at: &'t [u8],
        rest: &'t [u8],
    ) -> Result<&'t [u8], Halt>
        ensures ok { IfOk result (λ next. key role style (state_of self.old) at.now rest.now
            ≡ Some (state_of self.new, next.now)) }
        ensures err { IfErr result (λ halt. halt ≢ OutOfMemory
            → key role style (state_of self.old) at.now rest.now ≡ None) }
    {
        match role {
            Role::Open(column) => self.open_block(Kind::Mapping, column)?,
            Role::Entry => {}
            Role::Inline => return Err(Halt::at(Reason::NotAValue, at)),
        }
        let depth = self.blocks.len();
        let span = self.span(at, rest);
        self.emit(Event::Key { depth, style, span })?;
        self.expect(Next::Value);
        Ok(self.go_on(after_byte(after_blanks(rest), b':')))
    }

    /// Appends the event of a value from `text` to `rest`, and expects no other value after it.
    #[tactic(auto, unfolding(crate::specs::Block::value))]
    #[inline(always)]
    pub(crate) fn value(
        &mut self,
        in_flow: bool,
        properties: Properties,
        style: Style,
        indent: usize,
        text: &[u8],
        rest: &[u8],
    ) -> Result<(), Halt>
        ensures ok { IfOk result (λ _. value in_flow properties style indent (state_of self.old)
            text.now rest.now ≡ Some (state_of self.new)) }
        ensures err { IfErr result (λ halt. halt ≢ OutOfMemory
            → value in_flow properties style indent (state_of self.old) text.now rest.now ≡ None) }
    {
        let both = joined(self.pending, properties, text)?;
        if is_alias(style) && has_any(both) {
            return Err(Halt::at(Reason::Properties, text));
        }
        let span = self.span(text, rest);
        self.emit(Event::Value {
            style,
            span,
            in_flow,
            indent,
        })?;
        self.expect(Next::Done);
        Ok(())
    }

    /// Opens a collection in brackets. Its opening bracket is `byte`, the byte before `rest`.
    #[tactic(auto, unfolding(crate::specs::Block::open_bracket))]
    pub(crate) fn open_collection<'t>(
        &mut self,
        properties: Properties,
        byte: u8,
        rest: &'t [u8],
    ) -> Result<&'t [u8], Halt>
        ensures ok { IfOk result (λ next. open_bracket properties byte (state_of self.old) rest.now
            ≡ Some (state_of self.new, next.now)) }
        ensures err { IfErr result (λ halt. halt ≢ OutOfMemory
            → open_bracket properties byte (state_of self.old) rest.now ≡ None) }
    {
        let _both = joined(self.pending, properties, rest)?;
        let bracket = if byte == b'[' {
            Bracket::Sequence
        } else {
            Bracket::Mapping
        };
        self.open_bracket(bracket)?;
        self.expect(Next::Member);
        Ok(self.go_on(rest))
    }

    /// Reads a block scalar at the start of `text`, which is `byte` and then `rest`.
    #[tactic(auto, unfolding(crate::specs::Block::block_scalar))]
    fn block_scalar<'t>(
        &mut self,
        properties: Properties,
        byte: u8,
        rest: &'t [u8],
        text: &'t [u8],
    ) -> Result<&'t [u8], Halt>
        ensures ok { IfOk result (λ next. block_scalar properties byte (state_of self.old) rest.now
            text.now ≡ Some (state_of self.new, next.now)) }
        ensures err { IfErr result (λ halt. halt ≢ OutOfMemory
            → block_scalar properties byte (state_of self.old) rest.now text.now ≡ None) }
    {
        let Some(column) = self.outer_column() else {
            return Err(Halt::at(Reason::BlockHeader, text));
        };
        let (indent, end) = block_lines(column, header(rest)?)?;
        let style = if byte == b'|' {
            Style::Literal
        } else {
            Style::Folded
        };
        self.value(false, properties, style, indent, text, end)?;
        let (line, next) = after_lines(end, end.len(), true);
        self.place(&(true, line, next));
        Ok(next)
    }
}
