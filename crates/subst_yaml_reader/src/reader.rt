//! The state of the reader between tokens.

ghost use Rattle.std.specs.Prelude.{◌≡◌, ◌≢◌, Some, None, IfErr, IfOk};
ghost use Rattle.subst_yaml_reader.specs.Block.{after_token};
ghost use Rattle.subst_yaml_reader.specs.Reader.{state_of};
ghost use Rattle.subst_yaml_reader.specs.State.{closed, column_of, emit, initial, innermost, opened, outer_column, placed, push_block, span_of, with_next, without_events};
ghost use Rattle.subst_yaml_reader.specs.declared.error.Halt.TheVariants.{OutOfMemory};

use crate::error::Halt;
use crate::event::{Bracket, Event, Span, Style};
use crate::scalar::{Properties, Spot, after_gap};
use std::alloc::Global;

/// The kind of a collection without brackets.
#[derive(Clone, Copy)]
pub(crate) enum Kind {
    /// A collection of items.
    Sequence,
    /// A collection of keys and their values.
    Mapping,
}

/// An open collection without brackets.
#[derive(Clone, Copy)]
pub(crate) struct Collection {
    /// The kind of the collection.
    pub(crate) kind: Kind,
    /// The column of its entries, from 0.
    pub(crate) column: usize,
}

/// The tokens that are expected next.
#[derive(Clone, Copy)]
pub(crate) enum Next {
    /// The first document.
    Start,
    /// A document mark, since `...` has ended a document.
    Ended,
    /// A value.
    Value,
    /// No value, since the value that was expected has been read.
    Done,
    /// A member of a collection in brackets.
    Member,
}

/// The kind of an event. The reason for refusing text after the event depends on its kind.
#[derive(Clone, Copy)]
pub(crate) enum EventKind {
    /// The end of a collection in brackets.
    Close,
    /// A value without quotes, or a missing one in brackets.
    Unquoted,
    /// Any other event, or none.
    Other,
}

impl EventKind {
    /// Returns the kind of an event.
    fn of(event: Event) -> EventKind {
        match event {
            Event::Close => EventKind::Close,
            Event::Value {
                style: Style::Plain,
                ..
            }
            | Event::Null => EventKind::Unquoted,
            _ => EventKind::Other,
        }
    }
}

/// The state of the reader between two tokens. A turn reads one token.
#[derive(Drop)]
pub(crate) struct Reader {
    /// The length of the whole text in bytes.
    pub(crate) size: usize,
    /// The number of bytes from the start of the next token's line to the end of the whole text.
    pub(crate) line: usize,
    /// Whether the next token is the first on its line, or the first after `- `. A collection without
    /// brackets can begin there.
    pub(crate) is_fresh: bool,
    /// The tokens that are expected next.
    pub(crate) next: Next,
    /// Whether an earlier turn read an anchor for the next value, and whether an earlier turn read a tag for
    /// it.
    pub(crate) pending: Properties,
    /// The open collections without brackets, the innermost last.
    pub(crate) blocks: Vec<Collection>,
    /// The open collections in brackets, the innermost last.
    pub(crate) brackets: Vec<Bracket>,
    /// The events of the last turn.
    pub(crate) events: Vec<Event>,
    /// The kind of the last event before those in `events`.
    pub(crate) last: EventKind,
}

impl Reader {
    /// Creates the reader of a text of `size` bytes. `line` is the number of bytes from the start of the
    /// first token's line to the end of the text.
    pub(crate) fn new(alloc: Global, size: usize, line: usize) -> Reader
        ensures { state_of result ≡ initial size line }
    {
        Reader {
            size,
            line,
            is_fresh: true,
            next: Next::Start,
            pending: Properties {
                anchor: false,
                tag: false,
            },
            blocks: Vec::new(alloc),
            brackets: Vec::new(alloc),
            events: Vec::new(alloc),
            last: EventKind::Other,
        }
    }

    /// Sets `last` to the kind of the last event so far, and clears `events`.
    pub(crate) fn forget_events(&mut self)
        ensures { state_of self.new ≡ without_events (state_of self.old) }
    {
        self.last = self.last_kind();
        self.events.clear();
    }

    /// Returns the kind of the last event so far.
    pub(crate) fn last_kind(&self) -> EventKind {
        match self.events.last() {
            Some(event) => EventKind::of(*event),
            None => self.last,
        }
    }

    /// Appends an event.
    pub(crate) fn emit(&mut self, event: Event) -> Result<(), Halt>
        ensures ok { IfOk result (λ _. state_of self.new ≡ emit event (state_of self.old)) }
        ensures err { IfErr result (λ halt. halt ≡ OutOfMemory) }
    {
        self.events.push(event)?;
        Ok(())
    }

    /// Sets `is_fresh` and `line` for the next token, which is at `spot`.
    pub(crate) fn place(&mut self, spot: &Spot<'_>)
        ensures { state_of self.new ≡ placed spot.now.0 spot.now.1 (state_of self.old) }
    {
        self.is_fresh = spot.0;
        self.line = spot.1;
    }

    /// Moves to the next token in `rest`, after white space and comments. Returns the text from that token
    /// on.
    #[inline(always)]
    pub(crate) fn go_on<'t>(&mut self, rest: &'t [u8]) -> &'t [u8]
        ensures { after_token rest.now (state_of self.old) ≡ Some (state_of self.new, result.now) }
    {
        let spot = after_gap(rest, self.line);
        self.place(&spot);
        spot.2
    }

    /// Sets the tokens that are expected next, and clears the pending anchor and tag.
    pub(crate) fn expect(&mut self, next: Next)
        ensures { state_of self.new ≡ with_next next (state_of self.old) }
    {
        self.next = next;
        self.pending = Properties {
            anchor: false,
            tag: false,
        };
    }

    /// Opens a collection without brackets.
    pub(crate) fn open_block(&mut self, kind: Kind, column: usize) -> Result<(), Halt>
        ensures ok { IfOk result (λ _. state_of self.new
            ≡ push_block kind column (state_of self.old)) }
        ensures err { IfErr result (λ halt. halt ≡ OutOfMemory) }
    {
        self.blocks.push(Collection { kind, column })?;
        Ok(())
    }

    /// Opens a collection in brackets, and appends its event.
    pub(crate) fn open_bracket(&mut self, bracket: Bracket) -> Result<(), Halt>
        ensures ok { IfOk result (λ _. state_of self.new ≡ opened bracket (state_of self.old)) }
        ensures err { IfErr result (λ halt. halt ≡ OutOfMemory) }
    {
        self.events.push(Event::Open(bracket))?;
        self.brackets.push(bracket)?;
        Ok(())
    }

    /// Closes the innermost collection in brackets, and appends its event.
    pub(crate) fn close_bracket(&mut self) -> Result<(), Halt>
        ensures ok { IfOk result (λ _. state_of self.new ≡ closed (state_of self.old)) }
        ensures err { IfErr result (λ halt. halt ≡ OutOfMemory) }
    {
        let _ = self.brackets.pop();
        self.events.push(Event::Close)?;
        Ok(())
    }

    /// Returns the innermost collection without brackets, or `None` if none is open.
    pub(crate) fn innermost_block(&self) -> Option<Collection>
        ensures { result ≡ innermost (state_of self.now).blocks }
    {
        self.blocks.last().copied()
    }

    /// Returns the kind of the innermost collection in brackets, or `None` if none is open.
    pub(crate) fn innermost_bracket(&self) -> Option<Bracket>
        ensures { result ≡ innermost (state_of self.now).brackets }
    {
        self.brackets.last().copied()
    }

    /// Returns the column of the innermost collection without brackets, or `None` if none is open.
    pub(crate) fn outer_column(&self) -> Option<usize>
        ensures { result ≡ outer_column (state_of self.now) }
    {
        match self.innermost_block() {
            Some(block) => Some(block.column),
            None => None,
        }
    }

    /// Returns the column of the token at the start of the text, from 0.
    pub(crate) fn column(&self, text: &[u8]) -> usize
        ensures { result ≡ column_of (state_of self.now) text.now }
    {
        self.line.saturating_sub(text.len())
    }

    /// Returns the span from the start of `text` to the start of `rest`, which is a later part of the source.
    pub(crate) fn span(&self, text: &[u8], rest: &[u8]) -> Span
        ensures { result ≡ span_of (state_of self.now) text.now rest.now }
    {
        Span {
            start: self.size.saturating_sub(text.len()),
            end: self.size.saturating_sub(rest.len()),
        }
    }
}
