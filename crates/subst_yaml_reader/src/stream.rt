//! The events of a text, as a stream.

ghost use Rattle.std.specs.Prelude.{◌≡◌, ◌∷◌, ◌<◌, ◌≤◌, [], Some, None, List, IfErr, IfNone, IfOk, IfSome, IsFalse, IsTrue, OnOk, length, option_map};
ghost use Rattle.subst_yaml_reader.specs.Reading.{events_of, read};
ghost use Rattle.subst_yaml_reader.specs.Refusal.{IsRefused};
ghost use Rattle.subst_yaml_reader.specs.Stream.{text_of, to_come};
ghost use Rattle.subst_yaml_reader.specs.declared.event.Event.{Event};

use crate::error::{Error, Halt, Reason};
use crate::event::Event;
use crate::reader::Reader;
use crate::runs::{after_lines, is_text};
use crate::turns::{after_directive, error_of, foreign};
use std::alloc::Global;

/// The events of a text of YAML, one at a time. They are the same as in the list that [`read`](crate::read)
/// returns. Memory is allocated for the open collections, not for the events that were returned.
#[derive(Drop)]
pub struct Events<'t> {
    /// The whole text.
    source: &'t [u8],
    /// The text from the next token on.
    rest: &'t [u8],
    /// The greatest number of turns that may follow. A turn reads one token.
    turns: usize,
    /// The state before the next turn, and the events of the last turn.
    reader: Reader,
    /// How many events of the last turn were returned.
    given: usize,
}

impl<'t> Events<'t> {
    /// Begins to read a text.
    ///
    /// # Errors
    ///
    /// If a character of the text is refused.
    #[tactic(auto, unfolding(crate::specs::Reading::read))]
    pub fn new(alloc: Global, source: &'t str) -> Result<Events<'t>, Error>
        ensures events { IfOk result (λ events. to_come events ≡ read source.now) }
        ensures text { IfOk result (λ events. text_of events ≡ source.now) }
        ensures err { IfErr result (λ error. IsRefused error source.now (read source.now)) }
    {
        let text = source.as_bytes();
        if !is_text(text) {
            return Err(error_of(text, foreign(text)));
        }
        Ok(Events::begin(alloc, text))
    }

    /// Begins to read a text that has no refused character.
    #[tactic(auto, unfolding(crate::specs::Reading::events_of))]
    fn begin(alloc: Global, text: &'t [u8]) -> Events<'t>
        ensures events { to_come result ≡ events_of text.now }
        ensures text { text_of result ≡ text.now }
    {
        let (line, first) = after_lines(text, text.len(), true);
        let (line, first) = after_directive(line, first);
        Events {
            source: text,
            rest: first,
            turns: text.len() + 1,
            reader: Reader::new(alloc, text.len(), line),
            given: 0,
        }
    }

    /// Returns the next event, or `None` at the end of the text.
    ///
    /// # Errors
    ///
    /// If the text is refused, or if allocation fails. Discard the earlier events then.
    pub fn next(&mut self) -> Result<Option<Event>, Error>
        ensures event { IfOk result (λ event. IfSome event (λ event.
            to_come self.old ≡ option_map (λ later. event ∷ later) (to_come self.new))) }
        ensures end { IfOk result (λ event. IfNone event (to_come self.old ≡ Some [])) }
        ensures text { text_of self.new ≡ text_of self.old }
        ensures err { IfErr result
            (λ error. IsRefused error (text_of self.old) (to_come self.old)) }
    {
        while self.given >= self.reader.events.len() {
            if !self.turn()? {
                return Ok(None);
            }
        }
        let event = self.reader.events[self.given];
        self.given += 1;
        Ok(Some(event))
    }

    /// Reads the next token. Returns `true`, or `false` at the end of the text. All events of the last turn
    /// must have been returned.
    fn turn(&mut self) -> Result<bool, Error>
        requires { length self.now.reader.events.items ≤ self.now.given }
        ensures more { IfOk result (λ more. IsTrue more → to_come self.new ≡ to_come self.old) }
        ensures end { IfOk result (λ more. IsFalse more → to_come self.old ≡ Some []) }
        ensures fewer { IfOk result (λ more. IsTrue more → self.new.turns < self.old.turns) }
        ensures text { text_of self.new ≡ text_of self.old }
        ensures err { IfErr result
            (λ error. IsRefused error (text_of self.old) (to_come self.old)) }
    {
        let Some(turns) = self.turns.checked_sub(1) else {
            return Err(error_of(self.source, Halt::at(Reason::Indicator, self.rest)));
        };
        if self.rest.is_empty() {
            return match self.reader.innermost_bracket() {
                None => Ok(false),
                Some(_) => Err(error_of(self.source, Halt::at(Reason::Bracket, b""))),
            };
        }
        self.turns = turns;
        self.given = 0;
        self.reader.forget_events();
        match self.reader.turn(self.rest) {
            Ok(rest) => {
                self.rest = rest;
                Ok(true)
            }
            Err(halt) => Err(error_of(self.source, halt)),
        }
    }

    /// Reads the rest of the text, and discards its events.
    ///
    /// # Errors
    ///
    /// If the text is refused, or if allocation fails.
    pub fn pass_over(&mut self) -> Result<(), Error>
        ensures ok { OnOk result ((events : List Event) × (to_come self.old ≡ Some events)) }
        ensures err { IfErr result
            (λ error. IsRefused error (text_of self.old) (to_come self.old)) }
    {
        for _ in 0..u64::MAX {
            let Some(_event) = self.next()? else {
                return Ok(());
            };
        }
        Err(Error::OutOfMemory)
    }
}

/// Reads a text, and returns its events.
pub(crate) fn read(alloc: Global, source: &str) -> Result<Vec<Event>, Error>
    ensures ok { IfOk result (λ events. read source.now ≡ Some events.items) }
    ensures err { IfErr result (λ error. IsRefused error source.now (read source.now)) }
{
    let mut events = Events::new(alloc, source)?;
    let mut list = Vec::new(alloc);
    for _ in 0..u64::MAX {
        let Some(event) = events.next()? else {
            return Ok(list);
        };
        if list.push(event).is_err() {
            break;
        }
    }
    Err(Error::OutOfMemory)
}
