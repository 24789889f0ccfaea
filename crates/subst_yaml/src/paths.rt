//! Keeps the path to the next value of a text while its events are read.

ghost use Rattle.std.specs.Prelude.{◌≡◌, ◌∷◌, ◌++◌, ◌-◌, [], IfOk, slice_get, string_bytes, take};
ghost use Rattle.subst_document.specs.Paths.{step_of};
ghost use Rattle.subst_yaml.specs.Paths.{after_event, begun, first_step, key_at, last_step, left, next_index, path_at, path_of, path_step, start, stepped, trail_of, went_on};

use crate::path::Path;
use crate::token::token_at;
use std::alloc::{AllocError, Global};
use std::str::from_utf8;
use subst_document::PathStep;
use subst_yaml_reader::{Bracket, Event, Span};

/// A step of a path, before its key is copied from the text.
#[derive(Clone, Copy)]
pub(crate) enum StepAt {
    /// The step to the value of the key whose token is at this span.
    Key(Span),
    /// The step to the item at an index of a sequence without brackets.
    Item(usize),
    /// The step to the item at an index of a sequence in brackets.
    Member(usize),
}

/// The path to the next value of a text, while its events are read.
#[derive(Drop)]
pub(crate) struct Trail {
    /// The number of the document, from 1, or 0 before the first one.
    document: usize,
    /// The steps from the root to the next value.
    steps: Vec<StepAt>,
}

/// Returns the index of the next item of a sequence without brackets. It is one more than the index in
/// `last`, or 0 if `last` isn't a step to such an item.
fn next_index(last: Option<StepAt>) -> Result<usize, AllocError>
    ensures { IfOk result (λ index. index ≡ next_index last) }
{
    match last {
        Some(StepAt::Item(index)) => index.checked_add(1).ok_or(AllocError),
        _ => Ok(0),
    }
}

/// Returns the first step in a collection in brackets: to the first item of a sequence, or to a key that
/// isn't read yet.
fn first_step(bracket: Bracket) -> StepAt
    ensures { result ≡ first_step bracket }
{
    match bracket {
        Bracket::Sequence => StepAt::Member(0),
        Bracket::Mapping | Bracket::Pair => StepAt::Key(Span { start: 0, end: 0 }),
    }
}

/// Returns the key at a span as it is written, or an empty text if that isn't UTF-8.
///
/// # Errors
///
/// If allocation fails.
fn key_at(alloc: Global, text: &[u8], span: Span) -> Result<String, AllocError>
    ensures { IfOk result (λ key. string_bytes key ≡ key_at text.now span) }
{
    match from_utf8(token_at(text, span)) {
        Ok(key) => String::from_str(alloc, key),
        Err(_) => Ok(String::new(alloc)),
    }
}

/// Converts a step into a step of a [`Path`], with its key copied from `text`.
///
/// # Errors
///
/// If allocation fails.
fn path_step(alloc: Global, text: &[u8], step: StepAt) -> Result<PathStep, AllocError>
    ensures { IfOk result (λ copy. step_of copy ≡ path_step text.now step) }
{
    match step {
        StepAt::Key(span) => Ok(PathStep::Key(key_at(alloc, text, span)?)),
        StepAt::Item(index) | StepAt::Member(index) => Ok(PathStep::Index(index)),
    }
}

impl Trail {
    /// Creates the initial trail. Its position is before the first document.
    pub(crate) fn new(alloc: Global) -> Trail
        ensures { trail_of result ≡ start }
    {
        Trail {
            document: 0,
            steps: Vec::new(alloc),
        }
    }

    /// Moves the path on to the next value after `event`.
    ///
    /// # Errors
    ///
    /// If allocation fails, or if a count exceeds `usize::MAX`, for which no list of events is long enough.
    pub(crate) fn pass(&mut self, event: Event) -> Result<(), AllocError>
        ensures { IfOk result (λ _. trail_of self.new ≡ after_event (trail_of self.old) event) }
    {
        match event {
            Event::Document => self.begin(),
            Event::Item { depth } => {
                let index = next_index(self.steps.get(depth.saturating_sub(1)).copied())?;
                self.step(depth, StepAt::Item(index))
            }
            Event::Key { depth, span, .. } => self.step(depth, StepAt::Key(span)),
            Event::Value { .. } | Event::Null => self.go_on(),
            Event::Open(bracket) => Ok(self.steps.push(first_step(bracket))?),
            Event::FlowKey { span, .. } => {
                self.leave();
                Ok(self.steps.push(StepAt::Key(span))?)
            }
            Event::Close => {
                self.leave();
                self.go_on()
            }
        }
    }

    /// Moves the path on to the next document, and removes all steps.
    fn begin(&mut self) -> Result<(), AllocError>
        ensures { IfOk result (λ _. trail_of self.new ≡ begun (trail_of self.old)) }
    {
        self.document = self.document.checked_add(1).ok_or(AllocError)?;
        self.steps.clear();
        Ok(())
    }

    /// Replaces all steps from `depth` on with `step`. The first step has depth 1.
    fn step(&mut self, depth: usize, step: StepAt) -> Result<(), AllocError>
        ensures { IfOk result (λ _. trail_of self.new ≡ stepped depth step (trail_of self.old)) }
    {
        self.steps.truncate(depth.saturating_sub(1));
        Ok(self.steps.push(step)?)
    }

    /// Removes the last step.
    fn leave(&mut self)
        ensures { trail_of self.new ≡ left (trail_of self.old) }
    {
        let _ = self.steps.pop();
    }

    /// Moves the path on after a value: in a sequence in brackets, to the next item. Elsewhere the path is
    /// unchanged.
    fn go_on(&mut self) -> Result<(), AllocError>
        ensures { IfOk result (λ _. trail_of self.new ≡ went_on (trail_of self.old)) }
    {
        let Some(StepAt::Member(index)) = self.steps.last().copied() else {
            return Ok(());
        };
        let next = index.checked_add(1).ok_or(AllocError)?;
        self.leave();
        Ok(self.steps.push(StepAt::Member(next))?)
    }

    /// Returns the path to the next value, with its keys copied from `text`.
    ///
    /// # Errors
    ///
    /// If allocation fails.
    pub(crate) fn path(&self, alloc: Global, text: &[u8]) -> Result<Path, AllocError>
        ensures { IfOk result (λ path. path_of path ≡ path_at text.now (trail_of self.now)) }
    {
        let mut steps = Vec::with_capacity(alloc, self.steps.len())?;
        for step in self.steps.iter() {
            steps.push(path_step(alloc, text, *step)?)?;
        }
        Ok(Path {
            document: self.document,
            steps,
        })
    }
}
