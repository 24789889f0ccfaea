//! A sink that keeps no parts, but writes their output at once.

ghost use Rattle.std.specs.Prelude.{◌≡◌, ◌+◌, ◌^◌, ℕ, List, [], IfErr, OnOk};
ghost use Rattle.subst_language.specs.Parts.Meaning.{IsInSource};
ghost use Rattle.subst_expand.specs.declared.writer.State.TheVariants as states;

use crate::append::append_part;
use crate::expand::Stop;
use crate::output::Output;
use crate::read_value::ReadValue;
use std::alloc::AllocError;
use std::marker::PhantomData;
use subst_language::{Part, Sink, Span, VariableMap};

/// The state of a writer: how it treats the next part.
#[derive(Clone, Copy)]
pub(crate) enum State {
    /// The part is written.
    Writing,
    /// The part is skipped, since it is inside a default whose name has a value. The number is the index of
    /// that default's part.
    Jumping(usize),
    /// The part is skipped, since writing has stopped.
    Stopped(Stop),
}

impl State {
    ghost use Rattle.std.specs.Prelude.{◌≡◌, ◌↔◌, IsTrue};
    ghost use Rattle.subst_expand.specs.declared.writer.State.TheVariants as states;

    /// Returns whether parts are skipped up to the end of the default whose part is at `index`.
    fn is_inside(self, index: usize) -> bool
        ensures { IsTrue result ↔ (self ≡ states.Jumping index) }
    {
        match self {
            State::Jumping(default) => default == index,
            State::Writing | State::Stopped(_) => false,
        }
    }
}

/// A writer of the output of parts, with the values of `variables` as `R` reads them.
#[derive(Drop)]
pub struct Writer<'s, 'a, M, R, W> {
    source: &'s [u8],
    variables: &'a M,
    output: W,
    /// The number of parts taken so far.
    len: usize,
    state: State,
    reads: PhantomData<R>,
}

impl<'s, 'a, M: VariableMap<'a>, R: ReadValue<M::Value>, W: Output> Writer<'s, 'a, M, R, W>
where
    M::Value: Drop,
{
    ghost use Rattle.subst_expand.specs.Writing.{NotStopped, WritesOn};
    ghost use Rattle.subst_expand.specs.Context.{context_of};
    ghost use Rattle.subst_expand.specs.Writer.{AtFirst, WriterHolds, output_of, state_of};

    /// Creates a writer that has written nothing yet.
    pub fn new(source: &'s [u8], variables: &'a M, output: W) -> Self
        ensures { let first : AtFirst M.Seen W = record {
          source = source.now;
          look_up = M.look_up variables.now;
          output = output;
        } in WriterHolds
            (λ map. context_of R.read R.is_read M.see (M.look_up map) W.holds W.len W.capacity)
            result first [] }
    {
        Writer {
            source,
            variables,
            output,
            len: 0,
            state: State::Writing,
            reads: PhantomData,
        }
    }

    /// Returns the output, and the reason why writing stopped, if it did.
    pub fn finish(self) -> (W, Result<(), Stop>)
        ensures output { result.0 ≡ output_of self.entry }
        ensures stopped { IfErr result.1 (λ stop. state_of self.entry ≡ states.Stopped stop) }
        ensures unstopped { OnOk result.1 (NotStopped (state_of self.entry)) }
    {
        let Writer { output, state, .. } = self;
        match state {
            State::Stopped(stop) => (output, Err(stop)),
            State::Writing | State::Jumping(_) => (output, Ok(())),
        }
    }

    /// Writes the output of a single part, if the state is `Writing`. Returns whether the part was written
    /// and is a default whose name has a value.
    #[inline(always)]
    fn write(&mut self, part: Part) -> bool
        requires { IsInSource self.old.source.now part }
        ensures source { self.new.source ≡ self.old.source }
        ensures variables { self.new.variables ≡ self.old.variables }
        ensures len { self.new.len ≡ self.old.len }
        ensures written { let context = context_of R.read R.is_read M.see
            (M.look_up self.old.variables.now)
            W.holds W.len W.capacity in WritesOn context self.old.source.now part self.old.state
            self.old.output
            result self.new.state self.new.output }
    {
        let State::Writing = self.state else {
            return false;
        };
        match append_part::<M, R, W>(self.source, part, self.variables, &mut self.output) {
            Ok(found) => found,
            Err(stop) => {
                self.state = State::Stopped(stop);
                false
            }
        }
    }
}

impl<'s, 'a, M: VariableMap<'a>, R: ReadValue<M::Value>, W: Output> Sink for Writer<'s, 'a, M, R, W>
where
    M::Value: Drop,
{
    ghost use Rattle.std.specs.Prelude.{◌≡◌};
    ghost use Rattle.subst_expand.specs.Context.{context_of};
    ghost use Rattle.subst_expand.specs.Writer.{AtFirst, WriterHolds};

    ghost First = { AtFirst M.Seen W };

    ghost holds = { WriterHolds
        (λ map. context_of R.read R.is_read M.see (M.look_up map) W.holds W.len W.capacity) };

    ghost source = { λ first s. first.source ≡ s };

    ghost limit = { 2 ^ 64 };

    ghost asks = { ⊥ };

    #[inline(always)]
    fn take(&mut self, part: Part) -> Result<(), AllocError> {
        let _ = self.write(part);
        self.len += 1;
        Ok(())
    }

    #[inline(always)]
    fn take_optional(&mut self, name: Span) -> Result<(), AllocError> {
        let next = self.len + 1;
        let _ = self.write(Part::Default { name, next });
        self.len = next;
        Ok(())
    }

    #[inline(always)]
    fn open(&mut self, name: Span) -> Result<usize, AllocError> {
        let index = self.len;
        if self.write(Part::Default { name, next: 0 }) {
            self.state = State::Jumping(index);
        }
        self.len += 1;
        Ok(index)
    }

    #[inline(always)]
    fn close(&mut self, index: usize, _name: Span) {
        if self.state.is_inside(index) {
            self.state = State::Writing;
        }
    }
}
