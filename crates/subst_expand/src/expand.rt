//! The loop that expands a list of parts over its source, compiled for each width of parts and each kind of
//! output. It appends the value of the parts under the map's look-up, or stops at a missing variable or a
//! full output. Each part that it visits adds a turn. Even for a map whose values no contract states,
//! contracts state the missing variable, and the bytes of the output around the values.

ghost use Rattle.std.specs.Prelude.{◌≡◌, ◌≤◌, ◌<◌, ◌+◌, ◌^◌, ◌++◌, length, Err, IfErr, IfOk, IfSome, OnOk};
ghost use Rattle.std.specs.Prelude.{vec_capacity, vec_len};
ghost use Rattle.subst_error.specs.ErrorFault.{expand_fault, expand_into_fault};
ghost use Rattle.subst_language.specs.Language.Answer.{IsMissing};
ghost use Rattle.subst_language.specs.Language.Name.{IsName};
ghost use Rattle.subst_language.specs.Calls.VariableMap.{ByLookUp};
ghost use Rattle.subst_language.specs.Calls.Outcome.{Expands, ExpandsIntoSlice, OnOutOfMemory};
ghost use Rattle.subst_expand.specs.Context.{context_of};
ghost use Rattle.subst_expand.specs.Expansion.{ExpandsParts};
ghost use Rattle.subst_expand.specs.Output.{IfMissing, fault_of};
ghost use Rattle.subst_language.specs.Parts.Span.{IsSpan, span_bytes};
ghost use Rattle.subst_expand.specs.Packed.{unpacked_parts};
ghost use Rattle.subst_language.specs.Parts.Meaning.{AllFit, parts_value, parts_written, visited_parts};
ghost use Rattle.subst_expand.specs.Filled.{FillsMarks, marks_of};
ghost use Rattle.subst_expand.specs.Writing.{AppendsParts};
ghost use Rattle.subst_expand.specs.declared.expand.Stop.TheVariants as stops;

use crate::counted_parts::CountedParts;
use crate::output::{Output, SliceOutput};
use crate::packed_part::{Offset, PackedPart};
use crate::part_vec::{CowParts, PartSlice};
use crate::read_value::ReadValue;
use crate::turns::Turns;
use std::alloc::{AllocError, Global};
use std::{mem, str};
use subst_error::{ExpandError, ExpandIntoError, NoSuchVariableRef};
use subst_language::{Part, Span, VariableMap};

/// The number of bytes by which the initial capacity of an output exceeds the length of its source. Values
/// are often longer than their placeholders.
pub(crate) const MORE_CAPACITY: usize = 64;

/// The reason why an expansion stopped.
#[derive(Clone, Copy)]
pub enum Stop {
    /// The output is too small and can't grow.
    Full(AllocError),
    /// A needed variable has no value. Its name is in this span of the source.
    Missing(Span),
}

impl From<AllocError> for Stop {
    ghost from_gives = { λ e stop. stop ≡ stops.Full e };

    fn from(e: AllocError) -> Stop {
        Stop::Full(e)
    }
}

/// Expands the parts of a source with the values of `variables`, read by `R`. Each visited part adds a turn.
///
/// # Errors
///
/// `NoSuchVariable` for the first needed name without a value, or out of memory.
pub fn expand<'a, M: VariableMap<'a>, R: ReadValue<M::Value>>(
    alloc: Global,
    source: &[u8],
    parts: &CowParts<'_>,
    variables: &'a M,
    turns: &mut Turns,
) -> Result<Vec<u8>, ExpandError>
where
    M::Value: Drop,
    requires { AllFit 0 (length parts.now) source.now parts.now }
    ensures value { ByLookUp R.read M.see (M.look_up variables.now)
        (λ look. Expands (λ output. output.items) result (parts_value parts.now source.now look)) }
    ensures counted { ByLookUp R.read M.see (M.look_up variables.now)
        (λ look. OnOk result
        (turns.new ≡ turns.old + length (visited_parts parts.now 0 0 source.now look))) }
    ensures at_most { ByLookUp R.read M.see (M.look_up variables.now)
        (λ look. turns.new ≤ turns.old + length (visited_parts parts.now 0 0 source.now look)) }
    ensures grown { turns.old ≤ turns.new }

    // The output, even if no contract states the values: bytes from the source and, as the values, bytes of
    // which `R.is_read` holds.
    ensures filled { IfOk result (λ output. FillsMarks R.is_read
        (parts_value parts.now source.now (marks_of (M.look_up variables.now))) output.items) }

    // The missing variable, even if no contract states the values.
    ensures missing { IfErr result (λ e. IfSome (expand_fault e)
        (IsMissing (parts_value parts.now source.now (marks_of (M.look_up variables.now))))) }
{
    let mut output = Vec::with_capacity(alloc, source.len() + MORE_CAPACITY)?;
    match expand_into::<M, R>(source, parts, variables, turns, &mut output) {
        Ok(()) => Ok(output),
        Err(e) => Err(e.into_owned(alloc)),
    }
}

/// Appends the result of `expand` to `output`.
///
/// # Errors
///
/// As `expand`. The items of `output` are then unchanged.
#[inline(always)]
pub fn expand_into<'s, 'a, M: VariableMap<'a>, R: ReadValue<M::Value>>(
    source: &'s [u8],
    parts: &CowParts<'_>,
    variables: &'a M,
    turns: &mut Turns,
    output: &mut Vec<u8>,
) -> Result<(), ExpandIntoError<'s>>
where
    M::Value: Drop,
    requires { AllFit 0 (length parts.now) source.now parts.now }
    ensures expands { let before = output.old in ExpandsParts R.read R.is_read M.see
        (M.look_up variables.now) source.now parts.now before.items output.new.items
        (vec_capacity before) (vec_len before) result }
    ensures capacity { vec_capacity output.old ≤ vec_capacity output.new }
    ensures counted { ByLookUp R.read M.see (M.look_up variables.now)
        (λ look. OnOk result
        (turns.new ≡ turns.old + length (visited_parts parts.now 0 0 source.now look))) }
    ensures at_most { ByLookUp R.read M.see (M.look_up variables.now)
        (λ look. turns.new ≤ turns.old + length (visited_parts parts.now 0 0 source.now look)) }
    ensures grown { turns.old ≤ turns.new }
{
    let len = output.len();
    match append::<M, R, Vec<u8>>(source, parts, variables, turns, output) {
        Ok(()) => Ok(()),
        Err(stop) => {
            output.truncate(len);
            Err(error_of(source, stop))
        }
    }
}

/// Writes the result of `expand` to the start of a slice, and returns the length of the result in bytes. If
/// the slice is shorter, its contents are unspecified.
///
/// # Errors
///
/// As `expand`, but out of memory only if the output is too long for a `usize`. After any error, the contents
/// of the slice are unspecified.
pub fn expand_into_slice<'s, 'a, M: VariableMap<'a>, R: ReadValue<M::Value>>(
    source: &'s [u8],
    parts: &CowParts<'_>,
    variables: &'a M,
    slice: &mut [u8],
) -> Result<usize, ExpandIntoError<'s>>
where
    M::Value: Drop,
    requires { AllFit 0 (length parts.now) source.now parts.now }
    ensures value { ByLookUp R.read M.see (M.look_up variables.now)
        (λ look. ExpandsIntoSlice slice.old result slice.new
        (parts_value parts.now source.now look)) }
    ensures full { ByLookUp R.read M.see (M.look_up variables.now)
        (λ look. OnOutOfMemory expand_into_fault result
        (2 ^ 64 ≤ length (parts_written parts.now source.now look))) }
    ensures missing { IfErr result (λ e. IfSome (expand_into_fault e)
        (IsMissing (parts_value parts.now source.now (marks_of (M.look_up variables.now))))) }
{
    let mut output = SliceOutput { slice, written: 0 };
    let outcome = append::<M, R, SliceOutput<'_>>(
        source,
        parts,
        variables,
        &mut Turns::new(),
        &mut output,
    );
    match outcome {
        Ok(()) => Ok(output.written),
        Err(stop) => Err(error_of(source, stop)),
    }
}

/// Appends the output of the parts of a source to `output`, or returns the reason why the expansion stopped.
#[inline(always)]
fn append<'a, M: VariableMap<'a>, R: ReadValue<M::Value>, W: Output>(
    source: &[u8],
    parts: &CowParts<'_>,
    variables: &'a M,
    turns: &mut Turns,
    output: &mut W,
) -> Result<(), Stop>
where
    M::Value: Drop,
    requires { AllFit 0 (length parts.now) source.now parts.now }
    ensures { let context =
        context_of R.read R.is_read M.see (M.look_up variables.now) W.holds W.len W.capacity in
        AppendsParts context source.now parts.now result output.old output.new turns.old
        turns.new }
{
    match parts.as_slice() {
        PartSlice::Narrow(packed) => {
            append_packed::<M, R, u32, W>(source, packed, variables, turns, output)
        }
        PartSlice::Wide(packed) => {
            append_packed::<M, R, usize, W>(source, packed, variables, turns, output)
        }
    }
}

/// Appends the output of packed parts of a source, as `append` does.
#[inline(always)]
fn append_packed<'a, M: VariableMap<'a>, R: ReadValue<M::Value>, O: Offset, W: Output>(
    source: &[u8],
    packed: &[PackedPart<O>],
    variables: &'a M,
    turns: &mut Turns,
    output: &mut W,
) -> Result<(), Stop>
where
    M::Value: Drop,
    requires { let parts = unpacked_parts O.value packed.now in
        AllFit 0 (length parts) source.now parts }
    ensures { let context =
        context_of R.read R.is_read M.see (M.look_up variables.now) W.holds W.len W.capacity in
        AppendsParts context source.now (unpacked_parts O.value packed.now) result output.old
        output.new turns.old turns.new }
{
    let mut list = CountedParts::new(packed, mem::replace(turns, Turns::new()));
    let outcome = append_list::<M, R, O, W>(source, &mut list, variables, output);
    *turns = list.into_turns();
    outcome
}

/// Appends the output of the parts of a list, as `append` does. The loop doesn't call `append_part`: each arm
/// of the `match` here advances the index itself. This takes fewer instructions than a test of the call's
/// result.
#[inline(always)]
fn append_list<'a, M: VariableMap<'a>, R: ReadValue<M::Value>, O: Offset, W: Output>(
    source: &[u8],
    list: &mut CountedParts<'_, O>,
    variables: &'a M,
    output: &mut W,
) -> Result<(), Stop>
where
    M::Value: Drop,
    requires { AllFit 0 (length list.old.parts) source.now list.old.parts }
    ensures { let context =
        context_of R.read R.is_read M.see (M.look_up variables.now) W.holds W.len W.capacity in
        AppendsParts context source.now list.old.parts result output.old output.new list.old.turns
        list.new.turns }
{
    let mut at = 0;
    while let Some(part) = list.part_at(at) {
        match part {
            Part::Literal(span) => {
                output.append_bytes(bytes_at(source, span))?;
                at += 1;
            }
            Part::Escaped(byte) => {
                output.append_byte(byte)?;
                at += 1;
            }
            Part::Variable(name) => {
                let Some(value) = variables.get(name_at(source, name)) else {
                    return Err(Stop::Missing(name));
                };
                output.append_bytes(R::bytes_of(&value))?;
                at += 1;
            }
            Part::Default { name, next } => match variables.get(name_at(source, name)) {
                Some(value) => {
                    output.append_bytes(R::bytes_of(&value))?;
                    at = next;
                }
                None => at += 1,
            },
        }
    }
    Ok(())
}

/// Returns the bytes of the source in a span.
pub(crate) fn bytes_at(source: &[u8], span: Span) -> &[u8]
    requires { IsSpan source.now span }
    ensures { result.now ≡ span_bytes span source.now }
{
    &source[span.start..span.end]
}

/// Returns the variable's name in a span of the source.
pub(crate) fn name_at(source: &[u8], name: Span) -> &str
    requires inside { IsSpan source.now name }
    requires name { IsName (span_bytes name source.now) }
    ensures { result.now ≡ span_bytes name source.now }
{
    // The bytes of a name are ASCII.
    unsafe { str::from_utf8_unchecked(bytes_at(source, name)) }
}

/// Returns the error of an expansion that stopped for the reason `stop`.
pub fn error_of(source: &[u8], stop: Stop) -> ExpandIntoError<'_>
    requires { IfMissing (Err stop) (λ name.
        IsSpan source.now name × IsName (span_bytes name source.now)) }
    ensures { expand_into_fault result ≡ fault_of stop source.now }
{
    match stop {
        Stop::Full(e) => e.into(),
        Stop::Missing(name) => ExpandIntoError::NoSuchVariable(NoSuchVariableRef {
            position: name.start,
            name: name_at(source, name),
        }),
    }
}
