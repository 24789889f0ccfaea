//! Parsing and expanding a source in one pass, without a list of its parts.

ghost use Rattle.std.specs.Prelude.{◌≡◌, ◌+◌, ◌<◌, ◌≤◌, [], length, IfErr, IfNone, IfOk, IfSome, OnErr, OnOk};
ghost use Rattle.std.specs.Prelude.{string_bytes, string_capacity, string_len, vec_capacity, vec_len};
ghost use Rattle.subst_error.specs.ErrorFault.{error_fault, expand_into_fault, parse_fault, substitute_into_fault};
ghost use Rattle.subst_error.specs.Range.{range_of, IsRangeIn};
ghost use Rattle.subst_language.specs.Language.Answer.{Answers, Refuses};
ghost use Rattle.subst_language.specs.Language.BadItem.{HasFault};
ghost use Rattle.subst_language.specs.Language.Bytes.{IsPlain};
ghost use Rattle.subst_language.specs.Language.Sentence.{ByTree, IsSentence};
ghost use Rattle.subst_language.specs.Language.Written.{written};
ghost use Rattle.subst_language.specs.Calls.Clauses.{ContainsDefault, HasOutput, NeedsMemory};
ghost use Rattle.subst_language.specs.Calls.Outcome.{answer_of, refusal_of, IfRefused, OnFault, OnOutOfMemory, SubstitutesInto};
ghost use Rattle.subst_language.specs.Calls.VariableMap.{ByLookUp, ByNames};
ghost use Rattle.subst_parse.specs.ByteRun.{IsRun};
ghost use Rattle.subst_expand.specs.Expansion.{AppendsTemplate, IsExpansion};

use std::alloc::Global;
use std::convert::AsStr;
use std::mem;
use subst_error::{Error, ExpandIntoError, ParseError, SubstituteIntoError};
use subst_expand::expand::error_of;
use subst_expand::expand_text::text_of;
use subst_expand::{ReadValue, TextBytes, Writer};
use subst_language::VariableMap;
use subst_parse::{Reads, parse_into};

/// Appends the output of a source to `output`, with the values of `variables` as `R` reads them. The first
/// `plain` bytes of the source must have no `$` and no `\`, and only the bytes after them are parsed.
/// Variables are looked up while the source is read, even if a fault follows.
///
/// # Errors
///
/// The fault of the source if it is no sentence. Otherwise `NoSuchVariable` for the first needed name that
/// `variables` has no value for. Out of memory only if the clauses `full` and `cause` allow it. After any
/// error, the items of `output` are unchanged.
pub(crate) fn substitute_into<'s, 'a, M: VariableMap<'a>, R: ReadValue<M::Value>>(
    alloc: Global,
    source: &'s [u8],
    plain: usize,
    variables: &'a M,
    output: &mut Vec<u8>,
) -> Result<(), SubstituteIntoError<'s>>
where
    M::Value: Drop,
    requires { IsRun IsPlain source.now 0 plain }
    ensures answer { ByLookUp R.read M.see (M.look_up variables.now)
        (λ look. SubstitutesInto source.now output.old.items result output.new.items look) }
    ensures kept { OnErr result (output.new.items ≡ output.old.items) }
    ensures capacity { vec_capacity output.old ≤ vec_capacity output.new }

    // The parse runs out of memory only if a default begins in the source. The expansion runs out of memory
    // only if the spare capacity is too small for the bytes that it has to write.
    ensures full { ByLookUp R.read M.see (M.look_up variables.now)
        (λ look. ByTree source.now (λ t. IfRefused result (λ e. Unit {0})
        (λ e. IfNone (expand_into_fault e)
        (vec_capacity output.old < vec_len output.old + length (written 0 t look))))) }
    ensures cause { NeedsMemory source.now result }
    ensures sentence { IfOk result (λ done. IsSentence source.now) }
    ensures complete { IfOk result (λ done. HasOutput (M.look_up variables.now) source.now) }
    ensures kind { IfRefused result (λ e. IfSome (parse_fault e) (HasFault 0 source.now))
        (λ e. IsSentence source.now) }
    ensures refusal { ByNames (M.look_up variables.now) (λ look. IfErr result
        (λ e. IfSome (substitute_into_fault e) (λ f. Answers source.now look (Refuses f)))) }
    ensures range { IfErr result
        (λ e. (range_of (substitute_into_fault e)).end ≤ length source.now) }

    // The output consists of bytes from the source and, for each value, of bytes for which `R.is_read` holds.
    // This clause applies even if contracts can't state the bytes of the map's values.
    ensures filled { OnOk result (AppendsTemplate R.is_read (M.look_up variables.now) source.now
        output.old.items output.new.items) }
{
    Ok(expand_in_one_pass::<M, R>(alloc, source, plain, variables, output)??)
}

/// Returns the output of a source, with the values of `variables` as `R` reads them. The output's initial
/// capacity is the length of the source plus `extra` bytes. The first `plain` bytes of the source must have
/// no `$` and no `\`.
///
/// # Errors
///
/// As `substitute_into`, and out of memory if allocation fails.
pub(crate) fn substitute<'a, M: VariableMap<'a>, R: ReadValue<M::Value>>(
    alloc: Global,
    source: &[u8],
    plain: usize,
    extra: u8,
    variables: &'a M,
) -> Result<Vec<u8>, Error>
where
    M::Value: Drop,
    requires { IsRun IsPlain source.now 0 plain }
    ensures answer { ByLookUp R.read M.see (M.look_up variables.now)
        (λ look. IfSome (answer_of (λ output. output.items) result) (Answers source.now look)) }
    ensures sentence { IfOk result (λ output. IsSentence source.now) }
    ensures complete { IfOk result (λ output. HasOutput (M.look_up variables.now) source.now) }
    ensures refusal { ByNames (M.look_up variables.now)
        (λ look. IfSome (refusal_of result) (Answers source.now look)) }
    ensures range { IfErr result (λ e. (range_of (error_fault e)).end ≤ length source.now) }
    ensures filled { IfOk result (λ output. AppendsTemplate R.is_read (M.look_up variables.now)
        source.now [] output.items) }
{
    let mut output = Vec::with_capacity(alloc, source.len() + usize::from(extra))?;
    match substitute_into::<M, R>(alloc, source, plain, variables, &mut output) {
        Ok(()) => Ok(output),
        Err(e) => Err(e.into_owned(alloc)),
    }
}

/// Appends the output of a text to `output`, as `substitute_into` does for bytes.
///
/// # Errors
///
/// As `substitute_into`. The text in `output` is then unchanged.
pub(crate) fn substitute_text_into<'s, 'a, M: VariableMap<'a>>(
    alloc: Global,
    source: &'s str,
    plain: usize,
    variables: &'a M,
    output: &mut String,
) -> Result<(), SubstituteIntoError<'s>>
where
    M::Value: AsStr + Drop,
    requires { IsRun IsPlain source.now 0 plain }
    ensures answer { ByLookUp M.Value.text M.see (M.look_up variables.now)
        (λ look. SubstitutesInto source.now (string_bytes output.old) result
        (string_bytes output.new) look) }
    ensures kept { OnErr result (string_bytes output.new ≡ string_bytes output.old) }
    ensures capacity { string_capacity output.old ≤ string_capacity output.new }
    ensures full { ByLookUp M.Value.text M.see (M.look_up variables.now)
        (λ look. ByTree source.now (λ t. IfRefused result (λ e. Unit {0})
        (λ e. IfNone (expand_into_fault e)
        (string_capacity output.old < string_len output.old + length (written 0 t look))))) }
    ensures cause { NeedsMemory source.now result }
    ensures sentence { IfOk result (λ done. IsSentence source.now) }
    ensures complete { IfOk result (λ done. HasOutput (M.look_up variables.now) source.now) }
    ensures kind { IfRefused result (λ e. IfSome (parse_fault e) (HasFault 0 source.now))
        (λ e. IsSentence source.now) }
    ensures refusal { ByNames (M.look_up variables.now) (λ look. IfErr result
        (λ e. IfSome (substitute_into_fault e) (λ f. Answers source.now look (Refuses f)))) }
    ensures range { IfErr result
        (λ e. IsRangeIn source.now (range_of (substitute_into_fault e))) }
{
    let mut bytes = mem::replace(output, String::new(alloc)).into_bytes();
    let source = source.as_bytes();
    let outcome = substitute_into::<M, TextBytes>(alloc, source, plain, variables, &mut bytes);
    *output = text_of(bytes);
    outcome
}

/// Returns the output of a text, as `substitute` does for bytes.
///
/// # Errors
///
/// As `substitute`.
pub(crate) fn substitute_text<'a, M: VariableMap<'a>>(
    alloc: Global,
    source: &str,
    plain: usize,
    extra: u8,
    variables: &'a M,
) -> Result<String, Error>
where
    M::Value: AsStr + Drop,
    requires { IsRun IsPlain source.now 0 plain }
    ensures answer { ByLookUp M.Value.text M.see (M.look_up variables.now)
        (λ look. IfSome (answer_of (λ output. string_bytes output) result)
        (Answers source.now look)) }
    ensures sentence { IfOk result (λ output. IsSentence source.now) }
    ensures complete { IfOk result (λ output. HasOutput (M.look_up variables.now) source.now) }
    ensures refusal { ByNames (M.look_up variables.now)
        (λ look. IfSome (refusal_of result) (Answers source.now look)) }
    ensures range { IfErr result (λ e. IsRangeIn source.now (range_of (error_fault e))) }
{
    let source = source.as_bytes();
    Ok(text_of(substitute::<M, TextBytes>(alloc, source, plain, extra, variables)?))
}

/// Appends the output of a source to `output`, as `substitute_into` does.
///
/// # Errors
///
/// The outer error is that of the parse: the source's fault if it is no sentence, or out of memory. The parse
/// runs out of memory only if a default begins in the source.
///
/// The inner error is that of the expansion: `NoSuchVariable` for the first needed name without a value, or
/// out of memory. The expansion runs out of memory only if the capacity of `output` is too small. After
/// either error, the items of `output` are unchanged.
fn expand_in_one_pass<'s, 'a, M: VariableMap<'a>, R: ReadValue<M::Value>>(
    alloc: Global,
    source: &'s [u8],
    plain: usize,
    variables: &'a M,
    output: &mut Vec<u8>,
) -> Result<Result<(), ExpandIntoError<'s>>, ParseError>
where
    M::Value: Drop,
    requires { IsRun IsPlain source.now 0 plain }
    ensures refused { OnFault parse_fault result (HasFault 0 source.now) }
    ensures cause { OnOutOfMemory parse_fault result (ContainsDefault source.now) }
    ensures kept { OnErr result (output.new.items ≡ output.old.items) }
    ensures capacity { vec_capacity output.old ≤ vec_capacity output.new }
    ensures expanded { let before = output.old in IfOk result (IsExpansion R.read R.is_read M.see
        (M.look_up variables.now) source.now before.items output.new.items (vec_capacity before)
        (vec_len before)) }
{
    let len = output.len();
    let taken = mem::replace(output, Vec::new(alloc));
    let writer = Writer::<M, R, Vec<u8>>::new(source, variables, taken);
    let (writer, _, parsed) = parse_into(alloc, source, plain, writer, Reads::new());
    let (written, outcome) = writer.finish();
    *output = written;
    if let Err(e) = parsed {
        output.truncate(len);
        return Err(e);
    }
    if let Err(stop) = outcome {
        output.truncate(len);
        return Ok(Err(error_of(source, stop)));
    }
    Ok(Ok(()))
}
