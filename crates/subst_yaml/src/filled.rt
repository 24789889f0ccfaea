//! Fills in the values of a YAML text. All other bytes are copied.

ghost use Rattle.std.specs.Prelude.{◌≡◌, true, false, IfErr, IfNone, IfOk, IfSome};
ghost use Rattle.subst_language.specs.Language.Several.{GivesBy, RefusesFirst};
ghost use Rattle.subst_document.specs.Stays.{SomeChanges};
ghost use Rattle.subst_document.specs.Texts.{HasRange};
ghost use Rattle.subst_yaml.specs.Errors.{HasOwnMemory};
ghost use Rattle.subst_yaml.specs.Filled.{strings_at, strings_in};
ghost use Rattle.subst_yaml.specs.InPlace.{Holds};
ghost use Rattle.subst_yaml.specs.Outcome.{IfYaml, IsInside, OnSubst, ReadsAs};
ghost use Rattle.subst_yaml.specs.Passes.{AllStay, TellsChange};

use crate::Error;
use crate::change::{Change, change_of};
use crate::lines::spelled;
use crate::spell::Place;
use crate::token::{part, token_at};
use std::alloc::{AllocError, Global};
use subst_document::Fill;
use subst_yaml_reader::{Event, Events, Span};

/// The output up to the end of the last changed value. It is empty until a value changes.
#[derive(Drop)]
struct Output {
    text: Vec<u8>,
    /// The number of bytes of the source that are copied, or replaced by new tokens.
    done: usize,
}

/// Appends the bytes of the source between the last changed value and `span`, and then `value`, the new token
/// at `span`.
///
/// # Errors
///
/// If allocation fails.
fn append(output: &mut Output, source: &[u8], span: Span, value: &[u8]) -> Result<(), AllocError> {
    output
        .text
        .extend_from_slice(part(source, output.done, span.start))?;
    output.text.extend_from_slice(value)?;
    output.done = span.end;
    Ok(())
}

/// Fills in an event: if it is a value that changes, appends its new token. Returns whether it changes.
///
/// # Errors
///
/// If the value's string is refused, or if allocation fails. An error isn't `Yaml`.
fn fill_in_event<F: Fill>(
    alloc: Global,
    source: &[u8],
    event: Event,
    filler: &F,
    output: &mut Output,
) -> Result<bool, Error>
    ensures ok { IfOk result (TellsChange (F.answers filler.now) source.now event) }
    ensures yaml { IfYaml result (λ _. ⊥) }
    ensures subst { OnSubst result
        (RefusesFirst (F.answers filler.now) (strings_at source.now event)) }
    ensures range { OnSubst result HasRange }
    ensures memory { IfErr result HasOwnMemory }
{
    let Event::Value {
        style,
        span,
        in_flow,
        indent,
    } = event
    else {
        return Ok(false);
    };
    let token = token_at(source, span);
    match change_of(alloc, style, indent, token, filler)? {
        Change::Kept => Ok(false),
        Change::Replaced(value) => {
            let place = Place {
                style,
                in_flow,
                indent,
                token,
            };
            let token = spelled(alloc, place, value.as_str(), filler)?;
            append(output, source, span, &token)?;
            Ok(true)
        }
    }
}

/// Returns a text with its values filled in, or `None` if no value changes.
///
/// # Errors
///
/// `Yaml` if the source is refused by the reader, `Subst` for the first refused string, or `OutOfMemory` if
/// allocation fails.
pub(crate) fn filled_in<F: Fill>(
    alloc: Global,
    source: &str,
    filler: &F,
) -> Result<Option<Vec<u8>>, Error>
    ensures stay { IfOk result (λ output. IfNone output
        (ReadsAs source.now (AllStay (F.answers filler.now) source.now))) }
    ensures change { IfOk result (λ output. IfSome output (λ _. ReadsAs source.now (λ es.
        SomeChanges (GivesBy (F.answers filler.now)) (strings_in source.now es)))) }
    ensures yaml { IfYaml result (Holds source.now) }
    ensures inside { IfYaml result (λ fault. IsInside fault.span source.now) }
    ensures subst { OnSubst result (λ f. ReadsAs source.now (λ es.
        RefusesFirst (F.answers filler.now) (strings_in source.now es) f)) }
    ensures range { OnSubst result HasRange }
    ensures memory { IfErr result HasOwnMemory }
{
    let text = source.as_bytes();
    let mut events = Events::new(alloc, source)?;
    let mut output = Output {
        text: Vec::new(alloc),
        done: 0,
    };
    let mut is_changed = false;
    for _ in 0..u64::MAX {
        let Some(event) = events.next()? else {
            return Ok(whole(output, text, is_changed)?);
        };
        match fill_in_event(alloc, text, event, filler, &mut output) {
            Ok(changes) => is_changed |= changes,
            Err(error) => {
                events.pass_over()?;
                return Err(error);
            }
        }
    }
    Err(Error::OutOfMemory(AllocError))
}

/// Returns the output with the rest of the source appended, or `None` if no value changed.
///
/// # Errors
///
/// If allocation fails.
fn whole(output: Output, source: &[u8], is_changed: bool) -> Result<Option<Vec<u8>>, AllocError>
    ensures stay { IfOk result (λ text. IfNone text (is_changed ≡ false)) }
    ensures change { IfOk result (λ text. IfSome text (λ _. is_changed ≡ true)) }
{
    if !is_changed {
        return Ok(None);
    }
    let Output { mut text, done } = output;
    text.extend_from_slice(part(source, done, source.len()))?;
    Ok(Some(text))
}
