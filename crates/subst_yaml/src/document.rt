//! Fills in the values of a text in place, and keeps all other bytes.

ghost use Rattle.std.specs.Prelude.{◌≡◌, IfOk, IfSome, string_bytes};
ghost use Rattle.subst_language.specs.Calls.Clauses.{AnswersText};
ghost use Rattle.subst_yaml.specs.InPlace.{FillsIn, FillsInBytes, IsFilledDocument};
ghost use Rattle.subst_yaml.specs.Outcome.{IsInside};
ghost use Rattle.subst_yaml.specs.declared.error.Reason.TheVariants.{InvalidUtf8};

use crate::compared::is_filled_document;
use crate::error::{Error, Fault, Reason};
use crate::filled::filled_in;
use crate::token::line_at;
use std::alloc::{AllocError, Global};
use std::convert::AsStr;
use std::str::from_utf8;
use subst_document::{Fill, Filler};
use subst_language::VariableMap;
use subst_yaml_reader::Span;

/// Returns a text of YAML with its values filled in from `variables`, whose values are texts. All other bytes
/// are kept: white space, comments, keys, tags, anchors and aliases, and each value that doesn't change. A
/// value that changes keeps its style if the new value fits that style, and is otherwise put in double
/// quotes. A value that spans several lines keeps its lines if each can be filled in by itself.
///
/// ```rust
/// let source = "port: ${PORT:8080} # of the service\nmotto: '${MOTTO:it is: \"x\"}'\n";
/// let output = yaml::fill_in(alloc, source, &NoSubstitution)?;
/// // Some("port: 8080 # of the service\nmotto: 'it is: \"x\"'\n")
/// ```
///
/// Without quotes, YAML decides the type of a value: `port: $PORT` is a number if `$PORT` is `8080`, and
/// `port: "$PORT"` is a string.
///
/// A token that contains neither `$` nor `\` isn't decoded, since its string is unchanged.
///
/// If a value changes, the output is read again and compared with the source. The result is `None` if the
/// comparison fails; no text is known for which that happens.
///
/// # Errors
///
/// - `Yaml` if the source is refused by the reader, even if one of its strings is refused too; the error has
///   the line.
/// - `Subst` for the first refused string, in the order of the text. Positions are byte offsets in that
///   string.
/// - `OutOfMemory` if allocation fails.
pub fn fill_in<'a, M: VariableMap<'a>>(
    alloc: Global,
    source: &str,
    variables: &'a M,
) -> Result<Option<String>, Error>
where
    M::Value: AsStr + Drop,
    ensures filled { FillsIn
        (AnswersText M.Value.text M.see (M.look_up variables.now)) source.now result }
{
    fill_in_by(alloc, source, &Filler { variables })
}

/// Reads a text of YAML from bytes, and fills in its values, as [`fill_in`] does.
///
/// # Errors
///
/// As [`fill_in`]. Also `Yaml` if the bytes aren't UTF-8.
pub fn fill_in_slice<'a, M: VariableMap<'a>>(
    alloc: Global,
    source: &[u8],
    variables: &'a M,
) -> Result<Option<String>, Error>
where
    M::Value: AsStr + Drop,
    ensures filled { FillsInBytes
        (AnswersText M.Value.text M.see (M.look_up variables.now)) source.now result }
{
    match from_utf8(source) {
        Ok(text) => fill_in(alloc, text, variables),
        Err(e) => Err(Error::Yaml(not_utf8(source, e.valid_up_to()))),
    }
}

/// Creates the refusal of bytes whose valid UTF-8 ends at `start`.
fn not_utf8(source: &[u8], start: usize) -> Fault
    ensures reason { result.reason ≡ InvalidUtf8 }
    ensures span { IsInside result.span source.now }
{
    let end = start.saturating_add(1).min(source.len());
    let start = start.min(end);
    Fault {
        reason: Reason::InvalidUtf8,
        span: Span { start, end },
        line: line_at(source, start),
    }
}

/// Fills in the values of a text of YAML by `filler`, as [`fill_in`] does. A string for which
/// [`Fill::needs_no_filling`] returns `true` isn't filled in.
///
/// # Errors
///
/// As [`fill_in`].
pub fn fill_in_by<F: Fill>(alloc: Global, source: &str, filler: &F) -> Result<Option<String>, Error>
    ensures filled { FillsIn (F.answers filler.now) source.now result }
{
    match filled_in(alloc, source, filler)? {
        Some(output) => Ok(confirmed(alloc, source, output, filler)?),
        None => Ok(Some(String::from_str(alloc, source)?)),
    }
}

/// Returns `output` if it is read as `source` with its values filled in, and otherwise `None`.
///
/// # Errors
///
/// If allocation fails. A refusal of the output isn't an error, since the source isn't at fault.
fn confirmed<F: Fill>(
    alloc: Global,
    source: &str,
    output: Vec<u8>,
    filler: &F,
) -> Result<Option<String>, AllocError>
    ensures { IfOk result (λ output. IfSome output (λ output.
        IsFilledDocument (F.answers filler.now) source.now (string_bytes output))) }
{
    let Ok(output) = String::from_utf8(output) else {
        return Ok(None);
    };
    if is_filled_document(alloc, source, output.as_str(), filler)? {
        Ok(Some(output))
    } else {
        Ok(None)
    }
}
