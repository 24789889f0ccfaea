//! Appending the output of a single part to any `Output`.

ghost use Rattle.std.specs.Prelude.{◌≡◌, IfErr, IfOk, is_some};
ghost use Rattle.subst_language.specs.Parts.Meaning.{IsInSource};
ghost use Rattle.subst_expand.specs.Context.{StopsAtPart, WritesPart, context_of, jump_of};

use crate::expand::{Stop, bytes_at, name_at};
use crate::output::Output;
use crate::read_value::ReadValue;
use subst_language::{Part, VariableMap};

/// Appends the output of a single part to `output`. Returns whether the part is a default whose name has a
/// value.
///
/// # Errors
///
/// If `output` is too small and can't grow, or if the part's variable is needed and has no value.
#[inline(always)]
pub(crate) fn append_part<'a, M: VariableMap<'a>, R: ReadValue<M::Value>, W: Output>(
    source: &[u8],
    part: Part,
    variables: &'a M,
    output: &mut W,
) -> Result<bool, Stop>
where
    M::Value: Drop,
    requires { IsInSource source.now part }
    ensures written { let context =
        context_of R.read R.is_read M.see (M.look_up variables.now) W.holds W.len W.capacity in
        IfOk result (λ found. WritesPart context source.now part output.old output.new) }
    ensures stopped { let context =
        context_of R.read R.is_read M.see (M.look_up variables.now) W.holds W.len W.capacity in
        IfErr result (λ stop. StopsAtPart context source.now part stop output.old output.new) }
    ensures found { IfOk result
        (λ found. found ≡ is_some (jump_of (M.look_up variables.now) source.now part)) }
{
    match part {
        Part::Literal(span) => {
            output.append_bytes(bytes_at(source, span))?;
            Ok(false)
        }
        Part::Escaped(byte) => {
            output.append_byte(byte)?;
            Ok(false)
        }
        Part::Variable(name) => {
            let Some(value) = variables.get(name_at(source, name)) else {
                return Err(Stop::Missing(name));
            };
            output.append_bytes(R::bytes_of(&value))?;
            Ok(false)
        }
        Part::Default { name, .. } => {
            let Some(value) = variables.get(name_at(source, name)) else {
                return Ok(false);
            };
            output.append_bytes(R::bytes_of(&value))?;
            Ok(true)
        }
    }
}
