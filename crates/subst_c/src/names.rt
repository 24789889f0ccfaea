//! The variables of templates that C keeps.

ghost use Rattle.std.specs.Prelude.{◌≡◌, IfSome, MatchOption, Some};
ghost use Rattle.subst_language.specs.Parts.Span.{IsSpan};
ghost use Rattle.subst_c.specs.Names.{IsUseTold, kind_between, span_at, use_record};

use crate::outcome::{DONE, NOT_A_TEMPLATE};
use crate::variables::{OPTIONAL, REQUIRED, VariableRecord, WITH_DEFAULT};
use subst_indexed::cell::Cell;
use subst_indexed::head::name_span;
use subst_language::Span;

/// Writes the record of the first use of the name with a number. Returns `NOT_A_TEMPLATE` if the cells have
/// no such name, or if the name isn't in the source.
pub fn deliver(cells: &[Cell], source: &[u8], number: usize, first_use: &mut VariableRecord) -> u32
    ensures { IsUseTold source.now (span_at cells.now number) result first_use.old first_use.new }
{
    let Some(name) = name_at(cells, source, number) else {
        return NOT_A_TEMPLATE;
    };
    *first_use = use_of(source, name);
    DONE
}

/// Returns the span of the name with a number. Returns `None` if the cells have no such name, or if the name
/// isn't in the source.
pub fn name_at(cells: &[Cell], source: &[u8], number: usize) -> Option<Span>
    ensures { MatchOption result
        (IfSome (span_at cells.now number) (λ name. ¬ (IsSpan source.now name)))
        (λ name. (span_at cells.now number ≡ Some name) × IsSpan source.now name) }
{
    let name = name_span(cells, number)?;
    if name.start > name.end || name.end > source.len() {
        return None;
    }
    Some(name)
}

/// Returns the record of the use of the name in a span of the source.
pub fn use_of(source: &[u8], name: Span) -> VariableRecord
    requires { IsSpan source.now name }
    ensures { result ≡ use_record source.now name }
{
    VariableRecord {
        kind: kind_between(
            source.get(name.start.saturating_sub(1)).copied(),
            source.get(name.end).copied(),
        ),
        position: name.start,
        length: name.end - name.start,
    }
}

/// Returns the number of the kind of a placeholder, by the bytes before and after its name.
fn kind_between(before: Option<u8>, next: Option<u8>) -> u32
    ensures { result ≡ kind_between before next }
{
    let (Some(before), Some(next)) = (before, next) else {
        return REQUIRED;
    };
    if before == b'{' && next == b'?' {
        return OPTIONAL;
    }
    if before == b'{' && next == b':' {
        return WITH_DEFAULT;
    }
    REQUIRED
}
