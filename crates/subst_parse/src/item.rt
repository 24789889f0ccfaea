//! Reads the escape or placeholder at an offset, or returns its fault. The result doesn't depend on where a
//! default around the offset ends.

ghost use Rattle.std.specs.Prelude.{◌≡◌, ◌+◌, ◌-◌, ◌∷◌, List, ℕ, IfOk, IfErr, MatchResult, drop, length};
ghost use Rattle.subst_language.specs.Language.Bytes.{dollar, question_mark, backslash, opening_brace};
ghost use Rattle.subst_language.specs.Language.Name.{BeginsWithNo};
ghost use Rattle.subst_parse.specs.Cost.{GrowsBetween, end_of_name};
ghost use Rattle.subst_parse.specs.Placeholder.{IsEscape, IsInBraces, IsPlaceholder, StatesBadItem};

use crate::byte_class::is_escapable;
use crate::halt::Halt;
use crate::tape::Tape;
use subst_language::Span;

/// A placeholder, or its head up to the colon of its default.
#[derive(Clone, Copy)]
pub(crate) enum Placeholder {
    /// `$name`
    Short(Span),
    /// `${name}`
    Braced(Span),
    /// `${name?}`
    Optional(Span),
    /// `${name:`
    Default(Span),
}

/// Returns the byte escaped by the backslash at `at`, or the fault if no escapable byte follows.
#[inline(always)]
pub(crate) fn escape_at(tape: &mut Tape<'_>, at: usize) -> Result<u8, Halt>
    requires { (rest : List ℕ) × (drop at tape.old.source.now ≡ backslash ∷ rest) }
    ensures ok { IfOk result (IsEscape tape.old.source.now at) }
    ensures err { IfErr result (λ e. StatesBadItem e tape.old.source.now at) }
    ensures same { tape.new.source ≡ tape.old.source }
    ensures cost { MatchResult result (λ b. GrowsBetween 1 1 tape.old.reads tape.new.reads)
        (λ e. GrowsBetween 1 5 tape.old.reads tape.new.reads) }
{
    match tape.byte_at(at + 1) {
        None => Err(Halt::EscapeAtEnd { position: at }),
        Some(byte) if is_escapable(byte) => Ok(byte),
        Some(_) => Err(Halt::BadEscape {
            position: at,
            character: tape.character_at(at + 1),
        }),
    }
}

/// Returns the placeholder that begins at `at`, or its fault. Reads `${name:default}` up to the colon.
#[inline(always)]
pub(crate) fn placeholder_at(tape: &mut Tape<'_>, at: usize) -> Result<Placeholder, Halt>
    requires { (rest : List ℕ) × (drop at tape.old.source.now ≡ dollar ∷ rest) }
    ensures ok { IfOk result (IsPlaceholder tape.old.source.now at) }
    ensures err { IfErr result (λ e. StatesBadItem e tape.old.source.now at) }
    ensures same { tape.new.source ≡ tape.old.source }
    ensures cost { MatchResult result
        (λ p. GrowsBetween (end_of_name p - at) (end_of_name p - at + 1)
        tape.old.reads tape.new.reads)
        (λ e. GrowsBetween 0 (length tape.old.source.now - at + 5) tape.old.reads tape.new.reads) }
{
    if tape.byte_at(at + 1) == Some(b'{') {
        braced_at(tape, at)
    } else {
        short_at(tape, at)
    }
}

/// Returns the placeholder `$name` at `at`, or the fault of a missing name. The source must have no `{`
/// directly after the dollar.
#[inline(always)]
fn short_at(tape: &mut Tape<'_>, at: usize) -> Result<Placeholder, Halt>
    requires dollar { drop at tape.old.source.now ≡ dollar ∷ drop (at + 1) tape.old.source.now }
    requires unbraced { BeginsWithNo (λ b. b ≡ opening_brace) (drop (at + 1) tape.old.source.now) }
    ensures ok { IfOk result (IsPlaceholder tape.old.source.now at) }
    ensures err { IfErr result (λ e. StatesBadItem e tape.old.source.now at) }
    ensures same { tape.new.source ≡ tape.old.source }
    ensures cost { MatchResult result
        (λ p. GrowsBetween (end_of_name p - at - 1) (end_of_name p - at)
        tape.old.reads tape.new.reads)
        (λ e. GrowsBetween 0 (length tape.old.source.now - at + 4) tape.old.reads tape.new.reads) }
{
    let start = at + 1;
    let end = tape.name_end(start);
    if start == end {
        return Err(Halt::NoName {
            position: at,
            len: 1,
        });
    }
    Ok(Placeholder::Short(Span { start, end }))
}

/// Returns the placeholder `${name}`, `${name?}` or `${name:` that begins at `at`, or its fault.
#[inline(always)]
fn braced_at(tape: &mut Tape<'_>, at: usize) -> Result<Placeholder, Halt>
    requires { drop at tape.old.source.now
        ≡ dollar ∷ opening_brace ∷ drop (at + 2) tape.old.source.now }
    ensures ok { IfOk result (IsPlaceholder tape.old.source.now at) }
    ensures err { IfErr result (λ e. StatesBadItem e tape.old.source.now at) }
    ensures same { tape.new.source ≡ tape.old.source }
    ensures cost { MatchResult result
        (λ p. GrowsBetween (end_of_name p - at - 1) (end_of_name p - at)
        tape.old.reads tape.new.reads)
        (λ e. GrowsBetween 0 (length tape.old.source.now - at + 4) tape.old.reads tape.new.reads) }
{
    let start = at + 2;
    let end = tape.name_end(start);
    if start == end {
        return Err(Halt::NoName {
            position: at,
            len: 2,
        });
    }
    let name = Span { start, end };
    match tape.byte_at(end) {
        None => Err(Halt::Unclosed { position: at + 1 }),
        Some(b'}') => Ok(Placeholder::Braced(name)),
        Some(b':') => Ok(Placeholder::Default(name)),
        Some(b'?') => optional_at(tape, at, name),
        Some(_) => Err(Halt::AfterName {
            position: end,
            character: tape.character_at(end),
        }),
    }
}

/// Returns the placeholder `${name?}` at `at`, or its fault. The source must have `${name?` at `at`.
fn optional_at(tape: &mut Tape<'_>, at: usize, name: Span) -> Result<Placeholder, Halt>
    requires { IsInBraces tape.old.source.now at name question_mark }
    ensures ok { IfOk result (IsPlaceholder tape.old.source.now at) }
    ensures err { IfErr result (λ e. StatesBadItem e tape.old.source.now at) }
    ensures same { tape.new.source ≡ tape.old.source }
    ensures end { IfOk result (λ p. end_of_name p ≡ name.end + 1) }
    ensures cost { MatchResult result (λ p. GrowsBetween 1 1 tape.old.reads tape.new.reads)
        (λ e. GrowsBetween 1 5 tape.old.reads tape.new.reads) }
{
    let closing = name.end + 1;
    match tape.byte_at(closing) {
        None => Err(Halt::Unclosed { position: at + 1 }),
        Some(b'}') => Ok(Placeholder::Optional(name)),
        Some(_) => Err(Halt::AfterQuestionMark {
            position: closing,
            character: tape.character_at(closing),
        }),
    }
}
