//! Conversion of a text into a template.

ghost use Rattle.std.specs.Prelude.{◌≡◌, ◌+◌, ◌^◌, ◌<◌, ◌++◌, ◌≤◌, ℕ, List, [], length, string_bytes, take, IfOk, IfNone, IfSome, OnOk};
ghost use Rattle.std.specs.List.{position, AllByRecursion};
ghost use Rattle.std.specs.Str.{IsUtf8};
ghost use Rattle.std.specs.Prelude.{Some};
ghost use Rattle.subst_language.specs.Language.Tree.{Item, item_text};
ghost use Rattle.subst_foreign.specs.Grammar.{in_braces};
ghost use Rattle.subst_foreign.specs.Reading.{depth_after, grammar_of, left_open, outermost_at as spec_outermost, part, refused_at, token_of, token_text, IsAfterPlain, IsConverted, IsPlainAt, IsStep, is_special_inside};
ghost use Rattle.subst_foreign.specs.Template.{plain_item, template_name};

use crate::forms::{Forms, Missing, Operator};
use crate::names::Names;
use crate::refused::{FormAt, ShellForm};
use crate::style::Style;
use crate::token::{Step, Token, step_at};
use memchr::memchr2;
use std::alloc::{AllocError, Global};

/// The result of a conversion: a template and the refused forms. The template is valid only if no form is
/// refused.
#[derive(Drop)]
pub(crate) struct Converted {
    pub template: Vec<u8>,
    pub refused: Vec<FormAt>,
}

/// Converts a text into a template, and lists the forms that are refused.
///
/// # Errors
///
/// If allocation fails.
pub(crate) fn convert<N: Names>(
    alloc: Global,
    text: &[u8],
    style: Style<'_, N>,
) -> Result<Converted, AllocError>
    ensures { IfOk result (λ converted. IsConverted (grammar_of N.all N.counts style.entry)
        style.entry.missing text.now converted.template.items converted.refused.items) }
{
    let mut template = Vec::with_capacity(alloc, text.len())?;
    let mut refused = Vec::new(alloc);
    // The part of the text that has yet to be appended to the template.
    let mut pending = text;
    let mut rest = text;
    let mut depth = 0;
    // The offset of the outermost open variable.
    let mut outermost = 0;
    while let Some((special, (token, after))) = next_step(rest, depth, style) {
        let position = text.len() - special.len();
        outermost = outermost_at(depth, outermost, position);
        if let Some(written) = rewritten(token, style.forms, style.missing) {
            template.extend_from_slice(&pending[..pending.len() - special.len()])?;
            append(&mut template, written)?;
            pending = after;
        }
        append_refused(&mut refused, token, position)?;
        depth = next_depth(depth, token);
        rest = after;
    }
    template.extend_from_slice(pending)?;
    append_unclosed(&mut refused, depth, outermost)?;
    Ok(Converted { template, refused })
}

/// Returns the offset of the outermost variable that is open once the token at `position` is read. `depth` is
/// the depth before the token. If `depth` is 0, the offset is `position`; otherwise it is still `outermost`.
fn outermost_at(depth: usize, outermost: usize, position: usize) -> usize
    ensures { result ≡ spec_outermost depth outermost position }
{
    if depth == 0 { position } else { outermost }
}

/// Skips plain bytes, which are the same in the template. Returns the rest of the text, the first token of
/// this rest, and the text after the token. Returns `None` if all bytes are plain.
pub(crate) fn next_step<'t, N: Names>(
    text: &'t [u8],
    depth: usize,
    style: Style<'_, N>,
) -> Option<(&'t [u8], Step<'t>)>
    ensures some { IfSome result (λ found. IsAfterPlain depth text.now found.0.now
        × IsStep (grammar_of N.all N.counts style.entry) depth found.0.now found.1.0
        found.1.1.now) }
    ensures none { IfNone result (IsAfterPlain depth text.now []) }
{
    let special = &text[find_special(text, depth)?..];
    Some((special, step_at(special, depth, style)))
}

/// Returns the index of the first special byte, or `None` if there is none. `$` and `\` are special, and so
/// are braces if `depth` isn't 0.
fn find_special(text: &[u8], depth: usize) -> Option<usize>
    ensures some { IfSome result (λ at. AllByRecursion (IsPlainAt depth) (take at text.now)) }
    ensures within { IfSome result (λ at. at < length text.now) }
    ensures none { IfNone result (AllByRecursion (IsPlainAt depth) text.now) }
{
    if depth == 0 {
        memchr2(b'$', b'\\', text)
    } else {
        find_inner(text)
    }
}

/// Returns the index of the first `$`, `\` or brace, or `None` if there is none.
fn find_inner(text: &[u8]) -> Option<usize>
    ensures { result ≡ position is_special_inside text.now }
{
    text.iter().position(|byte| is_special(*byte))
}

/// Returns whether a byte is `$`, `\` or a brace.
fn is_special(byte: u8) -> bool
    ensures { result ≡ is_special_inside byte }
{
    matches!(byte, b'$' | b'\\' | b'{' | b'}')
}

/// Returns the nesting depth after a token: the number of open variables and braces.
pub(crate) fn next_depth(depth: usize, token: Token<'_>) -> usize
    requires few { depth + 1 < 2 ^ 64 }
    ensures { (front : List ℕ) → (result ≡ depth_after depth (token_of front token.entry)) }
{
    match token {
        Token::Opens(..) | Token::Opening => depth + 1,
        Token::Closing => depth.saturating_sub(1),
        _ => depth,
    }
}

/// Appends the refused form of a token at `position`, or nothing if the token isn't refused.
///
/// # Errors
///
/// If allocation fails.
fn append_refused(
    refused: &mut Vec<FormAt>,
    token: Token<'_>,
    position: usize,
) -> Result<(), AllocError>
    ensures { OnOk result ((front : List ℕ) → (refused.new.items
        ≡ refused.old.items ++ refused_at position (token_of front token.entry))) }
{
    match token {
        Token::Refused(form) => Ok(refused.push(FormAt { position, form })?),
        _ => Ok(()),
    }
}

/// Appends the refused form of an unclosed variable at `outermost`, if the text ends at a depth above 0.
///
/// # Errors
///
/// If allocation fails.
fn append_unclosed(
    refused: &mut Vec<FormAt>,
    depth: usize,
    outermost: usize,
) -> Result<(), AllocError>
    ensures { OnOk result (refused.new.items ≡ refused.old.items ++ left_open depth outermost) }
{
    if depth > 0 {
        refused.push(FormAt {
            position: outermost,
            form: ShellForm::Unclosed,
        })?;
    }
    Ok(())
}

/// The spelling of a token in the template, if it differs from the spelling in the text.
#[derive(Clone, Copy)]
struct Replacement<'t> {
    /// All bytes before the name, including a digit that a `ShellMap` reads.
    front: &'static [u8],
    /// The name, or no bytes.
    name: &'t [u8],
    /// The bytes of the placeholder after the name.
    end: &'static [u8],
}

/// Appends a replacement to the template.
///
/// # Errors
///
/// If allocation fails. Part of the replacement may then have been appended.
fn append(template: &mut Vec<u8>, written: Replacement<'_>) -> Result<(), AllocError>
    ensures { OnOk result (template.new.items
        ≡ template.old.items
        ++ (written.entry.front.now ++ written.entry.name.now ++ written.entry.end.now)) }
{
    template.extend_from_slice(written.front)?;
    template.extend_from_slice(written.name)?;
    template.extend_from_slice(written.end)
}

/// Returns the spelling of a token in the template, or `None` if the token is spelled as in the text.
fn rewritten<'t>(token: Token<'t>, forms: Forms, missing: Missing) -> Option<Replacement<'t>>
    ensures some { IfSome result (λ written. (front : List ℕ)
        → (part forms missing (token_of front token.entry)
        ≡ written.front.now ++ written.name.now ++ written.end.now)) }
    ensures none { IfNone result ((front : List ℕ)
        → (part forms missing (token_of front token.entry)
        ≡ token_text (token_of front token.entry))) }
{
    let (front, name, end): (&'static [u8], &'t [u8], &'static [u8]) = match token {
        Token::Byte(b'$') | Token::Dollars => (b"\\$", b"", b""),
        Token::Byte(b'\\') => (b"\\\\", b"", b""),
        Token::Refused(_) => (b"", b"", b""),
        Token::Short(name) | Token::Braced(name) => {
            let (front, end) = plain_ends(forms, missing)?;
            (front, name, end)
        }
        Token::Opens(name, operator) => (opening(forms, operator), name, b":"),
        Token::Required(name, operator, _) => (opening(forms, operator), name, b"}"),
        Token::Byte(_) | Token::Optional(_) | Token::Opening | Token::Closing => return None,
    };
    Some(Replacement { front, name, end })
}

/// Returns the bytes before and after the name of a variable without an operator, in the template into which
/// a text is converted. Returns `None` if the template spells such a variable as the text does.
fn plain_ends(forms: Forms, missing: Missing) -> Option<(&'static [u8], &'static [u8])>
    ensures some { IfSome result (λ ends. (item : Item) (n : List ℕ)
        → (item_text (plain_item forms missing item n) ≡ ends.0.now ++ n ++ ends.1.now)) }
    ensures none { IfNone result ((item : Item) (n : List ℕ)
        → (plain_item forms missing item n ≡ item)) }
{
    match (forms, missing) {
        (Forms::Common, _) => Some((b"${", b"?}")),
        (Forms::Shell, Missing::Fault) => Some((b"${1", b"}")),
        (Forms::Shell, Missing::Nothing) => Some((b"${1", b"?}")),
        (_, Missing::Nothing) => Some((b"${", b"?}")),
        (_, Missing::Fault) => None,
    }
}

/// Returns the template's bytes before the name of a variable with an operator. In a shell's forms these
/// bytes may end in a digit, which a `ShellMap` reads as a question about the variable.
fn opening(forms: Forms, operator: Operator) -> &'static [u8]
    ensures { (n end : List ℕ)
        → (in_braces (template_name forms (Some operator) n) end ≡ result.now ++ n ++ end) }
{
    match (forms, operator) {
        (Forms::Shell, Operator::Minus | Operator::Question) => b"${1",
        (Forms::Shell, Operator::Plus) => b"${2",
        (Forms::Shell, Operator::ColonPlus) => b"${3",
        _ => b"${",
    }
}

/// Converts bytes that are UTF-8 into a text, without testing them.
pub(crate) fn text_of(bytes: Vec<u8>) -> String
    requires { IsUtf8 bytes.items }
    ensures { string_bytes result ≡ bytes.items }
{
    // SAFETY: the bytes are UTF-8.
    unsafe { String::from_utf8_unchecked(bytes) }
}
