//! Tokens of texts of other tools: literal bytes, variables, braces and refused forms.

ghost use Rattle.std.specs.Prelude.{◌≡◌, ◌↔◌, ◌++◌, ◌<◌, ◌∷◌, ℕ, List, length, IfErr, IfOk, IfSome, IfNone, IsTrue, codes, false};
ghost use Rattle.std.specs.List.{AllByRecursion};
ghost use Rattle.subst_language.specs.Language.Bytes.{closing_brace, colon, dollar, opening_brace, question_mark};
ghost use Rattle.subst_language.specs.Language.Name.{BeginsWithNo, IsName, IsNameByte};
ghost use Rattle.subst_foreign.specs.Foreign.{IsShellName};
ghost use Rattle.subst_foreign.specs.Grammar.{has_operator, in_braces, minus, operator_text, BeginsWithNoHead, BeginsWithNone, HasForm, IsEnd, IsEndless, IsHead, IsMessage, IsOtherEnd, Opened};
ghost use Rattle.subst_foreign.specs.Reading.{after_message, grammar_of, IsInner, IsLone, IsStep};
ghost use Rattle.subst_foreign.specs.declared.forms.Forms.TheVariants.{Common, Own, Shell};
ghost use Rattle.subst_foreign.specs.declared.token.End.TheVariants.{Other};
ghost use Rattle.subst_foreign.specs.declared.forms.Operator.{Operator as SpecOperator};

use crate::forms::{Forms, Operator};
use crate::names::Names;
use crate::refused::ShellForm;
use crate::style::{Style, is_name_of};
use subst_language::name_len;

/// A token of a text.
#[derive(Clone, Copy)]
pub(crate) enum Token<'t> {
    /// A literal byte.
    Byte(u8),
    /// `$$`, a dollar.
    Dollars,
    /// `$NAME`.
    Short(&'t [u8]),
    /// `${NAME}`.
    Braced(&'t [u8]),
    /// `${NAME?}` of `Forms::Own`.
    Optional(&'t [u8]),
    /// `${NAME` and an operator, before a default or a replacement.
    Opens(&'t [u8], Operator),
    /// `${NAME`, an operator, its message and the closing brace.
    Required(&'t [u8], Operator, &'t [u8]),
    /// An opening brace inside a default.
    Opening,
    /// A closing brace inside a default.
    Closing,
    /// The beginning of a refused form.
    Refused(ShellForm),
}

/// A token, and the text after it.
pub(crate) type Step<'t> = (Token<'t>, &'t [u8]);

/// The end of a variable in braces: the part right after the variable's name. Every variant but `Other` has
/// the text after this part.
#[derive(Clone, Copy)]
enum End<'t> {
    /// The closing brace.
    Closed(&'t [u8]),
    /// A question mark and the closing brace, in `Forms::Own`.
    Optional(&'t [u8]),
    /// One of the operators of the forms.
    Operated(Operator, &'t [u8]),
    /// Anything else.
    Other,
}

/// Returns the first token of a text, and the text after the token. `depth` is the number of variables and
/// braces that are open where the text begins.
pub(crate) fn step_at<'t, N: Names>(text: &'t [u8], depth: usize, style: Style<'_, N>) -> Step<'t>
    requires { 0 < length text.now }
    ensures { IsStep (grammar_of N.all N.counts style.entry) depth text.now result.0 result.1.now }
{
    let (first, rest) = (text[0], &text[1..]);
    if first == b'$' {
        return dollar_step(rest, style);
    }
    let token = if depth == 0 {
        Token::Byte(first)
    } else {
        inner_token(first, style.forms)
    };
    (token, rest)
}

/// Returns the token of the byte `first` inside a default, where `first` isn't a dollar.
fn inner_token<'t>(first: u8, forms: Forms) -> Token<'t>
    ensures { IsInner forms first result }
{
    match first {
        b'}' => Token::Closing,
        b'{' if matches!(forms, Forms::Shell) => Token::Opening,
        b'{' => Token::Refused(ShellForm::Brace),
        _ => Token::Byte(first),
    }
}

/// Returns the token that begins with a dollar, and the text after the token. `text` follows the dollar.
fn dollar_step<'t, N: Names>(text: &'t [u8], style: Style<'_, N>) -> Step<'t>
    ensures { (depth : ℕ) → IsStep (grammar_of N.all N.counts style.entry) depth (dollar ∷ text.now)
        result.0 result.1.now }
{
    if let Some(rest) = second_dollar(text, style.is_whole()) {
        return (Token::Dollars, rest);
    }
    let (name, rest) = text.split_at(name_len(text));
    if style.has(name, false) {
        return (Token::Short(name), rest);
    }
    match text.strip_prefix(b"{") {
        Some(braced) => braced_step(text, braced, style),
        None => (lone_dollar(name, style.forms), text),
    }
}

/// Returns the text after the second dollar of a token `$$`, or `None` if there is no such token. `text`
/// follows the first dollar, and `is_whole` is whether the style has this token.
fn second_dollar(text: &[u8], is_whole: bool) -> Option<&[u8]>
    ensures some { IfSome result (λ rest. IsTrue is_whole × (text.now ≡ dollar ∷ rest.now)) }
    ensures none { IfNone result (IsTrue is_whole → (rest : List ℕ)
        → ¬ (text.now ≡ dollar ∷ rest)) }
{
    match text {
        [b'$', rest @ ..] if is_whole => Some(rest),
        _ => None,
    }
}

/// Returns the token of a dollar that begins no variable. `name` is the name bytes after the dollar.
fn lone_dollar<'t>(name: &[u8], forms: Forms) -> Token<'t>
    requires { AllByRecursion IsNameByte name.now }
    ensures { IsLone forms name.now result }
{
    if matches!(forms, Forms::Common) && !is_name_of(name, forms) {
        Token::Refused(ShellForm::Dollar)
    } else {
        Token::Byte(b'$')
    }
}

/// Returns the token at `${`, and the text after the token. `text` follows the dollar, and `braced` follows
/// the brace.
fn braced_step<'t, N: Names>(text: &'t [u8], braced: &'t [u8], style: Style<'_, N>) -> Step<'t>
    requires { text.now ≡ opening_brace ∷ braced.now }
    ensures { (depth : ℕ) → IsStep (grammar_of N.all N.counts style.entry) depth (dollar ∷ text.now)
        result.0 result.1.now }
{
    let (name, after) = braced.split_at(name_len(braced));
    let end = end_at(after, style.forms);
    match head_step(name, after, end, style) {
        Some(step) => step,
        None => lone_brace_step(text, name, after, matches!(end, End::Other), style),
    }
}

/// Returns the token that begins with `${`, and the text after the token, if `${`, `name` and `end` begin a
/// variable. Otherwise returns `None`. `after` follows `name` and begins with `end`.
fn head_step<'t, N: Names>(
    name: &'t [u8],
    after: &'t [u8],
    end: End<'t>,
    style: Style<'_, N>,
) -> Option<Step<'t>>
    requires run { AllByRecursion IsNameByte name.now }
    requires ended { BeginsWithNo IsNameByte after.now }
    requires end { IsEnd style.forms after.now end }
    ensures some { IfSome result (λ step. (depth : ℕ)
        → IsStep (grammar_of N.all N.counts style.entry) depth (in_braces name.now after.now) step.0
        step.1.now) }
    ensures none { IfNone result (BeginsWithNoHead (grammar_of N.all N.counts style.entry)
        (in_braces name.now after.now)) }
{
    match end {
        End::Closed(rest) if style.has(name, false) => Some((Token::Braced(name), rest)),
        End::Optional(rest) if style.has(name, true) => Some((Token::Optional(name), rest)),
        End::Operated(operator, rest) if style.has(name, true) => {
            Some(operated_step(name, operator, after, rest, style))
        }
        _ => None,
    }
}

/// Returns the token of a `${` that begins no variable, and the text after the token. `text` follows the
/// dollar and consists of a brace, `name` and `after`; `name` may be empty. `is_other` is whether `end_at`
/// returns `End::Other` for `after`.
fn lone_brace_step<'t, N: Names>(
    text: &'t [u8],
    name: &'t [u8],
    after: &'t [u8],
    is_other: bool,
    style: Style<'_, N>,
) -> Step<'t>
    requires text { text.now ≡ opening_brace ∷ name.now ++ after.now }
    requires run { AllByRecursion IsNameByte name.now }
    requires ended { BeginsWithNo IsNameByte after.now }
    requires no_head { BeginsWithNoHead (grammar_of N.all N.counts style) (dollar ∷ text.now) }
    requires other_end { IsTrue is_other ↔ IsEnd style.forms after.now Other }
    ensures { (depth : ℕ) → IsStep (grammar_of N.all N.counts style.entry) depth (dollar ∷ text.now)
        result.0 result.1.now }
{
    if !style.is_whole() {
        return (Token::Byte(b'$'), text);
    }
    if !is_name_of(name, Forms::Shell) {
        return (Token::Refused(ShellForm::NoName), &text[1..]);
    }
    if is_other {
        (Token::Refused(form_at(after)), after)
    } else {
        (Token::Byte(b'$'), text)
    }
}

/// Returns the token of a name in braces with an operator, and the text after the token. `after` follows
/// `name`, and `rest` follows the operator.
fn operated_step<'t, N: Names>(
    name: &'t [u8],
    operator: Operator,
    after: &'t [u8],
    rest: &'t [u8],
    style: Style<'_, N>,
) -> Step<'t>
    requires head { IsHead (grammar_of N.all N.counts style) (Opened name.now operator) rest.now }
    requires after { after.now ≡ operator_text operator ++ rest.now }
    ensures { (depth : ℕ) → IsStep (grammar_of N.all N.counts style.entry) depth
        (in_braces name.now after.now) result.0 result.1.now }
{
    if !operator.takes_message() {
        return (Token::Opens(name, operator), rest);
    }
    match message_at(rest, style.forms) {
        Ok((message, rest)) => (Token::Required(name, operator, message), rest),
        Err(form) => (Token::Refused(form), rest_of_message(form, after)),
    }
}

/// Returns the text at which reading resumes after a refused message. It is empty if the message never
/// closes, or else `after`, which follows the name.
fn rest_of_message(form: ShellForm, after: &[u8]) -> &[u8]
    ensures { result.now ≡ after_message form after.now }
{
    match form {
        ShellForm::Unclosed => b"",
        _ => after,
    }
}

/// Returns the message at the start of a text, and the text after its closing brace. An opening brace in a
/// message is refused, unless the forms are a shell's.
///
/// # Errors
///
/// The refused form, if the message isn't closed.
fn message_at(text: &[u8], forms: Forms) -> Result<(&[u8], &[u8]), ShellForm>
    ensures ok { IfOk result (λ found. IsMessage forms found.0.now
        × (text.now ≡ found.0.now ++ closing_brace ∷ found.1.now)) }
    ensures err { IfErr result (λ form. IsEndless forms form text.now) }
{
    // The number of open braces in the message.
    let mut open = 0usize;
    for (at, byte) in text.iter().enumerate() {
        match *byte {
            b'}' if open == 0 => return Ok((&text[..at], &text[at + 1..])),
            b'}' => open -= 1,
            b'{' if !matches!(forms, Forms::Shell) => return Err(ShellForm::Message),
            b'{' => open += 1,
            _ => {}
        }
    }
    Err(ShellForm::Unclosed)
}

/// Returns the end of a variable in braces. `text` follows the variable's name.
fn end_at(text: &[u8], forms: Forms) -> End<'_>
    ensures { IsEnd forms text.now result }
{
    if let [b'}', rest @ ..] = text {
        return End::Closed(rest);
    }
    if let Some((operator, rest)) = operator_at(text)
        && forms.has(operator)
    {
        return End::Operated(operator, rest);
    }
    if matches!(forms, Forms::Own) {
        own_end_at(text)
    } else {
        End::Other
    }
}

/// Returns the end of a variable of `Forms::Own`. `text` follows the variable's name, and doesn't begin with
/// a closing brace.
fn own_end_at(text: &[u8]) -> End<'_>
    requires { (x : List ℕ) → ¬ (text.now ≡ closing_brace ∷ x) }
    ensures { IsEnd Own text.now result }
{
    match text {
        [b'?', b'}', rest @ ..] => End::Optional(rest),
        [b':', b'-' | b'=' | b'?' | b'+', ..] => End::Other,
        [b':', rest @ ..] => End::Operated(Operator::Default, rest),
        _ => End::Other,
    }
}

/// Returns a shell's operator at the start of a text, and the text after it, or `None` if there is none.
fn operator_at(text: &[u8]) -> Option<(Operator, &[u8])>
    ensures some { IfSome result (λ found. IsTrue (has_operator Shell found.0)
        × (text.now ≡ operator_text found.0 ++ found.1.now)) }
    ensures none { IfNone result ((operator : SpecOperator) (rest : List ℕ)
        → IsTrue (has_operator Shell operator) → ¬ (text.now ≡ operator_text operator ++ rest)) }
{
    match text {
        [b'-', rest @ ..] => Some((Operator::Minus, rest)),
        [b'+', rest @ ..] => Some((Operator::Plus, rest)),
        [b'?', rest @ ..] => Some((Operator::Question, rest)),
        [b':', b'-', rest @ ..] => Some((Operator::ColonMinus, rest)),
        [b':', b'+', rest @ ..] => Some((Operator::ColonPlus, rest)),
        [b':', b'?', rest @ ..] => Some((Operator::ColonQuestion, rest)),
        _ => None,
    }
}

/// Returns the refused form that begins with `${NAME`. `text` follows the name.
fn form_at(text: &[u8]) -> ShellForm
    requires no_name { BeginsWithNo IsNameByte text.now }
    requires other_end { IsOtherEnd Common text.now }
    ensures { HasForm result text.now }
{
    let Some((first, rest)) = text.split_first() else {
        return ShellForm::Unclosed;
    };
    match *first {
        b'-' => ShellForm::Minus,
        b'?' => ShellForm::Question,
        b'=' => ShellForm::Equals,
        b'+' => ShellForm::Plus,
        b'#' => ShellForm::Hash,
        b'%' => ShellForm::Percent,
        b'/' => ShellForm::Slash,
        b':' => colon_form_at(rest),
        _ => ShellForm::Other,
    }
}

/// Returns the refused form that begins with `${NAME:`. `text` follows the colon.
fn colon_form_at(text: &[u8]) -> ShellForm
    requires no_default { (x : List ℕ) → ¬ (text.now ≡ minus ∷ x) }
    requires no_message { (x : List ℕ) → ¬ (text.now ≡ question_mark ∷ x) }
    ensures { HasForm result (colon ∷ text.now) }
{
    match text.first() {
        Some(b'=') => ShellForm::ColonEquals,
        Some(b'+') => ShellForm::ColonPlus,
        _ => ShellForm::Colon,
    }
}
