//! Lists of the variables of texts of other tools.

ghost use Rattle.std.specs.Prelude.{◌≡◌, ◌++◌, ◌+◌, ◌<◌, ◌^◌, ℕ, List, IfOk, OnOk, map};
ghost use Rattle.subst_foreign.specs.Reading.{grammar_of, listed_at, token_of, variable_of, IsListing};

use crate::convert::{next_depth, next_step};
use crate::forms::Operator;
use crate::names::Names;
use crate::style::Style;
use crate::token::Token;
use std::alloc::{AllocError, Global};

/// A variable of a text, and its position.
#[derive(Clone, Copy, Debug, PartialEq, Eq)]
pub struct TextVariable<'t> {
    /// The byte offset of the name in the text.
    pub position: usize,
    /// The name of the variable.
    pub name: &'t [u8],
    /// The operator after the name, or `None` if there is none.
    pub operator: Option<Operator>,
    /// The message after the operator, or no bytes if there is none.
    pub message: &'t [u8],
}

impl<N: Names> Style<'_, N> {
    /// Lists the variables of a text, in order, including those in defaults. If nothing is refused, the
    /// template has as many variables, in the same order.
    ///
    /// # Errors
    ///
    /// If allocation fails.
    pub fn variables<'t>(
        &self,
        alloc: Global,
        source: &'t [u8],
    ) -> Result<Vec<TextVariable<'t>>, AllocError>
        ensures listed { IfOk result (λ variables. IsListing (grammar_of N.all N.counts self.now)
            source.now variables.items) }
    {
        let mut variables = Vec::new(alloc);
        let mut rest = source;
        let mut depth = 0;
        while let Some((special, (token, after))) = next_step(rest, depth, *self) {
            append_variable(&mut variables, token, source.len() - special.len())?;
            depth = next_depth(depth, token);
            rest = after;
        }
        Ok(variables)
    }
}

/// Appends the variable of a token, if it has one. `position` is the token's byte offset.
///
/// # Errors
///
/// If allocation fails.
fn append_variable<'t>(
    variables: &mut Vec<TextVariable<'t>>,
    token: Token<'t>,
    position: usize,
) -> Result<(), AllocError>
    requires { position + 2 < 2 ^ 64 }
    ensures { OnOk result ((front : List ℕ) → (map variable_of variables.new.items
        ≡ map variable_of variables.old.items ++ listed_at position (token_of front token.entry))) }
{
    let (name, start, operator, message) = match token {
        Token::Short(name) => (name, 1, None, &b""[..]),
        Token::Braced(name) | Token::Optional(name) => (name, 2, None, &b""[..]),
        Token::Opens(name, operator) => (name, 2, Some(operator), &b""[..]),
        Token::Required(name, operator, message) => (name, 2, Some(operator), message),
        _ => return Ok(()),
    };
    variables.push(TextVariable {
        position: position + start,
        name,
        operator,
        message,
    })?;
    Ok(())
}
