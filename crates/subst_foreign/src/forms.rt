//! Forms of variables, their operators, and how an unset variable expands.

ghost use Rattle.std.specs.Prelude.{◌≡◌};
ghost use Rattle.subst_foreign.specs.Grammar.{has_operator, operator_text, takes_message};

/// The forms of variables that a text may contain.
#[derive(Clone, Copy, Debug, PartialEq, Eq)]
pub enum Forms {
    /// The template language's own forms, without its escapes: `$NAME`, `${NAME}`, `${NAME?}`,
    /// `${NAME:default}`. If a default begins with `-`, `=`, `?` or `+`, the form is literal text.
    Own,
    /// The forms of GNU envsubst: `$NAME`, `${NAME}`.
    Envsubst,
    /// The forms of a shell: `$NAME`, `${NAME}`, `${NAME:-default}`, `${NAME-default}`, `${NAME:+other}`,
    /// `${NAME+other}`, `${NAME:?message}`, `${NAME?message}`. With all names chosen, this is the language of
    /// Docker Compose: `$$` is a dollar, and any other form after `${` is refused.
    Shell,
    /// The forms that shells and Docker Compose share, and that need no `ShellMap`: `$NAME`, `${NAME}`,
    /// `${NAME:-default}`, `${NAME:?message}`, `$$`. Any other form is refused. Expand the template with a
    /// `NoEmpty`, a map that treats empty values as unset.
    Common,
}

/// How an unset variable without an operator expands.
#[derive(Clone, Copy, Debug, PartialEq, Eq)]
pub enum Missing {
    /// To an error, or to nothing if the forms are `Forms::Common`.
    Fault,
    /// To nothing.
    Nothing,
}

/// The operator after a name in braces. A text or a message follows it.
#[derive(Clone, Copy, Debug, PartialEq, Eq)]
pub enum Operator {
    /// `:` of `Forms::Own`: the default of an unset variable.
    Default,
    /// `-`: the default of an unset variable.
    Minus,
    /// `:-`: the default of an unset or empty variable.
    ColonMinus,
    /// `+`: the replacement of a variable that is set.
    Plus,
    /// `:+`: the replacement of a variable that is set and not empty.
    ColonPlus,
    /// `?`: the error message of an unset variable.
    Question,
    /// `:?`: the error message of an unset or empty variable.
    ColonQuestion,
}

impl Forms {
    /// Returns whether these forms include the operator.
    pub(crate) fn has(self, operator: Operator) -> bool
        ensures { result ≡ has_operator self operator }
    {
        match self {
            Forms::Own => matches!(operator, Operator::Default),
            Forms::Envsubst => false,
            Forms::Shell => !matches!(operator, Operator::Default),
            Forms::Common => matches!(operator, Operator::ColonMinus | Operator::ColonQuestion),
        }
    }
}

impl Operator {
    /// Returns whether the text after the operator is an error message, and not a default or replacement.
    pub fn takes_message(self) -> bool
        ensures takes { result ≡ takes_message self }
    {
        matches!(self, Operator::Question | Operator::ColonQuestion)
    }
}
