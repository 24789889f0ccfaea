//! Questions: the values that templates of other tools' texts look up. In the forms of a shell, a name is a
//! question if the digit 1, 2 or 3 precedes the variable's name.

ghost use Rattle.std.specs.Prelude.{◌≡◌, ◌≤◌, None, length};
ghost use Rattle.std.specs.Option.{option_map};
ghost use Rattle.subst_foreign.specs.Question.{negated};
ghost use Rattle.subst_c.specs.StyleTemplate.{filled, question_length, Sees};
ghost use Rattle.subst_c.specs.Values.{value_known};

use crate::value::{NOT_ASKED, SET, UNSET, Value};
use subst_foreign::Forms;

/// Returns the length of the question before the variable's name in `name`: 1 if there is a digit of a
/// question in the forms of a shell, and otherwise 0.
pub fn question_length(forms: Forms, name: &[u8]) -> usize
    ensures length { result ≡ question_length forms name.now }
    ensures within { result ≤ length name.now }
{
    match (forms, name.first()) {
        (Forms::Shell, Some(b'1'..=b'3')) => 1,
        _ => 0,
    }
}

/// Replaces the value of the variable by the value that a template looks up under `name`.
pub fn see(forms: Forms, name: &[u8], value: &mut Value)
    ensures { Sees forms name.now value.old value.new }
{
    match forms {
        Forms::Own | Forms::Envsubst => {}
        Forms::Common => unset_if_empty(value),
        Forms::Shell => match name.first() {
            Some(b'1') => {}
            Some(b'2') => negate(value),
            Some(b'3') => {
                unset_if_empty(value);
                negate(value);
            }
            _ => unset_if_empty(value),
        },
    }
}

/// Unsets a value that is empty.
fn unset_if_empty(value: &mut Value)
    ensures known { value_known value.new ≡ option_map filled (value_known value.old) }
    ensures kept { value_known value.old ≡ None → value.new ≡ value.old }
{
    if value.given == SET && value.bytes.is_empty() {
        value.given = UNSET;
    }
}

/// Replaces a value by none, and no value by an empty one.
fn negate(value: &mut Value)
    ensures known { value_known value.new ≡ option_map negated (value_known value.old) }
    ensures kept { value_known value.old ≡ None → value.new ≡ value.old }
{
    match value.given {
        SET => value.given = UNSET,
        NOT_ASKED => {}
        _ => {
            *value = Value {
                bytes: b"",
                given: SET,
            };
        }
    }
}
