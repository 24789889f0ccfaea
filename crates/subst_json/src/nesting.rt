//! Checks, token by token, that a text is one value that doesn't nest too deep.

ghost use Rattle.std.specs.Prelude.{◌≡◌, ◌≤◌, ◌+◌, [], ◌∷◌, ◌++◌, List, IfOk, IfSome, IsTrue, length};
ghost use Rattle.json.specs.Json.{Json};
ghost use Rattle.json.specs.Reads.{token_of};
ghost use Rattle.json.specs.Token as spec;
ghost use Rattle.json.specs.Tree.{depth, json_tokens};
ghost use Rattle.serde_json.specs.Read.{max_depth};
ghost use Rattle.subst_json.specs.Nesting.{expected, AreExpected};

use json::Token;
use std::alloc::{AllocError, Global};

/// The maximum nesting depth of arrays and objects that `serde_json` reads.
const MAX_DEPTH: usize = 127;

/// An expected part of a text.
#[derive(Clone, Copy)]
enum Expected {
    /// The text's top-level value.
    Value,
    /// The value of a key.
    Member,
    /// An item of an array, or the array's end.
    Item,
    /// A key of an object, or the object's end.
    Key,
    /// The end of the text.
    End,
}

impl Expected {
    /// Returns the part expected next when this part is a value, or `None` if this part can't be a value.
    fn after_value(self) -> Option<Expected>
        ensures { IfSome result (λ after. (j : Json) → (more : List Expected)
            → (rest : List spec.Token) → depth j + length more ≤ max_depth
            → AreExpected (after ∷ more) rest
            → AreExpected (self ∷ more) (json_tokens j ++ rest)) }
    {
        match self {
            Expected::Value => Some(Expected::End),
            Expected::Member => Some(Expected::Key),
            Expected::Item => Some(Expected::Item),
            Expected::Key | Expected::End => None,
        }
    }
}

/// The parser state after the tokens so far.
#[derive(Drop)]
pub(crate) struct Nesting {
    /// The next expected part.
    next: Expected,
    /// The part expected after each open array and object, the outermost first.
    outer: Vec<Expected>,
}

impl Nesting {
    /// Returns the state at the start of a text: a value is expected.
    pub(crate) fn new(alloc: Global) -> Nesting
        ensures { expected result ≡ Expected.Value ∷ [] }
    {
        Nesting {
            next: Expected::Value,
            outer: Vec::new(alloc),
        }
    }

    /// Takes the next token, and returns whether it is expected.
    ///
    /// # Errors
    ///
    /// If allocation fails.
    pub(crate) fn accept(&mut self, token: Token<'_>) -> Result<bool, AllocError>
        requires { length (expected self.old) ≤ max_depth + 1 }
        ensures rest { IfOk result (λ is. IsTrue is → (rest : List spec.Token)
            → AreExpected (expected self.new) rest
            → AreExpected (expected self.old) (token_of token.entry ∷ rest)) }
        ensures within { length (expected self.new) ≤ max_depth + 1 }
    {
        match (token, self.next) {
            (Token::BeginObject, _) => self.open(Expected::Key),
            (Token::BeginArray, _) => self.open(Expected::Item),
            (Token::EndObject, Expected::Key) | (Token::EndArray, Expected::Item) => {
                Ok(self.close())
            }
            (Token::Key(_), Expected::Key) => {
                self.next = Expected::Member;
                Ok(true)
            }
            (Token::String(_) | Token::Number(_) | Token::Bool(_) | Token::Null, _) => {
                Ok(self.accept_value())
            }
            _ => Ok(false),
        }
    }

    /// Takes a value that is no array or object. Returns `false` if no value is expected.
    fn accept_value(&mut self) -> bool
        ensures rest { IsTrue result → (j : Json) → (rest : List spec.Token)
            → depth j + length (expected self.old) ≤ max_depth + 1
            → AreExpected (expected self.new) rest
            → AreExpected (expected self.old) (json_tokens j ++ rest) }
        ensures outer { self.new.outer ≡ self.old.outer }
    {
        let Some(after) = self.next.after_value() else {
            return false;
        };
        self.next = after;
        true
    }

    /// Opens an array or object, in which `inside` is expected first. Returns `false` if no value is expected
    /// or the nesting is too deep.
    ///
    /// # Errors
    ///
    /// If allocation fails.
    fn open(&mut self, inside: Expected) -> Result<bool, AllocError>
        requires { length (expected self.old) ≤ max_depth + 1 }
        ensures array { inside ≡ Expected.Item → IfOk result (λ is. IsTrue is
            → (rest : List spec.Token) → AreExpected (expected self.new) rest
            → AreExpected (expected self.old) (spec.begin_array ∷ rest)) }
        ensures object { inside ≡ Expected.Key → IfOk result (λ is. IsTrue is
            → (rest : List spec.Token) → AreExpected (expected self.new) rest
            → AreExpected (expected self.old) (spec.begin_object ∷ rest)) }
        ensures within { length (expected self.new) ≤ max_depth + 1 }
    {
        let Some(after) = self.next.after_value() else {
            return Ok(false);
        };
        if self.outer.len() >= MAX_DEPTH {
            return Ok(false);
        }
        self.outer.push(after)?;
        self.next = inside;
        Ok(true)
    }

    /// Closes the innermost array or object. Returns `false` if no array or object is open.
    fn close(&mut self) -> bool
        ensures rest { IsTrue result
            → expected self.old ≡ self.old.next ∷ expected self.new }
        ensures shorter { length (expected self.new) ≤ length (expected self.old) }
    {
        let Some(after) = self.outer.pop() else {
            return false;
        };
        self.next = after;
        true
    }

    /// Returns whether the text is complete.
    pub(crate) fn is_at_end(&self) -> bool
        ensures { IsTrue result → AreExpected (expected self.now) [] }
    {
        matches!(self.next, Expected::End) && self.outer.is_empty()
    }
}
