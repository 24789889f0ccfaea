//! Conversion of a tree into a type of the caller's. The kit's `toml` reads types only from texts, so the
//! tree is printed, and the type is read from the printed text. The variables aren't passed to the
//! conversion. If the tree has a date that no text can hold, the printed text isn't TOML. Otherwise reading
//! the printed text yields the same tree, provided that the tree nests at most 80 deep.

ghost use Rattle.std.specs.Prelude.{◌≡◌, ◌≤◌, false, true, None, Some, Result, IfErr, IfOk, List, ℕ, string_bytes};
ghost use Rattle.toml.specs.Data.{members_depth, members_have_valid_dates};
ghost use Rattle.toml.specs.Errors.{IsWithin};
ghost use Rattle.toml.specs.Parse.{parse_document};
ghost use Rattle.toml.specs.Text.{IsDocumentText};
ghost use Rattle.toml.specs.View.{table_view};
ghost use Rattle.toml.specs.declared.de.error.Error.{Error};

use serde::DeserializeOwned;
use std::alloc::{AllocError, Global};
use toml::{Table, ser};

/// A type that a text can be converted into: any that `serde` deserializes.
pub trait FromText: Sized + Drop {
    // The relation of a text and the possible results of its conversion. For the types of `serde`, it is only
    // known that the span of an error is within the text. A contract in terms of `reads` still states which
    // text is converted, since the contract holds whatever relation `reads` is.
    ghost reads: { List ℕ → Result Self Error → Type 0 };

    /// Converts a text, or returns an error if it isn't a document or doesn't fit this type.
    fn from_text(alloc: Global, text: &str) -> Result<Self, toml::de::Error>
        ensures read { reads text.now result };
}

impl<T: DeserializeOwned> FromText for T {
    ghost reads = { λ text result. IfErr result (IsWithin text) };

    fn from_text(alloc: Global, text: &str) -> Result<T, toml::de::Error> {
        toml::from_str(alloc, text)
    }
}

/// A text that isn't a document: its date has no month.
const NO_DATE: &str = "date = 0000-00-00\n";

/// Returns a table as text. If the table has a date that no text can hold, the text isn't a document.
/// Otherwise reading the text yields the same table, provided that the table nests at most 80 deep. A table
/// that was read from a text has only dates that a text can hold.
pub(crate) fn printed(alloc: Global, table: &Table) -> Result<String, AllocError>
    ensures dates { IfOk result (λ text. members_have_valid_dates (table_view table.now) ≡ false
        → parse_document (string_bytes text) ≡ None) }
    ensures document { IfOk result (λ text. members_have_valid_dates (table_view table.now) ≡ true
        → IsDocumentText false (table_view table.now) (string_bytes text)) }
    ensures table { IfOk result (λ text. members_have_valid_dates (table_view table.now) ≡ true
        → members_depth (table_view table.now) ≤ 80
        → parse_document (string_bytes text) ≡ Some (table_view table.now)) }
{
    match toml::table_to_string(alloc, table) {
        Ok(text) => Ok(text),
        Err(ser::Error::OutOfMemory) => Err(AllocError),
        Err(ser::Error::DateInvalid) => String::from_str(alloc, NO_DATE),
    }
}
