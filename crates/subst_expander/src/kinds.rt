//! The kinds of sources, placeholders and values.

use crate::document::Format;
use subst::foreign::{Forms, Missing, OnlyNames};

/// The format of a source.
#[derive(Clone, Copy, PartialEq, Eq)]
pub enum InputFormat {
    /// Text, in UTF-8.
    Text,
    /// Bytes, which needn't be UTF-8.
    Bytes,
    /// A document, whose strings are filled in.
    Document(Format),
}

/// The placeholders in a source: which parts of the source are variables.
#[derive(Drop)]
pub enum Placeholders<'w> {
    /// The placeholders of the template language.
    Own,
    /// Some forms of chosen names. All else is text.
    Chosen(Chosen<'w>),
}

/// Chosen placeholders: some forms of some names.
#[derive(Drop)]
pub struct Chosen<'w> {
    /// The forms of variables.
    pub forms: Forms,
    /// Which names are variables.
    pub names: Choice<'w>,
    /// How an unset variable without an operator expands.
    pub missing: Missing,
}

/// A choice of the names that are variables.
#[derive(Drop)]
pub enum Choice<'w> {
    /// All names.
    All,
    /// The names in the first field, and all names that begin with a prefix in the second field.
    Only(OnlyNames<'w>, Vec<&'w str>),
    /// The names that are set, and all names that an operator follows.
    Known,
}

/// The language that values are escaped for.
#[derive(Clone, Copy, PartialEq, Eq)]
pub enum Escape {
    /// None: values are unchanged.
    Nothing,
    /// A JSON string, whose quotes are in the source.
    Json,
    /// A word of a shell.
    Sh,
}

/// The treatment of the last line end in a file whose contents are a value.
#[derive(Clone, Copy, PartialEq, Eq)]
pub enum LineEnd {
    /// The line end is removed.
    Removed,
    /// The line end is part of the value.
    Kept,
}
