//! Shell-like variables in texts and byte strings.
//!
//! `$name`, `${name}`, `${name?}` and `${name:default}` are expanded from a map of variables. A name is one
//! or more ASCII letters, ASCII digits and underscores; without braces it is the longest such run. If the
//! variable is unset, `${name?}` expands to nothing, and `${name:default}` to its default, which is a
//! template itself. The default ends at the brace that closes the placeholder, so braces in it have to match.
//! A backslash escapes each of `\ $ { } :`. At the top level, bare braces and colons are literal. A question
//! mark is literal too, except right after the name in `${name?}`.
//!
//! A value is inserted as it is, and never read as a template. An error has a position: a byte offset in the
//! whole source, from 0, even inside defaults.
//!
//! [`substitute`] expands a text with texts as values, and [`substitute_bytes`] a byte string with byte
//! strings as values. Parse a source only once if it is used several times: [`Template`] and [`ByteTemplate`]
//! borrow it, [`TemplateBuf`] and [`ByteTemplateBuf`] own it. All accept the same language and agree on the
//! output. `variables` lists the variables of a template, and `missing` those that an expansion needs and a
//! map lacks.
//!
//! Functions that allocate take an allocator, and return `OutOfMemory` if allocation fails. After an error,
//! borrowed sources, maps and templates are unchanged.
//!
//! Variables come from a `BTreeMap`, a `HashMap` or an `IndexMap` with keys `String` or `&str`, from pairs in
//! an [`Env`], or from any other [`VariableMap`]. [`NoSubstitution`] is an empty map, [`Layered`] combines
//! two maps, and [`NoEmpty`] treats empty values as unset. [`ShellMap`] is a map for templates of shell-style
//! texts. In such a template, a name that begins with 1, 2 or 3 is a question about the variable whose name
//! follows the digit. For example, `2x` asks whether `x` is unset. [`is_name`] tests names.
//!
//! [`json`] and [`toml`] read a tree first and then fill in its strings. [`yaml`] fills in the values of a
//! text. With all three modules, no variable's value can break out of its string. The three share [`Fill`],
//! [`StringAt`] and [`RefusalAt`].
//!
//! This crate has no code of its own. It re-exports public items of the crates below it, under the names of
//! the Rust crate `subst`.
#![tactic(auto)]

pub use subst_document::{Fill, RefusalAt, StringAt};
pub use subst_error as error;
pub use subst_error::Error;
pub use subst_foreign::ShellMap;
pub use subst_language::{
    BytesMap, Env, Layered, NeverValue, NoEmpty, NoSubstitution, OneOf, Variable, VariableKind,
    VariableMap, is_name, name_len,
};
pub use subst_template::{
    ByteTemplate, ByteTemplateBuf, Template, TemplateBuf, substitute, substitute_bytes,
    substitute_bytes_into, substitute_bytes_owned, substitute_into, substitute_owned,
};

pub mod escape;
pub mod foreign;
pub mod json;
pub mod laws;
pub mod steps;
pub mod toml;
pub mod yaml;
