//! The template language: its definitions, laws and lemmas, its names, variables and maps, and the parts that
//! a source is parsed into.
//!
//! The definitions are in `specs/`:
//!
//! - `Language`: the template language.
//! - `Earlier`: the language before `${name?}`.
//! - `Calls`: maps and results in contracts of public calls.
//! - `Maps`: the look-up of each map.
//! - `Parts`: the meaning of parts.
#![tactic(auto)]

mod counter;
pub mod laws;
pub mod maps;
mod name;
mod part;
mod sink;
mod variable;

pub use counter::Counter;
pub use maps::{BytesMap, Env, Layered, NeverValue, NoEmpty, NoSubstitution, OneOf, VariableMap};
pub use name::{is_name, name_len};
pub use part::{Part, Span};
pub use sink::Sink;
pub use variable::{Variable, VariableKind};
