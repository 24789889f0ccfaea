//! The parser, which reads a source once and appends its parts to a `Sink`. Callers depend on `subst`, not on
//! this crate: its public items are for `subst_template`.
#![tactic(auto)]

mod byte_class;
mod character;
mod halt;
mod item;
mod parse;
mod reads;
mod scan;
mod search;
mod tape;

pub use parse::parse_into;
pub use reads::Reads;
pub use search::plain_len;
