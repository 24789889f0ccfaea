//! The expansion of a source's parts, from a list or while parsing. A list is expanded over its source in one
//! loop. Without a list, each part is written as soon as it is parsed. Callers depend on `subst`, and not on
//! this crate, whose public items are for `subst_template`.
#![tactic(auto)]

mod append;
mod counted_parts;
pub mod expand;
pub mod expand_text;
mod output;
mod packed_part;
mod packed_vec;
mod part_vec;
mod read_value;
mod turns;
pub mod variables;
mod writer;

pub use packed_part::Offset;
pub use packed_vec::PackedVec;
pub use part_vec::{CowParts, PartVec};
pub use read_value::{ReadValue, SliceBytes, TextBytes};
pub use turns::Turns;
pub use writer::Writer;
