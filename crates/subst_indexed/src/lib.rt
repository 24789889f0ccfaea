//! Indexed templates: sources parsed into a slice of cells, in which each distinct name has a number, in the
//! order of first use. They are expanded with a slice of values, without a look-up by name.
#![tactic(auto)]

pub mod cell;
mod cell_sink;
pub mod expand;
pub mod head;
pub mod laws;
mod names;
mod number_map;
pub mod output;
pub mod parse;
pub mod slot;
pub mod step;
pub mod template;
#[cfg(test)]
mod tests;
pub mod walk;

pub use template::IndexedTemplate;
