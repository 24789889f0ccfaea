//! Rows of values for one template: tables, whose columns are bound to a template's names once, and the
//! template's output for each row. A [`letter::Letter`] is a template with a text of rows, and writes all its
//! outputs to a device.
#![tactic(auto)]

mod bound;
pub mod columns;
pub mod error;
pub mod json_lines;
pub mod json_row;
pub mod letter;
pub mod lines;
mod mark;
pub mod quotes;
pub mod row;
pub mod rows;
pub mod table;
#[cfg(test)]
mod tests;
