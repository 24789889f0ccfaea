//! Fills in the values of a YAML text in place, so that no value can break out of its scalar.
//!
//! Each scalar that is a value of a mapping, a sequence or a document is expanded as by `substitute` of
//! `subst`. Keys, anchors, aliases, tags and comments are kept, and so is every byte outside of the scalars
//! that change.
//!
//! [`fill_in`], [`fill_in_slice`] and [`fill_in_by`] return the output. It is read again, and compared with
//! the source: it has the same keys and collections, and the same values with their strings filled in.
//!
//! - [`strings`] lists the strings of the values that may change.
//! - [`refusals_in`] and [`refusals_by`] list the strings that are refused, with their paths.
//! - [`place_in`] and [`places_in`] find where parts of a string are spelled, and a [`RangeFinder`] finds
//!   such places for many strings of one text.
//! - [`report`] returns a report of all errors in a text.
#![tactic(auto)]

pub use document::{fill_in, fill_in_by, fill_in_slice};
pub use error::{Error, Fault, Reason};
pub use listing::{RefusalAt, refusals_by, refusals_in, strings};
pub use path::Path;
pub use places::{RangeFinder, place_in, places_in};
pub use reports::report;
pub use subst_document::{Fill, Filler, PathStep, StringAt};
pub use subst_yaml_reader::Span;

mod change;
mod compared;
mod document;
mod error;
mod filled;
pub mod laws;
mod lines;
mod listing;
mod path;
mod paths;
mod places;
mod reports;
mod spell;
mod token;
