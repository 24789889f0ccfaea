//! YAML whose values are filled in directly in the text.
//!
//! [`fill_in`] and [`fill_in_slice`] fill in the values of a text: those of mappings, sequences and
//! documents. Keys, comments, tags and layout are kept, and no value can break out of its scalar.
//!
//! [`strings`] lists the values that [`fill_in`] can change, with their spans, and [`refusals_in`] the
//! refused ones, with their paths.
//!
//! [`place_in`] returns the span that spells a range of a string, and [`places_in`] the spans for many
//! ranges. A [`RangeFinder`] finds the spans for many strings.
//!
//! [`fill_in_by`] and [`refusals_by`] take a [`Fill`], a way to fill in a string; [`Filler`] fills in from a
//! map.
//!
//! [`report`] returns the report of an error for users: all refused strings with line, column and path, or
//! the reader's message.
//!
//! There is no tree: the text is read token by token.

pub use subst_yaml::{
    Error, Fault, Fill, Filler, Path, PathStep, RangeFinder, Reason, RefusalAt, Span, StringAt,
    fill_in, fill_in_by, fill_in_slice, place_in, places_in, refusals_by, refusals_in, report,
    strings,
};
