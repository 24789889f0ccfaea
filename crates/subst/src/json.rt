//! JSON whose strings are filled in after it was read, so that no value can break out of its string.
//!
//! [`substitute_string_values`] fills in a tree of `serde_json` in place. [`value_from_str`] and
//! [`value_from_slice`] read a tree first. [`from_str`] and [`from_slice`] do the same, and then convert the
//! tree into a type of the caller's, by `serde`. Keys are kept.
//!
//! [`fill_in`] and [`fill_in_slice`] fill in the strings of a text, and keep every other byte of it.
//! [`strings`] lists the strings of a text, and [`refusals_in`] the refused ones, with their spans.
//!
//! [`place_in`] returns the span that spells a range of a string, and [`places_in`] the spans for many
//! ranges. A [`RangeFinder`] finds the spans for many strings. [`fill_in_by`] and [`refusals_by`] take a
//! [`Fill`], a way to fill in a string; [`Filler`] fills in from a map. [`reader_stop`] returns the position
//! of the error in a text that isn't JSON.
//!
//! [`report`] returns the report of an error for users: all refused strings with line, column and path, or
//! the reader's message.

pub use subst_json::{
    Error, Fill, Filler, Path, PathStep, RangeFinder, ReaderStop, RefusalAt, StringAt, fill_in,
    fill_in_by, fill_in_slice, from_slice, from_str, place_in, places_in, reader_stop, refusals_by,
    refusals_in, report, strings, substitute_string_values, value_from_slice, value_from_str,
};
