//! Tests of the public calls of `subst`, in a module for each subject. Tests that need only a source, its
//! variables and its answer are rows of `subst_vectors` instead.
//!
//! The expected answers are from the tests of the Rust crate `subst`, or worked out by hand. An answer is a
//! text, such as `gives Hello world!` or `6..7: MissingVariableName`.
#![tactic(auto)]

#[cfg(test)]
mod callers;
#[cfg(test)]
mod deep;
#[cfg(test)]
mod document_errors;
#[cfg(test)]
mod errors;
#[cfg(test)]
mod expect;
#[cfg(test)]
mod foreign;
#[cfg(test)]
mod in_place;
#[cfg(test)]
mod large;
#[cfg(test)]
mod loaders;
#[cfg(test)]
mod look_ups;
#[cfg(test)]
mod maps;
#[cfg(test)]
mod reports;
#[cfg(test)]
mod templates;
#[cfg(test)]
mod typed;
