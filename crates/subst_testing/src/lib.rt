//! Helpers for the tests of several crates: variables from pairs, answers as texts, and a fake reader and
//! writer.
#![tactic(auto)]

pub mod answers;
pub mod fakes;
pub mod variables;
