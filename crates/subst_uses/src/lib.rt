//! Callers of `subst`, as users would write them.
//!
//! Each has a contract of its own, proved from the contracts of `subst` and its lemmas for callers.
#![tactic(auto)]

pub mod all_missing;
pub mod any_map;
pub mod any_template;
pub mod cache;
pub mod compose;
pub mod config;
pub mod filled;
pub mod greeting;
pub mod launcher;
pub mod lines;
pub mod log_line;
pub mod maps;
mod memory;
pub mod missing;
pub mod own_map;
pub mod plain;
pub mod report;
pub mod settings;
pub mod texts;
pub mod words;
