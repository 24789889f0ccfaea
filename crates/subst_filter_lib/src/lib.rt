//! The filter `subst_filter` as a library: all of the program but its `main`, which calls [`process::run`].
//!
//! `subst_filter bytes NAME=VALUE ..` copies its input, with each variable replaced by its value.
//! `subst_filter text NAME=VALUE ..` also refuses an input that isn't UTF-8. `subst_filter env` refuses such
//! an input too, and uses the variables of the environment.
//!
//! The exit statuses are in the module [`status`].
#![tactic(auto)]

pub mod device;
pub mod engine;
pub mod process;
pub mod program;
pub mod run_error;
pub mod status;
pub mod task;
pub mod values;
