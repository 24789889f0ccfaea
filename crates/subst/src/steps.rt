//! Counters of steps, for contracts. They only grow, and take no bytes at run time.

pub use subst_expand::Turns;
pub use subst_parse::Reads;
