//! Callers with each kind of map.

pub mod bytes;
pub mod texts;
