//! Literal text in templates: `escaped` and `escape_into` escape a text, and `is_plain` tests whether it
//! needs no escapes.

pub use subst_foreign::escape::{escape_into, escaped};
pub use subst_template::is_plain;
