//! The expansion of sources with variables: texts, bytes, documents and other tools' texts; values files and
//! `.env` files; and the messages about faults, with hints. No file is read or written here.
#![tactic(auto)]

pub mod document;
pub mod dotenv;
pub mod entry;
pub mod environment;
pub mod escape;
pub mod excerpt;
pub mod expansion;
pub mod fault;
pub mod fill;
pub mod format_rule;
pub mod hints;
pub mod kinds;
pub mod layers;
pub mod listing;
pub mod map_back;
pub mod part;
pub mod placeholders;
pub mod position;
pub mod source;
pub mod terminal;
pub mod text;
pub mod values_file;
