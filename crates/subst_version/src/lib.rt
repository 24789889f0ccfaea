//! The version of this project, defined only here.
#![tactic(auto)]

/// Expands to one of the version's three numbers, or to the version as a text.
macro_rules! version {
    ($part:ident) => {
        version!($part of 0, 3, 0)
    };
    (major of $major:literal, $minor:literal, $patch:literal) => {
        $major
    };
    (minor of $major:literal, $minor:literal, $patch:literal) => {
        $minor
    };
    (patch of $major:literal, $minor:literal, $patch:literal) => {
        $patch
    };
    (text of $major:literal, $minor:literal, $patch:literal) => {
        concat!($major, ".", $minor, ".", $patch)
    };
}

/// The major version.
pub const MAJOR: u32 = version!(major);

/// The minor version, below 100.
pub const MINOR: u32 = version!(minor);

/// The patch version, below 100.
pub const PATCH: u32 = version!(patch);

/// The version as a text: its three numbers, separated by dots.
pub const TEXT: &str = version!(text);
