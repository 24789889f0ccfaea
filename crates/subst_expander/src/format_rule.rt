//! The rule for the format of each source.

ghost use Rattle.std.specs.Prelude.{◌≡◌};
ghost use Rattle.subst_expander.specs.FormatRule as rule;

use crate::document::Format;
use crate::kinds::InputFormat;

/// A rule for the format of each source.
#[derive(Clone, Copy)]
pub enum FormatRule<'w> {
    /// One format for all sources.
    One(InputFormat),
    /// A format for each source, chosen by its path's ending after this suffix is removed.
    ByEnding(&'w str),
}

impl FormatRule<'_> {
    /// Returns the format of a source, by its path.
    pub fn format_of(self, path: &str) -> InputFormat
        ensures format { result ≡ rule.format_of_path self.entry path.now }
    {
        match self {
            FormatRule::One(format) => format,
            FormatRule::ByEnding(suffix) => {
                format_by_ending(without_suffix(path.as_bytes(), suffix.as_bytes()))
            }
        }
    }
}

/// Returns the format for a path's ending, or [`InputFormat::Text`] if the ending is unknown. The case of
/// letters matters.
fn format_by_ending(path: &[u8]) -> InputFormat
    ensures { result ≡ rule.format_by_ending path.now }
{
    if path.ends_with(b".json") {
        InputFormat::Document(Format::Json)
    } else if path.ends_with(b".toml") {
        InputFormat::Document(Format::Toml)
    } else if path.ends_with(b".yaml") || path.ends_with(b".yml") {
        InputFormat::Document(Format::Yaml)
    } else {
        InputFormat::Text
    }
}

/// Removes a suffix from a path. Returns the whole path if it doesn't end in the suffix.
fn without_suffix<'p>(path: &'p [u8], suffix: &[u8]) -> &'p [u8]
    ensures { result.now ≡ rule.without_suffix suffix.now path.now }
{
    let Some(front) = path.strip_suffix(suffix) else {
        return path;
    };
    front
}
