//! The formats of documents.

ghost use Rattle.std.specs.Prelude.{◌≡◌, ◌∷◌, ◌⊎◌, [], List, Err, Ok, Some, IfErr, IfOk, IfSome, IsOkAnd, OnOk, map, string_bytes};
ghost use Rattle.std.specs.List.{All, AllZip};
ghost use Rattle.subst.specs.Errors.{Error as SubstError};
ghost use Rattle.subst.specs.Json.Outcome.{OnJson};
ghost use Rattle.subst.specs.Json.error as json_errors;
ghost use Rattle.subst.specs.Toml.Outcome.{OnToml};
ghost use Rattle.subst.specs.Toml.error as toml_errors;
ghost use Rattle.subst.specs.Yaml.error as yaml_errors;
ghost use Rattle.subst_yaml.specs.declared.error.Fault.{Fault as YamlFault};
ghost use Rattle.subst_expander.specs.Documents.{format_of, AreFound, ArePlaces, FindsIn, IsKept, IsKeptIn, IsNoDocument, IsUnfilled, RefusesString};
ghost use Rattle.subst_expander.specs.Fill.{GivesFor, IsDocumentOutput};
ghost use Rattle.subst_expander.specs.Layers.{Entry};
ghost use Rattle.subst_expander.specs.Strings.{FillsFrom};
ghost use Rattle.subst_expander.specs.declared.document.format.Format.TheVariants as formats;

use super::filler::StringFiller;
use super::mistake;
use crate::fault::Cause;
use std::alloc::{AllocError, Global};
use std::fmt;
use std::ops::Range;
use subst::{RefusalAt, StringAt, json, toml, yaml};

/// A format of documents.
#[derive(Clone, Copy, PartialEq, Eq)]
pub enum Format {
    /// JSON, as `serde_json` reads it.
    Json,
    /// TOML.
    Toml,
    /// YAML, with one or several documents.
    Yaml,
}

/// The reason why a document isn't filled in.
#[derive(Drop)]
pub enum Unfilled {
    /// The text isn't a document, or the result for it can't be confirmed to be right. The fault has this
    /// range and cause.
    Unread(Range<usize>, Cause),
    /// A string is refused.
    Refused,
}

/// A result for a document, or the reason why the document isn't filled in.
type Read<T> = Result<Result<T, Unfilled>, AllocError>;

/// A refused string of a document, with its path.
pub type RefusedAt = (String, StringAt);

impl Format {
    /// Fills in the strings of a document, or returns the reason why the document isn't filled in.
    pub fn fill_in(
        self,
        alloc: Global,
        text: &str,
        filler: &StringFiller<'_, '_, '_>,
    ) -> Read<String>
        ensures output { (entries : List Entry) → FillsFrom filler.now entries
            → IfOk result (λ filled. IfOk filled (λ output. IsDocumentOutput self
            (GivesFor filler.now.placeholders.now entries) text.now (string_bytes output))) }
        ensures unfilled { IfOk result (λ filled. IfErr filled (IsUnfilled
            (IsNoDocument self text.now) (RefusesString self filler.now text.now))) }
    {
        match self {
            Format::Json => of_json(alloc, text, json::fill_in_by(alloc, text, filler)),
            Format::Toml => of_toml(alloc, toml::fill_in_by(alloc, text, filler)),
            Format::Yaml => match of_yaml(alloc, yaml::fill_in_by(alloc, text, filler))? {
                Ok(Some(output)) => Ok(Ok(output)),
                Ok(None) => Ok(Err(Unfilled::Unread(0..0, Cause::NotConfirmed))),
                Err(why) => Ok(Err(why)),
            },
        }
    }

    /// Returns the refused strings with their paths, in the order of the text. The path is empty if the
    /// document is a single string.
    pub fn refused(
        self,
        alloc: Global,
        text: &str,
        filler: &StringFiller<'_, '_, '_>,
    ) -> Read<Vec<RefusedAt>>
        ensures strings { IfOk result (λ refused. IfOk refused (λ refused.
            All (IsKeptIn self text.now) refused.items)) }
        ensures unfilled { IfOk result
            (λ refused. IfErr refused (IsUnfilled (IsNoDocument self text.now) ⊥)) }
    {
        match self {
            Format::Json => {
                let found = of_json(alloc, text, json::refusals_by(alloc, text, filler))?;
                with_paths(alloc, found)
            }
            Format::Toml => {
                let found = of_toml(alloc, toml::refusals_by(alloc, text, filler))?;
                with_paths(alloc, found)
            }
            Format::Yaml => {
                let found = of_yaml(alloc, yaml::refusals_by(alloc, text, filler))?;
                with_paths(alloc, found)
            }
        }
    }

    /// Returns the strings of a document with their spans, in the order of the text.
    pub fn strings(self, alloc: Global, text: &str) -> Read<Vec<StringAt>> {
        match self {
            Format::Json => of_json(alloc, text, json::strings(alloc, text)),
            Format::Toml => of_toml(alloc, toml::strings(alloc, text)),
            Format::Yaml => of_yaml(alloc, yaml::strings(alloc, text)),
        }
    }
}

/// Converts the library's result for JSON. `None` and errors, except out of memory, become [`Unfilled`].
fn of_json<T: Drop>(alloc: Global, text: &str, returned: Result<Option<T>, json::Error>) -> Read<T>
    ensures it { IfOk result (λ outcome. IfOk outcome (λ it. returned ≡ Ok (Some it))) }
    ensures unfilled { IfOk result (λ outcome. IfErr outcome (IsUnfilled (¬ (OnJson returned ⊥))
        ((e : SubstError) × (returned ≡ Err (json_errors.Subst e))))) }
{
    match returned {
        Ok(Some(it)) => Ok(Ok(it)),
        Ok(None) => Ok(Err(Unfilled::Unread(0..0, Cause::NotConfirmed))),
        Err(json::Error::Json(e)) => {
            let stop = json::reader_stop(alloc, text, &e)?;
            Ok(Err(mistake::unread(alloc, text, stop)?))
        }
        Err(json::Error::Subst(_)) => Ok(Err(Unfilled::Refused)),
        Err(json::Error::OutOfMemory(e)) => Err(e),
    }
}

/// Converts the library's result for TOML. `None` and errors, except out of memory, become [`Unfilled`].
fn of_toml<T: Drop>(alloc: Global, returned: Result<Option<T>, toml::Error>) -> Read<T>
    ensures it { IfOk result (λ outcome. IfOk outcome (λ it. returned ≡ Ok (Some it))) }
    ensures unfilled { IfOk result (λ outcome. IfErr outcome (IsUnfilled (¬ (OnToml returned ⊥))
        ((e : SubstError) × (returned ≡ Err (toml_errors.Subst e))))) }
{
    match returned {
        Ok(Some(it)) => Ok(Ok(it)),
        Ok(None) | Err(toml::Error::InvalidUtf8(_)) => {
            Ok(Err(Unfilled::Unread(0..0, Cause::NotConfirmed)))
        }
        Err(toml::Error::Toml(e)) => {
            let cause = match mistake::of_toml(e.message()) {
                Some(mistake) => Cause::Mistake(mistake),
                None => Cause::NotADocument(String::from_str(alloc, e.message())?),
            };
            Ok(Err(Unfilled::Unread(e.span().unwrap_or(0..0), cause)))
        }
        Err(toml::Error::Subst(_)) => Ok(Err(Unfilled::Refused)),
        Err(toml::Error::OutOfMemory(e)) => Err(e),
    }
}

/// Converts the library's result for YAML. Errors, except out of memory, become [`Unfilled`].
fn of_yaml<T: Drop>(alloc: Global, returned: Result<T, yaml::Error>) -> Read<T>
    ensures it { IfOk result (λ outcome. IfOk outcome (λ it. returned ≡ Ok it)) }
    ensures unfilled { IfOk result (λ outcome. IfErr outcome (IsUnfilled
        ((fault : YamlFault) × (returned ≡ Err (yaml_errors.Yaml fault)))
        ((e : SubstError) × (returned ≡ Err (yaml_errors.Subst e))))) }
{
    match returned {
        Ok(it) => Ok(Ok(it)),
        Err(yaml::Error::Yaml(yaml::Fault { reason, span, .. })) => {
            let cause = Cause::NotADocument(format!(in alloc; "invalid YAML: {reason}")?);
            Ok(Err(Unfilled::Unread(span.start..span.end, cause)))
        }
        Err(yaml::Error::Subst(_)) => Ok(Err(Unfilled::Refused)),
        Err(yaml::Error::OutOfMemory(e)) => Err(e),
    }
}

/// Converts the paths of refused strings into texts.
fn with_paths<P: fmt::Display + Drop>(
    alloc: Global,
    found: Result<Vec<RefusalAt<P>>, Unfilled>,
) -> Read<Vec<RefusedAt>>
    ensures strings { IfOk result (λ outcome. IfOk outcome (λ strings. IsOkAnd found
        (λ found. AllZip (IsKept P.output) found.items strings.items))) }
    ensures unfilled { IfOk result (λ outcome. IfErr outcome (λ why. found ≡ Err why)) }
{
    let found = match found {
        Ok(found) => found,
        Err(why) => return Ok(Err(why)),
    };
    let mut strings = Vec::with_capacity(alloc, found.len())?;
    for RefusalAt {
        path,
        text,
        span,
        ..
    } in found {
        strings.push((path.to_string(alloc)?, StringAt { text, span }))?;
    }
    Ok(Ok(strings))
}

/// A finder, which maps ranges of a document's strings to ranges of the document. All strings of a document
/// share one finder.
#[derive(Drop)]
pub enum Finder {
    Json(json::RangeFinder),
    Toml,
    Yaml(yaml::RangeFinder),
}

impl Finder {
    /// Creates a finder for the strings of a document.
    ///
    /// # Errors
    ///
    /// If allocation fails.
    pub fn new(alloc: Global, format: Format, text: &str) -> Result<Self, AllocError>
        ensures format { IfOk result (λ finder. format_of finder ≡ format) }
        ensures finder { IfOk result (FindsIn text.now) }
    {
        match format {
            Format::Json => Ok(Finder::Json(json::RangeFinder::new(alloc))),
            Format::Toml => Ok(Finder::Toml),
            Format::Yaml => Ok(Finder::Yaml(yaml::RangeFinder::new(alloc, text)?)),
        }
    }

    /// Maps ascending ranges of a string to ranges of `text`, the document that the finder was created for.
    /// If the library doesn't find all of them, maps each range to `token`, the range of the string's token.
    ///
    /// # Errors
    ///
    /// If allocation fails.
    pub fn places(
        &mut self,
        alloc: Global,
        text: &str,
        token: Range<usize>,
        ranges: &[Range<usize>],
    ) -> Result<Vec<Range<usize>>, AllocError>
        ensures places { FindsIn text.now self.old → IfOk result
            (λ places. ArePlaces (format_of self.old) text.now token ranges.now places.items) }
        ensures format { OnOk result (format_of self.new ≡ format_of self.old) }
        ensures finder { FindsIn text.now self.old → OnOk result (FindsIn text.now self.new) }
    {
        let Range { start, end } = token;
        let found = match self {
            Finder::Json(finder) => finder.find(alloc, text, start..end, ranges)?,
            Finder::Toml => places_in_toml(alloc, text, start..end, ranges)?,
            Finder::Yaml(finder) => finder.find(alloc, text, start..end, ranges)?,
        };
        match found {
            Some(places) => Ok(places),
            None => ranges.iter().map(|_| start..end).collect(alloc),
        }
    }
}

/// Maps ranges of a string to ranges in a TOML text, or returns `None` if one of them isn't found. A range
/// that ends between a carriage return and its line feed is found only if it is the only range.
/// `toml::place_in`, which takes a single range, finds such a range; `toml::places_in` doesn't.
fn places_in_toml(
    alloc: Global,
    text: &str,
    token: Range<usize>,
    ranges: &[Range<usize>],
) -> Result<Option<Vec<Range<usize>>>, AllocError>
    ensures { IfOk result (λ found. IfSome found
        (λ places. AreFound formats.Toml text.now token ranges.now places.items)) }
{
    let [Range { start, end }] = ranges else {
        return toml::places_in(alloc, text, token, ranges);
    };
    let Some(place) = toml::place_in(alloc, text, token, *start..*end)? else {
        return Ok(None);
    };
    let mut places = Vec::new(alloc);
    places.push(place)?;
    Ok(Some(places))
}
