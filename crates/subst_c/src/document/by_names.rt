//! The names of a document's variables, and filling in a document with values by number.

ghost use Rattle.std.specs.Prelude.{◌≡◌, ◌≢◌, ℕ, List, IfOk, IfSome, OnOk, fold, is_some, map, string_bytes, true, false};
ghost use Rattle.std.specs.List.{concat, list_all};
ghost use Rattle.std.specs.Option.{option_map};
ghost use Rattle.std.specs.Result.{IsErrAnd, IsOkAnd};
ghost use Rattle.std.specs.Str.{IsUtf8, is_utf8};
ghost use Rattle.subst_document.specs.Edits.{text_at};
ghost use Rattle.subst_indexed.specs.Names.{AreDistinct};
ghost use Rattle.subst_indexed.specs.Numbering.{look_of};
ghost use Rattle.subst_language.specs.Language.Sentence.{ByTree};
ghost use Rattle.subst_language.specs.Language.Variables.{name_of, variables_of};
ghost use Rattle.subst_c.specs.Buffer.{FillsBuffer};
ghost use Rattle.subst_c.specs.Documents.{IsRefusedWith, IsReported, IsResultOf};
ghost use Rattle.subst_c.specs.DocumentNames.{HasNames, IsFilledByNumber, IsNamesResult, IsReportedByNumber, KnowsNames, UseNames, WritesNames, are_set_texts, distinct, every_name, is_text_if_set, with_name};
ghost use Rattle.subst_c.specs.Each.{ends_from};
ghost use Rattle.subst_c.specs.Fault.{SetsFault};
ghost use Rattle.subst_c.specs.Index.{indexed_value};
ghost use Rattle.subst_c.specs.Pairs.{pair_value};
ghost use Rattle.subst_c.specs.Results.{IsOther};
ghost use Rattle.subst_c.specs.Text.{have_texts};
ghost use Rattle.subst_c.specs.Values.{given_values};
ghost use Rattle.subst_c.specs.declared.fault.TheConstants.{NO_SUCH_VARIABLE};
ghost use Rattle.subst_c.specs.declared.outcome.TheConstants.{NOT_CONFIRMED, NOT_UTF8, OUT_OF_MEMORY, REFUSED};

use super::{Unfilled, deliver, of_json, of_toml, of_yaml};
use crate::answer::is_text;
use crate::each::Outputs;
use crate::fault::FaultRecord;
use crate::outcome::{DONE, NOT_CONFIRMED, NOT_UTF8, OUT_OF_MEMORY, REFUSED, ROOM_TOO_SMALL};
use crate::pairs::{Index, Pair, TextPairs, insert_if_new, pairs_of};
use crate::value::{SET, Value};
use std::alloc::{AllocError, Global};
use std::collections::BTreeMap;
use subst_document::StringAt;
use subst_error::ParseError;
use subst_language::VariableMap;
use subst_template::Template;

/// A map with an empty value for every name.
#[derive(Clone, Copy)]
pub struct EveryName;

impl<'a> VariableMap<'a> for EveryName {
    type Value = &'a str;

    ghost Seen = { List ℕ };

    ghost see = { λ v. v.now };

    ghost look_up = { λ self. every_name };

    fn get(&'a self, _key: &str) -> Option<&'a str> {
        Some("")
    }
}

/// A format of documents.
pub trait DocumentFormat {
    ghost use Rattle.subst_c.specs.Documents.{Format};

    // The format.
    ghost format: { Format };

    /// Returns the names of the variables in the strings of a document.
    ///
    /// # Errors
    ///
    /// If the source is no document, if a string has a fault, or if allocation fails.
    fn names(&self, alloc: Global, source: &str) -> Result<Vec<String>, Unfilled>
        ensures { IsNamesResult format source.now result };

    /// Fills in the strings of a document from pairs, and returns the output.
    ///
    /// # Errors
    ///
    /// If the source is no document, if a string is refused, if the output isn't confirmed, or if allocation
    /// fails.
    fn fill_in(
        &self,
        alloc: Global,
        source: &str,
        pairs: &TextPairs<'_>,
    ) -> Result<String, Unfilled>
        ensures { IsResultOf format (pair_value pairs.now.pairs.pairs.now) source.now result };
}

/// The format of JSON documents.
#[derive(Clone, Copy)]
pub struct JsonFormat;

impl DocumentFormat for JsonFormat {
    ghost use Rattle.subst_c.specs.Documents.{Json};

    ghost format = { Json };

    fn names(&self, alloc: Global, source: &str) -> Result<Vec<String>, Unfilled> {
        of_json::names(alloc, source)
    }

    fn fill_in(
        &self,
        alloc: Global,
        source: &str,
        pairs: &TextPairs<'_>,
    ) -> Result<String, Unfilled> {
        of_json::fill_in(alloc, source, pairs)
    }
}

/// The format of TOML documents.
#[derive(Clone, Copy)]
pub struct TomlFormat;

impl DocumentFormat for TomlFormat {
    ghost use Rattle.subst_c.specs.Documents.{Toml};

    ghost format = { Toml };

    fn names(&self, alloc: Global, source: &str) -> Result<Vec<String>, Unfilled> {
        of_toml::names(alloc, source)
    }

    fn fill_in(
        &self,
        alloc: Global,
        source: &str,
        pairs: &TextPairs<'_>,
    ) -> Result<String, Unfilled> {
        of_toml::fill_in(alloc, source, pairs)
    }
}

/// The format of YAML documents.
#[derive(Clone, Copy)]
pub struct YamlFormat;

impl DocumentFormat for YamlFormat {
    ghost use Rattle.subst_c.specs.Documents.{Yaml};

    ghost format = { Yaml };

    fn names(&self, alloc: Global, source: &str) -> Result<Vec<String>, Unfilled> {
        of_yaml::names(alloc, source)
    }

    fn fill_in(
        &self,
        alloc: Global,
        source: &str,
        pairs: &TextPairs<'_>,
    ) -> Result<String, Unfilled> {
        of_yaml::fill_in(alloc, source, pairs)
    }
}

/// Returns the names of the variables in strings, each once, in the order of first use, or `None` if a string
/// has a fault.
///
/// # Errors
///
/// If allocation fails.
pub fn names_of(alloc: Global, strings: &[StringAt]) -> Result<Option<Vec<String>>, AllocError>
    ensures { IfOk result (λ names. IfSome names (λ names. (used : List (List ℕ))
        × UseNames (map text_at strings.now) used
        × (map string_bytes names.items ≡ distinct used))) }
{
    let mut known = BTreeMap::new(alloc);
    let mut names = Vec::new(alloc);
    for it in strings {
        match Template::from_str(alloc, it.text.as_str()) {
            Ok(template) => add_names(alloc, &template, &mut known, &mut names)?,
            Err(ParseError::OutOfMemory(e)) => return Err(e),
            Err(_) => return Ok(None),
        }
    }
    Ok(Some(names))
}

/// Adds the names of a template's variables that are new. The names so far are also in the map `known`.
///
/// # Errors
///
/// If allocation fails. Some of the names may be added then.
fn add_names<'a>(
    alloc: Global,
    template: &Template<'a>,
    known: &mut Index<'a>,
    names: &mut Vec<String>,
) -> Result<(), AllocError>
    requires { KnowsNames known.old (map string_bytes names.old.items) }
    ensures known { OnOk result (KnowsNames known.new (map string_bytes names.new.items)) }
    ensures names { OnOk result (ByTree template.now (λ t. map string_bytes names.new.items
        ≡ fold with_name (map string_bytes names.old.items) (map name_of (variables_of 0 t)))) }
{
    let variables = template.variables(alloc)?;
    for variable in &variables {
        add_name(alloc, variable.name, known, names)?;
    }
    Ok(())
}

/// Adds a name if it is new.
///
/// # Errors
///
/// If allocation fails.
fn add_name<'a>(
    alloc: Global,
    name: &'a str,
    known: &mut Index<'a>,
    names: &mut Vec<String>,
) -> Result<(), AllocError>
    requires { KnowsNames known.old (map string_bytes names.old.items) }
    ensures known { OnOk result (KnowsNames known.new (map string_bytes names.new.items)) }
    ensures names { OnOk result (map string_bytes names.new.items
        ≡ with_name (map string_bytes names.old.items) name.now) }
{
    if is_known(known, name) {
        return Ok(());
    }
    insert_if_new(known, name.as_bytes(), name.as_bytes())?;
    names.push(String::from_str(alloc, name)?)?;
    Ok(())
}

/// Returns whether a name is in the map.
fn is_known(known: &Index, name: &str) -> bool
    ensures { result ≡ is_some (indexed_value known.now name.now) }
{
    known.get(name.as_bytes()).is_some()
}

/// Writes the names of a document to the front of the buffer, or its fault to `fault` if it is refused.
pub fn parse<D: DocumentFormat>(
    alloc: Global,
    format: &D,
    source: &[u8],
    buffer: &mut [u8],
    ends: &mut [usize],
    needed: &mut usize,
    count: &mut usize,
    fault: &mut FaultRecord,
) -> u32
    ensures names { WritesNames (HasNames D.format source.now) result needed.old needed.new
        count.old count.new buffer.old buffer.new ends.old ends.new }
    ensures fault { SetsFault (IsReported D.format every_name source.now) source.now
        result fault.old fault.new }
    ensures never_missing { result ≡ REFUSED → fault.new.kind ≢ NO_SUCH_VARIABLE }
    ensures text { result ≢ NOT_UTF8 → IsUtf8 source.now }
    ensures not_text { result ≡ NOT_UTF8 → ¬ (IsUtf8 source.now) }
    ensures others { result ≢ NOT_UTF8 → result ≢ NOT_CONFIRMED → IsOther result }
{
    let Ok(source) = simdutf8::basic::from_utf8(source) else {
        return NOT_UTF8;
    };
    match format.names(alloc, source) {
        Ok(names) => deliver_names(alloc, &names, buffer, ends, needed, count),
        Err(e) => refuse(e, fault),
    }
}

/// Writes names to the front of the buffer, and where each ends to the front of `ends`. If either is too
/// small, both are unchanged.
fn deliver_names(
    alloc: Global,
    names: &[String],
    buffer: &mut [u8],
    ends: &mut [usize],
    needed: &mut usize,
    count: &mut usize,
) -> u32
    ensures names { WritesNames (λ list. list ≡ map string_bytes names.now)
        result needed.old needed.new count.old count.new buffer.old buffer.new ends.old ends.new }
    ensures others { result ≢ DONE → result ≢ ROOM_TOO_SMALL → result ≡ OUT_OF_MEMORY }
{
    match joined(alloc, names) {
        Ok(outputs) => {
            *count = names.len();
            outputs.deliver(buffer, ends, needed)
        }
        Err(_) => OUT_OF_MEMORY,
    }
}

/// Returns names as outputs: one after the other, with the position at which each ends.
///
/// # Errors
///
/// If allocation fails.
fn joined(alloc: Global, names: &[String]) -> Result<Outputs, AllocError>
    ensures { IfOk result (λ o. (o.bytes.items ≡ concat (map string_bytes names.now))
        × (o.ends.items ≡ ends_from 0 (map string_bytes names.now))) }
{
    let mut bytes = Vec::new(alloc);
    let mut ends = Vec::new(alloc);
    for name in names {
        bytes.extend_from_slice(name.as_bytes())?;
        ends.push(bytes.len())?;
    }
    Ok(Outputs { bytes, ends })
}

/// Writes the fault of a refused document to `fault`, and returns the number of the call's result.
fn refuse(e: Unfilled, fault: &mut FaultRecord) -> u32
    ensures refused { result ≡ REFUSED → IsRefusedWith e (λ report. fault.new ≡ report.fault) }
    ensures fault_kept { result ≢ REFUSED → fault.new ≡ fault.old }
    ensures others { result ≢ REFUSED → result ≢ NOT_CONFIRMED → result ≡ OUT_OF_MEMORY }
{
    match e {
        Unfilled::Refused(report) => {
            *fault = report.fault;
            REFUSED
        }
        Unfilled::NotConfirmed => NOT_CONFIRMED,
        Unfilled::OutOfMemory(_) => OUT_OF_MEMORY,
    }
}

/// Fills in a document with the values of its names by number. Writes the output to the front of the buffer,
/// or the fault to `fault` if the document is refused.
pub fn expand<D: DocumentFormat>(
    alloc: Global,
    format: &D,
    source: &[u8],
    values: &[Value],
    buffer: &mut [u8],
    needed: &mut usize,
    fault: &mut FaultRecord,
) -> u32
    ensures buffer { FillsBuffer (IsFilledByNumber D.format (given_values values.now) source.now)
        result needed.old needed.new buffer.old buffer.new }
    ensures fault { SetsFault (IsReportedByNumber D.format (given_values values.now) source.now)
        source.now result fault.old fault.new }
    ensures text { result ≢ NOT_UTF8 → are_set_texts source.now values.now ≡ true }
    ensures not_text { result ≡ NOT_UTF8 → are_set_texts source.now values.now ≡ false }
    ensures others { result ≢ NOT_UTF8 → result ≢ NOT_CONFIRMED → IsOther result }
{
    if !is_text(source) || !values_are_texts(values) {
        return NOT_UTF8;
    }
    // SAFETY: the source is UTF-8.
    let source = unsafe { str::from_utf8_unchecked(source) };
    expand_text(alloc, format, source, values, buffer, needed, fault)
}

/// Does what [`expand`] does, if the values that are set are UTF-8.
fn expand_text<D: DocumentFormat>(
    alloc: Global,
    format: &D,
    source: &str,
    values: &[Value],
    buffer: &mut [u8],
    needed: &mut usize,
    fault: &mut FaultRecord,
) -> u32
    requires { list_all is_text_if_set values.now ≡ true }
    ensures buffer { FillsBuffer (IsFilledByNumber D.format (given_values values.now) source.now)
        result needed.old needed.new buffer.old buffer.new }
    ensures fault { SetsFault (IsReportedByNumber D.format (given_values values.now) source.now)
        source.now result fault.old fault.new }
    ensures text { result ≢ NOT_UTF8 }
    ensures others { result ≢ NOT_CONFIRMED → IsOther result }
{
    let names = match format.names(alloc, source) {
        Ok(names) => names,
        Err(e) => return refuse(e, fault),
    };
    let Ok(pairs) = pairs_by_number(alloc, &names, values) else {
        return OUT_OF_MEMORY;
    };
    let pairs = TextPairs {
        pairs: pairs_of(alloc, source.as_bytes(), &pairs),
    };
    deliver(format.fill_in(alloc, source, &pairs), buffer, needed, fault)
}

/// Returns the pairs of names and values with the same number. A name without a value has no pair.
///
/// # Errors
///
/// If allocation fails.
fn pairs_by_number<'a>(
    alloc: Global,
    names: &'a [String],
    values: &'a [Value<'a>],
) -> Result<Vec<Pair<'a>>, AllocError>
    requires { AreDistinct (map string_bytes names.now) }
    ensures value { IfOk result (λ pairs. (name : List ℕ) → pair_value pairs.items name
        ≡ look_of (map string_bytes names.now) (given_values values.now) name) }
    ensures texts { list_all is_text_if_set values.now ≡ true
        → IfOk result (λ pairs. have_texts pairs.items ≡ true) }
{
    let mut pairs = Vec::new(alloc);
    for (number, name) in names.iter().enumerate() {
        if let Some(value) = value_at(values, number) {
            pairs.push(Pair {
                name: name.as_bytes(),
                value,
            })?;
        }
    }
    Ok(pairs)
}

/// Returns the value with a number, or `None` if it isn't set.
fn value_at<'a>(values: &[Value<'a>], number: usize) -> Option<&'a [u8]>
    ensures value { option_map (λ bytes. bytes.now) result ≡ given_values values.now number }
    ensures text { list_all is_text_if_set values.now ≡ true
        → IfSome result (λ bytes. is_utf8 bytes.now ≡ true) }
{
    let value = values.get(number)?;
    match value.given {
        SET => Some(value.bytes),
        _ => None,
    }
}

/// Returns whether the values that are set are UTF-8.
fn values_are_texts(values: &[Value]) -> bool
    ensures { result ≡ list_all is_text_if_set values.now }
{
    values.iter().all(|value| is_text_if_set(value))
}

/// Returns whether a value is UTF-8, or isn't read.
fn is_text_if_set(value: &Value) -> bool
    ensures { result ≡ is_text_if_set value.now }
{
    match value.given {
        SET => is_text(value.bytes),
        _ => true,
    }
}
