//! The calls that fill in documents with values by number. The variables of a document are numbered in the
//! order of first use.

ghost use Rattle.std.specs.Prelude.{◌≡◌, ◌≢◌, true, false};
ghost use Rattle.std.specs.Str.{IsUtf8};
ghost use Rattle.subst_c.specs.Buffer.{FillsBuffer};
ghost use Rattle.subst_c.specs.DocumentNames.{HasNames, IsFilledByNumber, IsReportedByNumber, WritesNames, are_set_texts, every_name};
ghost use Rattle.subst_c.specs.Documents.{IsReported, Json, Toml, Yaml};
ghost use Rattle.subst_c.specs.Fault.{SetsFault};
ghost use Rattle.subst_c.specs.Results.{IsOther};
ghost use Rattle.subst_c.specs.Values.{given_values};
ghost use Rattle.subst_c.specs.declared.fault.TheConstants.{NO_SUCH_VARIABLE};
ghost use Rattle.subst_c.specs.declared.outcome.TheConstants.{NOT_CONFIRMED, NOT_UTF8, REFUSED};

use crate::document::by_names::{JsonFormat, TomlFormat, YamlFormat, expand, parse};
use crate::fault::FaultRecord;
use crate::value::Value;
use std::alloc::Global;

/// Writes the concatenated names of the variables in the strings of `source`, a JSON document, to the front
/// of the buffer. The position at which each ends is written to `ends`. Each name is written once, in the
/// order of first use. The source has to be UTF-8.
#[unsafe(no_mangle)]
pub extern "C" fn subst_json_parse(
    alloc: Global,
    source: &[u8],
    buffer: &mut [u8],
    ends: &mut [usize],
    needed: &mut usize,
    count: &mut usize,
    fault: &mut FaultRecord,
) -> u32
    // The buffer begins with the names, and `ends` with their ends; or both are unchanged.
    ensures names { WritesNames (HasNames Json source.now) result needed.old needed.new
        count.old count.new buffer.old buffer.new ends.old ends.new }

    // If the source is refused, either it is no document, or the fault is that of its first string with a
    // fault. The fault is the same as if every name had a value, so it is never a missing variable.
    ensures fault { SetsFault (IsReported Json every_name source.now) source.now
        result fault.old fault.new }
    ensures never_missing { result ≡ REFUSED → fault.new.kind ≢ NO_SUCH_VARIABLE }

    // The result is `NOT_UTF8` exactly if the source isn't UTF-8.
    ensures text { result ≢ NOT_UTF8 → IsUtf8 source.now }
    ensures not_text { result ≡ NOT_UTF8 → ¬ (IsUtf8 source.now) }
    ensures others { result ≢ NOT_UTF8 → result ≢ NOT_CONFIRMED → IsOther result }
{
    parse(
        alloc,
        &JsonFormat,
        source,
        buffer,
        ends,
        needed,
        count,
        fault,
    )
}

/// Fills in the strings of `source`, a JSON document, and writes the output to the front of the buffer. The
/// value `i` is that of the name `i` of `subst_json_parse`. The source and the values that are set have to be
/// UTF-8.
#[unsafe(no_mangle)]
pub extern "C" fn subst_json_expand(
    alloc: Global,
    source: &[u8],
    values: &[Value],
    buffer: &mut [u8],
    needed: &mut usize,
    fault: &mut FaultRecord,
) -> u32
    // The buffer begins with the document, with its strings filled in.
    ensures buffer { FillsBuffer (IsFilledByNumber Json (given_values values.now) source.now)
        result needed.old needed.new buffer.old buffer.new }

    // The fault is that for which `subst_json_parse` refuses the source, or else that of the first string
    // that is refused with these values.
    ensures fault { SetsFault (IsReportedByNumber Json (given_values values.now) source.now)
        source.now result fault.old fault.new }

    // The result is `NOT_UTF8` exactly if the source or a value that is set isn't UTF-8.
    ensures text { result ≢ NOT_UTF8 → are_set_texts source.now values.now ≡ true }
    ensures not_text { result ≡ NOT_UTF8 → are_set_texts source.now values.now ≡ false }
    ensures others { result ≢ NOT_UTF8 → result ≢ NOT_CONFIRMED → IsOther result }
{
    expand(alloc, &JsonFormat, source, values, buffer, needed, fault)
}

/// Writes the names of the variables in the strings of `source`, a TOML document, as `subst_json_parse` does
/// for a JSON document.
#[unsafe(no_mangle)]
pub extern "C" fn subst_toml_parse(
    alloc: Global,
    source: &[u8],
    buffer: &mut [u8],
    ends: &mut [usize],
    needed: &mut usize,
    count: &mut usize,
    fault: &mut FaultRecord,
) -> u32
    ensures names { WritesNames (HasNames Toml source.now) result needed.old needed.new
        count.old count.new buffer.old buffer.new ends.old ends.new }
    ensures fault { SetsFault (IsReported Toml every_name source.now) source.now
        result fault.old fault.new }
    ensures never_missing { result ≡ REFUSED → fault.new.kind ≢ NO_SUCH_VARIABLE }
    ensures text { result ≢ NOT_UTF8 → IsUtf8 source.now }
    ensures not_text { result ≡ NOT_UTF8 → ¬ (IsUtf8 source.now) }
    ensures others { result ≢ NOT_UTF8 → result ≢ NOT_CONFIRMED → IsOther result }
{
    parse(
        alloc,
        &TomlFormat,
        source,
        buffer,
        ends,
        needed,
        count,
        fault,
    )
}

/// Fills in the strings of `source`, a TOML document, with values by number, as `subst_json_expand` does for
/// a JSON document.
#[unsafe(no_mangle)]
pub extern "C" fn subst_toml_expand(
    alloc: Global,
    source: &[u8],
    values: &[Value],
    buffer: &mut [u8],
    needed: &mut usize,
    fault: &mut FaultRecord,
) -> u32
    ensures buffer { FillsBuffer (IsFilledByNumber Toml (given_values values.now) source.now)
        result needed.old needed.new buffer.old buffer.new }
    ensures fault { SetsFault (IsReportedByNumber Toml (given_values values.now) source.now)
        source.now result fault.old fault.new }
    ensures text { result ≢ NOT_UTF8 → are_set_texts source.now values.now ≡ true }
    ensures not_text { result ≡ NOT_UTF8 → are_set_texts source.now values.now ≡ false }
    ensures others { result ≢ NOT_UTF8 → result ≢ NOT_CONFIRMED → IsOther result }
{
    expand(alloc, &TomlFormat, source, values, buffer, needed, fault)
}

/// Writes the names of the variables in the strings of `source`, a YAML document, as `subst_json_parse` does
/// for a JSON document.
#[unsafe(no_mangle)]
pub extern "C" fn subst_yaml_parse(
    alloc: Global,
    source: &[u8],
    buffer: &mut [u8],
    ends: &mut [usize],
    needed: &mut usize,
    count: &mut usize,
    fault: &mut FaultRecord,
) -> u32
    ensures names { WritesNames (HasNames Yaml source.now) result needed.old needed.new
        count.old count.new buffer.old buffer.new ends.old ends.new }
    ensures fault { SetsFault (IsReported Yaml every_name source.now) source.now
        result fault.old fault.new }
    ensures never_missing { result ≡ REFUSED → fault.new.kind ≢ NO_SUCH_VARIABLE }
    ensures text { result ≢ NOT_UTF8 → IsUtf8 source.now }
    ensures not_text { result ≡ NOT_UTF8 → ¬ (IsUtf8 source.now) }
    ensures others { result ≢ NOT_UTF8 → result ≢ NOT_CONFIRMED → IsOther result }
{
    parse(
        alloc,
        &YamlFormat,
        source,
        buffer,
        ends,
        needed,
        count,
        fault,
    )
}

/// Fills in the strings of `source`, a YAML document, with values by number, as `subst_json_expand` does for
/// a JSON document.
#[unsafe(no_mangle)]
pub extern "C" fn subst_yaml_expand(
    alloc: Global,
    source: &[u8],
    values: &[Value],
    buffer: &mut [u8],
    needed: &mut usize,
    fault: &mut FaultRecord,
) -> u32
    ensures buffer { FillsBuffer (IsFilledByNumber Yaml (given_values values.now) source.now)
        result needed.old needed.new buffer.old buffer.new }
    ensures fault { SetsFault (IsReportedByNumber Yaml (given_values values.now) source.now)
        source.now result fault.old fault.new }
    ensures text { result ≢ NOT_UTF8 → are_set_texts source.now values.now ≡ true }
    ensures not_text { result ≡ NOT_UTF8 → are_set_texts source.now values.now ≡ false }
    ensures others { result ≢ NOT_UTF8 → result ≢ NOT_CONFIRMED → IsOther result }
{
    expand(alloc, &YamlFormat, source, values, buffer, needed, fault)
}
