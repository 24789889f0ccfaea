//! The C interface of the library: variables come as pairs, and outputs go into the caller's buffer.
//!
//! `include/subst.h.in` declares the functions, and docs/C.md shows how to call them. Each function except
//! `subst_version` returns one of the numbers of [`outcome`]. No argument is null: if a length is 0, the
//! header's inline functions pass an address of their own. In a pair or a row, a pointer with the length 0
//! may be null. Tests cover this case, but the contracts don't. An argument that a function writes to
//! overlaps no other argument.
#![tactic(auto)]

ghost use Rattle.std.specs.Prelude.{◌≡◌, ◌≢◌, ◌⊎◌, ◌↔◌, ◌+◌, ◌*◌, ◌<◌, ◌++◌, ℕ, List, drop, length, true, false};
ghost use Rattle.std.specs.Str.{IsCharBoundary, IsUtf8};
ghost use Rattle.subst_error.specs.Display.{IsDisplayOfFault};
ghost use Rattle.subst_error.specs.Position.{position_at};
ghost use Rattle.subst_language.specs.Language.Answer.{Answers, Gives};
ghost use Rattle.subst_language.specs.Language.BadItem.{HasFault};
ghost use Rattle.subst_language.specs.Language.Sentence.{IsSentence};
ghost use Rattle.subst_language.specs.Language.Variables.{all_missing, variables_of};
ghost use Rattle.subst_foreign.specs.Grammar.{grammar};
ghost use Rattle.subst_foreign.specs.Template.{IsTemplate};
ghost use Rattle.subst_foreign.specs.declared.forms.Forms.TheVariants.{Common, Envsubst, Own};
ghost use Rattle.subst_foreign.specs.declared.forms.Missing.TheVariants.{Nothing};
ghost use Rattle.subst_c.specs.Documents.{IsDocumentFaultText, IsFilledIn, IsReported, Json, Toml, Yaml};
ghost use Rattle.subst_c.specs.Each.{AreOutputs, IsRefusedIn};
ghost use Rattle.subst_c.specs.Fault.{IsRecordOf, SetsFault};
ghost use Rattle.subst_c.specs.Foreign.{HasPlain, IsFormText, IsRefusedFor, missing_of};
ghost use Rattle.subst_c.specs.Pairs.{pair_value, GivenBy, TextGivenBy, RefusedBy};
ghost use Rattle.subst_c.specs.Records.{HasRecords};
ghost use Rattle.subst_c.specs.Buffer.{FillsBuffer, IsPut, IsTooLong};
ghost use Rattle.subst_c.specs.Style.{AreOf, GivenByStyle, RefusedByStyle, SetsStyleFault, TextGivenByStyle};
ghost use Rattle.subst_c.specs.declared.style.Choices.{Choices};
ghost use Rattle.subst_c.specs.Text.{IsFaultTextOf, IsHighlighting, are_texts};
ghost use Rattle.subst_c.specs.declared.outcome.TheConstants.{DONE, REFUSED, OUT_OF_MEMORY, ROOM_TOO_SMALL, NOT_UTF8, NOT_A_BOUNDARY, NOT_CONFIRMED, NO_SUCH_STYLE};
ghost use Rattle.subst_c.specs.Results.{IsOther};
ghost use Rattle.subst_version.specs.declared.TheConstants.{MAJOR, MINOR, PATCH};

use document::{of_json, of_toml, of_yaml};
pub use fault::FaultRecord;
use foreign::PlainNames;
use outcome::{DONE, NOT_A_BOUNDARY, NOT_UTF8, OUT_OF_MEMORY, REFUSED};
pub use pairs::{Pair, Row};
use pairs::{Pairs, index_of};
use std::alloc::Global;
pub use style::{StyleFault, StyleRecord};
use subst_error::{Error, line_and_column};
use subst_foreign::{AllNames, Forms, Missing, Style, TextError};
use subst_language::laws;
use subst_template::ByteTemplate;
use subst_version::{MAJOR, MINOR, PATCH};
pub use variables::VariableRecord;

mod answer;
mod buffer;
mod cells;
mod document;
mod each;
mod error;
mod expand;
mod fault;
mod foreign;
mod into;
pub mod named_documents;
mod names;
mod numbered;
pub mod outcome;
mod pairs;
mod question;
mod row_values;
mod rows;
mod style;
pub mod style_template;
pub mod template;
mod value;
mod variables;

/// Returns the version of the library as one number, such as 102 for 0.1.2.
#[unsafe(no_mangle)]
pub extern "C" fn subst_version() -> u32
    ensures version { result ≡ 10000 * MAJOR + 100 * MINOR + PATCH }
{
    10000 * MAJOR + 100 * MINOR + PATCH
}

/// Expands `source` with `pairs`, and writes the output to the front of the buffer.
#[unsafe(no_mangle)]
pub extern "C" fn subst_bytes(
    alloc: Global,
    source: &[u8],
    pairs: &[Pair],
    buffer: &mut [u8],
    needed: &mut usize,
    fault: &mut FaultRecord,
) -> u32
    // The buffer begins with the output, or is unchanged.
    ensures buffer { FillsBuffer (GivenBy source.now pairs.now)
        result needed.old needed.new buffer.old buffer.new }

    // The fault is the one that the source is refused for, and lies in the source.
    ensures fault { SetsFault (IsRecordOf (RefusedBy source.now pairs.now)) source.now
        result fault.old fault.new }

    // A result other than `DONE`, `REFUSED` and `ROOM_TOO_SMALL` is `OUT_OF_MEMORY`.
    ensures others { IsOther result }
{
    match answer::fill_in(alloc, source, pairs) {
        Ok(bytes) => buffer::deliver(&bytes, buffer, needed),
        Err(e) => fault::refuse(&e, fault),
    }
}

/// Does what `subst_bytes` does, if the source and all values are UTF-8. The output is UTF-8 too.
#[unsafe(no_mangle)]
pub extern "C" fn subst_text(
    alloc: Global,
    source: &[u8],
    pairs: &[Pair],
    buffer: &mut [u8],
    needed: &mut usize,
    fault: &mut FaultRecord,
) -> u32
    // As for `subst_bytes`, and the output is UTF-8.
    ensures buffer { FillsBuffer (TextGivenBy source.now pairs.now)
        result needed.old needed.new buffer.old buffer.new }
    ensures fault { SetsFault (IsRecordOf (RefusedBy source.now pairs.now)) source.now
        result fault.old fault.new }

    // The result is `NOT_UTF8` exactly if the source or a value isn't UTF-8.
    ensures text { result ≢ NOT_UTF8 → are_texts source.now pairs.now ≡ true }
    ensures not_text { result ≡ NOT_UTF8 → are_texts source.now pairs.now ≡ false }
    ensures others { result ≢ NOT_UTF8 → IsOther result }
{
    laws::texts_give_texts();
    if !answer::are_texts(source, pairs) {
        return NOT_UTF8;
    }
    subst_bytes(alloc, source, pairs, buffer, needed, fault)
}

/// Expands `source` with `pairs` straight into the front of the buffer. Unless the result is `DONE`, the
/// buffer's contents are unspecified. Memory is allocated for the parse, and for an index of the pairs. If
/// there is no memory for the index, the pairs are searched instead.
#[unsafe(no_mangle)]
pub extern "C" fn subst_bytes_into(
    alloc: Global,
    source: &[u8],
    pairs: &[Pair],
    buffer: &mut [u8],
    needed: &mut usize,
    fault: &mut FaultRecord,
) -> u32
    // As for `subst_bytes`, except that a failed call may change the buffer.
    ensures done { result ≡ DONE
        → IsPut (GivenBy source.now pairs.now) needed.new buffer.old buffer.new }
    ensures too_small { result ≡ ROOM_TOO_SMALL
        → IsTooLong (GivenBy source.now pairs.now) needed.new buffer.old }
    ensures needed_kept { result ≢ DONE → result ≢ ROOM_TOO_SMALL → needed.new ≡ needed.old }
    ensures fault { SetsFault (IsRecordOf (RefusedBy source.now pairs.now)) source.now
        result fault.old fault.new }
    ensures others { IsOther result }

    // The buffer changes only if the source is a sentence.
    ensures buffer_kept { ¬ (IsSentence source.now) → buffer.new ≡ buffer.old }
{
    match ByteTemplate::from_slice(alloc, source) {
        Ok(template) => into::expand_into_buffer(alloc, &template, pairs, buffer, needed, fault),
        Err(e) => fault::refuse(&Error::from(e), fault),
    }
}

/// Does what `subst_bytes_into` does, if the source and all values are UTF-8. The output is UTF-8 too.
#[unsafe(no_mangle)]
pub extern "C" fn subst_text_into(
    alloc: Global,
    source: &[u8],
    pairs: &[Pair],
    buffer: &mut [u8],
    needed: &mut usize,
    fault: &mut FaultRecord,
) -> u32
    // As for `subst_bytes_into`, and the output is UTF-8.
    ensures done { result ≡ DONE
        → IsPut (TextGivenBy source.now pairs.now) needed.new buffer.old buffer.new }
    ensures too_small { result ≡ ROOM_TOO_SMALL
        → IsTooLong (GivenBy source.now pairs.now) needed.new buffer.old }
    ensures needed_kept { result ≢ DONE → result ≢ ROOM_TOO_SMALL → needed.new ≡ needed.old }
    ensures fault { SetsFault (IsRecordOf (RefusedBy source.now pairs.now)) source.now
        result fault.old fault.new }

    // The result is `NOT_UTF8` exactly if the source or a value isn't UTF-8.
    ensures text { result ≢ NOT_UTF8 → are_texts source.now pairs.now ≡ true }
    ensures not_text { result ≡ NOT_UTF8 → are_texts source.now pairs.now ≡ false }
    ensures others { result ≢ NOT_UTF8 → IsOther result }

    // The buffer changes only if the source is a sentence and both the source and all values are UTF-8.
    ensures buffer_kept { ¬ (IsSentence source.now) → buffer.new ≡ buffer.old }
    ensures buffer_kept_of_no_text { result ≡ NOT_UTF8 → buffer.new ≡ buffer.old }
{
    laws::texts_give_texts();
    if !answer::are_texts(source, pairs) {
        return NOT_UTF8;
    }
    subst_bytes_into(alloc, source, pairs, buffer, needed, fault)
}

/// Expands `source` with each row of pairs, and writes the concatenated outputs to the front of the buffer.
/// The end of each output is written to `ends`. The source is parsed once.
#[unsafe(no_mangle)]
pub extern "C" fn subst_bytes_each(
    alloc: Global,
    source: &[u8],
    rows: &[Row],
    buffer: &mut [u8],
    ends: &mut [usize],
    needed: &mut usize,
    row: &mut usize,
    fault: &mut FaultRecord,
) -> u32
    ensures done { result ≡ DONE
        → (outputs_end : List ℕ)
        × IsPut (λ x. AreOutputs source.now rows.now x outputs_end) needed.new buffer.old buffer.new
        × (ends.new ≡ outputs_end ++ drop (length outputs_end) ends.old) }

    // The fault and `row` are those of the first refusal. If the source is no sentence, the fault is that of
    // the source, and `row` is 0. Otherwise `row` is the index of the first row with which the source is
    // refused, and the fault is that of this refusal.
    ensures fault { SetsFault (IsRecordOf (IsRefusedIn source.now rows.now row.new)) source.now
        result fault.old fault.new }

    // If the result is `ROOM_TOO_SMALL`, the outputs are longer than the buffer, or `ends` has fewer elements
    // than there are outputs.
    ensures too_small { result ≡ ROOM_TOO_SMALL
        → (x : List ℕ) × (outputs_end : List ℕ) × AreOutputs source.now rows.now x outputs_end
        × (needed.new ≡ length x)
        × ((length buffer.old < needed.new) ⊎ (length ends.old < length outputs_end)) }
    ensures others { IsOther result }
    ensures buffer_kept { result ≢ DONE → (buffer.new ≡ buffer.old) × (ends.new ≡ ends.old) }
    ensures row_kept { result ≢ REFUSED → row.new ≡ row.old }
    ensures needed_kept { result ≢ DONE → result ≢ ROOM_TOO_SMALL → needed.new ≡ needed.old }
{
    match each::fill_in_each(alloc, source, rows) {
        Ok(outputs) => outputs.deliver(buffer, ends, needed),
        Err(refusal) => {
            let result = fault::refuse(&refusal.error, fault);
            if result == REFUSED {
                *row = refusal.row;
            }
            result
        }
    }
}

/// Fills in the strings of `source`, a JSON document, from `pairs`, and writes the output to the front of the
/// buffer. All other bytes of the output are those of the source. The source and all values have to be UTF-8.
#[unsafe(no_mangle)]
pub extern "C" fn subst_json(
    alloc: Global,
    source: &[u8],
    pairs: &[Pair],
    buffer: &mut [u8],
    needed: &mut usize,
    fault: &mut FaultRecord,
) -> u32
    // The buffer begins with the document, with its strings filled in.
    ensures buffer { FillsBuffer (IsFilledIn Json (pair_value pairs.now) source.now)
        result needed.old needed.new buffer.old buffer.new }

    // If the source is refused, either it is no document, or the fault is that of its first refused string.
    // The fault's span is in the source.
    ensures fault { SetsFault (IsReported Json (pair_value pairs.now) source.now) source.now
        result fault.old fault.new }

    // The result is `NOT_UTF8` exactly if the source or a value isn't UTF-8.
    ensures text { result ≢ NOT_UTF8 → are_texts source.now pairs.now ≡ true }
    ensures not_text { result ≡ NOT_UTF8 → are_texts source.now pairs.now ≡ false }
    ensures others { result ≢ NOT_UTF8 → result ≢ NOT_CONFIRMED → IsOther result }
{
    match answer::as_texts(alloc, source, pairs) {
        Some((text, pairs)) => {
            document::deliver(of_json::fill_in(alloc, text, &pairs), buffer, needed, fault)
        }
        None => NOT_UTF8,
    }
}

/// Fills in the strings of `source`, a TOML document, as `subst_json` does for a JSON document.
#[unsafe(no_mangle)]
pub extern "C" fn subst_toml(
    alloc: Global,
    source: &[u8],
    pairs: &[Pair],
    buffer: &mut [u8],
    needed: &mut usize,
    fault: &mut FaultRecord,
) -> u32
    // The buffer begins with the document, with its strings filled in.
    ensures buffer { FillsBuffer (IsFilledIn Toml (pair_value pairs.now) source.now)
        result needed.old needed.new buffer.old buffer.new }

    // If the source is refused, either it is no document, or the fault is that of its first refused string.
    // The fault's span is in the source.
    ensures fault { SetsFault (IsReported Toml (pair_value pairs.now) source.now) source.now
        result fault.old fault.new }

    // The result is `NOT_UTF8` exactly if the source or a value isn't UTF-8.
    ensures text { result ≢ NOT_UTF8 → are_texts source.now pairs.now ≡ true }
    ensures not_text { result ≡ NOT_UTF8 → are_texts source.now pairs.now ≡ false }
    ensures others { result ≢ NOT_UTF8 → result ≢ NOT_CONFIRMED → IsOther result }
{
    match answer::as_texts(alloc, source, pairs) {
        Some((text, pairs)) => {
            document::deliver(of_toml::fill_in(alloc, text, &pairs), buffer, needed, fault)
        }
        None => NOT_UTF8,
    }
}

/// Fills in the strings of `source`, a YAML document, like `subst_json`.
#[unsafe(no_mangle)]
pub extern "C" fn subst_yaml(
    alloc: Global,
    source: &[u8],
    pairs: &[Pair],
    buffer: &mut [u8],
    needed: &mut usize,
    fault: &mut FaultRecord,
) -> u32
    // The buffer begins with the document, with its strings filled in.
    ensures buffer { FillsBuffer (IsFilledIn Yaml (pair_value pairs.now) source.now)
        result needed.old needed.new buffer.old buffer.new }

    // If the source is refused, either it is no document, or the fault is that of its first refused string.
    // The fault's span is in the source.
    ensures fault { SetsFault (IsReported Yaml (pair_value pairs.now) source.now) source.now
        result fault.old fault.new }

    // The result is `NOT_UTF8` exactly if the source or a value isn't UTF-8.
    ensures text { result ≢ NOT_UTF8 → are_texts source.now pairs.now ≡ true }
    ensures not_text { result ≡ NOT_UTF8 → are_texts source.now pairs.now ≡ false }
    ensures others { result ≢ NOT_UTF8 → result ≢ NOT_CONFIRMED → IsOther result }
{
    match answer::as_texts(alloc, source, pairs) {
        Some((text, pairs)) => {
            document::deliver(of_yaml::fill_in(alloc, text, &pairs), buffer, needed, fault)
        }
        None => NOT_UTF8,
    }
}

/// Checks whether `source` is a sentence of the template language. Variables aren't looked up.
#[unsafe(no_mangle)]
pub extern "C" fn subst_check(alloc: Global, source: &[u8], fault: &mut FaultRecord) -> u32
    ensures done { result ≡ DONE → IsSentence source.now }
    ensures fault { SetsFault (IsRecordOf (HasFault 0 source.now)) source.now
        result fault.old fault.new }
    ensures others { result ≢ DONE → result ≢ REFUSED → result ≡ OUT_OF_MEMORY }
{
    match ByteTemplate::from_slice(alloc, source) {
        Ok(_) => DONE,
        Err(e) => fault::refuse(&Error::from(e), fault),
    }
}

/// Writes to the front of the buffer a record for each variable of `source`: its kind, and the byte offset
/// and length of its name. The records are in the order of the source, and include variables in defaults. A
/// name that occurs twice has two records. `needed` is the number of records.
#[unsafe(no_mangle)]
pub extern "C" fn subst_variables(
    alloc: Global,
    source: &[u8],
    buffer: &mut [VariableRecord],
    needed: &mut usize,
    fault: &mut FaultRecord,
) -> u32
    // The buffer begins with the records of the variables of the source's tree.
    ensures buffer { FillsBuffer (HasRecords source.now (variables_of 0))
        result needed.old needed.new buffer.old buffer.new }

    // If the result is `REFUSED`, the source is no sentence, and the fault is the reason.
    ensures fault { SetsFault (IsRecordOf (HasFault 0 source.now)) source.now
        result fault.old fault.new }
    ensures others { IsOther result }
{
    match ByteTemplate::from_slice(alloc, source) {
        Ok(template) => match template.variables(alloc) {
            Ok(list) => variables::deliver(&list, buffer, needed),
            Err(_) => OUT_OF_MEMORY,
        },
        Err(e) => fault::refuse(&Error::from(e), fault),
    }
}

/// Writes to the front of the buffer, like `subst_variables`, a record for each variable that `source` needs
/// and that no pair has. Each record has the kind `REQUIRED`. The result is `DONE` even if variables are
/// missing. Variables in a default that isn't used aren't needed.
#[unsafe(no_mangle)]
pub extern "C" fn subst_missing(
    alloc: Global,
    source: &[u8],
    pairs: &[Pair],
    buffer: &mut [VariableRecord],
    needed: &mut usize,
    fault: &mut FaultRecord,
) -> u32
    // The buffer begins with the records of the missing variables of the source's tree.
    ensures buffer { FillsBuffer
        (HasRecords source.now (λ t. all_missing 0 t (pair_value pairs.now)))
        result needed.old needed.new buffer.old buffer.new }

    // The source has an output exactly if no variable is missing.
    ensures none { result ≡ DONE → (needed.new ≡ 0
        ↔ ((x : List ℕ) × Answers source.now (pair_value pairs.now) (Gives x))) }
    ensures fault { SetsFault (IsRecordOf (HasFault 0 source.now)) source.now
        result fault.old fault.new }
    ensures others { IsOther result }
{
    match ByteTemplate::from_slice(alloc, source) {
        Ok(template) => {
            let index = index_of(alloc, source, pairs);
            let missing = template.missing(alloc, &Pairs { pairs, index });
            match missing {
                Ok(missing) => variables::deliver(&missing, buffer, needed),
                Err(_) => OUT_OF_MEMORY,
            }
        }
        Err(e) => fault::refuse(&Error::from(e), fault),
    }
}

/// Writes to the front of the buffer the text of the fault that `subst_bytes` reports for `source` and
/// `pairs`. If there is no fault, the text is empty.
#[unsafe(no_mangle)]
pub extern "C" fn subst_fault_text(
    alloc: Global,
    source: &[u8],
    pairs: &[Pair],
    buffer: &mut [u8],
    needed: &mut usize,
) -> u32
    ensures buffer { FillsBuffer
        (IsFaultTextOf (Answers source.now (pair_value pairs.now)) IsDisplayOfFault)
        result needed.old needed.new buffer.old buffer.new }
    ensures others { result ≢ DONE → result ≢ ROOM_TOO_SMALL → result ≡ OUT_OF_MEMORY }
{
    match answer::fault_text(alloc, source, pairs) {
        Ok(text) => buffer::deliver(text.as_bytes(), buffer, needed),
        Err(_) => OUT_OF_MEMORY,
    }
}

/// Writes to the front of the buffer the text of the fault that `subst_json` reports for `source` and
/// `pairs`. The text has the path of the refused string and the string's fault. If the source isn't JSON, the
/// text is the JSON reader's message. If there is no fault, the text is empty.
#[unsafe(no_mangle)]
pub extern "C" fn subst_json_fault_text(
    alloc: Global,
    source: &[u8],
    pairs: &[Pair],
    buffer: &mut [u8],
    needed: &mut usize,
) -> u32
    ensures buffer { FillsBuffer (IsDocumentFaultText Json (pair_value pairs.now) source.now)
        result needed.old needed.new buffer.old buffer.new }
    ensures text { result ≢ NOT_UTF8 → are_texts source.now pairs.now ≡ true }
    ensures not_text { result ≡ NOT_UTF8 → are_texts source.now pairs.now ≡ false }
    ensures others { result ≢ DONE → result ≢ ROOM_TOO_SMALL → result ≢ NOT_UTF8
        → result ≢ NOT_CONFIRMED → result ≡ OUT_OF_MEMORY }
{
    match answer::as_texts(alloc, source, pairs) {
        Some((text, pairs)) => {
            document::deliver_text(of_json::fill_in(alloc, text, &pairs), buffer, needed)
        }
        None => NOT_UTF8,
    }
}

/// Writes to the front of the buffer the text of the fault that `subst_toml` reports, as
/// `subst_json_fault_text` does for `subst_json`.
#[unsafe(no_mangle)]
pub extern "C" fn subst_toml_fault_text(
    alloc: Global,
    source: &[u8],
    pairs: &[Pair],
    buffer: &mut [u8],
    needed: &mut usize,
) -> u32
    ensures buffer { FillsBuffer (IsDocumentFaultText Toml (pair_value pairs.now) source.now)
        result needed.old needed.new buffer.old buffer.new }
    ensures text { result ≢ NOT_UTF8 → are_texts source.now pairs.now ≡ true }
    ensures not_text { result ≡ NOT_UTF8 → are_texts source.now pairs.now ≡ false }
    ensures others { result ≢ DONE → result ≢ ROOM_TOO_SMALL → result ≢ NOT_UTF8
        → result ≢ NOT_CONFIRMED → result ≡ OUT_OF_MEMORY }
{
    match answer::as_texts(alloc, source, pairs) {
        Some((text, pairs)) => {
            document::deliver_text(of_toml::fill_in(alloc, text, &pairs), buffer, needed)
        }
        None => NOT_UTF8,
    }
}

/// Writes to the front of the buffer the text of the fault that `subst_yaml` reports, as
/// `subst_json_fault_text` does for `subst_json`.
#[unsafe(no_mangle)]
pub extern "C" fn subst_yaml_fault_text(
    alloc: Global,
    source: &[u8],
    pairs: &[Pair],
    buffer: &mut [u8],
    needed: &mut usize,
) -> u32
    ensures buffer { FillsBuffer (IsDocumentFaultText Yaml (pair_value pairs.now) source.now)
        result needed.old needed.new buffer.old buffer.new }
    ensures text { result ≢ NOT_UTF8 → are_texts source.now pairs.now ≡ true }
    ensures not_text { result ≡ NOT_UTF8 → are_texts source.now pairs.now ≡ false }
    ensures others { result ≢ DONE → result ≢ ROOM_TOO_SMALL → result ≢ NOT_UTF8
        → result ≢ NOT_CONFIRMED → result ≡ OUT_OF_MEMORY }
{
    match answer::as_texts(alloc, source, pairs) {
        Some((text, pairs)) => {
            document::deliver_text(of_yaml::fill_in(alloc, text, &pairs), buffer, needed)
        }
        None => NOT_UTF8,
    }
}

/// Writes to the front of the buffer the line of the fault that `subst_bytes` reports for `source` and
/// `pairs`, with the fault underlined. If there is no fault, or the line is wider than 60 columns, the text
/// is empty.
#[unsafe(no_mangle)]
pub extern "C" fn subst_fault_highlighting(
    alloc: Global,
    source: &[u8],
    pairs: &[Pair],
    buffer: &mut [u8],
    needed: &mut usize,
) -> u32
    ensures buffer { FillsBuffer
        (IsFaultTextOf (Answers source.now (pair_value pairs.now)) (IsHighlighting source.now))
        result needed.old needed.new buffer.old buffer.new }

    // The result is `NOT_UTF8` exactly if the source isn't UTF-8.
    ensures text { result ≢ NOT_UTF8 → IsUtf8 source.now }
    ensures not_text { result ≡ NOT_UTF8 → ¬ (IsUtf8 source.now) }
    ensures others { result ≢ DONE → result ≢ ROOM_TOO_SMALL → result ≢ NOT_UTF8
        → result ≡ OUT_OF_MEMORY }
{
    let Ok(source) = str::from_utf8(source) else {
        return NOT_UTF8;
    };
    match answer::fault_highlighting(alloc, source, pairs) {
        Ok(shown) => buffer::deliver(shown.as_bytes(), buffer, needed),
        Err(_) => OUT_OF_MEMORY,
    }
}

/// Writes the line and column of the byte offset `position` in `source`, both from 1, as `line_and_column`
/// counts them.
#[unsafe(no_mangle)]
pub extern "C" fn subst_place(
    source: &[u8],
    position: usize,
    line: &mut usize,
    column: &mut usize,
) -> u32
    ensures done { result ≡ DONE
        → (line.new, column.new) ≡ position_at position source.now }

    // The result is `NOT_UTF8` exactly if the source isn't UTF-8.
    ensures text { result ≢ NOT_UTF8 → IsUtf8 source.now }
    ensures not_text { result ≡ NOT_UTF8 → ¬ (IsUtf8 source.now) }

    // If the result is `DONE`, the position is a character boundary. If the result is `NOT_A_BOUNDARY`, the
    // position isn't a character boundary.
    ensures boundary { result ≡ DONE → IsCharBoundary source.now position }
    ensures not_boundary { result ≡ NOT_A_BOUNDARY → ¬ (IsCharBoundary source.now position) }
    ensures others { result ≢ DONE → result ≢ NOT_UTF8 → result ≡ NOT_A_BOUNDARY }
    ensures kept { result ≢ DONE → (line.new ≡ line.old) × (column.new ≡ column.old) }
{
    let Ok(source) = str::from_utf8(source) else {
        return NOT_UTF8;
    };
    if !source.is_char_boundary(position) {
        return NOT_A_BOUNDARY;
    }
    (*line, *column) = line_and_column(source, position);
    DONE
}

/// Expands `source`, a text of another tool, with `pairs`, and writes the output to the front of the buffer.
/// The style states which forms and names are variables, and how an unset variable expands.
#[unsafe(no_mangle)]
pub extern "C" fn subst_bytes_by_style(
    alloc: Global,
    source: &[u8],
    style: &StyleRecord,
    pairs: &[Pair],
    buffer: &mut [u8],
    needed: &mut usize,
    fault: &mut StyleFault,
) -> u32
    // The buffer begins with the output, or is unchanged.
    ensures buffer { FillsBuffer (GivenByStyle style.now pairs.now source.now)
        result needed.old needed.new buffer.old buffer.new }

    // The fault is that of the first refused form, or, if there is none, of the missing variable.
    ensures fault { SetsStyleFault (RefusedByStyle style.now pairs.now source.now) source.now
        result fault.old fault.new }

    // The result is `NO_SUCH_STYLE` exactly if `forms`, `names` or `missing` of the style isn't a defined
    // number.
    ensures style { result ≢ NO_SUCH_STYLE → (choices : Choices) × AreOf style.now choices }
    ensures no_style { result ≡ NO_SUCH_STYLE → (choices : Choices) → ¬ (AreOf style.now choices) }
    ensures others { result ≢ NO_SUCH_STYLE → IsOther result }
{
    style::deliver(alloc, source, style, pairs, buffer, needed, fault)
}

/// Does what `subst_bytes_by_style` does, if the source and all values are UTF-8. The output is UTF-8 too.
#[unsafe(no_mangle)]
pub extern "C" fn subst_text_by_style(
    alloc: Global,
    source: &[u8],
    style: &StyleRecord,
    pairs: &[Pair],
    buffer: &mut [u8],
    needed: &mut usize,
    fault: &mut StyleFault,
) -> u32
    // The buffer and the fault are as for `subst_bytes_by_style`, and the output is UTF-8.
    ensures buffer { FillsBuffer (TextGivenByStyle style.now pairs.now source.now)
        result needed.old needed.new buffer.old buffer.new }
    ensures fault { SetsStyleFault (RefusedByStyle style.now pairs.now source.now) source.now
        result fault.old fault.new }

    // The result is `NOT_UTF8` exactly if the source or a value isn't UTF-8.
    ensures text { result ≢ NOT_UTF8 → are_texts source.now pairs.now ≡ true }
    ensures not_text { result ≡ NOT_UTF8 → are_texts source.now pairs.now ≡ false }
    ensures style { result ≢ NOT_UTF8 → result ≢ NO_SUCH_STYLE
        → (choices : Choices) × AreOf style.now choices }
    ensures no_style { result ≡ NO_SUCH_STYLE → (choices : Choices) → ¬ (AreOf style.now choices) }
    ensures others { result ≢ NOT_UTF8 → result ≢ NO_SUCH_STYLE → IsOther result }
{
    if !answer::are_texts(source, pairs) {
        return NOT_UTF8;
    }
    style::deliver(alloc, source, style, pairs, buffer, needed, fault)
}

/// Writes a template for `source`, a text written for `envsubst`, to the front of the buffer. Each `$NAME`
/// and `${NAME}` whose name doesn't begin with a digit is a variable, and all else is text. An unset variable
/// expands to nothing, or to a fault if `optional` is 0.
#[unsafe(no_mangle)]
pub extern "C" fn subst_from_envsubst(
    alloc: Global,
    source: &[u8],
    optional: u32,
    buffer: &mut [u8],
    needed: &mut usize,
) -> u32
    // The buffer begins with the template. No source is refused.
    ensures buffer { FillsBuffer (IsTemplate (grammar Envsubst true (λ operated name. Unit {0}))
        (missing_of optional) source.now) result needed.old needed.new buffer.old buffer.new }
    ensures others { result ≢ DONE → result ≢ ROOM_TOO_SMALL → result ≡ OUT_OF_MEMORY }
{
    foreign::deliver(
        alloc,
        source,
        Forms::Envsubst,
        &AllNames,
        optional,
        buffer,
        needed,
    )
}

/// Writes a template for `source` to the front of the buffer, like `subst_from_envsubst`. `$NAME` and
/// `${NAME}` are variables if a pair has the name, and all else is text. The values aren't read.
#[unsafe(no_mangle)]
pub extern "C" fn subst_with_only(
    alloc: Global,
    source: &[u8],
    pairs: &[Pair],
    optional: u32,
    buffer: &mut [u8],
    needed: &mut usize,
) -> u32
    ensures buffer { FillsBuffer (IsTemplate (grammar Own false (HasPlain (pair_value pairs.now)))
        (missing_of optional) source.now) result needed.old needed.new buffer.old buffer.new }
    ensures others { result ≢ DONE → result ≢ ROOM_TOO_SMALL → result ≡ OUT_OF_MEMORY }
{
    let index = index_of(alloc, source, pairs);
    let pairs = Pairs { pairs, index };
    foreign::deliver(
        alloc,
        source,
        Forms::Own,
        &PlainNames { pairs: &pairs },
        optional,
        buffer,
        needed,
    )
}

/// Writes a template for `source`, a text with a shell's variables, to the front of the buffer. The variables
/// have the forms that shells and Docker Compose read alike. Expand the template only with pairs whose values
/// aren't empty. If a form is refused, `form` is its number, and `position` the byte offset where it begins.
#[unsafe(no_mangle)]
pub extern "C" fn subst_from_shell(
    alloc: Global,
    source: &[u8],
    buffer: &mut [u8],
    needed: &mut usize,
    form: &mut u32,
    position: &mut usize,
) -> u32
    ensures buffer { FillsBuffer (IsTemplate (grammar Common true (λ operated name. Unit {0}))
        Nothing source.now) result needed.old needed.new buffer.old buffer.new }
    ensures refused { result ≡ REFUSED → IsRefusedFor source.now form.new position.new }
    ensures others { IsOther result }
    ensures place_kept { result ≢ REFUSED
        → (form.new ≡ form.old) × (position.new ≡ position.old) }
{
    let style = Style {
        forms: Forms::Common,
        names: &AllNames,
        missing: Missing::Nothing,
    };
    match style.byte_template(alloc, source) {
        Ok(template) => buffer::deliver(&template, buffer, needed),
        Err(TextError::Refused(first)) => {
            *form = foreign::number_of(first.form);
            *position = first.position;
            REFUSED
        }
        Err(TextError::OutOfMemory(_)) => OUT_OF_MEMORY,
    }
}

/// Writes to the front of the buffer the message for a refused form. `form` is the form's number, as
/// `subst_from_shell` reports it. If no form has this number, the message is empty.
#[unsafe(no_mangle)]
pub extern "C" fn subst_shell_form_text(
    alloc: Global,
    form: u32,
    buffer: &mut [u8],
    needed: &mut usize,
) -> u32
    ensures buffer { FillsBuffer (IsFormText form)
        result needed.old needed.new buffer.old buffer.new }
    ensures others { result ≢ DONE → result ≢ ROOM_TOO_SMALL → result ≡ OUT_OF_MEMORY }
{
    match foreign::form_text(alloc, form) {
        Ok(message) => buffer::deliver(message.as_bytes(), buffer, needed),
        Err(_) => OUT_OF_MEMORY,
    }
}
