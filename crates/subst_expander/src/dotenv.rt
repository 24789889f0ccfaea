//! Parses `.env` files. Values may use variables of higher precedence, and those that earlier lines set.

ghost use Rattle.std.specs.Prelude.{◌≡◌, ◌<◌, ◌∷◌, ◌++◌, ℕ, [], IsUtf8, None, Some, IfErr, IfOk, List, OnOk, length, map, string_bytes, if◌then◌else◌};
ghost use Rattle.std.specs.Str.{bytes_eq};
ghost use Rattle.subst_expander.specs.Dotenv.{setting, value_in, FilesLeave, GoesOn, HasLast, IsFaultOfFile, IsFirstRefused, IsFirstRefusedLine, Leaves, Stops};
ghost use Rattle.subst_expander.specs.Layers.{ForEntries, entries_of};
ghost use Rattle.subst_expander.specs.Mark.{after_mark};
ghost use Rattle.subst_expander.specs.Refusals.{bytes_of};
ghost use Rattle.subst_expander.specs.ValuesFaults.{HasOne};
ghost use Rattle.subst_expander.specs.ValuesFile as file;

use crate::entry::Entry;
use crate::fault::{Cause, one_fault};
use crate::hints::{UnsetHint, unset_hint};
use crate::layers::Variables;
use crate::part::OrFaults;
use crate::position::Positions;
use crate::source::{Refused, Source};
use crate::text::{not_utf8, split_mark, text_of};
use crate::values_file::after_blanks;
use line::{Line, line_in};
use std::alloc::{AllocError, Global};
use std::collections::HashMap;
use value::{Scope, expanded, unset_variables};

mod line;
mod shell_text;
mod value;

/// The settings of `.env` files so far.
#[derive(Drop)]
pub struct Settings {
    /// The names with their values, in the order of the lines.
    pub entries: Vec<Entry>,
    /// The last value of each name.
    pub values: HashMap<String, String>,
}

/// Parses `.env` files; `above` are the variables of higher precedence. Returns the files' settings in order,
/// or the first refused file. Appends a hint to `unset` for each unset variable that expands to nothing.
///
/// # Errors
///
/// If allocation fails.
pub fn settings_of(
    alloc: Global,
    files: Vec<Source>,
    above: &Variables<'_>,
    unset: &mut Vec<UnsetHint>,
) -> Result<Result<Vec<Entry>, Refused>, AllocError>
    ensures gives { ForEntries above.now (λ above. IfOk result (λ outcome. IfOk outcome
        (λ entries. FilesLeave above [] (map bytes_of files.items) (entries_of entries.items)))) }
    ensures refused { ForEntries above.now (λ above. IfOk result (λ outcome. IfErr outcome
        (IsFirstRefused above (map bytes_of files.items)))) }
{
    let mut set = Settings {
        entries: Vec::new(alloc),
        values: HashMap::new(alloc),
    };
    for source in files {
        let outcome = add_file(alloc, &source, above, &mut set, unset)?;
        match outcome {
            Ok(()) => {}
            Err(faults) => return Ok(Err(Refused { source, faults })),
        }
    }
    Ok(Ok(set.entries))
}

/// Appends the settings of a file to `set`, or returns the file's faults.
///
/// # Errors
///
/// If allocation fails.
fn add_file(
    alloc: Global,
    source: &Source,
    above: &Variables<'_>,
    set: &mut Settings,
    unset: &mut Vec<UnsetHint>,
) -> Result<OrFaults<()>, AllocError>
    requires { HasLast set.now }
    ensures last { IfOk result (λ outcome. IfOk outcome (λ _. HasLast set.new)) }
    ensures leaves { ForEntries above.now (λ above. IfOk result (λ outcome. IfOk outcome (λ _.
        IsUtf8 (bytes_of source.now) × Leaves above (entries_of set.old.entries.items)
        (after_mark (bytes_of source.now)) (entries_of set.new.entries.items)))) }
    ensures refused { ForEntries above.now (λ above. IfOk result (λ outcome. IfErr outcome
        (λ faults. HasOne (IsFaultOfFile above (entries_of set.old.entries.items)
        (bytes_of source.now)) faults.items))) }
{
    if text_of(&source.bytes).is_none() {
        return Ok(Err(not_utf8(alloc, &source.bytes)?));
    }
    let mut hints = Hints {
        file: &source.name,
        positions: Positions::of(&source.bytes),
        unset,
    };
    add_lines(alloc, &source.bytes, above, set, &mut hints)
}

/// Appends the settings of a file's lines to `set`. Stops at the first refused line, and returns its fault.
///
/// # Errors
///
/// If allocation fails.
fn add_lines(
    alloc: Global,
    bytes: &[u8],
    above: &Variables<'_>,
    set: &mut Settings,
    hints: &mut Hints<'_, '_>,
) -> Result<OrFaults<()>, AllocError>
    requires { HasLast set.now }
    ensures last { IfOk result (λ outcome. IfOk outcome (λ _. HasLast set.new)) }
    ensures leaves { ForEntries above.now (λ above. IfOk result (λ outcome. IfOk outcome (λ _.
        Leaves above (entries_of set.old.entries.items) (after_mark bytes.now)
        (entries_of set.new.entries.items)))) }
    ensures stops { ForEntries above.now (λ above. IfOk result (λ outcome. IfErr outcome (λ faults.
        HasOne (IsFirstRefusedLine above (entries_of set.old.entries.items) bytes.now)
        faults.items))) }
{
    let (_, mut rest) = split_mark(bytes);
    while !rest.is_empty() {
        let start = bytes.len().saturating_sub(after_blanks(rest).len());
        match add_line(alloc, rest, above, set, hints, start)? {
            Ok(later) => rest = later,
            Err(cause) => return Ok(Err(one_fault(alloc, start..start, cause)?)),
        }
    }
    Ok(Ok(()))
}

/// Appends the setting of a text's first line, if any. Returns the text after the line, or the cause of the
/// line's refusal.
///
/// # Errors
///
/// If allocation fails.
fn add_line<'t>(
    alloc: Global,
    text: &'t [u8],
    above: &Variables<'_>,
    set: &mut Settings,
    hints: &mut Hints<'_, '_>,
    start: usize,
) -> Result<Result<&'t [u8], Cause>, AllocError>
    requires { HasLast set.now }
    ensures last { IfOk result (λ outcome. IfOk outcome (λ _. HasLast set.new)) }
    ensures goes_on { ForEntries above.now (λ above. IfOk result (λ outcome. IfOk outcome
        (GoesOn above (entries_of set.old.entries.items) text.now
        (entries_of set.new.entries.items)))) }
    ensures stops { ForEntries above.now (λ above. IfOk result (λ outcome. IfErr outcome
        (Stops above (entries_of set.old.entries.items) text.now (file.after_blanks text.now)))) }
    ensures shorter { 0 < length text.now → IfOk result (λ outcome. IfOk outcome
        (λ later. length later.now < length text.now)) }
{
    match line_in(alloc, text)? {
        Line::Nothing(later) => Ok(Ok(later)),
        Line::Wrong(why) => Ok(Err(Cause::NoVariable(why))),
        Line::Sets(name, value, later) => {
            let scope = Scope {
                above,
                set: &set.values,
            };
            hints.add(alloc, start, &value, &scope)?;
            match expanded(alloc, &value, &scope)? {
                Ok(value) => {
                    set.add(alloc, name, value)?;
                    Ok(Ok(later))
                }
                Err(cause) => Ok(Err(cause)),
            }
        }
    }
}

/// A collector of hints for the unset variables of a file.
#[derive(Drop)]
struct Hints<'s, 'h> {
    /// The name of the file.
    file: &'s str,
    /// The converter of offsets in the file into lines and columns.
    positions: Positions<'s>,
    /// The hints so far.
    unset: &'h mut Vec<UnsetHint>,
}

impl Hints<'_, '_> {
    /// Appends a hint for each unset variable of a value. The hint's position is that of `start`, the byte
    /// offset of the value's line.
    ///
    /// # Errors
    ///
    /// If allocation fails.
    fn add(
        &mut self,
        alloc: Global,
        start: usize,
        value: &[u8],
        scope: &Scope<'_, '_>,
    ) -> Result<(), AllocError> {
        for variable in unset_variables(alloc, value, scope)? {
            let position = self.positions.at(alloc, start)?;
            self.unset
                .push(unset_hint(alloc, self.file, position, variable.name)?)?;
        }
        Ok(())
    }
}

impl Settings {
    /// Appends an entry for a name and a value, which becomes the name's last value.
    ///
    /// # Errors
    ///
    /// If allocation fails.
    fn add(&mut self, alloc: Global, name: &str, value: String) -> Result<(), AllocError>
        requires { HasLast self.now }
        ensures last { OnOk result (HasLast self.new) }
        ensures entries { OnOk result (entries_of self.new.entries.items
            ≡ entries_of self.old.entries.items ++ setting name.now (string_bytes value) ∷ []) }
    {
        put(alloc, &mut self.values, name, &value)?;
        let name = String::from_str(alloc, name)?;
        let value = Some(value);
        self.entries.push(Entry { name, value })?;
        Ok(())
    }
}

/// Inserts a copy of a value under a name.
///
/// # Errors
///
/// If allocation fails.
#[tactic(auto, using(std::proofs::lemmas::Map::Text::text_keys))]
fn put(
    alloc: Global,
    values: &mut HashMap<String, String>,
    name: &str,
    value: &str,
) -> Result<(), AllocError>
    ensures { OnOk result ((other : List ℕ) → value_in values.new other
        ≡ (if bytes_eq other name.now then Some value.now else value_in values.old other)) }
{
    values.insert(
        String::from_str(alloc, name)?,
        String::from_str(alloc, value)?,
    )?;
    Ok(())
}
