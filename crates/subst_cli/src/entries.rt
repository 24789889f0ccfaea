//! The variables of a run, by its options, and the expansion of sources with them.

ghost use Rattle.std.specs.Prelude.{◌≡◌, ◌++◌, [], IfErr, IfOk, filter, if◌then◌else◌, map, not, vec_items};
ghost use Rattle.subst_expander.specs.Fill.{AreOutputs};
ghost use Rattle.subst_expander.specs.Layers.{entries_of, environment_of, is_empty};
ghost use Rattle.subst_expander.specs.Dotenv.{FilesLeave, IsFirstRefused};
ghost use Rattle.subst_cli.specs.Run.{above_for, entries_for, first_for, kept_for, rest_for};
ghost use Rattle.subst_expander.specs.Refusals.{bytes_of, AreRefusals};

use std::alloc::{AllocError, Global};
use subst_expander::dotenv::settings_of;
use subst_expander::entry::Entry;
use subst_expander::environment;
use subst_expander::expansion::{Expander, Outputs};
use subst_expander::hints::{UnsetHint, unset_hints};
use subst_expander::layers::{
    Layers, Variables, above, copied, from_pairs, in_order, with_escaped_values, without_empty,
};
use subst_expander::source::{Refused, Source};
use subst_options::Options;

/// Expands every source with the run's variables. Returns the concatenated outputs, or all refused sources if
/// there are any. Unless `--optional` is set, appends a hint to `unset` for each unset variable that expands
/// to nothing in a shell-style text.
///
/// # Errors
///
/// If allocation fails.
pub fn fill_in(
    alloc: Global,
    options: &Options<'_>,
    read: Layers,
    sources: Vec<Source>,
    unset: &mut Vec<UnsetHint>,
) -> Result<Outputs, AllocError>
    ensures gives { let entries = entries_for options.now read in
        IfOk result (λ outputs. IfOk outputs (λ all. AreOutputs options.now.formats
        options.now.placeholders entries sources.items all.items)) }
    ensures refused { let entries = entries_for options.now read in
        IfOk result (λ outputs. IfErr outputs (λ refused. (¬ (refused.items ≡ []))
        × AreRefusals options.now.formats options.now.placeholders entries sources.items
        refused.items)) }
{
    let entries = all_entries(alloc, options, read)?;
    let variables = Variables::of(alloc, &entries)?;
    let expander = expander_of(options, variables);
    if options.hints_unset {
        add_unset_hints(alloc, &expander, &sources, unset)?;
    }
    expander.fill_all(alloc, sources)
}

/// Appends a hint to `unset` for each unset variable that expands to nothing in a shell-style source.
fn add_unset_hints(
    alloc: Global,
    expander: &Expander<'_, '_, '_>,
    sources: &[Source],
    unset: &mut Vec<UnsetHint>,
) -> Result<(), AllocError> {
    for source in sources {
        unset.append(&mut unset_hints(alloc, expander, source)?)?;
    }
    Ok(())
}

/// Returns the variables of a run, the highest precedence first. Applies `--no-empty` and `--escape`.
pub(crate) fn all_entries(
    alloc: Global,
    options: &Options<'_>,
    read: Layers,
) -> Result<Vec<Entry>, AllocError>
    ensures { IfOk result (λ entries. entries_of entries.items ≡ entries_for options.now read) }
{
    let environment = environment_entries(alloc, options, &read.environment)?;
    let mut defaults = read.defaults;
    defaults.append(&mut from_pairs(alloc, &options.defaults)?)?;
    let mut lines = read.lines;
    let mut named = read.named;
    lines.append(&mut named)?;
    let above = above(from_pairs(alloc, &options.pairs)?, lines, environment)?;
    let all = in_order(above, read.dotenv, defaults)?;
    let kept = kept(all, options.no_empty);
    with_escaped_values(alloc, kept, options.escape)
}

/// Returns the variables that come before those of a row, and those that come after them, the highest
/// precedence first. Applies `--no-empty`.
pub(crate) fn entries_around(
    alloc: Global,
    options: &Options<'_>,
    read: Layers,
) -> Result<(Vec<Entry>, Vec<Entry>), AllocError>
    ensures first { IfOk result
        (λ around. entries_of around.0.items ≡ first_for options.now read) }
    ensures rest { IfOk result (λ around. entries_of around.1.items ≡ rest_for options.now read) }
{
    let environment = environment_entries(alloc, options, &read.environment)?;
    let mut defaults = read.defaults;
    defaults.append(&mut from_pairs(alloc, &options.defaults)?)?;
    let pairs = from_pairs(alloc, &options.pairs)?;
    let first = above(pairs, read.named, Vec::new(alloc))?;
    let after = above(Vec::new(alloc), read.lines, environment)?;
    let rest = in_order(after, read.dotenv, defaults)?;
    Ok((kept(first, options.no_empty), kept(rest, options.no_empty)))
}

/// Parses `.env` files, whose values may use variables of higher precedence. Returns the files' variables, or
/// the first refused file. Appends a hint to `unset` for each unset variable that expands to nothing.
///
/// # Errors
///
/// If allocation fails.
pub(crate) fn dotenv_entries(
    alloc: Global,
    options: &Options<'_>,
    read: &Layers,
    files: Vec<Source>,
    unset: &mut Vec<UnsetHint>,
) -> Result<Result<Vec<Entry>, Refused>, AllocError>
    ensures gives { let above = kept_for options.now (above_for options.now read.now) in
        IfOk result (λ outcome. IfOk outcome (λ entries.
        FilesLeave above [] (map bytes_of files.items) (entries_of entries.items))) }
    ensures refused { let above = kept_for options.now (above_for options.now read.now) in
        IfOk result (λ outcome. IfErr outcome
        (IsFirstRefused above (map bytes_of files.items))) }
{
    let environment = environment_entries(alloc, options, &read.environment)?;
    let mut lines = copied(alloc, &read.lines)?;
    lines.append(&mut copied(alloc, &read.named)?)?;
    let above = above(from_pairs(alloc, &options.pairs)?, lines, environment)?;
    let kept = kept(above, options.no_empty);
    let variables = Variables::of(alloc, &kept)?;
    settings_of(alloc, files, &variables, unset)
}

/// Parses the entries of the environment. Returns their variables, or none without `--env`.
fn environment_entries(
    alloc: Global,
    options: &Options<'_>,
    environment: &[Vec<u8>],
) -> Result<Vec<Entry>, AllocError>
    ensures { IfOk result (λ entries. entries_of entries.items
        ≡ (if options.now.environment then environment_of (map vec_items environment.now)
        else [])) }
{
    if !options.environment {
        return Ok(Vec::new(alloc));
    }
    environment::entries(alloc, environment)
}

/// Removes the entries with an empty value if `no_empty` is set.
fn kept(entries: Vec<Entry>, no_empty: bool) -> Vec<Entry>
    ensures { entries_of result.items ≡ (if no_empty
        then filter (λ entry. not (is_empty entry)) (entries_of entries.items)
        else entries_of entries.items) }
{
    if no_empty {
        return without_empty(entries);
    }
    entries
}

/// Returns an expander with these variables, and with the formats and placeholders of options.
pub fn expander_of<'r, 'w, 'v>(
    options: &'r Options<'w>,
    variables: Variables<'v>,
) -> Expander<'r, 'w, 'v>
    ensures formats { result.formats ≡ options.now.formats }
    ensures placeholders { result.placeholders.now ≡ options.now.placeholders }
    ensures variables { result.variables ≡ variables.entry }
{
    Expander {
        formats: options.formats,
        placeholders: &options.placeholders,
        variables,
    }
}
