//! The values of a template's names in rows of pairs, by number.

ghost use Rattle.std.specs.Prelude.{◌≡◌, ◌≢◌, ◌<◌, ℕ, List, IfOk, IfSome, OnOk, None, Some, if◌then◌else◌, length};
ghost use Rattle.std.proofs.Props.{props};
ghost use Rattle.std.specs.Option.{option_or};
ghost use Rattle.std.specs.Str.{bytes_eq};
ghost use Rattle.subst_language.specs.Language.Sentence.{ByTree, IsSentence};
ghost use Rattle.subst_indexed.specs.Names.{AreDistinct, HasNumbers, number_in};
ghost use Rattle.subst_indexed.specs.Numbering.{number_of};
ghost use Rattle.subst_indexed.specs.Slot.{values_of};
ghost use Rattle.subst_c.specs.Pairs.{pair_value};
ghost use Rattle.subst_c.specs.RowValues.{AreValuesOf, bytes_of, names_at};

use crate::pairs::{Pair, find};
use std::alloc::{AllocError, Global};
use std::collections::BTreeMap;
use subst_indexed::IndexedTemplate;

/// The highest number of names for which a search of the pairs for each name is no slower than a lookup of
/// each pair's name.
const FEW_NAMES: usize = 16;

/// The numbers of names, by name. The map is sorted, not hashed, so no set of names makes it slow.
type NumberMap<'s> = BTreeMap<&'s [u8], usize>;

/// The names of a template, by number.
///
/// If the names are few, the pairs of a row are searched for each of them, and there is no map. Otherwise the
/// name of each pair is looked up.
#[derive(Drop)]
pub struct Names<'s> {
    pub list: Vec<&'s [u8]>,
    numbers: Option<NumberMap<'s>>,
    ghost distinct: { AreDistinct (bytes_of list.items) },
    ghost numbered: { IfSome numbers (λ map. HasNumbers map (bytes_of list.items)) } by { Prim.hlevel props },
}

/// The values of a template's names in a row. The lists are reused for each row.
#[derive(Drop)]
pub struct RowValues<'r> {
    /// The values, by number.
    pub values: Vec<Option<&'r [u8]>>,
    /// By the index of a pair, a guess of its name's number: the number that it had in an earlier row. Rows
    /// usually have the same names in the same order. Each guess is compared with the name.
    guesses: Vec<usize>,
}

impl<'r> RowValues<'r> {
    /// Creates an empty list of values.
    pub fn new(alloc: Global) -> Self {
        RowValues {
            values: Vec::new(alloc),
            guesses: Vec::new(alloc),
        }
    }
}

impl<'s> Names<'s> {
    /// Returns the names of a template.
    ///
    /// # Errors
    ///
    /// If allocation fails.
    pub fn new(alloc: Global, template: &IndexedTemplate<'s>) -> Result<Self, AllocError>
        requires { IsSentence template.now }
        ensures { IfOk result (λ names.
            ByTree template.now (λ t. bytes_of names.list.items ≡ names_at t)) }
    {
        let list = names_of(alloc, template)?;
        if list.len() <= FEW_NAMES {
            return Ok(Names {
                list,
                numbers: None,
            });
        }
        let numbers = Some(numbers_of(alloc, &list)?);
        Ok(Names { list, numbers })
    }

    /// Finds the value of each name in a row of pairs. The first pair with a name wins.
    ///
    /// # Errors
    ///
    /// If allocation fails.
    pub fn find_values<'r>(
        &self,
        pairs: &[Pair<'r>],
        row: &mut RowValues<'r>,
    ) -> Result<(), AllocError>
        ensures { OnOk result (AreValuesOf (bytes_of self.now.list.items) (pair_value pairs.now)
            (values_of row.new.values.items)) }
    {
        match &self.numbers {
            None => search_each(&self.list, pairs, &mut row.values),
            Some(numbers) => self.look_up_each(numbers, pairs, row),
        }
    }

    /// Finds the value of each name, by looking up the name of each pair.
    ///
    /// # Errors
    ///
    /// If allocation fails.
    fn look_up_each<'r>(
        &self,
        numbers: &NumberMap,
        pairs: &[Pair<'r>],
        row: &mut RowValues<'r>,
    ) -> Result<(), AllocError>
        requires { HasNumbers numbers.now (bytes_of self.now.list.items) }
        ensures { OnOk result (AreValuesOf (bytes_of self.now.list.items) (pair_value pairs.now)
            (values_of row.new.values.items)) }
    {
        extend_guesses(&mut row.guesses, pairs.len())?;
        unset(&mut row.values, self.list.len())?;
        for (index, pair) in pairs.iter().enumerate() {
            if let Some(number) = self.number(numbers, pair.name, index, &mut row.guesses) {
                set_if_unset(&mut row.values, number, pair.value);
            }
        }
        Ok(())
    }

    /// Returns the number of a name, or `None` if the template doesn't have the name. `index` is that of the
    /// name's pair.
    fn number(
        &self,
        numbers: &NumberMap,
        name: &[u8],
        index: usize,
        guesses: &mut [usize],
    ) -> Option<usize>
        requires { HasNumbers numbers.now (bytes_of self.now.list.items) }
        ensures { result ≡ number_of (bytes_of self.now.list.items) name.now }
    {
        if let Some(guess) = guesses.get(index) {
            if let Some(expected) = self.list.get(*guess) {
                if *expected == name {
                    return Some(*guess);
                }
            }
        }
        let number = *numbers.get(name)?;
        if let Some(guess) = guesses.get_mut(index) {
            *guess = number;
        }
        Some(number)
    }
}

/// Finds the value of each name, by searching the pairs for it.
///
/// # Errors
///
/// If allocation fails.
fn search_each<'r>(
    names: &[&[u8]],
    pairs: &[Pair<'r>],
    values: &mut Vec<Option<&'r [u8]>>,
) -> Result<(), AllocError>
    ensures { OnOk result (AreValuesOf (bytes_of names.now) (pair_value pairs.now)
        (values_of values.new.items)) }
{
    values.clear();
    for name in names {
        values.push(find(pairs, name))?;
    }
    Ok(())
}

/// Appends guesses, so that there are at least `count`.
///
/// # Errors
///
/// If allocation fails.
fn extend_guesses(guesses: &mut Vec<usize>, count: usize) -> Result<(), AllocError> {
    for guess in guesses.len()..count {
        guesses.push(guess)?;
    }
    Ok(())
}

/// Replaces the values by `count` unset ones.
///
/// # Errors
///
/// If allocation fails.
fn unset(values: &mut Vec<Option<&[u8]>>, count: usize) -> Result<(), AllocError>
    ensures length { OnOk result (length values.new.items ≡ count) }
    ensures unset { OnOk result ((number : ℕ) → values_of values.new.items number ≡ None) }
{
    values.clear();
    for _ in 0..count {
        values.push(None)?;
    }
    Ok(())
}

/// Sets the value with a number, unless it is set already.
fn set_if_unset<'r>(values: &mut Vec<Option<&'r [u8]>>, number: usize, value: &'r [u8])
    requires { number < length values.old.items }
    ensures length { length values.new.items ≡ length values.old.items }
    ensures set { values_of values.new.items number
        ≡ option_or (values_of values.old.items number) (Some value.now) }
    ensures kept { (other : ℕ) → other ≢ number
        → values_of values.new.items other ≡ values_of values.old.items other }
{
    if values[number].is_none() {
        values[number] = Some(value);
    }
}

/// Returns the names of a template, in the order of their numbers.
///
/// # Errors
///
/// If allocation fails.
fn names_of<'s>(alloc: Global, template: &IndexedTemplate<'s>) -> Result<Vec<&'s [u8]>, AllocError>
    ensures { IfOk result (λ names. ByTree template.now (λ t. bytes_of names.items ≡ names_at t)) }
{
    let count = template.name_count();
    let mut names = Vec::with_capacity(alloc, count)?;
    for number in 0..count {
        match template.name(number) {
            Some(name) => names.push(name)?,
            None => return Ok(names),
        }
    }
    Ok(names)
}

/// Returns the map of names to their numbers.
///
/// # Errors
///
/// If allocation fails.
fn numbers_of<'s>(alloc: Global, names: &[&'s [u8]]) -> Result<NumberMap<'s>, AllocError>
    requires { AreDistinct (bytes_of names.now) }
    ensures { IfOk result (λ numbers. HasNumbers numbers (bytes_of names.now)) }
{
    let mut numbers = BTreeMap::new(alloc);
    for (number, name) in names.iter().enumerate() {
        insert(&mut numbers, name, number)?;
    }
    Ok(numbers)
}

/// Inserts a name and its number.
///
/// # Errors
///
/// If allocation fails.
fn insert<'s>(numbers: &mut NumberMap<'s>, name: &'s [u8], number: usize) -> Result<(), AllocError>
    ensures { OnOk result ((other : List ℕ) → number_in numbers.new other
        ≡ (if bytes_eq name.now other then Some number else number_in numbers.old other)) }
{
    numbers.insert(name, number)?;
    Ok(())
}
