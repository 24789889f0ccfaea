//! The columns of a table and the names of a template: which column has the values of a name.

ghost use Rattle.std.specs.Prelude.{◌≡◌, ◌↔◌, ◌<◌, IfOk, IsTrue, length};
ghost use Rattle.subst_indexed.specs.Numbering.{number_of};
ghost use Rattle.subst_rows.specs.Columns.{IsFirstRepeated, IsRepeated, bytes_of, columns_in, names_at, unmatched_from};
ghost use Rattle.subst_language.specs.Language.Sentence.{ByTree};

use std::alloc::{AllocError, Global};
use subst_indexed::IndexedTemplate;
use subst_language::is_name;

/// Returns the names of a template, in the order of their numbers.
///
/// # Errors
///
/// If allocation fails.
pub fn names_of<'s>(
    alloc: Global,
    template: &IndexedTemplate<'s>,
) -> Result<Vec<&'s [u8]>, AllocError>
    ensures { IfOk result (λ names. ByTree template.now (λ t. bytes_of names.items ≡ names_at t)) }
{
    let count = template.name_count();
    let mut names = Vec::with_capacity(alloc, count)?;
    for number in 0..count {
        match template.name(number) {
            Some(name) => names.push(name)?,
            None => return Ok(names),
        }
    }
    Ok(names)
}

/// Returns the index of the first of the names that is equal to `name`, or `None` if there is none.
pub fn index_of(names: &[&[u8]], name: &[u8]) -> Option<usize>
    ensures { result ≡ number_of (bytes_of names.now) name.now }
{
    for (index, other) in names.iter().enumerate() {
        if *other == name {
            return Some(index);
        }
    }
    None
}

/// Returns the index of the column of each name, or `None` for a name without a column. The names of the
/// columns are `head`.
///
/// # Errors
///
/// If allocation fails.
pub fn columns_of(
    alloc: Global,
    names: &[&[u8]],
    head: &[&[u8]],
) -> Result<Vec<Option<usize>>, AllocError>
    ensures { IfOk result
        (λ columns. columns.items ≡ columns_in (bytes_of head.now) (bytes_of names.now)) }
{
    let mut columns = Vec::with_capacity(alloc, names.len())?;
    for name in names {
        columns.push(index_of(head, name))?;
    }
    Ok(columns)
}

/// Returns the indices of those of the names that aren't among the others, in order.
///
/// # Errors
///
/// If allocation fails.
pub fn unmatched(alloc: Global, names: &[&[u8]], others: &[&[u8]]) -> Result<Vec<usize>, AllocError>
    ensures { IfOk result (λ indices. indices.items
        ≡ unmatched_from (bytes_of others.now) 0 (bytes_of names.now)) }
{
    let mut indices = Vec::new(alloc);
    for (index, name) in names.iter().enumerate() {
        if index_of(others, name).is_none() {
            indices.push(index)?;
        }
    }
    Ok(indices)
}

/// Returns the index of the first name of a head that is equal to an earlier one, or `None` if there is none.
/// Names that no template can spell don't count.
pub fn first_repeated(head: &[&[u8]]) -> Option<usize>
    ensures { IsFirstRepeated (bytes_of head.now) result }
{
    for index in 0..head.len() {
        if is_repeated(head, index) {
            return Some(index);
        }
    }
    None
}

/// Returns whether the name with an index can be spelled and is equal to an earlier one.
fn is_repeated(head: &[&[u8]], index: usize) -> bool
    requires { index < length head.now }
    ensures { IsTrue result ↔ IsRepeated (bytes_of head.now) index }
{
    let name = head[index];
    is_name(name) && index_of(&head[..index], name).is_some()
}
