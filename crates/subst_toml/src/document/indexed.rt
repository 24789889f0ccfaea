//! Paths to the strings of a document, found in a copy of it in which each string is replaced by its index.
//! Indices begin at 0, in document order. The tree of the copy has the same shape, with the indices in place
//! of the strings.

ghost use Rattle.std.specs.Prelude.{IfOk, IfSome, IsTrue};
ghost use Rattle.std.specs.Fmt.{decimal};
ghost use Rattle.toml.specs.View.{view};
ghost use Rattle.subst_document.specs.Refused.{ArePathsTo};
ghost use Rattle.subst_toml.specs.Listed.{index_token, IsPathTo};
ghost use Rattle.subst_toml.specs.Paths.{steps_of, Leads};

use crate::path::Path;
use crate::place::{string_at, table_of};
use std::alloc::{AllocError, Global};
use subst_document::{PathStep, Paths, Plain, RefusalAt, StringAt, with_plain};
use toml::Value;

/// The replacement for each string: its index in single quotes.
#[derive(Clone, Copy)]
struct Indices;

impl Plain for Indices {
    ghost bytes = { λ _. index_token };

    fn push(&self, alloc: Global, index: usize, output: &mut String) -> Result<(), AllocError> {
        let token = format!(in alloc; "'{index}'")?;
        output.push_str(token.as_str())
    }
}

/// The paths to the strings of a document. They are found in a copy that has indices in place of the strings.
#[derive(Clone, Copy)]
pub(crate) struct TomlPaths<'t> {
    pub(crate) source: &'t str,
    /// All strings of the document.
    pub(crate) list: &'t [StringAt],
}

impl Paths for TomlPaths<'_> {
    type Path = Path;

    ghost leads_to = { λ it. IsPathTo it.source.now it.list.now };

    fn paths_to(
        &self,
        alloc: Global,
        refused: &[RefusalAt<usize>],
    ) -> Result<Option<Vec<Path>>, AllocError> {
        let Some(indexed) = with_plain(alloc, self.source, self.list, &Indices)? else {
            return Ok(None);
        };
        let Some(members) = table_of(alloc, indexed.as_str())? else {
            return Ok(None);
        };
        let tree = Value::Table(members);
        let found = paths_of(alloc, &tree, refused)?;
        confirmed(alloc, &tree, refused, found)
    }
}

/// Returns the paths `found`, or `None` if one is missing or doesn't lead to its string's index in `tree`.
fn confirmed(
    alloc: Global,
    tree: &Value,
    refused: &[RefusalAt<usize>],
    found: Vec<Option<Path>>,
) -> Result<Option<Vec<Path>>, AllocError>
    ensures { IfOk result (λ paths. IfSome paths (λ paths. ArePathsTo
        (λ index path. Leads (steps_of path) (view tree.now) (decimal index)) refused.now
        paths.items)) }
{
    let mut paths = Vec::with_capacity(alloc, refused.len())?;
    let mut rest = found.into_iter();
    for it in refused {
        let Some(Some(path)) = rest.next() else {
            return Ok(None);
        };
        if !leads_to(alloc, tree, &path, it.path)? {
            return Ok(None);
        }
        paths.push(path)?;
    }
    Ok(Some(paths))
}

/// Returns whether `path` leads to the index `number` in `tree`, which has indices instead of strings.
fn leads_to(alloc: Global, tree: &Value, path: &Path, number: usize) -> Result<bool, AllocError>
    ensures { IfOk result (λ leads. IsTrue leads
        → Leads (steps_of path.now) (view tree.now) (decimal number)) }
{
    let Some(text) = string_at(tree, path.steps.as_slice()) else {
        return Ok(false);
    };
    let number = format!(in alloc; "{number}")?;
    Ok(text == number.as_str())
}

/// Returns for each refused string the path to its index in `tree`, or `None` if the index isn't there.
fn paths_of(
    alloc: Global,
    tree: &Value,
    refused: &[RefusalAt<usize>],
) -> Result<Vec<Option<Path>>, AllocError> {
    let mut paths = Vec::with_capacity(alloc, refused.len())?;
    for _ in refused {
        paths.push(None)?;
    }
    let mut steps = Vec::new(alloc);
    add_paths(alloc, tree, refused, &mut steps, &mut paths)?;
    Ok(paths)
}

/// Finds the paths to the refused strings inside `part`, and sets them in `paths`. `steps` lead to `part`.
#[cycle(paths)]
fn add_paths(
    alloc: Global,
    part: &Value,
    refused: &[RefusalAt<usize>],
    steps: &mut Vec<PathStep>,
    paths: &mut Vec<Option<Path>>,
) -> Result<(), AllocError> {
    match part {
        Value::String(number) => add_path(number.as_str(), refused, steps, paths),
        Value::Array(items) => {
            for (index, item) in items.iter().enumerate() {
                steps.push(PathStep::Index(index))?;
                add_paths(alloc, item, refused, steps, paths)?;
                let _ = steps.pop();
            }
            Ok(())
        }
        Value::Table(members) => {
            for (key, member) in members.iter() {
                let key = String::from_str(alloc, key.as_str())?;
                steps.push(PathStep::Key(key))?;
                add_paths(alloc, member, refused, steps, paths)?;
                let _ = steps.pop();
            }
            Ok(())
        }
        Value::Integer(_) | Value::Float(_) | Value::Boolean(_) | Value::Datetime(_) => Ok(()),
    }
}

/// Sets the path of the refused string with the index `number` to `steps`, if there is such a string.
fn add_path(
    number: &str,
    refused: &[RefusalAt<usize>],
    steps: &Vec<PathStep>,
    paths: &mut Vec<Option<Path>>,
) -> Result<(), AllocError> {
    let Ok(number) = number.parse::<usize>() else {
        return Ok(());
    };
    if let Ok(place) = refused.binary_search_by(|it| it.path.cmp(&number))
        && let Some(path) = paths.get_mut(place)
    {
        *path = Some(Path {
            steps: steps.clone()?,
        });
    }
    Ok(())
}
