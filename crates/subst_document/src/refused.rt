//! The refused strings of a list, with their paths.

ghost use Rattle.std.specs.Prelude.{◌≡◌, ℕ, IfOk, IfSome, MatchOption, List, map};
ghost use Rattle.std.specs.List.{zip};
ghost use Rattle.subst_language.specs.Language.Answer.{Gives};
ghost use Rattle.subst_document.specs.Edits.{text_at};
ghost use Rattle.subst_document.specs.Refused.{with_path, ArePathsTo, AreRefusedOf, IsRefusalOf};

use crate::Fill;
use crate::edits::{RefusalAt, StringAt};
use std::alloc::{AllocError, Global};

/// The paths to the strings of a text.
pub trait Paths {
    /// A path to a string.
    type Path: Drop;

    // Whether a path leads to the string at an index.
    ghost leads_to: { Self → ℕ → Self.Path → Type 0 };

    /// Returns the paths to the strings of `refused`, or `None` if a path isn't found. The `path` field of a
    /// refused string is its index among all strings of the text.
    ///
    /// # Errors
    ///
    /// If allocation fails.
    fn paths_to(
        &self,
        alloc: Global,
        refused: &[RefusalAt<usize>],
    ) -> Result<Option<Vec<Self::Path>>, AllocError>
        ensures { IfOk result (λ paths. IfSome paths
            (λ paths. ArePathsTo (leads_to self.now) refused.now paths.items)) };
}

/// Returns the refusals of a list of strings, with their paths, or `None` if a path isn't found. Paths are
/// looked up only if a string is refused.
///
/// # Errors
///
/// If allocation fails.
pub fn refusals<P: Paths, F: Fill>(
    alloc: Global,
    list: &[StringAt],
    paths: &P,
    filler: &F,
) -> Result<Option<Vec<RefusalAt<P::Path>>>, AllocError>
    ensures { IfOk result (λ all. IfSome all (λ all.
        AreRefusedOf (F.answers filler.now) (P.leads_to paths.now) 0 list.now all.items)) }
{
    let refused = refused(alloc, list, filler)?;
    if refused.is_empty() {
        return Ok(Some(Vec::new(alloc)));
    }
    let Some(paths) = paths.paths_to(alloc, refused.as_slice())? else {
        return Ok(None);
    };
    with_paths(alloc, refused, paths)
}

/// Returns the refusals of a list of strings. The `path` of each is the index of its string in the list.
fn refused<F: Fill>(
    alloc: Global,
    list: &[StringAt],
    filler: &F,
) -> Result<Vec<RefusalAt<usize>>, AllocError>
    ensures { IfOk result (λ all. AreRefusedOf (F.answers filler.now) (λ index path. path ≡ index) 0
        list.now all.items) }
{
    let mut all = Vec::new(alloc);
    for (index, it) in list.iter().enumerate() {
        let Some(refusal) = refusal_of(alloc, index, it, filler)? else {
            continue;
        };
        all.push(refusal)?;
    }
    Ok(all)
}

/// Returns the refusal of the string `it`, or `None` if the string isn't refused. The `path` of the refusal
/// is `index`.
fn refusal_of<F: Fill>(
    alloc: Global,
    index: usize,
    it: &StringAt,
    filler: &F,
) -> Result<Option<RefusalAt<usize>>, AllocError>
    ensures { IfOk result (λ refusal. MatchOption refusal
        ((x : List ℕ) × F.answers filler.now (text_at it.now) (Gives x))
        (IsRefusalOf (F.answers filler.now) (λ index path. path ≡ index) index it.now)) }
{
    let Some(error) = filler.refusal(alloc, it.text.as_str())? else {
        return Ok(None);
    };
    Ok(Some(RefusalAt {
        path: index,
        text: String::from_str(alloc, it.text.as_str())?,
        span: it.span.start..it.span.end,
        error,
    }))
}

/// Replaces the `path` of each refusal, which is an index, by the next path of `paths`. Returns `None` if
/// there are too few paths.
fn with_paths<P: Drop>(
    alloc: Global,
    refused: Vec<RefusalAt<usize>>,
    paths: Vec<P>,
) -> Result<Option<Vec<RefusalAt<P>>>, AllocError>
    ensures { IfOk result (λ all. IfSome all
        (λ all. all.items ≡ map (λ it. with_path it.0 it.1) (zip refused.items paths.items))) }
{
    let mut all = Vec::with_capacity(alloc, refused.len())?;
    let mut rest = paths.into_iter();
    for it in refused {
        let Some(path) = rest.next() else {
            return Ok(None);
        };
        let RefusalAt {
            path: _,
            text,
            span,
            error,
        } = it;
        all.push(RefusalAt {
            path,
            text,
            span,
            error,
        })?;
    }
    Ok(Some(all))
}
