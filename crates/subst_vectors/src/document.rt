//! The calls that fill in documents.

use crate::answer::Answer;
use crate::format::Format;
use crate::row::Texts;
use crate::ways::Ways;
use std::alloc::{AllocError, Global};
use std::str::from_utf8;
use subst::Error;

/// Makes all calls that fill in documents, and adds their answers.
pub fn call<F: Format>(source: &[u8], values: &Texts, ways: &mut Ways) -> Result<(), AllocError> {
    ways.module = F::MODULE;
    let alloc = ways.alloc;
    let read = F::from_slice(alloc, source, values);
    ways.add("value_from_slice", answer::<F>(alloc, read)?)?;
    match from_utf8(source) {
        Ok(text) => call_text::<F>(text, values, ways),
        Err(_) => Ok(()),
    }
}

fn call_text<F: Format>(text: &str, values: &Texts, ways: &mut Ways) -> Result<(), AllocError> {
    let alloc = ways.alloc;
    let read = answer::<F>(alloc, F::from_str(alloc, text, values))?;
    let filled = F::fill_in(alloc, text, values);
    if !are_as_refused(&F::refusals(alloc, text, values), &filled, &read) {
        ways.add(
            "refusals_in",
            Answer::Breaks("they aren't what the text is refused for"),
        )?;
    }
    let filled = read_again::<F>(alloc, filled, &read)?;
    ways.add("value_from_str", read)?;
    ways.add("fill_in", filled)?;
    match F::tree(alloc, text) {
        Ok(mut tree) => {
            ways.add(
                "substitute_string_values",
                in_place::<F>(alloc, &mut tree, values)?,
            )
        }
        Err(e) => ways.add("its reader", F::refusal(e)?),
    }
}

/// Returns whether `refusals`, the list of a text's faults, agrees with `filled` and `of_tree`. The list must
/// be empty exactly if the text is filled in. If the tree is refused, its fault must be in the list. Without
/// a list, `filled` must be an error.
fn are_as_refused<E>(
    refusals: &Result<Option<Vec<Error>>, E>,
    filled: &Result<Option<String>, E>,
    of_tree: &Answer,
) -> bool {
    let Ok(Some(all)) = refusals else {
        return filled.is_err();
    };
    let has_that_of_tree = match of_tree {
        Answer::Refuses(fault) => all.contains(fault),
        _ => true,
    };
    has_that_of_tree && all.is_empty() == filled.is_ok()
}

/// Fills in a tree in place, and returns the answer.
fn in_place<F: Format>(
    alloc: Global,
    tree: &mut F::Tree,
    values: &Texts,
) -> Result<Answer, AllocError> {
    let before = F::text_of(alloc, tree)?;
    let filled = F::fill_tree(alloc, tree, values);
    let after = F::text_of(alloc, tree)?;
    match filled {
        Err(_) if before != after => Ok(Answer::Breaks("the tree isn't as it was")),
        Err(fault) => Answer::of(Err(fault)),
        Ok(()) => Ok(Answer::Gives(after.into_bytes())),
    }
}

fn answer<F: Format>(alloc: Global, read: Result<F::Tree, F::Error>) -> Result<Answer, AllocError> {
    match read {
        Ok(tree) => Ok(Answer::Gives(F::text_of(alloc, &tree)?.into_bytes())),
        Err(e) => F::refusal(e),
    }
}

/// Reads the filled-in text as a tree, and returns the answer. If both `filled` and `of_tree` are refusals
/// and `F::HAS_EQUAL_KEYS` holds, returns the fault in `of_tree`, since `filled` may have the fault of
/// another string.
fn read_again<F: Format>(
    alloc: Global,
    filled: Result<Option<String>, F::Error>,
    of_tree: &Answer,
) -> Result<Answer, AllocError> {
    if let Ok(Some(text)) = filled {
        return answer::<F>(alloc, F::tree(alloc, &text));
    }
    match (text_answer::<F>(filled)?, of_tree) {
        (Answer::Refuses(_), Answer::Refuses(fault)) if F::HAS_EQUAL_KEYS => {
            Ok(Answer::Refuses(fault.clone()?))
        }
        (answer, _) => Ok(answer),
    }
}

/// Makes all calls that fill in texts in place, and adds their answers.
pub fn call_in_place<F: Format>(
    source: &[u8],
    values: &Texts,
    ways: &mut Ways,
) -> Result<(), AllocError> {
    ways.module = F::MODULE;
    let filled = F::fill_in_slice(ways.alloc, source, values);
    ways.add("fill_in_slice", text_answer::<F>(filled)?)?;
    if let Ok(text) = from_utf8(source) {
        let filled = F::fill_in(ways.alloc, text, values);
        ways.add("fill_in", text_answer::<F>(filled)?)?;
    }
    Ok(())
}

fn text_answer<F: Format>(filled: Result<Option<String>, F::Error>) -> Result<Answer, AllocError> {
    match filled {
        Ok(Some(text)) => Ok(Answer::Gives(text.into_bytes())),
        Ok(None) => Ok(Answer::Breaks("the text isn't confirmed")),
        Err(e) => F::refusal(e),
    }
}
