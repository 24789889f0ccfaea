//! Paths to the strings of a JSON text.

ghost use Rattle.std.specs.Prelude.{◌≡◌, ◌+◌, IfOk, IsTrue, length, map, reverse};
ghost use Rattle.json.specs.Reads.{token_of};
ghost use Rattle.subst_document.specs.Paths.{step_of};
ghost use Rattle.subst_json.specs.Filled.{strings_of_token};
ghost use Rattle.subst_json.specs.Listed.{past_token, past_value, IsCollected, IsPathTo};

use crate::Path;
use json::{Reader, Scratch, Token};
use std::alloc::{AllocError, Global};
use subst_document::{PathStep, Paths, RefusalAt};

/// The paths to the strings of a JSON text, found by reading its tokens.
#[derive(Clone, Copy)]
pub(crate) struct JsonPaths<'t> {
    pub(crate) source: &'t str,
}

impl Paths for JsonPaths<'_> {
    type Path = Path;

    ghost leads_to = { λ it. IsPathTo it.source.now };

    fn paths_to(
        &self,
        alloc: Global,
        refused: &[RefusalAt<usize>],
    ) -> Result<Option<Vec<Path>>, AllocError> {
        let mut scratch = Scratch::new(alloc);
        let mut reader = Reader::new(self.source, &mut scratch)?;
        let mut steps = Vec::new(alloc);
        let mut collector = PathCollector {
            rest: refused,
            index: 0,
            paths: Vec::with_capacity(alloc, refused.len())?,
        };
        while let Some(token) = reader.next() {
            if !collector.collect(alloc, token, &steps)? || !advance(alloc, &mut steps, token)? {
                return Ok(None);
            }
        }
        if collector.rest.is_empty() {
            Ok(Some(collector.paths))
        } else {
            Ok(None)
        }
    }
}

/// A collector of the paths to refused strings, in document order.
#[derive(Drop)]
struct PathCollector<'w> {
    /// The refused strings that weren't reached yet.
    rest: &'w [RefusalAt<usize>],
    /// The index of the next string of the text.
    index: usize,
    /// The paths to the refused strings reached so far.
    paths: Vec<Path>,
}

impl PathCollector<'_> {
    /// Adds `steps`, the path to `token`, if `token` is the next refused string. Returns `false` if the
    /// number of strings exceeds `usize::MAX`.
    ///
    /// # Errors
    ///
    /// If allocation fails.
    fn collect(
        &mut self,
        alloc: Global,
        token: Token<'_>,
        steps: &Vec<PathStep>,
    ) -> Result<bool, AllocError>
        ensures counted { IfOk result (λ is. IsTrue is
            → self.new.index ≡ self.old.index + length (strings_of_token (token_of token.entry))) }
        ensures found { IfOk result (λ is. IsTrue is
            → IsCollected (map step_of steps.now.items) (strings_of_token (token_of token.entry))
            self.old.index self.old.rest.now self.new.rest.now self.old.paths.items
            self.new.paths.items) }
    {
        let Token::String(_) = token else {
            return Ok(true);
        };
        if let Some((first, rest)) = self.rest.split_first()
            && first.path == self.index
        {
            let steps = copied(alloc, steps)?;
            self.paths.push(Path { steps })?;
            self.rest = rest;
        }
        match self.index.checked_add(1) {
            Some(next) => {
                self.index = next;
                Ok(true)
            }
            None => Ok(false),
        }
    }
}

/// Returns a copy of the steps.
fn copied(alloc: Global, steps: &Vec<PathStep>) -> Result<Vec<PathStep>, AllocError>
    ensures { IfOk result
        (λ copied. map step_of copied.items ≡ map step_of steps.now.items) }
{
    let mut copied = Vec::with_capacity(alloc, steps.len())?;
    for step in steps.iter() {
        copied.push(copied_step(alloc, step)?)?;
    }
    Ok(copied)
}

/// Returns a copy of a step.
fn copied_step(alloc: Global, step: &PathStep) -> Result<PathStep, AllocError>
    ensures { IfOk result (λ copied. step_of copied ≡ step_of step.now) }
{
    match step {
        PathStep::Key(key) => Ok(PathStep::Key(String::from_str(alloc, key.as_str())?)),
        PathStep::Index(index) => Ok(PathStep::Index(*index)),
    }
}

/// Changes `steps`, the path to `token`, into the path to the next token. In an object, the last step is the
/// latest key; until the first key, it is an empty key. Returns `false` if an index overflows.
fn advance(alloc: Global, steps: &mut Vec<PathStep>, token: Token<'_>) -> Result<bool, AllocError>
    ensures { IfOk result (λ is. IsTrue is → reverse (map step_of steps.new.items)
        ≡ past_token (token_of token.entry) (reverse (map step_of steps.old.items))) }
{
    match token {
        Token::BeginObject => {
            steps.push(PathStep::Key(String::new(alloc)))?;
            Ok(true)
        }
        Token::BeginArray => {
            steps.push(PathStep::Index(0))?;
            Ok(true)
        }
        Token::Key(key) => {
            steps.pop();
            steps.push(PathStep::Key(String::from_str(alloc, key)?))?;
            Ok(true)
        }
        Token::EndObject | Token::EndArray => {
            steps.pop();
            advance_past_value(steps)
        }
        Token::String(_) | Token::Number(_) | Token::Bool(_) | Token::Null | Token::Bad => {
            advance_past_value(steps)
        }
    }
}

/// Changes `steps`, the path to a value, into the path to the token after the value. If the last step is an
/// index, it is incremented; otherwise the path is unchanged. Returns `false` if the index overflows.
fn advance_past_value(steps: &mut Vec<PathStep>) -> Result<bool, AllocError>
    ensures { IfOk result (λ is. IsTrue is → reverse (map step_of steps.new.items)
        ≡ past_value (reverse (map step_of steps.old.items))) }
{
    match steps.pop() {
        None => Ok(true),
        Some(PathStep::Key(key)) => {
            steps.push(PathStep::Key(key))?;
            Ok(true)
        }
        Some(PathStep::Index(index)) => {
            let Some(next) = index.checked_add(1) else {
                return Ok(false);
            };
            steps.push(PathStep::Index(next))?;
            Ok(true)
        }
    }
}
