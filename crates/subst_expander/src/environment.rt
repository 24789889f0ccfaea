//! The environment, whose entries need not be UTF-8.

ghost use Rattle.std.specs.Prelude.{◌≡◌, ◌++◌, IfOk, OnOk, map, option_to_list};
ghost use Rattle.std.specs.Prelude.{vec_items};
ghost use Rattle.subst_expander.specs.Layers as layers;
ghost use Rattle.subst_expander.specs.Layers.{entries_of, environment_of};

use crate::entry::{Entry, entry_in};
use std::alloc::{AllocError, Global};
use std::env::{Env, FillError};

/// The initial size of the buffer for an entry, in bytes.
const FIRST_CAPACITY: usize = 4096;

/// Reads all entries of the environment, `NAME=VALUE`, in order.
pub fn read<E: Env>(alloc: Global, rt: &E) -> Result<Vec<Vec<u8>>, AllocError> {
    let mut entries = Vec::new(alloc);
    let mut buffer = vec![in alloc; 0; FIRST_CAPACITY]?;
    for index in 0..usize::MAX {
        let Some(len) = entry_len(rt, index, &mut buffer)? else {
            break;
        };
        entries.push(Vec::from_slice(alloc, buffer.get(..len).unwrap_or(&[]))?)?;
    }
    Ok(entries)
}

/// Copies the environment's entry at `index` to the start of `buffer`, and enlarges `buffer` if needed.
/// Returns the entry's length, or `None` if there is no such entry.
fn entry_len<E: Env>(
    rt: &E,
    index: usize,
    buffer: &mut Vec<u8>,
) -> Result<Option<usize>, AllocError> {
    for _ in 0..usize::BITS {
        match rt.var_at(index, buffer.as_mut_slice()) {
            Ok(len) => return Ok(Some(len)),
            Err(FillError::NotPresent) => return Ok(None),
            Err(FillError::TooLong) => buffer.resize(buffer.len().saturating_mul(2), 0)?,
        }
    }
    Err(AllocError)
}

/// Returns the variables of an environment's entries, in order. Skips entries that aren't `NAME=VALUE` with a
/// variable name.
pub fn entries(alloc: Global, raw: &[Vec<u8>]) -> Result<Vec<Entry>, AllocError>
    ensures { IfOk result (λ entries. entries_of entries.items
        ≡ environment_of (map vec_items raw.now)) }
{
    let mut entries = Vec::new(alloc);
    for bytes in raw {
        add(alloc, bytes, &mut entries)?;
    }
    Ok(entries)
}

/// Appends the variable of an entry `NAME=VALUE`. Skips an entry without `=` or without a variable name.
fn add(alloc: Global, bytes: &[u8], entries: &mut Vec<Entry>) -> Result<(), AllocError>
    ensures { OnOk result (entries_of entries.new.items
        ≡ entries_of entries.old.items ++ option_to_list (layers.entry_in bytes.now)) }
{
    let Some(entry) = entry_in(alloc, bytes)? else {
        return Ok(());
    };
    entries.push(entry)?;
    Ok(())
}
