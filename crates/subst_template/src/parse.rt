//! Parses a source into a list of parts, with offsets and indexes of 32 bits if these suffice, or of 64 bits.

ghost use Rattle.std.specs.Prelude.{◌≡◌, ◌+◌, ◌*◌, ◌<◌, ◌≤◌, [], length, IfOk, IfErr, OnOk};
ghost use Rattle.subst_error.specs.ErrorFault.{parse_fault};
ghost use Rattle.subst_error.specs.Range.{range_of};
ghost use Rattle.subst_language.specs.Language.BadItem.{HasFault};
ghost use Rattle.subst_language.specs.Calls.Outcome.{OnFault};
ghost use Rattle.subst_language.specs.Parts.Meaning.{IsTemplateOf};

use std::alloc::Global;
use std::mem;
use subst_error::ParseError;
use subst_expand::{Offset, PackedVec, PartVec};
use subst_parse::{Reads, parse_into};

/// The initial capacity of a list of parts, so that the lists of most templates are allocated once.
const FIRST_PARTS: usize = 16;

/// Parses a source into a list of parts, and adds the number of its reads to `reads`.
///
/// # Errors
///
/// The fault of the source if it is no sentence, or out of memory.
pub(crate) fn parse(alloc: Global, source: &[u8], reads: &mut Reads) -> Result<PartVec, ParseError>
    ensures ok { IfOk result (λ parts. IsTemplateOf source.now parts) }
    ensures err { OnFault parse_fault result (HasFault 0 source.now) }
    ensures bound { reads.new ≤ reads.old + 3 * length source.now + 8 }
    ensures grows { reads.old ≤ reads.new }
    ensures whole { OnOk result (reads.old + length source.now ≤ reads.new) }
    ensures refused { IfErr result (λ e. reads.old + 1 ≤ reads.new) }
    ensures range { IfErr result (λ e. (range_of (parse_fault e)).end ≤ length source.now) }
{
    // No offset and no index of a part is greater than the length of the source.
    if source.len() <= u32::MAX as usize {
        Ok(parse_packed::<u32>(alloc, source, reads)?.into())
    } else {
        Ok(parse_packed::<usize>(alloc, source, reads)?.into())
    }
}

/// Parses a source, as `parse`, into parts that are packed with offsets and indexes of type `O`.
fn parse_packed<O: Offset>(
    alloc: Global,
    source: &[u8],
    reads: &mut Reads,
) -> Result<PackedVec<O>, ParseError>
    requires fits { length source.now < O.limit }
    ensures ok { IfOk result (λ parts. IsTemplateOf source.now parts) }
    ensures err { OnFault parse_fault result (HasFault 0 source.now) }
    ensures bound { reads.new ≤ reads.old + 3 * length source.now + 8 }
    ensures grows { reads.old ≤ reads.new }
    ensures whole { OnOk result (reads.old + length source.now ≤ reads.new) }
    ensures refused { IfErr result (λ e. reads.old + 1 ≤ reads.new) }
{
    let list = empty_list::<O>(alloc, !source.is_empty());
    let counter = mem::replace(reads, Reads::new());
    let (parts, counter, outcome) = parse_into(alloc, source, 0, list, counter);
    *reads = counter;
    match outcome {
        Ok(()) => Ok(parts),
        Err(e) => Err(e),
    }
}

/// Creates an empty list of parts. If `some` is true, parts will follow, and the function tries to reserve
/// capacity for `FIRST_PARTS` of them.
fn empty_list<O: Offset>(alloc: Global, some: bool) -> PackedVec<O>
    ensures { result ≡ [] }
{
    let mut parts = PackedVec::new(alloc);
    if some {
        // A failure is ignored: if memory is still missing later, a push reports it.
        let _ = parts.reserve(FIRST_PARTS);
    }
    parts
}
