//! The list of parts that an expansion reads by index. Each part that is read adds a turn.

ghost use Rattle.std.specs.Prelude.{◌≡◌, ◌+◌, ◌^◌, ◌<◌, ◌≤◌, Some, length, slice_get, IfSome, MatchOption};
ghost use Rattle.subst_expand.specs.Packed.{unpacked_parts};

use crate::packed_part::{Offset, PackedPart};
use crate::turns::Turns;
use std::marker::Model;
use subst_language::Part;

/// A list of parts that is read one part at a time, with the counter of the expansion's turns. The expansion
/// has no other access to the parts and no other counter, so each part that it looks at is counted.
///
/// Contracts see the unpacked parts and the number of turns.
#[derive(Drop)]
pub(crate) struct CountedParts<'p, O: Offset> {
    packed: &'p [PackedPart<O>],
    counter: Turns,
}

impl<'p, O: Offset> Model for CountedParts<'p, O> {
    ghost use Rattle.subst_expand.specs.CountedParts.{PartsAndTurns};

    ghost Value = { PartsAndTurns };

    ghost use Rattle.subst_expand.specs.Packed.{unpacked_parts};

    ghost view = { λ list.
        record { parts = unpacked_parts O.value list.packed.now; turns = list.counter } };
}

impl<'p, O: Offset> CountedParts<'p, O> {
    pub fn new(packed: &'p [PackedPart<O>], counter: Turns) -> Self
        ensures parts { result.parts ≡ unpacked_parts O.value packed.now }
        ensures turns { result.turns ≡ counter }
    {
        CountedParts { packed, counter }
    }

    /// Returns the counter of turns.
    pub fn into_turns(self) -> Turns
        ensures { result ≡ self.entry.turns }
    {
        let CountedParts { counter, .. } = self;
        counter
    }

    /// Returns the part at an index and adds a turn. After the last part, returns `None` and adds no turn.
    #[inline(always)]
    pub fn part_at(&mut self, index: usize) -> Option<Part>
        ensures part { MatchOption result (length self.old.parts ≤ index)
            (λ part. slice_get self.old.parts index ≡ Some part) }

        // If a part is returned, `index + 1` fits in a `usize`.
        ensures small { IfSome result (λ _. index + 1 < 2 ^ 64) }

        ensures same { self.new.parts ≡ self.old.parts }
        ensures counted { MatchOption result (self.new.turns ≡ self.old.turns)
            (λ _. self.new.turns ≡ self.old.turns + 1) }
    {
        match self.packed.get(index) {
            Some(packed) => {
                self.counter.add_one();
                Some(packed.unpack())
            }
            None => None,
        }
    }
}
