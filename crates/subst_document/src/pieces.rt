//! Finds the spans of several ranges of one string, in one pass over its token.

ghost use Rattle.std.specs.Prelude.{◌≡◌, IfOk, IfSome};
ghost use Rattle.subst_document.specs.Pieces.{ArePiecesFrom};

use std::alloc::{AllocError, Global};
use std::ops::Range;

/// A position in the spelling of a string: a byte offset in the document, and the matching byte offset in the
/// string.
#[derive(Clone, Copy)]
pub struct Position {
    /// The byte offset in the document.
    pub place: usize,
    /// The byte offset in the string.
    pub offset: usize,
}

/// A token of a string, with pieces that can be read by themselves.
pub trait Pieces {
    /// The reader of pieces. It may keep buffers from one piece to the next.
    type Reader;

    ghost use Rattle.subst_document.specs.declared.pieces.Position.{Position};

    // Whether the token's piece between two positions spells the part of the string between them.
    ghost is_piece: { Self → Position → Position → Type 0 };

    /// Returns the end of the token's piece that begins at `from` and spells the string up to `offset`. If
    /// `is_start`, then `offset` is the start of one of the ranges of [`spans`]. The piece then includes any
    /// bytes at its end that spell nothing. Returns `None` if the piece isn't read as the part of the string
    /// between `from` and `offset`.
    fn piece_end(
        &self,
        alloc: Global,
        reader: &mut Self::Reader,
        from: Position,
        offset: usize,
        is_start: bool,
    ) -> Result<Option<Position>, AllocError>
        ensures { IfOk result (λ end. IfSome end
            (λ end. (end.offset ≡ offset) × is_piece self.now from end)) };
}

/// Returns the spans in `token` that spell `ranges` of the token's string, or `None` if a span isn't found.
/// `first` is the position at which the token's content begins.
///
/// # Errors
///
/// If allocation fails.
pub fn spans<P: Pieces>(
    alloc: Global,
    token: &P,
    reader: &mut P::Reader,
    first: Position,
    ranges: &[Range<usize>],
) -> Result<Option<Vec<Range<usize>>>, AllocError>
    ensures { IfOk result (λ places. IfSome places (λ places.
        ArePiecesFrom (P.is_piece token.now) first ranges.now places.items)) }
{
    let mut places = Vec::with_capacity(alloc, ranges.len())?;
    let mut passed = first;
    for range in ranges {
        let Some(start) = token.piece_end(alloc, reader, passed, range.start, true)? else {
            return Ok(None);
        };
        let Some(end) = token.piece_end(alloc, reader, start, range.end, false)? else {
            return Ok(None);
        };
        places.push(start.place..end.place)?;
        passed = end;
    }
    Ok(Some(places))
}
