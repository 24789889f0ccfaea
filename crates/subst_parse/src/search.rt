//! Searches for the end of a run of bytes in a class, 32 bytes at a time.

ghost use Rattle.std.specs.Prelude.{◌≡◌, ◌≢◌, ◌+◌, ◌<◌, ◌≤◌, ◌↔◌, ◌==◌, ◌||◌, ℕ, Bool, List, length, drop, slice_index};
ghost use Rattle.std.specs.Int.{bit_at};
ghost use Rattle.std.specs.List.{All};
ghost use Rattle.subst_language.specs.Language.Bytes.{IsPlain};
ghost use Rattle.subst_parse.specs.ByteRun.{EndsRun, EndsRunBefore, IsRun};
ghost use Rattle.subst_parse.specs.Inner.{IsInner};
ghost use Rattle.subst_parse.specs.Lanes.{HasBytes, HasTest, MarksOutside};

use crate::byte_class::{ByteClass, InnerBytes, PlainBytes, VectorClass};
use memchr::memchr2;
use std::simd::prelude::*;

/// The number of bytes in a vector.
const WIDTH: usize = 32;

/// The number of plain bytes after which `memchr2` is faster than vectors, as it tests more bytes at a time.
const NEAR: usize = 1024;

/// The number of a default's bytes after which vectors are faster than tests of single bytes.
const FEW: usize = 8;

/// A class of bytes with a search for the first byte that isn't in it.
pub(crate) trait SearchedClass: ByteClass {
    /// Returns the offset of the first byte from `from` on that isn't in the class, or the end of the source.
    fn find_outside(source: &[u8], from: usize) -> usize
        requires { from ≤ length source.now }
        ensures { EndsRun Self.is_in source.now from result };
}

impl SearchedClass for PlainBytes {
    #[inline(always)]
    fn find_outside(source: &[u8], from: usize) -> usize {
        find_special(source, from)
    }
}

impl SearchedClass for InnerBytes {
    #[inline(always)]
    fn find_outside(source: &[u8], from: usize) -> usize {
        find_inner(source, from)
    }
}

/// Returns the number of bytes before the first `$` or `\`, or the source's length if it has neither.
pub fn plain_len(source: &[u8]) -> usize
    ensures run { IsRun IsPlain source.now 0 result }
    ensures within { result ≤ length source.now }
    ensures whole { (result ≡ length source.now) ↔ All IsPlain source.now }
{
    if source.len() < WIDTH {
        find_special_far(source, 0)
    } else {
        find_special(source, 0)
    }
}

/// Returns the offset of the first `$` or `\` from `from` on, or the end of the source.
#[inline(always)]
fn find_special(source: &[u8], from: usize) -> usize
    requires { from ≤ length source.now }
    ensures { EndsRun IsPlain source.now from result }
{
    let near = source.len().min(from + NEAR);
    let end = first_outside::<PlainBytes>(source, from, near);
    if end < near || near == source.len() {
        return end;
    }
    find_special_far(source, near)
}

/// Returns the same offset as `find_special`, and faster if the offset is far from `from`.
#[inline(never)]
fn find_special_far(source: &[u8], from: usize) -> usize
    requires { from ≤ length source.now }
    ensures { EndsRun IsPlain source.now from result }
{
    match memchr2(b'$', b'\\', rest(source, from)) {
        Some(found) => from + found,
        None => source.len(),
    }
}

/// Returns the offset of the first `\`, `$` or brace from `from` on, or the end of the source.
#[inline(always)]
fn find_inner(source: &[u8], from: usize) -> usize
    requires { from ≤ length source.now }
    ensures { EndsRun IsInner source.now from result }
{
    let few = source.len().min(from + FEW);
    let end = first_outside_bytewise::<InnerBytes>(source, from, few);
    if end < few {
        return end;
    }
    first_outside::<InnerBytes>(source, few, source.len())
}

/// Returns the offset of the first byte in `from..to` that isn't in the class, or `to` if there is none.
#[inline(always)]
fn first_outside<C: VectorClass>(source: &[u8], from: usize, to: usize) -> usize
    requires ordered { from ≤ to }
    requires within { to ≤ length source.now }
    ensures { EndsRunBefore C.is_in source.now from to result }
{
    let mut at = from;
    while WIDTH <= to - at {
        let marked = outside_at::<C>(source, at);
        if marked != 0 {
            return at + lowest(marked);
        }
        at += WIDTH;
    }
    first_outside_tail::<C>(source, at, to)
}

/// Returns the offset of the first byte in `from..to` that isn't in the class, or `to` if there is none. The
/// range must be shorter than a vector. If at least 32 bytes precede `to`, the last 32 of them are tested as
/// one vector, and those before `from` are ignored. Otherwise single bytes are tested.
#[inline(always)]
fn first_outside_tail<C: VectorClass>(source: &[u8], from: usize, to: usize) -> usize
    requires ordered { from ≤ to }
    requires few { to < from + 32 }
    requires within { to ≤ length source.now }
    ensures { EndsRunBefore C.is_in source.now from to result }
{
    if to < WIDTH {
        return first_outside_bytewise::<C>(source, from, to);
    }
    let marked = outside_before::<C>(source, from, to);
    if marked == 0 {
        to
    } else {
        from + lowest(marked)
    }
}

/// Returns the offset of the first byte in `from..to` that isn't in the class, or `to`. Tests single bytes.
#[inline(always)]
fn first_outside_bytewise<C: ByteClass>(source: &[u8], from: usize, to: usize) -> usize
    requires ordered { from ≤ to }
    requires within { to ≤ length source.now }
    ensures { EndsRunBefore C.is_in source.now from to result }
{
    let mut at = from;
    while at < to && C::has(source[at]) {
        at += 1;
    }
    at
}

/// Returns a mask of the bytes that aren't in the class, among the 32 bytes from `at` on. The lowest bit is
/// that of the byte at `at`.
#[inline(always)]
fn outside_at<C: VectorClass>(source: &[u8], at: usize) -> u64
    requires { at + 32 ≤ length source.now }
    ensures { MarksOutside C.is_in source.now at (at + 32) result }
{
    top_bits(C::outside(load(source, at)))
}

/// Returns a mask of the bytes in `from..to` that aren't in the class. The lowest bit is that of the byte at
/// `from`.
#[inline(always)]
fn outside_before<C: VectorClass>(source: &[u8], from: usize, to: usize) -> u64
    requires ordered { from ≤ to }
    requires few { to < from + 32 }
    requires whole { 32 ≤ to }
    requires within { to ≤ length source.now }
    ensures { MarksOutside C.is_in source.now from to result }
{
    let passed = WIDTH - (to - from);
    outside_at::<C>(source, to - WIDTH) >> passed
}

/// Returns the index of the lowest set bit.
#[inline(always)]
fn lowest(mask: u64) -> usize
    requires { mask ≢ 0 }
    ensures set { bit_at mask result ≡ 1 }
    ensures below { (k : ℕ) → k < result → bit_at mask k ≡ 0 }
    ensures small { result < 64 }
{
    mask.trailing_zeros() as usize
}

/// Loads the 32 bytes from `at` on into a vector.
#[inline(always)]
fn load(source: &[u8], at: usize) -> u8x32
    requires { at + 32 ≤ length source.now }
    ensures { HasBytes source.now at result }
{
    u8x32::from_slice(&source[at..])
}

/// Returns a mask of the top bits of the lanes. The lowest bit of the mask is that of the first lane.
#[inline(always)]
fn top_bits(lanes: u8x32) -> u64
    ensures { (k : ℕ) → (bit_at result k ≡ 1) ↔ (128 ≤ slice_index lanes k) }
{
    lanes.simd_ge(u8x32::splat(128)).to_bitmask()
}

/// Returns 255 in each lane whose byte is `byte`, and 0 in the others.
#[inline(always)]
pub(crate) fn equal_to(bytes: u8x32, byte: u8) -> u8x32
    ensures { HasTest (λ b. b == byte) bytes result }
{
    bytes
        .simd_eq(u8x32::splat(byte))
        .select(u8x32::splat(255), u8x32::splat(0))
}

/// Returns 255 in each lane that is 255 in either vector, and 0 in the others.
#[inline(always)]
pub(crate) fn either(first: u8x32, second: u8x32) -> u8x32
    ensures { (a b : ℕ → Bool) (bytes : List ℕ)
        → HasTest a bytes first → HasTest b bytes second
        → HasTest (λ byte. a byte || b byte) bytes result }
{
    first | second
}

/// Returns the bytes of the source from `from` on.
#[inline(always)]
pub(crate) fn rest(source: &[u8], from: usize) -> &[u8]
    requires { from ≤ length source.now }
    ensures { result.now ≡ drop from source.now }
{
    &source[from..]
}
