//! The head of a template, and its check sum.

ghost use Rattle.std.specs.Prelude.{◌≡◌, ◌%◌, ◌^◌, List, length, slice_get, sum_by};
ghost use Rattle.std.specs.Option.{option_map};
ghost use Rattle.subst_indexed.specs.Template.{cell_span, cell_sum, check_sum, is_whole, name_cells, part_cells};

use crate::cell::{Cell, HEAD};
use crate::walk::span_of;
use subst_language::Span;

/// Returns the cells of the parts of a template. Returns `None` if the cells are no template of a source with
/// `len` bytes. The check sum isn't compared.
pub fn part_cells(cells: &[Cell], len: usize) -> Option<&[Cell]>
    ensures { option_map (λ parts. parts.now) result ≡ part_cells cells.now len }
{
    let [head, rest @ ..] = cells else {
        return None;
    };
    if head.kind != HEAD || head.first as usize != len {
        return None;
    }
    rest.get(..head.second as usize)
}

/// Returns the number of names of a template.
pub fn name_count(cells: &[Cell]) -> usize
    ensures { result ≡ length (name_cells cells.now) }
{
    name_cells(cells).len()
}

/// Returns the span of the first use of the name with a number, or `None` if there is none.
pub fn name_span(cells: &[Cell], number: usize) -> Option<Span>
    ensures { result ≡ option_map cell_span (slice_get (name_cells cells.now) number) }
{
    let cell = name_cells(cells).get(number)?;
    Some(span_of(cell.first, cell.second))
}

/// Returns the cells of the names of a template.
fn name_cells(cells: &[Cell]) -> &[Cell]
    ensures { result.now ≡ name_cells cells.now }
{
    match cells {
        [head, rest @ ..] => rest.get(head.second as usize..).unwrap_or(&[]),
        [] => &[],
    }
}

/// Returns whether the check sum of the cells is right.
pub fn is_whole(cells: &[Cell]) -> bool
    ensures { result ≡ is_whole cells.now }
{
    match cells {
        [head, rest @ ..] => head.number == check_sum(head.second, rest),
        [] => false,
    }
}

/// Returns the check sum of a template with `count` parts, whose cells after the head are `rest`.
pub(crate) fn check_sum(count: u32, rest: &[Cell]) -> u32
    ensures { result ≡ check_sum count rest.now }
{
    let mut sum = count;
    for cell in rest {
        sum = sum.wrapping_add(cell_sum(*cell));
    }
    sum
}

/// Returns the sum of the numbers of a cell, modulo 2^32.
#[inline(always)]
fn cell_sum(cell: Cell) -> u32
    ensures { result ≡ cell_sum cell % 2 ^ 32 }
{
    cell.kind
        .wrapping_add(cell.first)
        .wrapping_add(cell.second)
        .wrapping_add(cell.number)
}
