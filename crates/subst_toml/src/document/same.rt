//! Equality of trees, by their keys and values. Floats are equal if they have the same bits or are both NaN,
//! and dates if all their parts are equal.

ghost use Rattle.std.specs.Prelude.{◌≡◌, IsTrue};
ghost use Rattle.toml.specs.View.{view, items_view, members_view};

use toml::value::{Date, Datetime, Offset, Time};
use toml::{Table, Value};

/// Returns whether two trees are equal.
#[cycle(same)]
pub(super) fn is_same(tree: &Value, other: &Value) -> bool
    ensures { IsTrue result → view tree.now ≡ view other.now }
{
    match (tree, other) {
        (Value::String(text), Value::String(other)) => text.as_str() == other.as_str(),
        (Value::Integer(number), Value::Integer(other)) => number == other,
        (Value::Float(number), Value::Float(other)) => is_same_float(*number, *other),
        (Value::Boolean(value), Value::Boolean(other)) => value == other,
        (Value::Datetime(date), Value::Datetime(other)) => is_same_date(date, other),
        (Value::Array(items), Value::Array(other)) => are_same(items, other),
        (Value::Table(members), Value::Table(other)) => is_same_table(members, other),
        _ => false,
    }
}

/// Returns whether two arrays have equal items.
#[cycle(same)]
fn are_same(items: &Vec<Value>, other: &Vec<Value>) -> bool
    ensures { IsTrue result → items_view items.now.items ≡ items_view other.now.items }
{
    if items.len() != other.len() {
        return false;
    }
    for (index, item) in items.iter().enumerate() {
        if !is_same(item, &other[index]) {
            return false;
        }
    }
    true
}

/// Returns whether two tables have equal members.
#[cycle(same)]
pub(super) fn is_same_table(members: &Table, other: &Table) -> bool
    ensures { IsTrue result → members_view members.now.entries ≡ members_view other.now.entries }
{
    if members.len() != other.len() {
        return false;
    }
    let mut others = other.iter();
    for (key, member) in members.iter() {
        match others.next() {
            Some((other_key, other)) if key.as_str() == other_key.as_str() => {
                if !is_same(member, other) {
                    return false;
                }
            }
            _ => return false,
        }
    }
    true
}

/// Returns whether two floats have the same bits, or are both NaN.
fn is_same_float(number: f64, other: f64) -> bool
    ensures { IsTrue result → number ≡ other }
{
    if number.is_nan() {
        return other.is_nan();
    }
    if other.is_nan() {
        return false;
    }
    number.to_bits() == other.to_bits()
}

/// Returns whether two dates have equal parts.
fn is_same_date(date: &Datetime, other: &Datetime) -> bool
    ensures { IsTrue result → date.now ≡ other.now }
{
    is_same_day(date.date, other.date)
        && is_same_time(date.time, other.time)
        && is_same_offset(date.offset, other.offset)
}

fn is_same_day(day: Option<Date>, other: Option<Date>) -> bool
    ensures { IsTrue result → day ≡ other }
{
    match (day, other) {
        (None, None) => true,
        (Some(day), Some(other)) => {
            day.year == other.year && day.month == other.month && day.day == other.day
        }
        _ => false,
    }
}

fn is_same_time(time: Option<Time>, other: Option<Time>) -> bool
    ensures { IsTrue result → time ≡ other }
{
    match (time, other) {
        (None, None) => true,
        (Some(time), Some(other)) => {
            time.hour == other.hour
                && time.minute == other.minute
                && time.second == other.second
                && time.nanosecond == other.nanosecond
        }
        _ => false,
    }
}

fn is_same_offset(offset: Option<Offset>, other: Option<Offset>) -> bool
    ensures { IsTrue result → offset ≡ other }
{
    match (offset, other) {
        (None, None) | (Some(Offset::Z), Some(Offset::Z)) => true,
        (Some(Offset::Custom { minutes }), Some(Offset::Custom { minutes: other })) => {
            minutes == other
        }
        _ => false,
    }
}
