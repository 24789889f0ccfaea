//! Fills in a tree by two walks. The first computes the changes without touching the tree, or returns the
//! first refusal. The second moves the new texts in. Items are visited in the order of their indices, and
//! members in the order of their keys.

ghost use Rattle.std.specs.Prelude.{◌≡◌, IfOk, IsTrue};
ghost use Rattle.serde_json.specs.View.{view, items_view, members_view};
ghost use Rattle.subst_error.specs.ErrorFault.{error_fault};
ghost use Rattle.subst_language.specs.Calls.Outcome.{OnFault};
ghost use Rattle.subst_language.specs.Language.Several.{GivesBy, RefusesFirst};
ghost use Rattle.subst_document.specs.Changes.{slots, inside, remaining_of, next_of, rest_of};
ghost use Rattle.subst_document.specs.Texts.{HasRange};
ghost use Rattle.subst_json.specs.Changed.{changed, with_items, with_members};
ghost use Rattle.subst_json.specs.Mapped.{strings, strings_of_items, strings_of_members, IsEach, AreEach, HasEachMember};

use serde_json::{Map, Value};
use std::alloc::Global;
use subst_document::{Change, Fill, FoundChanges, RemainingChanges, change_of_text};
use subst_error::Error;

/// Returns the change that fills in a tree, or the error of its first refused string.
#[cycle(find)]
pub(crate) fn change_of<F: Fill>(alloc: Global, value: &Value, filler: &F) -> Result<Change, Error>
    ensures ok { IfOk result (λ change.
        IsEach (GivesBy (F.answers filler.now)) (view value.now)
        (changed (view value.now) change)) }
    ensures err { OnFault error_fault result
        (RefusesFirst (F.answers filler.now) (strings (view value.now))) }
    ensures range { OnFault error_fault result HasRange }
{
    match value {
        Value::String(text) => change_of_text(alloc, text.as_str(), filler),
        Value::Array(items) => change_of_items(alloc, items, filler),
        Value::Object(members) => change_of_members(alloc, members, filler),
        Value::Null | Value::Bool(_) | Value::Number(_) => Ok(Change::Kept(0)),
    }
}

/// Returns the change that fills in the array whose items are `items`, as [`change_of`] does.
#[cycle(find)]
fn change_of_items<F: Fill>(alloc: Global, items: &Vec<Value>, filler: &F) -> Result<Change, Error>
    ensures ok { IfOk result (λ change. AreEach (GivesBy (F.answers filler.now))
        (items_view items.now.items)
        (with_items (items_view items.now.items) (inside change))) }
    ensures err { OnFault error_fault result
        (RefusesFirst (F.answers filler.now) (strings_of_items (items_view items.now.items))) }
    ensures range { OnFault error_fault result HasRange }
{
    let mut found = FoundChanges::new(alloc);
    for item in items {
        found.add(change_of(alloc, item, filler)?)?;
    }
    Ok(found.into_change())
}

/// Returns the change that fills in the object whose members are `members`, as [`change_of`] does.
#[cycle(find)]
fn change_of_members<F: Fill>(
    alloc: Global,
    members: &Map<String, Value>,
    filler: &F,
) -> Result<Change, Error>
    ensures ok { IfOk result (λ change. HasEachMember (GivesBy (F.answers filler.now))
        (members_view members.now.entries)
        (with_members (members_view members.now.entries) (inside change))) }
    ensures err { OnFault error_fault result
        (RefusesFirst (F.answers filler.now)
        (strings_of_members (members_view members.now.entries))) }
    ensures range { OnFault error_fault result HasRange }
{
    let mut found = FoundChanges::new(alloc);
    for member in members.values() {
        found.add(change_of(alloc, member, filler)?)?;
    }
    Ok(found.into_change())
}

/// Applies a change to a tree.
#[cycle(make)]
pub(crate) fn make(value: &mut Value, change: Change)
    ensures { view value.new ≡ changed (view value.old) change }
{
    match change {
        Change::Kept(_) => {}
        Change::Text(filled) => match value {
            Value::String(text) => *text = filled,
            Value::Null | Value::Bool(_) | Value::Number(_) | Value::Array(_) | Value::Object(_) =>
                {}
        },
        Change::Inside(changes) => match value {
            Value::Array(items) => make_items(items, changes),
            Value::Object(members) => make_members(members, changes),
            Value::Null | Value::Bool(_) | Value::Number(_) | Value::String(_) => {}
        },
    }
}

/// Applies changes to the items of an array.
#[cycle(make)]
fn make_items(items: &mut Vec<Value>, changes: Vec<Change>)
    ensures { items_view items.new.items
        ≡ with_items (items_view items.old.items) (slots changes.items) }
{
    let mut left = RemainingChanges::new(changes);
    for item in items.iter_mut() {
        make(item, left.next());
    }
}

/// Applies changes to the members of an object.
#[cycle(make)]
fn make_members(members: &mut Map<String, Value>, changes: Vec<Change>)
    ensures { members_view members.new.entries
        ≡ with_members (members_view members.old.entries) (slots changes.items) }
{
    let mut left = RemainingChanges::new(changes);
    members.retain(
        |_, member|
            ensures stays { IsTrue result }
            ensures made { view member.new
                ≡ changed (view member.old) (next_of (remaining_of left.entry)) }
            ensures rest { remaining_of left.exit ≡ rest_of (remaining_of left.entry) }
        {
            make(member, left.next());
            true
        },
    );
}
