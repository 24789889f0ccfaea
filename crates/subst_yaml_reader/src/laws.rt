//! A law of the definitions that the contracts cite. The law is the contract of a function that does nothing.

ghost use Rattle.std.specs.Prelude.{◌≡◌, ℕ, List, Some};
ghost use Rattle.subst_yaml_reader.specs.declared.event.Event.{Event};
ghost use Rattle.subst_yaml_reader.specs.Nesting.{IsNested};
ghost use Rattle.subst_yaml_reader.specs.Reading.{read};

/// The law of nesting: the events of a text are those of a tree.
///
/// - An item or a key outside brackets is in the open collection of its kind at the event's depth, or in a
///   new collection. A new collection begins where a value is expected, and is one deeper than all open
///   collections.
/// - A value is in brackets if its event's `in_flow` is `true`. Otherwise it is outside brackets, where a
///   value is expected.
/// - A key in brackets is in a mapping or a pair.
/// - `Close` ends the innermost collection in brackets. All collections in brackets are closed at the end.
pub fn events_are_nested()
    ensures nested { (text : List ℕ) (events : List Event) → read text ≡ Some events
        → IsNested events }
{}
