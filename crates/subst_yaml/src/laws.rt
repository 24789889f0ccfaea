//! Laws of the definitions that the contracts cite. Each law is the contract of a function that does nothing.

ghost use Rattle.std.specs.Prelude.{◌≡◌, ℕ, List};
ghost use Rattle.subst_yaml_reader.specs.declared.event.Event.{Event};
ghost use Rattle.subst_yaml.specs.Filled.{AreFilled};
ghost use Rattle.subst_yaml.specs.Laws.{shape};

use subst_document::Fill;

/// The law of shapes. A filled-in text has the shape of its source: the same documents, items, keys and
/// brackets, in the same order and equally nested. It has a value wherever the source has one. So no value
/// can break out of its scalar.
pub fn filled_texts_keep_their_shape<F: Fill>(filler: &F)
    ensures same { (source output : List ℕ) (es fs : List Event)
        → AreFilled (F.answers filler.now) source output 0 0 es fs
        → shape output fs ≡ shape source es }
{}
