//! Laws of the definitions that the contracts cite, each as the contract of a function that does nothing.

ghost use Rattle.std.specs.Prelude.{◌≡◌, ℕ, List, Some};
ghost use Rattle.serde_json.specs.Data.{Data, string};
ghost use Rattle.serde_json.specs.Find.{pointer};
ghost use Rattle.subst_language.specs.Language.LookUp.{LookUp};
ghost use Rattle.subst_document.specs.Paths.{PathStep};
ghost use Rattle.subst_json.specs.Laws.{IsMappedOrRefused};
ghost use Rattle.subst_json.specs.Paths.{Leads};
ghost use Rattle.subst_json.specs.Pointer.{HasUsizeIndices, pointer_text};

/// The law of one outcome. Under each look-up, a tree is filled in as exactly one tree or refused for exactly
/// one fault, never both. So filling in a tree succeeds exactly if no string is refused, unless memory runs
/// out.
pub fn trees_have_one_outcome()
    ensures outcome { (look : LookUp) (d : Data) → IsMappedOrRefused look d }
{}

/// The law of pointers. `Value::pointer` of `serde_json`, given the text of a path, finds the string at that
/// path.
pub fn pointers_find_strings()
    ensures found { (path : List PathStep) (d : Data) (s : List ℕ) → HasUsizeIndices path
        → Leads path d s → pointer (pointer_text path) d ≡ Some (string s) }
{}
