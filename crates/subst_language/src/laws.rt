//! Laws of the definitions that contracts cite. Each is the contract of an empty function.

ghost use Rattle.std.specs.Prelude.{◌≡◌, ◌↔◌, ◌≤◌, ◌+◌, ◌∷◌, ◌++◌, [], ℕ, List, Some, None, IsSome};
ghost use Rattle.std.specs.Prelude.{length, map, sum_by};
ghost use Rattle.std.specs.List.{All, filter};
ghost use Rattle.std.specs.Str.{IsUtf8};
ghost use Rattle.subst_error.specs.Fault.{Fault, InvalidEscapeSequence, MissingClosingBrace, NoSuchVariable};
ghost use Rattle.subst_error.specs.Range.{range_of, IsRangeIn};
ghost use Rattle.subst_language.specs.Language.Answer.{Answers, Gives, Refuses, IsMissing};
ghost use Rattle.subst_language.specs.Language.BadItem.{HasFault};
ghost use Rattle.subst_language.specs.Language.Bytes.{dollar, colon, opening_brace, closing_brace, IsPlain};
ghost use Rattle.subst_language.specs.Language.Escaped.{escaped};
ghost use Rattle.subst_language.specs.Language.Followed.{IsFollowed};
ghost use Rattle.subst_language.specs.Language.Join.{join};
ghost use Rattle.subst_language.specs.Language.Laws.{IsSublist, OneTreeOrOneFault, OpensAt, IsSettled};
ghost use Rattle.subst_language.specs.Language.Moved.{moved};
ghost use Rattle.subst_language.specs.Language.Name.{IsName};
ghost use Rattle.subst_language.specs.Language.NamesIn.{names_in};
ghost use Rattle.subst_language.specs.Earlier.Extension.{KeepsReading};
ghost use Rattle.subst_language.specs.Language.Tree.{Tree, text};
ghost use Rattle.subst_language.specs.Language.LookUp.{LookUp, GivesTexts};
ghost use Rattle.subst_language.specs.Language.Sentence.{ByTree, Spells};
ghost use Rattle.subst_language.specs.Language.Value.{Bytes, Missing, value};
ghost use Rattle.subst_language.specs.Language.Variables.{Variable, all_missing, is_required, name_of, required};
ghost use Rattle.subst_language.specs.Language.Variables.{variables_of};
ghost use Rattle.subst_language.specs.Language.ValueLength.{length_of, value_length, visited_length};
ghost use Rattle.subst_language.specs.Language.Written.{written};
ghost use Rattle.subst_language.specs.Language.Counts.{part_count, visited_count};

/// The law of one reading. Each byte string is a sentence of the template language or has a fault, never
/// both. A sentence is the text of exactly one well-formed tree. Any other byte string has exactly one fault,
/// wherever in a source it begins.
pub fn law_1()
    ensures reading { (s : List ℕ) → OneTreeOrOneFault s }
{}

/// The law of joined sentences. Suppose that a text follows a sentence and doesn't continue a name at the
/// sentence's end. If the text has a fault, the whole has the same fault, with its position moved by the
/// sentence's length. If the text is a sentence too, so is the whole, with the two trees joined and the two
/// outputs concatenated. If both are sentences and a variable of the first one is missing, the whole is
/// refused like the first one. If only variables of the second one are missing, the whole is refused like the
/// second one, with the position moved likewise.
pub fn law_2()
    ensures tree { (t u : Tree) (a b : List ℕ) → Spells t a → Spells u b → IsFollowed t b
        → Spells (join t u) (a ++ b) }
    ensures bytes { (t : Tree) (a b x y : List ℕ) (look : LookUp) → Spells t a → IsFollowed t b
        → value 0 t look ≡ Bytes x → Answers b look (Gives y)
        → Answers (a ++ b) look (Gives (x ++ y)) }
    ensures fault { (t : Tree) (a b : List ℕ) (p : ℕ) (f : Fault) → Spells t a → IsFollowed t b
        → HasFault p b f → HasFault p (a ++ b) (moved (length a) f) }
    ensures missing { (t u : Tree) (a b x : List ℕ) (look : LookUp) (f : Fault) → Spells t a
        → Spells u b → IsFollowed t b → value 0 t look ≡ Bytes x → IsMissing (value 0 u look) f
        → Answers (a ++ b) look (Refuses (moved (length a) f)) }
    ensures missing_before { (t u : Tree) (a b : List ℕ) (look : LookUp) (f : Fault) → Spells t a
        → Spells u b → IsFollowed t b → IsMissing (value 0 t look) f
        → Answers (a ++ b) look (Refuses f) }
{}

/// The law of escaped texts. A text with a backslash put before each special byte is a sentence that expands
/// to the original text, under every look-up. A placeholder with this sentence as its default also expands to
/// the original text, if the look-up has no value for the placeholder's name.
pub fn law_3()
    ensures alone { (x : List ℕ) (look : LookUp) → Answers (escaped x) look (Gives x) }
    ensures as_default { (n x : List ℕ) (look : LookUp) → IsName n → look n ≡ None
        → Answers (dollar ∷ opening_brace ∷ n ++ (colon ∷ escaped x ++ closing_brace ∷ [])) look
        (Gives x) }
{}

/// The law of names. A tree has the same value under two look-ups that agree on all names in the tree.
/// Suppose instead that each of these names with a value in the first look-up also has a value in the second,
/// possibly a different one. If the tree's value under the first look-up is bytes, its value under the second
/// is bytes too, though perhaps different ones.
pub fn law_4()
    ensures same { (p : ℕ) (t : Tree) (a b : LookUp) → All (λ n. a n ≡ b n) (names_in t)
        → value p t a ≡ value p t b }
    ensures bytes { (p : ℕ) (t : Tree) (a b : LookUp) (x : List ℕ)
        → All (λ n. IsSome (a n) → IsSome (b n)) (names_in t) → value p t a ≡ Bytes x
        → (y : List ℕ) × (value p t b ≡ Bytes y) }
{}

/// The law of late faults. If a source's fault is a missing closing brace, the source begins with a sentence
/// and `${`, whose brace is at the fault's position. If the fault is an escape without a character, the
/// backslash is the source's last byte.
pub fn law_5()
    ensures brace { (p position : ℕ) (s : List ℕ) → HasFault p s (MissingClosingBrace position)
        → OpensAt p s position }
    ensures escape { (p position : ℕ) (s : List ℕ)
        → HasFault p s (InvalidEscapeSequence position None) → position + 1 ≡ p + length s }
{}

/// The law of settled faults. These faults stay, whatever is appended to the text: an escape of a character
/// that can't be escaped, an unexpected character, and a missing name if its `$` or `${` doesn't end the
/// text. For any other fault, some text can be appended so that the source has another fault, or none.
pub fn law_6()
    ensures settled { (p : ℕ) (s more : List ℕ) (f : Fault) → IsUtf8 s → HasFault p s f
        → IsSettled (p + length s) f → HasFault p (s ++ more) f }
    ensures unsettled { (p : ℕ) (s : List ℕ) (f : Fault) → HasFault p s f
        → ¬ (IsSettled (p + length s) f)
        → (more : List ℕ) × IsUtf8 more × (¬ (HasFault p (s ++ more) f)) }
{}

/// The law of ranges. The range of each refusal of a text begins and ends at character boundaries of the
/// text, so it is in the text. Every error of substituting the text can therefore be underlined in it.
pub fn law_7()
    ensures range { (s : List ℕ) (look : LookUp) (f : Fault) → IsUtf8 s → Answers s look (Refuses f)
        → IsRangeIn s (range_of (Some f)) }
{}

/// The law of plain texts. A source without `$` and `\` is a sentence that expands to itself under every
/// look-up.
pub fn law_8()
    ensures itself { (s : List ℕ) (look : LookUp) → All IsPlain s → Answers s look (Gives s) }
{}

/// The law of extension. Each sentence of the earlier language, which had no `${name?}`, is a sentence of the
/// present language. It has the same tree, item for item. At each position in a source and under each
/// look-up, it has the same value. A byte string without a question mark is a sentence of both languages or
/// of neither. If it is a sentence of neither, its faults in the two languages are equal except for the
/// message of what was expected.
pub fn law_9()
    ensures kept { (s : List ℕ) → KeepsReading s }
{}

/// The law of missing variables. A source is refused for a variable only if the look-up has no value for it.
/// A sentence is never refused under a look-up with a value for each of its names. Once the look-up has a
/// value for the missing variable, the source isn't refused for it again, at any position.
pub fn missing_variables_are_missing()
    ensures missing { (s : List ℕ) (look : LookUp) (position : ℕ) (name : List ℕ)
        → Answers s look (Refuses (NoSuchVariable position name)) → look name ≡ None }
    ensures given { (s : List ℕ) (t : Tree) (look : LookUp) → Spells t s
        → All (λ n. IsSome (look n)) (names_in t) → (x : List ℕ) × Answers s look (Gives x) }
    ensures retry { (s : List ℕ) (look : LookUp) (position : ℕ) (name : List ℕ) → IsSome (look name)
        → ¬ (Answers s look (Refuses (NoSuchVariable position name))) }
{}

/// The law of all missing variables. Under a look-up, the list of a tree's missing variables is empty if and
/// only if the tree's value is bytes. Otherwise the list begins with the variable that an expansion is
/// refused for. The list has only required variables of the tree, in the tree's order, and the look-up has no
/// value for any of them. Take a second look-up that has values for these variables and for all names with a
/// value in the first look-up. Under the second look-up, the tree's value is bytes. A tree's list of
/// variables and its list of names have the same names, in the same order.
pub fn missing_lists_are_whole()
    ensures none { (p : ℕ) (t : Tree) (look : LookUp)
        → (all_missing p t look ≡ [] ↔ ((x : List ℕ) × (value p t look ≡ Bytes x))) }
    ensures first { (p position : ℕ) (t : Tree) (look : LookUp) (name : List ℕ)
        → value p t look ≡ Missing position name
        → (more : List Variable) × (all_missing p t look ≡ required position name ∷ more) }
    ensures required { (p : ℕ) (t : Tree) (look : LookUp)
        → IsSublist (all_missing p t look) (filter (λ v. is_required v.kind) (variables_of p t)) }
    ensures lacked { (p : ℕ) (t : Tree) (look : LookUp)
        → All (λ v. look v.name ≡ None) (all_missing p t look) }
    ensures supplied { (p : ℕ) (t : Tree) (a b : LookUp)
        → ((n : List ℕ) → IsSome (a n) → IsSome (b n))
        → All (λ v. IsSome (b v.name)) (all_missing p t a)
        → (x : List ℕ) × (value p t b ≡ Bytes x) }
    ensures names { (p : ℕ) (t : Tree) → map name_of (variables_of p t) ≡ names_in t }
{}

/// The law of turns. An expansion visits no more parts than the source has, and the source has no more parts
/// than bytes.
pub fn turns_are_bounded()
    ensures visited { (t : Tree) (look : LookUp) → visited_count t look ≤ part_count t }
    ensures parts { (t : Tree) → part_count t ≤ length (text t) }
{}

/// The law of lengths. The length of an output is the number of the tree's visited plain and escaped bytes,
/// plus the lengths of the values of visited variables. An output is at most as long as the source and these
/// values together. These values together are at most as long as the values for all names in the tree,
/// repeated names included.
pub fn outputs_are_bounded()
    ensures exact { (p : ℕ) (t : Tree) (look : LookUp) (x : List ℕ) → value p t look ≡ Bytes x
        → value_length t look ≡ length x }
    ensures bound { (t : Tree) (look : LookUp)
        → value_length t look ≤ length (text t) + visited_length t look }
    ensures values { (t : Tree) (look : LookUp)
        → visited_length t look ≤ sum_by (length_of look) (names_in t) }
{}

/// The law of writing. If a tree's value is bytes, an evaluation writes exactly these bytes. The number of
/// written bytes is always at most the number of visited plain and escaped bytes, plus the lengths of visited
/// variables' values.
pub fn writes_are_bounded()
    ensures exact { (p : ℕ) (t : Tree) (look : LookUp) (x : List ℕ) → value p t look ≡ Bytes x
        → written p t look ≡ x }
    ensures bound { (p : ℕ) (t : Tree) (look : LookUp)
        → length (written p t look) ≤ value_length t look }
{}

/// The law of texts. If a source and all values of a look-up are UTF-8, so is the output: no character is
/// cut.
pub fn texts_give_texts()
    ensures text { (s x : List ℕ) (p : ℕ) (look : LookUp) → IsUtf8 s → GivesTexts look
        → ByTree s (λ t. value p t look ≡ Bytes x → IsUtf8 x) }
{}
