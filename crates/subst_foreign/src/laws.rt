//! Laws about the reading of texts and the lookups of `ShellMap`. Each is the contract of a function that
//! does nothing.

ghost use Rattle.std.specs.Prelude.{◌≡◌, ◌<◌, ◌≤◌, ℕ, List, [], false, length, map};
ghost use Rattle.std.specs.List.{AllByRecursion};
ghost use Rattle.subst_foreign.specs.Foreign.{IsShellName};
ghost use Rattle.subst_foreign.specs.Question.{by_question};
ghost use Rattle.subst_foreign.specs.Reading.{end_of, grammar_of, IsReading, IsRefusalOf, Listing, VariableAt, without_place};
ghost use Rattle.subst_foreign.specs.Template.{template_name, template_name_of, text_name, IsTemplate};
ghost use Rattle.subst_foreign.specs.Text.{Text, IsText, spelling, variables_of as items_variables};
ghost use Rattle.subst_foreign.specs.declared.refused.FormAt.{FormAt as SpecFormAt};
ghost use Rattle.subst_foreign.specs.declared.refused.TextError.TheVariants.{Refused};
ghost use Rattle.subst_language.specs.Language.LookUp.{LookUp};
ghost use Rattle.subst_language.specs.Language.Sentence.{Spells};
ghost use Rattle.subst_language.specs.Language.Tree.{Tree};
ghost use Rattle.subst_language.specs.Language.Variables.{name_of, variables_of as tree_variables};
ghost use Rattle.subst_language.specs.Maps.{AreReadAs, without_empty};

use crate::ShellMap;
use crate::names::Names;
use crate::style::Style;
use std::convert::{AsSlice, AsStr};
use subst_language::{BytesMap, OneOf, VariableMap};

/// The law of one reading. Each text has one list of refused forms. If the list is empty, exactly one list of
/// items of the grammar spells the text. If items of the grammar spell a text, nothing in that text is
/// refused.
pub fn one_reading<N: Names>(style: Style<'_, N>)
    ensures one_list { let g = grammar_of N.all N.counts style.entry in
        (s : List ℕ) (one other : List SpecFormAt) → IsReading g s one → IsReading g s other
        → one ≡ other }
    ensures text_read { let g = grammar_of N.all N.counts style.entry in
        (s : List ℕ) → IsReading g s []
        → (text : Text) × IsText g false text [] × (s ≡ spelling text) }
    ensures nothing_refused { let g = grammar_of N.all N.counts style.entry in
        (text : Text) → IsText g false text [] → IsReading g (spelling text) [] }
    ensures never_refused { let g = grammar_of N.all N.counts style.entry in
        (text : Text) → IsText g false text [] → (first : SpecFormAt)
        → ¬ (IsRefusalOf g (spelling text) (Refused first)) }
    ensures one_text { let g = grammar_of N.all N.counts style.entry in
        (one other : Text) → IsText g false one [] → IsText g false other []
        → spelling one ≡ spelling other → one ≡ other }
{}

/// The law of listed variables. Each text has one list of variables. If items of the grammar spell the text,
/// the list has their variables, in order. A template looks up each variable by its name. A digit that a
/// `ShellMap` reads may precede this name. Listed variables and refused forms lie within the text.
pub fn one_listing<N: Names>(style: Style<'_, N>)
    ensures one_list { let g = grammar_of N.all N.counts style.entry in
        (s : List ℕ) (one other : List VariableAt) → Listing g 0 0 s one → Listing g 0 0 s other
        → one ≡ other }
    ensures variables { let g = grammar_of N.all N.counts style.entry in
        (text : Text) (listed : List VariableAt) → IsText g false text []
        → Listing g 0 0 (spelling text) listed → map without_place listed ≡ items_variables text }
    ensures named { let g = grammar_of N.all N.counts style.entry in
        (text : Text) → IsText g false text []
        → AllByRecursion (λ v. text_name style.entry.forms
        (template_name_of style.entry.forms v) ≡ v.name) (items_variables text) }
    ensures within { let g = grammar_of N.all N.counts style.entry in
        (s : List ℕ) (listed : List VariableAt) → Listing g 0 0 s listed
        → AllByRecursion (λ v. end_of v ≤ length s) listed }
    ensures refused_within { let g = grammar_of N.all N.counts style.entry in
        (s : List ℕ) (refused : List SpecFormAt) → IsReading g s refused
        → AllByRecursion (λ at. at.position < length s) refused }
{}

/// The law of one order. A template for a text has as many variables as the text, in the same order. Each
/// variable of the template has the name of the text's variable with the same index. A digit that a
/// `ShellMap` reads may precede this name.
pub fn variables_are_in_one_order<N: Names>(style: Style<'_, N>)
    ensures of_template { let g = grammar_of N.all N.counts style.entry in
        (s source : List ℕ) → IsTemplate g style.entry.missing s source
        → (tree : Tree) → Spells tree source → (listed : List VariableAt) → Listing g 0 0 s listed
        → map name_of (tree_variables 0 tree)
        ≡ map (λ v. template_name style.entry.forms v.operator v.name) listed }
    ensures as_many { let g = grammar_of N.all N.counts style.entry in
        (s source : List ℕ) → IsTemplate g style.entry.missing s source
        → (tree : Tree) → Spells tree source → (listed : List VariableAt) → Listing g 0 0 s listed
        → length (tree_variables 0 tree) ≡ length listed }
{}

/// The law of a `ShellMap` over a map of bytes. For each name, the `ShellMap` has the bytes that
/// `by_question` computes from the bytes in the underlying map.
pub fn questions_are_answered<'a, M: BytesMap<'a> + 'a>()
where
    M::Value: AsSlice<u8> + Drop,
    ensures shell { AreReadAs ⟦<OneOf<M::Value, &'a str> as AsSlice<u8>>⟧.items
        ⟦<ShellMap<'a, M> as VariableMap<'a>>⟧.see ⟦<ShellMap<'a, M> as VariableMap<'a>>⟧.look_up
        (λ map. by_question (M.look_up_bytes map.map.now)) }
{}

/// The law of a `ShellMap` over a map of texts. For each name, the `ShellMap` has the text that `by_question`
/// computes from the values in the underlying map. This holds if each value's text and bytes are equal.
pub fn questions_are_answered_by_texts<'a, M: BytesMap<'a> + 'a>()
where
    M::Value: AsSlice<u8> + AsStr + Drop,
    ensures shell { ((v : M.Value) → M.Value.text v ≡ M.Value.items v)
        → AreReadAs ⟦<OneOf<M::Value, &'a str> as AsStr>⟧.text
        ⟦<ShellMap<'a, M> as VariableMap<'a>>⟧.see ⟦<ShellMap<'a, M> as VariableMap<'a>>⟧.look_up
        (λ shell. by_question (M.look_up_bytes shell.map.now)) }
{}

/// The law of names without a leading digit. For such a name, `ShellMap` agrees with `NoEmpty`.
pub fn shell_names_are_no_questions()
    ensures no_empty { (look : LookUp) (name : List ℕ) → IsShellName name
        → by_question look name ≡ without_empty look name }
{}
