//! Laws of the expansion of cells. Each is the contract of an empty function.

ghost use Rattle.std.specs.Prelude.{◌≡◌, ℕ, List, Some, map};
ghost use Rattle.subst_language.specs.Language.Sentence.{ByTree};
ghost use Rattle.subst_language.specs.Language.Value.{value};
ghost use Rattle.subst_language.specs.Parts.Span.{span_bytes};
ghost use Rattle.subst_language.specs.Language.Variables.{variables_of};
ghost use Rattle.subst_indexed.specs.Expansion.{Values};
ghost use Rattle.subst_indexed.specs.Laws.{IsHarmless, expansion_value};
ghost use Rattle.subst_indexed.specs.Numbering.{first_uses, look_of, names_of};
ghost use Rattle.subst_indexed.specs.Parsed.{IsCellsOf};
ghost use Rattle.subst_indexed.specs.Template.{cell_span, name_cells, template_expansion};
ghost use Rattle.subst_indexed.specs.declared.cell.Cell.{Cell};

/// The law of parsed cells. The cells of a source expand to the value of the source's tree, under the look-up
/// of the values by name. The names are those of the tree's variables, each once, in the order of first use.
/// The template's name cells have their spans.
pub fn cells_expand_to_the_value()
    ensures value { (s : List ℕ) (names : List (List ℕ)) (cells : List Cell) (values : Values)
        → IsCellsOf s names cells → ByTree s (λ t.
        expansion_value s (template_expansion cells s values)
        ≡ Some (value 0 t (look_of names values))) }
    ensures names { (s : List ℕ) (names : List (List ℕ)) (cells : List Cell)
        → IsCellsOf s names cells → ByTree s (λ t.
        names ≡ names_of (first_uses (variables_of 0 t))) }
    ensures spans { (s : List ℕ) (names : List (List ℕ)) (cells : List Cell)
        → IsCellsOf s names cells
        → map (λ cell. span_bytes (cell_span cell) s) (name_cells cells) ≡ names }
{}

/// The law of any cells. Whatever cells are expanded with whatever source, the output is made of spans of the
/// source, of values, and of single bytes of cells. The name of a missing variable lies in the source.
pub fn any_cells_are_harmless()
    ensures harmless { (s : List ℕ) (cells : List Cell) (values : Values)
        → IsHarmless s values cells (template_expansion cells s values) }
{}
