//! Pairs of names and values, as C passes them, and maps of variables made from such pairs.

ghost use Rattle.std.specs.Prelude.{◌≡◌, ℕ, List, Some, None, true, if◌then◌else◌, OnOk, IfOk, IfSome};
ghost use Rattle.std.proofs.Props.{props};
ghost use Rattle.std.specs.Option.{option_map, option_or};
ghost use Rattle.std.specs.Str.{bytes_eq};
ghost use Rattle.subst_c.specs.Index.{indexed_value};
ghost use Rattle.subst_c.specs.Pairs.{pair_value};
ghost use Rattle.subst_c.specs.Text.{have_texts};

use memchr::memchr_iter;
use std::alloc::{AllocError, Global};
use std::collections::BTreeMap;
use subst_language::{BytesMap, VariableMap};

/// The highest number of pairs, or of placeholders, for which a search is no slower than an index.
const FEW: usize = 16;

/// A variable: a name and a value.
#[repr(C)]
#[derive(Clone, Copy)]
pub struct Pair<'a> {
    pub name: &'a [u8],
    pub value: &'a [u8],
}

/// The pairs for one of several outputs of a source.
#[repr(C)]
#[derive(Clone, Copy)]
pub struct Row<'a> {
    pub pairs: &'a [Pair<'a>],
}

/// The values of pairs by name; the first pair with a name wins. The map is sorted, not hashed, so no set of
/// names makes it slow.
pub type Index<'a> = BTreeMap<&'a [u8], &'a [u8]>;

/// Pairs as a map; the first pair with a name wins. A name is looked up in the index, or, if there is none,
/// by searching the pairs in turn.
#[derive(Drop)]
pub struct Pairs<'a> {
    pub pairs: &'a [Pair<'a>],
    pub index: Option<Index<'a>>,
    ghost indexed: { IfSome index (λ index. (name : List ℕ)
        → indexed_value index name ≡ pair_value pairs.now name) } by { Prim.hlevel props },
}

impl<'a> VariableMap<'a> for Pairs<'_> {
    type Value = &'a [u8];

    ghost Seen = { List ℕ };

    ghost see = { λ v. v.now };

    ghost look_up = { λ self. pair_value self.pairs.now };

    fn get(&'a self, key: &str) -> Option<&'a [u8]> {
        match &self.index {
            Some(index) => index.get(key.as_bytes()).copied(),
            None => find(self.pairs, key.as_bytes()),
        }
    }
}

/// The values of the pairs are bytes.
impl<'a> BytesMap<'a> for Pairs<'_> {
    ghost use Rattle.std.proofs.Common.{refl, sym};
    ghost use Rattle.std.proofs.lemmas.Iterator.Adapters.{option_map_id};
    ghost use Rattle.subst_c.specs.Pairs.{pair_value};

    ghost look_up_bytes = { λ self. pair_value self.pairs.now };

    ghost reads = { ((λ bytes. bytes), (λ v. refl), (λ self name. sym (option_map_id _))) };
}

/// Pairs whose values are UTF-8, as a map of texts.
#[derive(Drop)]
pub struct TextPairs<'a> {
    pub pairs: Pairs<'a>,
    ghost texts: { have_texts pairs.pairs.now ≡ true },
}

impl<'a> VariableMap<'a> for TextPairs<'_> {
    type Value = &'a str;

    ghost Seen = { List ℕ };

    ghost see = { λ v. v.now };

    ghost look_up = { λ self. pair_value self.pairs.pairs.now };

    fn get(&'a self, key: &str) -> Option<&'a str> {
        let value = self.pairs.get(key)?;
        // SAFETY: the values are UTF-8.
        Some(unsafe { str::from_utf8_unchecked(value) })
    }
}

/// Returns the value of the first pair with the name. Searches the pairs in turn.
#[inline(always)]
pub fn find<'a>(pairs: &[Pair<'a>], name: &[u8]) -> Option<&'a [u8]>
    ensures { option_map (λ value. value.now) result ≡ pair_value pairs.now name.now }
{
    let pair = pairs.iter().find(|pair| name == pair.name)?;
    Some(pair.value)
}

/// Returns pairs as a map, with an index if there are many pairs and the source has many placeholders.
pub fn pairs_of<'a>(alloc: Global, source: &[u8], pairs: &'a [Pair<'a>]) -> Pairs<'a>
    ensures { result.pairs.now ≡ pairs.now }
{
    let index = index_of(alloc, source, pairs);
    Pairs { pairs, index }
}

/// Returns an index of the pairs, or `None` if the pairs or the source's placeholders are few, or if
/// allocation fails.
pub fn index_of<'a>(alloc: Global, source: &[u8], pairs: &'a [Pair<'a>]) -> Option<Index<'a>>
    ensures { IfSome result (λ index. (name : List ℕ)
        → indexed_value index name ≡ pair_value pairs.now name) }
{
    if pairs.len() <= FEW || !has_many_placeholders(source) {
        return None;
    }
    index(alloc, pairs).ok()
}

/// Returns whether `source` has more than [`FEW`] dollars. Otherwise it has at most [`FEW`] placeholders,
/// since each begins with a dollar.
fn has_many_placeholders(source: &[u8]) -> bool {
    memchr_iter(b'$', source).nth(FEW).is_some()
}

/// Returns the values of pairs by name.
///
/// # Errors
///
/// If allocation fails.
fn index<'a>(alloc: Global, pairs: &'a [Pair<'a>]) -> Result<Index<'a>, AllocError>
    ensures { IfOk result (λ index. (name : List ℕ)
        → indexed_value index name ≡ pair_value pairs.now name) }
{
    let mut index = BTreeMap::new(alloc);
    for pair in pairs {
        insert_if_new(&mut index, pair.name, pair.value)?;
    }
    Ok(index)
}

/// Inserts the value under its name, unless the name already has a value.
pub fn insert_if_new<'a>(
    index: &mut Index<'a>,
    name: &'a [u8],
    value: &'a [u8],
) -> Result<(), AllocError>
    ensures { OnOk result ((other : List ℕ) → indexed_value index.new other
        ≡ option_or (indexed_value index.old other)
        (if bytes_eq other name.now then Some value.now else None)) }
{
    index.entry(name)?.or_insert(value);
    Ok(())
}
