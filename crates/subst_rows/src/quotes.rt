//! The quotes of a table: whether the text ends inside a quoted cell.

ghost use Rattle.std.specs.Prelude.{◌≡◌, ◌≢◌, IfNone, IfSome, IsTrue, Some, slice_get, if◌then◌else◌};
ghost use Rattle.csv.specs.Machine.{step};
ghost use Rattle.csv.specs.declared.parser.State.{State};
ghost use Rattle.subst_rows.specs.declared.quotes.Place.TheVariants.{Closed, Quoted};
ghost use Rattle.subst_rows.specs.Quotes.{EndsInQuotes, IsPlace, opens, place_after, place_of_last, table_config};

use memchr::memchr;

/// A place in a table's text, as far as quotes need it.
#[derive(Clone, Copy, PartialEq, Eq)]
enum Place {
    /// At the start of a cell.
    Start,
    /// In a cell without quotes.
    Plain,
    /// Inside quotes.
    Quoted,
    /// After a quote inside quotes: it closes them, or is the first of two.
    Closed,
}

/// Returns the offset of the quote after which the text of a table ends inside quotes, or `None` if the text
/// ends outside of them. `delimiter` is the byte between cells.
pub fn open_quote(text: &[u8], delimiter: u8) -> Option<usize>
    ensures none { IfNone result (EndsInQuotes delimiter text.now → ⊥) }
    ensures some { IfSome result (λ at. EndsInQuotes delimiter text.now
        × (slice_get text.now at ≡ Some 34)) }
{
    let mut place = Place::Start;
    let mut opened = 0;
    let mut at = 0;
    while let Some(found) = memchr(b'"', &text[at..]) {
        let quote = at + found;
        let before = place_after(place, &text[at..quote], delimiter);
        let after = place_after_quote(before, delimiter);
        opened = last_opened(before, after, quote, opened);
        place = after;
        at = quote + 1;
    }
    match place {
        Place::Quoted => Some(opened),
        _ => None,
    }
}

/// Returns the place after bytes that aren't quotes.
#[inline(always)]
fn place_after(place: Place, bytes: &[u8], delimiter: u8) -> Place
    ensures { result ≡ place_after delimiter place bytes.now }
{
    let len = bytes.len();
    if len == 0 {
        return place;
    }
    match place {
        Place::Quoted => place,
        _ => place_of_last(bytes[len - 1], delimiter),
    }
}

/// Returns the place outside of quotes after a byte that isn't a quote.
#[inline(always)]
fn place_of_last(byte: u8, delimiter: u8) -> Place
    ensures { result ≡ place_of_last delimiter byte }
{
    if byte == delimiter || byte == b'\r' || byte == b'\n' {
        Place::Start
    } else {
        Place::Plain
    }
}

/// Returns the offset of the last quote that opened a cell: `at`, if the byte there led from `before` to
/// `after` and is one, else `opened`.
#[inline(always)]
fn last_opened(before: Place, after: Place, at: usize, opened: usize) -> usize
    ensures { result ≡ (if opens before after then at else opened) }
{
    if before == Place::Start && after == Place::Quoted {
        at
    } else {
        opened
    }
}

/// Returns the place after a quote.
#[inline(always)]
fn place_after_quote(place: Place, delimiter: u8) -> Place
    ensures inside { place ≢ Quoted → place ≢ Closed → result ≡ Quoted
        → IsTrue (opens place result) }
    ensures closes { result ≡ Closed → place ≡ Quoted }
    ensures place { (s : State) → IsPlace place s
        → IsPlace result (step (table_config delimiter) s 34).0 }
{
    match place {
        Place::Start | Place::Closed => Place::Quoted,
        Place::Quoted => Place::Closed,
        Place::Plain if delimiter == b'"' => Place::Start,
        Place::Plain => Place::Plain,
    }
}
