//! The query of a list.
ghost use Rattle.std.specs.Prelude.{◌≡◌, ◌++◌, ◌∷◌, ◌||◌, [], ℕ, List, codes, map, IfOk};
ghost use Rattle.std.specs.List.{list_all};
ghost use Rattle.std.specs.Str.{bytes_eq};
ghost use Rattle.dm_call.specs.Query.{after_in, is_known as is_known_pair, limit_in, pairs_of, values_of, window_in, window_of};
ghost use Rattle.dm_call.specs.Held.{AreValues, text_pair};

use crate::call::Window;
use crate::numbers::{read_limit, read_number};
use dm_types::NoMemory;
use form_urlencoded::parse;
use std::alloc::Global;

/// Which part of a list is shown where the query doesn't tell it.
const USUAL: Window = Window {
    after: 0,
    limit: 50,
};

/// The part of a list that the query tells, where it tells one.
pub fn read_window(alloc: Global, query: &[u8]) -> Result<Option<Window>, NoMemory>
    ensures { IfOk result (λ window. window ≡ window_of query.now) }
{
    let pairs = read_pairs(alloc, query)?;
    Ok(window(&pairs))
}

/// The names and values of a query.
fn read_pairs(alloc: Global, query: &[u8]) -> Result<Vec<(String, String)>, NoMemory>
    ensures { IfOk result (λ pairs. map text_pair pairs.items ≡ pairs_of query.now) }
{
    let mut pairs = Vec::new(alloc);
    for pair in parse(alloc, query).into_owned() {
        match pair {
            Ok(pair) => pairs.push(pair)?,
            Err(_) => return Err(NoMemory),
        }
    }
    Ok(pairs)
}

fn window(pairs: &[(String, String)]) -> Option<Window>
    ensures { result ≡ window_in (map text_pair pairs.now) }
{
    if !all_known(pairs) {
        return None;
    }
    match (after(pairs), limit(pairs)) {
        (Some(after), Some(limit)) => Some(Window { after, limit }),
        (None, _) => None,
        (Some(_), None) => None,
    }
}

/// Whether no other name stands there.
fn all_known(pairs: &[(String, String)]) -> bool
    ensures { result ≡ list_all is_known_pair (map text_pair pairs.now) }
{
    for (name, _) in pairs {
        if !is_known(name) {
            return false;
        }
    }
    true
}

fn is_known(name: &str) -> bool
    ensures { result ≡ (bytes_eq name.now (codes "after") || bytes_eq name.now (codes "limit")) }
{
    name == "after" || name == "limit"
}

fn after(pairs: &[(String, String)]) -> Option<u32>
    ensures { result ≡ after_in (map text_pair pairs.now) }
{
    match find_values(pairs, "after") {
        Values::Absent => Some(USUAL.after),
        Values::One(digits) => read_number(digits),
        Values::Several => None,
    }
}

fn limit(pairs: &[(String, String)]) -> Option<u32>
    ensures { result ≡ limit_in (map text_pair pairs.now) }
{
    match find_values(pairs, "limit") {
        Values::Absent => Some(USUAL.limit),
        Values::One(digits) => read_limit(digits),
        Values::Several => None,
    }
}

/// The values of one name.
#[derive(Clone, Copy)]
enum Values<'a> {
    Absent,
    One(&'a str),
    Several,
}

fn find_values<'a>(pairs: &'a [(String, String)], name: &str) -> Values<'a>
    ensures { AreValues result (values_of name.now (map text_pair pairs.now)) }
{
    let mut values = Values::Absent;
    for (key, value) in pairs {
        if key.as_str() == name {
            values = with_value(values, value);
        }
    }
    values
}

fn with_value<'a>(values: Values<'a>, value: &'a str) -> Values<'a>
    ensures { (texts : List (List ℕ)) → AreValues values.entry texts → AreValues result (texts ++ value.now ∷ []) }
{
    match values {
        Values::Absent => Values::One(value),
        Values::One(_) => Values::Several,
        Values::Several => Values::Several,
    }
}
