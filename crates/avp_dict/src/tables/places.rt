ghost use Rattle.std.specs.Prelude.{◌≡◌, ◌++◌, ◌∷◌, [], ℕ, Bool, List, map, length, slice_get, IfOk, OnOk};
ghost use Rattle.std.specs.List.{list_any};
ghost use Rattle.std.specs.Map.{keys_of};
ghost use Rattle.std.specs.Option.{option_and_then, option_copied};
ghost use Rattle.std.specs.Set.{distinct_count};
ghost use Rattle.avp_dict.specs.Dictionary.{last_where};
ghost use Rattle.avp_dict.specs.internal.Tables.{IsTable, last_place};

use indexmap::IndexMap;
use std::alloc::{AllocError, Global};
use std::hash::Hash;
use std::marker::Model;

/// The place of the last line with each key, the keys in the order of their first lines.
pub struct Places<K: Eq + Hash> {
    table: IndexMap<K, usize>,
}

// As a function, so that a proof which drops a table sees one step.
impl<K: Eq + Hash + Drop> Drop for Places<K> {
    fn drop(self) {
        let Places { table: _ } = self;
    }
}

impl<K: Eq + Hash> Model for Places<K> {
    ghost use Rattle.std.specs.Prelude.{ℕ, List};

    ghost Value = { List (K × ℕ) };

    ghost view = { λ p. p.table.entries };
}

fn line_at<T>(lines: &[T], place: Option<usize>) -> Option<&T>
    ensures { option_copied result ≡ option_and_then (slice_get lines.now) place }
{
    let place = place?;
    lines.get(place)
}

impl<K: Eq + Hash> Places<K> {
    pub fn new(alloc: Global) -> Places<K>
        ensures { IsTable K.eq result [] }
    {
        Places {
            table: IndexMap::new(alloc),
        }
    }

    /// No key, and room for so many.
    pub fn with_capacity(alloc: Global, keys: usize) -> Result<Places<K>, AllocError>
        ensures { IfOk result (λ places. IsTable K.eq places []) }
    {
        let table = IndexMap::with_capacity(alloc, keys)?;
        Ok(Places { table })
    }

    /// No key is left.
    pub fn clear(&mut self)
    where
        K: Drop,
        ensures { IsTable K.eq self.new [] }
    {
        self.table.clear();
    }

    /// The last of the lines with this key.
    pub fn line<'a, T>(&self, lines: &'a [T], key: &K) -> Option<&'a T>
        ensures { (keys : T → K) (test : T → Bool) → IsTable K.eq self.now (map keys lines.now)
            → ((line : T) → K.eq (keys line) key.now ≡ test line)
            → option_copied result ≡ last_where test lines.now }
    {
        line_at(lines, self.table.get(key).copied())
    }

    /// Whether a line has this key.
    pub fn contains(&self, key: &K) -> bool
        ensures { (keys : List K) → IsTable K.eq self.now keys
            → result ≡ list_any (λ k. K.eq k key.now) keys }
    {
        self.table.contains_key(key)
    }

    /// How many keys there are.
    pub fn count(&self) -> usize
        ensures { (keys : List K) → IsTable K.eq self.now keys
            → result ≡ distinct_count K.eq keys }
    {
        self.table.len()
    }

    /// The key at a place of the table.
    pub fn key(&self, at: usize) -> Option<&K>
        ensures { option_copied result ≡ slice_get (keys_of self.now) at }
    {
        match self.table.get_index(at) {
            Some((key, _)) => Some(key),
            None => None,
        }
    }

    /// One more line's key, at the line's place. The answer is the place of the last line before it with the key.
    pub fn put(&mut self, key: K, place: usize) -> Result<Option<usize>, AllocError>
    where
        K: Drop,
        ensures before { (keys : List K) → IsTable K.eq self.old keys
            → IfOk result (λ before. before ≡ last_place (λ k. K.eq k key) keys) }
        ensures table { (keys : List K) → IsTable K.eq self.old keys → place ≡ length keys
            → OnOk result (IsTable K.eq self.new (keys ++ key ∷ [])) }
    {
        let before = self.table.insert(key, place)?;
        Ok(before)
    }
}
