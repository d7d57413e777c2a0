//! Lines in their order, with a table of their names and one of their numbers.

ghost use Rattle.std.specs.Prelude.{◌≡◌, ◌++◌, ◌∷◌, ◌≤◌, [], Bool, false, length, map, slice_get, All, IfErr, IfOk, MatchOption, OnOk};
ghost use Rattle.std.specs.Option.{option_copied};
ghost use Rattle.std.specs.Set.{distinct_count};
ghost use Rattle.avp_dict.specs.Dictionary.{first_keys, last_where};
ghost use Rattle.avp_dict.specs.Letters.{max_name};
ghost use Rattle.avp_dict.specs.internal.Tables.{AreTables, IsLastAt};

use crate::tables::places::Places;
use std::alloc::{AllocError, Global};
use std::hash::Hash;
use std::marker::Model;

/// A line that is found by its name and by its number.
pub trait Keyed: Drop {
    /// What lines with one name share.
    type NameKey: Eq + Hash + Drop;
    /// What lines with one number share.
    type NumberKey: Eq + Hash + Drop;

    ghost use Rattle.std.specs.Prelude.{◌≡◌, ◌≤◌, ℕ, List, length};
    ghost use Rattle.avp_dict.specs.Letters.{max_name};

    // The name as the line has it, and the two keys.
    ghost spelled: { Self → List ℕ };

    ghost name_of: { Self → Self.NameKey };

    ghost number_of: { Self → Self.NumberKey };

    /// The key of the line's name.
    fn name_key(&self) -> Self::NameKey
        requires { length (spelled self.now) ≤ max_name }
        ensures { result ≡ name_of self.now };

    /// The key of the line's number.
    fn number_key(&self) -> Self::NumberKey
        ensures { result ≡ number_of self.now };
}

/// Lines in their order.
pub struct KeyedLines<L: Keyed> {
    lines: Vec<L>,
    names: Places<L::NameKey>,
    numbers: Places<L::NumberKey>,
}

// As a function, so that a proof which drops the lines sees one step and not those of each table.
impl<L: Keyed> Drop for KeyedLines<L> {
    fn drop(self) {
        let KeyedLines {
            lines: _,
            names: _,
            numbers: _,
        } = self;
    }
}

impl<L: Keyed> Model for KeyedLines<L> {
    ghost use Rattle.std.specs.Prelude.{List};
    ghost use Rattle.avp_dict.specs.internal.Tables.{AreTables};

    ghost Value = { List L };

    ghost view = { λ t. t.lines.items };

    ghost invariant = { λ t. AreTables L.NameKey.eq L.NumberKey.eq L.spelled L.name_of L.number_of
        t.names t.numbers t.lines.items };
}

// One more line, and its keys. The answer is the place of the last line before it with its name.
fn add_line<L: Keyed>(
    lines: &mut Vec<L>,
    names: &mut Places<L::NameKey>,
    numbers: &mut Places<L::NumberKey>,
    line: L,
) -> Result<Option<usize>, AllocError>
    requires tables { AreTables L.NameKey.eq L.NumberKey.eq L.spelled L.name_of L.number_of
        names.old numbers.old lines.old.items }
    requires short { length (L.spelled line) ≤ max_name }
    ensures lines { OnOk result (lines.new.items ≡ lines.old.items ++ line ∷ []) }
    ensures tables { OnOk result (AreTables L.NameKey.eq L.NumberKey.eq L.spelled L.name_of
        L.number_of names.new numbers.new lines.new.items) }
    ensures before { (test : L → Bool)
        → ((l : L) → L.NameKey.eq (L.name_of l) (L.name_of line) ≡ test l)
        → IfOk result (IsLastAt test lines.old.items) }
{
    let place = lines.len();
    let before = names.put(line.name_key(), place)?;
    numbers.put(line.number_key(), place)?;
    lines.push(line)?;
    Ok(before)
}

impl<L: Keyed> KeyedLines<L> {
    pub fn new(alloc: Global) -> KeyedLines<L>
        ensures { result ≡ [] }
    {
        KeyedLines {
            lines: Vec::new(alloc),
            names: Places::new(alloc),
            numbers: Places::new(alloc),
        }
    }

    /// No lines, and room for so many.
    pub fn with_capacity(alloc: Global, lines: usize) -> Result<KeyedLines<L>, AllocError>
        ensures { IfOk result (λ table. table ≡ []) }
    {
        let names = Places::with_capacity(alloc, lines)?;
        let numbers = Places::with_capacity(alloc, lines)?;
        let lines = Vec::with_capacity(alloc, lines)?;
        Ok(KeyedLines {
            lines,
            names,
            numbers,
        })
    }

    /// The lines in their order.
    pub fn as_slice(&self) -> &[L]
        ensures lines { result.now ≡ self.now }
        ensures short { All (λ line. length (L.spelled line) ≤ max_name) self.now }
    {
        self.lines.as_slice()
    }

    /// No line is left.
    pub fn clear(&mut self)
        ensures { self.new ≡ [] }
    {
        self.lines.clear();
        self.names.clear();
        self.numbers.clear();
    }

    /// Adds a line. If memory runs out, all are dropped.
    #[inline(always)]
    pub fn push(&mut self, line: L) -> Result<(), AllocError>
        requires { length (L.spelled line) ≤ max_name }
        ensures ok { OnOk result (self.new ≡ self.old ++ line ∷ []) }
        ensures dropped { IfErr result (λ error. self.new ≡ []) }
    {
        self.put(line)?;
        Ok(())
    }

    /// Adds a line. The answer is the place of the last line before it with its name. If memory runs out, all are
    /// dropped.
    #[inline(always)]
    pub fn put(&mut self, line: L) -> Result<Option<usize>, AllocError>
        requires { length (L.spelled line) ≤ max_name }
        ensures ok { OnOk result (self.new ≡ self.old ++ line ∷ []) }
        ensures before { (test : L → Bool)
            → ((l : L) → L.NameKey.eq (L.name_of l) (L.name_of line) ≡ test l)
            → IfOk result (IsLastAt test self.old) }
        ensures dropped { IfErr result (λ error. self.new ≡ []) }
    {
        match add_line(&mut self.lines, &mut self.names, &mut self.numbers, line) {
            Ok(before) => Ok(before),
            Err(error) => {
                self.lines.clear();
                self.names.clear();
                self.numbers.clear();
                Err(error)
            }
        }
    }

    /// The last line with this key of its name; none for a name that no line can have.
    pub fn named(&self, key: Option<L::NameKey>) -> Option<&L>
        ensures { (test : L → Bool) → MatchOption key
            ((line : L) → length (L.spelled line) ≤ max_name → test line ≡ false)
            (λ k. (line : L) → L.NameKey.eq (L.name_of line) k ≡ test line)
            → option_copied result ≡ last_where test self.now }
    {
        let lines = self.lines.as_slice();
        match key {
            Some(key) => self.names.line(lines, &key),
            None => None,
        }
    }

    /// The last line with this key of its number.
    pub fn numbered(&self, key: &L::NumberKey) -> Option<&L>
        ensures { (test : L → Bool)
            → ((line : L) → L.NumberKey.eq (L.number_of line) key.now ≡ test line)
            → option_copied result ≡ last_where test self.now }
    {
        self.numbers.line(self.lines.as_slice(), key)
    }

    /// How many names the lines have.
    pub fn count(&self) -> usize
        ensures { result ≡ distinct_count L.NameKey.eq (map L.name_of self.now) }
    {
        self.names.count()
    }

    /// The key of a name, by its place among the names in the order of their first lines.
    pub fn name_at(&self, at: usize) -> Option<&L::NameKey>
        ensures { option_copied result ≡ slice_get
            (first_keys L.NameKey.eq (map L.name_of self.now)) at }
    {
        self.names.key(at)
    }
}
