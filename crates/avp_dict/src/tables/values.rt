ghost use Rattle.std.specs.Prelude.{◌≡◌, ◌≤◌, ◌++◌, ◌∷◌, [], length, slice_get, IfOk, OnOk};
ghost use Rattle.std.specs.List.{list_any};
ghost use Rattle.std.specs.Option.{option_and_then, option_copied, option_map};
ghost use Rattle.avp_dict.specs.Dictionary.{is_number_found, is_value_named, is_value_numbered, last_where, name_numbered, names_other_value, number_named, number_of_line, tagged_name_numbered};
ghost use Rattle.avp_dict.specs.Letters.{max_name};
ghost use Rattle.avp_dict.specs.internal.Agreeing.{AreAloneValues};

use crate::entries::ValueLine;
use crate::tables::differs;
use crate::tables::keyed::{Keyed, KeyedLines};
use crate::tables::keys::{FoldedName, IdKey, id_key};
use avp_lists::AttrId;
use std::alloc::AllocError;

impl Keyed for ValueLine {
    ghost use Rattle.avp_dict.specs.internal.Tables.{value_name_key, value_number_key};

    type NameKey = (IdKey, FoldedName);

    type NumberKey = (IdKey, u64);

    ghost spelled = { λ v. v.name };

    ghost name_of = { value_name_key };

    ghost number_of = { value_number_key };

    fn name_key(&self) -> (IdKey, FoldedName) {
        (id_key(self.id), FoldedName::of_short(self.name.as_slice()))
    }

    fn number_key(&self) -> (IdKey, u64) {
        (id_key(self.id), self.number)
    }
}

fn is_number_found(number: u64, found: Option<u64>) -> bool
    ensures { result ≡ is_number_found number found }
{
    match found {
        Some(other) => other == number,
        None => false,
    }
}

/// VALUE lines in their order.
pub type Values = KeyedLines<ValueLine>;

impl KeyedLines<ValueLine> {
    /// The last line that gives the attribute's values this name, without regard to ASCII case.
    pub fn by_name(&self, id: AttrId, name: &[u8]) -> Option<&ValueLine>
        ensures { option_copied result ≡ last_where (is_value_named id name.now) self.now }
    {
        match FoldedName::of(name) {
            Some(folded) => self.named(Some((id_key(id), folded))),
            None => self.named(None),
        }
    }

    /// The last line that names this number of the attribute.
    pub fn by_number(&self, id: AttrId, number: u64) -> Option<&ValueLine>
        ensures { option_copied result ≡ last_where (is_value_numbered id number) self.now }
    {
        self.numbered(&(id_key(id), number))
    }

    /// The number that a name of an attribute's values stands for.
    #[tactic(auto, unfolding(crate::specs::Dictionary::number_named))]
    pub fn number_named(&self, id: AttrId, name: &[u8]) -> Option<u64>
        ensures { result ≡ number_named id name.now self.now }
    {
        let line = self.by_name(id, name)?;
        Some(line.number)
    }

    // The number of the line at a place.
    fn number_at(&self, place: Option<usize>) -> Option<u64>
        ensures { result
            ≡ option_map number_of_line (option_and_then (slice_get self.now) place) }
    {
        let line = self.as_slice().get(place?)?;
        Some(line.number)
    }

    /// Adds a line, and tells whether one before it gives its name another number. The last line of the name tells.
    pub fn push_number(&mut self, line: ValueLine) -> Result<bool, AllocError>
        requires short { length line.name ≤ max_name }
        requires agreeing { AreAloneValues self.old }
        ensures line { OnOk result (self.new ≡ self.old ++ line ∷ []) }
        ensures other { IfOk result (λ other. other
            ≡ list_any (names_other_value line.id line.name line.number) self.old) }
    {
        let number = line.number;
        let place = self.put(line)?;
        Ok(differs(number, self.number_at(place)))
    }

    /// The printed name of a number: the last one.
    #[tactic(auto, unfolding(crate::specs::Dictionary::name_numbered))]
    pub fn name_numbered(&self, id: AttrId, number: u64) -> Option<&[u8]>
        ensures { option_copied result ≡ name_numbered id number self.now }
    {
        let line = self.by_number(id, number)?;
        Some(line.name.as_slice())
    }

    /// The printed name of a number beside a tag: the last one, unless a later line gives that name another number.
    #[tactic(auto, unfolding(crate::specs::Dictionary::tagged_name_numbered))]
    pub fn tagged_name_numbered(&self, id: AttrId, number: u64) -> Option<&[u8]>
        ensures { option_copied result ≡ tagged_name_numbered id number self.now }
    {
        let name = self.name_numbered(id, number)?;
        if is_number_found(number, self.number_named(id, name)) {
            Some(name)
        } else {
            None
        }
    }
}
