ghost use Rattle.std.specs.Prelude.{◌≡◌, ◌++◌, ◌∷◌, [], map, OnOk, IfOk};
ghost use Rattle.std.specs.List.{list_any};
ghost use Rattle.std.specs.Str.{bytes_eq};
ghost use Rattle.avp_dict.specs.Values.{is_same_name};
ghost use Rattle.avp_dict.specs.Words.{lower};
ghost use Rattle.avp_dict.specs.internal.Tables.{IsTable};
ghost use Rattle.avp_dict.specs.internal.Views.{views};

use crate::tables::keys::folded_text;
use crate::tables::places::Places;
use avp_lists::Octets;
use std::alloc::{AllocError, Global};
use std::marker::Model;

/// Names, found without regard to ASCII case.
#[derive(Drop)]
pub struct NameSet<'a> {
    names: Vec<&'a [u8]>,
    table: Places<Octets>,
}

impl<'a> Model for NameSet<'a> {
    ghost use Rattle.std.specs.Prelude.{List, ℕ, map};
    ghost use Rattle.std.specs.Str.{bytes_eq};
    ghost use Rattle.avp_dict.specs.Words.{lower};
    ghost use Rattle.avp_dict.specs.internal.Tables.{IsTable};
    ghost use Rattle.avp_dict.specs.internal.Views.{views};

    ghost Value = { List (List ℕ) };

    ghost view = { λ s. views s.names.items };

    ghost invariant = { λ s. IsTable bytes_eq s.table (map (map lower) (views s.names.items)) };
}

// One more name, and its key.
fn add_name<'a>(
    alloc: Global,
    names: &mut Vec<&'a [u8]>,
    table: &mut Places<Octets>,
    name: &'a [u8],
) -> Result<(), AllocError>
    requires { IsTable bytes_eq table.old (map (map lower) (views names.old.items)) }
    ensures names { OnOk result (views names.new.items ≡ views names.old.items ++ name.now ∷ []) }
    ensures table { OnOk result (IsTable bytes_eq table.new
        (map (map lower) (views names.new.items))) }
{
    table.put(folded_text(alloc, name)?, names.len())?;
    names.push(name)?;
    Ok(())
}

impl<'a> NameSet<'a> {
    pub fn new(alloc: Global) -> NameSet<'a>
        ensures { result ≡ [] }
    {
        NameSet {
            names: Vec::new(alloc),
            table: Places::new(alloc),
        }
    }

    /// Adds a name. If memory runs out, all are dropped.
    pub fn push(&mut self, alloc: Global, name: &'a [u8]) -> Result<(), AllocError>
        ensures { OnOk result (self.new ≡ self.old ++ name.now ∷ []) }
    {
        match add_name(alloc, &mut self.names, &mut self.table, name) {
            Ok(()) => Ok(()),
            Err(error) => {
                self.names.clear();
                self.table.clear();
                Err(error)
            }
        }
    }

    /// Whether the name is one of the set.
    pub fn contains(&self, alloc: Global, name: &[u8]) -> Result<bool, AllocError>
        ensures { IfOk result (λ found. found ≡ list_any (is_same_name name.now) self.now) }
    {
        let folded = folded_text(alloc, name)?;
        Ok(self.table.contains(&folded))
    }
}
