//! Keys of tables: names without regard to case, and ids.

ghost use Rattle.std.specs.Prelude.{◌≡◌, ◌≤◌, ◌<◌, length, map, take, IfOk, IfSome, IfNone};
ghost use Rattle.avp_dict.specs.Letters.{max_name};
ghost use Rattle.avp_dict.specs.Words.{lower};
ghost use Rattle.avp_dict.specs.internal.Tables.{id_key};

use crate::file::lanes::{LANES, fold_sixteen};
use crate::file::words::{MAX_NAME, lower};
use avp_lists::{AttrId, Octets};
use std::alloc::{AllocError, Global};
use std::hash::{Hash, Hasher};
use std::marker::Model;

/// A name in lower case, which takes no memory of an allocator.
#[derive(Drop)]
pub struct FoldedName {
    octets: [u8; MAX_NAME],
    size: usize,
}

impl Model for FoldedName {
    ghost use Rattle.std.specs.Prelude.{◌≤◌, ℕ, List, take};
    ghost use Rattle.avp_dict.specs.Letters.{max_name};

    ghost Value = { List ℕ };

    ghost view = { λ f. take f.size f.octets };

    ghost invariant = { λ f. f.size ≤ max_name };
}

// The name in lower case, in the first octets of a buffer, sixteen at a time.
fn folded(name: &[u8]) -> [u8; MAX_NAME]
    requires { length name.now ≤ max_name }
    ensures { take (length name.now) result ≡ map lower name.now }
{
    let mut octets = [0; MAX_NAME];
    octets[..name.len()].copy_from_slice(name);
    let mut i = 0;
    while i < name.len() {
        fold_sixteen(&mut octets[i..]);
        i += LANES;
    }
    octets
}

impl FoldedName {
    /// The name in lower case, where it is no longer than a name can be.
    pub fn of(name: &[u8]) -> Option<FoldedName>
        ensures folded { IfSome result (λ f. f ≡ map lower name.now) }
        ensures long { IfNone result (max_name < length name.now) }
    {
        if name.len() > MAX_NAME {
            return None;
        }
        Some(FoldedName::of_short(name))
    }

    /// The name in lower case.
    pub fn of_short(name: &[u8]) -> FoldedName
        requires { length name.now ≤ max_name }
        ensures { result ≡ map lower name.now }
    {
        FoldedName {
            octets: folded(name),
            size: name.len(),
        }
    }

    pub fn as_slice(&self) -> &[u8]
        ensures { result.now ≡ self.now }
    {
        &self.octets[..self.size]
    }
}

impl PartialEq for FoldedName {
    ghost use Rattle.std.specs.Str.{bytes_eq};
    ghost use Rattle.std.proofs.Common.{rules};
    ghost use Rattle.std.specs.Cmp.Rules.{comparing};

    ghost eq = { bytes_eq };

    ghost laws = { Prim.search (comparing, rules) };

    fn eq(&self, other: &FoldedName) -> bool {
        self.as_slice() == other.as_slice()
    }
}

impl Eq for FoldedName {
    ghost use Rattle.std.proofs.Common.{rules};
    ghost use Rattle.std.specs.Cmp.Rules.{comparing};

    ghost laws = { Prim.search (comparing, rules) };
}

impl Hash for FoldedName {
    ghost use Rattle.std.specs.Prelude.{List, ℕ, ◌≡◌, [], ◌∷◌};
    ghost use Rattle.std.proofs.Common.{ap};
    ghost use Rattle.std.specs.Cmp.Lexicographic.{bytes_decides};

    ghost hash_input = { λ f. f ∷ [] };

    ghost respects_eq = { λ x y h. ap (λ (f : List ℕ). f ∷ []) ((bytes_decides x y).0 h) };

    fn hash<H: Hasher>(&self, state: &mut H) {
        state.write(self.as_slice());
    }
}

/// A name of any length in lower case.
pub fn folded_text(alloc: Global, name: &[u8]) -> Result<Octets, AllocError>
    ensures { IfOk result (λ f. f ≡ map lower name.now) }
{
    let mut octets = Vec::with_capacity(alloc, name.len())?;
    for octet in name {
        octets.push(lower(*octet))?;
    }
    Ok(Octets::from_vec(octets))
}

/// An id as a key: its kind, and its numbers.
#[derive(Drop)]
pub struct IdKey {
    kind: u8,
    first: u32,
    second: u32,
}

impl Model for IdKey {
    ghost use Rattle.std.specs.Prelude.{ℕ};

    ghost Value = { ℕ × (ℕ × ℕ) };

    ghost view = { λ k. (k.kind, (k.first, k.second)) };
}

impl PartialEq for IdKey {
    ghost use Rattle.std.proofs.Common.{rules};
    ghost use Rattle.std.specs.Cmp.Rules.{comparing};
    ghost use Rattle.avp_dict.specs.internal.Tables.{same_id_key};

    ghost eq = { same_id_key };

    ghost laws = { Prim.search (comparing, rules) };

    fn eq(&self, other: &IdKey) -> bool {
        self.kind == other.kind && (self.first == other.first && self.second == other.second)
    }
}

impl Eq for IdKey {
    ghost use Rattle.std.proofs.Common.{rules};
    ghost use Rattle.std.specs.Cmp.Rules.{comparing};

    ghost laws = { Prim.search (comparing, rules) };
}

// By the numbers alone, in one step: few ids of different kinds have the same.
impl Hash for IdKey {
    ghost use Rattle.std.specs.Hash as fed;
    ghost use Rattle.std.specs.Prelude.{◌+◌, ◌*◌, ◌^◌};
    ghost use Rattle.std.proofs.Common.{rules};
    ghost use Rattle.std.specs.Cmp.Rules.{hashing};

    ghost hash_input = { λ k. fed.u64 (k.1.0 * 4294967296 + k.1.1) };

    ghost respects_eq = { Prim.search (hashing, rules) };

    fn hash<H: Hasher>(&self, state: &mut H) {
        state.write_u64(u64::from(self.first) * 0x1_0000_0000 + u64::from(self.second));
    }
}

pub fn id_key(id: AttrId) -> IdKey
    ensures { result ≡ id_key id }
{
    let (kind, first, second) = match id {
        AttrId::Plain(number) => (0, number, 0),
        AttrId::Vendor(vendor, number) => (1, vendor, number),
        AttrId::Extended(t, number) => (2, u32::from(t), u32::from(number)),
    };
    IdKey {
        kind,
        first,
        second,
    }
}
