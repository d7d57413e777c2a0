//! Whether a dictionary keeps the names of another.

ghost use Rattle.std.specs.Prelude.{IsTrue};
ghost use Rattle.radpolicy_import_policies.specs.KeptNames.{KeepsId, KeepsName, KeepsNames};

use avp_dict::Dictionary;
use avp_lists::AttrId;

fn keeps_id(old: &Dictionary, new: &Dictionary, id: AttrId) -> bool
    ensures { IsTrue result → KeepsId old.now new.now id }
{
    let is_described_alike = match (old.by_id(id), new.by_id(id)) {
        (Some(own), Some(other)) => {
            own.name == other.name && own.kind == other.kind && own.hidden == other.hidden
        }
        (None, None) => true,
        _ => false,
    };
    is_described_alike && old.form(id) == new.form(id)
}

fn keeps_name(old: &Dictionary, new: &Dictionary, name: &[u8]) -> bool
    ensures { IsTrue result → KeepsName old.now new.now name.now }
{
    match (old.by_name(name), new.by_name(name)) {
        (None, _) => true,
        (Some(own), Some(other)) => {
            own.raw == other.raw && own.id.equals(other.id) && keeps_id(old, new, own.id)
        }
        (Some(_), None) => false,
    }
}

/// Whether each name of a dictionary stands in another one for the id that it had, with the same printed name, type and
/// form.
pub fn keeps_names(old: &Dictionary, new: &Dictionary) -> bool
    ensures { IsTrue result → KeepsNames old.now new.now }
{
    for at in 0..usize::MAX {
        let Some(name) = old.attribute_name(at) else {
            return true;
        };
        if !keeps_name(old, new, name) {
            return false;
        }
    }
    false
}
