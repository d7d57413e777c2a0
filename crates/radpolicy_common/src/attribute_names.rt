//! The attributes that a command line names.

ghost use Rattle.std.specs.Prelude.{◌≡◌, None, Some, IfErr, IfOk, map, option_map};
ghost use Rattle.std.specs.List.{Contains};
ghost use Rattle.avp_dict.specs.Names.{named};

use avp_dict::Dictionary;
use avp_lists::AttrId;
use std::alloc::{AllocError, Global};

/// The attributes of these names; or the first of the names that the dictionary does not have.
pub fn named_attributes<'a>(
    alloc: Global,
    dictionary: &Dictionary,
    names: &[&'a str],
) -> Result<Result<Vec<AttrId>, &'a str>, AllocError>
    ensures ids { IfOk result (λ found. IfOk found (λ ids.
        map (λ name. option_map (λ entry. entry.id) (named name.now dictionary.now)) names.now
        ≡ map (λ id. Some id) ids.items)) }
    ensures unknown { IfOk result (λ found.
        IfErr found (λ name. named name.now dictionary.now ≡ None)) }
    ensures given { IfOk result (λ found. IfErr found (λ name. Contains names.now name)) }
{
    let mut ids = Vec::new(alloc);
    for name in names {
        match dictionary.by_name(name.as_bytes()) {
            Some(named) => ids.push(named.id)?,
            None => return Ok(Err(*name)),
        }
    }
    Ok(Ok(ids))
}
