//! Attributes by their numbers, as C gives and sees them, and their names.

ghost use Rattle.std.specs.Prelude.{◌≡◌};
ghost use Rattle.avp_dict.specs.Names.{described, named};
ghost use Rattle.radpolicy_c.specs.Attributes.{TellsEntry, TellsNamed, attribute_given, attribute_shown, entry_there, extended_given, no_attribute};

use crate::lines::tell;
use crate::statuses::Status;
use avp_dict::Dictionary;
use avp_lists::AttrId;

/// An attribute.
#[repr(C)]
#[derive(Clone, Copy, Debug)]
pub struct RadpolicyAttribute {
    /// The vendor, or the type of an extended attribute, within which the attribute has its number.
    pub within: u32,
    pub number: u32,
    /// 0 a plain attribute, 1 a vendor's, 2 an extended one.
    pub kind: u8,
}

fn extended_given(within: u32, number: u32) -> Option<AttrId>
    ensures { result ≡ extended_given within number }
{
    if within <= 255 && number <= 255 {
        Some(AttrId::Extended(within as u8, number as u8))
    } else {
        None
    }
}

impl RadpolicyAttribute {
    /// What is told where there is no attribute.
    pub(crate) fn none() -> RadpolicyAttribute
        ensures { result ≡ no_attribute }
    {
        RadpolicyAttribute {
            within: 0,
            number: 0,
            kind: 0,
        }
    }

    pub(crate) fn of(id: AttrId) -> RadpolicyAttribute
        ensures { result ≡ attribute_shown id }
    {
        match id {
            AttrId::Plain(number) => RadpolicyAttribute {
                within: 0,
                number,
                kind: 0,
            },
            AttrId::Vendor(vendor, number) => RadpolicyAttribute {
                within: vendor,
                number,
                kind: 1,
            },
            AttrId::Extended(extended, number) => RadpolicyAttribute {
                within: u32::from(extended),
                number: u32::from(number),
                kind: 2,
            },
        }
    }

    /// The attribute, where the numbers name one.
    pub(crate) fn id(self) -> Option<AttrId>
        ensures { result ≡ attribute_given self }
    {
        match self.kind {
            0 => Some(AttrId::Plain(self.number)),
            1 => Some(AttrId::Vendor(self.within, self.number)),
            2 => extended_given(self.within, self.number),
            _ => None,
        }
    }
}

/// Tells the attribute for which a name stands.
pub(crate) fn tell_named(
    dictionary: &Dictionary,
    name: &[u8],
    told: &mut RadpolicyAttribute,
) -> Status
    ensures { TellsNamed result (named name.now dictionary.now) told.new }
{
    match dictionary.by_name(name) {
        Some(found) => {
            *told = RadpolicyAttribute::of(found.id);
            Status::Done
        }
        None => {
            *told = RadpolicyAttribute::none();
            Status::NotThere
        }
    }
}

fn tell_name_of(
    dictionary: &Dictionary,
    id: AttrId,
    room: &mut [u8],
    name_length: &mut usize,
) -> Status
    ensures { TellsEntry result (described id dictionary.now) name_length.new room.old room.new }
{
    match dictionary.by_id(id) {
        Some(entry) => tell(Status::Done, entry.name, room, name_length),
        None => {
            *name_length = 0;
            Status::NotThere
        }
    }
}

/// Tells the name of the attribute of these numbers at the front of the room.
pub(crate) fn tell_name(
    dictionary: &Dictionary,
    asked: RadpolicyAttribute,
    room: &mut [u8],
    name_length: &mut usize,
) -> Status
    ensures { TellsEntry result (entry_there (attribute_given asked) dictionary.now)
        name_length.new room.old room.new }
{
    match asked.id() {
        Some(id) => tell_name_of(dictionary, id, room, name_length),
        None => {
            *name_length = 0;
            Status::NotThere
        }
    }
}
