//! The functions of a dictionary's attributes that C calls. `c/radpolicy.h` says what C has to keep.

ghost use Rattle.std.specs.Prelude.{◌≡◌};
ghost use Rattle.radpolicy_c.specs.Attributes.{TellsAttribute, TellsName};
ghost use Rattle.radpolicy_c.specs.Dictionaries.{dictionary_held};
ghost use Rattle.radpolicy_c.specs.Statuses.{number_of};
ghost use Rattle.radpolicy_c.specs.declared.statuses.Status.{Status as Ending};

use crate::attributes::RadpolicyAttribute;
use crate::dictionaries::RadpolicyDictionary;
use std::alloc::Global;

/// Tells the attribute for which a name stands in a dictionary.
#[unsafe(no_mangle)]
pub extern "C" fn radpolicy_attribute_named(
    alloc: Global,
    dictionary: &mut RadpolicyDictionary,
    name: &[u8],
    attribute: &mut RadpolicyAttribute,
) -> u8
    ensures kept { dictionary_held dictionary.new ≡ dictionary_held dictionary.old }
    ensures tells { (status : Ending)
        × TellsAttribute status name.now (dictionary_held dictionary.old) attribute.new
        × (result ≡ number_of status) }
{
    dictionary.tell_attribute(alloc, name, attribute).number()
}

/// Tells the name that a dictionary has for an attribute. It goes to the front of the room.
#[unsafe(no_mangle)]
pub extern "C" fn radpolicy_attribute_name(
    alloc: Global,
    dictionary: &mut RadpolicyDictionary,
    attribute: &RadpolicyAttribute,
    room: &mut [u8],
    name_length: &mut usize,
) -> u8
    ensures kept { dictionary_held dictionary.new ≡ dictionary_held dictionary.old }
    ensures tells { (status : Ending)
        × TellsName status attribute.now (dictionary_held dictionary.old) name_length.new room.old
        room.new × (result ≡ number_of status) }
{
    dictionary
        .tell_name(alloc, *attribute, room, name_length)
        .number()
}
