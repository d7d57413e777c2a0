//! Tables from a key to the place of the last line that has it, and lists of lines with their tables.

ghost use Rattle.std.specs.Prelude.{◌≡◌};
ghost use Rattle.avp_dict.specs.internal.Agreeing.{differs};

mod attributes;
mod keyed;
mod keys;
mod names;
mod places;
mod values;
mod vendors;

pub use attributes::Attributes;
pub use names::NameSet;
pub use values::Values;
pub use vendors::Vendors;

// Whether something was found, and something else than this.
fn differs<T: Copy + PartialEq>(own: T, found: Option<T>) -> bool
    ensures { result ≡ differs T.eq own found }
{
    match found {
        Some(other) => other != own,
        None => false,
    }
}
