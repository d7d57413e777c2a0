ghost use Rattle.std.specs.Prelude.{◌≡◌};
ghost use Rattle.std.specs.List.{list_any};
ghost use Rattle.std.specs.Option.{option_copied};
ghost use Rattle.avp_dict.specs.Dictionary.{format_of, is_vendor_named, is_vendor_numbered, last_where, names_other_vendor, vendor_named};
ghost use Rattle.avp_dict.specs.internal.Agreeing.{AreAloneVendors};

use crate::entries::{VendorFormat, VendorLine};
use crate::tables::differs;
use crate::tables::keyed::{Keyed, KeyedLines};
use crate::tables::keys::FoldedName;

impl Keyed for VendorLine {
    ghost use Rattle.avp_dict.specs.internal.Tables.{vendor_key};

    type NameKey = FoldedName;

    type NumberKey = u32;

    ghost spelled = { λ v. v.name };

    ghost name_of = { vendor_key };

    ghost number_of = { λ v. v.number };

    fn name_key(&self) -> FoldedName {
        FoldedName::of_short(self.name.as_slice())
    }

    fn number_key(&self) -> u32 {
        self.number
    }
}

/// VENDOR lines in their order.
pub type Vendors = KeyedLines<VendorLine>;

impl KeyedLines<VendorLine> {
    /// The last line with this name, without regard to ASCII case.
    pub fn by_name(&self, name: &[u8]) -> Option<&VendorLine>
        ensures { option_copied result ≡ last_where (is_vendor_named name.now) self.now }
    {
        self.named(FoldedName::of(name))
    }

    /// The last line with this number.
    pub fn by_number(&self, number: u32) -> Option<&VendorLine>
        ensures { option_copied result ≡ last_where (is_vendor_numbered number) self.now }
    {
        self.numbered(&number)
    }

    /// The number of the vendor with this name.
    #[tactic(auto, unfolding(crate::specs::Dictionary::vendor_named))]
    pub fn vendor_named(&self, name: &[u8]) -> Option<u32>
        ensures { result ≡ vendor_named name.now self.now }
    {
        let line = self.by_name(name)?;
        Some(line.number)
    }

    /// Whether a line gives the name another number. The last line of the name tells.
    pub fn any_names_other_vendor(&self, name: &[u8], number: u32) -> bool
        requires { AreAloneVendors self.now }
        ensures { result ≡ list_any (names_other_vendor name.now number) self.now }
    {
        differs(number, self.vendor_named(name))
    }

    /// The format of a vendor: that of its last line.
    #[tactic(auto, unfolding(crate::specs::Dictionary::format_of))]
    pub fn format_of(&self, number: u32) -> Option<VendorFormat>
        ensures { result ≡ format_of number self.now }
    {
        let line = self.by_number(number)?;
        Some(line.format)
    }

    /// The same, for a line in the vendor's block: mostly the last VENDOR line of all is the vendor's.
    #[tactic(auto, unfolding(crate::specs::Dictionary::format_of))]
    pub fn format_in_block(&self, number: u32) -> Option<VendorFormat>
        ensures { result ≡ format_of number self.now }
    {
        match self.as_slice() {
            [.., last] if last.number == number => Some(last.format),
            _ => self.format_of(number),
        }
    }
}
