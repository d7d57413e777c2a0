//! What a packet's values are read and written by.

ghost use Rattle.std.specs.Prelude.{◌≡◌, true, Some, IfSome};
ghost use Rattle.std.proofs.Props.{props};
ghost use Rattle.avp_dict.specs.Octets.{is_hidden, kind_of};
ghost use Rattle.avp_dict.specs.Vendors.{is_format};
ghost use Rattle.avp_packet.specs.Packets.{hiding_authenticator};
ghost use Rattle.avp_packet.specs.VendorFormats.{known_format};

use crate::attribute::subattributes::known_format;
use crate::authenticators::ZEROS;
use crate::packets::{ACCOUNTING_REQUEST, ACCOUNTING_RESPONSE};
use avp_dict::{Dictionary, Format, Kind};
use avp_lists::AttrId;

/// The type of an id's values, and whether they are hidden.
#[derive(Clone, Copy)]
pub(crate) struct ValueTyping {
    pub kind: Option<Kind>,
    pub hidden: bool,
}

/// An id and its typing.
#[derive(Clone, Copy)]
pub(crate) struct KnownId {
    pub id: AttrId,
    pub typing: ValueTyping,
}

/// A vendor and its format.
#[derive(Clone, Copy)]
pub(crate) struct KnownVendor {
    pub number: u32,
    pub format: Format,
}

/// What a packet's values are read and written by: the dictionary of its attributes, the secret, which is empty where
/// none is known, and an authenticator.
/// `authenticator` is what hides passwords where values are read or written, and the Request Authenticator where a
/// packet is signed.
#[derive(Clone, Copy)]
pub(crate) struct Keys<'a> {
    pub dictionary: &'a Dictionary,
    pub secret: &'a [u8],
    pub authenticator: &'a [u8; 16],
    // What the dictionary said last: attributes of one id, and of one vendor, mostly follow one another.
    pub last_id: Option<KnownId>,
    pub last_vendor: Option<KnownVendor>,
    ghost kind: { IfSome last_id (λ known.
        known.typing.kind ≡ kind_of known.id dictionary.now) } by { Prim.hlevel props },
    ghost hidden: { IfSome last_id (λ known.
        known.typing.hidden ≡ is_hidden known.id dictionary.now) } by { Prim.hlevel props },
    ghost format: { IfSome last_vendor (λ known.
        known_format known.number dictionary.now ≡ Some known.format) } by { Prim.hlevel props },
    ghost usable: { IfSome last_vendor (λ known.
        is_format known.format.t known.format.l ≡ true) } by { Prim.hlevel props },
}

fn value_typing(dictionary: &Dictionary, id: AttrId) -> ValueTyping
    ensures kind { result.kind ≡ kind_of id dictionary.now }
    ensures hidden { result.hidden ≡ is_hidden id dictionary.now }
{
    match dictionary.by_id(id) {
        Some(entry) => ValueTyping {
            kind: Some(entry.kind),
            hidden: entry.hidden,
        },
        None => ValueTyping {
            kind: None,
            hidden: false,
        },
    }
}

impl Keys<'_> {
    /// Whether an id's values are hidden.
    pub fn is_hidden(&self, id: AttrId) -> bool
        ensures { result ≡ is_hidden id self.now.dictionary.now }
    {
        self.dictionary.is_hidden(id)
    }

    /// How an id's values are read and written.
    #[inline(always)]
    pub fn typing(&self, id: AttrId) -> ValueTyping
        ensures kind { result.kind ≡ kind_of id self.now.dictionary.now }
        ensures hidden { result.hidden ≡ is_hidden id self.now.dictionary.now }
    {
        match self.last_id {
            Some(known) if known.id.equals(id) => known.typing,
            _ => value_typing(self.dictionary, id),
        }
    }

    /// A vendor's format.
    #[inline(always)]
    pub fn format(&self, vendor: u32) -> Option<Format>
        ensures format { result ≡ known_format vendor self.now.dictionary.now }
        ensures usable { IfSome result (λ f. is_format f.t f.l ≡ true) }
    {
        match self.last_vendor {
            Some(known) if known.number == vendor => Some(known.format),
            _ => known_format(self.dictionary, vendor),
        }
    }

    // Asks for a vendor's format, unless it is known.
    fn know_vendor(&mut self, number: u32)
        ensures dictionary { self.new.dictionary.now ≡ self.old.dictionary.now }
        ensures secret { self.new.secret.now ≡ self.old.secret.now }
        ensures authenticator { self.new.authenticator.now ≡ self.old.authenticator.now }
    {
        if let Some(known) = self.last_vendor
            && known.number == number
        {
            return;
        }
        if let Some(format) = known_format(self.dictionary, number) {
            self.last_vendor = Some(KnownVendor { number, format });
        }
    }

    // Asks for an id's typing and its vendor's format.
    #[inline(always)]
    fn learn(&mut self, id: AttrId) -> ValueTyping
        ensures kind { result.kind ≡ kind_of id self.old.dictionary.now }
        ensures hidden { result.hidden ≡ is_hidden id self.old.dictionary.now }
        ensures dictionary { self.new.dictionary.now ≡ self.old.dictionary.now }
        ensures secret { self.new.secret.now ≡ self.old.secret.now }
        ensures authenticator { self.new.authenticator.now ≡ self.old.authenticator.now }
    {
        let typing = value_typing(self.dictionary, id);
        self.last_id = Some(KnownId { id, typing });
        if let AttrId::Vendor(number, _) = id {
            self.know_vendor(number);
        }
        typing
    }

    /// The typing of an id. It and the format of its vendor are asked for, unless they are known, and known from then on.
    #[inline(always)]
    pub fn know(&mut self, id: AttrId) -> ValueTyping
        ensures kind { result.kind ≡ kind_of id self.old.dictionary.now }
        ensures hidden { result.hidden ≡ is_hidden id self.old.dictionary.now }
        ensures dictionary { self.new.dictionary.now ≡ self.old.dictionary.now }
        ensures secret { self.new.secret.now ≡ self.old.secret.now }
        ensures authenticator { self.new.authenticator.now ≡ self.old.authenticator.now }
    {
        match self.last_id {
            Some(known) if known.id.equals(id) => known.typing,
            _ => self.learn(id),
        }
    }
}

/// What the first block of a password is hidden by.
pub(crate) fn hiding_authenticator(code: u8, authenticator: &[u8; 16]) -> [u8; 16]
    ensures { result ≡ hiding_authenticator code authenticator.now }
{
    if code == ACCOUNTING_REQUEST || code == ACCOUNTING_RESPONSE {
        ZEROS
    } else {
        *authenticator
    }
}
