//! Names by number: `Attr-N`, `Attr-T.N` and `Attr-26.V.N`.

ghost use Rattle.std.specs.Prelude.{◌≡◌, ◌∷◌, ℕ, Option, Some};
ghost use Rattle.std.specs.List.{slice_split};
ghost use Rattle.avp_dict.specs.Letters.{is_dot};
ghost use Rattle.avp_dict.specs.Names.{extended_numbered, id_numbered, is_vendor_specific, plain_numbered, vendor_id_numbered};
ghost use Rattle.avp_dict.specs.internal.Numbers.{Reads};

use crate::attribute_numbers::{MAX_PLAIN, VENDOR_SPECIFIC};
use crate::file::attributes::extended_id;
use crate::file::numbers::{GREATEST_NUMBER, Number, digits};
use crate::file::parts::first_between;
use crate::file::settling::is_in_format;
use crate::tables::Vendors;
use avp_lists::AttrId;

fn plain_numbered(n: Number) -> Option<AttrId>
    ensures { (number : Option ℕ) → Reads n number → result ≡ plain_numbered number }
{
    match n {
        Number::Unreadable | Number::TooGreat => None,
        Number::Is(n) => {
            if n <= u64::from(MAX_PLAIN) {
                Some(AttrId::Plain(n as u32))
            } else {
                None
            }
        }
    }
}

fn extended_numbered(t: Number, n: Number) -> Option<AttrId>
    ensures { (first second : Option ℕ) → Reads t first → Reads n second → result
        ≡ extended_numbered first second }
{
    match (t, n) {
        (Number::Is(t), Number::Is(n)) => extended_id(0, t, n),
        _ => None,
    }
}

#[tactic(auto, using(crate::proofs::Numbered::number_past))]
fn id_of_vendor(vendors: &Vendors, v: u64, n: Number) -> Option<AttrId>
    ensures { (number : Option ℕ) → Reads n number → result
        ≡ vendor_id_numbered vendors.now (Some v) number }
{
    match n {
        Number::Unreadable | Number::TooGreat => None,
        Number::Is(n) => {
            if v <= GREATEST_NUMBER && is_in_format(vendors, v as u32, n) {
                Some(AttrId::Vendor(v as u32, n as u32))
            } else {
                None
            }
        }
    }
}

#[tactic(auto, using(crate::proofs::Numbered::vendor_past))]
fn vendor_id_numbered(vendors: &Vendors, v: Number, n: Number) -> Option<AttrId>
    ensures { (vendor number : Option ℕ) → Reads v vendor → Reads n number → result
        ≡ vendor_id_numbered vendors.now vendor number }
{
    match v {
        Number::Unreadable | Number::TooGreat => None,
        Number::Is(v) => id_of_vendor(vendors, v, n),
    }
}

fn is_vendor_specific(t: Number) -> bool
    ensures { (number : Option ℕ) → Reads t number → result ≡ is_vendor_specific number }
{
    match t {
        Number::Is(t) => t == u64::from(VENDOR_SPECIFIC),
        Number::Unreadable | Number::TooGreat => false,
    }
}

// The id of three parts or more, after the first two.
fn id_by_parts(vendors: &Vendors, t: &[u8], v: &[u8], rest: &[u8]) -> Option<AttrId>
    ensures { result ≡ id_numbered vendors.now (t.now ∷ (v.now ∷ slice_split is_dot rest.now)) }
{
    match first_between(b'.', rest) {
        None => {
            if is_vendor_specific(digits(10, t)) {
                vendor_id_numbered(vendors, digits(10, v), digits(10, rest))
            } else {
                None
            }
        }
        Some(_) => None,
    }
}

/// The id of the numbers after `Attr-`.
pub fn id_by_numbers(vendors: &Vendors, numbers: &[u8]) -> Option<AttrId>
    ensures { result ≡ id_numbered vendors.now (slice_split is_dot numbers.now) }
{
    match first_between(b'.', numbers) {
        None => plain_numbered(digits(10, numbers)),
        Some((t, rest)) => match first_between(b'.', rest) {
            None => extended_numbered(digits(10, t), digits(10, rest)),
            Some((v, rest)) => id_by_parts(vendors, t, v, rest),
        },
    }
}
