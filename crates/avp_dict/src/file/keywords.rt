//! Keywords, type words and flags: the two keywords that most lines have as files mostly write them, the others in
//! lower case.

ghost use Rattle.std.specs.Prelude.{◌≡◌, codes};
ghost use Rattle.avp_dict.specs.Words.{same_name};

use crate::file::words::same_name;

pub const DOLLAR_INCLUDE: &[u8] = b"$include";

pub const DOLLAR_INCLUDE_IF_THERE: &[u8] = b"$include-";

pub const VENDOR: &[u8] = b"vendor";

pub const BEGIN_VENDOR: &[u8] = b"begin-vendor";

pub const END_VENDOR: &[u8] = b"end-vendor";

pub const BEGIN_TLV: &[u8] = b"begin-tlv";

pub const END_TLV: &[u8] = b"end-tlv";

pub const FORMAT_KEY: &[u8] = b"format=";

pub const STRING: &[u8] = b"string";

pub const OCTETS: &[u8] = b"octets";

pub const IPADDR: &[u8] = b"ipaddr";

pub const INTEGER: &[u8] = b"integer";

pub const DATE: &[u8] = b"date";

pub const BYTE: &[u8] = b"byte";

pub const SHORT: &[u8] = b"short";

pub const SIGNED: &[u8] = b"signed";

pub const INTEGER64: &[u8] = b"integer64";

pub const ETHER: &[u8] = b"ether";

pub const IPV6ADDR: &[u8] = b"ipv6addr";

pub const IPV6PREFIX: &[u8] = b"ipv6prefix";

pub const IPV4PREFIX: &[u8] = b"ipv4prefix";

pub const IFID: &[u8] = b"ifid";

pub const HAS_TAG: &[u8] = b"has_tag";

pub const ENCRYPT_1: &[u8] = b"encrypt=1";

pub const ENCRYPT_2: &[u8] = b"encrypt=2";

pub const ENCRYPT_3: &[u8] = b"encrypt=3";

pub const CONCAT: &[u8] = b"concat";

pub const ARRAY: &[u8] = b"array";

pub const SECRET: &[u8] = b"secret";

pub const VIRTUAL: &[u8] = b"virtual";

#[tactic(auto, using(crate::proofs::KeywordCases::attribute_in_capitals))]
#[inline(always)]
pub(crate) fn is_attribute_keyword(word: &[u8]) -> bool
    ensures { result ≡ same_name word.now (codes "attribute") }
{
    same_name(word, b"ATTRIBUTE")
}

#[tactic(auto, using(crate::proofs::KeywordCases::value_in_capitals))]
#[inline(always)]
pub(crate) fn is_value_keyword(word: &[u8]) -> bool
    ensures { result ≡ same_name word.now (codes "value") }
{
    same_name(word, b"VALUE")
}
