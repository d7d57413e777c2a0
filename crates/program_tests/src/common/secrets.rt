//! Which values are secret.

use attribute_tests::samples::{TEST_DICTIONARY, octets, read_dictionary};
use avp_lists::{AttrId, Value};
use radpolicy_common::{SecretAttributes, is_secret_name, is_secret_text};
use std::alloc::Global;
use std::process::Abort;
use std::test::Fail;

const SECRETS: &[u8] = b"ATTRIBUTE User-Name 1 string
ATTRIBUTE Class 25 octets encrypt=1
ATTRIBUTE Vendor-Specific 26 octets
ATTRIBUTE Proxy-State 33 octets
ATTRIBUTE cleartext-PASSWORD 1100 string
ATTRIBUTE NT-Password 1058 octets
ATTRIBUTE Password-Retry 75 integer
ATTRIBUTE Digest-HA1 121 string
ATTRIBUTE Acme-Shared-Secret 1200 string
ATTRIBUTE Secret 1201 string
ATTRIBUTE Secretary 1202 string
ATTRIBUTE Access-Code 1203 string
ATTRIBUTE Door-Key 1204 string
ATTRIBUTE Access-Number 1204 string
ATTRIBUTE Framed-IPv6-Prefix 97 ipv6prefix
ATTRIBUTE Framed-Interface-Id 96 ifid
ATTRIBUTE IPv6-6rd-Configuration 173 tlv
ATTRIBUTE Port-Range 241.6 tlv
ATTRIBUTE Port-Limit 241.7 integer
ATTRIBUTE Extended-Vendor-Specific-1 241.26 evs
VENDOR Acme 9000
BEGIN-VENDOR Acme
ATTRIBUTE Acme-Session-Id 5 octets encrypt=2
ATTRIBUTE Acme-Lock 6 octets
ATTRIBUTE Acme-Intercept 7 octets secret
ATTRIBUTE Acme-Tap 7 octets
ATTRIBUTE Acme-Token 8 string encrypt=3
END-VENDOR Acme
";

// Names of attributes, and whether they are secret by their words.
const NAMES: [(&str, bool); 39] = [
    ("User-Password", true),
    ("Password-With-Header", true),
    ("Ascend-Send-Passwd", true),
    ("Mimosa-ManagementPassword-Parameter", true),
    ("Mikrotik-Wireless-PSK", true),
    ("mikrotik-wireless-mpkey", true),
    ("Ruckus-Dpsk", true),
    ("Extreme-PPSK-PMK", true),
    ("ALU-AAA-Key-0", true),
    ("Acme_Key2_Hex", true),
    ("Acme.Secrets", true),
    ("Sky-Wifi-Credentials", true),
    ("Yubikey-OTP", true),
    ("Aruba-Network-SSO-Token", true),
    ("EAP-Sim-SRES1", true),
    ("WiMAX-SIM-Ki", true),
    ("Ericsson-ViG-Digest-Response", true),
    ("MS-CHAP2-CPW", true),
    ("X-Ascend-Ara-PW", true),
    ("pass", true),
    ("PSK", true),
    ("", false),
    ("User-Name", false),
    ("State", false),
    ("Challenge-State", false),
    ("Secretary", false),
    ("Cisco-IP-Phone-Bypass", false),
    ("DHCP-Bootp-Extensions-Path", false),
    ("Keypress-Timeout", false),
    ("Password-Retry", false),
    ("Brocade-Passwd-ExpiryDate", false),
    ("EAP-Key-Name", false),
    ("WiMAX-DHCP-RK-Key-Id", false),
    ("TLS-PSK-Identity", false),
    ("TLS-Client-Cert-X509v3-Extended-Key-Usage", false),
    ("ALU-AAA-Femto-Public-Key-Hash", false),
    ("Load-Balance-Key", false),
    ("Configuration-Token", false),
    ("OTP-Challenge", false),
];

#[test]
fn names_are_secret_by_their_words(rt: HostRuntime) {
    for (name, wanted) in NAMES {
        assert_eq!(rt; is_secret_name(name.as_bytes()), wanted, "{name}");
    }
}

// Attributes of these, and whether they are secret, whatever their values.
const ATTRIBUTES: [(AttrId, bool); 31] = [
    // By the words of their names; the last line of 1204 has another name than the one before it.
    (AttrId::Plain(25), true),
    (AttrId::Plain(121), true),
    (AttrId::Plain(1058), true),
    (AttrId::Plain(1100), true),
    (AttrId::Plain(1200), true),
    (AttrId::Plain(1201), true),
    (AttrId::Plain(1204), true),
    (AttrId::Plain(1), false),
    (AttrId::Plain(33), false),
    (AttrId::Plain(75), false),
    (AttrId::Plain(96), false),
    (AttrId::Plain(97), false),
    (AttrId::Plain(1202), false),
    (AttrId::Plain(1203), false),
    // By a mark.
    (AttrId::Vendor(9000, 5), true),
    (AttrId::Vendor(9000, 7), true),
    (AttrId::Vendor(9000, 8), true),
    (AttrId::Vendor(9000, 6), false),
    // Not split.
    (AttrId::Plain(26), true),
    (AttrId::Plain(241), true),
    (AttrId::Plain(246), true),
    (AttrId::Extended(241, 26), true),
    (AttrId::Extended(246, 26), true),
    // Of a type word that is not known.
    (AttrId::Plain(173), true),
    (AttrId::Extended(241, 6), true),
    // Not described.
    (AttrId::Plain(27), true),
    (AttrId::Plain(200), true),
    (AttrId::Vendor(9, 1), true),
    (AttrId::Vendor(9000, 9), true),
    (AttrId::Extended(241, 8), true),
    (AttrId::Extended(241, 7), false),
];

// Secret by their numbers, whatever the dictionary says, but for the first.
const NUMBERS: [(AttrId, bool); 13] = [
    (AttrId::Plain(1), false),
    (AttrId::Plain(2), true),
    (AttrId::Plain(3), true),
    (AttrId::Plain(60), true),
    (AttrId::Plain(69), true),
    (AttrId::Vendor(311, 1), true),
    (AttrId::Vendor(311, 11), true),
    (AttrId::Vendor(311, 12), true),
    (AttrId::Vendor(311, 16), true),
    (AttrId::Vendor(311, 17), true),
    (AttrId::Vendor(311, 25), true),
    (AttrId::Vendor(311, 26), true),
    (AttrId::Vendor(529, 214), true),
];

// The attributes of a dictionary that are secret are these.
fn expect_secret(
    rt: &impl Abort,
    alloc: Global,
    lines: &[u8],
    rows: &[(AttrId, bool)],
) -> Result<(), Fail> {
    let dictionary = read_dictionary(alloc, lines)?;
    let attributes = SecretAttributes::new(alloc, &dictionary)?;
    for (id, wanted) in rows {
        let found = attributes.is_secret(*id, &Value::Int(1));
        assert_eq!(rt; found, *wanted, "{id:?}");
    }
    Ok(())
}

#[test]
fn attributes_are_secret(rt: HostRuntime) -> Result<(), Fail> {
    expect_secret(&rt, rt.alloc(), SECRETS, &ATTRIBUTES)?;
    expect_secret(&rt, rt.alloc(), TEST_DICTIONARY, &NUMBERS)
}

// Texts, and whether they are secret by their keys.
const TEXTS: [(&str, bool); 19] = [
    ("psk=hunter2", true),
    ("tunnel-password=x", true),
    ("shell:cisco-password=x", true),
    ("ipsec:Preshared-Key = x", true),
    ("Your password =x", true),
    ("pass=", true),
    ("leap:session-key=x=y", true),
    ("=psk=x", true),
    ("a=psk=x", true),
    ("ssid=guest,psk=x", true),
    ("", false),
    ("psk", false),
    ("shell:priv-lvl=15", false),
    ("psk-length=8", false),
    ("password:user=bob", false),
    ("ip:inacl#1=permit secret", false),
    ("a=psk", false),
    ("a:b", false),
    ("psk:a=b=c", false),
];

#[test]
fn texts_are_secret_by_their_key(rt: HostRuntime) {
    for (text, wanted) in TEXTS {
        assert_eq!(rt; is_secret_text(text.as_bytes()), wanted, "{text}");
    }
}

#[test]
fn secret_texts_are_secret_of_any_attribute(rt: HostRuntime) -> Result<(), Fail> {
    let alloc = rt.alloc();
    let dictionary = read_dictionary(alloc, SECRETS)?;
    let attributes = SecretAttributes::new(alloc, &dictionary)?;
    let name = AttrId::Plain(1);
    for value in [
        Value::Text(octets(alloc, b"psk=hunter2")?),
        Value::Bytes(octets(alloc, b"psk=hunter2")?),
        Value::Raw(octets(alloc, b"psk=hunter2")?),
    ] {
        assert!(rt; attributes.is_secret(name, &value));
    }
    let other = Value::Raw(octets(alloc, b"skp=hunter2")?);
    assert!(rt; !attributes.is_secret(name, &other));
    Ok(())
}
