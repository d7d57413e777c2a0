//! Proxy-States in the octets of a reply packet.

ghost use Rattle.std.specs.Prelude.{◌≡◌, drop};
ghost use Rattle.avp_packet.specs.internal.Views.{item_view};
ghost use Rattle.radpolicy_common.specs.ProxyStates.{has_hidden_proxy_state, is_hidden_proxy_state, sends_hidden_proxy_state};

use crate::redactions::Redaction;
use avp_lists::AttrId;
use avp_packet::{Attribute, BadLength, attributes};

/// Proxy-State (RFC 2865, section 5.33).
pub const PROXY_STATE: u8 = 33;

fn is_hidden_proxy_state(redaction: &Redaction<'_>, item: &Result<Attribute<'_>, BadLength>) -> bool
    ensures { result ≡ is_hidden_proxy_state redaction.now (item_view item.now) }
{
    match item {
        Ok(attribute) => {
            attribute.number == PROXY_STATE
                && redaction.hides_octets(AttrId::Plain(u32::from(PROXY_STATE)), attribute.value)
        }
        Err(_) => false,
    }
}

fn has_hidden_proxy_state(redaction: &Redaction<'_>, octets: &[u8]) -> bool
    ensures { result ≡ has_hidden_proxy_state redaction.now octets.now }
{
    for item in attributes(octets) {
        if is_hidden_proxy_state(redaction, &item) {
            return true;
        }
    }
    false
}

// The attributes of a packet, behind its head.
fn attribute_octets(packet: &[u8]) -> &[u8]
    ensures { result.now ≡ drop 20 packet.now }
{
    &packet[packet.len().min(20)..]
}

/// Whether a reply packet has a Proxy-State that is not to be shown: a reply has those of its request, whatever its policy
/// does.
pub fn sends_hidden_proxy_state(redaction: &Redaction<'_>, packet: &[u8]) -> bool
    ensures { result ≡ sends_hidden_proxy_state redaction.now packet.now }
{
    has_hidden_proxy_state(redaction, attribute_octets(packet))
}
