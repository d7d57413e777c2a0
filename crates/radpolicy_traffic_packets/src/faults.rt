//! Why lines make no packet.

ghost use Rattle.std.specs.Prelude.{◌≡◌};
ghost use Rattle.radpolicy_traffic_packets.specs.declared.faults.TextFault.TheVariants.{Memory};
ghost use Rattle.radpolicy_traffic_packets.specs.internal.Faults.{fault_of_encode, fault_of_line};

use avp_dict::{LineFault, LineKind};
use avp_packet::EncodeFault;
use std::alloc::AllocError;

/// Why lines make no packet.
#[derive(Clone, Copy, Debug, PartialEq, Eq)]
pub enum TextFault {
    /// The record had too many lines, and none of them are kept.
    TooLong,
    /// No packet of this type is written.
    OtherCode,
    /// A line is refused; its number counts the lines of the packet.
    Lines(LineFault),
    PacketTooLong,
    Memory,
}

impl From<AllocError> for TextFault {
    ghost from_gives = { λ _ fault. fault ≡ Memory };

    fn from(_error: AllocError) -> TextFault {
        TextFault::Memory
    }
}

impl From<LineFault> for TextFault {
    ghost from_gives = { λ fault given. given ≡ fault_of_line fault };

    fn from(fault: LineFault) -> TextFault {
        match fault.kind {
            LineKind::Memory => TextFault::Memory,
            _ => TextFault::Lines(fault),
        }
    }
}

impl From<EncodeFault> for TextFault {
    ghost from_gives = { λ fault given. given ≡ fault_of_encode fault };

    fn from(fault: EncodeFault) -> TextFault {
        match fault {
            EncodeFault::TooLong => TextFault::PacketTooLong,
            EncodeFault::Memory => TextFault::Memory,
        }
    }
}
