//! Files that are given for text, and that other programs read.

ghost use Rattle.std.specs.Prelude.{◌≡◌};
ghost use Rattle.radpolicy_common.specs.FileKinds.{begins_with, file_kind, is_capture, is_compressed};

/// What a file is that is no text.
#[derive(Clone, Copy, Debug, PartialEq, Eq)]
pub enum FileKind {
    /// Packets, as tcpdump and the like write them: pcap or pcapng.
    Capture,
    /// What gzip makes.
    Compressed,
}

// The octets with which pcap begins where a processor's lowest octet comes first, or last; with microseconds, or with
// nanoseconds; and those of pcapng.

fn begins_low(octets: &[u8]) -> bool
    ensures { result ≡ begins_with octets.now 212 195 178 161 }
{
    matches!(octets, [0xd4, 0xc3, 0xb2, 0xa1, ..])
}

fn begins_high(octets: &[u8]) -> bool
    ensures { result ≡ begins_with octets.now 161 178 195 212 }
{
    matches!(octets, [0xa1, 0xb2, 0xc3, 0xd4, ..])
}

fn begins_low_fine(octets: &[u8]) -> bool
    ensures { result ≡ begins_with octets.now 77 60 178 161 }
{
    matches!(octets, [0x4d, 0x3c, 0xb2, 0xa1, ..])
}

fn begins_high_fine(octets: &[u8]) -> bool
    ensures { result ≡ begins_with octets.now 161 178 60 77 }
{
    matches!(octets, [0xa1, 0xb2, 0x3c, 0x4d, ..])
}

fn begins_blocks(octets: &[u8]) -> bool
    ensures { result ≡ begins_with octets.now 10 13 13 10 }
{
    matches!(octets, [0x0a, 0x0d, 0x0d, 0x0a, ..])
}

fn is_capture(octets: &[u8]) -> bool
    ensures { result ≡ is_capture octets.now }
{
    begins_low(octets)
        || begins_high(octets)
        || begins_low_fine(octets)
        || begins_high_fine(octets)
        || begins_blocks(octets)
}

fn is_compressed(octets: &[u8]) -> bool
    ensures { result ≡ is_compressed octets.now }
{
    matches!(octets, [0x1f, 0x8b, ..])
}

/// What a file is that begins with these octets, if it is no text by the first of them.
pub fn file_kind(octets: &[u8]) -> Option<FileKind>
    ensures { result ≡ file_kind octets.now }
{
    if is_capture(octets) {
        Some(FileKind::Capture)
    } else if is_compressed(octets) {
        Some(FileKind::Compressed)
    } else {
        None
    }
}

impl FileKind {
    /// What it is, and what to do to have it read.
    pub fn advice(self) -> &'static str {
        match self {
            FileKind::Capture => {
                "this is a capture: make lines of it by tshark -r (REPLAY.md, From the wire)"
            }
            FileKind::Compressed => "this is compressed by gzip: give what gunzip -c makes of it",
        }
    }
}
