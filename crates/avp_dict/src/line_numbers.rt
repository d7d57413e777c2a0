//! The numbers of a text's lines.

ghost use Rattle.std.specs.Prelude.{◌≡◌};
ghost use Rattle.avp_dict.specs.LineNumbers.{line_after};
ghost use Rattle.avp_dict.specs.Lines.{is_line_end};

fn is_line_end(octet: u8) -> bool
    ensures { result ≡ is_line_end octet }
{
    octet == b'\n'
}

/// The number, from 1 on, of the line on which a text goes on after these octets.
///
/// ```rust
/// assert_eq!(rt; line_after(b"update reply {\n  Class "), 2);
/// ```
pub fn line_after(front: &[u8]) -> usize
    ensures { result ≡ line_after front.now }
{
    1 + front.iter().filter(|octet| is_line_end(**octet)).count()
}
