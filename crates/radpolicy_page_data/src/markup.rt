//! Texts in HTML.

ghost use Rattle.std.specs.Prelude.{◌≡◌, ◌++◌, true, IfOk, OnOk};
ghost use Rattle.std.specs.List.{list_all};
ghost use Rattle.radpolicy_page_data.specs.Embedding.{is_no_tag, markup_octet, markup_text};

use crate::json::is_embeddable;
use std::alloc::{AllocError, Global};

fn push_markup_octet(text: &mut Vec<u8>, octet: u8) -> Result<(), AllocError>
    ensures text { OnOk result (text.new.items ≡ text.old.items ++ markup_octet octet) }
    ensures no_tag { list_all is_no_tag text.old.items ≡ true
        → OnOk result (list_all is_no_tag text.new.items ≡ true) }
{
    match octet {
        b'<' => text.extend_from_slice(b"&lt;")?,
        b'>' => text.extend_from_slice(b"&gt;")?,
        b'&' => text.extend_from_slice(b"&amp;")?,
        _ if octet == b'\n' || is_embeddable(octet) => text.push(octet)?,
        _ => text.extend_from_slice(b"?")?,
    }
    Ok(())
}

/// Octets as a text in HTML.
#[tactic(auto, unfolding(crate::specs::Embedding::markup_text))]
pub(crate) fn markup_text(alloc: Global, octets: &[u8]) -> Result<Vec<u8>, AllocError>
    ensures text { IfOk result (λ text. text.items ≡ markup_text octets.now) }
    ensures no_tag { IfOk result (λ text. list_all is_no_tag text.items ≡ true) }
{
    let mut text = Vec::new(alloc);
    for octet in octets {
        push_markup_octet(&mut text, *octet)?;
    }
    Ok(text)
}
