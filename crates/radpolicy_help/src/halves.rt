//! What is shown of a line whose end may be hidden, before a place and from there on.

ghost use Rattle.std.specs.Prelude.{◌≡◌, IfOk};
ghost use Rattle.radpolicy_help.specs.Halves.{back_shown, front_shown};

use std::alloc::{AllocError, Global};

/// What stands for what is hidden.
pub(crate) const HIDDEN: &str = "(hidden)";

/// What is shown of a line before a place, and from there on.
#[derive(Drop)]
pub(crate) struct Halves<'a> {
    pub front: &'a [u8],
    pub back: Vec<u8>,
}

fn back_shown(alloc: Global, kept: usize, front: &[u8], back: &[u8]) -> Result<Vec<u8>, AllocError>
    ensures { IfOk result (λ text. text.items ≡ back_shown kept front.now back.now) }
{
    if front.len() + back.len() <= kept {
        return Vec::from_slice(alloc, back);
    }
    let (shown, _) = back.split_at(kept.saturating_sub(front.len()).min(back.len()));
    let mut text = Vec::from_slice(alloc, shown)?;
    text.extend_from_slice(HIDDEN.as_bytes())?;
    Ok(text)
}

impl<'a> Halves<'a> {
    /// What is shown of a line of these octets before and after a place, of which no more than so many are shown.
    #[tactic(auto, using(std::proofs::lemmas::List::take_min))]
    pub(crate) fn of(
        alloc: Global,
        kept: usize,
        front: &'a [u8],
        back: &[u8],
    ) -> Result<Halves<'a>, AllocError>
        ensures front { IfOk result (λ halves.
            halves.front.now ≡ front_shown kept front.now) }
        ensures back { IfOk result (λ halves.
            halves.back.items ≡ back_shown kept front.now back.now) }
    {
        let (shown, _) = front.split_at(kept.min(front.len()));
        Ok(Halves {
            front: shown,
            back: back_shown(alloc, kept, front, back)?,
        })
    }
}
