//! Lines of a text that comes in parts, as far as they are kept.

ghost use Rattle.std.specs.Prelude.{◌≡◌, ◌++◌, ◌∷◌, [], List, ℕ, IsTrue, OnOk, true};
ghost use Rattle.text_comparison.specs.Lines.{kept};
ghost use Rattle.text_comparison.specs.Parts.{IsBeginning, IsPlace};

use std::alloc::{AllocError, Global};

/// How many octets of a line are kept.
pub const MAX_LINE_OCTETS: usize = 1_024;

// Adds to what is kept of a line.
fn keep(line: &mut Vec<u8>, octet: u8) -> Result<(), AllocError>
    ensures { OnOk result ((whole : List ℕ) → line.old.items ≡ kept whole
        → line.new.items ≡ kept (whole ++ octet ∷ [])) }
{
    if line.len() < MAX_LINE_OCTETS {
        line.push(octet)?;
    }
    Ok(())
}

/// The end of a text: the number of its last line, and what it has of that.
#[derive(Drop)]
pub(crate) struct Place {
    pub(crate) number: u64,
    pub(crate) line: Vec<u8>,
}

impl Place {
    /// The end of the empty text.
    pub(crate) fn new(alloc: Global) -> Place
        ensures { IsPlace [] result }
    {
        Place {
            number: 1,
            line: Vec::new(alloc),
        }
    }

    fn pass_octet(&mut self, octet: u8) -> Result<(), AllocError>
        ensures { OnOk result ((text : List ℕ) → IsPlace text self.old
            → IsPlace (text ++ octet ∷ []) self.new) }
    {
        if octet == b'\n' {
            self.number = self.number.saturating_add(1);
            self.line.clear();
            return Ok(());
        }
        keep(&mut self.line, octet)?;
        Ok(())
    }

    /// The text goes on with this.
    pub(crate) fn pass(&mut self, part: &[u8]) -> Result<(), AllocError>
        ensures { OnOk result ((text : List ℕ) → IsPlace text self.old
            → IsPlace (text ++ part.now) self.new) }
    {
        for octet in part {
            self.pass_octet(*octet)?;
        }
        Ok(())
    }
}

/// What a text begins with: its first line, and whether that has ended.
#[derive(Drop)]
pub(crate) struct Beginning {
    pub(crate) line: Vec<u8>,
    is_ended: bool,
}

impl Beginning {
    /// That of the empty text.
    pub(crate) fn new(alloc: Global) -> Beginning
        ensures { IsBeginning [] result }
    {
        Beginning {
            line: Vec::new(alloc),
            is_ended: false,
        }
    }

    /// Whether the text is empty.
    pub(crate) fn is_empty(&self) -> bool
        ensures none { (text : List ℕ) → IsBeginning text self.now → IsTrue result → text ≡ [] }
        ensures empty { IsBeginning [] self.now → IsTrue result }
    {
        self.line.len() < 1 && !self.is_ended
    }

    fn add_octet(&mut self, octet: u8) -> Result<(), AllocError>
        ensures { OnOk result ((text : List ℕ) → IsBeginning text self.old
            → IsBeginning (text ++ octet ∷ []) self.new) }
    {
        if self.is_ended {
            return Ok(());
        }
        if octet == b'\n' {
            self.is_ended = true;
            return Ok(());
        }
        keep(&mut self.line, octet)?;
        Ok(())
    }

    /// The text goes on with this.
    pub(crate) fn add(&mut self, part: &[u8]) -> Result<(), AllocError>
        ensures { OnOk result ((text : List ℕ) → IsBeginning text self.old
            → IsBeginning (text ++ part.now) self.new) }
    {
        for octet in part {
            self.add_octet(*octet)?;
        }
        Ok(())
    }
}
