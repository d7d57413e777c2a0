//! How far two texts are the same, and where they differ.

ghost use Rattle.std.specs.Prelude.{◌≡◌, ◌++◌, ◌≤◌, [], IfOk, IsTrue, List, OnOk, ℕ, length};
ghost use Rattle.text_comparison.specs.Comparisons.{AreCompared, GoOn, IsFirstOther, IsLine, common};
ghost use Rattle.text_comparison.specs.Lines.{kept, last_line};
ghost use Rattle.text_comparison.specs.internal.Further.{IsFurther};
ghost use Rattle.text_comparison.specs.Parts.{IsBeginning, IsPlace};

use crate::lines::{Beginning, MAX_LINE_OCTETS, Place};
use std::alloc::{AllocError, Global};

/// The first line in which two texts differ, of each text as far as it is kept. Where a text ended before the line
/// there is none.
#[derive(Drop)]
pub struct OtherLine {
    /// From 1.
    pub number: u64,
    pub earlier: Option<Vec<u8>>,
    pub current: Option<Vec<u8>>,
}

/// How far an earlier text and the one of now are the same, as both come, and of each the line in which they differ.
#[derive(Drop)]
pub struct Comparison {
    // The end of what both texts begin with, and what each has after it.
    place: Place,
    earlier: Beginning,
    current: Beginning,
}

// How many octets two texts both begin with.
fn common_length(earlier: &[u8], now: &[u8]) -> usize
    ensures earlier { result ≤ length earlier.now }
    ensures now { result ≤ length now.now }
    ensures same { result ≡ length (common earlier.now now.now) }
{
    let most = earlier.len().min(now.len());
    for i in 0..most {
        if earlier[i] != now[i] {
            return i;
        }
    }
    most
}

// Whether a text that begins so and goes on so ends with the line before.
fn has_ended(place: &Place, rest: &Beginning) -> bool
    ensures ended { (front text : List ℕ) → IsPlace front place.now → IsBeginning text rest.now
        → IsTrue result → (last_line front ≡ []) × (text ≡ []) }
    ensures open { (front text : List ℕ) → IsPlace front place.now → IsBeginning text rest.now
        → last_line front ≡ [] → text ≡ [] → IsTrue result }
{
    place.line.len() < 1 && rest.is_empty()
}

fn joined(front: &Vec<u8>, rest: &[u8]) -> Result<Vec<u8>, AllocError>
    ensures { IfOk result (λ line. line.items ≡ kept (front.now.items ++ rest.now)) }
{
    let mut line = front.clone()?;
    line.extend_from_slice(rest)?;
    line.truncate(MAX_LINE_OCTETS);
    Ok(line)
}

// The line of a text that begins so and goes on so.
fn line_of(place: &Place, rest: &Beginning) -> Result<Option<Vec<u8>>, AllocError>
    ensures { IfOk result (λ line. (front text : List ℕ) → IsPlace front place.now
        → IsBeginning text rest.now → IsLine front text line) }
{
    if has_ended(place, rest) {
        return Ok(None);
    }
    let line = joined(&place.line, &rest.line)?;
    Ok(Some(line))
}

impl Comparison {
    /// The comparison of two texts of which nothing is known.
    pub fn new(alloc: Global) -> Comparison
        ensures { AreCompared [] [] result }
    {
        Comparison {
            place: Place::new(alloc),
            earlier: Beginning::new(alloc),
            current: Beginning::new(alloc),
        }
    }

    /// Whether both texts are the same.
    pub fn is_same(&self) -> bool
        ensures same { (before after : List ℕ) → AreCompared before after self.now
            → IsTrue result → before ≡ after }
        ensures other { (both : List ℕ) → AreCompared both both self.now → IsTrue result }
    {
        self.earlier.is_empty() && self.current.is_empty()
    }

    // How many octets more both texts begin with, where they go on with these.
    fn further(&self, earlier: &[u8], now: &[u8]) -> usize
        ensures earlier { result ≤ length earlier.now }
        ensures now { result ≤ length now.now }
        ensures further { (before after : List ℕ) → AreCompared before after self.now
            → GoOn before after earlier.now now.now
            → IsFurther before after earlier.now now.now result }
    {
        if self.is_same() {
            common_length(earlier, now)
        } else {
            0
        }
    }

    /// Both texts go on with these. A text that is shorter than the other has ended, and goes on with nothing.
    pub fn add(&mut self, earlier: &[u8], now: &[u8]) -> Result<(), AllocError>
        ensures { OnOk result ((before after : List ℕ) → AreCompared before after self.old
            → GoOn before after earlier.now now.now
            → AreCompared (before ++ earlier.now) (after ++ now.now) self.new) }
    {
        let count = self.further(earlier, now);
        self.place.pass(&earlier[..count])?;
        self.earlier.add(&earlier[count..])?;
        self.current.add(&now[count..])?;
        Ok(())
    }

    /// The first line in which the texts differ; none where they are the same.
    pub fn first_other(&self) -> Result<Option<OtherLine>, AllocError>
        ensures { IfOk result (λ other. (before after : List ℕ) → AreCompared before after self.now
            → IsFirstOther before after other) }
    {
        if self.is_same() {
            return Ok(None);
        }
        Ok(Some(OtherLine {
            number: self.place.number,
            earlier: line_of(&self.place, &self.earlier)?,
            current: line_of(&self.place, &self.current)?,
        }))
    }
}
