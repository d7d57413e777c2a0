//! What the words of these contracts come to.

ghost use Rattle.std.specs.Prelude.{◌↔◌, ℕ, List, IsTrue};
ghost use Rattle.avp_patterns.specs.Matching.{HasMatch, matches};
ghost use Rattle.avp_patterns.specs.Patterns.{Written};

/// A pattern matches just where some run of the octets is in the language of its expression.
pub fn matches_by_language()
    ensures { (w : Written) (octets : List ℕ) → IsTrue (matches w octets) ↔ HasMatch w octets }
{}
