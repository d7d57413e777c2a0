//! How names and texts of request lines are read.

use crate::dictionaries::Dictionary;
use crate::entries::Named;
use crate::value::faults::ValueFault;
use avp_lists::Pair;
use std::alloc::Global;

/// What reads the names and the texts of request lines: a [`Dictionary`], or what reads more of them by one.
pub trait PairReader {
    /// What a name stands for.
    type Target: Copy;

    ghost use Rattle.std.specs.Prelude.{◌≡◌, ◌↔◌, ℕ, Bool, IfErr, IsTrue, List, None, Option, Some, true};
    ghost use Rattle.avp_lists.specs.Meets.{Finds, Unless};
    ghost use Rattle.avp_lists.specs.declared.pairs.Pair.{Pair};
    ghost use Rattle.avp_dict.specs.Outcomes.{is_memory_value};
    ghost use Rattle.avp_dict.specs.declared.value.faults.ValueFault.{ValueFault};
    ghost use Rattle.avp_dict.specs.declared.value.faults.ValueFault.TheVariants.{Memory, NotWritable};

    /// What names stand for.
    ghost target_of: { Self → List ℕ → Option Self.Target };

    /// The pairs of texts.
    ghost pair_of: { Self → Self.Target → List ℕ → Option Pair };

    /// What texts are refused for that have no pair.
    ghost refusal_of: { Self → Self.Target → List ℕ → Option ValueFault };

    /// Whether memory is taken for texts.
    ghost takes_memory: { Self → Self.Target → List ℕ → Bool };

    /// What a name stands for.
    fn target(&self, name: &[u8]) -> Option<Self::Target>
        ensures { result ≡ target_of self.now name.now };

    /// Whether no value may be written under what a name stands for, whatever its text: this is asked before the text
    /// is read, so that no want of memory hides it.
    fn is_barred(&self, target: Self::Target) -> bool
        ensures refusal { (text : List ℕ)
            → IsTrue result ↔ (refusal_of self.now target text ≡ Some NotWritable) }
        ensures pair { IsTrue result → (text : List ℕ) → pair_of self.now target text ≡ None };

    /// The pair of what a name stands for and a text.
    fn pair(&self, alloc: Global, target: Self::Target, text: &[u8]) -> Result<Pair, ValueFault>
        ensures pair { Finds is_memory_value result (pair_of self.now target text.now) }
        ensures refusal { IfErr result (λ fault. Unless (is_memory_value fault)
            (refusal_of self.now target text.now ≡ Some fault)) }
        ensures memory { IfErr result (λ fault. fault ≡ Memory
            → takes_memory self.now target text.now ≡ true) };
}

impl PairReader for Dictionary {
    type Target = Named;

    ghost use Rattle.avp_dict.specs.Names.{named};
    ghost use Rattle.avp_dict.specs.Requests.{pair_named, refusal_named};
    ghost use Rattle.avp_dict.specs.Spellings.{takes_memory};

    ghost target_of = { λ dictionary name. named name dictionary };

    ghost pair_of = { λ dictionary target text. pair_named dictionary text target };

    ghost refusal_of = { λ dictionary target text. refusal_named dictionary text target };

    ghost takes_memory = { λ dictionary target text. takes_memory target text dictionary };

    fn target(&self, name: &[u8]) -> Option<Named> {
        self.by_name(name)
    }

    #[tactic(auto, using(crate::proofs::BarredNames::barred_name, crate::proofs::BarredNames::barred_pair))]
    fn is_barred(&self, target: Named) -> bool {
        Dictionary::is_barred(self, target)
    }

    fn pair(&self, alloc: Global, target: Named, text: &[u8]) -> Result<Pair, ValueFault> {
        let value = self.value_of_text(alloc, target, text)?;
        Ok(Pair {
            id: target.id,
            value,
        })
    }
}
