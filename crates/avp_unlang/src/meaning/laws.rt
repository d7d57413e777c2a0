//! Laws of what policies mean.

ghost use Rattle.std.specs.Prelude.{◌≡◌, List, false};
ghost use Rattle.avp_lists.specs.declared.lists.State.{State};
ghost use Rattle.avp_dict.specs.Dictionary.{Dictionary};
ghost use Rattle.avp_unlang.specs.CaptureUse.{uses_captures};
ghost use Rattle.avp_unlang.specs.Captures.{Captures};
ghost use Rattle.avp_unlang.specs.Evaluations.{cond_uses_captures, evaluated};
ghost use Rattle.avp_unlang.specs.Meaning.{meaning_of};
ghost use Rattle.avp_unlang.specs.MeaningByTruth.{meaning_by_truth};
ghost use Rattle.avp_unlang.specs.Truth.{truth_by};
ghost use Rattle.avp_unlang.specs.declared.codes.Code.{Code as TheCode};
ghost use Rattle.avp_unlang.specs.declared.tree.Cond.{Cond};
ghost use Rattle.avp_unlang.specs.declared.tree.Statement.{Statement};

/// A condition that looks at no captures is evaluated to its truth, whatever was captured; and a policy that looks at
/// none means what it means where each condition is decided by its truth alone.
pub fn captures_unused()
    ensures truth { (dictionary : Dictionary) (cond : Cond) → cond_uses_captures cond ≡ false
        → (s : State) (code : TheCode) (captures : Captures)
        → (evaluated dictionary cond s code captures).truth ≡ truth_by dictionary cond s code }
    ensures meaning { (dictionary : Dictionary) (statements : List Statement)
        → uses_captures statements ≡ false → (s : State) (code : TheCode)
        → meaning_of dictionary statements s code ≡ meaning_by_truth dictionary statements s code }
{}
