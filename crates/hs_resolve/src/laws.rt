//! Laws of the answers, each the contract of a function that does nothing.

ghost use Rattle.std.specs.Prelude.{◌≡◌};
ghost use Rattle.hs_reader.specs.Raw.{File};
ghost use Rattle.hs_resolve.specs.declared.fault.NameFault.{NameFault};
ghost use Rattle.hs_resolve.specs.Answer.{IsFaultless, IsAnswered};

/// A file has at most one first fault, and none where it is without faults.
pub fn one_first_fault()
    ensures one { (raw : File) (a b : NameFault) → IsAnswered raw a → IsAnswered raw b → a ≡ b }
    ensures none { (raw : File) (fault : NameFault) → IsFaultless raw → IsAnswered raw fault → ⊥ }
{}
