//! Laws of the format, as the contracts of functions that do nothing.

ghost use Rattle.std.specs.Prelude.{◌≡◌, ◌⊎◌, ◌++◌, ◌∷◌, [], List, ℕ, Result, Some};
ghost use Rattle.hs_reader.specs.declared.fault.ReadFault.{ReadFault};
ghost use Rattle.hs_reader.specs.Raw.{File};
ghost use Rattle.hs_reader.specs.Tokens.{Token, Placed, end_of_file, bad, Lexes};
ghost use Rattle.hs_reader.specs.Grammar.{IsFile};
ghost use Rattle.hs_reader.specs.Faults.{BeginsFile, Offends, IsAnswer};
ghost use Rattle.hs_reader.specs.ReadingStages.{Stage, start, steps};

/// Every list of bytes has exactly one list of tokens, and it ends with the end or with bad.
pub fn one_cutting()
    ensures some { (bytes : List ℕ) → (tokens : List Placed) × Lexes bytes tokens }
    ensures one { (bytes : List ℕ) (a b : List Placed) → Lexes bytes a → Lexes bytes b → a ≡ b }
    ensures last { (bytes : List ℕ) (tokens : List Placed) → Lexes bytes tokens
        → (front : List Placed) × (last : Placed) × (tokens ≡ front ++ last ∷ [])
        × ((last.token ≡ end_of_file) ⊎ (last.token ≡ bad)) }
{}

/// A list of tokens says at most one file.
pub fn one_file()
    ensures { (tokens : List Token) (a b : File) → IsFile tokens a → IsFile tokens b → a ≡ b }
{}

/// Some file begins with tokens exactly where they lead to a stage of reading.
pub fn some_file_begins()
    ensures leads { (tokens : List Token) → BeginsFile tokens
        → (s : Stage) × (steps start tokens ≡ Some s) }
    ensures begins { (tokens : List Token) (s : Stage) → steps start tokens ≡ Some s
        → BeginsFile tokens }
{}

/// At most one token of the bytes is the first that offends.
pub fn one_offending_token()
    ensures { (bytes : List ℕ) (b c : List Placed) (s t : Placed) → Offends bytes b s → Offends bytes c t
        → (b ≡ c) × (s ≡ t) }
{}

/// Every list of bytes has exactly one answer.
pub fn one_answer()
    ensures some { (bytes : List ℕ) → (answer : Result File ReadFault) × IsAnswer bytes answer }
    ensures one { (bytes : List ℕ) (a b : Result File ReadFault)
        → IsAnswer bytes a → IsAnswer bytes b → a ≡ b }
{}
