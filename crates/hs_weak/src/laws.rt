//! Laws of strength.

ghost use Rattle.std.specs.Prelude.{ℕ};
ghost use Rattle.hs_scheme.specs.Problem.{ProblemData};
ghost use Rattle.hs_table.specs.Types.{TypeTree, IsType};
ghost use Rattle.hs_table.specs.Entries.{Env, EntryData, Has, InShape};
ghost use Rattle.hs_weak.specs.Strength.{AsStrongAs, AsksAtLeast, Covers};

/// To be as strong as, to ask at least and to cover are reflexive, for what is in shape, and
/// transitive.
pub fn strength_is_an_order()
    ensures type_itself { (n : ℕ) (t : TypeTree) → IsType n t → AsStrongAs t t }
    ensures types { (t u v : TypeTree) → AsStrongAs t u → AsStrongAs u v → AsStrongAs t v }
    ensures env_itself { (n : ℕ) (E : Env) → ((j : ℕ) (a : TypeTree) → Has E j a → IsType n a) →
        AsksAtLeast AsStrongAs E E }
    ensures envs { (E F B : Env) → AsksAtLeast AsStrongAs E F → AsksAtLeast AsStrongAs F B →
        AsksAtLeast AsStrongAs E B }
    ensures entry_itself { (p : ProblemData) (e : EntryData) → InShape p e → Covers AsStrongAs e e }
    ensures entries { (d e f : EntryData) → Covers AsStrongAs d e → Covers AsStrongAs e f → Covers AsStrongAs d f }
{}
