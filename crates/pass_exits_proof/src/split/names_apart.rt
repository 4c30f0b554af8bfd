//! Lemmas on names apart.

ghost use Rattle.std.specs.Prelude.{◌≡◌, ℕ, Bool, Some, slice_get};
ghost use Rattle.pass_split.specs.Parts.{split_function};
ghost use Rattle.pass_fetch_proof.specs.frame_layout.declared.layout.Layout.{Layout};
ghost use Rattle.ir_model.specs.declared.module.Function.{Function};
ghost use Rattle.pass_fetch_proof.specs.ir_laws.facts.names_apart.Apart.{AreApart};
ghost use Rattle.pass_fetch_proof.specs.rule_laws.rules.names_apart.Words.{AreFew, IsSplitTable};

/// The names of each function into which one is split are all different.
pub fn split_names_are_apart()
    ensures { (l : Layout) (given : Bool) (f : Function) → IsSplitTable f → (k : ℕ) (p : Function) → slice_get (split_function l given f) k ≡ Some p → AreFew p.names → AreApart p.names }
{}
