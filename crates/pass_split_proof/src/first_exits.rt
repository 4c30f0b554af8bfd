//! Lemmas on first exits.

ghost use Rattle.std.specs.Prelude.{◌≡◌};
ghost use Rattle.pass_proofs.specs.pass_split.Parts.{split_module};
ghost use Rattle.pass_proofs.specs.frame_layout.declared.layout.Layouts.{Layouts};
ghost use Rattle.pass_proofs.specs.ir_model.declared.module.Module.{Module};
ghost use Rattle.pass_proofs.specs.exits.states.Exits.{exits_split};
ghost use Rattle.pass_split_proof.specs.first_exits.Parted.{parted_module};

/// Splitting first puts these blocks, and then makes the parts.
#[tactic(auto, using(crate::proofs::first_exits::Parted::split_parted))]
pub fn splitting_begins_with_exit_blocks()
    ensures { (ls : Layouts) (m : Module) → split_module ls m ≡ parted_module ls (exits_split m) }
{}
