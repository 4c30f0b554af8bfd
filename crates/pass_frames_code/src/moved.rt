//! The relation behind a step that changes memories, homes of blocks and what instances are.

ghost use Rattle.std.specs.Prelude.{ℕ, Bool, List, ◌∷◌};
ghost use Rattle.pass_frames_code.specs.Moved.{AreMoved, IsTopMoved, MovesRest};
ghost use Rattle.pass_frames_code.specs.Related.{AreBuiltOf, Building};
ghost use Rattle.pass_proofs.specs.run_laws.memory.Pointers.{Home};
ghost use Rattle.pass_proofs.specs.run_source.declared.state.Activation.{Activation};
ghost use Rattle.pass_proofs.specs.run_source.declared.state.Instance.{Instance};
ghost use Rattle.pass_proofs.specs.run_source.declared.state.State.{State};
ghost use Rattle.pass_proofs.specs.run_step.declared.world.World.{World};

/// Where the ranges stay in which cells and fields stand, and homes into which pointers may be about, what activations
/// have stays right: with the same activations, or with another one on top.
pub fn relation_is_moved()
    ensures same { (b : Building) (s t : State) (r : AreBuiltOf b s t) (homes : List Home) (hides : ℕ → Bool)
        (xs ys : List Instance) (w u : World)
        → MovesRest b s t r (s.top ∷ s.below) (t.top ∷ t.below) homes hides ys w u
        → AreMoved b t homes hides xs ys w u t.top
        → AreBuiltOf b (record s { world = w; instances = xs }) (record t { world = u; instances = ys }) }
    ensures other { (b : Building) (s t : State) (r : AreBuiltOf b s t) (homes : List Home) (hides : ℕ → Bool)
        (xs ys : List Instance) (w u : World) (a c : Activation)
        → MovesRest b s t r s.below t.below homes hides ys w u → AreMoved b t homes hides xs ys w u c
        → IsTopMoved b s t homes hides ys w u a c
        → AreBuiltOf b (record s { world = w; instances = xs; top = a })
        (record t { world = u; instances = ys; top = c }) }
{}
