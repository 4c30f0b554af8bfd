//! The distances of addresses from local slots, as instructions sum them.

ghost use Rattle.std.specs.Prelude.{◌≡◌, ◌≤◌, ◌<◌, ◌^◌, ℕ, List, Option, Some, length};
ghost use Rattle.pass_proofs.specs.ir_model.Ty.{Ty, int};
ghost use Rattle.pass_proofs.specs.ir_model.declared.module.Module.{Module};
ghost use Rattle.pass_proofs.specs.ir_model.declared.operand.Arg.{Arg};
ghost use Rattle.pass_proofs.specs.ir_model.declared.operand.Operand.{Operand};
ghost use Rattle.pass_proofs.specs.pass_distances.Sums.{sum_next};
ghost use Rattle.pass_proofs.specs.pass_distances.Ways.{ways_of};
ghost use Rattle.pass_proofs.specs.pass_distances.declared.way.Way.{Way};
ghost use Rattle.pass_frames_code.specs.Distances.{AreFields, AreWaysBelow, IsBelow, IsNumber, SumsUp, summed};
ghost use Rattle.pass_frames_code.specs.Framings.{IsFraming};
ghost use Rattle.pass_frames_code.specs.Measured.{AreArgsStanding, MayMeasure, Measures};
ghost use Rattle.pass_frames_code.specs.Places.{Framing};
ghost use Rattle.pass_proofs.specs.pass_fetch.Fetching.{fetched_args};
ghost use Rattle.pass_proofs.specs.pass_fetch.declared.fetch.Fetch.{Fetch};
ghost use Rattle.pass_proofs.specs.run_laws.embedded.Related.{IsSameDistance};
ghost use Rattle.pass_proofs.specs.run_laws.memory.Pointers.{Home};
ghost use Rattle.pass_proofs.specs.run_laws.memory.Standing.{AreByteRights};
ghost use Rattle.pass_proofs.specs.run_source.declared.state.Activation.{Activation};
ghost use Rattle.pass_proofs.specs.run_step.Step.{Context, Work, value_at};
ghost use Rattle.pass_proofs.specs.run_step.Values.{Env, distance, indices_of, plus};

/// The instructions are done, poison or not, set new names alone, and give the sum where no index is poison.
pub fn distances_are_summed()
    ensures { (c : Context) (n : ℕ) (x : Operand) (d : Option ℕ) (ws : List Way) (w : Work) → IsBelow n x
        → AreWaysBelow n ws → sum_next n ws ≤ length w.values → IsNumber d (value_at c w (int 64) x)
        → SumsUp c n x d ws w }
{}

/// What indices add to a distance is the distance of their getelementptr, where that isn't poison.
pub fn ways_add_the_distance()
    ensures { (m : Module) (env : Env) (ty : Ty) (args : List Arg) (start d : ℕ) → start < 2 ^ 64
        → AreFields m ty args → distance m ty (indices_of m env args) ≡ Some d
        → summed m env (Some start) (ways_of m ty args) ≡ plus (Some start) (Some d) }
{}

/// Behind a getelementptr whose distance has a cell the distance is summed and stored. Then all cells are right.
pub fn distances_are_stored()
    ensures { (x : Framing) → IsFraming x → (homes : List Home) (c : Context) → AreByteRights c.rights
        → (a : Activation) (w : Work) (env : Env) (v cell slot n : ℕ) (ty : Ty) (args : List Arg)
        → MayMeasure x homes c w a env v cell slot n ty args → Measures x homes c w a env v cell n ty args }
{}

/// Where each index stands for the source's, or is the literal of a field, the distance is the same, if the source has
/// one.
pub fn indices_give_the_same_distance()
    ensures { (t : List (Option Fetch)) (homes : List Home) (m k : Module) (env other : Env) (ty : Ty) (n : ℕ)
        (args : List Arg) → ((u : Ty) (is : List (Option ℕ)) → distance k u is ≡ distance m u is)
        → AreFields m ty args → AreArgsStanding t homes m k env other n args
        → IsSameDistance (distance m ty (indices_of m env args))
        (distance k ty (indices_of k other (fetched_args t n args))) }
{}
