//! What the sites of a source give of its framed form.

ghost use Rattle.elide_sites.specs.Elidable.{IsElidable};
ghost use Rattle.elide_sites.specs.Sites.{AreSites, callee_in};
ghost use Rattle.pass_elide_edges.specs.pass_elide_proof.CallersStack.{KeepAllHandles};
ghost use Rattle.pass_elide_edges.specs.pass_elide_proof.Calling.{DestroysHandles};
ghost use Rattle.pass_elide_edges.specs.pass_elide_proof.Elision.{Elision, function_in};
ghost use Rattle.pass_elide_edges.specs.pass_elide_proof.Invariant.{IsSiteOf};
ghost use Rattle.pass_elide_ready.specs.Ruled.{IsRuled};
ghost use Rattle.pass_elide_edges.specs.pass_elide_proof.pass_proofs.ir_base.declared.name.Name.{Name};
ghost use Rattle.pass_elide_edges.specs.pass_elide_proof.pass_proofs.ir_model.Names.{function_at, function_named};
ghost use Rattle.pass_elide_edges.specs.pass_elide_proof.pass_proofs.ir_model.declared.instr.Instr.{Instr};
ghost use Rattle.pass_elide_edges.specs.pass_elide_proof.pass_proofs.ir_model.declared.module.Module.{Module};
ghost use Rattle.pass_elide_edges.specs.pass_elide_proof.pass_proofs.ir_paths.declared.point.Point.{Point};
ghost use Rattle.std.specs.Prelude.{Some, false, ◌≡◌, ℕ};

/// Handles of the sites of a source are destroyed in its framed form, where functions that are no coroutines are the
/// same.
pub fn handles_of_sites_are_destroyed()
    ensures destroyed { (e : Elision) (source : Module) → AreSites source e.sites
        → ((func : ℕ) → (function_at source func).coroutine ≡ false → function_in e func ≡ function_at source func)
        → (func : ℕ) → DestroysHandles e func }
    ensures kept { (e : Elision) (source : Module) → IsRuled e.code → AreSites source e.sites
        → ((func : ℕ) → (function_at source func).coroutine ≡ false → function_in e func ≡ function_at source func)
        → KeepAllHandles e }
{}

/// The coroutine that is called at a site is elidable in the source.
pub fn sites_call_elidable_coroutines()
    ensures { (e : Elision) (source : Module) → AreSites source e.sites
        → ((func : ℕ) → (function_at source func).coroutine ≡ false → function_in e func ≡ function_at source func)
        → ((n : Name) → function_named e.code n ≡ function_named source n)
        → (func callee : ℕ) (call : Point) (i : Instr) (name : ℕ) → IsSiteOf e func call i name
        → callee_in e.code (Some i) ≡ Some callee → IsElidable (function_at source callee) }
{}
