//! Lemmas on threads.

ghost use Rattle.std.specs.Prelude.{◌↔◌, List};
ghost use Rattle.ir_laws.specs.paths.threads.Threads.{AreAvoidedToo, AreThreads};
ghost use Rattle.run_laws.specs.ir_model.declared.module.Function.{Function};
ghost use Rattle.run_laws.specs.ir_paths.Paths.{Leads};
ghost use Rattle.run_laws.specs.ir_paths.declared.point.Point.{Point};

/// Where edges lead over at most one further point, paths lead where they led.
#[tactic(auto, using(crate::proofs::paths::threads::Threads::paths_kept))]
pub fn paths_over_points_are_kept()
    ensures { (f g : Function) (move : Point → Point) (avoided besides : List Point) (p q : Point) → AreThreads f g move → AreAvoidedToo move avoided besides → Leads f avoided p q ↔ Leads g besides (move p) (move q) }
{}
