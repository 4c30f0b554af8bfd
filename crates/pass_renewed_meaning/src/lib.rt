//! Slots made anew keep meaning: the run in which a resume hands on some values agrees with that which makes slots anew.
//!
//! The relation of the two runs is `IsBeside` (`pass_renewed_proof`), with laws for each kind of step. What else steps
//! ask are invariants of runs, which stand above it (`run_hooks`, `run_types`). So the steps are put together here.
//!
//! If each step is followed, both runs agree by what steps cost (`followed_steps_keep_states`). A resume pays for the
//! slots that its activation makes anew. At corresponding steps the states are beside each other, or both runs have
//! ended and show the same (`AreInStep`). Between them instances and activations are one to one (`AreAlike`).
//!
//! What is asked of a run (`KeepsAll`) gives what is asked of each kind of step, so that both runs agree
//! (`slots_may_be_made_anew`). Pointers that are compared have offsets of 64 bits (`offsets_are_small`).
//!
//! Two more steps keep the relation: the begin of an instance (`begins_stay_beside`), and a resume or destroy
//! (`resumes_stay_beside`).
#![tactic(auto)]

ghost use Rattle.std.specs.Prelude.{ℕ, ℤ, List, Ok, Option, Some, length, slice_get, ◌≡◌, ◌<◌};
ghost use Rattle.run_types.specs.ir_base.declared.outcome.Outcome.{Outcome};
ghost use Rattle.run_types.specs.ir_base.declared.outcome.Word.{Word};
ghost use Rattle.run_types.specs.ir_model.Names.{function_at};
ghost use Rattle.run_types.specs.ir_model.declared.instr.Instr.{Instr as TheInstr};
ghost use Rattle.run_types.specs.ir_model.declared.module.Frame.{Frame};
ghost use Rattle.run_types.specs.ir_model.declared.module.Module.{Module};
ghost use Rattle.run_types.specs.ir_paths.Facts.{AreFactsOf};
ghost use Rattle.run_types.specs.pass_kept_proof.Kept.{Keep, continue_keeping};
ghost use Rattle.pass_renewed_meaning.specs.Begins.{IsBeginOf};
ghost use Rattle.pass_renewed_meaning.specs.Followed.{AreStepsFollowed, IsOnItsWay, KeepsMeaning};
ghost use Rattle.pass_renewed_meaning.specs.Offsets.{AreOffsetsSmall};
ghost use Rattle.pass_renewed_meaning.specs.Resumes.{IsResuming};
ghost use Rattle.pass_renewed_meaning.specs.Rules.{KeepsAll, Setting};
ghost use Rattle.run_types.specs.pass_renewed_proof.Beside.{IsBeside};
ghost use Rattle.run_types.specs.pass_renewed_proof.Entering.{anew_in};
ghost use Rattle.run_types.specs.pass_renewed_proof.Found.{IsSleeperBeside};
ghost use Rattle.run_types.specs.pass_renewed_proof.Prices.{Prices};
ghost use Rattle.run_types.specs.pass_renewed_proof.Renewed.{Flags, RenewedGiven, Roots, continue_renewed, renewed_facts, renewed_step};
ghost use Rattle.run_types.specs.pass_renewed_proof.SlotRules.{KeepsAllSlots, KeepsSlots};
ghost use Rattle.run_types.specs.run_agreement.Machines.{iterate};
ghost use Rattle.run_types.specs.run_laws.memory.Pointers.{IsValue};
ghost use Rattle.run_types.specs.run_memory.declared.pointer.Value.{Value as TheValue};
ghost use Rattle.run_types.specs.run_source.Source.{Sleeper, begin, first_state};
ghost use Rattle.run_types.specs.run_source.State.{function_of, own_facts};
ghost use Rattle.run_types.specs.run_source.declared.state.State.{State as TheState};
ghost use Rattle.run_types.specs.run_source_tables.Given.{Given};

/// A run in which a resume hands on some values agrees with that in which slots are made anew, by what their steps
/// cost.
pub fn slots_may_be_made_anew()
    ensures { (c : Setting) (p : Prices) → KeepsAll c
        → KeepsMeaning c.code c.keep c.flags c.roots c.sizes c.entry c.args c.answers p }
{}

/// In each state of the first run the values of the topmost activation have offsets of 64 bits.
pub fn offsets_are_small()
    ensures { (c : Setting) → AreOffsetsSmall c }
{}

/// Where each step of the first run is followed in the second, both agree by what their steps cost.
pub fn followed_steps_keep_states()
    ensures { (m : Module) (keep : Keep) (flags : Flags) (roots : Roots) (sizes : List Frame) (entry : ℕ)
        (args : List Word) (answers : List ℤ) (p : Prices)
        → IsBeside m flags roots (first_state m entry args) (first_state m entry args)
        → AreStepsFollowed m keep flags roots sizes entry args answers p
        → KeepsMeaning m keep flags roots sizes entry args answers p }
{}

/// Where an activation begins an instance, both runs do. The block becomes owned, and the slots that the activation has
/// made become the instance's. In the second run those that may be made anew stay the activation's.
pub fn begins_stay_beside()
    ensures { (flags : Flags) (roots : Roots) (g h : Given) → h.code ≡ g.code → h.sizes ≡ g.sizes
        → ((func : ℕ) → KeepsSlots g.code (function_at g.code func) (flags func) (roots func)) → (s t : TheState)
        → (beside : IsBeside g.code flags roots s t) → (i : TheInstr) (result : Option ℕ)
        → IsBeginOf g.code roots s.top i result → AreFactsOf (function_of g s) (own_facts g s)
        → own_facts h t ≡ renewed_facts (flags s.top.func) (function_of g s) (own_facts g s) → (p q : TheValue)
        → IsValue beside.ledger.homes p q → (after : TheState) → begin g s result p ≡ Ok after
        → (other : TheState) × (begin h t result q ≡ Ok other) × IsBeside g.code flags roots after other }
{}

/// Where an instance is resumed or destroyed the second run makes the slots of its new activation anew, one in each
/// step. Then both states are beside each other at the label. Up to there it makes slots anew, nothing is seen, and
/// activations and instances are one to one.
pub fn resumes_stay_beside()
    ensures resumed { (g : RenewedGiven) (d : Given) → d.code ≡ g.given.code
        → KeepsAllSlots g.given.code g.keep g.flags g.roots → (s t : TheState)
        → (beside : IsBeside g.given.code g.flags g.roots s t) → t.outcome ≡ Outcome.Running → (i : TheInstr)
        (y z : Sleeper) (label : ℕ) → (is : IsResuming g.given.code g.flags g.roots s i y label)
        → slice_get t.instances z.number ≡ Some z.instance
        → IsSleeperBeside g.given.code g.flags g.roots beside.ledger s.world.memory y z
        → IsBeside g.given.code g.flags g.roots
        (continue_keeping d g.keep s y.number y.instance y.suspend y.values label)
        (iterate (renewed_step g) (length (anew_in (g.flags y.instance.coroutine) 0 is.block.instrs))
        (continue_renewed g t z.number z.instance z.suspend z.values label)) }
    ensures between { (g : RenewedGiven) (d : Given) → d.code ≡ g.given.code
        → KeepsAllSlots g.given.code g.keep g.flags g.roots → (s t : TheState)
        → (beside : IsBeside g.given.code g.flags g.roots s t) → t.outcome ≡ Outcome.Running → (i : TheInstr)
        (y z : Sleeper) (label : ℕ) → (is : IsResuming g.given.code g.flags g.roots s i y label)
        → slice_get t.instances z.number ≡ Some z.instance
        → IsSleeperBeside g.given.code g.flags g.roots beside.ledger s.world.memory y z → (j : ℕ)
        → j < length (anew_in (g.flags y.instance.coroutine) 0 is.block.instrs)
        → IsOnItsWay (continue_keeping d g.keep s y.number y.instance y.suspend y.values label)
        (iterate (renewed_step g) j (continue_renewed g t z.number z.instance z.suspend z.values label)) }
{}
