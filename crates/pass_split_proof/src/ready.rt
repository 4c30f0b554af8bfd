//! What rules give at each place of related states: the premises of the laws of steps.
//!
//! A module whose runs may be followed (`IsFollowable`) breaks no rule of functions, and K2, K3, K5 and K6 in the
//! form that splitting has. A name of it is found in its parts where it should be (`names_are_moved`). So all that
//! steps ask is met (`premises_are_met`), but for what comes from states alone.

ghost use Rattle.std.specs.Prelude.{◌≡◌, ℕ, ℤ, List, None, Some, codes, false, slice_get, true};
ghost use Rattle.pass_proofs.specs.frame_layout.declared.layout.Layout.{Layout};
ghost use Rattle.pass_proofs.specs.frame_layout.declared.layout.Layouts.{Layouts};
ghost use Rattle.pass_proofs.specs.ir_laws.facts.same_names.Short.{HaveShortNames};
ghost use Rattle.pass_proofs.specs.ir_model.Names.{function_named};
ghost use Rattle.pass_proofs.specs.ir_model.declared.module.Function.{Function};
ghost use Rattle.pass_proofs.specs.ir_model.declared.module.Module.{Module};
ghost use Rattle.pass_proofs.specs.pass_intrinsics.Shapes.{part_name};
ghost use Rattle.pass_proofs.specs.exits.states.Exits.{exits_split};
ghost use Rattle.pass_split_proof.specs.code.Positions.{layout_at};
ghost use Rattle.pass_split_proof.specs.first_exits.Parted.{parted_module};
ghost use Rattle.pass_split_proof.specs.ready.Layouts.{AreLayoutsOf};
ghost use Rattle.pass_split_proof.specs.ready.Module.{IsFollowable};
ghost use Rattle.pass_split_proof.specs.ready.Names.{HasMovedNames};
ghost use Rattle.pass_split_proof.specs.simulation.Given.{GivesNoFrame};
ghost use Rattle.pass_split_proof.specs.simulation.Premises.{AreFunctionsMet, ArePlacesMet, ArePremisesMet};
ghost use Rattle.pass_split_proof.specs.simulation.Statement.{IsEntryOfParts, parts_given};
ghost use Rattle.pass_split_proof.specs.states.Related.{AreRelated};
ghost use Rattle.pass_split_proof.specs.whole.Whole.{PartsKeepCalls};
ghost use Rattle.pass_proofs.specs.rule_laws.rules.function_rules.Kept.{KeepsFunctionRules};
ghost use Rattle.pass_proofs.specs.rule_laws.rules.plain_rules.Items.{KeepsItemRules};
ghost use Rattle.pass_proofs.specs.rule_names.declared.stage.Stage.{Stage};
ghost use Rattle.pass_proofs.specs.run_framed.Framed.{framed_given, layout_of, no_layout};
ghost use Rattle.run_access_worked.specs.run_plain.declared.state.PlainState.{PlainState as ThePlainState};
ghost use Rattle.pass_proofs.specs.run_source.declared.state.State.{State as TheState};
ghost use Rattle.pass_proofs.specs.run_step.Step.{first_world};

/// Where items break no rule of sources, each name of a function is that of its first part, and no other name is a
/// function's of the parts. No function has the name of a coroutine's cleanup (N3).
pub fn names_are_moved()
    ensures moved { (ls : Layouts) (m : Module) → KeepsItemRules Stage.Source m → HaveShortNames m
        → HasMovedNames ls (exits_split m) }
    ensures untaken { (ls : Layouts) (m : Module) → KeepsItemRules Stage.Source m → HaveShortNames m → (k : ℕ)
        (f : Function) → slice_get m.functions k ≡ Some f → f.coroutine ≡ true
        → function_named (exits_split m) (part_name f.name (codes ".cleanup")) ≡ None }
{}

/// There no initial value names a function (Y1), so the globals hold the same.
pub fn globals_keep_their_contents()
    ensures { (ls : Layouts) (m : Module) → KeepsItemRules Stage.Source m → HaveShortNames m
        → first_world (parted_module ls (exits_split m)) ≡ first_world (exits_split m) }
{}

/// No call gives an instance its frame: nothing that is known has the name of a ramp that is given one (N2, N3).
pub fn sources_give_no_frame()
    ensures { (ls : Layouts) (m : Module) → KeepsItemRules Stage.Source m → HaveShortNames m
        → ((k : ℕ) (f : Function) → slice_get (exits_split m).functions k ≡ Some f
        → KeepsFunctionRules (exits_split m) k f) → GivesNoFrame (exits_split m) }
{}

/// What has the name of a function that is no coroutine is what becomes of it.
pub fn entries_move()
    ensures { (ls : Layouts) (m : Module) → KeepsItemRules Stage.Source m → HaveShortNames m → (entry other : ℕ)
        (f g : Function) → slice_get (exits_split m).functions entry ≡ Some f → f.coroutine ≡ false
        → slice_get (parted_module ls (exits_split m)).functions other ≡ Some g → g.name ≡ f.name
        → IsEntryOfParts ls (exits_split m) entry other }
{}

/// Where the layouts are those of the coroutines in order, each is found by its coroutine's number. Another function
/// has none.
pub fn layouts_stand_by_their_coroutines()
    ensures found { (ls : List Layout) (fs : List Function) → AreLayoutsOf 0 fs ls → (k : ℕ) (f : Function)
        → slice_get fs k ≡ Some f → f.coroutine ≡ true → layout_of ls k ≡ layout_at ls fs k }
    ensures none { (ls : List Layout) (fs : List Function) → AreLayoutsOf 0 fs ls → (k : ℕ) (f : Function)
        → slice_get fs k ≡ Some f → f.coroutine ≡ false → layout_of ls k ≡ no_layout k }
{}

/// The functions of the module have what steps ask: coroutines stand with their parts, allocas stand alone, and
/// suspends have switches.
pub fn functions_are_ready()
    ensures { (ls : Layouts) (m : Module) → IsFollowable ls m → (answers : List ℤ)
        → AreFunctionsMet (framed_given m ls.coroutines answers) (parts_given ls m answers) }
{}

/// At the same place of both runs each instruction and terminator has what its law asks: operands may be read in the
/// part (P1, K3), the name of begin's value isn't set (N1), callees are the same (N2), and numbers fit (Y4). A
/// terminator is never the switch of a suspend, which no part has.
pub fn places_are_ready()
    ensures { (ls : Layouts) (m : Module) → IsFollowable ls m → (answers : List ℤ) (s : TheState) (t : ThePlainState)
        (r : AreRelated (framed_given m ls.coroutines answers) (parts_given ls m answers) s t)
        → ArePlacesMet (framed_given m ls.coroutines answers) (parts_given ls m answers) s t r }
{}

/// So all is met.
pub fn premises_are_met()
    ensures { (ls : Layouts) (m : Module) → IsFollowable ls m → (answers : List ℤ)
        → ArePremisesMet (framed_given m ls.coroutines answers) (parts_given ls m answers) }
{}

/// So where no call gives a frame, the module and its parts keep states beside each other.
pub fn followable_modules_keep_calls()
    ensures { (ls : Layouts) (m : Module) → IsFollowable ls m → GivesNoFrame m → PartsKeepCalls ls m }
{}
