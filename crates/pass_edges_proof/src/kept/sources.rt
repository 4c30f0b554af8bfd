//! That sources that break no rule keep what is asked of values that a resume hands on.
//!
//! An accepted source is one that a text stands for and that breaks no rule. Its saves are written out, and its edges
//! get blocks. Then a resume may leave out what doesn't cross its suspend by `frame_crossing`, if it is a value
//! that may cross. Each such run agrees within 4 with that of the source (`accepted_sources_hand_on_what_crosses`),
//! and within 2 before edges get blocks (`accepted_early_sources_hand_on_what_crosses`).
//!
//! What `pass_kept_proof` asks holds there by F2 with the types of values (`functions_are_definite`) and by K2,
//! K3, K6
//! and K7 (`coroutines_keep_suspend_rules`). Blocks on edges leave these (`edge_blocks_keep_suspend_rules`). It also
//! holds by N1, K1, K2, Y1 and Y2 (`functions_have_plain_names`).
//!
//! What the invariants of runs ask of places holds by K2, K3, K5, K6, N1 and F2. It is said in
//! `coroutines_keep_places_closed`, `suspends_stop_at_the_end` and `suspends_come_behind_their_saves`.
//! What they ask of types is said in `functions_keep_types`.

ghost use Rattle.std.specs.Prelude.{ℕ, ◌≡◌, ◌⊎◌, ◌+◌, ◌∷◌, [], negsuc, slice_get, Bool, None, true, Some, List, ℤ, Option};
ghost use Rattle.pass_early_proof.specs.rule_laws.rules.function_rules.Kept.{KeepsFunctionRules};
ghost use Rattle.ir_model.specs.declared.module.Function.{Function};
ghost use Rattle.ir_model.specs.declared.module.Module.{Module};
ghost use Rattle.pass_kept_proof.specs.Crossing.{IsDefinite, AreDefinite};
ghost use Rattle.pass_early_proof.specs.rule_shape.Switches.{wrong_switch};
ghost use Rattle.ir_model.specs.declared.instr.Terminator.{Terminator};
ghost use Rattle.ir_model.specs.declared.operand.Arg.{Arg};
ghost use Rattle.ir_model.specs.declared.operand.Intrinsic.{Intrinsic};
ghost use Rattle.pass_early_proof.specs.ir_paths.Windows.{IsInWindow, call_result, end_block, suspend_of};
ghost use Rattle.pass_early_proof.specs.rule_windows.Sets.{IsAfterEnd, RunsOut};
ghost use Rattle.pass_early_proof.specs.run_step.Step.{AtTerm, AtInstr, fetch, target_of};
ghost use Rattle.pass_early_proof.specs.run_ints.Numbers.{word_of};
ghost use Rattle.pass_early_proof.specs.ir_laws.facts.counted.Widths.{has_width};
ghost use Rattle.ir_model.specs.Ty.{Ty};
ghost use Rattle.ir_model.specs.declared.instr.Phi.{Phi};
ghost use Rattle.ir_model.specs.declared.module.Block.{Block};
ghost use Rattle.ir_model.specs.declared.module.Param.{Param};
ghost use Rattle.ir_model.specs.declared.operand.Callee.{Callee};
ghost use Rattle.pass_early_proof.specs.rule_laws.rules.counted.Widths.{first_other_width};
ghost use Rattle.pass_early_proof.specs.rule_types.Signatures.{fits_callee};
ghost use Rattle.pass_early_proof.specs.rule_values.Instrs.{fits_instr};
ghost use Rattle.pass_early_proof.specs.rule_values.Kinds.{instr_kind, kind_of, value_kind};
ghost use Rattle.pass_early_proof.specs.rule_values.Values.{fits_ending, fits_phi};
ghost use Rattle.pass_early_proof.specs.rule_values.declared.kinds.Kind.{Kind};
ghost use Rattle.ir_model.specs.Names.{position_of};
ghost use Rattle.ir_model.specs.declared.instr.Case.{Case};
ghost use Rattle.ir_model.specs.declared.instr.Instr.{Instr};
ghost use Rattle.ir_model.specs.declared.operand.Operand.{Operand};
ghost use Rattle.pass_early_proof.specs.ir_paths.Paths.{Leads, entry_point};
ghost use Rattle.pass_early_proof.specs.ir_paths.declared.point.Point.{Point};
ghost use Rattle.pass_kept_proof.specs.SuspendRules.{IsCallAt, IsSwitched, KeepsSuspendRules, AllKeepSuspendRules, KeepsNeeded};
ghost use Rattle.pass_kept_proof.specs.Needed.{IsNeededBehind, given_by};
ghost use Rattle.pass_early_proof.specs.rule_laws.rules.path_rules.Paths.{KeepsPaths};
ghost use Rattle.pass_early_proof.specs.rule_laws.rules.path_rules.Shape.{KeepsShape};
ghost use Rattle.pass_early_proof.specs.rule_shape.OneOfEach.{wrong_call};
ghost use Rattle.pass_kept_proof.specs.Handed.{HasPlainNames, HavePlainNames, HandsOn};
ghost use Rattle.pass_early.specs.Early.{early_module};
ghost use Rattle.pass_early_proof.specs.rule_all.Refused.{IsRefused};
ghost use Rattle.pass_early_proof.specs.text_grammar.Text.{StandsFor};
ghost use Rattle.pass_early_proof.specs.rule_names.declared.stage.Stage.{Stage};
ghost use Rattle.pass_early_proof.specs.run_agreement.Agreements.{AgreesWithin};
ghost use Rattle.pass_early_proof.specs.ir_base.declared.outcome.Word.{Word};
ghost use Rattle.pass_early_proof.specs.run_source.Source.{SourceAt};
ghost use Rattle.ir_model.specs.declared.module.Frame.{Frame};
ghost use Rattle.pass_kept_proof.specs.Kept.{Keep, KeptAt};
ghost use Rattle.pass_edges.specs.EdgeBlocks.{with_edge_blocks};
ghost use Rattle.pass_edges_proof.specs.edges.states.MovedState.{KeepsEdges, edges_split};
ghost use Rattle.pass_early_proof.specs.run_agreement.Costs.{AgreesBy};
ghost use Rattle.pass_edges_proof.specs.kept.sources.Beside.{IsKeptOf, IsNearlyKeptOf};
ghost use Rattle.pass_kept_proof.specs.Machines.{kept_machine, source_machine};

/// A function that breaks none of the rules of functions, F2 among them, reads no value before its definition.
pub fn functions_are_definite()
    ensures { (m : Module) (k : ℕ) (f : Function) → KeepsFunctionRules m k f → IsDefinite f }
{}

/// A suspend of a coroutine without fault of K3 is followed at once by its switch.
pub fn suspends_are_switched()
    ensures { (k : ℕ) (f : Function) → f.coroutine ≡ true → wrong_switch k f ≡ None → (s : Point) → IsCallAt Intrinsic.CoroSuspend f s → IsSwitched f s }
{}

/// What it makes isn't needed behind it.
pub fn results_of_suspends_are_unread()
    ensures { (k : ℕ) (f : Function) → f.coroutine ≡ true → wrong_switch k f ≡ None → (s : Point) (c : IsCallAt Intrinsic.CoroSuspend f s) (v : ℕ) → given_by c.instr ≡ Some v → IsNeededBehind f s v → ⊥ }
{}

/// A coroutine that breaks none of the rules of functions, of its calls and of paths keeps what is asked of saves, suspends and windows.
pub fn coroutines_keep_suspend_rules()
    ensures { (m : Module) (k : ℕ) (f : Function) → f.coroutine ≡ true → KeepsFunctionRules m k f → KeepsShape k f → KeepsPaths k f → KeepsSuspendRules f }
{}

/// In a coroutine that breaks none of these rules no save and no suspend stands behind the end, and no return where a
/// path from begin leads without the end. No other save and no suspend stands in a window.
pub fn coroutines_keep_places_closed()
    ensures save_behind { (k : ℕ) (f : Function) → f.coroutine ≡ true → KeepsPaths k f → (p : Point) → IsAfterEnd f p
        → IsCallAt Intrinsic.CoroSave f p → ⊥ }
    ensures suspend_behind { (k : ℕ) (f : Function) → f.coroutine ≡ true → KeepsPaths k f → (p : Point)
        → IsAfterEnd f p → IsCallAt Intrinsic.CoroSuspend f p → ⊥ }
    ensures returning { (k : ℕ) (f : Function) → f.coroutine ≡ true → KeepsPaths k f → (p : Point) (arg : Option Arg)
        → fetch f p.block p.at ≡ AtTerm (Terminator.Ret arg) → RunsOut f p → ⊥ }
    ensures save_inside { (m : Module) (k : ℕ) (f : Function) → f.coroutine ≡ true → KeepsFunctionRules m k f
        → KeepsShape k f → KeepsPaths k f → (save s p : Point) → IsCallAt Intrinsic.CoroSave f save
        → suspend_of f save ≡ Some s → IsInWindow f save s p → IsCallAt Intrinsic.CoroSave f p → ⊥ }
    ensures suspend_inside { (m : Module) (k : ℕ) (f : Function) → f.coroutine ≡ true → KeepsFunctionRules m k f
        → KeepsShape k f → KeepsPaths k f → (save s p : Point) → IsCallAt Intrinsic.CoroSave f save
        → suspend_of f save ≡ Some s → IsInWindow f save s p → IsCallAt Intrinsic.CoroSuspend f p → ⊥ }
{}

/// In a coroutine that breaks none of these rules each suspend is followed by a switch on what it makes. The switch
/// takes -1 to the block of the end, and the end stands first in that.
pub fn suspends_stop_at_the_end()
    ensures switch { (k : ℕ) (f : Function) → f.coroutine ≡ true → KeepsShape k f → (s : Point)
        → IsCallAt Intrinsic.CoroSuspend f s → (arg : Arg) × (default : ℕ) × (cases : List Case)
        × (fetch f s.block (s.at + 1) ≡ AtTerm (Terminator.Switch arg default cases)) }
    ensures result { (k : ℕ) (f : Function) → f.coroutine ≡ true → KeepsShape k f → (s : Point)
        → IsCallAt Intrinsic.CoroSuspend f s → (arg : Arg) (default : ℕ) (cases : List Case)
        → fetch f s.block (s.at + 1) ≡ AtTerm (Terminator.Switch arg default cases) → (i : Instr)
        → fetch f s.block s.at ≡ AtInstr i
        → (n : ℕ) × (call_result i ≡ Some n) × (arg.value ≡ Operand.Local n) }
    ensures stop { (k : ℕ) (f : Function) → f.coroutine ≡ true → KeepsShape k f → (s : Point)
        → IsCallAt Intrinsic.CoroSuspend f s → (arg : Arg) (default : ℕ) (cases : List Case)
        → fetch f s.block (s.at + 1) ≡ AtTerm (Terminator.Switch arg default cases) → (m : Module)
        → target_of m (word_of 8 (negsuc 0)) default cases ≡ default }
    ensures end { (m : Module) (k : ℕ) (f : Function) → f.coroutine ≡ true → KeepsFunctionRules m k f
        → KeepsShape k f → (s : Point) → IsCallAt Intrinsic.CoroSuspend f s
        → (arg : Arg) (default : ℕ) (cases : List Case)
        → fetch f s.block (s.at + 1) ≡ AtTerm (Terminator.Switch arg default cases)
        → position_of f default ≡ end_block f }
    ensures first { (m : Module) (k : ℕ) (f : Function) → f.coroutine ≡ true → KeepsFunctionRules m k f
        → KeepsShape k f → (s : Point) → IsCallAt Intrinsic.CoroSuspend f s
        → (arg : Arg) (default : ℕ) (cases : List Case)
        → fetch f s.block (s.at + 1) ≡ AtTerm (Terminator.Switch arg default cases)
        → IsCallAt Intrinsic.CoroEnd f (entry_point f default) }
{}

/// A suspend of a function that breaks none of the rules of functions takes the token of one save. No path from the
/// entry leads to it without that save. In a coroutine that breaks none of these rules no path does so from its switch.
pub fn suspends_come_behind_their_saves()
    ensures once { (m : Module) (k : ℕ) (f : Function) → KeepsFunctionRules m k f → (save other s : Point)
        → IsCallAt Intrinsic.CoroSave f save → suspend_of f save ≡ Some s
        → IsCallAt Intrinsic.CoroSave f other → suspend_of f other ≡ Some s → other ≡ save }
    ensures entry { (m : Module) (k : ℕ) (f : Function) → KeepsFunctionRules m k f → (save s : Point)
        → IsCallAt Intrinsic.CoroSave f save → suspend_of f save ≡ Some s
        → (record { block = 0; at = 0 } ≡ save → ⊥)
        → (record { block = 0; at = 0 } ≡ s) ⊎ Leads f (save ∷ []) (record { block = 0; at = 0 }) s → ⊥ }
    ensures back { (m : Module) (k : ℕ) (f : Function) → f.coroutine ≡ true → KeepsFunctionRules m k f
        → KeepsShape k f → KeepsPaths k f → (save s : Point) → IsCallAt Intrinsic.CoroSave f save
        → suspend_of f save ≡ Some s → (record { block = s.block; at = s.at + 1 } ≡ s)
        ⊎ Leads f (save ∷ []) (record { block = s.block; at = s.at + 1 }) s → ⊥ }
{}

/// In a function that breaks none of the rules of functions each name is of the kind of what gives it (N1). Operands fit
/// the types with which they are used (Y1), and a call is of the types of its callee (Y2). Where all integers are of the
/// widths of the grammar, a load is of such a width.
pub fn functions_keep_types()
    ensures instrs { (m : Module) (k : ℕ) (f : Function) → KeepsFunctionRules m k f → (block at : ℕ) (i : Instr)
        → fetch f block at ≡ AtInstr i → fits_instr m (value_kind f) i ≡ true }
    ensures ends { (m : Module) (k : ℕ) (f : Function) → KeepsFunctionRules m k f → (block at : ℕ) (t : Terminator)
        → fetch f block at ≡ AtTerm t → fits_ending (value_kind f) f.result t ≡ true }
    ensures given { (m : Module) (k : ℕ) (f : Function) → KeepsFunctionRules m k f → (block at n : ℕ) (i : Instr)
        (kind : Kind) → fetch f block at ≡ AtInstr i → instr_kind i n ≡ Some kind → value_kind f n ≡ Some kind }
    ensures phis { (m : Module) (k : ℕ) (f : Function) → KeepsFunctionRules m k f → (block : ℕ) (b : Block) (at : ℕ)
        (p : Phi) → slice_get f.blocks block ≡ Some b → slice_get b.phis at ≡ Some p
        → (fits_phi (value_kind f) p.ty p.incoming ≡ true) × (value_kind f p.result ≡ Some (kind_of p.ty)) }
    ensures params { (m : Module) (k : ℕ) (f : Function) → KeepsFunctionRules m k f → (at : ℕ) (p : Param)
        → slice_get f.params at ≡ Some p → value_kind f p.name ≡ Some (kind_of p.ty) }
    ensures calls { (m : Module) (k : ℕ) (f : Function) → KeepsFunctionRules m k f → (block at : ℕ)
        (result : Option ℕ) (must_tail : Bool) (ty : Option Ty) (callee : Callee) (args : List Arg)
        → fetch f block at ≡ AtInstr (Instr.Call result must_tail ty callee args)
        → fits_callee m ty args callee ≡ true }
    ensures loads { (m : Module) (k : ℕ) (f : Function) → KeepsFunctionRules m k f → first_other_width k f ≡ None
        → (block at name : ℕ) (ty : Ty) (p : Operand) (align : ℕ)
        → fetch f block at ≡ AtInstr (Instr.Load name ty p align) → has_width ty ≡ true }
{}

/// A function that breaks none of the rules of functions, and as a coroutine none of its calls, keeps what is asked of names and of the end's block.
pub fn functions_have_plain_names()
    ensures { (m : Module) (k : ℕ) (f : Function) → KeepsFunctionRules m k f → (f.coroutine ≡ true → wrong_call k f ≡ None) → HasPlainNames f }
{}

/// What the first pass makes of a source that a text stands for and that breaks no rule keeps what is asked of saves, suspends and windows.
pub fn accepted_sources_keep_suspend_rules()
    ensures { (text : List ℕ) (m : Module) → StandsFor text m → IsRefused Stage.Source m None → AllKeepSuspendRules (early_module m) }
{}

/// It reads no value before its definition.
pub fn accepted_sources_are_definite()
    ensures { (text : List ℕ) (m : Module) → StandsFor text m → IsRefused Stage.Source m None → AreDefinite (early_module m) }
{}

/// It keeps what is asked of names and of the ends' blocks.
pub fn accepted_sources_have_plain_names()
    ensures { (text : List ℕ) (m : Module) → StandsFor text m → IsRefused Stage.Source m None → HavePlainNames (early_module m) }
{}

/// Each run of such a source agrees within 2 with each run of what the first pass makes of it in which a resume hands on at least the values that
/// cross its suspend and what isn't a value that may cross.
pub fn accepted_early_sources_hand_on_what_crosses()
    ensures { (text : List ℕ) (m : Module) → StandsFor text m → IsRefused Stage.Source m None → (keep : Keep) → HandsOn (early_module m) keep → (sizes : List Frame) (entry : ℕ) (args : List Word) (answers : List ℤ) → AgreesWithin 2 (SourceAt m sizes entry args answers) (KeptAt (early_module m) keep sizes entry args answers) }
{}

/// A coroutine that keeps what is asked of saves, suspends and windows keeps it where its edges have blocks.
pub fn edge_blocks_keep_suspend_rules()
    ensures { (f : Function) → KeepsEdges f → KeepsSuspendRules f → KeepsSuspendRules (with_edge_blocks f) }
{}

/// So does what the first pass makes of a source that a text stands for and that breaks no rule, where its coroutines' edges have blocks.
pub fn accepted_edges_keep_suspend_rules()
    ensures { (text : List ℕ) (m : Module) → StandsFor text m → IsRefused Stage.Source m None → AllKeepSuspendRules (edges_split (early_module m)) }
{}

/// Nor is a value read there before its definition.
pub fn accepted_edges_are_definite()
    ensures { (text : List ℕ) (m : Module) → StandsFor text m → IsRefused Stage.Source m None → AreDefinite (edges_split (early_module m)) }
{}

/// What is asked of names and of the ends' blocks is kept there, too.
pub fn accepted_edges_have_plain_names()
    ensures { (text : List ℕ) (m : Module) → StandsFor text m → IsRefused Stage.Source m None → HavePlainNames (edges_split (early_module m)) }
{}

/// Each run of a source that a text stands for and that breaks no rule agrees within 4 with each run, where saves are written out and edges have blocks,
/// in which a resume hands on at least the values that cross its suspend and what isn't a value that may cross.
pub fn accepted_sources_hand_on_what_crosses()
    ensures { (text : List ℕ) (m : Module) → StandsFor text m → IsRefused Stage.Source m None → (keep : Keep) → HandsOn (edges_split (early_module m)) keep → (sizes : List Frame) (entry : ℕ) (args : List Word) (answers : List ℤ) → AgreesWithin 4 (SourceAt m sizes entry args answers) (KeptAt (edges_split (early_module m)) keep sizes entry args answers) }
{}

/// Its states stand beside those of a run in which a resume hands on at least what is needed behind it, where one
/// step of the source pays for four.
pub fn accepted_sources_keep_what_is_needed()
    ensures { (text : List ℕ) (m : Module) → StandsFor text m → IsRefused Stage.Source m None → (keep : Keep)
        → KeepsNeeded (edges_split (early_module m)) keep
        → (sizes : List Frame) (entry : ℕ) (args : List Word) (answers : List ℤ)
        → AgreesBy (IsKeptOf m sizes answers) (IsNearlyKeptOf m sizes entry args answers)
        (source_machine m sizes entry args answers) (λ s. 4)
        (kept_machine (edges_split (early_module m)) keep sizes entry args answers) (λ t. 1) }
{}
