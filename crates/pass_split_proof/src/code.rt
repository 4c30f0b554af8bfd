//! How the parts of a coroutine that go on begin, and where the functions of a split module stand.

ghost use Rattle.std.specs.Prelude.{◌≡◌, ℕ, List, Bool, None, Some, is_some, pos, slice_get, true, ◌+◌, ◌||◌};
ghost use Rattle.pass_proofs.specs.frame_layout.declared.layout.Layout.{Layout};
ghost use Rattle.pass_proofs.specs.frame_layout.declared.layout.Layouts.{Layouts};
ghost use Rattle.pass_proofs.specs.ir_base.declared.name.Name.{Name};
ghost use Rattle.pass_proofs.specs.ir_laws.facts.same_names.Short.{HaveShortNames};
ghost use Rattle.pass_proofs.specs.rule_laws.rules.plain_rules.Items.{KeepsItemRules};
ghost use Rattle.pass_proofs.specs.ir_base.declared.outcome.Word.{Word as TheWord};
ghost use Rattle.pass_proofs.specs.rule_laws.frames.replaced.Parted.{IsSmall};
ghost use Rattle.pass_proofs.specs.ir_model.Names.{declaration_named, function_named, global_named};
ghost use Rattle.pass_proofs.specs.ir_model.Ty.{int};
ghost use Rattle.pass_proofs.specs.ir_model.TypeView.{bits_of};
ghost use Rattle.pass_proofs.specs.ir_model.declared.instr.Instr.{Instr};
ghost use Rattle.pass_proofs.specs.ir_model.declared.module.Function.{Function};
ghost use Rattle.pass_proofs.specs.ir_model.declared.module.Module.{Module};
ghost use Rattle.pass_proofs.specs.pass_intrinsics.Cuts.{goes_on};
ghost use Rattle.pass_proofs.specs.ir_paths.Windows.{call_result, suspend_of};
ghost use Rattle.pass_proofs.specs.ir_paths.declared.point.Point.{Point as ThePoint};
ghost use Rattle.pass_proofs.specs.pass_intrinsics.Lowered.{number_of_save};
ghost use Rattle.pass_proofs.specs.pass_intrinsics.Shapes.{back_label, none_label, shape_of};
ghost use Rattle.pass_proofs.specs.pass_intrinsics.declared.shape.Part.{Part};
ghost use Rattle.pass_proofs.specs.exits.states.Exits.{exits_split};
ghost use Rattle.pass_split_proof.specs.code.Entry.{HasEntry};
ghost use Rattle.pass_split_proof.specs.code.Numbers.{IsNumbered};
ghost use Rattle.pass_split_proof.specs.code.Positions.{is_given, layout_at, moved, number_of};
ghost use Rattle.pass_split_proof.specs.first_exits.Parted.{parted_function, parted_functions, parted_module};
ghost use Rattle.pass_proofs.specs.split.rules.Parted.{IsPartOf};
ghost use Rattle.pass_proofs.specs.split.rules.Splittable.{IsSplittable};
ghost use Rattle.pass_proofs.specs.pass_intrinsics.declared.shape.SuspendPoint.{SuspendPoint as Suspend};
ghost use Rattle.pass_proofs.specs.pass_split.Given.{has_given_call};
ghost use Rattle.pass_proofs.specs.pass_split.Parts.{cases_from, is_entered};
ghost use Rattle.pass_proofs.specs.rule_names.declared.stage.Stage.{Stage};
ghost use Rattle.pass_proofs.specs.rule_shape.Suspends.{is_suspend};
ghost use Rattle.pass_proofs.specs.run_memory.declared.pointer.Value.{Value as TheValue};
ghost use Rattle.pass_proofs.specs.run_step.Step.{AtInstr, fetch, target_of};
ghost use Rattle.pass_proofs.specs.run_step.Values.{literal};

/// A part that goes on makes its allocas again, loads the index, and goes on behind the suspend that it names.
pub fn parts_that_go_on_begin_with_the_index()
    ensures { (m : Module) (k : ℕ) (f g : Function) (begin : ℕ) (layout : Layout) (part : Part) → IsSplittable m k f begin → IsPartOf (shape_of f layout) f part g → goes_on part ≡ true → HasEntry (shape_of f layout) part f g }
{}

/// What a function becomes stands in the split module from its new position on, one behind another.
pub fn functions_move()
    ensures { (ls : List Layout) (m : Module) (fs : List Function) (k i : ℕ) (f g : Function) → slice_get fs k ≡ Some f → slice_get (parted_function (layout_at ls fs k) (has_given_call m f) f) i ≡ Some g → slice_get (parted_functions ls m fs) (moved ls m fs k + i) ≡ Some g }
{}

/// Of a coroutine these are its parts in their order, and where some call gives it its frame the two for that.
pub fn parts_stand_in_order()
    ensures { (l : Layout) (given : Bool) (f g : Function) (part : Part) → f.coroutine ≡ true → IsPartOf (shape_of f l) f part g → (is_given part ≡ true → given ≡ true) → slice_get (parted_function l given f) (number_of part) ≡ Some g }
{}

/// Each function of a split module is found by its name.
pub fn parts_are_found_by_their_names()
    ensures { (ls : Layouts) (m : Module) → KeepsItemRules Stage.Source m → HaveShortNames m → (q : ℕ) (g : Function) → slice_get (parted_module ls (exits_split m)).functions q ≡ Some g → function_named (parted_module ls (exits_split m)) g.name ≡ Some q }
{}

/// So a name of a function becomes that of its first part.
pub fn names_of_functions_move()
    ensures { (ls : Layouts) (m : Module) → KeepsItemRules Stage.Source m → HaveShortNames m → (x : Name) (k : ℕ) → function_named (exits_split m) x ≡ Some k → function_named (parted_module ls (exits_split m)) x ≡ Some (moved ls.coroutines (exits_split m) (exits_split m).functions k) }
{}

/// What is only declared, or is a global, is no function of a split module.
pub fn other_names_are_no_functions()
    ensures { (ls : Layouts) (m : Module) → KeepsItemRules Stage.Source m → HaveShortNames m → (x : Name) → function_named (exits_split m) x ≡ None → (is_some (declaration_named m x) || is_some (global_named m x)) ≡ true → function_named (parted_module ls (exits_split m)) x ≡ None }
{}

/// The index of a suspend at which the part may go on leads back to it.
pub fn the_index_leads_back()
    ensures { (n : Module) (f : Function) (layout : Layout) (flags : List Bool) (part : Part) (j : ℕ) (p : Suspend) (x : TheWord) → IsSmall (shape_of f layout) → slice_get (shape_of f layout).suspends j ≡ Some p → is_entered flags part p ≡ true → literal (int (bits_of (shape_of f layout).width)) (pos j) ≡ TheValue.Int x → target_of n x (none_label (shape_of f layout)) (cases_from (shape_of f layout) flags part 0 (shape_of f layout).suspends) ≡ back_label (shape_of f layout) j }
{}

/// Each suspend of a function has a number.
pub fn suspends_have_numbers()
    ensures { (f : Function) (block at : ℕ) (i : Instr) → fetch f block at ≡ AtInstr i → is_suspend i ≡ true → (j : ℕ) × IsNumbered f (record { block = block; at = at }) j }
{}

/// A save has the number of its suspend.
pub fn saves_have_the_numbers_of_their_suspends()
    ensures { (m : Module) (k : ℕ) (f : Function) (begin block at r : ℕ) (i : Instr) (q : ThePoint) (layout : Layout) → IsSplittable m k f begin → fetch f block at ≡ AtInstr i → call_result i ≡ Some r → suspend_of f (record { block = block; at = at }) ≡ Some q → (j : ℕ) × ((number_of_save (shape_of f layout) (Some r) ≡ Some j) × IsNumbered f q j) }
{}
