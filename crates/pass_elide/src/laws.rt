//! What elision leaves as it was.

ghost use Rattle.std.specs.Prelude.{◌≡◌, ℕ, List, Option, Some, [], false, length, map, option_map, slice_get, true};
ghost use Rattle.frame_layout.specs.declared.layout.Layout.{Layout};
ghost use Rattle.frame_layout.specs.declared.layout.Layouts.{Layouts};
ghost use Rattle.ir_base.specs.declared.outcome.Place.{Place};
ghost use Rattle.ir_model.specs.declared.instr.Instr.{Instr};
ghost use Rattle.ir_model.specs.declared.module.Function.{Function};
ghost use Rattle.ir_model.specs.declared.module.Module.{Module};
ghost use Rattle.pass_elide.specs.Elided.{elided_function, elided_module, function_frames, frame_in};
ghost use Rattle.pass_elide.specs.Laws.{BeginsWithAllocas, HasNoSite, HaveNoCallees};
ghost use Rattle.pass_elide.specs.Frames.{callee_fields, layout_of};
ghost use Rattle.pass_elide.specs.declared.given.GivenFrame.{GivenFrame};

/// A function stays if no call of it gives its callee a frame.
pub fn functions_that_give_no_frame_stay()
    ensures { (frame : ℕ → ℕ → Instr → Option GivenFrame) (f : Function) → function_frames frame f ≡ []
        → elided_function frame f ≡ f }
{}

/// A function that is no coroutine stays if no site is in it.
pub fn functions_without_sites_stay()
    ensures { (m : Module) (ls : List Layout) (sites : List Place) (func : ℕ) (f : Function) → f.coroutine ≡ false
        → HasNoSite sites func → elided_function (frame_in m ls sites func f) f ≡ f }
{}

/// A coroutine stays if its layout has no field for the frame of a callee.
pub fn coroutines_without_callees_stay()
    ensures { (m : Module) (ls : List Layout) (sites : List Place) (func : ℕ) (f : Function) → f.coroutine ≡ true
        → callee_fields (layout_of ls func) ≡ [] → elided_function (frame_in m ls sites func f) f ≡ f }
{}

/// Without sites and such fields the module is as it was.
pub fn nothing_is_elided()
    ensures { (layouts : Layouts) (m : Module) → HaveNoCallees layouts.coroutines → elided_module layouts [] m ≡ m }
{}

/// Each function becomes what its given frames make of it, at its position. So its name, result and parameters stay,
/// and whether it is a coroutine.
pub fn functions_become()
    ensures { (layouts : Layouts) (sites : List Place) (m : Module) (k : ℕ)
        → slice_get (elided_module layouts sites m).functions k
        ≡ option_map (λ f. elided_function (frame_in m layouts.coroutines sites k f) f) (slice_get m.functions k) }
{}

/// There are as many functions as before.
pub fn functions_are_as_many()
    ensures { (layouts : Layouts) (sites : List Place) (m : Module)
        → length (elided_module layouts sites m).functions ≡ length m.functions }
{}

/// Their names stay.
pub fn names_of_functions_stay()
    ensures { (layouts : Layouts) (sites : List Place) (m : Module)
        → map (λ f. f.name) (elided_module layouts sites m).functions ≡ map (λ f. f.name) m.functions }
{}

/// The entries of coroutines still begin with their allocas.
pub fn coroutines_begin_with_allocas()
    ensures { (m : Module) (ls : List Layout) (sites : List Place) (func : ℕ) (f : Function) → f.coroutine ≡ true
        → BeginsWithAllocas f → BeginsWithAllocas (elided_function (frame_in m ls sites func f) f) }
{}
