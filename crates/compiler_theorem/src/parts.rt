//! Framed forms as runs of their parts ask for them.
//!
//! What is ready for splitting may be followed in its parts, where it has some facts (`AreFramedFacts`). Framed forms of
//! accepted sources have them all.

ghost use Rattle.std.specs.Prelude.{◌≡◌, ℕ, List, [], Some, find, slice_get, true};
ghost use Rattle.compiler.specs.cleanup.accepted.Ready.{IsReady};
ghost use Rattle.compiler_theorem.specs.parts.Framed.{AreFramedFacts, AreLaidFacts, HaveFirstBlocks, HavePlainWidths, HaveTokens, TakeBytes};
ghost use Rattle.compiler_theorem.specs.theorem.Entries.{IsEntry, IsEntryCall, Run};
ghost use Rattle.compiler_theorem.specs.theorem.Lowered.{HasFewBytes, IsLowered, Lowered, early, framed_run, plain_run, split_from};
ghost use Rattle.compiler_theorem.specs.theorem.GoodLayouts.{AreGoodLayouts};
ghost use Rattle.compiler.specs.frame_contents.Held.{suspend_count};
ghost use Rattle.compiler.specs.frame_layout.Frames.{index_size};
ghost use Rattle.compiler.specs.frame_layout.declared.layout.Layout.{Layout};
ghost use Rattle.compiler.specs.frame_layout.declared.layout.PlacedField.{PlacedField};
ghost use Rattle.compiler.specs.ir_model.declared.module.Function.{Function};
ghost use Rattle.pass_split_proof.specs.states.Instances.{IsLaidOut, index_length};
ghost use Rattle.pass_split_proof.specs.states.Memories.{AreContents};
ghost use Rattle.compiler.specs.run_framed.Framed.{framed_given, is_promise_kind, layout_of};
ghost use Rattle.compiler.specs.frame_layout.declared.layout.Layouts.{Layouts};
ghost use Rattle.compiler.specs.ir_model.declared.module.Module.{Module};
ghost use Rattle.compiler.specs.pass_frames.Framed.{IsFramedForm};
ghost use Rattle.compiler.specs.pass_proofs.exits.states.Exits.{exits_split};
ghost use Rattle.pass_split_proof.specs.ready.Layouts.{AreLayoutsOf};
ghost use Rattle.pass_split_proof.specs.ready.Module.{IsFollowable};
ghost use Rattle.compiler.specs.run_agreement.Agreements.{AgreesWithin};
ghost use Rattle.compiler.specs.run_agreement.Machines.{at};

/// Good layouts are those of the coroutines of the framed form in order, each with its coroutine's number.
pub fn framed_layouts_stand_in_order()
    ensures { (layouts : Layouts) (m n : Module) → IsFramedForm layouts m n → AreGoodLayouts m layouts.coroutines
        → AreLayoutsOf 0 n.functions layouts.coroutines }
{}

/// By them the promise is at 16. The index lies apart from the fields that may be touched, where each takes a byte and
/// the index has as many as the analyses gave it.
pub fn good_layouts_keep_places()
    ensures promise { (m : Module) (ls : List Layout) → AreGoodLayouts m ls → (k : ℕ) (f : Function)
        → slice_get m.functions k ≡ Some f → f.coroutine ≡ true → (x : PlacedField)
        → find (λ y. is_promise_kind y.kind) (layout_of ls k).fields ≡ Some x → x.offset ≡ 16 }
    ensures laid { (m : Module) (ls : List Layout) → AreGoodLayouts m ls → TakeBytes m → (k : ℕ) (f : Function)
        → slice_get m.functions k ≡ Some f → f.coroutine ≡ true → (n : Module)
        → index_length (framed_given n ls []) k ≡ index_size (suspend_count f) → IsLaidOut (framed_given n ls []) k }
{}

/// A module that is ready for splitting, with such layouts of its coroutines in order, may be followed in its parts where
/// it has these facts.
pub fn ready_modules_are_followable()
    ensures { (ls : Layouts) (m : Module) → IsReady ls m → AreLayoutsOf 0 m.functions ls.coroutines
        → AreLaidFacts ls (exits_split m) → AreContents (exits_split m) → HaveFirstBlocks (exits_split m)
        → HavePlainWidths (exits_split m) → HaveTokens (exits_split m) → AreFramedFacts ls (exits_split m) → IsFollowable ls (exits_split m) }
{}

/// Framed forms of accepted sources have them. So the run of a framed form agrees within 4 with the run of its parts: the row of the theorem on
/// functions that are split.
pub fn framed_forms_agree_with_their_parts()
    ensures { (l : Lowered) → IsLowered l → AreGoodLayouts (early l) l.layouts.coroutines → IsReady l.layouts l.framed
        → HasFewBytes l → (r : Run) (other : ℕ) → IsEntryCall l.source r → IsEntry l.source (split_from l l.framed) r.entry other
        → AgreesWithin 4 (at (framed_run l l.framed r)) (at (plain_run (split_from l l.framed) r other)) }
{}
