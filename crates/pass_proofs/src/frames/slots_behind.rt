//! What lies in the frame of a coroutine that breaks no rule is used behind begin, but for accesses to slots.
//!
//! What lies in the frame is used behind begin (`frames_lie_behind_begin`, `frame_slots_lie_behind_begin`). So each
//! pass gives what the next one asks of slots, offsets and flags.

ghost use Rattle.std.specs.Prelude.{◌≡◌, ℕ, None, Some, true};
ghost use Rattle.pass_proofs.specs.frames.begin_order.Behind.{AreBlocksBehind};
ghost use Rattle.pass_proofs.specs.frames.begin_order.Frames.{slot_offsets};
ghost use Rattle.pass_exits_proof.specs.rule_shape.OneOfEach.{wrong_call};
ghost use Rattle.pass_exits_proof.specs.frame_contents.Frames.{AreContents};
ghost use Rattle.pass_exits_proof.specs.frame_contents.declared.contents.Contents.{Contents};
ghost use Rattle.pass_exits_proof.specs.frame_layout.declared.layout.Layout.{Layout};
ghost use Rattle.pass_exits_proof.specs.rule_laws.rules.function_rules.Kept.{KeepsFunctionRules};
ghost use Rattle.ir_model.specs.Calls.{first_result};
ghost use Rattle.ir_model.specs.declared.module.Function.{Function};
ghost use Rattle.ir_model.specs.declared.module.Module.{Module};
ghost use Rattle.ir_model.specs.declared.operand.Intrinsic.{Intrinsic};
ghost use Rattle.pass_exits_proof.specs.frame_classes.declared.class.SlotClass.{SlotClass};
ghost use Rattle.pass_exits_proof.specs.rule_slots.Early.{IsFirstEarly};
ghost use Rattle.pass_frames.specs.Tables.{class_flags};

/// Frame slots are used behind begin (K9), but for accesses to slots of the entry block.
pub fn frame_slots_lie_behind_begin()
    ensures { (m : Module) (k : ℕ) (l : Layout) (f : Function) (c : Contents) (begin names : ℕ) → KeepsFunctionRules m k f → f.coroutine ≡ true → wrong_call k f ≡ None → IsFirstEarly k f None
        → first_result Intrinsic.CoroBegin f ≡ Some begin → AreContents m f c → AreBlocksBehind f begin (class_flags f c.classes SlotClass.Frame) (slot_offsets l c names) }
{}
