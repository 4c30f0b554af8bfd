//! What the laws of `run_laws` say of frames and of machines, and worked cases of them.
#![tactic(auto)]

ghost use Rattle.std.specs.Prelude.{ℕ, ℤ, true, List, [], length, ◌∷◌, ◌++◌, Some, None, slice_get, slice_set, ◌≡◌};
ghost use Rattle.run_laws_worked.specs.run_memory.Memory.{owned_to, owner_rights, with_block};
ghost use Rattle.run_laws_worked.specs.run_memory.declared.block.MemoryBlock.{MemoryBlock as Block};
ghost use Rattle.run_laws_worked.specs.Worked.{an_instance, frame_given, owned_block};
ghost use Rattle.run_laws_worked.specs.run_memory.declared.block.Kind.{Kind as TheKind};
ghost use Rattle.run_laws_worked.specs.run_source.declared.state.Instance.{Instance as TheInstance};
ghost use Rattle.run_access_worked.specs.Frames.{AreSameFrames, in_status};
ghost use Rattle.run_access_worked.specs.Machines.{ahead, gives_no_frame, plain_ahead};
ghost use Rattle.run_laws_worked.specs.ir_base.declared.outcome.Outcome.{Outcome as TheOutcome};
ghost use Rattle.run_laws_worked.specs.run_source.Source.{Continues, context_of, step_by};
ghost use Rattle.run_laws_worked.specs.run_source.State.{function_of, work_of};
ghost use Rattle.run_laws_worked.specs.run_source.declared.state.Status.{Status as TheStatus};
ghost use Rattle.run_laws_worked.specs.run_source.declared.state.State.{State as TheState};
ghost use Rattle.run_laws_worked.specs.run_framed.Framed.{FramedGiven, frame_rights, framed_context, framed_step, layout_of};
ghost use Rattle.run_laws_worked.specs.ir_model.declared.instr.Instr.{Instr};
ghost use Rattle.run_laws_worked.specs.run_step.Runs.{iterate};
ghost use Rattle.run_laws_worked.specs.run_step.Step.{AtInstr, Done, Work, action_of};
ghost use Rattle.run_plain.specs.Plain.{PlainGiven, plain_context, plain_function, plain_step, plain_work};
ghost use Rattle.run_plain.specs.declared.state.PlainState.{PlainState as ThePlainState};
ghost use Rattle.run_laws_worked.specs.run_laws.access.Lines.{Holds, Runs, StandAt};
ghost use Rattle.run_laws_worked.specs.run_laws.access.Accessed.{accessed};
ghost use Rattle.run_access_worked.specs.Worked.{line, line_after, line_before, ours, owners, seven, storing, theirs, theirs_after};
ghost use Rattle.run_laws_worked.specs.ir_model.declared.module.Function.{Function as TheFunction};
ghost use Rattle.run_laws_worked.specs.ir_model.declared.module.Module.{Module as TheModule};
ghost use Rattle.run_laws_worked.specs.run_laws.changed.Changed.{Each};
ghost use Rattle.run_laws_worked.specs.run_laws.memory.Pointers.{Home, home_of};
ghost use Rattle.run_laws_worked.specs.run_laws.memory.Standing.{Embeds, blank_block};
ghost use Rattle.run_laws_worked.specs.run_source_tables.Given.{Given};
ghost use Rattle.run_laws_worked.specs.run_laws.embedded.Making.{whole_home};
ghost use Rattle.run_laws_worked.specs.run_laws.embedded.Marks.{LivesAlone};

/// A coroutine begins at the start of a block that nobody owns and that alone lives in its home. The block is owned
/// to the frame's size, there is an instance more, and the source still stands.
pub fn begin_keeps_what_stands()
    ensures { (g : FramedGiven) (instances : List TheInstance) (x : TheInstance) (homes : List Home) (m n : List Block) (b size : ℕ) → x.start ≡ 0 → (layout_of g.layouts x.coroutine).size ≡ size → (home_of homes b).block ≡ x.block → (home_of homes b).offset ≡ 0 → LivesAlone homes m b → ((y : Block) → slice_get m b ≡ Some y → y.owned ≡ None) → Embeds owner_rights (frame_rights g instances) homes m n → Embeds owner_rights (frame_rights g (instances ++ x ∷ [])) homes (with_block m b (owned_to size)) (with_block n x.block (owned_to size)) }
{}

/// The rights of frames go by where the frames lie. So they stay where an instance is saved, resumed, or at its end.
pub fn frames_have_rights()
    ensures same { (g : FramedGiven) (instances others : List TheInstance) → AreSameFrames instances others → frame_rights g others ≡ frame_rights g instances }
    ensures status { (g : FramedGiven) (instances : List TheInstance) (i : ℕ) (x : TheInstance) (status : TheStatus) → slice_get instances i ≡ Some x → frame_rights g (slice_set instances i (in_status x status)) ≡ frame_rights g instances }
{}

/// A block of 48 bytes stands in itself where no instance is. It still does where a coroutine has begun in it whose
/// frame has 32.
pub fn a_begin_is_worked()
    ensures before { (g : FramedGiven) → Embeds owner_rights (frame_rights g []) (whole_home 0 ∷ []) (blank_block 48 16 TheKind.Allocator ∷ []) (blank_block 48 16 TheKind.Allocator ∷ []) }
    ensures after { (given : Given) → Embeds owner_rights (frame_rights (frame_given given) (an_instance ∷ [])) (whole_home 0 ∷ []) (owned_block 48 16 32 ∷ []) (owned_block 48 16 32 ∷ []) }
{}

/// The machines of plain modules, of sources and of framed modules execute straight lines. In a framed run the line
/// has no call that gives a ramp its frame.
pub fn machines_execute_lines()
    ensures plain { (g : PlainGiven) (s : ThePlainState) → s.outcome ≡ TheOutcome.Running → (line : List Instr) (x : Work) → StandAt (plain_function g s) s.top.block s.top.at line → Runs (plain_context g s) line (plain_work s) x → iterate (plain_step g) (length line) s ≡ plain_ahead s (length line) x }
    ensures source { (g : Given) (go : Continues) (s : TheState) → s.outcome ≡ TheOutcome.Running → (line : List Instr) (x : Work) → StandAt (function_of g s) s.top.block s.top.at line → Runs (context_of g s) line (work_of s) x → iterate (step_by g go) (length line) s ≡ ahead s (length line) x }
    ensures framed { (g : FramedGiven) (s : TheState) → s.outcome ≡ TheOutcome.Running → (line : List Instr) (x : Work) → Each (λ (i : Instr). gives_no_frame g.given.code i ≡ true) line → StandAt (function_of g.given s) s.top.block s.top.at line → Runs (framed_context g s) line (work_of s) x → iterate (framed_step g) (length line) s ≡ ahead s (length line) x }
{}

/// A store into a slot of the source is made in the target where the slot stands. It accesses the home, and a cell
/// beside that holds 7 still does.
pub fn a_store_is_worked()
    ensures source { (code : TheModule) (answers : List ℤ) (f : TheFunction) → accessed (owners code answers f) ours (AtInstr storing) ≡ 0 ∷ [] }
    ensures target { (code : TheModule) (answers : List ℤ) (f : TheFunction) → accessed (owners code answers f) theirs (AtInstr storing) ≡ 1 ∷ [] }
    ensures done { (code : TheModule) (answers : List ℤ) (f : TheFunction) → action_of (owners code answers f) theirs (AtInstr storing) ≡ Done theirs_after }
    ensures before { Holds owner_rights theirs.world.memory 0 0 4 seven }
    ensures after { (code : TheModule) (answers : List ℤ) (f : TheFunction) (x : Work) → action_of (owners code answers f) theirs (AtInstr storing) ≡ Done x → Holds owner_rights x.world.memory 0 0 4 seven }
{}

/// A line stores 5 into a cell and loads it.
pub fn a_line_is_worked()
    ensures { (code : TheModule) (answers : List ℤ) (f : TheFunction) → Runs (owners code answers f) line line_before line_after }
{}
