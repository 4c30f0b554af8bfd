//! A worked begin, save and resume of a coroutine with one suspend: the relation of memories holds behind each.

ghost use Rattle.std.specs.Prelude.{List, Option};
ghost use Rattle.pass_split_proof.specs.states.Instances.{IsSavedAt};
ghost use Rattle.pass_split_proof.specs.worked.Resumed.{AreWorked, a_suspend, begun_memory, given_frame, saved_memory, sleeping, woken};
ghost use Rattle.run_access_worked.specs.run_laws_worked.Worked.{an_instance};
ghost use Rattle.pass_proofs.specs.run_memory.declared.pointer.Value.{Value};

/// A coroutine with one suspend begins in a block of 48 bytes, is saved there, and is resumed. Behind each step the
/// memories stand beside each other with its frame. Behind the save the frame names the suspend, and what a resume calls.
pub fn a_resume_is_worked_beside()
    ensures begun { AreWorked an_instance begun_memory }
    ensures saved { (values : List (Option Value)) → AreWorked (sleeping values) saved_memory }
    ensures names { (values : List (Option Value))
        → IsSavedAt given_frame saved_memory (sleeping values) a_suspend }
    ensures resumed { (values : List (Option Value)) → AreWorked (woken values) saved_memory }
{}
