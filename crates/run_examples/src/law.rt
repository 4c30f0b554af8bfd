//! The worked runs.

ghost use Rattle.run_examples.specs.FirstRun as first_run;
ghost use Rattle.run_examples.specs.FirstRunDestroyedTwice as first_run_destroyed_twice;
ghost use Rattle.run_examples.specs.CountingLoop as counting_loop;
ghost use Rattle.run_examples.specs.FinalSuspend as final_suspend;
ghost use Rattle.run_examples.specs.LeftWindow as left_window;
ghost use Rattle.run_examples.specs.Promise as promise;
ghost use Rattle.run_examples.specs.ResumedInWindow as resumed_in_window;
ghost use Rattle.run_examples.specs.TwoInstances as two_instances;
ghost use Rattle.run_examples.specs.ConstantStore as constant_store;
ghost use Rattle.run_examples.specs.FirstRunLowered as first_run_lowered;
ghost use Rattle.run_examples.specs.ElidedLowered as elided_lowered;
ghost use Rattle.run_examples.specs.WrongTypeLowered as wrong_type_lowered;
ghost use Rattle.run_examples.specs.CountingLoopFramed as counting_loop_framed;
ghost use Rattle.run_examples.specs.IndexTouchedFramed as index_touched_framed;
ghost use Rattle.run_examples.specs.ElidedFramed as elided_framed;

/// Each worked run comes to the events, the outcome and the count of allocator calls that its author gives.
#[tactic(none)]
pub fn worked_runs()
    ensures first_run { first_run.Computes }
    ensures first_run_destroyed_twice { first_run_destroyed_twice.Computes }
    ensures counting_loop { counting_loop.Computes }
    ensures final_suspend { final_suspend.Computes }
    ensures left_window { left_window.Computes }
    ensures promise { promise.Computes }
    ensures resumed_in_window { resumed_in_window.Computes }
    ensures two_instances { two_instances.Computes }
    ensures constant_store { constant_store.Computes }
    ensures first_run_lowered { first_run_lowered.Computes }
    ensures elided_lowered { elided_lowered.Computes }
    ensures wrong_type_lowered { wrong_type_lowered.Computes }
    ensures counting_loop_framed { counting_loop_framed.Computes }
    ensures index_touched_framed { index_touched_framed.Computes }
    ensures elided_framed { elided_framed.Computes }
{}
