//! From a frame to its promise, and back, where the promise is a field of the frame.

ghost use Rattle.std.specs.Prelude.{◌≡◌};
ghost use Rattle.run_memory.specs.declared.pointer.Pointer.{Pointer as ThePointer};
ghost use Rattle.run_memory.specs.declared.pointer.Value.{Value as TheValue};
ghost use Rattle.ir_paths.specs.Windows.{operand_at};
ghost use Rattle.run_framed.specs.Framed.{framed_promise, framed_promise_of_frame, framed_frame_of_promise};
ghost use Rattle.run_framed.specs.FramedEffects.{framed_of};

use crate::judging::{Wanted, last_wanted, promise_offset};
use crate::program::FramedProgram;
use ir_base::Cause;
use ir_model::Arg;
use run_memory::{BlockId, Offset, Pointer, Value};
use run_source::State;
use run_source::promise::{frame_address_of, is_over};
use run_source::run_source_tables_library::is_true_at;

fn promise_of_frame(program: &FramedProgram, state: &State, p: Value) -> Result<Value, Cause>
    ensures { result ≡ framed_promise_of_frame (framed_of program.now) state.now p }
{
    let Some(i) = state.instances.place(p) else {
        return Err(Cause::Frame);
    };
    let Some(instance) = state.instances.get(i) else {
        return Err(Cause::Frame);
    };
    let Some(offset) = promise_offset(program, instance) else {
        return Err(Cause::Promise);
    };
    if is_over(instance) {
        return Err(Cause::Dead);
    }
    let start = Offset {
        bits: instance.start,
    };
    Ok(Value::Ptr(Pointer::At(instance.block, start.moved(offset))))
}

fn frame_of_promise_at(
    program: &FramedProgram,
    state: &State,
    block: BlockId,
    offset: Offset,
) -> Result<Value, Cause>
    ensures { result ≡ framed_frame_of_promise (framed_of program.now) state.now (TheValue.Ptr (ThePointer.At block offset)) }
{
    let wanted = Wanted::Promise(offset.bits);
    let Some(i) = last_wanted(program, &state.instances, block, wanted) else {
        return Err(Cause::Promise);
    };
    let Some(instance) = state.instances.get(i) else {
        return Err(Cause::Promise);
    };
    if is_over(instance) {
        Err(Cause::Promise)
    } else {
        Ok(frame_address_of(instance))
    }
}

fn frame_of_promise(program: &FramedProgram, state: &State, p: Value) -> Result<Value, Cause>
    ensures { result ≡ framed_frame_of_promise (framed_of program.now) state.now p }
{
    match p {
        Value::Ptr(Pointer::At(block, offset)) => {
            frame_of_promise_at(program, state, block, offset)
        }
        _ => Err(Cause::Promise),
    }
}

/// `llvm.coro.promise`.
pub fn promise(
    program: &FramedProgram,
    state: &State,
    p: Value,
    args: &[Arg],
) -> Result<Value, Cause>
    ensures { result ≡ framed_promise (framed_of program.now) state.now p (operand_at args.now 2) }
{
    if is_true_at(args, 2) {
        frame_of_promise(program, state, p)
    } else {
        promise_of_frame(program, state, p)
    }
}
