//! A coroutine with one suspend and a promise.

use ir_base::{FuncId, Items, Name, Place, Short, ValueId};
use ir_model::{
    Arg, Block, Callee, Case, Function, Instr, Intrinsic, IrType, Module, Operand, Terminator,
};
use rule_shape::{
    Answer, first_second_final, first_suspend_too_many, first_wrong_call, first_wrong_promise,
    first_wrong_switch, shape_of,
};
use std::alloc::{AllocError, Global};
use std::test::Fail;

const ENTRY: ValueId = 0;

const SLOT: ValueId = 1;

const ID: ValueId = 2;

const BEGIN: ValueId = 3;

const SUSPEND: ValueId = 4;

const END: ValueId = 5;

fn arg(value: Operand) -> Arg {
    Arg {
        ty: IrType::pointer(),
        value,
    }
}

fn call(
    alloc: Global,
    name: ValueId,
    intrinsic: Intrinsic,
    first: Operand,
    second: Operand,
) -> Result<Instr, AllocError> {
    let mut args = Short::new(alloc);
    args.push(arg(first))?;
    args.push(arg(second))?;
    Ok(Instr::Call {
        result: Some(name),
        must_tail: false,
        ty: Some(IrType::pointer()),
        callee: Callee::Intrinsic(intrinsic),
        args,
    })
}

fn case(number: i128) -> Case {
    Case {
        arg: arg(Operand::Number(number)),
        target: END,
    }
}

fn entry(alloc: Global) -> Result<Block, AllocError> {
    let slot = Instr::Alloca {
        result: SLOT,
        ty: IrType::pointer(),
        align: 8,
    };
    let id = call(
        alloc,
        ID,
        Intrinsic::CoroId,
        Operand::Number(0),
        Operand::Local(SLOT),
    )?;
    let begin = call(
        alloc,
        BEGIN,
        Intrinsic::CoroBegin,
        Operand::Local(ID),
        Operand::Null,
    )?;
    let suspend = call(
        alloc,
        SUSPEND,
        Intrinsic::CoroSuspend,
        Operand::None,
        Operand::True,
    )?;
    Ok(Block {
        label: ENTRY,
        phis: Items::new(alloc),
        instrs: Items::from_vec(vec![in alloc; slot, id, begin, suspend]?),
        term: Terminator::Switch {
            arg: arg(Operand::Local(SUSPEND)),
            default: END,
            cases: Items::from_vec(vec![in alloc; case(1), case(0)]?),
        },
    })
}

fn coroutine(alloc: Global) -> Result<Function, AllocError> {
    let end = call(
        alloc,
        6,
        Intrinsic::CoroEnd,
        Operand::Local(BEGIN),
        Operand::False,
    )?;
    let last = Block {
        label: END,
        phis: Items::new(alloc),
        instrs: Items::from_vec(vec![in alloc; end]?),
        term: Terminator::Ret(None),
    };
    let mut names = Items::new(alloc);
    for number in 0..7 {
        names.push(Name::Number(number))?;
    }
    Ok(Function {
        name: Name::Number(0),
        result: None,
        params: Items::new(alloc),
        coroutine: true,
        blocks: Items::from_vec(vec![in alloc; entry(alloc)?, last]?),
        names,
    })
}

fn module(alloc: Global) -> Result<Module, AllocError> {
    Ok(Module {
        types: Items::new(alloc),
        globals: Items::new(alloc),
        declarations: Items::new(alloc),
        functions: Items::from_vec(vec![in alloc; coroutine(alloc)?]?),
    })
}

fn is_broken(
    alloc: Global,
    func: FuncId,
    function: &Function,
) -> Result<Option<Place>, AllocError> {
    if let Some(place) = first_wrong_call(alloc, func, function)? {
        return Ok(Some(place));
    }
    if let Some(place) = first_wrong_switch(alloc, func, function)? {
        return Ok(Some(place));
    }
    if let Some(place) = first_second_final(alloc, func, function)? {
        return Ok(Some(place));
    }
    if let Some(place) = first_wrong_promise(alloc, func, function)? {
        return Ok(Some(place));
    }
    first_suspend_too_many(alloc, func, function)
}

#[test]
fn has_a_shape(rt: HostRuntime) -> Result<(), Fail> {
    let alloc = rt.alloc();
    let source = module(alloc)?;
    let function = source.functions.get(0).ok_or("no function")?;
    assert_eq!(rt; is_broken(alloc, 0, function)?, None);
    assert!(rt; function.coroutine);
    if let Answer::Shape(shape) = shape_of(alloc, &source, 0)? {
        assert_eq!(rt; shape.id(), ID);
        assert_eq!(rt; shape.begin(), Some(BEGIN));
        assert_eq!(rt; shape.end_block(), 1);
        assert_eq!(rt; shape.suspends().len(), 1);
        assert_eq!(rt; shape.promise(), Some(0));
        return Ok(());
    }
    Err(Fail::from("no shape"))
}
