//! Modules, their items, and blocks.

ghost use Rattle.std.specs.Prelude.{◌≡◌};

use crate::instr::{Instr, Phi, Terminator};
use crate::ir_type::IrType;
use crate::operand::Operand;
use ir_base::{Data, Items, Name, ValueId};
use std::alloc::{AllocError, Global};

/// A basic block: its label, its phis, its other instructions and its terminator.
#[derive(Drop)]
pub struct Block {
    pub label: ValueId,
    pub phis: Items<Phi>,
    pub instrs: Items<Instr>,
    pub term: Terminator,
}

/// A parameter of a defined function.
#[derive(Drop)]
pub struct Param {
    pub ty: IrType,
    pub name: ValueId,
}

/// A defined function (LangRef, "Functions"). `names` are the names of its labels and values, each once, in the order of
/// their first occurrence; a `ValueId` is a position in it. A result of `None` is void.
#[derive(Drop)]
pub struct Function {
    pub name: Name,
    pub result: Option<IrType>,
    pub params: Items<Param>,
    pub coroutine: bool,
    pub blocks: Items<Block>,
    pub names: Items<Name>,
}

/// A declared function.
#[derive(Drop)]
pub struct Declaration {
    pub name: Name,
    pub result: Option<IrType>,
    pub params: Items<IrType>,
}

/// A global variable with its written initial value (LangRef, "Global Variables").
#[derive(Drop)]
pub struct GlobalItem {
    pub name: Name,
    pub constant: bool,
    pub ty: IrType,
    pub init: Operand,
    pub align: u64,
}

/// A named structure type (LangRef, "Structure Type").
#[derive(Drop)]
pub struct TypeItem {
    pub name: Name,
    pub ty: IrType,
}

/// A module: each kind of item in the order of the text.
#[derive(Drop)]
pub struct Module {
    pub types: Items<TypeItem>,
    pub globals: Items<GlobalItem>,
    pub declarations: Items<Declaration>,
    pub functions: Items<Function>,
}

/// The size and alignment in bytes of a coroutine's frame, the coroutine being named by its position.
#[derive(Clone, Copy, Debug, PartialEq, Eq, Drop)]
pub struct Frame {
    pub coroutine: usize,
    pub size: u64,
    pub align: u64,
}

impl Data for Block {
    fn copied(&self, alloc: Global) -> Result<Block, AllocError> {
        Ok(Block {
            label: self.label,
            phis: self.phis.copied(alloc)?,
            instrs: self.instrs.copied(alloc)?,
            term: self.term.copied(alloc)?,
        })
    }

    fn is_same(&self, other: &Block) -> bool {
        self.label == other.label
            && self.phis.is_same(&other.phis)
            && self.instrs.is_same(&other.instrs)
            && self.term.is_same(&other.term)
    }
}

impl Data for Param {
    fn copied(&self, alloc: Global) -> Result<Param, AllocError> {
        Ok(Param {
            ty: self.ty.copied(alloc)?,
            name: self.name,
        })
    }

    fn is_same(&self, other: &Param) -> bool {
        self.ty.is_same(&other.ty) && self.name == other.name
    }
}

impl Data for Function {
    fn copied(&self, alloc: Global) -> Result<Function, AllocError> {
        Ok(Function {
            name: self.name.copied(alloc)?,
            result: Data::copied(&self.result, alloc)?,
            params: self.params.copied(alloc)?,
            coroutine: self.coroutine,
            blocks: self.blocks.copied(alloc)?,
            names: self.names.copied(alloc)?,
        })
    }

    fn is_same(&self, other: &Function) -> bool {
        self.name.is_same(&other.name)
            && self.result.is_same(&other.result)
            && self.params.is_same(&other.params)
            && self.coroutine == other.coroutine
            && self.blocks.is_same(&other.blocks)
            && self.names.is_same(&other.names)
    }
}

impl Data for Declaration {
    fn copied(&self, alloc: Global) -> Result<Declaration, AllocError> {
        Ok(Declaration {
            name: self.name.copied(alloc)?,
            result: Data::copied(&self.result, alloc)?,
            params: self.params.copied(alloc)?,
        })
    }

    fn is_same(&self, other: &Declaration) -> bool {
        self.name.is_same(&other.name)
            && self.result.is_same(&other.result)
            && self.params.is_same(&other.params)
    }
}

impl Data for GlobalItem {
    fn copied(&self, alloc: Global) -> Result<GlobalItem, AllocError> {
        Ok(GlobalItem {
            name: self.name.copied(alloc)?,
            constant: self.constant,
            ty: self.ty.copied(alloc)?,
            init: self.init.copied(alloc)?,
            align: self.align,
        })
    }

    fn is_same(&self, other: &GlobalItem) -> bool {
        self.name.is_same(&other.name)
            && self.constant == other.constant
            && self.ty.is_same(&other.ty)
            && self.init.is_same(&other.init)
            && self.align == other.align
    }
}

impl Data for TypeItem {
    fn copied(&self, alloc: Global) -> Result<TypeItem, AllocError> {
        Ok(TypeItem {
            name: self.name.copied(alloc)?,
            ty: self.ty.copied(alloc)?,
        })
    }

    fn is_same(&self, other: &TypeItem) -> bool {
        self.name.is_same(&other.name) && self.ty.is_same(&other.ty)
    }
}

impl Data for Module {
    fn copied(&self, alloc: Global) -> Result<Module, AllocError> {
        Ok(Module {
            types: self.types.copied(alloc)?,
            globals: self.globals.copied(alloc)?,
            declarations: self.declarations.copied(alloc)?,
            functions: self.functions.copied(alloc)?,
        })
    }

    fn is_same(&self, other: &Module) -> bool {
        self.types.is_same(&other.types)
            && self.globals.is_same(&other.globals)
            && self.declarations.is_same(&other.declarations)
            && self.functions.is_same(&other.functions)
    }
}
