//! Types of values.

ghost use Rattle.std.specs.Prelude.{◌≡◌, IfOk, IsTrue, ◌↔◌};
ghost use Rattle.ir_model.specs.Ty.{Ty, int, ptr, token, array, structure, named, to_tys};
ghost use Rattle.ir_model.specs.TypeView.{bits_of, ty_of};

use ir_base::{Data, Name};
use std::alloc::{AllocError, Global};
use std::marker::Model;

/// The widths of integers, in bits.
#[derive(Clone, Copy, Debug, PartialEq, Eq)]
pub enum IntWidth {
    I1,
    I8,
    I16,
    I32,
    I64,
}

/// A type (LangRef, "Type System"). Contracts see it as the data `Ty`. Copying goes down the type, at most
/// 1024 levels; comparing goes down too, and is for types of bounded depth; dropping is a loop.
#[cycle(ir_type)]
pub struct IrType {
    node: Node,
}

/// How deep a type may be to be copied. No accepted module has a type deeper than 64.
const LEVELS: u32 = 1024;

/// What a type is made of.
#[cycle(ir_type)]
#[derive(Drop)]
pub enum Node {
    Int(IntWidth),
    Ptr,
    Token,
    Array(u64, Box<IrType>),
    Struct(Vec<IrType>),
    Named(Name),
}

impl Model for IrType {
    ghost use Rattle.ir_model.specs.Ty.{Ty, ty_code, ty_size};

    ghost Value = { Ty };

    ghost coded = { ty_code };

    ghost use Rattle.std.proofs.Common.{arith};
    ghost use Rattle.ir_model.specs.TypeView.{ty_of};

    ghost view = { λ a. ty_of a.node };

    ghost size = { ty_size };

    ghost use Rattle.ir_model.specs.TypeFalls.{deep_le-ty_size};

    ghost size_decreases = { λ a h. deep_le-ty_size a.node };
}

impl Drop for IrType {
    /// Goes down the type by a loop, since a text may nest as deep as it is long.
    #[cycle(ir_type)]
    #[tactic(auto, using(crate::specs::TypeView::tys_size_append))]
    fn drop(self) {
        let IrType { node } = self;
        match node {
            Node::Struct(fields) => drop_all(fields),
            Node::Array(_, element) => {
                let mut waiting = Vec::new(*Box::allocator(&element));
                let _ = waiting.push(Box::into_inner(element));
                drop_all(waiting);
            }
            Node::Named(name) => drop(name),
            Node::Int(_) | Node::Ptr | Node::Token => {}
        }
    }
}

#[cycle(ir_type)]
#[tactic(auto, using(crate::specs::TypeView::tys_size_append))]
fn drop_all(types: Vec<IrType>) {
    let mut waiting = types;
    while let Some(ty) = waiting.pop() {
        match ty.into_node() {
            Node::Struct(mut fields) => {
                while let Some(field) = fields.pop() {
                    if let Err(failed) = waiting.push(field) {
                        drop(failed.value);
                    }
                }
            }
            Node::Array(_, element) => {
                let _ = waiting.push(Box::into_inner(element));
            }
            Node::Named(name) => drop(name),
            Node::Int(_) | Node::Ptr | Node::Token => {}
        }
    }
}

impl IrType {
    /// An integer type.
    pub fn int(width: IntWidth) -> Self
        ensures { result ≡ int (bits_of width) }
    {
        IrType {
            node: Node::Int(width),
        }
    }

    fn into_node(self) -> Node
        ensures { ty_of result ≡ self }
    {
        let IrType { node } = self;
        node
    }

    /// What the type is made of.
    pub fn node(&self) -> &Node
        ensures { ty_of result.now ≡ self.now }
    {
        &self.node
    }

    /// The type `ptr`.
    pub fn pointer() -> Self
        ensures { result ≡ ptr }
    {
        IrType { node: Node::Ptr }
    }

    /// The type `token`.
    pub fn token() -> Self
        ensures { result ≡ token }
    {
        IrType { node: Node::Token }
    }

    /// The type that a name stands for.
    pub fn named(name: Name) -> Self
        ensures { result ≡ named name }
    {
        IrType {
            node: Node::Named(name),
        }
    }

    /// An array of so many elements.
    pub fn array(alloc: Global, count: u64, element: IrType) -> Result<Self, AllocError>
        ensures { IfOk result (λ t. t ≡ array count element) }
    {
        let element = Box::new(alloc, element)?;
        Ok(IrType {
            node: Node::Array(count, element),
        })
    }

    /// A structure of these fields in order.
    pub fn structure(fields: Vec<IrType>) -> Self
        ensures { result ≡ structure (to_tys fields.items) }
    {
        IrType {
            node: Node::Struct(fields),
        }
    }

    /// The same data, where the type is at most so many levels deep; a deeper one finds no memory.
    #[cycle(copied)]
    #[tactic(auto, using(crate::specs::TypeView::item_below_tys_size))]
    fn copied_within(&self, alloc: Global, levels: u32) -> Result<IrType, AllocError>
        ensures { IfOk result (λ t. t ≡ self.now) }
    {
        let Some(levels) = levels.checked_sub(1) else {
            return Err(AllocError);
        };
        let node = match &self.node {
            Node::Int(width) => Node::Int(*width),
            Node::Ptr => Node::Ptr,
            Node::Token => Node::Token,
            Node::Array(count, element) => {
                Node::Array(
                    *count,
                    Box::new(alloc, element.copied_within(alloc, levels)?)?,
                )
            }
            Node::Struct(fields) => Node::Struct(copied_all(alloc, fields, levels)?),
            Node::Named(name) => Node::Named(name.copied(alloc)?),
        };
        Ok(IrType { node })
    }

    #[cycle(same)]
    #[tactic(auto, using(crate::specs::TypeView::item_below_tys_size))]
    fn is_same_type(&self, other: &IrType) -> bool
        ensures { IsTrue result ↔ (self.now ≡ other.now) }
    {
        match (&self.node, &other.node) {
            (Node::Int(a), Node::Int(b)) => a == b,
            (Node::Ptr, Node::Ptr) => true,
            (Node::Token, Node::Token) => true,
            (Node::Array(m, a), Node::Array(n, b)) => m == n && a.is_same_type(b),
            (Node::Struct(a), Node::Struct(b)) => are_same(a, b),
            (Node::Named(a), Node::Named(b)) => a.is_same(b),
            _ => false,
        }
    }
}

#[cycle(copied)]
#[tactic(auto, using(crate::specs::TypeView::item_below_tys_size))]
fn copied_all(alloc: Global, types: &[IrType], levels: u32) -> Result<Vec<IrType>, AllocError>
    ensures { IfOk result (λ v. v.items ≡ types.now) }
{
    let mut all = Vec::new(alloc);
    for t in types {
        all.push(t.copied_within(alloc, levels)?)?;
    }
    Ok(all)
}

#[cycle(same)]
#[tactic(auto, using(crate::specs::TypeView::item_below_tys_size))]
fn are_same(a: &[IrType], b: &[IrType]) -> bool
    ensures { IsTrue result ↔ (a.now ≡ b.now) }
{
    match (a, b) {
        ([], []) => true,
        ([x, a @ ..], [y, b @ ..]) => x.is_same_type(y) && are_same(a, b),
        _ => false,
    }
}

impl Default for IrType {
    fn default() -> Self {
        IrType::pointer()
    }
}

impl Data for IrType {
    fn copied(&self, alloc: Global) -> Result<IrType, AllocError> {
        self.copied_within(alloc, LEVELS)
    }

    fn is_same(&self, other: &IrType) -> bool {
        self.is_same_type(other)
    }
}
