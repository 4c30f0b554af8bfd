//! Names that aren't known.

ghost use Rattle.std.specs.Prelude.{◌≡◌, ◌++◌, ℕ, IfOk, true, false};
ghost use Rattle.ir_model.specs.Ty.{to_tys};
ghost use Rattle.ir_parts.specs.Locals.{locals_of as locals_of_function};
ghost use Rattle.ir_parts.specs.Parts.{OfInstr};
ghost use Rattle.rule_names.specs.Numbers.{is_marked};
ghost use Rattle.rule_names.specs.Known.{knows_called, knows_type, knows_types, knows_name, allocator_name, knows_callee, knows_address, is_intrinsic, is_kind, is_defined, knows_operand, names_unknown, unknown_names};
ghost use Rattle.rule_names.specs.Items.{first_place as first_place_of};

use crate::items::{ModuleRule, first_place};
use crate::numbers::LocalSet;
use ir_base::{Data, FuncId, Name, Place, Text, ValueId};
use ir_model::{
    Allocator, Block, Callee, Declaration, Function, GlobalItem, Instr, IrType, Node, Operand, Phi,
    Terminator, TypeItem, callee_of,
};
use ir_parts::{
    Definition, FunctionRule, LabelTest, OperandTest, TypeTest, ending_labels_pass,
    ending_operands_pass, ending_types_pass, first_part, incoming_labels_pass,
    incoming_operands_pass, instr_operands_pass, instr_types_pass, locals_of, signature_types_pass,
    types_pass,
};
use ir_tables::Names;
use std::alloc::{AllocError, Global};

/// Names of types, labels, values, functions and globals that aren't known (rule N2).
#[derive(Drop)]
pub struct UnknownNames<'a> {
    pub alloc: Global,
    pub names: &'a Names<'a>,
}

/// The known names of one function: those of the module, and its own values and labels.
#[derive(Drop)]
struct FunctionNames<'a> {
    known: &'a UnknownNames<'a>,
    values: LocalSet,
    labels: LocalSet,
}

#[cycle(knows)]
#[tactic(auto, using(ir_model::specs::TypeView::item_below_tys_size))]
fn knows_type(names: &Names<'_>, ty: &IrType) -> bool
    ensures { result ≡ knows_type names.now.source.now ty.now }
{
    match ty.node() {
        Node::Int(_) | Node::Ptr | Node::Token => true,
        Node::Array(_, element) => knows_type(names, element),
        Node::Struct(fields) => knows_types(names, fields),
        Node::Named(name) => names.type_named(name).is_some(),
    }
}

#[cycle(knows)]
#[tactic(auto, using(ir_model::specs::TypeView::item_below_tys_size))]
fn knows_types(names: &Names<'_>, fields: &[IrType]) -> bool
    ensures { result ≡ knows_types names.now.source.now (to_tys fields.now) }
{
    for field in fields {
        if !knows_type(names, field) {
            return false;
        }
    }
    true
}

fn knows_name(names: &Names<'_>, name: &Name) -> bool
    ensures { result ≡ knows_name names.now.source.now name.now }
{
    names.function_named(name).is_some()
        || (names.declaration_named(name).is_some() || names.global_named(name).is_some())
}

/// The name of an allocator.
pub fn allocator_name(alloc: Global, allocator: Allocator) -> Result<Name, AllocError>
    ensures { IfOk result (λ n. n ≡ allocator_name allocator) }
{
    Ok(Name::Text(Text::from_bytes(alloc, allocator.word())?))
}

fn is_intrinsic(callee: &Callee) -> bool
    ensures { result ≡ is_intrinsic callee.now }
{
    matches!(callee, Callee::Intrinsic(_))
}

/// The definitions of one kind among these, labels or values.
fn defined(
    alloc: Global,
    names: usize,
    label: bool,
    definitions: &[Definition],
) -> Result<LocalSet, AllocError>
    ensures { IfOk result (λ s. (n : ℕ) → is_marked s n ≡ is_defined label definitions.now n) }
{
    let mut set = LocalSet::new(alloc, names)?;
    for definition in definitions {
        if is_kind(label, definition) {
            set.add(definition.name)?;
        }
    }
    Ok(set)
}

fn is_kind(label: bool, definition: &Definition) -> bool
    ensures { result ≡ is_kind label definition.now }
{
    if label {
        definition.is_label
    } else {
        !definition.is_label
    }
}

impl UnknownNames<'_> {
    fn knows_address(&self, name: &Name) -> Result<bool, AllocError>
        ensures { IfOk result (λ b. b ≡ knows_address self.now.names.now.source.now name.now) }
    {
        if knows_name(self.names, name) {
            return Ok(true);
        }
        Ok(is_intrinsic(&callee_of(name.copied(self.alloc)?)))
    }

    fn knows_callee(&self, callee: &Callee) -> Result<bool, AllocError>
        ensures { IfOk result (λ b. b ≡ knows_callee self.now.names.now.source.now callee.now) }
    {
        match callee {
            Callee::Named(name) => Ok(knows_name(self.names, name)),
            Callee::Allocator(allocator) => {
                let name = allocator_name(self.alloc, *allocator)?;
                Ok(knows_name(self.names, &name))
            }
            Callee::Intrinsic(_) => Ok(true),
            Callee::Local(_) => Ok(true),
        }
    }

    fn knows_called(&self, instr: &Instr) -> Result<bool, AllocError>
        ensures { IfOk result (λ b. b ≡ knows_called self.now.names.now.source.now (OfInstr instr.now)) }
    {
        match instr {
            Instr::Call { callee, .. } => self.knows_callee(callee),
            _ => Ok(true),
        }
    }

    fn knows_initial(&self, operand: &Operand) -> Result<bool, AllocError>
        ensures { IfOk result (λ b. b ≡ knows_operand self.now.names.now.source.now (λ n. false) operand.now) }
    {
        match operand {
            Operand::Local(_) => Ok(false),
            Operand::Global(name) => self.knows_address(name),
            _ => Ok(true),
        }
    }
}

impl TypeTest for UnknownNames<'_> {
    ghost type_passes = { λ r. knows_type r.names.now.source.now };

    fn passes(&self, ty: &IrType) -> bool {
        knows_type(self.names, ty)
    }
}

impl OperandTest for FunctionNames<'_> {
    ghost operand_passes = { λ r. knows_operand r.known.now.names.now.source.now (is_marked r.values) };

    fn passes(&self, operand: &Operand) -> Result<bool, AllocError> {
        match operand {
            Operand::Local(id) => Ok(self.values.has(*id)),
            Operand::Global(name) => self.known.knows_address(name),
            _ => Ok(true),
        }
    }
}

impl LabelTest for FunctionNames<'_> {
    ghost label_passes = { λ r. is_marked r.labels };

    fn passes(&self, label: ValueId) -> bool {
        self.labels.has(label)
    }
}

impl FunctionRule for FunctionNames<'_> {
    ghost breaks = { λ r. names_unknown r.known.now.names.now.source.now (is_marked r.values) (is_marked r.labels) };

    fn breaks_signature(&self, _place: Place, function: &Function) -> Result<bool, AllocError> {
        Ok(!signature_types_pass(self.known, function))
    }

    fn breaks_block(&self, _place: Place, _block: &Block) -> Result<bool, AllocError> {
        Ok(false)
    }

    fn breaks_phi(&self, _place: Place, phi: &Phi) -> Result<bool, AllocError> {
        let incoming = phi.incoming.as_slice();
        let knows_operands = incoming_operands_pass(self, incoming)?;
        let knows_labels = incoming_labels_pass(self, incoming);
        Ok(!(knows_type(self.known.names, &phi.ty) && (knows_operands && knows_labels)))
    }

    fn breaks_instr(&self, _place: Place, instr: &Instr) -> Result<bool, AllocError> {
        let knows_operands = instr_operands_pass(self, instr)?;
        let knows_called = self.known.knows_called(instr)?;
        Ok(!(instr_types_pass(self.known, instr) && (knows_operands && knows_called)))
    }

    fn breaks_ending(&self, _place: Place, term: &Terminator) -> Result<bool, AllocError> {
        let knows_operands = ending_operands_pass(self, term)?;
        let knows_labels = ending_labels_pass(self, term);
        Ok(!(ending_types_pass(self.known, term) && (knows_operands && knows_labels)))
    }
}

impl ModuleRule for UnknownNames<'_> {
    ghost says = { λ r. unknown_names r.names.now.source.now };

    fn breaks_type(&self, _at: usize, item: &TypeItem) -> Result<bool, AllocError> {
        Ok(!knows_type(self.names, &item.ty))
    }

    fn breaks_global(&self, _at: usize, item: &GlobalItem) -> Result<bool, AllocError> {
        let knows_init = self.knows_initial(&item.init)?;
        Ok(!(knows_type(self.names, &item.ty) && knows_init))
    }

    fn breaks_declaration(&self, _at: usize, item: &Declaration) -> Result<bool, AllocError> {
        Ok(!types_pass(self, &item.result, item.params.as_slice()))
    }

    fn first_in(&self, func: FuncId, function: &Function) -> Result<Option<Place>, AllocError> {
        let locals = locals_of(self.alloc, func, function)?;
        let names = function.names.len();
        let values = defined(self.alloc, names, false, locals.as_slice())?;
        let labels = defined(self.alloc, names, true, locals.as_slice())?;
        let rule = FunctionNames {
            known: self,
            values,
            labels,
        };
        let place = first_part(&rule, func, function)?;
        Ok(place)
    }
}

/// The first use of a name that isn't known (rule N2).
pub fn first_unknown_name(alloc: Global, names: &Names<'_>) -> Result<Option<Place>, AllocError>
    ensures { IfOk result (λ p. p ≡ first_place_of (unknown_names names.now.source.now) names.now.source.now) }
{
    first_place(&UnknownNames { alloc, names }, names.source)
}
