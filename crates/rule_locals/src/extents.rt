//! Sizes of types, and alignments.

ghost use Rattle.std.specs.Prelude.{◌≡◌, ◌<◌, ◌^◌, IfOk};
ghost use Rattle.ir_model.specs.Layout.{size_of};
ghost use Rattle.rule_locals.specs.Extents.{is_aligned, is_sized, most_of_alloca, breaks_extents, misaligned_globals, first_past_extent as first_past_extent_of};
ghost use Rattle.rule_names.specs.Items.{first_place as first_place_of};

use crate::instrs::{InstrRule, first_instr};
use ir_base::{FuncId, Place};
use ir_model::{Declaration, Function, GlobalItem, Instr, IrType, TypeItem};
use ir_sizes::Sizes;
use ir_tables::Names;
use rule_names::{ModuleRule, Stage, first_place};
use std::alloc::AllocError;

/// How many bytes a type of a `getelementptr` has at most.
const MOST_INDEXED: u64 = 1048576;

/// Types of size 0 or above the limit, and alignments that aren't 1, 2, 4, 8 or 16 (rule Y4).
#[derive(Drop)]
struct Extents<'a> {
    stage: Stage,
    sizes: &'a Sizes<'a>,
}

/// Alignments of globals (rule Y4).
#[derive(Drop)]
struct GlobalAlignments {}

fn is_aligned(align: u64) -> bool
    ensures { result ≡ is_aligned align }
{
    align == 1 || (align == 2 || (align == 4 || (align == 8 || align == 16)))
}

/// How many bytes an alloca has at most.
fn most_of_alloca(stage: Stage) -> u64
    ensures value { result ≡ most_of_alloca stage }
    ensures small { result < 2 ^ 32 }
{
    match stage {
        Stage::Source => 1048576,
        Stage::Plain => 16777216,
    }
}

impl Extents<'_> {
    #[tactic(auto, using(crate::proofs::Sizes::sized_capped))]
    fn is_sized(&self, most: u64, ty: &IrType) -> bool
        requires { most < 2 ^ 32 }
        ensures { result ≡ is_sized most (size_of self.now.sizes.now.names.now.source.now ty.now) }
    {
        let size = self.sizes.size_of(ty);
        1 <= size && size <= most
    }
}

impl InstrRule for Extents<'_> {
    ghost instr_breaks = { λ r. breaks_extents r.stage r.sizes.now.names.now.source.now };

    fn is_broken(&self, _place: Place, instr: &Instr) -> Result<bool, AllocError> {
        match instr {
            Instr::Alloca { ty, align, .. } => {
                Ok(!(self.is_sized(most_of_alloca(self.stage), ty) && is_aligned(*align)))
            }
            Instr::Load { align, .. } => Ok(!is_aligned(*align)),
            Instr::Store { align, .. } => Ok(!is_aligned(*align)),
            Instr::Gep { ty, .. } => Ok(!self.is_sized(MOST_INDEXED, ty)),
            _ => Ok(false),
        }
    }
}

impl ModuleRule for GlobalAlignments {
    ghost says = { λ r. misaligned_globals };

    fn breaks_type(&self, _at: usize, _item: &TypeItem) -> Result<bool, AllocError> {
        Ok(false)
    }

    fn breaks_global(&self, _at: usize, item: &GlobalItem) -> Result<bool, AllocError> {
        Ok(!is_aligned(item.align))
    }

    fn breaks_declaration(&self, _at: usize, _item: &Declaration) -> Result<bool, AllocError> {
        Ok(false)
    }

    fn first_in(&self, _func: FuncId, _function: &Function) -> Result<Option<Place>, AllocError> {
        Ok(None)
    }
}

/// The first alloca or `getelementptr` whose type has size 0 or more than 2^20 bytes (2^24 of an alloca in a plain
/// module), or instruction with an alignment that isn't 1, 2, 4, 8 or 16 (rule Y4).
pub fn first_past_extent(
    stage: Stage,
    sizes: &Sizes<'_>,
    func: FuncId,
    function: &Function,
) -> Result<Option<Place>, AllocError>
    ensures { IfOk result (λ p. p ≡ first_past_extent_of stage sizes.now.names.now.source.now func function.now) }
{
    first_instr(&Extents { stage, sizes }, func, function)
}

/// The first global whose alignment isn't 1, 2, 4, 8 or 16 (rule Y4).
pub fn first_misaligned_global(names: &Names<'_>) -> Result<Option<Place>, AllocError>
    ensures { IfOk result (λ p. p ≡ first_place_of misaligned_globals names.now.source.now) }
{
    first_place(&GlobalAlignments {}, names.source)
}
