//! A module as a source machine runs it.

ghost use Rattle.std.specs.Prelude.{◌≡◌, ◌==◌, IfOk, filter, false, [], Some, slice_get};
ghost use Rattle.ir_paths.specs.declared.point.Point.{Point as ThePoint};
ghost use Rattle.std.specs.List.{list_any};
ghost use Rattle.ir_model.specs.Names.{function_at};
ghost use Rattle.ir_paths.specs.Slots.{promise_of as promise_of_function};
ghost use Rattle.ir_paths.specs.Windows.{leaves, is_suspend_of, points_where, suspend_of as suspend_of_save, resume_label as resume_label_of, destroy_label as destroy_label_of};
ghost use Rattle.run_source_tables.specs.Given.{facts_at, frame_of};
ghost use Rattle.run_source_tables.specs.Tables.{AreFramesOf, HaveSourceTables, frame_or as frame_or_none};
ghost use Rattle.run_source_tables.specs.Given.{has_final as has_final_of, is_final as is_final_point};

use crate::points::{destroy_label, is_final, resume_label};
use crate::shape::{has_final, promise_of, result_at, suspend_with};
use crate::table::{SourceTable, all_tables, frames_by_function};
use ir_base::{BlockId, FuncId, Items, ValueId};
use ir_model::{Frame, Function, Module};
use ir_paths::{Facts, Point};
use run_step::Program;
use std::alloc::{AllocError, Global};

/// A module with the answers to its observed calls, the sizes of its coroutines' frames, and the facts about its
/// functions' paths.
#[derive(Drop)]
pub struct SourceProgram {
    pub program: Program,
    pub sizes: Items<Frame>,
    pub facts: Items<Facts>,
    tables: Items<SourceTable>,
    frames: Items<Option<Frame>>,
    ghost tables_found: { HaveSourceTables program.module.functions facts tables },
    ghost frames_found: { AreFramesOf sizes frames },
}

fn copied_frames(alloc: Global, frames: &[Frame]) -> Result<Items<Frame>, AllocError>
    ensures { IfOk result (λ all. all ≡ frames.now) }
{
    Ok(Items::from_vec(frames.to_vec(alloc)?))
}

/// The frame of a coroutine among frames.
fn find_frame(frames: &[Frame], func: FuncId) -> Frame
    ensures { result ≡ frame_of frames.now func }
{
    for frame in frames {
        if frame.coroutine == func {
            return *frame;
        }
    }
    Frame {
        coroutine: func,
        size: 0,
        align: 0,
    }
}

/// A frame, or that of no size.
fn frame_or(func: FuncId, found: Option<Frame>) -> Frame
    ensures { result ≡ frame_or_none func found }
{
    match found {
        None => Frame {
            coroutine: func,
            size: 0,
            align: 0,
        },
        Some(frame) => frame,
    }
}

fn has_value(values: &[ValueId], name: ValueId) -> bool
    ensures { result ≡ list_any (λ a. a == name) values.now }
{
    for value in values {
        if *value == name {
            return true;
        }
    }
    false
}

impl SourceProgram {
    /// A module with what is known of it.
    pub fn new(
        alloc: Global,
        code: Module,
        sizes: &[Frame],
        facts: Items<Facts>,
        answers: &[i128],
    ) -> Result<Self, AllocError>
        ensures same_module { IfOk result (λ p. p.program.«module» ≡ code) }
        ensures same_answers { IfOk result (λ p. p.program.answers ≡ answers.now) }
        ensures same_sizes { IfOk result (λ p. p.sizes ≡ sizes.now) }
        ensures same_facts { IfOk result (λ p. p.facts ≡ facts) }
    {
        let program = Program::new(alloc, code, answers)?;
        let sizes = copied_frames(alloc, sizes)?;
        let tables = all_tables(alloc, program.module.functions.as_slice(), &facts)?;
        let count = program.module.functions.len();
        let frames = frames_by_function(alloc, count, sizes.as_slice())?;
        Ok(SourceProgram {
            program,
            sizes,
            facts,
            tables,
            frames,
        })
    }

    /// The frame of the coroutine at a position.
    pub fn frame(&self, func: FuncId) -> Frame
        ensures { result ≡ frame_of self.now.sizes func }
    {
        match self.frames.get(func) {
            None => find_frame(self.sizes.as_slice(), func),
            Some(found) => frame_or(func, *found),
        }
    }

    /// Whether an alloca of the function at a position is listed as a ramp slot.
    fn is_listed(&self, func: FuncId, alloca: ValueId) -> bool
        ensures { result ≡ list_any (λ a. a == alloca) (facts_at self.now.facts func).ramp_slots }
    {
        match self.facts.get(func) {
            None => false,
            Some(facts) => has_value(facts.ramp_slots.as_slice(), alloca),
        }
    }

    /// Whether an alloca of the function at a position is a ramp slot.
    pub fn is_ramp_slot(&self, func: FuncId, alloca: ValueId) -> bool
        ensures { result ≡ list_any (λ a. a == alloca) (facts_at self.now.facts func).ramp_slots }
    {
        match self.program.module.functions.get(func) {
            None => self.is_listed(func, alloca),
            Some(_) => match self.tables.get(func) {
                None => self.is_listed(func, alloca),
                Some(table) => match table.ramp_slots.get(alloca) {
                    None => self.is_listed(func, alloca),
                    Some(mark) => *mark,
                },
            },
        }
    }

    /// Whether an edge from a block of the function at a position may leave a window.
    pub fn may_be_left(&self, func: FuncId, block: BlockId) -> bool
        ensures { (p q : ThePoint) → p.block ≡ block → result ≡ false → filter (λ w. leaves p q w) (facts_at self.now.facts func).windows ≡ [] }
    {
        match self.program.module.functions.get(func) {
            None => true,
            Some(_) => match self.tables.get(func) {
                None => true,
                Some(table) => match table.windows.get(block) {
                    None => true,
                    Some(mark) => *mark,
                },
            },
        }
    }
}

impl SourceProgram {
    /// Whether a point of the function at a position is a final suspend.
    pub fn is_final(&self, func: FuncId, suspend: Point) -> bool
        ensures { result ≡ is_final_point (function_at self.now.program.module func) suspend }
    {
        match self.program.module.functions.get(func) {
            None => false,
            Some(function) => is_final(function, suspend),
        }
    }

    /// Whether the coroutine at a position has a final suspend.
    pub fn has_final(&self, func: FuncId) -> bool
        ensures { result ≡ has_final_of (function_at self.now.program.module func) }
    {
        match self.program.module.functions.get(func) {
            None => false,
            Some(function) => match self.tables.get(func) {
                None => has_final(function),
                Some(table) => table.has_final,
            },
        }
    }

    /// Where a resume goes on behind a suspend.
    pub fn resume_label(&self, func: FuncId, suspend: Point) -> ValueId
        ensures { result ≡ resume_label_of (function_at self.now.program.module func) suspend }
    {
        match self.program.module.functions.get(func) {
            None => 0,
            Some(function) => resume_label(function, suspend),
        }
    }

    /// Where a destroy goes on behind a suspend.
    pub fn destroy_label(&self, func: FuncId, suspend: Point) -> ValueId
        ensures { result ≡ destroy_label_of (function_at self.now.program.module func) suspend }
    {
        match self.program.module.functions.get(func) {
            None => 0,
            Some(function) => destroy_label(function, suspend),
        }
    }

    /// The first suspend of the function at a position that takes a token.
    fn suspend_with(&self, func: FuncId, function: &Function, token: ValueId) -> Option<Point>
        requires { slice_get self.now.program.module.functions func ≡ Some function.now }
        ensures { result ≡ slice_get (points_where (is_suspend_of (Some token)) function.now) 0 }
    {
        match self.tables.get(func) {
            None => suspend_with(function, token),
            Some(table) => match table.suspends.get(token) {
                None => suspend_with(function, token),
                Some(found) => *found,
            },
        }
    }

    /// The suspend that takes the token of a save.
    pub fn suspend_of(&self, func: FuncId, save: Point) -> Option<Point>
        ensures { result ≡ suspend_of_save (function_at self.now.program.module func) save }
    {
        match self.program.module.functions.get(func) {
            None => None,
            Some(function) => match result_at(function, save) {
                None => None,
                Some(token) => self.suspend_with(func, function, token),
            },
        }
    }

    /// The alloca of the promise of the coroutine at a position.
    pub fn promise_of(&self, func: FuncId) -> Option<ValueId>
        ensures { result ≡ promise_of_function (function_at self.now.program.module func) }
    {
        match self.program.module.functions.get(func) {
            None => None,
            Some(function) => match self.tables.get(func) {
                None => promise_of(function),
                Some(table) => table.promise,
            },
        }
    }
}
