//! A framed module as a machine runs it.

ghost use Rattle.std.specs.Prelude.{◌≡◌, ◌==◌, IfOk, find, map};
ghost use Rattle.std.specs.Option.{option_copied};
ghost use Rattle.run_framed.specs.Tables.{HavePlaces, ramps_from};
ghost use Rattle.ir_tables.specs.Tables.{FindsFirst};

use crate::copies::copied_layouts;
use crate::places::{find_layout, frames_of, places_by_function};
use crate::ramps::{GivenRamp, given_ramps};
use frame_layout::{Layout, Layouts};
use ir_base::{FuncId, Items, Name};
use ir_model::Module;
use ir_paths::Facts;
use ir_tables::{NameTable, find, table_of};
use run_source::run_source_tables_library::SourceProgram;
use std::alloc::{AllocError, Global};

/// A module as a source machine runs it, with the layouts of its coroutines' frames.
#[derive(Drop)]
pub struct FramedProgram {
    pub given: SourceProgram,
    pub layouts: Items<Layout>,
    places: Items<Option<usize>>,
    ramps: Items<GivenRamp>,
    names: NameTable,
    ghost places_found: { HavePlaces layouts places },
    ghost ramps_found: { ramps ≡ ramps_from 0 given.program.module.functions },
    ghost names_found: { FindsFirst (λ x. x.name) ramps names },
}

impl FramedProgram {
    ghost use Rattle.run_framed.specs.Framed.{frame_of_layout, given_ramp, layout_of};
    ghost use Rattle.run_framed.specs.FramedEffects.{framed_of};

    /// A module with the layouts of its coroutines' frames, and with what is known of its functions' paths.
    pub fn new(
        alloc: Global,
        code: Module,
        layouts: &Layouts,
        facts: Items<Facts>,
        answers: &[i128],
    ) -> Result<Self, AllocError>
        ensures { IfOk result (λ p. framed_of p ≡ record { given = record { code = code; sizes = map frame_of_layout layouts.now.coroutines; answers = answers.now; facts = facts }; layouts = layouts.now.coroutines }) }
    {
        let layouts = copied_layouts(alloc, layouts.coroutines.as_slice())?;
        let frames = frames_of(alloc, layouts.as_slice())?;
        let places = places_by_function(alloc, code.functions.len(), layouts.as_slice())?;
        let ramps = given_ramps(alloc, code.functions.as_slice())?;
        let names = table_of(alloc, ramps.as_slice())?;
        let given = SourceProgram::new(alloc, code, frames.as_slice(), facts, answers)?;
        Ok(FramedProgram {
            given,
            layouts,
            places,
            ramps,
            names,
        })
    }

    /// The layout of the function at a position, none where it has none.
    pub fn layout(&self, func: FuncId) -> Option<&Layout>
        ensures { option_copied result ≡ find (λ l. l.coroutine == func) self.now.layouts }
    {
        match self.places.get(func) {
            None => find_layout(self.layouts.as_slice(), func),
            Some(place) => match *place {
                None => None,
                Some(at) => self.layouts.get(at),
            },
        }
    }

    /// The size in bytes of the frame of the function at a position.
    pub fn frame_size(&self, func: FuncId) -> u64
        ensures { result ≡ (layout_of self.now.layouts func).size }
    {
        match self.layout(func) {
            None => 0,
            Some(layout) => layout.size,
        }
    }

    /// The alignment of the frame of the function at a position.
    pub fn frame_align(&self, func: FuncId) -> u64
        ensures { result ≡ (layout_of self.now.layouts func).align }
    {
        match self.layout(func) {
            None => 1,
            Some(layout) => layout.align,
        }
    }

    /// The coroutine whose ramp, given the address of its frame, has a name.
    pub fn given_ramp(&self, name: &Name) -> Option<FuncId>
        ensures { result ≡ given_ramp self.now.given.program.module name.now }
    {
        match find(&self.names, name) {
            None => None,
            Some(at) => match self.ramps.get(at) {
                None => None,
                Some(ramp) => Some(ramp.func),
            },
        }
    }
}
