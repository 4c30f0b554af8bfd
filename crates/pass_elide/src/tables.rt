//! Layouts by their coroutines, and sites by their places.

ghost use Rattle.std.specs.Prelude.{◌≡◌, ◌==◌, ◌||◌, ℕ, IfOk, OnOk, is_some, option_and_then, slice_get};
ghost use Rattle.std.specs.Option.{option_copied};
ghost use Rattle.indexmap.specs.IndexMap.{get};
ghost use Rattle.ir_tables.specs.Tables.{or_at};
ghost use Rattle.pass_elide.specs.Frames.{callee_layout, layout_of};
ghost use Rattle.pass_elide.specs.Places.{is_at, is_site, same_call_place};
ghost use Rattle.pass_elide.specs.Tables.{FindsLayouts, FindsSites};
ghost use Rattle.pass_elide.specs.declared.places.CallPlace.{CallPlace as TheCallPlace};

use crate::places::{CallPlace, call_place_of};
use frame_layout::Layout;
use indexmap::IndexMap;
use ir_base::{FuncId, Items, Place};
use ir_model::{Callee, Instr, Module};
use ir_tables::Names;
use std::alloc::{AllocError, Global};

/// For each coroutine the position of its first layout.
type Positions = IndexMap<FuncId, usize>;

/// The calls at the sites.
type CallPlaces = IndexMap<CallPlace, bool>;

/// What a module's calls are looked up in: its functions, the layouts of its coroutines, and the sites.
#[derive(Drop)]
pub struct Tables<'a> {
    pub names: Names<'a>,
    pub layouts: &'a Items<Layout>,
    pub sites: &'a [Place],
    positions: Positions,
    places: CallPlaces,
    ghost layouts_found: { FindsLayouts layouts.now positions },
    ghost sites_found: { FindsSites sites.now places },
}

/// The item at a position, where there is one.
pub fn item_at<T>(items: &Items<T>, at: Option<usize>) -> Option<&T>
    ensures { option_copied result ≡ option_and_then (slice_get items.now) at }
{
    match at {
        None => None,
        Some(at) => items.get(at),
    }
}

fn position_of(positions: &Positions, func: FuncId) -> Option<usize>
    ensures { result ≡ get ◌==◌ positions.now func }
{
    positions.get(&func).copied()
}

/// Puts a position beside a coroutine that has none.
fn note(positions: &mut Positions, func: FuncId, at: usize) -> Result<(), AllocError>
    ensures { OnOk result ((n : ℕ) → get ◌==◌ positions.new n ≡ or_at (get ◌==◌ positions.old n) (func == n) at) }
{
    match position_of(positions, func) {
        Some(_) => Ok(()),
        None => {
            positions.insert(func, at)?;
            Ok(())
        }
    }
}

fn positions_of(alloc: Global, layouts: &[Layout]) -> Result<Positions, AllocError>
    ensures { IfOk result (λ table. FindsLayouts layouts.now table) }
{
    let mut positions = IndexMap::new(alloc);
    for at in 0..layouts.len() {
        note(&mut positions, layouts[at].coroutine, at)?;
    }
    Ok(positions)
}

fn has(places: &CallPlaces, place: CallPlace) -> bool
    ensures { result ≡ is_some (get same_call_place places.now place) }
{
    places.get(&place).is_some()
}

fn add(places: &mut CallPlaces, place: CallPlace) -> Result<(), AllocError>
    ensures { OnOk result ((s : TheCallPlace) → is_some (get same_call_place places.new s)
        ≡ (same_call_place place s || is_some (get same_call_place places.old s))) }
{
    places.insert(place, true)?;
    Ok(())
}

/// Adds the instruction of a place, where it is that of one.
fn add_place(places: &mut CallPlaces, place: Place) -> Result<(), AllocError>
    ensures { OnOk result ((s : TheCallPlace) → is_some (get same_call_place places.new s)
        ≡ (is_at s place || is_some (get same_call_place places.old s))) }
{
    match call_place_of(place) {
        None => Ok(()),
        Some(found) => add(places, found),
    }
}

fn places_of(alloc: Global, sites: &[Place]) -> Result<CallPlaces, AllocError>
    ensures { IfOk result (λ places. FindsSites sites.now places) }
{
    let mut places = IndexMap::new(alloc);
    for site in sites {
        add_place(&mut places, *site)?;
    }
    Ok(places)
}

impl<'a> Tables<'a> {
    /// The tables of a module.
    pub fn new(
        alloc: Global,
        source: &'a Module,
        layouts: &'a Items<Layout>,
        sites: &'a [Place],
    ) -> Result<Tables<'a>, AllocError>
        ensures source { IfOk result (λ tables. tables.names.source.now ≡ source.now) }
        ensures layouts { IfOk result (λ tables. tables.layouts.now ≡ layouts.now) }
        ensures sites { IfOk result (λ tables. tables.sites.now ≡ sites.now) }
    {
        let names = Names::new(alloc, source)?;
        let positions = positions_of(alloc, layouts.as_slice())?;
        let places = places_of(alloc, sites)?;
        Ok(Tables {
            names,
            layouts,
            sites,
            positions,
            places,
        })
    }

    /// The layout of a coroutine's frame.
    pub fn layout(&self, func: FuncId) -> Option<&Layout>
        ensures { option_copied result ≡ layout_of self.now.layouts.now func }
    {
        item_at(self.layouts, position_of(&self.positions, func))
    }

    /// The layout of the frame of the coroutine that is called.
    pub fn callee_layout(&self, instr: &Instr) -> Option<&Layout>
        ensures { option_copied result ≡ callee_layout self.now.names.source.now self.now.layouts.now instr.now }
    {
        match instr {
            Instr::Call {
                callee: Callee::Named(name),
                ..
            } => match self.names.function_named(name) {
                None => None,
                Some(func) => self.layout(func),
            },
            _ => None,
        }
    }

    /// Whether a site is there.
    pub fn is_site(&self, place: CallPlace) -> bool
        ensures { result ≡ is_site self.now.sites.now place }
    {
        has(&self.places, place)
    }
}
