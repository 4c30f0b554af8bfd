//! Sets of points of a function.

ghost use Rattle.std.specs.Prelude.{◌≡◌, ◌||◌, ◌&&◌, ◌+◌, ◌++◌, ◌∷◌, [], IfOk, map, length, replicate, true, false};
ghost use Rattle.ir_paths.specs.Paths.{has_point};
ghost use Rattle.flow_points.specs.Rows.{AreBlank, AreCleared, AreJoined, is_marked, sizes_of, with_mark};

use ir_paths::Point;
use ir_paths::ir_base_library::Items;
use ir_paths::ir_model_library::Function;
use std::alloc::{AllocError, Global};
use std::marker::Model;

/// A mark for each point of a function, and for one in the position behind the last block.
#[derive(Drop)]
pub struct Marks {
    rows: Vec<Items<bool>>,
}

impl Model for Marks {
    ghost use Rattle.std.specs.Prelude.{List, Bool};

    ghost Value = { List (List Bool) };

    ghost view = { λ m. m.rows.items };
}

/// So many points and one more, none of them marked.
fn blank_row(alloc: Global, count: usize) -> Result<Items<bool>, AllocError>
    ensures { IfOk result (λ row. row ≡ replicate count false ++ false ∷ []) }
{
    let mut row = Items::from_vec(vec![in alloc; false; count]?);
    row.push(false)?;
    Ok(row)
}

impl Marks {
    /// No point of a function is marked.
    pub fn new(alloc: Global, function: &Function) -> Result<Self, AllocError>
        ensures sizes { IfOk result (λ marks. map length marks ≡ sizes_of function.now) }
        ensures blank { IfOk result (λ marks. AreBlank marks) }
    {
        let mut rows = Vec::new(alloc);
        for block in function.blocks.as_slice() {
            rows.push(blank_row(alloc, block.instrs.len())?)?;
        }
        rows.push(blank_row(alloc, 0)?)?;
        Ok(Marks { rows })
    }

    /// Whether a point is marked.
    pub fn has(&self, point: Point) -> bool
        ensures { result ≡ is_marked self.now point }
    {
        match self.rows.get(point.block) {
            None => false,
            Some(row) => match row.get(point.at) {
                None => false,
                Some(mark) => *mark,
            },
        }
    }

    /// Sets or clears the mark of a point.
    pub fn set(&mut self, point: Point, mark: bool)
        ensures { self.new ≡ with_mark self.old point mark }
    {
        if point.block < self.rows.len() {
            self.rows[point.block].set(point.at, mark);
        }
    }

    /// Marks points.
    pub fn set_all(&mut self, points: &[Point])
        ensures { AreJoined points.now self.old self.new }
    {
        for point in points {
            self.set(*point, true);
        }
    }

    /// Clears the marks of points.
    pub fn clear_all(&mut self, points: &[Point])
        ensures { AreCleared points.now self.old self.new }
    {
        for point in points {
            self.set(*point, false);
        }
    }
}
