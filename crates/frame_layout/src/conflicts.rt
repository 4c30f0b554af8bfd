//! Which fields conflict.

ghost use Rattle.std.specs.Prelude.{◌≡◌, IfOk};
ghost use Rattle.frame_layout.specs.Conflicts.{field_conflicts};
ghost use Rattle.frame_layout.specs.Rows.{AreTables, marks_by};

use crate::layout::Field;
use crate::marks::{first_marks, is_apart_at, mark_all, mark_rows, push_marked};
use crate::rows::{row_of, rows_by_first, rows_by_second};
use ir_base::{Items, SuspendId};
use std::alloc::{AllocError, Global};

/// Values that cross suspends, slots that may be alive at them, and slots that conflict, by one half of the pairs and the other.
#[derive(Drop)]
struct Tables {
    crossed_by: Vec<Items<usize>>,
    crossing_at: Vec<Items<usize>>,
    alive_of: Vec<Items<usize>>,
    alive_at: Vec<Items<usize>>,
    later: Vec<Items<usize>>,
    earlier: Vec<Items<usize>>,
}

fn tables_of(
    alloc: Global,
    crossing: &[(usize, SuspendId)],
    alive_at: &[(usize, SuspendId)],
    slot_conflicts: &[(usize, usize)],
) -> Result<Tables, AllocError>
    ensures { IfOk result (λ t. AreTables crossing.now alive_at.now slot_conflicts.now t) }
{
    Ok(Tables {
        crossed_by: rows_by_first(alloc, crossing)?,
        crossing_at: rows_by_second(alloc, crossing)?,
        alive_of: rows_by_first(alloc, alive_at)?,
        alive_at: rows_by_second(alloc, alive_at)?,
        later: rows_by_first(alloc, slot_conflicts)?,
        earlier: rows_by_second(alloc, slot_conflicts)?,
    })
}

/// Marks of the fields in conflict with that at a position.
fn marks_of(
    alloc: Global,
    fields: &[Field],
    tables: &Tables,
    j: usize,
) -> Result<Vec<bool>, AllocError>
    ensures { IfOk result (λ marks. marks.items ≡ marks_by fields.now tables.now j) }
{
    let crossed = row_of(&tables.crossed_by, j);
    let mut marks = first_marks(alloc, fields, is_apart_at(fields, j))?;
    mark_rows(&mut marks, &tables.crossing_at, crossed);
    mark_rows(&mut marks, &tables.alive_at, crossed);
    mark_rows(&mut marks, &tables.crossing_at, row_of(&tables.alive_of, j));
    mark_all(&mut marks, row_of(&tables.later, j));
    mark_all(&mut marks, row_of(&tables.earlier, j));
    Ok(marks)
}

/// The pairs of positions in `fields`, the lower one first and in order, of fields that conflict, so that they may not share
/// bytes. The promise and the index conflict with all fields, two values where they cross one suspend, a value and a slot where
/// the slot may be alive at a suspend that the value crosses, and two slots where `frame_conflicts` names them.
pub fn field_conflicts(
    alloc: Global,
    fields: &[Field],
    crossing: &[(usize, SuspendId)],
    alive_at: &[(usize, SuspendId)],
    slot_conflicts: &[(usize, usize)],
) -> Result<Items<(usize, usize)>, AllocError>
    ensures { IfOk result (λ pairs. pairs ≡ field_conflicts fields.now crossing.now alive_at.now slot_conflicts.now) }
{
    let tables = tables_of(alloc, crossing, alive_at, slot_conflicts)?;
    let mut pairs = Items::new(alloc);
    for j in 0..fields.len() {
        let marks = marks_of(alloc, fields, &tables, j)?;
        push_marked(&mut pairs, j, &marks)?;
    }
    Ok(pairs)
}
