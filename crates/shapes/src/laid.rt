ghost use Rattle.std.specs.Prelude.{◌≤◌, length};
ghost use Rattle.shapes.specs.Tables.{IsTable, kinds_at};

use crate::tables::Shapes;

pub mod views;

// A shape of a table, as a layout of cells.
#[derive(Clone, Copy)]
pub struct Laid<'a> {
    table: &'a Shapes,
    place: usize,
    ghost there: { 1 ≤ length (kinds_at table.now place) },
    ghost whole: { IsTable table.now },
}
