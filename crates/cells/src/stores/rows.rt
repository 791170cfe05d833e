ghost use Rattle.std.specs.Prelude.{◌≡◌, ◌+◌, ◌^◌, ◌<◌, length, replicate, drop, slice_set};
ghost use Rattle.cells.specs.Layouts.{fresh};
ghost use Rattle.cells.specs.Memory.{IsMemory, row_in, with_cells};
ghost use Rattle.cells.specs.declared.cell.Cell.TheVariants.{Dead};

use super::Store;
use crate::cell::Cell;
use crate::layouts::Layout;

impl Store {
    // The cells of `new`.
    pub(super) fn heap(&self) -> &[Cell]
        ensures value { result.now ≡ drop 1024 self.now.cells }
        ensures long { length result.now ≡ 1024 }
    {
        &self.cells[1024..]
    }

    // Replaces the cell at a place, counted from 0; nothing is changed where there is none.
    pub(super) fn put(&mut self, place: usize, cell: Cell)
        ensures after { self.new ≡ with_cells self.old (slice_set self.old.cells place cell) }
        ensures memory { IsMemory self.new }
    {
        if let Some(old) = self.cells.get_mut(place) {
            *old = cell;
        }
    }

    // A row of cells from a place on comes to life, unwritten.
    pub(super) fn revive<L: Layout>(&mut self, at: usize, layout: &L)
        requires { at + length (L.kinds layout.now) < 2 ^ 32 }
        ensures { self.new ≡ row_in at (fresh (L.kinds layout.now)) self.old }
    {
        for i in 0..layout.size() {
            if let Some(kind) = layout.kind(i) {
                self.put(at + i, Cell::Unwritten(kind));
            }
        }
    }

    // A row of cells dies, as far as it lies in the table.
    pub(super) fn clear(&mut self, at: usize, size: usize)
        requires { at + size < 2 ^ 32 }
        ensures after { self.new ≡ row_in at (replicate size Dead) self.old }
        ensures memory { IsMemory self.new }
    {
        let end = self.cells.len().min(at + size);
        if at < end {
            self.cells[at..end].fill(Cell::Dead);
        }
    }
}
