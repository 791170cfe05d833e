ghost use Rattle.std.specs.Prelude.{◌≡◌, IfOk};
ghost use Rattle.cells.specs.Cells.{cell_at, read_cell};
ghost use Rattle.cells.specs.Laws.{KeepsKinds};
ghost use Rattle.cells.specs.Memory.{IsMemory, empty, written};

use super::Store;
use crate::cell::{Cell, index_of};
use std::alloc::{AllocError, Global};
use value::kinds::Kind;
use value::values::{Stop, Value};

impl Store {
    // A store with every cell dead.
    pub fn new(heap: Global) -> Result<Store, AllocError>
        ensures { IfOk result (λ s. s ≡ empty) }
    {
        let cells = vec![in heap; Cell::Dead; 2048]?;
        let blocks = vec![in heap; None; 1024]?;
        Ok(Store {
            cells,
            used: 0,
            blocks,
        })
    }

    // The cell at an address; a dead one where there is none.
    fn cell(&self, address: i64) -> Cell
        ensures value { result ≡ cell_at self.now.cells address }
        ensures memory { IsMemory self.now }
    {
        // Where a field is read, the proof learns what is true of every store.
        let _cells = &self.cells;
        index_of(address).map_or(Cell::Dead, |place| self.cells[place])
    }

    // The value of a kind in the cell at an address: fault 32 where it is absent, dead or of another kind, then 33 where it is
    // unwritten.
    pub fn read(&self, address: i64, kind: Kind) -> Result<Value, Stop>
        ensures value { result ≡ read_cell kind (cell_at self.now.cells address) }
        ensures memory { IsMemory self.now }
    {
        self.cell(address).read(kind)
    }

    // Writes a value to the cell at an address: fault 32 where it is absent, dead or of another kind.
    pub fn write(&mut self, address: i64, value: Value) -> Result<(), Stop>
        ensures result { result ≡ (written address value self.old).0 }
        ensures after { self.new ≡ (written address value self.old).1 }
        ensures kinds { KeepsKinds self.old self.new }
        ensures memory { IsMemory self.old × IsMemory self.new }
    {
        let cell = self.cell(address).written(value)?;
        if let Some(place) = index_of(address) {
            self.put(place, cell);
        }
        Ok(())
    }
}
