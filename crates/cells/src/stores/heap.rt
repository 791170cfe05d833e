ghost use Rattle.std.specs.Prelude.{◌≡◌, length, drop};
ghost use Rattle.cells.specs.Laws.{Dies, Finds, LeavesVariables, Restores};
ghost use Rattle.cells.specs.Memory.{IsMemory, deleted, new_block};

use super::Store;
use crate::cell::{address_of, index_of};
use crate::fits::first_fit;
use crate::layouts::Layout;
use reason::faults::RunFault;
use value::values::Stop;

impl Store {
    // A block of `new`, in the lowest row of dead cells that is long enough; its first cell is told. Fault 34 where there is none.
    pub fn new_block<L: Layout>(&mut self, layout: &L) -> Result<i64, Stop>
        ensures result { result ≡ (new_block (L.kinds layout.now) self.old).0 }
        ensures after { self.new ≡ (new_block (L.kinds layout.now) self.old).1 }
        ensures lowest { Finds (drop 1024 self.old.cells) (length (L.kinds layout.now)) result }
        ensures undone { Restores self.old result self.new }
        ensures variables { LeavesVariables self.old self.new }
        ensures memory { IsMemory self.old × IsMemory self.new }
    {
        let size = layout.size();
        if size > self.blocks.len() {
            return Err(RunFault::HeapFull.into());
        }
        let i = first_fit(self.heap(), size).ok_or(RunFault::HeapFull)?;
        self.blocks[i] = Some(size as u16);
        self.revive(1024 + i, layout);
        Ok(address_of(1024 + i))
    }

    // The block of `new` that begins at an address dies. Fault 36 where none does.
    pub fn delete(&mut self, address: i64) -> Result<(), Stop>
        ensures result { result ≡ (deleted address self.old).0 }
        ensures after { self.new ≡ (deleted address self.old).1 }
        ensures dies { Dies address result self.new }
        ensures variables { LeavesVariables self.old self.new }
        ensures memory { IsMemory self.old × IsMemory self.new }
    {
        // Where a field is read, the proof learns what is true of every store.
        let _blocks = &self.blocks;
        let place = index_of(address).ok_or(RunFault::NotABlock)?;
        let i = place.checked_sub(1024).ok_or(RunFault::NotABlock)?;
        let size = self.blocks[i].take().ok_or(RunFault::NotABlock)?;
        self.clear(place, usize::from(size));
        Ok(())
    }
}
