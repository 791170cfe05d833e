ghost use Rattle.std.specs.Prelude.{◌≡◌};
ghost use Rattle.cells.specs.Laws.{KeepsFirst, LeavesHeap};
ghost use Rattle.cells.specs.Memory.{IsMemory, given_up, laid, laid_value};

use super::Store;
use crate::cell::{Cell, address_of};
use crate::layouts::Layout;
use reason::faults::RunFault;
use value::values::{Stop, Value};

impl Store {
    // How many cells variables use: the mark to give up to. A caller sees the memory alone, so `memory` states what the invariant says
    // of it.
    pub fn mark(&self) -> usize
        ensures value { result ≡ self.now.used }
        ensures memory { IsMemory self.now }
    {
        self.used
    }

    // A variable comes to life above what is in use, unwritten; its first cell is told. Fault 35 where it does not fit.
    pub fn lay<L: Layout>(&mut self, layout: &L) -> Result<i64, Stop>
        ensures result { result ≡ (laid (L.kinds layout.now) self.old).0 }
        ensures after { self.new ≡ (laid (L.kinds layout.now) self.old).1 }
        ensures heap { LeavesHeap self.old self.new }
        ensures first { KeepsFirst self.old.used self.old self.new }
        ensures memory { IsMemory self.old × IsMemory self.new }
    {
        let size = layout.size();
        let used = self.used;
        if size > 1024 - used {
            return Err(RunFault::StackFull.into());
        }
        self.used = used + size;
        self.revive(used, layout);
        Ok(address_of(used))
    }

    // A parameter comes to life above what is in use, holding its argument; its cell is told. Fault 35 where it does not fit.
    pub fn lay_value(&mut self, value: Value) -> Result<i64, Stop>
        ensures result { result ≡ (laid_value value self.old).0 }
        ensures after { self.new ≡ (laid_value value self.old).1 }
        ensures heap { LeavesHeap self.old self.new }
        ensures first { KeepsFirst self.old.used self.old self.new }
        ensures memory { IsMemory self.old × IsMemory self.new }
    {
        let used = self.used;
        if value.kind().is_none() {
            return Err(Stop::Misfit);
        }
        if used > 1023 {
            return Err(RunFault::StackFull.into());
        }
        self.used = used + 1;
        self.put(used, Cell::from(value));
        Ok(address_of(used))
    }

    // Everything above a mark dies.
    pub fn give_up(&mut self, mark: usize)
        ensures after { self.new ≡ given_up mark self.old }
        ensures heap { LeavesHeap self.old self.new }
        ensures first { KeepsFirst mark self.old self.new }
        ensures memory { IsMemory self.old × IsMemory self.new }
    {
        let used = self.used;
        if mark < used {
            self.used = mark;
            self.clear(mark, used - mark);
        }
    }
}
