ghost use Rattle.std.specs.Prelude.{◌≡◌, ◌≤◌, [], length, IfOk};
ghost use Rattle.cells.specs.Findings.{added, number_at};

use super::Findings;
use reason::faults::RunFault;
use std::alloc::{AllocError, Global};
use value::values::Stop;

impl Findings {
    pub fn new(heap: Global) -> Result<Findings, AllocError>
        ensures { IfOk result (λ f. f ≡ []) }
    {
        let numbers = Vec::with_capacity(heap, 32)?;
        Ok(Findings { numbers })
    }

    // One finding more; fault 39 where there are 32.
    pub fn add(&mut self, number: i64) -> Result<(), Stop>
        ensures result { result ≡ (added number self.old).0 }
        ensures after { self.new ≡ (added number self.old).1 }
        ensures few { (length self.old ≤ 32) × (length self.new ≤ 32) }
    {
        if self.numbers.len() >= 32 {
            return Err(RunFault::FindingsFull.into());
        }
        self.numbers.push_reserved(number);
        Ok(())
    }

    // How many there are. A caller sees the numbers alone, so `few` states what the invariant says of them.
    pub fn count(&self) -> usize
        ensures value { result ≡ length self.now }
        ensures few { length self.now ≤ 32 }
    {
        self.numbers.len()
    }

    // Finding k, counted from 0; nothing from the count on.
    pub fn get(&self, k: usize) -> Option<i64>
        ensures value { result ≡ number_at self.now k }
        ensures few { length self.now ≤ 32 }
    {
        self.numbers.get(k).copied()
    }

    pub fn clear(&mut self)
        ensures after { self.new ≡ [] }
        ensures few { length self.old ≤ 32 }
    {
        self.numbers.clear();
    }
}
