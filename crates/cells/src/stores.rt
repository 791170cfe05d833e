use crate::cell::Cell;
use std::marker::Model;

pub mod access;
pub mod heap;
mod rows;
pub mod variables;

// The 2,048 cells: 1 to 1,024 for variables, of which the first ones are in use, and 1,025 to 2,048 for `new`, with the size of
// the block that begins at each, where one does.
#[derive(Drop)]
pub struct Store {
    cells: Vec<Cell>,
    used: usize,
    blocks: Vec<Option<u16>>,
}

// Clauses see the memory.
impl Model for Store {
    ghost use Rattle.cells.specs.Memory.{IsMemory, Memory};

    ghost Value = { Memory };

    ghost use Rattle.cells.specs.Views.{memory};

    ghost view = { memory };

    ghost invariant = { λ s. IsMemory (memory s) };
}
