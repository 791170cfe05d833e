use std::marker::Model;

pub mod listed;

// What a script found: at most 32 numbers, in the order in which they were listed.
#[derive(Drop)]
pub struct Findings {
    numbers: Vec<i64>,
}

// Clauses see the numbers.
impl Model for Findings {
    ghost use Rattle.std.specs.Prelude.{List, ℤ};

    ghost Value = { List ℤ };

    ghost use Rattle.cells.specs.Held.{Held};

    ghost view = { λ f. f.numbers.items };

    ghost invariant = { Held };
}
