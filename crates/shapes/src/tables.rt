use crate::forms::Shape;
use measured::Measured;
use std::marker::Model;

pub mod builds;
mod measured;
pub mod walks;

// Shapes, each of which names only earlier ones.
#[derive(Drop)]
pub struct Shapes {
    rows: Vec<Measured>,
}

// Clauses see the shapes, by their places.
impl Model for Shapes {
    ghost use Rattle.std.specs.Prelude.{List};
    ghost use Rattle.shapes.specs.declared.forms.Shape.{Shape};

    ghost Value = { List Shape };

    ghost use Rattle.shapes.specs.Rows.{shapes_of};
    ghost use Rattle.shapes.specs.Held.{Held};

    ghost view = { λ t. shapes_of t.rows.items };

    ghost invariant = { Held };
}
