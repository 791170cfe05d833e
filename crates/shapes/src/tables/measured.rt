ghost use Rattle.std.specs.Prelude.{◌≤◌};

use crate::forms::Shape;

// A shape, and how many cells it has: 1 to 1,024.
#[derive(Clone, Copy)]
pub struct Measured {
    pub shape: Shape,
    pub size: usize,
    ghost some: { 1 ≤ size },
    ghost small: { size ≤ 1024 },
}
