ghost use Rattle.std.specs.Prelude.{◌≡◌, ◌≤◌, [], length, IfNone, IfOk, IfSome};
ghost use Rattle.shapes.specs.Forms.{Sizes, added, kinds_of, measured, rows_of};
ghost use Rattle.shapes.specs.Tables.{IsTable, RowAt, kinds_at};

use super::Shapes;
use super::measured::Measured;
use crate::forms::{Shape, refers_below};
use std::alloc::{AllocError, Global};

impl Shapes {
    // An empty table, with room for 2,000 shapes.
    pub fn new(heap: Global) -> Result<Shapes, AllocError>
        ensures { IfOk result (λ t. t ≡ []) }
    {
        let rows = Vec::with_capacity(heap, 2000)?;
        Ok(Shapes { rows })
    }

    // The row at a place.
    pub(crate) fn row(&self, place: usize) -> Option<&Measured>
        ensures some { IfSome result (λ row. RowAt self.now place row.now) }
        ensures none { IfNone result (kinds_at self.now place ≡ []) }
        ensures table { IsTable self.now }
    {
        self.rows.get(place)
    }

    // How many cells the shape at a place has; 0 where there is none. A caller sees the shapes alone, so `table` states what the invariant
    // says of them.
    #[tactic(auto, using(crate::proofs::Rowed::sizes_hold))]
    pub fn size(&self, place: usize) -> usize
        ensures value { result ≡ length (kinds_at self.now place) }
        ensures small { result ≤ 1024 }
        ensures table { IsTable self.now }
        ensures sizes { Sizes }
    {
        self.row(place).map_or(0, |row| row.size)
    }

    // How many cells a shape has, if that is 1 to 1,024.
    fn size_of(&self, shape: Shape) -> Option<usize>
        ensures { result ≡ measured (length (kinds_of (rows_of self.now) shape)) }
    {
        let size = match shape {
            Shape::Scalar(_) => 1,
            Shape::Array { count, element } => count.checked_mul(self.size(element))?,
            Shape::Sequence { first, rest } => self.size(first) + self.size(rest),
        };
        (1..=1024).contains(&size).then_some(size)
    }

    // Adds a shape, and tells its place; nothing where the table is full, where the shape names one that is not in it, or where it has
    // no cell or over 1,024.
    pub fn add(&mut self, shape: Shape) -> Option<usize>
        ensures result { result ≡ (added shape self.old).0 }
        ensures after { self.new ≡ (added shape self.old).1 }
        ensures table { IsTable self.old × IsTable self.new }
    {
        let place = self.rows.len();
        if place >= 2000 || !refers_below(shape, place) {
            return None;
        }
        let size = self.size_of(shape)?;
        self.rows.push_reserved(Measured { shape, size });
        Some(place)
    }
}
