ghost use Rattle.std.specs.Prelude.{◌≡◌};
ghost use Rattle.cells.specs.Layouts.{kind_at};
ghost use Rattle.shapes.specs.Tables.{IsTable, kinds_at};

use super::Shapes;
use crate::forms::Shape;
use value::kinds::Kind;

impl Shapes {
    // The kind of cell i, counted from 0, of the shape at a place.
    #[tactic(auto, using(crate::proofs::Rowed::kind_past, crate::proofs::Rowed::kind_left, crate::proofs::Rowed::kind_right, crate::proofs::Rowed::kind_repeated))]
    pub fn kind(&self, place: usize, i: usize) -> Option<Kind>
        ensures value { result ≡ kind_at (kinds_at self.now place) i }
        ensures table { IsTable self.now }
    {
        let row = self.row(place)?;
        if i >= row.size {
            return None;
        }
        match row.shape {
            Shape::Scalar(kind) => Some(kind),
            Shape::Array { element, .. } => {
                let size = self.size(element);
                self.kind(element, i % size)
            }
            Shape::Sequence { first, rest } => {
                let size = self.size(first);
                if i < size {
                    self.kind(first, i)
                } else {
                    self.kind(rest, i - size)
                }
            }
        }
    }
}
