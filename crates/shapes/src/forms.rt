ghost use Rattle.std.specs.Prelude.{◌≡◌};
ghost use Rattle.shapes.specs.Forms.{refers_below};

use value::kinds::Kind;

// How a type lies in cells. Others are named by their place in a table.
#[derive(Clone, Copy, PartialEq, Eq, Debug)]
pub enum Shape {
    // one cell
    Scalar(Kind),
    // a count of an element
    Array { count: usize, element: usize },
    // a component and those after it
    Sequence { first: usize, rest: usize },
}

// Whether all that it names stands below a place.
pub fn refers_below(shape: Shape, place: usize) -> bool
    ensures { result ≡ refers_below shape place }
{
    match shape {
        Shape::Scalar(_) => true,
        Shape::Array { element, .. } => element < place,
        Shape::Sequence { first, rest } => first < place && rest < place,
    }
}
