ghost use Rattle.std.specs.Prelude.{◌≡◌, ◌≤◌, List, [], ◌∷◌, length};
ghost use Rattle.value.specs.declared.kinds.Kind.{Kind};
ghost use Rattle.cells.specs.Layouts.{kind_at};

use value::kinds::Kind;

// The kinds of a row of cells, as a type lays them out.
pub trait Layout {
    ghost kinds: { Self → List Kind };

    // How many cells there are: at least one.
    fn size(&self) -> usize
        ensures value { result ≡ length (kinds self.now) }
        ensures some { 1 ≤ result };

    // The kind of cell i, counted from 0.
    fn kind(&self, i: usize) -> Option<Kind>
        ensures { result ≡ kind_at (kinds self.now) i };
}

// A scalar is one cell.
impl Layout for Kind {
    ghost kinds = { λ k. k ∷ [] };

    fn size(&self) -> usize {
        1
    }

    fn kind(&self, i: usize) -> Option<Kind> {
        (i == 0).then_some(*self)
    }
}
