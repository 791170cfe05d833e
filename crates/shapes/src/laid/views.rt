ghost use Rattle.std.specs.Prelude.{◌≡◌};
ghost use Rattle.std.specs.Option.{option_map};
ghost use Rattle.shapes.specs.Laid.{kinds_in, laid_at};
ghost use Rattle.shapes.specs.Tables.{IsTable, kinds_at};

use super::Laid;
use crate::tables::Shapes;
use cells::layouts::Layout;
use value::kinds::Kind;

impl Shapes {
    // The shape at a place as a layout; nothing where there is none.
    pub fn laid(&self, place: usize) -> Option<Laid<'_>>
        ensures value { option_map kinds_in result ≡ laid_at (kinds_at self.now place) }
        ensures table { IsTable self.now }
    {
        self.row(place)?;
        Some(Laid { table: self, place })
    }
}

impl<'a> Layout for Laid<'a> {
    ghost kinds = { λ l. kinds_in l };

    fn size(&self) -> usize {
        self.table.size(self.place)
    }

    fn kind(&self, i: usize) -> Option<Kind> {
        self.table.kind(self.place, i)
    }
}
