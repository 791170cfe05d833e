// What a caller can prove from the contracts of the memory alone, whatever store, findings or shapes it is given.
ghost use Rattle.std.specs.Prelude.{◌≡◌, ◌≤◌, length, Ok, Err, None};
ghost use Rattle.std.specs.Result.{result_and};
ghost use Rattle.reason.specs.declared.faults.RunFault.TheVariants.{NoCell};
ghost use Rattle.value.specs.declared.values.Stop.TheVariants.{Fault};
ghost use Rattle.cells.specs.Findings.{number_at};
ghost use Rattle.cells.specs.Layouts.{kind_at};
ghost use Rattle.cells.specs.Memory.{deleted, given_up};
ghost use Rattle.shapes.specs.Laid.{kinds_in};
ghost use Rattle.shapes.specs.Tables.{kinds_at};

use cells::findings::Findings;
use cells::layouts::Layout;
use cells::stores::Store;
use shapes::laid::Laid;
use shapes::tables::Shapes;
use value::kinds::Kind;
use value::values::{Stop, Value};

// The first cell of a block that was deleted is dead; where none was, the fault is that of `delete`.
pub fn read_deleted(
    store: &mut Store,
    address: i64,
    kind: Kind,
) -> Result<Result<Value, Stop>, Stop>
    ensures result { result ≡ result_and (deleted address store.old).0 (Ok (Err (Fault NoCell))) }
    ensures after { store.new ≡ (deleted address store.old).1 }
{
    store.delete(address)?;
    Ok(store.read(address, kind))
}

// Variables never use more than 1,024 cells.
pub fn give_up_none(store: &mut Store)
    ensures after { store.new ≡ given_up 1024 store.old }
    ensures used { store.new.used ≡ store.old.used }
{
    store.give_up(1024);
}

// There is no finding 32.
pub fn finding_past(findings: &Findings) -> Option<i64>
    ensures value { result ≡ number_at findings.now 32 }
    ensures past { result ≡ None }
{
    findings.get(32)
}

// No shape has a cell 1,024.
pub fn kind_past(shapes: &Shapes, place: usize) -> Option<Kind>
    ensures value { result ≡ kind_at (kinds_at shapes.now place) 1024 }
    ensures past { result ≡ None }
{
    shapes.kind(place, 1024)
}

// No layout of a table has more than 1,024 cells.
pub fn laid_size(layout: &Laid<'_>) -> usize
    ensures value { result ≡ length (kinds_in layout.now) }
    ensures small { result ≤ 1024 }
{
    layout.size()
}
