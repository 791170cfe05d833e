ghost use Rattle.std.specs.Prelude.{◌≡◌, ◌<◌, IfSome, Some};
ghost use Rattle.cells.specs.Cells.{address_of, cell_of, contents_of, index_of, kind_in, read_cell, written_by};

use reason::faults::RunFault;
use value::kinds::Kind;
use value::values::{Stop, Value};

// A cell: dead, or alive with a kind, unwritten or holding a number of that kind.
#[derive(Clone, Copy, PartialEq, Eq, Debug)]
pub enum Cell {
    Dead,
    Unwritten(Kind),
    Char(u8),
    Int(i64),
    Bool(bool),
    Pointer(i64),
}

impl Cell {
    // The kind of a cell that is alive.
    pub fn kind(self) -> Option<Kind>
        ensures { result ≡ kind_in self }
    {
        match self {
            Cell::Dead => None,
            Cell::Unwritten(kind) => Some(kind),
            Cell::Char(_) => Some(Kind::Char),
            Cell::Int(_) => Some(Kind::Int),
            Cell::Bool(_) => Some(Kind::Bool),
            Cell::Pointer(_) => Some(Kind::Pointer),
        }
    }

    // What a cell that is alive holds.
    fn contents(self) -> Result<Value, Stop>
        ensures { result ≡ contents_of self }
    {
        match self {
            Cell::Dead => Err(RunFault::NoCell.into()),
            Cell::Unwritten(_) => Err(RunFault::Unwritten.into()),
            Cell::Char(c) => Ok(Value::Char(c)),
            Cell::Int(n) => Ok(Value::Int(n)),
            Cell::Bool(b) => Ok(Value::Bool(b)),
            Cell::Pointer(n) => Ok(Value::Pointer(n)),
        }
    }

    // What reading it as a kind gives: fault 32 where it is dead or of another kind, then 33 where it is unwritten.
    pub fn read(self, kind: Kind) -> Result<Value, Stop>
        ensures { result ≡ read_cell kind self }
    {
        if self.kind() == Some(kind) {
            self.contents()
        } else {
            Err(RunFault::NoCell.into())
        }
    }

    // The cell that writing a value makes of it: fault 32 where it is dead or of another kind.
    pub fn written(self, value: Value) -> Result<Cell, Stop>
        ensures { result ≡ written_by value self }
    {
        let kind = value.kind().ok_or(Stop::Misfit)?;
        if self.kind() == Some(kind) {
            Ok(value.into())
        } else {
            Err(RunFault::NoCell.into())
        }
    }
}

// A cell that holds a value.
impl From<Value> for Cell {
    ghost from_gives = { λ v c. c ≡ cell_of v };

    fn from(value: Value) -> Cell {
        match value {
            Value::Nothing => Cell::Dead,
            Value::Char(c) => Cell::Char(c),
            Value::Int(n) => Cell::Int(n),
            Value::Bool(b) => Cell::Bool(b),
            Value::Pointer(n) => Cell::Pointer(n),
        }
    }
}

// The place in the table of the cell with a number, counted from 1.
pub fn index_of(address: i64) -> Option<usize>
    ensures value { result ≡ index_of address }
    ensures within { IfSome result (λ i. i < 2048) }
{
    match address {
        1..=2048 => Some((address - 1) as usize),
        _ => None,
    }
}

// The number of the cell at a place in the table.
pub(crate) fn address_of(place: usize) -> i64
    requires { place < 2048 }
    ensures value { result ≡ address_of place }
    ensures undone { index_of result ≡ Some place }
{
    (place + 1) as i64
}
