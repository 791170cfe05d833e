ghost use Rattle.std.specs.Prelude.{◌≡◌};
ghost use Rattle.value.specs.Laws.{Casting};
ghost use Rattle.value.specs.Unary.{applied, cast_of, casted};

use crate::kinds::Kind;
use crate::values::{Stop, Value};

// What the unary operator of a code gives: 1 `!`, 2 `+`, 3 `-`.
#[tactic(auto, using(std::proofs::lemmas::Int::wraps))]
pub fn apply(code: u8, operand: Value) -> Result<Value, Stop>
    ensures { result ≡ applied code operand }
{
    match (code, operand) {
        (1, Value::Bool(b)) => Ok(Value::Bool(!b)),
        (2, Value::Int(n)) => Ok(Value::Int(n)),
        (3, Value::Int(n)) => Ok(Value::Int(n.wrapping_neg())),
        _ => Err(Stop::Misfit),
    }
}

// A number as a value of a kind: of a char the lowest byte, else the same number.
fn cast_number(n: i64, kind: Kind) -> Result<Value, Stop>
    ensures { result ≡ cast_of kind n }
{
    match kind {
        Kind::Char => Ok(Value::Char(n.rem_euclid(256) as u8)),
        Kind::Int => Ok(Value::Int(n)),
        Kind::Bool => Err(Stop::Misfit),
        Kind::Pointer => Ok(Value::Pointer(n)),
    }
}

// A char, an int or a pointer as another of these.
#[tactic(auto, using(crate::proofs::Laws::casting))]
pub fn cast(operand: Value, kind: Kind) -> Result<Value, Stop>
    ensures value { result ≡ casted kind operand }
    ensures char { Casting }
{
    match operand {
        Value::Char(c) => cast_number(i64::from(c), kind),
        Value::Int(n) => cast_number(n, kind),
        Value::Pointer(n) => cast_number(n, kind),
        Value::Nothing | Value::Bool(_) => Err(Stop::Misfit),
    }
}
