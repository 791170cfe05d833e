ghost use Rattle.std.specs.Prelude.{◌≡◌};
ghost use Rattle.value.specs.Laws.{Dividing};
ghost use Rattle.value.specs.Binary.{arithmetic, comparison, connective, divided, equality, evaluated, numbers_of};

use crate::values::{Stop, Value};
use reason::faults::RunFault;

// The numbers of two values of one kind.
fn numbers(left: Value, right: Value) -> Result<(i64, i64), Stop>
    ensures { result ≡ numbers_of left right }
{
    match (left, right) {
        (Value::Char(a), Value::Char(b)) => Ok((i64::from(a), i64::from(b))),
        (Value::Bool(a), Value::Bool(b)) => Ok((i64::from(a), i64::from(b))),
        (Value::Int(a), Value::Int(b)) | (Value::Pointer(a), Value::Pointer(b)) => Ok((a, b)),
        _ => Err(Stop::Misfit),
    }
}

// The quotient, without its fraction, and the remainder, which has the dividend's sign; the smallest number over -1 wraps to itself.
fn divide(left: i64, right: i64) -> Result<(i64, i64), Stop>
    ensures { result ≡ divided left right }
{
    if right == 0 {
        Err(RunFault::ZeroDivisor.into())
    } else if right == -1 && left == i64::MIN {
        Ok((i64::MIN, 0))
    } else {
        Ok((left / right, left % right))
    }
}

// `|` and `&`, both of whose sides are worked out already.
fn connect(code: u8, left: Value, right: Value) -> Result<Value, Stop>
    ensures { result ≡ connective code left right }
{
    let (Value::Bool(a), Value::Bool(b)) = (left, right) else {
        return Err(Stop::Misfit);
    };
    Ok(Value::Bool(if code == 1 { a || b } else { a && b }))
}

// `==` and `!=`.
fn equate(code: u8, left: Value, right: Value) -> Result<Value, Stop>
    ensures { result ≡ equality code left right }
{
    let (a, b) = numbers(left, right)?;
    Ok(Value::Bool(if code == 3 { a == b } else { a != b }))
}

// `<`, `>`, `<=` and `>=`, which bools do not have.
fn order(code: u8, left: Value, right: Value) -> Result<Value, Stop>
    ensures { result ≡ comparison code left right }
{
    if matches!(left, Value::Bool(_)) {
        return Err(Stop::Misfit);
    }
    let (a, b) = numbers(left, right)?;
    let holds = match code {
        5 => a < b,
        6 => a > b,
        7 => a <= b,
        _ => a >= b,
    };
    Ok(Value::Bool(holds))
}

// `*`, `/`, `%`, `+` and `-`, wrapping at 64 bits.
#[tactic(auto, using(std::proofs::lemmas::Int::wraps))]
fn compute(code: u8, left: Value, right: Value) -> Result<Value, Stop>
    ensures { result ≡ arithmetic code left right }
{
    let (Value::Int(a), Value::Int(b)) = (left, right) else {
        return Err(Stop::Misfit);
    };
    let number = match code {
        9 => a.wrapping_mul(b),
        10 => divide(a, b)?.0,
        11 => divide(a, b)?.1,
        12 => a.wrapping_add(b),
        _ => a.wrapping_sub(b),
    };
    Ok(Value::Int(number))
}

// What the binary operator of a code gives, by the range that the code lies in.
#[tactic(auto, using(crate::proofs::Laws::dividing))]
pub fn evaluate(code: u8, left: Value, right: Value) -> Result<Value, Stop>
    ensures value { result ≡ evaluated code left right }
    ensures division { Dividing }
{
    match code {
        1..=2 => connect(code, left, right),
        3..=4 => equate(code, left, right),
        5..=8 => order(code, left, right),
        9..=13 => compute(code, left, right),
        _ => Err(Stop::Misfit),
    }
}
