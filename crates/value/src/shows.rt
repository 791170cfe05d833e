ghost use Rattle.std.specs.Prelude.{Some};
ghost use Rattle.value.specs.Texts.{stop_text, value_text};

use crate::values::{Stop, Value};
use reason::causes::Cause;
use std::fmt;

// As `char 65`.
impl fmt::Display for Value {
    ghost output = { λ x. Some (value_text x) };

    fn fmt<W: fmt::Write>(&self, f: &mut fmt::Formatter<W>) -> fmt::Result {
        match self {
            Value::Nothing => f.write_str("none"),
            Value::Char(c) => write!(f, "char {c}"),
            Value::Int(n) => write!(f, "int {n}"),
            Value::Bool(b) => write!(f, "bool {b}"),
            Value::Pointer(n) => write!(f, "pointer {n}"),
        }
    }
}

// As `fault 30`.
impl fmt::Display for Stop {
    ghost output = { λ x. Some (stop_text x) };

    fn fmt<W: fmt::Write>(&self, f: &mut fmt::Formatter<W>) -> fmt::Result {
        match self {
            Stop::Fault(fault) => {
                let number = fault.number();
                write!(f, "fault {number}")
            }
            Stop::Misfit => f.write_str("misfit"),
        }
    }
}
