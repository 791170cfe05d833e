ghost use Rattle.std.specs.Prelude.{◌≡◌};
ghost use Rattle.value.specs.Values.{kind_of, number_of};
ghost use Rattle.value.specs.declared.values.Stop.TheVariants.{Fault};

use crate::kinds::Kind;
use reason::faults::RunFault;

// What an expression or a statement gives: nothing, or a number with its kind.
#[derive(Clone, Copy, PartialEq, Eq, Debug)]
pub enum Value {
    Nothing,
    // 0 to 255
    Char(u8),
    Int(i64),
    // 0 or 1
    Bool(bool),
    // the number of a cell; nil is 0
    Pointer(i64),
}

// Why a rule gives no value.
#[derive(Clone, Copy, PartialEq, Eq, Debug)]
pub enum Stop {
    // a run fault is met
    Fault(RunFault),
    // the rule does not fit values of these kinds
    Misfit,
}

impl From<RunFault> for Stop {
    ghost from_gives = { λ x r. r ≡ Fault x };

    fn from(fault: RunFault) -> Stop {
        Stop::Fault(fault)
    }
}

impl Value {
    // The kind of its number; nothing for nothing.
    pub fn kind(self) -> Option<Kind>
        ensures { result ≡ kind_of self }
    {
        match self {
            Value::Nothing => None,
            Value::Char(_) => Some(Kind::Char),
            Value::Int(_) => Some(Kind::Int),
            Value::Bool(_) => Some(Kind::Bool),
            Value::Pointer(_) => Some(Kind::Pointer),
        }
    }

    pub fn number(self) -> Option<i64>
        ensures { result ≡ number_of self }
    {
        match self {
            Value::Nothing => None,
            Value::Char(c) => Some(i64::from(c)),
            Value::Int(n) | Value::Pointer(n) => Some(n),
            Value::Bool(b) => Some(i64::from(b)),
        }
    }
}
