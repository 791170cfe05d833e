ghost use Rattle.reason.specs.Layers.{fault_layer};
ghost use Rattle.reason.specs.Numbers.{fault_number};
ghost use Rattle.reason.specs.Words.{fault_words};

use crate::causes::Cause;
use crate::layers::Layer;

// How a run can end other than by a value. It is no refusal: what was found so far stays.
#[derive(Clone, Copy, PartialEq, Eq, Debug)]
pub enum RunFault {
    ZeroDivisor = 30, // the divisor is 0
    IndexRange = 31, // an index lies outside its array
    NoCell = 32, // a nil pointer is followed, or the cell is dead, absent or of another kind
    Unwritten = 33, // the cell was never written
    HeapFull = 34, // no room for `new`
    StackFull = 35, // too many open rules, or variables that do not fit
    NotABlock = 36, // `del` of what `new` did not give
    RequestByte = 37, // `put` of no byte, or of an eighth
    NoSuchByte = 38, // a byte outside the reply
    FindingsFull = 39, // a finding too many
    FuelLimit = 40, // the fuel of a whole run is used up
}

impl Cause for RunFault {
    ghost number_of = { fault_number };

    ghost layer_of = { fault_layer };

    ghost words_of = { fault_words };

    fn number(self) -> u8 {
        self as u8
    }

    // A run fault is always the run's.
    fn layer(self) -> Layer {
        Layer::Run
    }

    fn words(self) -> &'static str {
        match self {
            RunFault::ZeroDivisor => "division by 0",
            RunFault::IndexRange => "the index lies outside the array",
            RunFault::NoCell => "the pointer leads to no cell of that kind",
            RunFault::Unwritten => "the cell was never written",
            RunFault::HeapFull => "there is no room for new",
            RunFault::StackFull => "the script is nested too deep, or its variables do not fit",
            RunFault::NotABlock => "del of what is no live block of new",
            RunFault::RequestByte => "put of no byte, or of an eighth byte",
            RunFault::NoSuchByte => "the reply has no such byte",
            RunFault::FindingsFull => "there are 32 findings already",
            RunFault::FuelLimit => "the run has used 1,000,000,000 units of fuel",
        }
    }
}
