ghost use Rattle.std.specs.Prelude.{◌≡◌};
ghost use Rattle.refusal.specs.Refusals.{blamed};

use reason::causes::Cause;
use reason::faults::RunFault;
use reason::layers::Layer;
use reason::reasons::Reason;

// A cause, and the record at fault, counted from 1; 0 where no single record is.
#[derive(Clone, Copy, PartialEq, Eq, Debug)]
pub struct At<C> {
    cause: C,
    at: usize,
}

// Why something is refused, and where.
pub type Refusal = At<Reason>;

// A run fault, and the record of the rule that met it.
pub type FaultAt = At<RunFault>;

impl<C: Cause + Copy> At<C> {
    pub fn new(cause: C, at: usize) -> At<C>
        ensures { result ≡ blamed cause at }
    {
        At { cause, at }
    }

    pub fn cause(&self) -> C
        ensures { result ≡ self.now.cause }
    {
        self.cause
    }

    pub fn number(&self) -> u8
        ensures { result ≡ C.number_of self.now.cause }
    {
        self.cause.number()
    }

    pub fn layer(&self) -> Layer
        ensures { result ≡ C.layer_of self.now.cause }
    {
        self.cause.layer()
    }

    pub fn record(&self) -> usize
        ensures { result ≡ self.now.at }
    {
        self.at
    }
}
