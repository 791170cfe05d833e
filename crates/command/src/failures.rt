ghost use Rattle.std.specs.Prelude.{◌≡◌, Some};
ghost use Rattle.command.specs.Failures.{failure_text};
ghost use Rattle.command.specs.declared.failures.Failure.TheVariants.{NoMemory, NoOutput, Refused};

use refusal::refusals::Refusal;
use std::alloc::{AllocError, AllocFailed as NoRoom};
use std::{fmt, io};

// Why the handheld did not do what it was told.
#[derive(Clone, Copy)]
pub enum Failure {
    // the words give no command
    Usage,
    // the file cannot be read
    NoFile,
    // the tape is refused
    Refused(Refusal),
    // request k, counted from 1, is no hexadecimal text
    NotHex(usize),
    NoMemory,
    NoOutput,
}

impl fmt::Display for Failure {
    ghost output = { λ x. Some (failure_text x) };

    fn fmt<W: fmt::Write>(&self, f: &mut fmt::Formatter<W>) -> fmt::Result {
        match self {
            Failure::Usage => f.write_str("no such command; try handheld --help"),
            Failure::NoFile => f.write_str("the tape's file cannot be read"),
            Failure::Refused(refusal) => write!(f, "the tape is refused: {refusal}"),
            Failure::NotHex(k) => write!(f, "request #{k} is no hexadecimal text"),
            Failure::NoMemory => f.write_str("there is no memory left"),
            Failure::NoOutput => f.write_str("the output cannot be written"),
        }
    }
}

impl From<Refusal> for Failure {
    ghost from_gives = { λ x r. r ≡ Refused x };

    fn from(refused: Refusal) -> Failure {
        Failure::Refused(refused)
    }
}

impl From<AllocError> for Failure {
    ghost from_gives = { λ x r. r ≡ NoMemory };

    fn from(_error: AllocError) -> Failure {
        Self::NoMemory
    }
}

impl<T: Drop> From<NoRoom<T>> for Failure {
    ghost from_gives = { λ x r. r ≡ NoMemory };

    fn from(_value: NoRoom<T>) -> Failure {
        AllocError.into()
    }
}

impl From<io::Error> for Failure {
    ghost from_gives = { λ x r. r ≡ NoOutput };

    fn from(_error: io::Error) -> Failure {
        Self::NoOutput
    }
}
