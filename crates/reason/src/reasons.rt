ghost use Rattle.reason.specs.Layers.{reason_layer};
ghost use Rattle.reason.specs.Numbers.{reason_number};
ghost use Rattle.reason.specs.Words.{reason_words};
ghost use Rattle.reason.specs.declared.reasons.Reason.TheVariants.{Link};
ghost use Rattle.std.specs.Prelude.{◌≡◌};

use crate::causes::Cause;
use crate::errors::{CallError, CardError, LinkError, NameError, TypeError};
use crate::layers::Layer;

// Why something is refused, by the layer that refuses it.
#[derive(Clone, Copy, PartialEq, Eq, Debug)]
pub enum Reason {
    Card(CardError),
    Names(NameError),
    Types(TypeError),
    Link(LinkError),
    Call(CallError),
}

impl From<LinkError> for Reason {
    ghost from_gives = { λ e r. r ≡ Link e };

    fn from(error: LinkError) -> Reason {
        Reason::Link(error)
    }
}

impl Cause for Reason {
    ghost number_of = { reason_number };

    ghost layer_of = { reason_layer };

    ghost words_of = { reason_words };

    fn number(self) -> u8 {
        match self {
            Reason::Card(e) => e.number(),
            Reason::Names(e) => e.number(),
            Reason::Types(e) => e.number(),
            Reason::Link(e) => e.number(),
            Reason::Call(e) => e.number(),
        }
    }

    fn layer(self) -> Layer {
        match self {
            Reason::Card(e) => e.layer(),
            Reason::Names(e) => e.layer(),
            Reason::Types(e) => e.layer(),
            Reason::Link(e) => e.layer(),
            Reason::Call(e) => e.layer(),
        }
    }

    fn words(self) -> &'static str {
        match self {
            Reason::Card(e) => e.words(),
            Reason::Names(e) => e.words(),
            Reason::Types(e) => e.words(),
            Reason::Link(e) => e.words(),
            Reason::Call(e) => e.words(),
        }
    }
}
