ghost use Rattle.std.specs.Prelude.{◌≡◌};
ghost use Rattle.reason.specs.Layers.{numeral};

// The part of the reader that says no, in the order in which a script meets them.
#[derive(Clone, Copy, PartialEq, Eq, Debug)]
pub enum Layer {
    Card = 1, // the card's format
    Names = 2, // names and scopes
    Types = 3, // types
    Run = 4, // a running script
    Link = 5, // a tape or a bench unit
    Call = 6, // a call of the reader
}

impl Layer {
    // The layer's number, 1 to 6.
    pub fn number(self) -> u8
        ensures { result ≡ numeral self }
    {
        self as u8
    }
}
