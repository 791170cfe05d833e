ghost use Rattle.std.specs.Prelude.{Some};
ghost use Rattle.refusal.specs.Texts.{text_of};

use crate::refusals::At;
use reason::causes::Cause;
use std::fmt;

// As `2 at record 5, layer 1: the mark is unknown`.
impl<C: Cause + Copy> fmt::Display for At<C> {
    ghost output = { λ x. Some (text_of C.number_of C.layer_of C.words_of x) };

    fn fmt<W: fmt::Write>(&self, f: &mut fmt::Formatter<W>) -> fmt::Result {
        let number = self.number();
        let record = self.record();
        let layer = self.layer().number();
        let words = self.cause().words();
        write!(f, "{number} at record {record}, layer {layer}: {words}")
    }
}
