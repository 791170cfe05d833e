ghost use Rattle.std.specs.Prelude.{◌≡◌, ℕ, List};
ghost use Rattle.reason.specs.declared.layers.Layer.{Layer};

use crate::layers::Layer;

// Why the reader says no, or why a run ends without a value.
pub trait Cause {
    ghost number_of: { Self → ℕ };

    ghost layer_of: { Self → Layer };

    ghost words_of: { Self → List ℕ };

    // The number, as the mechanic reads it.
    fn number(self) -> u8
        ensures { result ≡ number_of self };

    // The layer that says no.
    fn layer(self) -> Layer
        ensures { result ≡ layer_of self };

    // What is wrong, in plain words.
    fn words(self) -> &'static str
        ensures { result.now ≡ words_of self };
}
