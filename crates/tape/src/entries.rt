ghost use Rattle.std.specs.Prelude.{◌≤◌, length};
ghost use Rattle.buffers.specs.Held.{held};

use buffers::Buffer;

pub mod decode;

// A request and the reply that it gets.
#[derive(Clone, Copy)]
pub struct Entry {
    pub request: Buffer<7>,
    pub reply: Buffer<7>,
    ghost answered: { 1 ≤ length (held reply) },
}
