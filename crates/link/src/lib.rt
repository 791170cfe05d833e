#![tactic(auto)]

ghost use Rattle.std.specs.Prelude.{◌≡◌, ℕ, List, [], length};
ghost use Rattle.buffers.specs.Bytes.{byte_at};
ghost use Rattle.link.specs.Cars.{Car, Sound, Short, after, answered, reply_of};

pub mod visits;

// A link to a car. It means a car, by what requests still to come get, and a present reply.
pub trait Link {
    // What the car says to each list of requests still to come.
    ghost car: { Self → Car };

    // The present reply: what the last request got, or nothing.
    ghost present: { Self → List ℕ };

    // Sends a request; false on silence.
    fn send(&mut self, request: &[u8]) -> bool
        ensures result { result ≡ answered (car self.old [] request.now) }
        ensures next { car self.new ≡ after request.now (car self.old) }
        ensures shown { present self.new ≡ reply_of (car self.old [] request.now) };

    // How many bytes the present reply has.
    fn count(&self) -> usize
        ensures { result ≡ length (present self.now) };

    // Byte i of the present reply, counted from 0; nothing from the count on.
    fn byte(&self, i: usize) -> Option<u8>
        ensures { result ≡ byte_at (present self.now) i };

    // A reply has 1 to 64 bytes.
    ghost sound: { (x : Self) → Sound (car x) };

    // The present reply has 0 to 64 bytes.
    ghost short: { (x : Self) → Short (present x) };
}
