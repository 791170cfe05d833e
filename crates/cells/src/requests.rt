ghost use Rattle.std.specs.Prelude.{◌≡◌, []};
ghost use Rattle.buffers.specs.Held.{held};
ghost use Rattle.cells.specs.Requests.{put};

use buffers::Buffer;
use reason::faults::RunFault;
use value::values::Stop;

// The request that a script puts together: at most 7 bytes.
#[derive(Clone, Copy)]
pub struct Request {
    bytes: Buffer<7>,
}

impl Request {
    pub fn new() -> Request
        ensures { held result.bytes ≡ [] }
    {
        Request {
            bytes: Buffer::new(),
        }
    }

    // One byte more; fault 37 for a number outside 0 to 255, or where there are 7.
    pub fn put(&mut self, number: i64) -> Result<(), Stop>
        ensures result { result ≡ (put number (held self.old.bytes)).0 }
        ensures after { held self.new.bytes ≡ (put number (held self.old.bytes)).1 }
    {
        let byte = u8::try_from(number).map_err(|_| RunFault::RequestByte)?;
        if self.bytes.push(byte) {
            Ok(())
        } else {
            Err(RunFault::RequestByte.into())
        }
    }

    pub fn as_slice(&self) -> &[u8]
        ensures { result.now ≡ held self.now.bytes }
    {
        self.bytes.as_slice()
    }
}
