ghost use Rattle.std.specs.Prelude.{◌≡◌};
ghost use Rattle.tape.specs.Entries.{Fit, exchange_of};
ghost use Rattle.tape.specs.Views.{exchange};

use super::Entry;
use buffers::Buffer;

impl Entry {
    // What the 18 bytes of an entry say. No fill byte is read.
    pub fn decode(bytes: &[u8; 18]) -> Entry
        requires { Fit bytes.now }
        ensures { exchange result ≡ exchange_of bytes.now }
    {
        let asked = usize::from(bytes[2]);
        let given = usize::from(bytes[10]);
        Entry {
            request: Buffer::prefix(&bytes[3..3 + asked]),
            reply: Buffer::prefix(&bytes[11..11 + given]),
        }
    }
}
