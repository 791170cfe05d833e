ghost use Rattle.std.specs.Prelude.{◌≡◌, [], length, take, nat_lt};
ghost use Rattle.std.specs.Str.{bytes_eq};
ghost use Rattle.buffers.specs.Bytes.{byte_at, pushed};
ghost use Rattle.buffers.specs.Held.{held};

use crate::Buffer;

impl<const N: usize> Buffer<N> {
    // No bytes.
    pub fn new() -> Buffer<N>
        ensures { held result ≡ [] }
    {
        Buffer {
            bytes: [0; N],
            len: 0,
        }
    }

    // The first N bytes of a source, or all where it has fewer.
    pub fn prefix(source: &[u8]) -> Buffer<N>
        ensures { held result ≡ take N source.now }
    {
        let len = source.len().min(N);
        let mut bytes = [0; N];
        bytes[..len].copy_from_slice(&source[..len]);
        Buffer { bytes, len }
    }

    // One byte more; false where N are held, and nothing is changed.
    pub fn push(&mut self, b: u8) -> bool
        ensures result { result ≡ nat_lt (length (held self.old)) N }
        ensures after { held self.new ≡ pushed N (held self.old) b }
    {
        if self.len < N {
            self.bytes[self.len] = b;
            self.len += 1;
            true
        } else {
            false
        }
    }

    pub fn len(&self) -> usize
        ensures { result ≡ length (held self.now) }
    {
        self.as_slice().len()
    }

    // Byte i, counted from 0; nothing from the length on.
    pub fn byte(&self, i: usize) -> Option<u8>
        ensures { result ≡ byte_at (held self.now) i }
    {
        self.as_slice().get(i).copied()
    }

    pub fn as_slice(&self) -> &[u8]
        ensures { result.now ≡ held self.now }
    {
        &self.bytes[..self.len]
    }

    // Whether these are the bytes held.
    pub fn is(&self, other: &[u8]) -> bool
        ensures { result ≡ bytes_eq (held self.now) other.now }
    {
        self.as_slice() == other
    }
}
