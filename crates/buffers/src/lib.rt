#![tactic(auto)]

ghost use Rattle.std.specs.Prelude.{◌≡◌, ◌≤◌, length};
ghost use Rattle.buffers.specs.Bytes.{Bytes};

mod methods;

// At most N bytes, in place.
#[derive(Clone, Copy)]
pub struct Buffer<const N: usize> {
    bytes: [u8; N],
    len: usize,
    ghost sized: { len ≤ N },
    ghost room: { length bytes ≡ N },
    ghost fits: { Bytes bytes },
}
