#![tactic(auto)]

ghost use Rattle.std.specs.Prelude.{◌≡◌, ◌≤◌, length};
ghost use Rattle.buffers.specs.Bytes.{Below};

use buffers::Buffer;

pub mod serves;
mod services;

// A control unit for the bench: it holds trouble codes, lists them on request and drops them on request.
#[derive(Clone, Copy)]
pub struct BenchUnit {
    codes: [u16; 30],
    held: usize,
    present: Buffer<64>,
    ghost few: { held ≤ 30 },
    ghost room: { length codes ≡ 30 },
    ghost fits: { Below 65536 codes },
}
