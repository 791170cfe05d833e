#![tactic(auto)]

ghost use Rattle.std.specs.Prelude.{◌≤◌, vec_len, vec_capacity};

use crate::entries::Entry;
use buffers::Buffer;

mod entries;
pub mod fills;
mod judge;
pub mod plays;

// A recorded visit: requests and the replies that they got. It stands before the entry that is due.
#[derive(Drop)]
pub struct Tape {
    entries: Vec<Entry>,
    place: usize,
    present: Buffer<7>,
    ghost within: { place ≤ vec_len entries },
    ghost room: { 2000 ≤ vec_capacity entries },
}
