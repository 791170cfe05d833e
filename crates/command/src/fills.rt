ghost use Rattle.tape.specs.Judgement.{verdict};
ghost use Rattle.command.specs.Fills.{NoneDiffers};

use crate::failures::Failure;
use link::visits::side_by_side;
use std::alloc::Global;
use tape::Tape;
use tape::fills::invert_fill;

// Plays a visit on a tape, and beside it on the same tape with every fill byte inverted. Tells the first request that gets
// another answer, of which there is never one: no fill byte is part of a reply.
pub fn compare_fills(
    heap: Global,
    bytes: &[u8],
    requests: &[Vec<u8>],
) -> Result<Option<usize>, Failure>
    ensures { NoneDiffers (verdict bytes.now) result }
{
    let changed = invert_fill(heap, bytes)?;
    let mut tape = Tape::new(heap)?;
    let mut other = Tape::new(heap)?;
    tape.open(bytes)?;
    other.open(changed.as_slice())?;
    Ok(side_by_side(&mut tape, &mut other, requests))
}
