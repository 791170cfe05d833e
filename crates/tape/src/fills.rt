ghost use Rattle.std.specs.Prelude.{◌≡◌, IfOk};
ghost use Rattle.tape.specs.Fills.{OnlyFill, is_fill, inverted};

use std::alloc::{AllocError, Global};

// Whether byte p of a tape is fill.
fn is_fill(bytes: &[u8], p: usize) -> bool
    ensures { result ≡ is_fill bytes.now p }
{
    let count = bytes.get(18 * (p / 18) + 10).copied().unwrap_or(0);
    11 + usize::from(count) <= p % 18
}

// The same tape with another fill: every fill byte has all its bits inverted.
pub fn invert_fill(heap: Global, bytes: &[u8]) -> Result<Vec<u8>, AllocError>
    ensures bytes { IfOk result (λ v. v.items ≡ inverted bytes.now) }
    ensures only { IfOk result (λ v. OnlyFill bytes.now v.items) }
{
    bytes
        .iter()
        .enumerate()
        .map(|(p, b)| if is_fill(bytes, p) { !*b } else { *b })
        .collect(heap)
}
