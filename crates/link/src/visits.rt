ghost use Rattle.std.specs.Prelude.{◌≡◌, [], map, IfOk, None, vec_items};
ghost use Rattle.std.specs.Str.{bytes_eq};
ghost use Rattle.link.specs.Cars.{Alike, after, reply_of};
ghost use Rattle.link.specs.Visits.{answers, after_all, last_reply, same_answer, first_difference, Differs};

use crate::Link;
use std::alloc::{AllocError, Global};

// The bytes of the present reply.
pub fn read_reply<L: Link>(link: &L, heap: Global) -> Result<Vec<u8>, AllocError>
    ensures { IfOk result (λ v. v.items ≡ L.present link.now) }
{
    (0..link.count()).filter_map(|i| link.byte(i)).collect(heap)
}

// Whether two links show the same present reply, by their counts and bytes.
pub fn same_reply<X: Link, Y: Link>(left: &X, right: &Y) -> bool
    ensures { result ≡ bytes_eq (X.Link.present left.now) (Y.Link.present right.now) }
{
    left.count() == right.count() && (0..left.count()).all(|i| left.byte(i) == right.byte(i))
}

// Sends one request to both, and tells whether they answer and show the same.
pub fn send_both<X: Link, Y: Link>(left: &mut X, right: &mut Y, request: &[u8]) -> bool
    ensures same { result ≡ same_answer (X.Link.car left.old [] request.now) (Y.Link.car right.old [] request.now) }
    ensures left_next { X.Link.car left.new ≡ after request.now (X.Link.car left.old) }
    ensures left_shown { X.Link.present left.new ≡ reply_of (X.Link.car left.old [] request.now) }
    ensures right_next { Y.Link.car right.new ≡ after request.now (Y.Link.car right.old) }
    ensures right_shown { Y.Link.present right.new ≡ reply_of (Y.Link.car right.old [] request.now) }
{
    let x = left.send(request);
    let y = right.send(request);
    x == y && same_reply(left, right)
}

// Sends each request to both links, whatever their makes, and compares answers, counts and bytes after each. Tells the first
// request that differs, counted from 1. Links that are alike before never differ, and are alike after.
pub fn side_by_side<X: Link, Y: Link>(
    left: &mut X,
    right: &mut Y,
    requests: &[Vec<u8>],
) -> Option<usize>
    ensures first { result ≡ first_difference 1 (X.Link.car left.old) (Y.Link.car right.old) (map vec_items requests.now) }
    ensures differs { Differs 1 (answers (X.Link.car left.old) (map vec_items requests.now)) (answers (Y.Link.car right.old) (map vec_items requests.now)) result }
    ensures left_next { X.Link.car left.new ≡ after_all (X.Link.car left.old) (map vec_items requests.now) }
    ensures left_shown { X.Link.present left.new ≡ last_reply (X.Link.present left.old) (X.Link.car left.old) (map vec_items requests.now) }
    ensures right_next { Y.Link.car right.new ≡ after_all (Y.Link.car right.old) (map vec_items requests.now) }
    ensures right_shown { Y.Link.present right.new ≡ last_reply (Y.Link.present right.old) (Y.Link.car right.old) (map vec_items requests.now) }
    ensures alike { Alike (X.Link.car left.old) (X.Link.present left.old) (Y.Link.car right.old) (Y.Link.present right.old) → (result ≡ None) × Alike (X.Link.car left.new) (X.Link.present left.new) (Y.Link.car right.new) (Y.Link.present right.new) }
{
    let mut first = None;
    for (i, request) in requests.iter().enumerate() {
        let same = send_both(left, right, request);
        first = first.or((!same).then_some(i + 1));
    }
    first
}
