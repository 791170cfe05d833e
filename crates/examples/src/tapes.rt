use link::Link;
use link::visits::{read_reply, side_by_side};
use refusal::refusals::Refusal;
use std::test::Fail;
use tape::Tape;
use tape::fills::invert_fill;

// The request of one byte, 3, gets 43 00, in a frame filled with one value.
fn short_reply(fill: u8) -> [u8; 18] {
    let f = fill;
    [
        b'Q', b'A', 1, 3, 0, 0, 0, 0, 0, 0, 2, 0x43, 0, f, f, f, f, f,
    ]
}

// The number and the record of a refusal.
fn told(verdict: Result<usize, Refusal>) -> Option<(u8, usize)> {
    let refusal = verdict.err()?;
    Some((refusal.number(), refusal.record()))
}

fn opened(rt: &HostRuntime, bytes: &[u8]) -> Result<Tape, Fail> {
    let mut tape = Tape::new(rt.alloc())?;
    tape.open(bytes).map_err(|_| Fail::new("refused"))?;
    Ok(tape)
}

#[test]
fn fill_is_no_part_of_a_reply(rt: HostRuntime) -> Result<(), Fail> {
    for fill in [0x00, 0xaa] {
        let mut tape = opened(&rt, &short_reply(fill))?;
        assert!(rt; tape.send(&[3]));
        assert_eq!(rt;
            (tape.count(), tape.byte(1), tape.byte(2)),
            (2, Some(0), None)
        );
    }
    let mut left = opened(&rt, &short_reply(0x00))?;
    let mut right = opened(&rt, &short_reply(0xaa))?;
    let requests = vec![in rt.alloc();
        vec![in rt.alloc(); 4]?,
        vec![in rt.alloc(); 3]?,
        vec![in rt.alloc(); 3]?,
    ]?;
    assert_eq!(rt;
        side_by_side(&mut left, &mut right, requests.as_slice()),
        None
    );
    Ok(())
}

#[test]
fn inverted_fill(rt: HostRuntime) -> Result<(), Fail> {
    let changed = invert_fill(rt.alloc(), &short_reply(0x0f))?;
    assert!(rt; changed.as_slice() == &short_reply(0xf0)[..]);
    Ok(())
}

#[test]
fn an_empty_tape_is_silent(rt: HostRuntime) -> Result<(), Fail> {
    let mut tape = opened(&rt, &[])?;
    assert!(rt; !tape.send(&[3]) && !tape.send(&[]));
    assert_eq!(rt; (tape.count(), tape.byte(0)), (0, None));
    Ok(())
}

#[test]
fn only_the_request_that_is_due_is_answered(rt: HostRuntime) -> Result<(), Fail> {
    let mut tape = opened(&rt, &short_reply(0))?;
    assert!(rt; !tape.send(&[4]) && !tape.send(&[3, 3]) && tape.send(&[3]));
    let reply = read_reply(&tape, rt.alloc())?;
    assert!(rt; reply.as_slice() == &[0x43, 0][..]);
    assert!(rt; !tape.send(&[3]));
    assert_eq!(rt; tape.count(), 0);
    Ok(())
}

// Two bytes of an entry changed, and the refusal that follows.
const CASES: [(usize, u8, usize, u8, Option<u8>); 8] = [
    (1, b'B', 9, 1, Some(2)),
    (4, 1, 4, 1, Some(3)),
    (2, 0, 2, 0, Some(3)),
    (2, 0, 3, 0, Some(6)),
    (2, 8, 2, 8, Some(6)),
    (10, 0, 10, 0, Some(6)),
    (10, 8, 10, 8, Some(6)),
    (10, 7, 10, 7, None),
];

#[test]
fn refusals(rt: HostRuntime) -> Result<(), Fail> {
    let mut tape = Tape::new(rt.alloc())?;
    for (i, v, j, w, number) in CASES {
        let mut entry = short_reply(0);
        if i < 18 && j < 18 {
            entry[i] = v;
            entry[j] = w;
        }
        assert_eq!(rt; told(tape.open(&entry)).map(|(number, _)| number), number);
    }
    assert_eq!(rt; told(tape.open(&short_reply(0)[0..17])), Some((1, 0)));
    let long = vec![in rt.alloc(); 0; 18 * 2001]?;
    assert_eq!(rt; told(tape.open(long.as_slice())), Some((1, 0)));
    let mut two = short_reply(0).to_vec(rt.alloc())?;
    two.extend_from_slice(&[0; 18])?;
    assert_eq!(rt; told(tape.open(two.as_slice())), Some((2, 2)));
    Ok(())
}

#[test]
fn a_refusal_leaves_the_tape(rt: HostRuntime) -> Result<(), Fail> {
    let mut tape = opened(&rt, &short_reply(0))?;
    assert!(rt; tape.send(&[3]));
    assert_eq!(rt; told(tape.open(&[1])), Some((1, 0)));
    assert_eq!(rt; tape.count(), 2);
    assert!(rt; !tape.send(&[3]), "it stands where it stood");
    assert_eq!(rt; tape.open(&short_reply(0)).is_ok(), true);
    assert_eq!(rt; tape.count(), 0);
    assert!(rt; tape.send(&[3]));
    Ok(())
}
