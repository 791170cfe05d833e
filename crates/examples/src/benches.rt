use bench::BenchUnit;
use link::Link;
use link::visits::{read_reply, side_by_side};
use std::test::Fail;
use tape::Tape;

fn made(codes: &[u16]) -> Result<BenchUnit, Fail> {
    BenchUnit::new(codes).map_err(|_| Fail::new("refused"))
}

#[test]
fn codes_are_listed_and_cleared(rt: HostRuntime) -> Result<(), Fail> {
    let mut unit = made(&[0x0133, 0xc100])?;
    assert!(rt; unit.count() == 0 && unit.send(&[3]));
    let listed = read_reply(&unit, rt.alloc())?;
    assert!(rt; listed.as_slice() == &[0x43, 2, 0x01, 0x33, 0xc1, 0x00][..]);
    assert!(rt; !unit.send(&[5]) && !unit.send(&[3, 0]) && !unit.send(&[]) && unit.count() == 0);
    assert!(rt; unit.send(&[4]));
    assert_eq!(rt; (unit.count(), unit.byte(0)), (1, Some(0x44)));
    assert!(rt; unit.send(&[3]));
    assert_eq!(rt; (unit.count(), unit.byte(1)), (2, Some(0)));
    Ok(())
}

#[test]
fn thirty_codes_and_no_more(rt: HostRuntime) -> Result<(), Fail> {
    let mut full = made(&[0xffff; 30])?;
    assert!(rt; full.send(&[3]));
    assert_eq!(rt; full.count(), 62);
    let refusal = BenchUnit::new(&[0; 31]).err().ok_or("31 codes")?;
    assert_eq!(rt;
        (refusal.number(), refusal.record(), refusal.layer().number()),
        (6, 0, 5)
    );
    Ok(())
}

// A tape and a unit that mean the same car for a while, side by side.
#[test]
fn two_makes_of_link(rt: HostRuntime) -> Result<(), Fail> {
    let entry = [
        b'Q', b'A', 1, 3, 0, 0, 0, 0, 0, 0, 4, 0x43, 1, 0x01, 0x33, 9, 9, 9,
    ];
    let mut tape = Tape::new(rt.alloc())?;
    assert_eq!(rt; tape.open(&entry).is_ok(), true);
    let mut unit = made(&[0x0133])?;
    let once = vec![in rt.alloc(); vec![in rt.alloc(); 5]?, vec![in rt.alloc(); 3]?]?;
    assert_eq!(rt; side_by_side(&mut tape, &mut unit, once.as_slice()), None);
    assert_eq!(rt;
        side_by_side(&mut tape, &mut unit, once.as_slice()),
        Some(2),
        "the tape has played"
    );
    Ok(())
}
