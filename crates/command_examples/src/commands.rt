use command::failures::Failure;
use command::fills::compare_fills;
use command::requests::{read_request, read_requests};
use command::words::{Command, command_of};
use hexadecimal::encode;
use reason::errors::LinkError;
use reason::faults::RunFault;
use refusal::refusals::{FaultAt, Refusal};
use std::test::Fail;

#[test]
fn commands(rt: HostRuntime) -> Result<(), Fail> {
    let help = Some(Command::Help);
    assert_eq!(rt; command_of(&["--help"]), help);
    assert_eq!(rt; command_of(&["--help", "visit"]), None);
    let visit = Some(Command::Visit {
        tape: "a.tape",
        requests: &[],
    });
    assert_eq!(rt; command_of(&["visit", "a.tape"]), visit);
    assert_eq!(rt; command_of(&["visit"]), None);
    assert_eq!(rt; command_of(&["Visit", "a.tape", "03"]), None);
    Ok(())
}

#[test]
fn requests(rt: HostRuntime) -> Result<(), Fail> {
    let empty = read_request(rt.alloc(), "-")?.ok_or("-")?;
    assert_eq!(rt; empty.len(), 0);
    let long = read_request(rt.alloc(), "09aF")?.ok_or("09aF")?;
    assert!(rt; long.as_slice() == &[0x09, 0xaf][..]);
    assert!(rt; read_request(rt.alloc(), "09a")?.is_none());
    assert!(rt; read_request(rt.alloc(), "0g")?.is_none());
    let text = encode(rt.alloc(), &[0x00, 0xf1])?;
    assert!(rt; text.as_str() == "00f1");
    Ok(())
}

#[test]
fn a_bad_request_is_told(rt: HostRuntime) -> Result<(), Fail> {
    let read = read_requests(rt.alloc(), &["03", "x3"]);
    let failure = read.err().ok_or("x3 was read")?;
    let line = format!(in rt.alloc(); "{failure}")?;
    assert!(rt; line.as_str() == "request #2 is no hexadecimal text");
    Ok(())
}

#[test]
fn lines_for_the_mechanic(rt: HostRuntime) -> Result<(), Fail> {
    let refusal = Refusal::new(LinkError::Mark.into(), 5);
    let line = format!(in rt.alloc(); "{refusal}")?;
    assert!(rt; line.as_str() == "2 at record 5, layer 5: the mark is not QA");
    let failure = Failure::from(refusal);
    let whole = format!(in rt.alloc(); "{failure}")?;
    assert!(rt;
        whole.as_str() == "the tape is refused: 2 at record 5, layer 5: the mark is not QA"
    );
    let fault = FaultAt::new(RunFault::NoSuchByte, 12);
    let ended = format!(in rt.alloc(); "{fault}")?;
    assert!(rt; ended.as_str() == "38 at record 12, layer 4: the reply has no such byte");
    Ok(())
}

#[test]
fn a_refused_tape_is_told(rt: HostRuntime) -> Result<(), Fail> {
    let none = vec![in rt.alloc()]?;
    let compared = compare_fills(rt.alloc(), &[81], none.as_slice());
    let failure = compared.err().ok_or("a part of an entry")?;
    let line = format!(in rt.alloc(); "{failure}")?;
    assert!(rt;
        line.as_str()
            == "the tape is refused: 1 at record 0, layer 5: the tape has more than 2,000 entries, or a part of one"
    );
    Ok(())
}
