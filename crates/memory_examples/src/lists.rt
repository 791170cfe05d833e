use cells::findings::Findings;
use cells::requests::Request;
use reason::faults::RunFault;
use std::test::Fail;
use value::values::Stop;

#[test]
fn findings(rt: HostRuntime) -> Result<(), Fail> {
    let mut findings = Findings::new(rt.alloc())?;
    for n in 0..32 {
        assert_eq!(rt; findings.add(n), Ok(()));
    }
    assert_eq!(rt; findings.add(32), Err(RunFault::FindingsFull.into()));
    assert_eq!(rt;
        (findings.count(), findings.get(31), findings.get(32)),
        (32, Some(31), None)
    );
    Ok(())
}

#[test]
fn requests(rt: HostRuntime) {
    let mut request = Request::new();
    assert_eq!(rt; request.put(-1), Err(RunFault::RequestByte.into()));
    assert_eq!(rt; request.put(256), Err(RunFault::RequestByte.into()));
    for n in 249..256 {
        assert_eq!(rt; request.put(n), Ok(()));
    }
    assert_eq!(rt; request.put(0), Err(RunFault::RequestByte.into()));
    assert!(rt; request.as_slice() == &[249, 250, 251, 252, 253, 254, 255][..]);
}
