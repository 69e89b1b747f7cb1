use crate::answer::{Call, answer, run};
use crate::triangle::{LINE, RECORDING};
use std::test::Fail;
use vkray::Status;

// How often the source is called where it gives 1,000 bytes a call: the recording has more than
// 1,000 bytes and at most 2,000, so twice, and once more for the end.
const CALLS: u32 = 3;

#[test]
fn each_failing_read_is_a_read_fault(rt: HostRuntime) -> Result<(), Fail> {
    for k in 0..CALLS {
        let call = Call {
            read_piece: 1000,
            read_fails: Some(k),
            ..run(RECORDING.as_bytes())
        };
        let (status, sink) = answer(&rt, rt.alloc(), &call)?;
        assert_eq!(rt; status, Status::ReadFault, "{k}");
        assert_eq!(rt; sink.bytes(), b"read-fault\n".as_slice(), "{k}");
    }
    let call = Call {
        read_piece: 1000,
        read_fails: Some(CALLS),
        ..run(RECORDING.as_bytes())
    };
    let (status, _sink) = answer(&rt, rt.alloc(), &call)?;
    assert_eq!(rt; status, Status::Done);
    Ok(())
}

#[test]
fn each_failing_write_is_a_write_fault(rt: HostRuntime) -> Result<(), Fail> {
    for (k, _) in LINE.as_bytes().iter().enumerate() {
        let call = Call {
            write_piece: 1,
            write_fails: Some(k as u32),
            ..run(RECORDING.as_bytes())
        };
        let (status, sink) = answer(&rt, rt.alloc(), &call)?;
        assert_eq!(rt; status, Status::WriteFault, "{k}");
        assert_eq!(rt; Some(sink.bytes()), LINE.as_bytes().get(..k), "{k}");
    }
    Ok(())
}

#[test]
fn a_full_sink_is_a_write_fault(rt: HostRuntime) -> Result<(), Fail> {
    for (k, _) in LINE.as_bytes().iter().enumerate() {
        let call = Call {
            room: k as u32,
            ..run(RECORDING.as_bytes())
        };
        let (status, sink) = answer(&rt, rt.alloc(), &call)?;
        assert_eq!(rt; status, Status::WriteFault, "{k}");
        assert_eq!(rt; Some(sink.bytes()), LINE.as_bytes().get(..k), "{k}");
    }
    Ok(())
}
