use crate::answer::{Call, answer, run};
use crate::triangle::{LINE, RECORDING};
use std::test::Fail;
use vkray::Status;

#[test]
fn any_pieces_give_the_line(rt: HostRuntime) -> Result<(), Fail> {
    for read_piece in 1..8 {
        let call = Call {
            read_piece,
            write_piece: read_piece,
            ..run(RECORDING.as_bytes())
        };
        let (status, sink) = answer(&rt, rt.alloc(), &call)?;
        assert_eq!(rt; status, Status::Done, "{read_piece}");
        assert_eq!(rt; sink.bytes(), LINE.as_bytes(), "{read_piece}");
    }
    Ok(())
}

#[test]
fn each_proper_prefix_is_no_json(rt: HostRuntime) -> Result<(), Fail> {
    for (length, _) in RECORDING.as_bytes().iter().enumerate() {
        let prefix = RECORDING.as_bytes().get(..length).unwrap_or(&[]);
        let (status, sink) = answer(&rt, rt.alloc(), &run(prefix))?;
        assert_eq!(rt; status, Status::BadRecording, "{length}");
        assert_eq!(rt; sink.bytes(), b"not-json\n".as_slice(), "{length}");
    }
    Ok(())
}
