use ray_io::{ReadError, StdSink, StdSource, WriteFault, read_all, write_all};
use std::fs;
use std::test::Fail;

const PATH: &str = "vkray_rows_standard.bin";

// Sources and sinks before a reader and a writer of std, over a file that is written here.
#[test]
fn a_file_takes_and_gives_bytes(rt: HostRuntime) -> Result<(), Fail> {
    let mut written = StdSink::new(fs::create(&rt, PATH)?);
    write_all(&mut written, b"first ")?;
    write_all(&mut written, b"second")?;

    let mut read = StdSource::new(fs::open(&rt, PATH)?);
    let all = read_all(rt.alloc(), &mut read, 12)?;
    assert_eq!(rt; all.as_slice(), b"first second".as_slice());

    // A file that is open for the other thing only.
    let mut unreadable = StdSource::new(fs::create(&rt, PATH)?);
    let fault = read_all(rt.alloc(), &mut unreadable, 12).err();
    assert_eq!(rt; fault, Some(ReadError::ReadFault));
    let mut unwritable = StdSink::new(fs::open(&rt, PATH)?);
    assert_eq!(rt;
        write_all(&mut unwritable, b"third").err(),
        Some(WriteFault)
    );
    fs::remove_file(&rt, PATH)?;
    Ok(())
}
