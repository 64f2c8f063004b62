//! A test of the adapters over the standard library's readers and writers.
use session_disk::{Failed, Sink, Source, StdSink, StdSource};
use std::test::Fail;

#[test]
fn readers_and_writers_are_adapted(rt: HostRuntime) -> Result<(), Fail> {
    let mut piece = [0u8; 4];
    let mut source = StdSource::new(b"ab".as_slice());
    assert_eq!(rt; source.read(&mut piece), Ok(2));
    assert_eq!(rt; source.read(&mut piece), Ok(0));
    let mut sink = StdSink::new(Vec::new(rt.alloc()));
    assert_eq!(rt; sink.write(b"ab"), Ok(2));
    let mut full = [0u8; 0];
    let mut sink = StdSink::new(full.as_mut_slice());
    assert_eq!(rt; sink.write(b"ab"), Err(Failed));
    Ok(())
}
