//! Words that the system can't give.
use pb_outside::MemSink;
use pb_run::report_unread_words;
use std::io;
use std::test::Fail;

#[test]
fn words_that_cannot_be_read_have_a_status(rt: HostRuntime) -> Result<(), Fail> {
    let mut sink = MemSink::new(rt.alloc(), 4096)?;
    assert_eq!(rt;
        report_unread_words(io::Error::from(io::ErrorKind::OutOfMemory), &mut sink),
        71
    );
    assert_eq!(rt; sink.bytes(), b"".as_slice());
    assert_eq!(rt;
        report_unread_words(io::Error::from(io::ErrorKind::InvalidData), &mut sink),
        64
    );
    assert_eq!(rt;
        sink.bytes(),
        b"error: invalid UTF-8 was detected in one or more arguments\n".as_slice()
    );
    Ok(())
}
