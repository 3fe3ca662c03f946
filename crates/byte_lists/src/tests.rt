use crate::{Buffer, Bytes};
use std::test::Fail;

#[test]
fn ample(rt: HostRuntime) -> Result<(), Fail> {
    let alloc = rt.alloc();
    let bytes = Bytes::of(alloc, &[104, 105])?;
    assert_eq!(rt; bytes.as_slice(), b"hi".as_slice());

    let mut buffer = Buffer::with_room(alloc, 4)?;
    buffer.append(b"ab");
    assert_eq!(rt; buffer.as_slice(), b"ab".as_slice());
    buffer.append(b"cd");
    assert_eq!(rt; buffer.as_slice(), b"abcd".as_slice());
    buffer.clear();
    assert_eq!(rt; buffer.as_slice(), b"".as_slice());
    buffer.append(b"ef");
    assert_eq!(rt; buffer.into_vec().as_slice(), b"ef".as_slice());
    Ok(())
}
