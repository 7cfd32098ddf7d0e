//! The bytes of a record. The digest is the one of FIPS 180-4 for these three bytes.
use db_outside::Batch;
use std::process::Abort;
use std::test::Fail;

const ABC: [u8; 40] = [
    3, 0, 0, 0, 0xba, 0x78, 0x16, 0xbf, 0x8f, 0x01, 0xcf, 0xea, 0x41, 0x41, 0x40, 0xde, 0x5d, 0xae,
    0x22, 0x23, 0xb0, 0x03, 0x61, 0xa3, 0x96, 0x17, 0x7a, 0x9c, 0xb4, 0x10, 0xff, 0x61, 0xf2, 0x00,
    0x15, 0xad, b'a', b'b', b'c', 0,
];

#[test]
fn keeps_a_record_ready(rt: HostRuntime) -> Result<(), Fail> {
    let mut batch = Batch::new(rt.alloc())?;
    assert!(rt; batch.bytes().len() == 37);
    assert!(rt; batch.add(b"a").is_ok());
    assert!(rt; batch.add(b"bc").is_ok());
    assert!(rt; batch.bytes() == ABC.as_slice());
    Ok(())
}
