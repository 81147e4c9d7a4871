//! Filled texts.

use dialog_items::{ParamTexts, filled};
use std::test::Fail;
use tb_geom::Refusal;

/// Four texts, of which the third has marks of its own.
const TEXTS: ParamTexts<'static> = ParamTexts {
    first: b"Disk",
    second: b"",
    third: b"^0^",
    fourth: b"3",
};

/// What texts become.
static FILLED: [(&[u8], &[u8]); 9] = [
    (b"", b""),
    (b"plain", b"plain"),
    (b"^0 is full", b"Disk is full"),
    (b"a^1b", b"ab"),
    (b"^20", b"^0^0"),
    (b"^^0", b"^Disk"),
    (b"^4^", b"^4^"),
    (b"^3^/^:", b"3^/^:"),
    (b"^0^0", b"DiskDisk"),
];

#[test]
fn marks_become_texts_once(rt: HostRuntime) -> Result<(), Fail> {
    for (bytes, wanted) in &FILLED {
        let text = filled(rt.alloc(), bytes, TEXTS)?;
        assert!(rt; text.as_slice() == *wanted);
    }
    Ok(())
}

#[test]
fn a_text_is_not_too_long(rt: HostRuntime) -> Result<(), Fail> {
    let long = [b'x'; 250];
    let texts = ParamTexts {
        first: &long,
        second: &long,
        third: b"",
        fourth: b"",
    };
    let mut bytes = Vec::new(rt.alloc());
    for _ in 0..128 {
        bytes.extend_from_slice(b"^1")?;
    }
    assert_eq!(rt; filled(rt.alloc(), &bytes, texts)?.len(), 32000);
    bytes.push(b'x')?;
    match filled(rt.alloc(), &bytes, texts) {
        Err(Refusal::TooLong) => {}
        _ => assert!(rt; false),
    }
    Ok(())
}
