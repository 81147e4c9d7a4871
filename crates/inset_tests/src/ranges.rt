//! Which insets lie in range.

use crate::sets::bytes_of;
use region_bytes::RegionBytes;
use region_inset::can_inset;
use std::alloc::Global;
use std::test::Fail;
use tb_geom::Refusal;

/// Whether the inset of the region of these words lies in range.
fn lies(alloc: Global, words: &[u16], dh: i16, dv: i16) -> Result<bool, Refusal> {
    let bytes = bytes_of(alloc, words)?;
    let region = RegionBytes::read(bytes.as_slice())?;
    Ok(can_inset(&region, i32::from(dh), i32::from(dv)))
}

/// The words of the first pixel of the range, and of the last one.
const FIRST: [u16; 5] = [10, 0xC000, 0xC000, 0xC001, 0xC001];

const LAST: [u16; 5] = [10, 0x3FFE, 0x3FFE, 0x3FFF, 0x3FFF];

#[test]
fn the_last_pixels_are_not_widened(rt: HostRuntime) -> Result<(), Fail> {
    let alloc = rt.alloc();
    for words in [FIRST, LAST] {
        assert!(rt; lies(alloc, &words, 0, 0)?);
        assert!(rt; lies(alloc, &words, 16383, 16383)?);
        assert!(rt; !lies(alloc, &words, -1, 0)?);
        assert!(rt; !lies(alloc, &words, 0, -1)?);
        assert!(rt; !lies(alloc, &words, -1, -1)?);
        assert!(rt; !lies(alloc, &words, -16384, 0)?);
        assert!(rt; !lies(alloc, &words, 0, -16384)?);
    }
    Ok(())
}

#[test]
fn what_is_lost_again_may_reach_out_of_range(rt: HostRuntime) -> Result<(), Fail> {
    let alloc = rt.alloc();
    for words in [FIRST, LAST] {
        assert!(rt; lies(alloc, &words, -1, 1)?);
        assert!(rt; lies(alloc, &words, 1, -1)?);
        assert!(rt; lies(alloc, &words, -16384, 1)?);
        assert!(rt; lies(alloc, &words, 1, -16384)?);
    }
    Ok(())
}

/// No pixel, and the pixel in the middle.
const NOTHING: [u16; 5] = [10, 0, 0, 0, 0];

const MIDDLE: [u16; 5] = [10, 0, 0, 1, 1];

#[test]
fn sets_are_widened_up_to_the_last_pixel(rt: HostRuntime) -> Result<(), Fail> {
    let alloc = rt.alloc();
    assert!(rt; lies(alloc, &NOTHING, -16384, -16384)?);
    assert!(rt; lies(alloc, &MIDDLE, -16382, -16382)?);
    assert!(rt; !lies(alloc, &MIDDLE, -16383, 0)?);
    assert!(rt; !lies(alloc, &MIDDLE, 0, -16383)?);
    Ok(())
}

/// Three rows, of which the middle one ends with the last column, and the others three columns before.
const TONGUE: [u16; 22] = [
    44, 0, 0x3FF0, 3, 0x3FFF, 0, 0x3FF0, 0x3FFC, 0x7FFF, 1, 0x3FFC, 0x3FFF, 0x7FFF, 2, 0x3FFC,
    0x3FFF, 0x7FFF, 3, 0x3FF0, 0x3FFC, 0x7FFF, 0x7FFF,
];

/// The same with columns for rows: three columns, of which the middle one ends with the last row.
const DRIP: [u16; 20] = [
    40, 0x3FF0, 0, 0x3FFF, 3, 0x3FF0, 0, 3, 0x7FFF, 0x3FFC, 0, 1, 2, 3, 0x7FFF, 0x3FFF, 1, 2,
    0x7FFF, 0x7FFF,
];

#[test]
fn a_tongue_is_lost_to_the_rows_beside_it(rt: HostRuntime) -> Result<(), Fail> {
    let alloc = rt.alloc();
    assert!(rt; lies(alloc, &TONGUE, -3, 1)?);
    assert!(rt; !lies(alloc, &TONGUE, -4, 1)?);
    assert!(rt; !lies(alloc, &TONGUE, -1, 0)?);
    Ok(())
}

#[test]
fn a_drip_is_lost_to_the_columns_beside_it(rt: HostRuntime) -> Result<(), Fail> {
    let alloc = rt.alloc();
    assert!(rt; lies(alloc, &DRIP, 1, -3)?);
    assert!(rt; !lies(alloc, &DRIP, 1, -4)?);
    assert!(rt; !lies(alloc, &DRIP, 0, -1)?);
    Ok(())
}
