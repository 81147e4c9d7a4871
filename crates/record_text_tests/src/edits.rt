//! Edits and keys.

use crate::made::{mark, press, reads, record, same, selects, standing, write};
use std::test::Fail;
use tb_geom::Refusal;
use text_edits::{Scrap, copy, cut, delete, idle, insert, paste};
use text_record::{Justification, TextRecord};

/// Copies what is selected.
fn take(text: &TextRecord, scrap: &mut Scrap) -> Result<(), Refusal> {
    copy(text, scrap)
}

/// Cuts what is selected.
fn take_out(text: &mut TextRecord, scrap: &mut Scrap) -> Result<(), Refusal> {
    cut(text, scrap)
}

/// Pastes the scrap.
fn put_in(text: &mut TextRecord, scrap: &Scrap) -> Result<(), Refusal> {
    paste(text, scrap)
}

/// Puts bytes in before the selection.
fn add(text: &mut TextRecord, bytes: &[u8]) -> Result<(), Refusal> {
    insert(text, bytes)
}

#[test]
fn arrows_move_the_point(rt: HostRuntime) -> Result<(), Fail> {
    let mut text = record(rt.alloc(), standing(), Justification::Left, true)?;
    write(&mut text, b"The quick brown fox")?;
    press(&mut text, &[30])?;
    assert!(rt; selects(&text, 9, 9));
    press(&mut text, &[30])?;
    assert!(rt; selects(&text, 0, 0));
    press(&mut text, &[31, 29])?;
    assert!(rt; selects(&text, 11, 11));
    press(&mut text, &[31])?;
    assert!(rt; selects(&text, 19, 19));
    Ok(())
}

#[test]
fn keys_take_the_place_of_what_is_selected(rt: HostRuntime) -> Result<(), Fail> {
    let mut text = record(rt.alloc(), standing(), Justification::Left, true)?;
    write(&mut text, b"The quick rown fox")?;
    mark(&mut text, 4, 9)?;
    press(&mut text, &[29])?;
    assert!(rt; selects(&text, 9, 9));
    press(&mut text, &[28])?;
    assert!(rt; selects(&text, 8, 8));
    mark(&mut text, 4, 9)?;
    press(&mut text, &[88])?;
    assert!(rt; reads(&text, b"The X rown fox") && selects(&text, 5, 5));
    press(&mut text, &[8])?;
    assert!(rt; reads(&text, b"The  rown fox") && selects(&text, 4, 4));
    Ok(())
}

#[test]
fn what_is_cut_is_pasted(rt: HostRuntime) -> Result<(), Fail> {
    let mut text = record(rt.alloc(), standing(), Justification::Left, true)?;
    let mut scrap = Scrap::new(rt.alloc());
    write(&mut text, b"one\rtwo")?;
    mark(&mut text, 2, 4)?;
    take(&text, &mut scrap)?;
    assert!(rt; same(scrap.bytes(), b"e\r") && selects(&text, 2, 4));
    take_out(&mut text, &mut scrap)?;
    assert!(rt; reads(&text, b"ontwo") && same(scrap.bytes(), b"e\r"));
    mark(&mut text, 0, 0)?;
    put_in(&mut text, &scrap)?;
    assert!(rt; reads(&text, b"e\rontwo") && selects(&text, 2, 2));
    take_out(&mut text, &mut scrap)?;
    assert!(rt; scrap.bytes().is_empty());
    Ok(())
}

#[test]
fn the_scrap_is_set(rt: HostRuntime) -> Result<(), Fail> {
    let mut text = record(rt.alloc(), standing(), Justification::Left, true)?;
    let mut scrap = Scrap::new(rt.alloc());
    scrap.set(b"q'")?;
    put_in(&mut text, &scrap)?;
    add(&mut text, b"\"")?;
    assert!(rt; reads(&text, b"q'\"") && selects(&text, 3, 3));
    mark(&mut text, 0, 99)?;
    delete(&mut text);
    assert!(rt; text.bytes().is_empty() && same(scrap.bytes(), b"q'"));
    Ok(())
}

#[test]
fn bytes_before_a_selection_move_it(rt: HostRuntime) -> Result<(), Fail> {
    let mut text = record(rt.alloc(), standing(), Justification::Left, true)?;
    write(&mut text, b"abc")?;
    mark(&mut text, 1, 2)?;
    add(&mut text, b"xy")?;
    assert!(rt; reads(&text, b"axybc") && selects(&text, 3, 4));
    assert!(rt; mark(&mut text, 2, 1).is_err() && mark(&mut text, 0, 32768).is_err());
    assert!(rt; selects(&text, 3, 4));
    Ok(())
}

#[test]
fn the_caret_blinks(rt: HostRuntime) -> Result<(), Fail> {
    let mut text = record(rt.alloc(), standing(), Justification::Left, true)?;
    idle(&mut text, 32);
    assert!(rt; !text.has_caret());
    idle(&mut text, 64);
    assert!(rt; text.has_caret());
    Ok(())
}

#[test]
fn a_text_has_32000_bytes_at_most(rt: HostRuntime) -> Result<(), Fail> {
    let mut text = record(rt.alloc(), standing(), Justification::Left, false)?;
    let most = vec![in rt.alloc(); 120u8; 32000]?;
    write(&mut text, &most)?;
    assert!(rt; text.bytes().len() == 32000);
    assert!(rt; press(&mut text, &[97]) == Err(Refusal::TooLong));
    press(&mut text, &[8, 97])?;
    assert!(rt; text.bytes().len() == 32000 && text.line_count() == 1);
    Ok(())
}
