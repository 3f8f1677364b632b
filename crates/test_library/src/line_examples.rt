//! Lines of tmpfiles.d(5).
use crate::nobody::Nobody;
use pv_lines::{Line, LineFault, read_line};
use pv_text::{Facts, OneLine, Place};
use std::alloc::Global;
use std::test::Fail;

/// Reads the first line of the file `app.conf`.
fn read(alloc: Global, text: &str) -> Result<Line, LineFault> {
    let file = OneLine::copy_of(alloc, b"app.conf")?;
    let place = Place { file, number: 1 };
    read_line(alloc, text.as_bytes(), place, &Facts::new(alloc), &Nobody)
}

#[test]
fn a_line_has_its_mode_and_its_owner(rt: HostRuntime) -> Result<(), Fail> {
    let line = read(rt.alloc(), "d /run/app 0750 7 8 10d")?;
    assert!(rt; line.letter == b'd');
    assert!(rt; line.mode.map_or(false, |mode| mode.value == 0o750));
    assert!(rt; line.user.map_or(false, |user| user.id == 7));
    assert!(rt; line.group.map_or(false, |group| group.id == 8));
    Ok(())
}

#[test]
fn the_first_fault_is_answered(rt: HostRuntime) -> Result<(), Fail> {
    let fault = read(rt.alloc(), "d /run/app 0758").err();
    assert!(rt; matches!(fault, Some(LineFault::BadMode)));
    Ok(())
}
