//! Rows of attributes and letters.
use crate::step_rows::attrs_in;
use pv_steps::{AttrList, LetterHow, LetterSet, is_attr, is_attr_name};
use std::alloc::Global;
use std::process::Abort;
use test_sheet::{attr_of, letters_of};

/// Names, and whether attributes may have them.
const NAMES: &[(&[u8], bool)] = &[
    (b"user.a", true),
    (b"a.b.c", true),
    (b"a..", true),
    (b"", false),
    (b"user", false),
    (b".user", false),
    (b"user.", false),
    (b"system.posix_acl_access", false),
    (b"system", false),
    (b"user.\0", false),
];

#[test]
fn names_of_attributes_are_told(rt: HostRuntime) {
    for &(name, is) in NAMES {
        let stated = is_attr_name(name) == is && is_attr(name, b"value") == is;
        assert!(rt; stated, "{name:?}");
    }
}

/// The list of two attributes, each at its end.
fn pushed(rt: &impl Abort, alloc: Global) -> AttrList {
    let mut list = AttrList::new(alloc);
    let first = attr_of(alloc, b"user.a", b"").expect(rt, "memory");
    list.push(first).expect(rt, "memory");
    let second = attr_of(alloc, b"user.b", b"2").expect(rt, "memory");
    list.push(second).expect(rt, "memory");
    list
}

/// Whether the attributes of some rows, put in turn, are those of another list.
fn are_put(rt: &impl Abort, alloc: Global, rows: &[(&[u8], &[u8])], wanted: &AttrList) -> bool {
    let put = attrs_in(rt, alloc, rows);
    put.copy().expect(rt, "memory").is_same(wanted)
}

/// Attributes to put, the last of which has a name that is none.
const ROWS: &[(&[u8], &[u8])] = &[
    (b"user.b", b"1"),
    (b"user.a", b""),
    (b"user.b", b"2"),
    (b"none", b"3"),
];

#[test]
fn attributes_are_put_in_order(rt: HostRuntime) {
    let rows = ROWS;
    let wanted = pushed(&rt, rt.alloc());
    assert!(rt; are_put(&rt, rt.alloc(), rows, &wanted));
    assert!(rt; are_put(&rt, rt.alloc(), &rows[1..], &wanted));
    assert!(rt; !are_put(&rt, rt.alloc(), &rows[..2], &wanted));
}

#[test]
fn attributes_are_some(rt: HostRuntime) {
    let rows = ROWS;
    let none = AttrList::new(rt.alloc());
    assert!(rt; !are_put(&rt, rt.alloc(), &rows[..3], &none));
    assert!(rt; !attrs_in(&rt, rt.alloc(), &rows[..2]).is_empty());
}

/// The first two attributes with the third.
fn with_third(rt: &impl Abort, alloc: Global) -> AttrList {
    let rows = ROWS;
    let first = attrs_in(rt, alloc, &rows[..2]);
    let later = attrs_in(rt, alloc, &rows[2..3]);
    first.with_all(&later).expect(rt, "memory")
}

#[test]
fn lists_are_put_in_order(rt: HostRuntime) {
    let wanted = pushed(&rt, rt.alloc());
    assert!(rt; with_third(&rt, rt.alloc()).is_same(&wanted));
}

/// Whether a set has these letters.
fn has_letters(rt: &impl Abort, alloc: Global, set: LetterSet, letters: &[u8]) -> bool {
    set.letters(alloc).expect(rt, "memory").as_slice() == letters
}

#[test]
fn letters_are_told(rt: HostRuntime) {
    let all = letters_of(b"utsjiedcaTSPDCAz");
    let few = letters_of(b"ia");
    assert!(rt; has_letters(&rt, rt.alloc(), all, b"ACDPSTacdeijstu"));
    assert!(rt; has_letters(&rt, rt.alloc(), all.without(few), b"ACDPSTcdejstu"));
}

#[test]
fn letters_are_in_sets(rt: HostRuntime) {
    let all = letters_of(b"utsjiedcaTSPDCAz");
    let few = letters_of(b"ia");
    assert!(rt; all.bits() == 32767);
    assert!(rt; few.has(b'a') && few.has(b'i') && !few.has(b'A') && !few.has(b'z'));
    assert!(rt; all.without(all).is_empty() && !all.is_same(few));
    assert!(rt; few.after(LetterHow::Add, all).is_same(all));
    assert!(rt; few.after(LetterHow::Take, all).is_empty());
    assert!(rt; all.after(LetterHow::Put, few).is_same(few));
}
