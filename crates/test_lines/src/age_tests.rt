//! Rows of ages and of what is old.
use bitflags::Flags;
use pv_age::{Age, AgeFault, StampSet, parse_age};
use pv_steps::{Kind, Stamps};
use pv_table::is_old;
use std::alloc::{AllocError, Global};
use std::test::Fail;
use test_sheet::plain_node;

/// Whether a text spells this age.
fn spells(text: &str, micros: u64, by: StampSet, spare_first: bool) -> bool {
    let age = Age {
        micros,
        by,
        spare_first,
    };
    parse_age(text.as_bytes()) == Ok(age)
}

/// Texts without timestamps, their microseconds, and whether they spare what stands directly in the directory.
const SUMS: &[(&str, u64, bool)] = &[
    ("10d", 864_000_000_000, false),
    ("1d12h", 129_600_000_000, false),
    ("10", 10_000_000, false),
    ("~0", 0, true),
    ("~1m30", 90_000_000, true),
    ("0010s", 10_000_000, false),
    ("18446744073709551615us", u64::MAX, false),
    ("18446744073709551614us1us", u64::MAX, false),
];

#[test]
fn reads_sums(rt: HostRuntime) {
    let default = StampSet::all().difference(StampSet::C);
    for &(text, micros, spare_first) in SUMS {
        assert!(rt; spells(text, micros, default, spare_first), "at {text}");
    }
}

#[test]
fn reads_lists_of_stamps(rt: HostRuntime) {
    let listed = StampSet::b.union(StampSet::m).union(StampSet::A);
    assert!(rt; spells("bmA:1h", 3_600_000_000, listed, false));
    assert!(rt; spells("aa:1h", 3_600_000_000, StampSet::a, false));
    assert!(rt; spells("aAbBcCmM:1h", 3_600_000_000, StampSet::all(), false));
    assert!(rt; spells("C:1h", 3_600_000_000, StampSet::C, false));
}

/// The microseconds of twice a unit.
fn twice(alloc: Global, name: &str) -> Result<Option<u64>, AllocError> {
    let text = format!(in alloc; "1{name}1{name}")?;
    Ok(micros_of(text.as_bytes()))
}

/// The microseconds of an age, where the text spells one.
fn micros_of(text: &[u8]) -> Option<u64> {
    match parse_age(text) {
        Ok(age) => Some(age.micros),
        Err(_) => None,
    }
}

/// The names of units, and how long they are.
const UNITS: &[(&str, u64)] = &[
    ("us usec", 1),
    ("ms msec", 1000),
    ("s sec second seconds", 1_000_000),
    ("m min minute minutes", 60_000_000),
    ("h hr hour hours", 3_600_000_000),
    ("d day days", 86_400_000_000),
    ("w week weeks", 604_800_000_000),
];

#[test]
fn reads_each_unit(rt: HostRuntime) -> Result<(), Fail> {
    for &(names, micros) in UNITS {
        for name in names.split(' ') {
            assert!(rt; twice(rt.alloc(), name)? == Some(2 * micros), "at {name}");
        }
    }
    Ok(())
}

/// Texts, and their first fault.
const FAULTS: &[(&str, AgeFault)] = &[
    ("18446744073710s", AgeFault::Overflow),
    ("18446744073709551615us1us", AgeFault::Overflow),
    ("18446744073709551616us", AgeFault::Overflow),
    ("18446744073709551616usd", AgeFault::BadUnit),
    ("18446744073709551616us:", AgeFault::BadStampLetter),
    ("18446744073710s d", AgeFault::Overflow),
    ("z:1h", AgeFault::BadStampLetter),
    (":1h", AgeFault::BadStampLetter),
    ("~:1h", AgeFault::BadStampLetter),
    ("a~:1h", AgeFault::BadStampLetter),
    ("z:", AgeFault::BadStampLetter),
    ("1x", AgeFault::BadUnit),
    ("1S", AgeFault::BadUnit),
    ("1sx1", AgeFault::BadUnit),
    ("", AgeFault::BadNumber),
    ("d", AgeFault::BadNumber),
    ("-", AgeFault::BadNumber),
    ("~", AgeFault::BadNumber),
    ("~~1", AgeFault::BadNumber),
    ("a:", AgeFault::BadNumber),
    ("1d 12h", AgeFault::BadNumber),
    ("1 d", AgeFault::BadNumber),
    ("+1d", AgeFault::BadNumber),
];

#[test]
fn answers_the_first_fault(rt: HostRuntime) {
    for &(text, fault) in FAULTS {
        assert!(rt; parse_age(text.as_bytes()) == Err(fault), "at {text}");
    }
}

/// A moment.
const NOW: u64 = 1_000_000_000_000;

/// The latest timestamp that is ten days old then.
const LAST: u64 = 135_999_999_999;

/// Ages, kinds, the timestamps of access, birth, change and modification, moments, and whether an object is old.
const OLD: &[(&str, Kind, [u64; 4], u64, bool)] = &[
    ("10d", Kind::File, [LAST, LAST, LAST, LAST], NOW, true),
    ("10d", Kind::File, [LAST, LAST, LAST, LAST + 1], NOW, false),
    ("10d", Kind::File, [LAST, LAST, NOW, LAST], NOW, false),
    ("10d", Kind::Link, [LAST, LAST + 1, LAST, LAST], NOW, false),
    ("10d", Kind::Directory, [0, 0, NOW, 0], NOW, true),
    ("10d", Kind::Directory, [0, 0, NOW, LAST + 1], NOW, false),
    ("0", Kind::File, [5, 5, 5, 5], 0, true),
    ("0", Kind::Directory, [5, 5, 5, 5], 5, true),
    ("10us", Kind::File, [5, 5, 5, 5], 9, false),
    ("10us", Kind::File, [5, 5, 5, 5], 15, false),
    ("10us", Kind::File, [5, 5, 5, 5], 16, true),
    ("m:10us", Kind::Directory, [5, 5, 5, 5], 9, false),
    ("m:10us", Kind::Directory, [5, 5, 5, 5], 10, true),
    ("m:10us", Kind::File, [5, 5, 5, 5], 15, false),
];

/// Whether an object with these timestamps is old by an age, where the text spells one.
fn old_by(alloc: Global, text: &str, kind: Kind, stamps: [u64; 4], now: u64) -> Option<bool> {
    let [access, birth, change, modify] = stamps;
    let mut node = plain_node(alloc, kind, 0o644);
    node.stamps = Stamps {
        access,
        birth,
        change,
        modify,
    };
    match parse_age(text.as_bytes()) {
        Ok(age) => Some(is_old(&node, &age, now)),
        Err(_) => None,
    }
}

#[test]
fn finds_what_is_old(rt: HostRuntime) {
    for &(text, kind, stamps, now, old) in OLD {
        let seen = old_by(rt.alloc(), text, kind, stamps, now);
        assert!(rt; seen == Some(old), "{text} {kind:?} {now}");
    }
}
