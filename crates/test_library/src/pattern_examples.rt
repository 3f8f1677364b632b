//! Patterns and paths.
use pv_glob::{matches, parse_pattern};
use pv_path::parse_path;
use std::test::Fail;

/// Whether a pattern matches a path, both as texts.
fn is_match(rt: HostRuntime, pattern: &str, path: &str) -> Result<bool, Fail> {
    let alloc = rt.alloc();
    let pattern = parse_pattern(alloc, pattern.as_bytes())?;
    let path = parse_path(alloc, path.as_bytes())?;
    Ok(matches(&pattern, &path))
}

#[test]
fn a_star_stands_for_a_part_of_one_name(rt: HostRuntime) -> Result<(), Fail> {
    assert!(rt; is_match(rt, "/run/*.pid", "/run/cron.pid")?);
    assert!(rt; !is_match(rt, "/run/*.pid", "/run/cron.log")?);
    assert!(rt; !is_match(rt, "/run/*.pid", "/run/a/b.pid")?);
    Ok(())
}

#[test]
fn braces_stand_for_each_of_their_words(rt: HostRuntime) -> Result<(), Fail> {
    assert!(rt; is_match(rt, "/var/{log,cache}/[a-c]?", "/var/log/b1")?);
    assert!(rt; is_match(rt, "/var/{log,cache}/[a-c]?", "/var/cache/c2")?);
    assert!(rt; !is_match(rt, "/var/{log,cache}/[a-c]?", "/var/tmp/a1")?);
    Ok(())
}
