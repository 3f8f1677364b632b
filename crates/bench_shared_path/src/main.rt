//! `bench_shared_path PATTERN PATTERN [TIMES]`: prints the first path that two patterns share, or `none`. With a number
//! it asks so many times, so that the cost of a query can be measured.
#![tactic(auto)]

use pv_glob::{Reach, meet, parse_pattern};
use pv_path::{TreePath, print_path};
use std::alloc::{AllocError, Global};
use std::process::ExitCode;
use std::{env, io};

/// The words after the name of the program.
fn words_of(rt: &HostRuntime) -> io::Result<Vec<String>> {
    let mut words = Vec::new(rt.alloc());
    for word in env::args(rt)?.skip(1) {
        words.push(word)?;
    }
    Ok(words)
}

/// The paths that a word matches as a pattern, or nothing if it spells none.
fn reach_of(alloc: Global, word: &String) -> Option<Reach> {
    match parse_pattern(alloc, word.as_bytes()) {
        Ok(pattern) => Some(Reach {
            pattern,
            below: false,
        }),
        Err(_fault) => None,
    }
}

/// The first path that two reaches share, asked so many times, and at least once.
fn shared(
    alloc: Global,
    first: &Reach,
    second: &Reach,
    times: u32,
) -> Result<Option<TreePath>, AllocError> {
    for _ in 1..times {
        let _path = meet(alloc, first, second)?;
    }
    meet(alloc, first, second)
}

/// What is printed for a path.
fn line_of(alloc: Global, path: &Option<TreePath>) -> Result<String, AllocError> {
    match path {
        Some(path) => {
            let text = print_path(alloc, path)?;
            String::from_utf8_lossy(alloc, &text)
        }
        None => "none".to_string(alloc),
    }
}

/// The answer to the words, or nothing if they have no meaning or memory runs out.
fn answer(alloc: Global, words: &[String]) -> Option<String> {
    let (first, second, times) = match words {
        [first, second] => (first, second, 1),
        [first, second, times] => (first, second, times.parse::<u32>().ok()?),
        _ => return None,
    };
    let first = reach_of(alloc, first)?;
    let second = reach_of(alloc, second)?;
    let path = shared(alloc, &first, &second, times).ok()?;
    line_of(alloc, &path).ok()
}

fn main(rt: HostRuntime) -> ExitCode {
    let Ok(words) = words_of(&rt) else {
        return ExitCode::from(71);
    };
    let Some(line) = answer(rt.alloc(), &words) else {
        return ExitCode::from(1);
    };
    match println!(rt; "{line}") {
        Ok(()) => ExitCode::from(0),
        Err(_unwritten) => ExitCode::from(76),
    }
}
