//! Runs that are stopped after each number of their steps, and what a complete run then leaves.
use crate::runs::{run, stopped};
use std::alloc::{AllocError, Global};

/// More steps and calls of a host than a run of a row takes.
pub(crate) const MOST: u32 = 64;

/// Adds the line of an object without its timestamps.
fn add_object(text: &mut Vec<u8>, line: &[u8]) -> Result<(), AllocError> {
    for (place, field) in line.split(|byte| *byte == b' ').enumerate() {
        text.push(b' ')?;
        text.extend_from_slice(if place == 5 { b"-" } else { field })?;
    }
    text.push(b'\n')?;
    Ok(())
}

/// The objects of an output without their timestamps, and without what is said before them.
fn objects(alloc: Global, output: &[u8]) -> Result<Vec<u8>, AllocError> {
    let mut text = Vec::new(alloc);
    for line in output.split(|byte| *byte == b'\n') {
        if !line.starts_with(b": ") {
            add_object(&mut text, line)?;
        }
    }
    Ok(text)
}

/// Whether a complete run over this output leaves these objects.
fn is_recovered(
    alloc: Global,
    words: &str,
    half: &[u8],
    wanted: &[u8],
) -> Result<bool, AllocError> {
    let (whole, _) = run(alloc, words, half)?;
    let left = objects(alloc, &whole)?;
    Ok(left.as_slice() == wanted)
}

/// After how many numbers of steps a run can be stopped, and after which of them a second, complete run leaves other
/// objects than one complete run.
pub(crate) fn stops(alloc: Global, words: &str, input: &[u8]) -> Result<String, AllocError> {
    let (whole, _) = run(alloc, words, input)?;
    let wanted = objects(alloc, &whole)?;
    let mut others = String::new(alloc);
    for steps in 0..MOST {
        match stopped(alloc, words, input, steps)? {
            None => return format!(in alloc; "{steps} steps{others}"),
            Some(half) if is_recovered(alloc, words, &half, &wanted)? => {}
            Some(_) => others.push_str(&format!(in alloc; ", other objects after {steps}")?)?,
        }
    }
    format!(in alloc; "too many steps")
}

/// How many steps a complete run over an output takes, if it then writes what is wanted.
fn steps_of(alloc: Global, words: &str, half: &[u8], wanted: &[u8]) -> Result<String, AllocError> {
    for steps in 0..MOST {
        let limited = format!(in alloc; "{words} --stop-after={steps}")?;
        let (whole, end) = run(alloc, &limited, half)?;
        if end == 0 && whole.as_slice() == wanted {
            return format!(in alloc; "{steps} ");
        }
        if end != 75 {
            return format!(in alloc; "other ");
        }
    }
    format!(in alloc; "too many ")
}

/// How many steps a complete run takes after each number of steps: what is staged goes first, one step for each object.
pub(crate) fn reruns(
    alloc: Global,
    words: &str,
    input: &[u8],
    wanted: &[u8],
) -> Result<String, AllocError> {
    let mut counts = String::new(alloc);
    for steps in 0..MOST {
        match stopped(alloc, words, input, steps)? {
            None => return format!(in alloc; "{counts}steps"),
            Some(half) => counts.push_str(&steps_of(alloc, words, &half, wanted)?)?,
        }
    }
    format!(in alloc; "too many steps")
}

/// Whether a line is a line of a text.
fn has_line(text: &[u8], line: &[u8]) -> bool {
    text.split(|byte| *byte == b'\n').any(|other| other == line)
}

/// Whether each line of a text is a line of another.
fn holds(text: &[u8], lines: &[u8]) -> bool {
    lines
        .split(|byte| *byte == b'\n')
        .all(|line| has_line(text, line))
}

/// After how many numbers of steps a run that removes can be stopped. It also gives after which of them an object is
/// gone that a complete run leaves, or one is there that was not there before.
pub(crate) fn takings(alloc: Global, words: &str, input: &[u8]) -> Result<String, AllocError> {
    let (whole, _) = run(alloc, words, input)?;
    let (old, left) = (objects(alloc, input)?, objects(alloc, &whole)?);
    let mut others = String::new(alloc);
    for steps in 0..MOST {
        let Some(half) = stopped(alloc, words, input, steps)? else {
            return format!(in alloc; "{steps} steps{others}");
        };
        let half = objects(alloc, &half)?;
        if !holds(&old, &half) || !holds(&half, &left) {
            others.push_str(&format!(in alloc; ", other objects after {steps}")?)?;
        }
    }
    format!(in alloc; "too many steps")
}

/// The statuses of a run, and of the same run over its output.
pub(crate) fn twice(alloc: Global, words: &str, input: &[u8]) -> Result<String, AllocError> {
    let (once, first) = run(alloc, words, input)?;
    let (_, second) = run(alloc, words, &once)?;
    format!(in alloc; "{first} then {second}")
}

/// The line in which an input ends.
fn last_line(input: &[u8]) -> usize {
    input.split(|byte| *byte == b'\n').count()
}

/// Counts the prefixes of an input that are refused as truncated, each at the line in which it ends.
pub(crate) fn cuts(alloc: Global, words: &str, input: &[u8]) -> Result<String, AllocError> {
    let mut count = 0usize;
    for end in 0..input.len() {
        let front = &input[..end];
        let (output, status) = run(alloc, words, front)?;
        let line = last_line(front);
        let wanted = format!(in alloc; ": bad image at line {line}: Truncated\n")?;
        if status == 66 && output.as_slice() == wanted.as_bytes() {
            count = count.saturating_add(1);
        }
    }
    format!(in alloc; "{count} of {} front parts", input.len())
}
