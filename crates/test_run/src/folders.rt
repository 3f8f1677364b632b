//! Runs on the folder of a host, whole, stopped and broken.
use crate::hosts::{Parts, folder_text, host_of, image_of, parts_of};
use crate::runs::NOW;
use crate::stops::MOST;
use provision_run::{provision_all, status};
use pv_folder::MemHost;
use pv_io::{MemSink, MemSource};
use std::alloc::{AllocError, Global};
use test_sheet::words_of;

/// A run on a host: what it wrote, its status, and the image of what the host then holds.
#[derive(Drop)]
pub(crate) struct Ran {
    pub(crate) new_messages: Vec<u8>,
    pub(crate) status: u8,
    pub(crate) image: Vec<u8>,
}

/// Runs these words on a host: what is written, and the status.
fn run_on(alloc: Global, words: &str, host: &mut MemHost) -> Result<(Vec<u8>, u8), AllocError> {
    let words = words_of(alloc, words)?;
    let mut sink = MemSink::new(alloc, 65_536, 65_536, Vec::new(alloc))?;
    let mut source = MemSource::new(Vec::new(alloc), Vec::new(alloc));
    let outcome = provision_all(alloc, &words, NOW, &mut source, &mut sink, host);
    Ok((Vec::from_slice(alloc, sink.written())?, status(&outcome)))
}

/// A run with these words over the host of an image, which fails at these calls.
pub(crate) fn run(
    alloc: Global,
    words: &str,
    image: &[u8],
    fails: Vec<u64>,
) -> Result<Option<Ran>, AllocError> {
    let Some(mut host) = host_of(alloc, image, fails)? else {
        return Ok(None);
    };
    let (new_messages, status) = run_on(alloc, words, &mut host)?;
    let image = image_of(alloc, host.content())?;
    Ok(Some(Ran {
        new_messages,
        status,
        image,
    }))
}

/// The line of an object of a manifest without its timestamps.
fn without_stamps(alloc: Global, line: &str) -> Result<String, AllocError> {
    let mut fields: Vec<&str> = line.split(' ').collect(alloc)?;
    if fields.len() == 10 {
        if let Some(stamps) = fields.get_mut(5) {
            *stamps = "-";
        }
    }
    fields.join(alloc, " ")
}

/// What a host has in the folder, without the timestamps of the manifest.
fn objects(alloc: Global, image: &[u8]) -> Result<String, AllocError> {
    let folder = folder_text(alloc, str::from_utf8(image).unwrap_or(""))?;
    let mut text = String::new(alloc);
    for line in folder.lines() {
        text.push_str(&without_stamps(alloc, line)?)?;
        text.push('\n')?;
    }
    Ok(text)
}

/// Whether a complete run over this host leaves these objects.
fn is_recovered(alloc: Global, words: &str, half: &[u8], wanted: &str) -> Result<bool, AllocError> {
    match run(alloc, words, half, Vec::new(alloc))? {
        Some(whole) => Ok(objects(alloc, &whole.image)?.as_str() == wanted),
        None => Ok(false),
    }
}

/// What one complete run leaves in the folder.
fn wanted_of(alloc: Global, words: &str, image: &[u8]) -> Result<String, AllocError> {
    match run(alloc, words, image, Vec::new(alloc))? {
        Some(whole) => objects(alloc, &whole.image),
        None => Ok(String::new(alloc)),
    }
}

/// The calls that fail: this one, and where the machine stops there also the next one, which would write the manifest.
fn failing(alloc: Global, call: u32, stops: bool) -> Result<Vec<u64>, AllocError> {
    let mut fails = Vec::new(alloc);
    fails.push(u64::from(call))?;
    if stops {
        fails.push(u64::from(call) + 1)?;
    }
    Ok(fails)
}

/// How many calls a run makes to the host. Each of them ends the run with status 77 if it fails, or the machine stops
/// there. It also tells after which of them a complete run leaves other objects than one complete run.
pub(crate) fn failures(
    alloc: Global,
    words: &str,
    image: &[u8],
    stops: bool,
) -> Result<String, AllocError> {
    let wanted = wanted_of(alloc, words, image)?;
    let mut others = String::new(alloc);
    for call in 0..MOST {
        match run(alloc, words, image, failing(alloc, call, stops)?)? {
            Some(half) if half.status == 77 => {
                if !is_recovered(alloc, words, &half.image, &wanted)? {
                    others.push_str(&format!(in alloc; ", other objects after {call}")?)?;
                }
            }
            _ => return format!(in alloc; "{call} calls{others}"),
        }
    }
    format!(in alloc; "too many calls")
}

/// After how many numbers of steps a run can be stopped, and after which of them a second, complete run leaves other
/// objects than one complete run.
pub(crate) fn stops(alloc: Global, words: &str, image: &[u8]) -> Result<String, AllocError> {
    let wanted = wanted_of(alloc, words, image)?;
    let mut others = String::new(alloc);
    for steps in 0..MOST {
        let limited = format!(in alloc; "{words} --stop-after={steps}")?;
        match run(alloc, &limited, image, Vec::new(alloc))? {
            Some(half) if half.status == 75 => {
                if !is_recovered(alloc, words, &half.image, &wanted)? {
                    others.push_str(&format!(in alloc; ", other objects after {steps}")?)?;
                }
            }
            _ => return format!(in alloc; "{steps} steps{others}"),
        }
    }
    format!(in alloc; "too many steps")
}

/// What a run leaves in the folder that is stopped after each number of steps at which it can be.
fn stopped_parts(alloc: Global, words: &str, image: &[u8]) -> Result<Vec<Parts>, AllocError> {
    let mut stopped = Vec::new(alloc);
    for steps in 0..MOST {
        let limited = format!(in alloc; "{words} --stop-after={steps}")?;
        match run(alloc, &limited, image, Vec::new(alloc))? {
            Some(half) if half.status == 75 => stopped.push(parts_of(alloc, &half.image)?)?,
            _ => return Ok(stopped),
        }
    }
    Ok(stopped)
}

/// Whether two folders have the same manifest and the same tree.
fn same_parts(one: &Parts, other: &Parts) -> bool {
    one.manifest.as_str() == other.manifest.as_str() && one.tree.as_str() == other.tree.as_str()
}

/// The folders that one after a failure can be like: before the run, after each stop, and after the complete run.
#[derive(Drop)]
struct Known {
    before: Parts,
    stopped: Vec<Parts>,
    whole: Parts,
}

/// The folders that one can be like, if the text is an image.
fn known_of(alloc: Global, words: &str, image: &[u8]) -> Result<Option<Known>, AllocError> {
    let Some(whole) = run(alloc, words, image, Vec::new(alloc))? else {
        return Ok(None);
    };
    let whole = parts_of(alloc, &whole.image)?;
    let before = parts_of(alloc, image)?;
    let stopped = stopped_parts(alloc, words, image)?;
    Ok(Some(Known {
        before,
        stopped,
        whole,
    }))
}

/// What a folder is as: before the run, after a stop, or after the complete run except for the manifest, which is the old one.
fn likeness(alloc: Global, half: &Parts, known: &Known) -> Result<String, AllocError> {
    if same_parts(half, &known.before) {
        return "as before".to_string(alloc);
    }
    if let Some(steps) = known.stopped.iter().position(|stop| same_parts(half, stop)) {
        return format!(in alloc; "as after {steps} steps");
    }
    let unclosed = half.manifest.as_str() == known.before.manifest.as_str();
    if unclosed && half.tree.as_str() == known.whole.tree.as_str() {
        return "all but the manifest".to_string(alloc);
    }
    "other".to_string(alloc)
}

/// What the folder of an image is as.
fn likeness_of(alloc: Global, image: &[u8], known: &Known) -> Result<String, AllocError> {
    likeness(alloc, &parts_of(alloc, image)?, known)
}

/// What the folder is as after each call of the host that fails, beside folders that it can be like.
fn left_beside(
    alloc: Global,
    words: &str,
    image: &[u8],
    known: &Known,
) -> Result<String, AllocError> {
    let mut text = String::new(alloc);
    let mut last = String::new(alloc);
    for call in 0..MOST {
        match run(alloc, words, image, failing(alloc, call, false)?)? {
            Some(half) if half.status == 77 => {
                let is = likeness_of(alloc, &half.image, known)?;
                if is.as_str() != last.as_str() {
                    text.push_str(&format!(in alloc; "{call} {is}, ")?)?;
                    last = is;
                }
            }
            _ => return format!(in alloc; "{text}{call} calls"),
        }
    }
    format!(in alloc; "too many calls")
}

/// What the folder is as after each call of the host that fails: from which call on it is so, and how many calls there are.
pub(crate) fn left(alloc: Global, words: &str, image: &[u8]) -> Result<String, AllocError> {
    match known_of(alloc, words, image)? {
        Some(known) => left_beside(alloc, words, image, &known),
        None => "no image".to_string(alloc),
    }
}
