//! Lines of sysusers.d(5) with the texts of all account files after them.
use super::given::place_in;
use pv_requests::{RequestList, read_request};
use pv_sysusers::{PathIds, PlanFault, Texts, plan};
use pv_text::{Facts, Messages};
use std::alloc::{AllocError, Global};
use test_sheet::ended;

/// The requests of lines.
fn requests_of(alloc: Global, lines: &[&str]) -> Result<RequestList, AllocError> {
    let facts = Facts::new(alloc);
    let mut requests = RequestList::new(alloc);
    for line in lines {
        let place = place_in(alloc, b"A", 1)?;
        if let Ok(request) = read_request(alloc, line.as_bytes(), place, &facts) {
            requests.push(request)?;
        }
    }
    Ok(requests)
}

/// The texts of the four files, with a line of a dash between them.
fn joined(alloc: Global, texts: &Texts) -> Result<Vec<u8>, AllocError> {
    let mut text = Vec::from_slice(alloc, texts.passwd.as_slice())?;
    text.extend_from_slice(b"-\n")?;
    text.extend_from_slice(texts.group.as_slice())?;
    text.extend_from_slice(b"-\n")?;
    text.extend_from_slice(texts.shadow.as_slice())?;
    text.extend_from_slice(b"-\n")?;
    if let Some(gshadow) = &texts.gshadow {
        text.extend_from_slice(gshadow.as_slice())?;
    }
    Ok(text)
}

/// The texts of a plan, and how many messages there are.
fn texts_answer(alloc: Global, texts: &Texts, new_messages: usize) -> Result<Vec<u8>, AllocError> {
    let answer_to = format!(in alloc; "{new_messages} messages")?;
    ended(joined(alloc, texts)?, answer_to.as_bytes())
}

/// For which name a plan has no number, and how many messages there are.
fn lacking_answer(alloc: Global, name: &[u8], new_messages: usize) -> Result<Vec<u8>, AllocError> {
    let mut answer_to = format!(in alloc; "{new_messages} messages, no number for ")?.into_bytes();
    answer_to.extend_from_slice(name)?;
    ended(Vec::new(alloc), &answer_to)
}

/// What a plan gives, and how many messages there are.
fn plan_answer(
    alloc: Global,
    planned: Result<Texts, PlanFault>,
    new_messages: usize,
) -> Result<Vec<u8>, AllocError> {
    match planned {
        Ok(texts) => texts_answer(alloc, &texts, new_messages),
        Err(PlanFault::NoFreeId(name)) => lacking_answer(alloc, name.as_slice(), new_messages),
        Err(PlanFault::Memory) => ended(Vec::new(alloc), b"Memory"),
    }
}

/// What lines plan on day 11 for the account files of a text, if no path of a line has an object. Each file is followed
/// by a line of a dash, the last one only if it has a line.
pub(crate) fn planned(alloc: Global, lines: &[&str], input: &str) -> Result<Vec<u8>, AllocError> {
    let requests = requests_of(alloc, lines)?;
    let files: Vec<&str> = input.split("-\n").collect(alloc)?;
    let [passwd, group, shadow, gshadow] = files.as_slice() else {
        return ended(Vec::new(alloc), b"not four files");
    };
    let gshadow = Some(gshadow.as_bytes()).filter(|text| !text.is_empty());
    let taken = PathIds::new(alloc);
    let mut messages = Messages::new(alloc);
    let planned = plan(
        alloc,
        &requests,
        passwd.as_bytes(),
        group.as_bytes(),
        shadow.as_bytes(),
        gshadow,
        &taken,
        11,
        &mut messages,
    );
    plan_answer(alloc, planned, messages.len())
}
