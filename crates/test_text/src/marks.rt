//! The words of a call, and answers that many calls tell.
use std::alloc::{AllocError, Global};
use std::fmt::Display;
use test_sheet::bytes_of;

/// The words behind a call, each as the bytes that it spells.
#[derive(Drop)]
pub(crate) struct Arguments {
    all: Vec<Vec<u8>>,
}

impl Arguments {
    /// The arguments of words that have a blank between two of them.
    pub(crate) fn of(alloc: Global, words: &str) -> Result<Arguments, AllocError> {
        let mut all = Vec::new(alloc);
        for word in words.split(' ') {
            all.push(bytes_of(alloc, word)?)?;
        }
        Ok(Arguments { all })
    }

    /// The argument of a number, counted from 0; one that is not there is empty.
    pub(crate) fn at(&self, i: usize) -> &[u8] {
        match self.all.get(i) {
            Some(argument) => argument.as_slice(),
            None => b"",
        }
    }

    /// The arguments from one of a number on.
    pub(crate) fn from(&self, i: usize) -> &[Vec<u8>] {
        if i <= self.all.len() {
            &self.all[i..]
        } else {
            &[]
        }
    }
}

/// The number that some digits spell.
pub(crate) fn number_in(digits: &[u8]) -> Option<u64> {
    str::from_utf8(digits).ok()?.parse::<u64>().ok()
}

/// The number that some octal digits spell.
pub(crate) fn octal_in(digits: &[u8]) -> Option<u16> {
    let mut number = 0u16;
    for byte in digits {
        let digit = char::from(*byte).to_digit(8)?;
        let digit = u16::try_from(digit).ok()?;
        number = number.checked_mul(8)?.checked_add(digit)?;
    }
    Some(number)
}

/// The bytes of a text.
pub(crate) fn new_messages(alloc: Global, text: &str) -> Result<Vec<u8>, AllocError> {
    Vec::from_slice(alloc, text.as_bytes())
}

/// What is printed of a value.
pub(crate) fn shown<T: Display>(alloc: Global, value: &T) -> Result<Vec<u8>, AllocError> {
    Ok(value.to_string(alloc)?.into_bytes())
}

/// Bytes with more bytes after them.
pub(crate) fn joined(alloc: Global, bytes: &[u8], more: &[u8]) -> Result<Vec<u8>, AllocError> {
    let mut all = Vec::from_slice(alloc, bytes)?;
    all.extend_from_slice(more)?;
    Ok(all)
}

/// Bytes, a blank, and more bytes.
pub(crate) fn spaced(bytes: Vec<u8>, more: &[u8]) -> Result<Vec<u8>, AllocError> {
    let mut all = bytes;
    all.push(b' ')?;
    all.extend_from_slice(more)?;
    Ok(all)
}

/// The name of a fault, and what is printed of it where that is another text.
pub(crate) fn named(alloc: Global, name: &[u8], printed: &[u8]) -> Result<Vec<u8>, AllocError> {
    if printed == name {
        Vec::from_slice(alloc, name)
    } else {
        joined(alloc, &joined(alloc, name, b", printed as ")?, printed)
    }
}

/// The answer to words that a call cannot read.
pub(crate) fn unread(alloc: Global) -> Result<Vec<u8>, AllocError> {
    new_messages(alloc, "unread words")
}

/// Bytes that were found, or that there are none.
pub(crate) fn or_none(alloc: Global, found: Option<&[u8]>) -> Result<Vec<u8>, AllocError> {
    match found {
        Some(bytes) => Vec::from_slice(alloc, bytes),
        None => new_messages(alloc, "none"),
    }
}

/// A number that was found, or that there is none.
pub(crate) fn id_or_none(alloc: Global, found: Option<u32>) -> Result<Vec<u8>, AllocError> {
    match found {
        Some(id) => shown(alloc, &id),
        None => new_messages(alloc, "none"),
    }
}
