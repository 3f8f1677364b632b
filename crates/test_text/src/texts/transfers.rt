//! Transfers over objects that fail, give little or take little.
ghost use Rattle.std.specs.Prelude.{◌≡◌, ◌≤◌, IfOk, None};

use crate::marks::{Arguments, new_messages, number_in, unread};
use pv_io::{
    Failed, MemSink, MemSource, ReadAllFault, Sink, Source, StdSink, StdSource, WriteFault,
    read_all, write_all_of,
};
use std::alloc::{AllocError, Global};
use std::io;

/// What a call answers for arguments.
pub(crate) fn answer_to(
    alloc: Global,
    call: &str,
    arguments: &Arguments,
) -> Result<Vec<u8>, AllocError> {
    match call {
        "read-all" => whole_answer(alloc, arguments.at(0), arguments.from(1)),
        "reads" => reads_answer(alloc, arguments.at(0), arguments.from(1)),
        "write-all" => {
            write_answer(
                alloc,
                arguments.at(0),
                arguments.at(1),
                arguments.at(2),
                arguments.from(3),
            )
        }
        "zeros" => zeros_answer(alloc, arguments.at(0)),
        "offers" => offers_answer(alloc, arguments.at(0)),
        "reader" => reader_answer(alloc, arguments.at(0)),
        "writer" => writer_answer(alloc, arguments.at(0)),
        "device" => device_answer(alloc, arguments.at(0)),
        "fault-name" => name_answer(alloc, arguments.at(0)),
        _ => unread(alloc),
    }
}

/// The calls that fail.
fn numbers(alloc: Global, fails: &[Vec<u8>]) -> Result<Vec<u64>, AllocError> {
    let mut numbers = Vec::new(alloc);
    for fail in fails {
        if let Some(number) = number_in(fail) {
            numbers.push(number)?;
        }
    }
    Ok(numbers)
}

/// A source of a text that fails at some calls.
fn source_of(alloc: Global, text: &[u8], fails: &[Vec<u8>]) -> Result<MemSource, AllocError> {
    let fails = numbers(alloc, fails)?;
    Ok(MemSource::new(Vec::from_slice(alloc, text)?, fails))
}

/// What is read of a source, and how many bytes these are, or the fault.
fn read_answer(alloc: Global, read: Result<Vec<u8>, ReadAllFault>) -> Result<Vec<u8>, AllocError> {
    match read {
        Ok(bytes) => {
            let mut answer_to = format!(in alloc; "{} ", bytes.len())?.into_bytes();
            answer_to.extend_from_slice(&bytes)?;
            Ok(answer_to)
        }
        Err(fault) => Ok(format!(in alloc; "{fault}")?.into_bytes()),
    }
}

/// What is read whole of a text from memory.
fn whole_answer(alloc: Global, text: &[u8], fails: &[Vec<u8>]) -> Result<Vec<u8>, AllocError> {
    let mut source = source_of(alloc, text, fails)?;
    read_answer(alloc, read_all(alloc, &mut source))
}

/// What one call answers: how many bytes, or its fault.
fn count_word(alloc: Global, count: Result<usize, Failed>) -> Result<String, AllocError> {
    match count {
        Ok(count) => format!(in alloc; "{count}"),
        Err(fault) => format!(in alloc; "{fault}"),
    }
}

/// What four calls with a buffer of ten bytes answer, each with the buffer after it and a line's end.
fn reads_answer(alloc: Global, text: &[u8], fails: &[Vec<u8>]) -> Result<Vec<u8>, AllocError> {
    let mut source = source_of(alloc, text, fails)?;
    let mut buf = [0u8; 10];
    let mut answer_to = Vec::new(alloc);
    for _ in 0..4u32 {
        let count = count_word(alloc, source.read(&mut buf))?;
        answer_to.extend_from_slice(count.as_bytes())?;
        answer_to.push(b' ')?;
        answer_to.extend_from_slice(&buf)?;
        answer_to.push(b'|')?;
    }
    Ok(answer_to)
}

/// A fault of writing by its name, or `ok`.
fn written_word(alloc: Global, written: Result<(), WriteFault>) -> Result<String, AllocError> {
    match written {
        Ok(()) => "ok".to_string(alloc),
        Err(fault) => format!(in alloc; "{fault}"),
    }
}

/// The answer to writing a text whole, and the bytes that are written.
fn done_answer(
    alloc: Global,
    done: Result<(), WriteFault>,
    written: &[u8],
) -> Result<Vec<u8>, AllocError> {
    let mut answer_to = written_word(alloc, done)?.into_bytes();
    answer_to.push(b' ')?;
    answer_to.extend_from_slice(written)?;
    Ok(answer_to)
}

/// Writes to a sink that takes at most so many bytes at a call, has so much room, and fails at some calls.
fn write_answer(
    alloc: Global,
    text: &[u8],
    most: &[u8],
    room: &[u8],
    fails: &[Vec<u8>],
) -> Result<Vec<u8>, AllocError> {
    match (number_in(most), number_in(room)) {
        (Some(most @ 1..), Some(room)) => {
            let fails = numbers(alloc, fails)?;
            let mut sink = MemSink::new(alloc, most as usize, room as usize, fails)?;
            let done = write_all_of(&mut sink, text);
            done_answer(alloc, done, sink.written())
        }
        _ => unread(alloc),
    }
}

/// A source of zeros that tells nothing.
#[derive(Drop)]
struct Zeros {
    left: usize,
}

impl Source for Zeros {
    ghost left = { λ _. None };

    ghost faults = { λ _. 0 };

    ghost calls = { λ _. None };

    fn read(&mut self, buf: &mut [u8]) -> Result<usize, Failed> {
        let count = self.left.min(buf.len());
        self.left -= count;
        Ok(count)
    }
}

/// How many bytes are read of so many zeros.
fn zeros_answer(alloc: Global, count: &[u8]) -> Result<Vec<u8>, AllocError> {
    let Some(count) = number_in(count) else {
        return unread(alloc);
    };
    let left = count as usize;
    Ok(match read_all(alloc, &mut Zeros { left }) {
        Ok(bytes) => format!(in alloc; "{}", bytes.len())?,
        Err(fault) => format!(in alloc; "{fault}")?,
    }
    .into_bytes())
}

/// A sink that takes one byte of each piece, and keeps the lengths of the pieces.
#[derive(Drop)]
struct Offers {
    pieces: Vec<usize>,
}

impl Sink for Offers {
    ghost written = { λ _. None };

    ghost faults = { λ _. 18446744073709551615 };

    ghost calls = { λ _. None };

    fn write(&mut self, bytes: &[u8]) -> Result<usize, Failed> {
        match self.pieces.push(bytes.len()) {
            Ok(()) => Ok(1),
            Err(_) => Err(Failed),
        }
    }
}

/// The answer to writing a text whole to a sink that takes one byte a call, and how many bytes each call is offered.
fn offers_answer(alloc: Global, text: &[u8]) -> Result<Vec<u8>, AllocError> {
    let mut sink = Offers {
        pieces: Vec::new(alloc),
    };
    let done = write_all_of(&mut sink, text);
    let mut answer_to = written_word(alloc, done)?;
    for piece in &sink.pieces {
        answer_to.push_str(&format!(in alloc; " {piece}")?)?;
    }
    Ok(answer_to.into_bytes())
}

/// What is read whole over a reader of a text.
fn reader_answer(alloc: Global, text: &[u8]) -> Result<Vec<u8>, AllocError> {
    let mut source = StdSource::new(text);
    read_answer(alloc, read_all(alloc, &mut source))
}

/// The answer to writing a text whole over a writer, and what the writer then holds.
fn writer_answer(alloc: Global, text: &[u8]) -> Result<Vec<u8>, AllocError> {
    let mut held = Vec::new(alloc);
    let done = write_all_of(&mut StdSink::new(&mut held), text);
    done_answer(alloc, done, &held)
}

/// A device that fails at each second call and takes nothing at each third.
#[derive(Drop)]
struct Device {
    calls: u8,
}

impl io::Read for Device {
    fn read(&mut self, buf: &mut [u8]) -> io::Result<usize> {
        self.calls = self.calls.saturating_add(1);
        match self.calls {
            2 => Err(io::Error::from_raw_os_error(5)),
            _ => Ok(1.min(buf.len())),
        }
    }
}

impl io::Write for Device {
    fn write(&mut self, buf: &[u8]) -> io::Result<usize> {
        self.calls = self.calls.saturating_add(1);
        match self.calls {
            2 => Err(io::Error::from_raw_os_error(5)),
            3 => Ok(0),
            _ => Ok(1.min(buf.len())),
        }
    }

    fn flush(&mut self) -> io::Result<()> {
        Ok(())
    }
}

/// What four calls each of reading and of writing a text over a device answer.
fn device_answer(alloc: Global, text: &[u8]) -> Result<Vec<u8>, AllocError> {
    if text.is_empty() {
        return unread(alloc);
    }
    let mut failing = StdSource::new(Device { calls: 0 });
    let mut taking = StdSink::new(Device { calls: 0 });
    let mut answer_to = "calls".to_string(alloc)?;
    for _ in 0..4u32 {
        let mut buf = [0u8; 4];
        let read = count_word(alloc, failing.read(&mut buf))?;
        let written = count_word(alloc, taking.write(text))?;
        answer_to.push_str(&format!(in alloc; " {read} {written}")?)?;
    }
    Ok(answer_to.into_bytes())
}

/// How a fault is printed.
fn name_answer(alloc: Global, fault: &[u8]) -> Result<Vec<u8>, AllocError> {
    Ok(match fault {
        b"Failed" => format!(in alloc; "{}", Failed)?,
        b"WriteFault" => format!(in alloc; "{}", WriteFault)?,
        b"ReadFault" => format!(in alloc; "{}", ReadAllFault::ReadFault)?,
        b"TooLong" => format!(in alloc; "{}", ReadAllFault::TooLong)?,
        b"Memory" => format!(in alloc; "{}", ReadAllFault::Memory)?,
        _ => "no fault".to_string(alloc)?,
    }
    .into_bytes())
}
