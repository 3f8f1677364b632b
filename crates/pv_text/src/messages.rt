//! The messages of a run, in their order.
ghost use Rattle.std.specs.Prelude.{◌≡◌, ℕ, true, List, [], ◌∷◌, ◌++◌, length, IfOk, IfSome, OnOk, OnErr, slice_get};
ghost use Rattle.std.specs.Option.{option_copied, option_to_list};
ghost use Rattle.pv_text.specs.Lines.{are_lines, is_line};
ghost use Rattle.pv_text.specs.GivenMessages.{MessagesPart, message_text_at};

use crate::one_line::OneLine;
use crate::place::Place;
use pv_path::Bytes;
use std::alloc::{AllocError, Global};
use std::marker::Model;

/// The messages of a run, in their order. Each is one line, without the `: ` that marks a message in an image, and
/// without its line feed.
///
/// No message contains a line feed, so that each can be read back as one. In contracts, a value is the list of
/// messages.
#[derive(Drop)]
pub struct Messages {
    lines: Vec<Bytes>,
    alloc: Global,
}

impl Model for Messages {
    ghost Value = { List (List ℕ) };

    ghost view = { λ m. m.lines.items };

    ghost invariant = { λ m. are_lines m.lines.items ≡ true };
}

impl Messages {
    /// Returns a value without messages. The call does not allocate.
    pub fn new(alloc: Global) -> Messages
        ensures { result ≡ [] }
    {
        Messages {
            lines: Vec::new(alloc),
            alloc,
        }
    }

    /// Adds a message at the end.
    ///
    /// `line` must have no line feed. The only error is `AllocError`, and then the messages are unchanged.
    pub fn push(&mut self, line: &[u8]) -> Result<(), AllocError>
        requires line { is_line line.now ≡ true }
        ensures ok { OnOk result (self.new ≡ self.old ++ line.now ∷ []) }
        ensures err { OnErr result (self.new ≡ self.old) }
    {
        let line = Bytes::copy_of(self.alloc, line)?;
        self.lines.push(line)?;
        Ok(())
    }

    /// Adds a message about a configuration line at the end, as `FILE:N: TEXT`.
    ///
    /// FILE and N are the file and the line number of `place`. `text` must have no line feed. The only error is
    /// `AllocError`, and then the messages are unchanged. For example, the text `TooFew` for line 3 of
    /// `/etc/tmpfiles.d/a.conf` gives `/etc/tmpfiles.d/a.conf:3: TooFew`.
    pub fn push_at(&mut self, place: &Place, text: &[u8]) -> Result<(), AllocError>
        requires line { is_line text.now ≡ true }
        ensures ok { OnOk result (self.new ≡ self.old ++ message_text_at place.now text.now ∷ []) }
        ensures err { OnErr result (self.new ≡ self.old) }
    {
        let line = line_at(self.alloc, &place.file, place.number, text)?;
        self.push(&line)
    }

    /// Returns the number of messages.
    pub fn len(&self) -> usize
        ensures count { result ≡ length self.now }
        ensures lines { are_lines self.now ≡ true }
    {
        self.lines.len()
    }

    /// Returns the message at an index counted from 0, or `None` past the last message. It has no line feed.
    pub fn line(&self, i: usize) -> Option<&[u8]>
        ensures value { option_copied result ≡ slice_get self.now i }
        ensures line { IfSome result (λ line. is_line line.now ≡ true) }
    {
        match self.lines.get(i) {
            Some(line) => Some(line.as_slice()),
            None => None,
        }
    }
}

/// Adds copies of all messages of `new_messages` at the end of `messages`.
///
/// The only error is `AllocError`. After an error, a prefix of these messages was added, perhaps none.
pub fn say_all(new_messages: &Messages, messages: &mut Messages) -> Result<(), AllocError>
    ensures ok { OnOk result (messages.new ≡ messages.old ++ new_messages.now) }
    ensures part { MessagesPart new_messages.now messages.old messages.new }
{
    for i in 0..new_messages.len() {
        say_one(new_messages, i, messages)?;
    }
    Ok(())
}

/// Adds a copy of the message at an index counted from 0, if there is one.
fn say_one(new_messages: &Messages, i: usize, messages: &mut Messages) -> Result<(), AllocError>
    ensures ok { OnOk result (messages.new ≡ messages.old ++ option_to_list (slice_get new_messages.now i)) }
    ensures err { OnErr result (messages.new ≡ messages.old) }
{
    match new_messages.line(i) {
        Some(line) => messages.push(line),
        None => Ok(()),
    }
}

/// Returns the text `FILE:N: TEXT`.
fn line_at(alloc: Global, file: &OneLine, number: u32, text: &[u8]) -> Result<Vec<u8>, AllocError>
    requires { is_line text.now ≡ true }
    ensures text { IfOk result (λ line. line.items ≡ message_text_at (record { file = file.now; number = number }) text.now) }
    ensures line { IfOk result (λ line. is_line line.items ≡ true) }
{
    let mut line = Vec::from_slice(alloc, file.as_slice())?;
    line.push(b':')?;
    let number = number.to_string(alloc)?;
    line.extend_from_slice(number.as_bytes())?;
    line.extend_from_slice(b": ")?;
    line.extend_from_slice(text)?;
    Ok(line)
}
