//! The texts of messages, and how they are printed.
ghost use Rattle.std.specs.Prelude.{◌≡◌, ◌++◌, ◌∷◌, [], true, IfOk, OnOk};
ghost use Rattle.pv_text.specs.Lines.{are_lines, is_line};
ghost use Rattle.provision_run.specs.Answers.{bad_image_text, at_line};
ghost use Rattle.provision_run.specs.OnFolder.{bad_folder_text};
ghost use Rattle.provision_run.specs.OverTree.{stopped_text};
ghost use Rattle.provision_run.specs.Messages.{message, messages_text, message_at};

use pv_folder::OpenFault;
use pv_image::ImageFault;
use pv_text::Messages;
use std::alloc::{AllocError, Global};

/// Adds a message to a text, as one line: a colon, a space, the text of the message and a line feed.
///
/// The only error is `AllocError`.
pub fn add_message(output: &mut Vec<u8>, text: &[u8]) -> Result<(), AllocError>
    ensures { OnOk result (output.new.items ≡ output.old.items ++ message text.now) }
{
    output.extend_from_slice(b": ")?;
    output.extend_from_slice(text)?;
    output.push(b'\n')?;
    Ok(())
}

/// Returns the text of all messages, each of which is one line. The only error is `AllocError`.
pub fn print_messages(alloc: Global, messages: &Messages) -> Result<Vec<u8>, AllocError>
    ensures lines { are_lines messages.now ≡ true }
    ensures text { IfOk result (λ text. text.items ≡ messages_text messages.now) }
{
    let mut output = Vec::new(alloc);
    for i in 0..messages.len() {
        add_line(&mut output, messages, i)?;
    }
    Ok(output)
}

/// Adds the message at an index, if there is one.
fn add_line(output: &mut Vec<u8>, messages: &Messages, i: usize) -> Result<(), AllocError>
    ensures { OnOk result (output.new.items ≡ output.old.items ++ message_at messages.now i) }
{
    match messages.line(i) {
        Some(text) => add_message(output, text),
        None => Ok(()),
    }
}

/// Returns the text `bad image at line N: NAME`.
fn at_line(alloc: Global, number: u64, name: &str) -> Result<Vec<u8>, AllocError>
    ensures { IfOk result (λ text. text.items ≡ at_line number name.now) }
{
    let mut text = Vec::from_slice(alloc, b"bad image at line ")?;
    let number = number.to_string(alloc)?;
    text.extend_from_slice(number.as_bytes())?;
    text.extend_from_slice(b": ")?;
    text.extend_from_slice(name.as_bytes())?;
    Ok(text)
}

/// Returns the message on an input that is not an image, such as `bad image at line 3: BadLine`.
///
/// For `Memory`, which does not blame the input, the text is empty. The only error is `AllocError`.
pub fn bad_image(alloc: Global, fault: ImageFault) -> Result<Vec<u8>, AllocError>
    ensures { IfOk result (λ text. text.items ≡ bad_image_text fault) }
{
    match fault {
        ImageFault::TooLong => Vec::from_slice(alloc, b"bad image: TooLong"),
        ImageFault::BadHeader(n) => at_line(alloc, n, "BadHeader"),
        ImageFault::BadLine(n) => at_line(alloc, n, "BadLine"),
        ImageFault::OutOfOrder(n) => at_line(alloc, n, "OutOfOrder"),
        ImageFault::NoParent(n) => at_line(alloc, n, "NoParent"),
        ImageFault::Truncated(n) => at_line(alloc, n, "Truncated"),
        ImageFault::Memory => Ok(Vec::new(alloc)),
    }
}

/// Returns the message on a folder that cannot be opened, such as `bad folder: NotPrepared`.
///
/// For `HostFailed` and `Memory`, which do not blame the folder, the text is empty. The only error is `AllocError`.
pub fn bad_folder(alloc: Global, fault: &OpenFault) -> Result<Vec<u8>, AllocError>
    ensures text { IfOk result (λ text. text.items ≡ bad_folder_text fault.now) }
    ensures line { IfOk result (λ text. is_line text.items ≡ true) }
{
    match fault {
        OpenFault::NotPrepared => Vec::from_slice(alloc, b"bad folder: NotPrepared"),
        OpenFault::BadManifest(_) => Vec::from_slice(alloc, b"bad folder: BadManifest"),
        OpenFault::OddObject(_) => Vec::from_slice(alloc, b"bad folder: OddObject"),
        OpenFault::TooLarge => Vec::from_slice(alloc, b"bad folder: TooLarge"),
        OpenFault::HostFailed | OpenFault::Memory => Ok(Vec::new(alloc)),
    }
}

/// Returns the text `stopped after N steps`.
fn stopped_text(alloc: Global, count: u64) -> Result<Vec<u8>, AllocError>
    ensures text { IfOk result (λ text. text.items ≡ stopped_text count) }
    ensures line { IfOk result (λ text. is_line text.items ≡ true) }
{
    let mut text = Vec::from_slice(alloc, b"stopped after ")?;
    let number = count.to_string(alloc)?;
    text.extend_from_slice(number.as_bytes())?;
    text.extend_from_slice(b" steps")?;
    Ok(text)
}

/// Adds the message that a run was stopped after this number of steps. The only error is `AllocError`.
pub fn say_stopped(alloc: Global, count: u64, messages: &mut Messages) -> Result<(), AllocError>
    ensures ok { OnOk result (messages.new ≡ messages.old ++ stopped_text count ∷ []) }
{
    let text = stopped_text(alloc, count)?;
    messages.push(&text)
}
