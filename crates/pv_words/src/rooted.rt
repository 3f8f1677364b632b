//! Reads arguments that ask for a run on a folder.
ghost use Rattle.std.specs.Prelude.{◌≡◌, ◌<◌, ◌++◌, ◌∷◌, ◌==◌, not, false, drop, length, map, string_bytes, IfOk, IfSome, OnOk};
ghost use Rattle.std.specs.List.{list_all, list_any};
ghost use Rattle.pv_path.specs.Names.{same_bytes};
ghost use Rattle.pv_words.specs.Answered.{Answers};
ghost use Rattle.pv_words.specs.Cut.{Cut as CutValue};
ghost use Rattle.pv_words.specs.Meaning.{options_of};
ghost use Rattle.pv_words.specs.Rooted.{awaits_value, cut_by, cut_next, cut_of, is_alone, is_folder, is_root, root_place, rooted_of, rooted_with};
ghost use Rattle.pv_words.specs.Table.{all_options};

use crate::matches::{begins_with_dash, is_dash};
use crate::option::{OptionName, all_options};
use crate::options::{Options, options_of};
use crate::words_fault::WordsFault;
use pv_path::Bytes;
use std::alloc::{AllocError, Global};
use std::marker::Model;

/// A run of a tool on a folder.
#[derive(Drop)]
pub struct Rooted {
    /// The path of the folder, which `--root` names: at least one byte, and no NUL.
    pub folder: Bytes,
    /// What the arguments without `--root` mean.
    pub options: Options,
}

/// The value of `--root`, and the arguments before and after the option and its value.
#[derive(Drop)]
struct Cut<'a> {
    folder: &'a [u8],
    before: &'a [String],
    after: &'a [String],
}

impl<'a> Model for Cut<'a> {
    ghost Value = { CutValue };

    ghost view = { λ c. record { folder = c.folder.now; others = map string_bytes c.before.now ++ map string_bytes c.after.now } };
}

/// Reads arguments that ask for a run on a folder. The first of them names the tool.
///
/// `--root=FOLDER` or `--root FOLDER` is given exactly once, not after `--`, and not as the value of another
/// option. FOLDER has at least one byte and no NUL. The arguments without it are read by `options_of`.
///
/// The error is `Usage` exactly if they name no such folder, or the other arguments mean nothing. `Memory` may come
/// instead if an allocation fails.
pub fn rooted_of(alloc: Global, words: &[String]) -> Result<Rooted, WordsFault>
    ensures { Answers result (rooted_of (map string_bytes words.now)) }
{
    match words {
        [] => Err(WordsFault::Usage),
        [tool, rest @ ..] => {
            let cut = cut_of(rest).ok_or(WordsFault::Usage)?;
            let others = joined(alloc, tool, cut.before, cut.after)?;
            rooted_with(alloc, cut.folder, &others)
        }
    }
}

/// Makes the value from the folder and the other arguments.
fn rooted_with(alloc: Global, folder: &[u8], others: &[String]) -> Result<Rooted, WordsFault>
    ensures { Answers result (rooted_with folder.now (options_of (map string_bytes others.now))) }
{
    if !is_folder(folder) {
        return Err(WordsFault::Usage);
    }
    let options = options_of(alloc, others)?;
    let folder = Bytes::copy_of(alloc, folder)?;
    Ok(Rooted { folder, options })
}

/// Returns whether the bytes may be the path of a folder: at least one byte, and no NUL.
fn is_folder(bytes: &[u8]) -> bool
    ensures { result ≡ is_folder bytes.now }
{
    !bytes.is_empty() && has_no_nul(bytes)
}

/// Returns whether no byte is NUL.
fn has_no_nul(bytes: &[u8]) -> bool
    ensures { result ≡ list_all (λ b. not (b == 0)) bytes.now }
{
    bytes.iter().all(|b| *b != 0)
}

/// Returns copies of an argument and of two lists of arguments, one after another.
fn joined(
    alloc: Global,
    word: &String,
    before: &[String],
    after: &[String],
) -> Result<Vec<String>, AllocError>
    ensures { IfOk result (λ words. map string_bytes words.items ≡ string_bytes word.now ∷ map string_bytes before.now ++ map string_bytes after.now) }
{
    let mut words = Vec::new(alloc);
    words.push(word.clone()?)?;
    add_copies(&mut words, before)?;
    add_copies(&mut words, after)?;
    Ok(words)
}

/// Adds copies of the arguments `more` at the end.
fn add_copies(words: &mut Vec<String>, more: &[String]) -> Result<(), AllocError>
    ensures { OnOk result (map string_bytes words.new.items ≡ map string_bytes words.old.items ++ map string_bytes more.now) }
{
    for word in more {
        words.push(word.clone()?)?;
    }
    Ok(())
}

/// Returns the value of `--root`, and the arguments before and after the option and its value.
fn cut_of(words: &[String]) -> Option<Cut<'_>>
    ensures { result ≡ cut_of (map string_bytes words.now) }
{
    let place = root_place(words)?;
    let (before, from) = words.split_at(place);
    cut_by(before, from)
}

/// Returns the same, from the arguments before `--root` and those from it on.
fn cut_by<'a>(before: &'a [String], from: &'a [String]) -> Option<Cut<'a>>
    ensures { result ≡ cut_by (map string_bytes before.now) (map string_bytes from.now) }
{
    match from {
        [] => None,
        [word, after @ ..] => {
            if word.as_bytes() == b"--root".as_slice() {
                cut_next(before, after)
            } else {
                let folder = value_in(word.as_bytes());
                Some(Cut {
                    folder,
                    before,
                    after,
                })
            }
        }
    }
}

/// Returns the same, where the value of `--root` is the next argument, if that may be a value.
fn cut_next<'a>(before: &'a [String], words: &'a [String]) -> Option<Cut<'a>>
    ensures { result ≡ cut_next (map string_bytes before.now) (map string_bytes words.now) }
{
    match words {
        [] => None,
        [word, after @ ..] => {
            if begins_with_dash(word.as_bytes()) && !is_dash(word.as_str()) {
                None
            } else {
                Some(Cut {
                    folder: word.as_bytes(),
                    before,
                    after,
                })
            }
        }
    }
}

/// Returns what comes after `--root=`.
fn value_in(word: &[u8]) -> &[u8]
    ensures { result.now ≡ drop 7 word.now }
{
    match word {
        [_, _, _, _, _, _, _, value @ ..] => value,
        _ => &[],
    }
}

/// Returns the index of the first `--root` among the options.
fn root_place(words: &[String]) -> Option<usize>
    ensures place { result ≡ root_place false 0 (map string_bytes words.now) }
    ensures within { IfSome result (λ i. i < length words.now) }
{
    let mut awaited = false;
    for (i, word) in words.iter().enumerate() {
        let word = word.as_bytes();
        if awaited {
            awaited = false;
        } else if word == b"--".as_slice() {
            return None;
        } else if is_root(word) {
            return Some(i);
        } else {
            awaited = awaits_value(word);
        }
    }
    None
}

/// Returns whether an argument is `--root`, or begins with `--root=`.
fn is_root(word: &[u8]) -> bool
    ensures { result ≡ is_root word.now }
{
    word == b"--root".as_slice() || word.starts_with(b"--root=")
}

/// Returns whether an argument is an option whose value is the next argument.
fn awaits_value(word: &[u8]) -> bool
    ensures { result ≡ awaits_value word.now }
{
    word.starts_with(b"--") && is_any_alone(word)
}

/// Returns whether an argument that begins with two dashes is an option of the table with a value.
fn is_any_alone(word: &[u8]) -> bool
    ensures { result ≡ list_any (is_alone word.now) all_options }
{
    all_options().iter().any(|option| is_alone(word, *option))
}

/// Returns whether an argument that begins with two dashes is this option, and the option has a value.
fn is_alone(word: &[u8], option: OptionName) -> bool
    ensures { result ≡ is_alone word.now option }
{
    option.takes_value() && is_named(word, option.name().as_bytes())
}

/// Returns whether this name comes after the first two bytes.
fn is_named(word: &[u8], name: &[u8]) -> bool
    ensures { result ≡ same_bytes (drop 2 word.now) name.now }
{
    match word {
        [_, _, rest @ ..] => rest == name,
        _ => name.is_empty(),
    }
}
