//! What the arguments of the command line ask for.
ghost use Rattle.std.specs.Prelude.{◌≡◌, map, string_bytes};
ghost use Rattle.pv_words.specs.Answered.{Answers};
ghost use Rattle.pv_words.specs.Invocation.{parse_args, count_value, generate_by, generate_of};

use crate::options::{Options, options_of};
use crate::values::decimal_value;
use crate::words_fault::WordsFault;
use std::alloc::Global;

/// What the arguments of the command line ask for.
#[derive(Drop)]
pub enum Invocation {
    /// A run of one of the tools over the tree in the input.
    Run(Options),
    /// A run over a random tree from the number `seed`, with `count` random configuration lines, 1 to 2000.
    Generate { seed: u64, count: u32 },
}

/// The most random configuration lines.
const MOST_LINES: u32 = 2000;

/// Reads the arguments of the command line, without the name of the program.
///
/// If the first argument is `generate`, exactly two more must follow. The seed is a decimal number below 2^64, and the
/// count is a decimal number from 1 to 2000. Otherwise the arguments are read by `options_of`.
///
/// The error is `Usage` exactly if the arguments mean nothing. `Memory` may come instead if an allocation fails.
/// For example, `generate 7 100` gives `Generate { seed: 7, count: 100 }`.
pub fn parse_args(alloc: Global, words: &[String]) -> Result<Invocation, WordsFault>
    ensures { Answers result (parse_args (map string_bytes words.now)) }
{
    match words {
        [] => Err(WordsFault::Usage),
        [first, rest @ ..] => {
            if first.as_bytes() == b"generate".as_slice() {
                generate_of(rest).ok_or(WordsFault::Usage)
            } else {
                Ok(Invocation::Run(options_of(alloc, words)?))
            }
        }
    }
}

/// Reads the arguments after `generate`: exactly a seed and a count.
fn generate_of(words: &[String]) -> Option<Invocation>
    ensures { result ≡ generate_of (map string_bytes words.now) }
{
    match words {
        [seed, count] => {
            let seed = decimal_value(seed.as_bytes())?;
            let count = count_value(count.as_bytes())?;
            Some(Invocation::Generate { seed, count })
        }
        _ => None,
    }
}

/// Reads a count of lines: a decimal number from 1 to 2000.
fn count_value(text: &[u8]) -> Option<u32>
    ensures { result ≡ count_value text.now }
{
    let count = u32::try_from(decimal_value(text)?).ok()?;
    if count >= 1 && count <= MOST_LINES {
        Some(count)
    } else {
        None
    }
}
