//! Extended attributes and file attribute flags, as an argument gives them (xattr(7), chattr(1)).
ghost use Rattle.std.specs.Prelude.{◌≡◌, ℕ, ◌<◌, ◌^◌, List, [], ◌∷◌, ◌++◌, ◌==◌, true, length, None, Some, OnOk, IfOk, IfSome, option_map, position};
ghost use Rattle.pv_text.specs.Fields.{is_quote};
ghost use Rattle.pv_steps.specs.Attributes.{is_attr, are_attrs};
ghost use Rattle.pv_lines.specs.ArgumentField.{attr_in, attrs_in, attrs_of, begun, begun_words, is_space, letters_of, set_of, sign_of, words_from};
ghost use Rattle.pv_lines.specs.Lines.{IsArgument};
ghost use Rattle.pv_lines.specs.Words.{words_of};
ghost use Rattle.pv_lines.specs.Faults.{Gives};

use crate::line::Argument;
use crate::line_fault::LineFault;
use crate::types::Wanted;
use pv_path::Bytes;
use pv_steps::{Attr, AttrList, LetterHow, LetterSet, is_attr};
use std::alloc::{AllocError, Global};

/// The words of a text, as they are read byte by byte.
#[derive(Drop)]
struct WordReader {
    /// The words that have ended.
    words: Vec<Bytes>,
    /// The word that has begun, if one has.
    word: Option<Bytes>,
    /// The quote that is open, if one is.
    quote: Option<u8>,
}

impl WordReader {
    /// Begins with no words.
    fn new(alloc: Global) -> WordReader
        ensures { (text : List ℕ) → words_of result text ≡ words_from None None text }
    {
        WordReader {
            words: Vec::new(alloc),
            word: None,
            quote: None,
        }
    }

    /// Reads one more byte.
    fn read(&mut self, alloc: Global, byte: u8) -> Result<(), AllocError>
        ensures { OnOk result ((text : List ℕ) → words_of self.new text ≡ words_of self.old (byte ∷ text)) }
    {
        match self.quote {
            Some(quote) => self.read_quoted(alloc, quote, byte),
            None => self.read_bare(alloc, byte),
        }
    }

    /// Reads one more byte while a quote is open.
    fn read_quoted(&mut self, alloc: Global, quote: u8, byte: u8) -> Result<(), AllocError>
        requires { self.old.quote ≡ Some quote }
        ensures { OnOk result ((text : List ℕ) → words_of self.new text ≡ words_of self.old (byte ∷ text)) }
    {
        if byte == quote {
            self.quote = None;
            return Ok(());
        }
        self.push(alloc, byte)?;
        Ok(())
    }

    /// Reads one more byte while no quote is open.
    fn read_bare(&mut self, alloc: Global, byte: u8) -> Result<(), AllocError>
        requires { self.old.quote ≡ None }
        ensures { OnOk result ((text : List ℕ) → words_of self.new text ≡ words_of self.old (byte ∷ text)) }
    {
        if is_quote(byte) {
            self.begin(alloc);
            self.quote = Some(byte);
            return Ok(());
        }
        if is_space(byte) {
            self.end_word()?;
            return Ok(());
        }
        self.push(alloc, byte)?;
        Ok(())
    }

    /// Begins a word, if none has begun.
    fn begin(&mut self, alloc: Global)
        ensures { self.new ≡ record self.old { word = Some (begun self.old.word) } }
    {
        self.word = Some(begun(alloc, self.word.take()));
    }

    /// Adds a byte to the word that has begun, or begins a word with it.
    fn push(&mut self, alloc: Global, byte: u8) -> Result<(), AllocError>
        ensures { OnOk result (self.new ≡ record self.old { word = Some (begun self.old.word ++ byte ∷ []) }) }
    {
        self.word = Some(followed(alloc, self.word.take(), byte)?);
        Ok(())
    }

    /// Ends the word that has begun, if there is one.
    fn end_word(&mut self) -> Result<(), AllocError>
        ensures { OnOk result ((self.new.words.items ≡ self.old.words.items ++ begun_words self.old.word)
            × (self.new.word ≡ None) × (self.new.quote ≡ self.old.quote)) }
    {
        match self.word.take() {
            Some(word) => Ok(self.words.push(word)?),
            None => Ok(()),
        }
    }
}

fn is_quote(byte: u8) -> bool
    ensures { result ≡ is_quote byte }
{
    byte == b'"' || byte == b'\''
}

fn is_space(byte: u8) -> bool
    ensures { result ≡ is_space byte }
{
    byte == b' ' || byte == b'\t'
}

/// Returns the word that has begun, or an empty one.
fn begun(alloc: Global, word: Option<Bytes>) -> Bytes
    ensures { result ≡ begun word }
{
    match word {
        Some(word) => word,
        None => Bytes::new(alloc),
    }
}

/// Returns a word, or an empty one, with a byte added at its end.
fn followed(alloc: Global, word: Option<Bytes>, byte: u8) -> Result<Bytes, AllocError>
    ensures { IfOk result (λ text. text ≡ begun word ++ byte ∷ []) }
{
    let mut word = begun(alloc, word);
    word.push(byte)?;
    Ok(word)
}

/// Splits a text into words at spaces and tabs, or gives nothing if a quote stays open. A part between two quotes of
/// one kind may have spaces and tabs, and the quotes are dropped.
fn words_in(alloc: Global, text: &[u8]) -> Result<Option<Vec<Bytes>>, AllocError>
    ensures { IfOk result (λ words. option_map (λ v. v.items) words ≡ words_from None None text.now) }
{
    let mut reader = WordReader::new(alloc);
    for byte in text {
        reader.read(alloc, *byte)?;
    }
    if reader.quote.is_some() {
        return Ok(None);
    }
    reader.end_word()?;
    Ok(Some(reader.words))
}

/// Returns the index of the first `=`, if there is one.
fn equals_at(word: &[u8]) -> Option<usize>
    ensures place { result ≡ position (λ b. b == 61) word.now }
    ensures within { IfSome result (λ at. at < length word.now) }
{
    word.iter().position(|byte| *byte == b'=')
}

/// Reads the attribute of a word `NAME=VALUE`, or gives nothing if it is not one.
fn attr_in(alloc: Global, word: &[u8]) -> Result<Option<Attr>, AllocError>
    ensures value { IfOk result (λ attr. attr ≡ attr_in word.now) }
    ensures allowed { IfOk result (λ attr. IfSome attr (λ attr. is_attr attr.name attr.value ≡ true)) }
{
    let Some(at) = equals_at(word) else {
        return Ok(None);
    };
    let (name, value) = (&word[..at], &word[at + 1..]);
    if !is_attr(name, value) {
        return Ok(None);
    }
    Ok(Some(Attr {
        name: Bytes::copy_of(alloc, name)?,
        value: Bytes::copy_of(alloc, value)?,
    }))
}

/// Reads the attributes of words, or gives nothing if a word is not one. Of two with one name the later counts.
fn attrs_in(alloc: Global, words: &[Bytes]) -> Result<Option<AttrList>, AllocError>
    ensures value { IfOk result (λ attrs. attrs ≡ attrs_in words.now []) }
    ensures allowed { IfOk result (λ attrs. IfSome attrs (λ attrs. are_attrs attrs ≡ true)) }
{
    let mut attrs = AttrList::new(alloc);
    for word in words {
        match attr_in(alloc, word.as_slice())? {
            Some(attr) => attrs.put(attr)?,
            None => return Ok(None),
        }
    }
    Ok(Some(attrs))
}

/// Reads a list of extended attributes, or gives the error.
pub(crate) fn attrs_of(alloc: Global, text: &[u8]) -> Result<Argument, LineFault>
    ensures read { Gives result (attrs_of text.now) }
    ensures fits { IfOk result (IsArgument Wanted.Attrs) }
{
    let Some(words) = words_in(alloc, text)? else {
        return Err(LineFault::BadAttribute);
    };
    match attrs_in(alloc, &words)? {
        Some(attrs) => Ok(Argument::Attrs(attrs)),
        None => Err(LineFault::BadAttribute),
    }
}

/// Splits the sign from the flags behind it. Without a sign the flags are added.
fn sign_of(text: &[u8]) -> (LetterHow, &[u8])
    ensures { (result.0, result.1.now) ≡ sign_of text.now }
{
    match text {
        [b'+', letters @ ..] => (LetterHow::Add, letters),
        [b'-', letters @ ..] => (LetterHow::Take, letters),
        [b'=', letters @ ..] => (LetterHow::Put, letters),
        letters => (LetterHow::Add, letters),
    }
}

/// Returns the set of some flags, or nothing if a byte is not a flag.
fn set_of(letters: &[u8]) -> Option<LetterSet>
    ensures value { result ≡ set_of letters.now }
    ensures few { IfSome result (λ set. set < 2 ^ 15) }
{
    let mut set = LetterSet::new();
    for letter in letters {
        set = set.union(LetterSet::of(*letter)?);
    }
    Some(set)
}

/// Reads file attribute flags, or gives the error. The call does not allocate.
pub(crate) fn letters_of(text: &[u8]) -> Result<Argument, LineFault>
    ensures read { result ≡ letters_of text.now }
    ensures fits { IfOk result (IsArgument Wanted.Letters) }
{
    let (how, letters) = sign_of(text);
    if letters.is_empty() && how != LetterHow::Put {
        return Err(LineFault::BadLetter);
    }
    match set_of(letters) {
        Some(letters) => Ok(Argument::Letters { how, letters }),
        None => Err(LineFault::BadLetter),
    }
}
