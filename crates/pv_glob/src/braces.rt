//! Expands the braces of a component. For each choice of one alternative in each pair, the result has one component
//! without braces.
ghost use Rattle.std.specs.Prelude.{◌≡◌, ℕ, ◌<◌, List, [], ◌∷◌, length, None, IfOk, IfSome, IfNone};
ghost use Rattle.pv_glob.specs.Elements.{elements_of};
ghost use Rattle.pv_glob.specs.Braces.{expansions_of, rests_of, whole, with_close, with_comma, with_element, with_open, within};
ghost use Rattle.pv_glob.specs.Reading.{continued, meaning};

use crate::brace_reading::{Pair, Reading};
use crate::bracket::behind;
use crate::component::{element_at, element_length};
use crate::element::Element;
use crate::words::{Words, empty_word, joined, lengthened, together};
use std::alloc::{AllocError, Global};

impl Reading {
    /// Returns the value before anything is read.
    fn start(alloc: Global) -> Result<Reading, AllocError>
        ensures { IfOk result (λ new. (places : List (List ℕ)) → meaning new places ≡ whole (rests_of places)) }
    {
        Ok(Reading {
            opened: Vec::new(alloc),
            words: empty_word(alloc)?,
        })
    }

    /// Reads an element.
    fn element(self, element: Element) -> Result<Reading, AllocError>
        ensures { IfOk result (λ new. (places : List (List ℕ)) → meaning new places ≡ continued self (with_element element (rests_of places))) }
    {
        let Reading { opened, words } = self;
        Ok(Reading {
            opened,
            words: lengthened(words, &[element])?,
        })
    }

    /// Reads `{`.
    fn open(self, alloc: Global) -> Result<Reading, AllocError>
        ensures { IfOk result (λ new. (places : List (List ℕ)) → meaning new places ≡ continued self (with_open (rests_of places))) }
    {
        let Reading {
            mut opened,
            words: before,
        } = self;
        let done = Words::new(alloc);
        opened.push(Pair { before, done })?;
        Ok(Reading {
            opened,
            words: empty_word(alloc)?,
        })
    }

    /// Reads `,`.
    fn comma(self, alloc: Global) -> Result<Reading, AllocError>
        ensures { IfOk result (λ new. (places : List (List ℕ)) → meaning new places ≡ continued self (with_comma (rests_of places))) }
    {
        let Reading { mut opened, words } = self;
        let Some(pair) = opened.pop() else {
            return Reading { opened, words }.element(Element::Byte(b','));
        };
        let Pair { before, done } = pair;
        let done = together(done, words)?;
        opened.push(Pair { before, done })?;
        Ok(Reading {
            opened,
            words: empty_word(alloc)?,
        })
    }

    /// Reads `}`. Returns `None` if no pair is open, or there are more than `most` words.
    fn close(self, alloc: Global, most: usize) -> Result<Option<Reading>, AllocError>
        ensures read { IfOk result (λ r. IfSome r (λ new. (places : List (List ℕ)) → meaning new places ≡ continued self (with_close (rests_of places)))) }
        ensures beyond { IfOk result (λ r. IfNone r ((places : List (List ℕ)) → within most (continued self (with_close (rests_of places))) ≡ None)) }
    {
        let Reading { mut opened, words } = self;
        let Some(pair) = opened.pop() else {
            return Ok(None);
        };
        let Pair { before, done } = pair;
        let done = together(done, words)?;
        if done.len() > most / before.len() {
            return Ok(None);
        }
        Ok(Some(Reading {
            opened,
            words: joined(alloc, before, done.as_slice())?,
        }))
    }

    /// Reads the item at the beginning of `place`. Returns `None` if it closes no pair, or there are more than
    /// `most` words.
    fn read(self, alloc: Global, place: &[u8], most: usize) -> Result<Option<Reading>, AllocError>
        requires { 0 < length place.now }
        ensures read { IfOk result (λ r. IfSome r (λ new. (places : List (List ℕ)) → meaning new places ≡ meaning self (place.now ∷ places))) }
        ensures beyond { IfOk result (λ r. IfNone r ((places : List (List ℕ)) → within most (meaning self (place.now ∷ places)) ≡ None)) }
    {
        match place[0] {
            b'{' => Ok(Some(self.open(alloc)?)),
            b',' => Ok(Some(self.comma(alloc)?)),
            b'}' => self.close(alloc, most),
            _ => Ok(Some(self.element(element_at(alloc, place)?)?)),
        }
    }

    /// Returns the words that have been read, or `None` if a pair is open.
    fn finish(self) -> Option<Words>
        ensures value { result ≡ meaning self [] }
        ensures some { IfSome result (λ words. 0 < length words) }
    {
        let Reading { opened, words } = self;
        if opened.is_empty() { Some(words) } else { None }
    }
}

/// Returns the expansions of a component, or `None` if its braces are not balanced or there are more than `most`.
pub(crate) fn expansions_within(
    alloc: Global,
    component: &[u8],
    most: usize,
) -> Result<Option<Words>, AllocError>
    ensures value { IfOk result (λ words. words ≡ within most (expansions_of component.now)) }
    ensures some { IfOk result (λ words. IfSome words (λ words. 0 < length words)) }
{
    let mut reading = Reading::start(alloc)?;
    let mut rest = component;
    while !rest.is_empty() {
        let Some(next) = reading.read(alloc, rest, most)? else {
            return Ok(None);
        };
        reading = next;
        rest = behind(rest, element_length(rest));
    }
    Ok(match reading.finish() {
        Some(words) if words.len() <= most => Some(words),
        _ => None,
    })
}
