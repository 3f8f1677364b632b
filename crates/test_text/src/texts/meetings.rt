//! Paths that two patterns share, and heads of patterns.
ghost use Rattle.std.specs.Prelude.{◌≡◌, ℕ, List, [], true, false, slice_index_or, Option, Some, None, if◌then◌else◌, ⊤};
ghost use Rattle.pv_overlap.specs.Heads.{related};

use crate::marks::{Arguments, new_messages, number_in, unread};
use pv_glob::{
    PairMachine, Pattern, PatternFault, Plain, Reach, least_word, literal, matches, meet,
    parse_pattern,
};
use pv_overlap::{Asker, Pair, PairList, head, pairs_by};
use pv_path::{PathList, TreePath, child, has_staging, is_name, parse_path, print_path};
use std::alloc::{AllocError, Global};

/// What a call answers for arguments.
pub(crate) fn answer_to(
    alloc: Global,
    call: &str,
    arguments: &Arguments,
) -> Result<Vec<u8>, AllocError> {
    match call {
        "first" => first_answer(alloc, arguments.at(0), arguments.at(1)),
        "machine" => machine_answer(alloc, arguments.at(0), arguments.at(1)),
        "search" => search_answer(alloc, arguments),
        "head" => head_answer(alloc, arguments.at(0)),
        "own-head" => own_head_answer(alloc, arguments.at(0)),
        "pairs" => pairs_answer(alloc, arguments.from(0)),
        "given" => given_answer(alloc, arguments.from(0)),
        _ => unread(alloc),
    }
}

/// What a pattern reaches; a text that ends in `/` stands for what lies below too.
fn reach(alloc: Global, text: &[u8]) -> Result<Reach, PatternFault> {
    Ok(Reach {
        pattern: parse_pattern(alloc, text)?,
        below: text.ends_with(b"/"),
    })
}

/// A path, if there is one.
fn path_answer(alloc: Global, path: Option<TreePath>) -> Result<Vec<u8>, AllocError> {
    match path {
        Some(path) => print_path(alloc, &path),
        None => new_messages(alloc, "none"),
    }
}

/// The first path that two patterns share.
fn first_answer(alloc: Global, a: &[u8], b: &[u8]) -> Result<Vec<u8>, AllocError> {
    let Some(left) = reach(alloc, a).ok() else {
        return new_messages(alloc, "no pattern");
    };
    match reach(alloc, b) {
        Ok(right) => path_answer(alloc, meet(alloc, &left, &right)?),
        Err(fault) => Ok(format!(in alloc; "{fault}")?.into_bytes()),
    }
}

/// The first pattern without braces of a text.
fn plain(alloc: Global, text: &[u8]) -> Result<Option<Plain>, AllocError> {
    let Some(pattern) = parse_pattern(alloc, text).ok() else {
        return Ok(None);
    };
    match pattern.plains().first() {
        Some(plain) => Ok(Some(plain.copy()?)),
        None => Ok(None),
    }
}

/// How many places the machine of the second names of two patterns has, and the least word that it reads.
fn read_by(alloc: Global, left: &Plain, right: &Plain) -> Result<Vec<u8>, AllocError> {
    if left.components().len() != 2 || right.components().len() != 2 {
        return new_messages(alloc, "not two names");
    }
    let mut machine = PairMachine::of(alloc, left, right, 1)?;
    let places = machine.places();
    let mut answer_to = format!(in alloc; "{places} ")?.into_bytes();
    match least_word(alloc, &mut machine, places)? {
        Some(word) => answer_to.extend_from_slice(word.as_slice())?,
        None => answer_to.extend_from_slice(b"none")?,
    }
    Ok(answer_to)
}

/// How many places the machine for the patterns of two texts has, and the least word that it reads.
fn machine_answer(alloc: Global, a: &[u8], b: &[u8]) -> Result<Vec<u8>, AllocError> {
    let Some(left) = plain(alloc, a)? else {
        return new_messages(alloc, "no pattern");
    };
    match plain(alloc, b)? {
        Some(right) => read_by(alloc, &left, &right),
        None => new_messages(alloc, "no pattern"),
    }
}

/// The head of a pattern.
fn head_of(alloc: Global, pattern: &Pattern) -> Result<Vec<u8>, AllocError> {
    print_path(alloc, &head(alloc, pattern)?)
}

/// The head of the pattern of a text.
fn head_answer(alloc: Global, text: &[u8]) -> Result<Vec<u8>, AllocError> {
    match parse_pattern(alloc, text) {
        Ok(pattern) => head_of(alloc, &pattern),
        Err(fault) => Ok(format!(in alloc; "{fault}")?.into_bytes()),
    }
}

/// The head of the pattern that matches the path of a text alone.
fn own_head_answer(alloc: Global, text: &[u8]) -> Result<Vec<u8>, AllocError> {
    match parse_path(alloc, text) {
        Ok(path) if !has_staging(&path) => head_of(alloc, &literal(alloc, &path)?),
        _ => new_messages(alloc, "no path"),
    }
}

/// Answers for related heads the second one.
#[derive(Drop)]
struct Second<'a> {
    heads: &'a PathList,
}

impl<'a> Asker for Second<'a> {
    ghost heads = { λ s. s.heads.now };

    ghost answers = { λ s i j answer. answer ≡ (if related (slice_index_or s.heads.now i []) (slice_index_or s.heads.now j []) then Some (slice_index_or s.heads.now j []) else None) };

    ghost asked = { λ _ _ _. ⊤ };

    fn ask(&mut self, _alloc: Global, _i: u32, j: u32) -> Result<Option<TreePath>, AllocError> {
        Ok(Some(self.heads.as_slice()[j as usize].copy()?))
    }

    ghost asked_nothing = { λ _. tt };

    ghost asked_on = { λ _ _ _ _ _ _ _. tt };
}

/// The paths that texts spell; a text that spells none is left out.
fn paths(alloc: Global, texts: &[Vec<u8>]) -> Result<PathList, AllocError> {
    let mut list = PathList::new(alloc);
    for text in texts {
        if let Ok(path) = parse_path(alloc, text) {
            list.push(path)?;
        }
    }
    Ok(list)
}

/// Pairs of heads, each as the two numbers and the path of the pair.
fn list_answer(alloc: Global, pairs: &PairList) -> Result<Vec<u8>, AllocError> {
    let mut answer_to = Vec::from_slice(alloc, b"pairs")?;
    for pair in pairs.as_slice() {
        let (first, second) = (pair.first, pair.second);
        answer_to.extend_from_slice(format!(in alloc; " {first} {second} ")?.as_bytes())?;
        answer_to.extend_from_slice(&print_path(alloc, &pair.path)?)?;
    }
    Ok(answer_to)
}

/// The pairs of heads that are found if the path of two related heads is the second of them.
fn pairs_answer(alloc: Global, texts: &[Vec<u8>]) -> Result<Vec<u8>, AllocError> {
    let heads = paths(alloc, texts)?;
    if heads.len() > 100 {
        return new_messages(alloc, "too many heads");
    }
    let mut asker = Second { heads: &heads };
    let pairs = pairs_by(alloc, &heads, &mut asker)?;
    list_answer(alloc, &pairs)
}

/// Answers what is given for the numbers of two heads.
#[derive(Drop)]
struct Given<'a> {
    heads: &'a PathList,
    pairs: &'a [Pair],
}

impl<'a> Asker for Given<'a> {
    ghost heads = { λ s. s.heads.now };

    ghost answers = { λ s i j answer. related (slice_index_or s.heads.now i []) (slice_index_or s.heads.now j []) ≡ false → answer ≡ None };

    ghost asked = { λ _ _ _. ⊤ };

    fn ask(&mut self, _alloc: Global, i: u32, j: u32) -> Result<Option<TreePath>, AllocError> {
        let given = self
            .pairs
            .iter()
            .find(|pair| pair.first == i && pair.second == j);
        match given {
            Some(pair) => Ok(Some(pair.path.copy()?)),
            None => Ok(None),
        }
    }

    ghost asked_nothing = { λ _. tt };

    ghost asked_on = { λ _ _ _ _ _ _ _. tt };
}

/// The pair that the number of a head, that of a later one and a path spell.
fn pair_in(alloc: Global, first: &[u8], second: &[u8], path: &[u8]) -> Option<Pair> {
    Some(Pair {
        first: u32::try_from(number_in(first)?).ok()?,
        second: u32::try_from(number_in(second)?).ok()?,
        path: parse_path(alloc, path).ok()?,
    })
}

/// The pairs that texts spell, three for each; three that spell none are left out.
fn pairs_in(alloc: Global, texts: &[Vec<u8>]) -> Result<Vec<Pair>, AllocError> {
    let mut pairs = Vec::new(alloc);
    for three in texts.chunks_exact(3) {
        if let Some(pair) = pair_in(alloc, &three[0], &three[1], &three[2]) {
            pairs.push(pair)?;
        }
    }
    Ok(pairs)
}

/// The pairs of heads that are found if the paths of some are given. After the heads comes a `;`, and then the numbers
/// and the path of each pair.
fn given_answer(alloc: Global, texts: &[Vec<u8>]) -> Result<Vec<u8>, AllocError> {
    let end = texts
        .iter()
        .take_while(|text| text.as_slice() != b";".as_slice())
        .count();
    if end >= texts.len() {
        return unread(alloc);
    }
    let heads = paths(alloc, &texts[..end])?;
    if heads.len() > 100 {
        return new_messages(alloc, "too many heads");
    }
    let given = pairs_in(alloc, &texts[end + 1..])?;
    let mut asker = Given {
        heads: &heads,
        pairs: given.as_slice(),
    };
    let pairs = pairs_by(alloc, &heads, &mut asker)?;
    list_answer(alloc, &pairs)
}

/// Adds a text followed by each piece.
fn add_longer(
    all: &mut Vec<Vec<u8>>,
    text: &Vec<u8>,
    pieces: &[Vec<u8>],
) -> Result<(), AllocError> {
    for piece in pieces {
        let mut next: Vec<u8> = text.clone()?;
        next.extend_from_slice(piece)?;
        all.push(next)?;
    }
    Ok(())
}

/// Each text followed by each piece.
fn longer(
    alloc: Global,
    texts: &[Vec<u8>],
    pieces: &[Vec<u8>],
) -> Result<Vec<Vec<u8>>, AllocError> {
    let mut all = Vec::new(alloc);
    for text in texts {
        add_longer(&mut all, text, pieces)?;
    }
    Ok(all)
}

/// Adds copies of texts.
fn add_copies(all: &mut Vec<Vec<u8>>, texts: &[Vec<u8>]) -> Result<(), AllocError> {
    for text in texts {
        all.push(text.clone()?)?;
    }
    Ok(())
}

/// All texts of one to `most` pieces, fewer pieces first, and else in the order of the pieces.
fn spelled(alloc: Global, pieces: &[Vec<u8>], most: u64) -> Result<Vec<Vec<u8>>, AllocError> {
    let mut all = Vec::new(alloc);
    let mut last = vec![in alloc; Vec::new(alloc)]?;
    for _ in 0..most {
        last = longer(alloc, &last, pieces)?;
        add_copies(&mut all, &last)?;
    }
    Ok(all)
}

/// All texts of one to `most` of the pieces of a text, which have a comma between two of them.
fn texts_of(alloc: Global, text: &[u8], most: &[u8]) -> Result<Vec<Vec<u8>>, AllocError> {
    let mut pieces = Vec::new(alloc);
    for piece in text.split(|byte| *byte == b',') {
        pieces.push(Vec::from_slice(alloc, piece)?)?;
    }
    spelled(alloc, &pieces, number_in(most).unwrap_or(0))
}

/// Adds the path of a name below the root, where the text is a name.
fn add_name(
    alloc: Global,
    paths: &mut Vec<TreePath>,
    root: &TreePath,
    text: &[u8],
) -> Result<(), AllocError> {
    if is_name(text) {
        paths.push(child(alloc, root, text)?)?;
    }
    Ok(())
}

/// The paths of names below the root.
fn names(alloc: Global, texts: &[Vec<u8>]) -> Result<Vec<TreePath>, AllocError> {
    let root = TreePath::root(alloc);
    let mut paths = Vec::new(alloc);
    for text in texts {
        add_name(alloc, &mut paths, &root, text)?;
    }
    Ok(paths)
}

/// What the pattern of one component reaches, where the text spells one.
fn component(alloc: Global, text: &[u8]) -> Result<Option<Reach>, AllocError> {
    let mut path = Vec::from_slice(alloc, b"/")?;
    path.extend_from_slice(text)?;
    match parse_pattern(alloc, &path) {
        Ok(pattern) => Ok(Some(Reach {
            pattern,
            below: false,
        })),
        Err(_) => Ok(None),
    }
}

/// The first of some names that two patterns match.
fn first_of<'a>(names: &'a [TreePath], a: &Pattern, b: &Pattern) -> Option<&'a TreePath> {
    names
        .iter()
        .find(|path| matches(a, path) && matches(b, path))
}

/// Whether the first name that two components share is the first of all names that both match.
fn is_same(
    alloc: Global,
    names: &[TreePath],
    left: &Reach,
    right: &Reach,
) -> Result<bool, AllocError> {
    let found = meet(alloc, left, right)?;
    Ok(found.as_ref() == first_of(names, &left.pattern, &right.pattern))
}

/// Whether the first shared name of the components of two texts is the first of all; true where one spells no pattern.
fn is_first(
    alloc: Global,
    names: &[TreePath],
    left: &[u8],
    right: &[u8],
) -> Result<bool, AllocError> {
    let Some(left) = component(alloc, left)? else {
        return Ok(true);
    };
    match component(alloc, right)? {
        Some(right) => is_same(alloc, names, &left, &right),
        None => Ok(true),
    }
}

/// For how many pairs of texts the first shared name is the first of all names that both match. Each text is paired
/// with one from the other end, without the last ones.
fn pairs_first(
    alloc: Global,
    names: &[TreePath],
    texts: &[Vec<u8>],
    skipped: usize,
) -> Result<Vec<u8>, AllocError> {
    let (mut held, mut count) = (0u32, 0u32);
    for (left, right) in texts.iter().zip(texts.iter().rev().skip(skipped)) {
        count = count.saturating_add(1);
        if is_first(alloc, names, left, right)? {
            held = held.saturating_add(1);
        }
    }
    Ok(format!(in alloc; "{held} of {count} pairs")?.into_bytes())
}

/// For how many pairs of patterns of some pieces the first shared name is found by going through all names of some bytes.
fn search_answer(alloc: Global, arguments: &Arguments) -> Result<Vec<u8>, AllocError> {
    let Some(skipped) = number_in(arguments.at(4)) else {
        return unread(alloc);
    };
    let names = names(alloc, &texts_of(alloc, arguments.at(0), arguments.at(1))?)?;
    let texts = texts_of(alloc, arguments.at(2), arguments.at(3))?;
    pairs_first(alloc, &names, &texts, skipped as usize)
}
