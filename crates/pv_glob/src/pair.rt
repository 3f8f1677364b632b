//! The automaton of two components of patterns.
ghost use Rattle.std.specs.Prelude.{◌≡◌, ℕ, ◌+◌, ◌*◌, ◌<◌, ◌≤◌, ◌^◌, [], ◌∷◌, ◌++◌, List, length, slice_index_or, Option, Some, None, IfOk, IfSome, OnOk, All, if◌then◌else◌};
ghost use Rattle.std.specs.List.{flat_map};
ghost use Rattle.std.specs.Option.{option_map, option_to_list};
ghost use Rattle.pv_glob.specs.Machines.{AllInside, reads, targets};
ghost use Rattle.pv_glob.specs.declared.moves.Move.{Move};
ghost use Rattle.pv_glob.specs.Pairs.{is_shared, number_of, spot_at, spots_after, target, takers, pair_machine};

use crate::alike::{is_wild, last_beside, last_unmarked, written_in};
use crate::beginning::Beginning;
use crate::element::{Component, Element};
use crate::moves::{Move, MoveList, Moves};
use crate::plain::Plain;
use crate::spot::{Spot, number_of, spot_at};
use crate::taker::{behind, past_stars, takers, takes_at};
use std::alloc::{AllocError, Global};

/// Two components of patterns.
#[derive(Clone, Copy)]
struct Components<'a> {
    left: &'a [Element],
    right: &'a [Element],
}

/// Returns the state to which a byte leads that both elements at a spot take.
fn target(components: Components<'_>, spot: Spot, byte: u8) -> Option<u32>
    requires left { spot.left < length components.left.now }
    requires right { spot.right < length components.right.now }
    requires range { 7 * ((length components.left.now + 1) * (length components.right.now + 1)) < 2 ^ 32 }
    ensures value { result ≡ target components.entry.left.now components.entry.right.now spot.begun spot.left spot.right byte }
    ensures inside { IfSome result (λ to. to < 7 * ((length components.entry.left.now + 1) * (length components.entry.right.now + 1))) }
{
    let Components { left, right } = components;
    let first = spot.begun.is_nothing();
    if spot.begun.may_precede(byte)
        && takes_at(left, spot.left, first, byte)
        && takes_at(right, spot.right, first, byte)
    {
        let next = Spot {
            left: behind(left, spot.left),
            right: behind(right, spot.right),
            begun: spot.begun.followed_by(byte),
        };
        Some(number_of(right.len() + 1, left.len(), next))
    } else {
        None
    }
}

/// Adds the move of a run of bytes at the end, if there is one.
fn end_run(moves: &mut MoveList, run: Option<Move>) -> Result<(), AllocError>
    ensures { OnOk result (moves.new ≡ moves.old ++ option_to_list run) }
{
    match run {
        Some(run) => moves.push(run),
        None => Ok(()),
    }
}

/// Returns the move of a run of bytes that lead to one state, if there is one.
fn run_of(low: u8, high: u8, to: Option<u32>) -> Option<Move>
    ensures { result ≡ option_map (λ to. record { low = low; high = high; to = to }) to }
{
    match to {
        Some(to) => Some(Move { low, high, to }),
        None => None,
    }
}

/// Returns the move of a run that is extended up to `high`, if the further bytes lead to the same state.
fn with_bytes(run: Option<Move>, high: u8, to: Option<u32>) -> Option<Move>
    ensures longer { IfSome result (λ longer. (old : Move) × (run ≡ Some old) × (to ≡ Some old.to) × (longer ≡ record old { high = high })) }
{
    match (run, to) {
        (Some(run), Some(to)) if run.to == to => Some(Move { high, ..run }),
        _ => None,
    }
}

/// Returns the last byte of a run from `byte` on that surely leads to the same state.
///
/// If one of the two elements is a byte, all other bytes lead nowhere. `*` and `?` treat few bytes differently.
fn last_alike(components: Components<'_>, spot: Spot, byte: u8) -> u8
    requires left { spot.left < length components.left.now }
    requires right { spot.right < length components.right.now }
    ensures later { byte ≤ result }
    ensures alike { (b : ℕ) → byte ≤ b → b ≤ result
        → target components.entry.left.now components.entry.right.now spot.begun spot.left spot.right b
        ≡ target components.entry.left.now components.entry.right.now spot.begun spot.left spot.right byte }
{
    let left = &components.left[spot.left];
    let right = &components.right[spot.right];
    match written_in(left, right) {
        Some(written) => last_beside(written, byte),
        None => {
            if is_wild(left) && is_wild(right) {
                last_unmarked(byte)
            } else {
                byte
            }
        }
    }
}

/// Adds the moves by the bytes that both elements at a spot take, one for each run of bytes that lead to one state.
fn add_runs(moves: &mut MoveList, components: Components<'_>, spot: Spot) -> Result<(), AllocError>
    requires left { spot.left < length components.left.now }
    requires right { spot.right < length components.right.now }
    requires range { 7 * ((length components.left.now + 1) * (length components.right.now + 1)) < 2 ^ 32 }
    ensures moves { OnOk result ((byte : ℕ) → targets moves.new byte
        ≡ targets moves.old byte ++ option_to_list (target components.entry.left.now components.entry.right.now spot.begun spot.left spot.right byte)) }
    ensures inside { let places = 7 * ((length components.entry.left.now + 1) * (length components.entry.right.now + 1)) in
        OnOk result (AllInside places moves.old → AllInside places moves.new) }
{
    let mut run: Option<Move> = None;
    let mut low: u16 = 1;
    while low < 256 {
        let byte = low as u8;
        let high = last_alike(components, spot, byte);
        let to = target(components, spot, byte);
        match with_bytes(run, high, to) {
            Some(longer) => run = Some(longer),
            None => {
                end_run(moves, run)?;
                run = run_of(byte, high, to);
            }
        }
        low = u16::from(high) + 1;
    }
    end_run(moves, run)
}

/// Adds the moves by the bytes that an element of the left component and one of some of the right component take.
fn add_moves(
    moves: &mut MoveList,
    components: Components<'_>,
    begun: Beginning,
    left: usize,
    rights: &[usize],
) -> Result<(), AllocError>
    requires left { left < length components.left.now }
    requires right { All (λ j. j < length components.right.now) rights.now }
    requires range { 7 * ((length components.left.now + 1) * (length components.right.now + 1)) < 2 ^ 32 }
    ensures moves { OnOk result ((byte : ℕ) → targets moves.new byte
        ≡ targets moves.old byte ++ flat_map (λ j. option_to_list (target components.entry.left.now components.entry.right.now begun left j byte)) rights.now) }
    ensures inside { let places = 7 * ((length components.entry.left.now + 1) * (length components.entry.right.now + 1)) in
        OnOk result (AllInside places moves.old → AllInside places moves.new) }
{
    for right in rights {
        let spot = Spot {
            left,
            right: *right,
            begun,
        };
        add_runs(moves, components, spot)?;
    }
    Ok(())
}

/// Returns the moves from a spot of the automaton of two components.
fn moves_from(alloc: Global, components: Components<'_>, spot: Spot) -> Result<MoveList, AllocError>
    requires left { spot.left ≤ length components.left.now }
    requires right { spot.right ≤ length components.right.now }
    requires range { 7 * ((length components.left.now + 1) * (length components.right.now + 1)) < 2 ^ 32 }
    ensures moves { IfOk result (λ moves. (byte : ℕ) → targets moves byte ≡ spots_after components.entry.left.now components.entry.right.now spot byte) }
    ensures inside { IfOk result (AllInside (7 * ((length components.entry.left.now + 1) * (length components.entry.right.now + 1)))) }
{
    let lefts = takers(alloc, components.left, spot.left)?;
    let rights = takers(alloc, components.right, spot.right)?;
    let mut moves = MoveList::new(alloc);
    for left in &lefts {
        add_moves(&mut moves, components, spot.begun, *left, rights.as_slice())?;
    }
    Ok(moves)
}

/// An automaton for two components of patterns. It accepts a word if both components match it and it can be a name
/// (glob(7)).
///
/// A word that can be a name is not empty, has no slash and no NUL, is neither `.` nor `..`, and does not begin with
/// `.#tf-`. Its length has no limit. The automaton has a budget of as many queries as it has states.
#[derive(Drop)]
pub struct PairMachine {
    first: Component,
    second: Component,
    questions: u32,
    ghost in_range: { 7 * ((length first + 1) * (length second + 1)) < 2 ^ 32 },
}

/// Returns the automaton of two components.
pub(crate) fn pair_of(a: &Component, b: &Component) -> Result<PairMachine, AllocError>
    ensures words { IfOk result (λ machine. (word : List ℕ) → reads (pair_machine machine.first machine.second) 0 word ≡ is_shared a.now b.now word) }
    ensures first { IfOk result (λ machine. machine.first ≡ a.now) }
    ensures second { IfOk result (λ machine. machine.second ≡ b.now) }
    ensures questions { IfOk result (λ machine. machine.questions ≡ 7 * ((length a.now + 1) * (length b.now + 1))) }
{
    match places_of(a.len(), b.len()) {
        Some(questions) => {
            let first = copied(a)?;
            let second = copied(b)?;
            Ok(PairMachine {
                first,
                second,
                questions,
            })
        }
        None => Err(AllocError),
    }
}

/// Returns a copy of the component.
pub(crate) fn copied(component: &Component) -> Result<Component, AllocError>
    ensures { IfOk result (λ copy. copy ≡ component.now) }
{
    component.clone()
}

/// Returns the number of states for components with these numbers of elements, or `None` if it does not fit into 32
/// bits.
fn places_of(left: usize, right: usize) -> Option<u32>
    ensures { IfSome result (λ places. places ≡ 7 * ((left + 1) * (right + 1))) }
{
    let cells = left.checked_add(1)?.checked_mul(right.checked_add(1)?)?;
    u32::try_from(cells.checked_mul(7)?).ok()
}

impl PairMachine {
    /// Makes the automaton of the components of two patterns at index `i`, counted from 0.
    ///
    /// Both patterns must have a component at this index. For components of n and m elements there are at least 1 and
    /// at most 8(n + 1)(m + 1) states. The only error is `AllocError`. It also comes if there would be 2^32 states or
    /// more.
    pub fn of(alloc: Global, a: &Plain, b: &Plain, i: usize) -> Result<PairMachine, AllocError>
        requires left { i < length a.now }
        requires right { i < length b.now }
        ensures words { IfOk result (λ machine. (word : List ℕ) → reads (⟦<PairMachine as Moves>⟧.machine machine) 0 word ≡ is_shared (slice_index_or a.now i []) (slice_index_or b.now i []) word) }
        ensures some { IfOk result (λ machine. 1 ≤ (⟦<PairMachine as Moves>⟧.machine machine).places) }
        ensures places { IfOk result (λ machine. (⟦<PairMachine as Moves>⟧.machine machine).places ≤ 8 * (length (slice_index_or a.now i []) + 1) * (length (slice_index_or b.now i []) + 1)) }
        ensures questions { IfOk result (λ machine. ⟦<PairMachine as Moves>⟧.questions machine ≡ (⟦<PairMachine as Moves>⟧.machine machine).places) }
    {
        pair_of(&a.components()[i], &b.components()[i])
    }

    /// Returns the number of states.
    pub fn places(&self) -> u32
        ensures { result ≡ (⟦<PairMachine as Moves>⟧.machine self.now).places }
    {
        (7 * (self.first.len() + 1) * (self.second.len() + 1)) as u32
    }
}

impl Moves for PairMachine {
    ghost machine = { λ m. pair_machine m.first m.second };

    ghost questions = { λ m. m.questions };

    fn end(&self, at: u32) -> bool {
        let spot = spot_at(self.second.len() + 1, self.first.len(), at);
        spot.begun.may_end()
            && past_stars(self.first.as_slice(), spot.left) == self.first.len()
            && past_stars(self.second.as_slice(), spot.right) == self.second.len()
    }

    fn moves(&mut self, alloc: Global, at: u32) -> Result<MoveList, AllocError> {
        self.questions -= 1;
        let spot = spot_at(self.second.len() + 1, self.first.len(), at);
        let components = Components {
            left: self.first.as_slice(),
            right: self.second.as_slice(),
        };
        moves_from(alloc, components, spot)
    }
}
