ghost use Rattle.std.specs.Prelude.{◌≡◌, ◌⊎◌, [], All, Contains, IfOk, IfSome, OnOk};
ghost use Rattle.source_search.specs.Known.{outcomes_of};
ghost use Rattle.source_search.specs.declared.memo.Known.{Known as KnownOf};

use crate::spot::Spot;
use std::alloc::{AllocError, Global};

/// What a process comes to: where it stands then, with the table and the variables, and where the process stands that it
/// made, if it made one. Of all others nothing changes.
#[derive(Clone, Copy)]
pub(crate) struct Outcome {
    /// Where the process stands.
    pub part: u32,
    /// Monitors, conditions and the process table.
    pub table: u32,
    /// The values of the variables.
    pub variables: u32,
    /// Where the process stands that was made; where none was, it says nothing.
    pub child: u32,
    /// The number of the process that was made; 0 where none was.
    pub made: u16,
    /// The place of the action among the process's own.
    pub choice: u16,
    /// The place of a calm action among those that were come to behind it.
    pub later: u16,
    /// Whether no process may become calm by it. Nothing is promised of it.
    pub quiet: bool,
}

/// What a process comes to by its own actions. Mostly it is one outcome, and then nothing is allocated for it.
#[derive(Drop)]
pub(crate) enum Outcomes {
    /// It can't move.
    Nothing,
    /// This one.
    One(Outcome),
    /// These.
    Several(Vec<Outcome>),
}

/// What is known of a process that stands at a spot.
#[derive(Drop)]
pub(crate) struct Known {
    /// Where it stands.
    pub spot: Spot,
    /// What it comes to by its own actions.
    pub outcomes: Outcomes,
}

impl Known {
    /// What it comes to.
    pub fn outcomes(&self) -> &[Outcome]
        ensures { result.now ≡ outcomes_of self.now }
    {
        match &self.outcomes {
            Outcomes::Nothing => &[],
            Outcomes::One(outcome) => std::slice::from_ref(outcome),
            Outcomes::Several(outcomes) => outcomes.as_slice(),
        }
    }
}

/// What is known of processes, each at a place that its spot has: what was known there before is forgotten. So it needs
/// no more memory than it is given room.
#[derive(Drop)]
pub(crate) struct Memo {
    /// What is known, and where nothing is, of a process without a number.
    pub known: Vec<Known>,
}

// For how many there is room at least.
const LEAST: usize = 1 << 16;

// A number that is mostly another where the spot is another.
fn digest_spot(spot: Spot) -> u64 {
    let first = (u64::from(spot.table) << 32) ^ u64::from(spot.variables);
    let second = (u64::from(spot.part) << 32) ^ u64::from(spot.process);
    let mixed = first
        .wrapping_mul(0x9E37_79B9_7F4A_7C15)
        .rotate_left(29)
        .wrapping_add(second)
        .wrapping_mul(0xC2B2_AE3D_27D4_EB4F);
    mixed ^ (mixed >> 32)
}

// Room for so many, of which nothing is known.
fn room(alloc: Global, size: usize) -> Result<Vec<Known>, AllocError>
    ensures { IfOk result (λ v. All (λ k. k.spot.process ≡ 0) v.items) }
{
    let mut known = Vec::with_capacity(alloc, size)?;
    for _ in 0..size {
        known.push(Known {
            spot: Spot {
                process: 0,
                part: 0,
                table: 0,
                variables: 0,
            },
            outcomes: Outcomes::Nothing,
        })?;
    }
    Ok(known)
}

impl Memo {
    /// Nothing yet.
    pub fn new(alloc: Global) -> Memo
        ensures { result.known.items ≡ [] }
    {
        Memo {
            known: Vec::new(alloc),
        }
    }

    // The place of a spot.
    fn place(&self, spot: Spot) -> usize {
        let size = self.known.len();
        if size == 0 {
            return 0;
        }
        (digest_spot(spot) % (size as u64)) as usize
    }

    /// What is known of a process at this spot.
    pub fn find(&self, spot: Spot) -> Option<&Known>
        ensures { IfSome result (λ k. Contains self.now.known.items k.now × (k.now.spot ≡ spot)) }
    {
        let known = self.known.get(self.place(spot))?;
        if !known.spot.is_same(spot) {
            return None;
        }
        Some(known)
    }

    /// Remembers it, in place of what was remembered there.
    pub fn keep(&mut self, known: Known)
        ensures { (k : KnownOf) → Contains self.new.known.items k → Contains self.old.known.items k ⊎ (k ≡ known) }
    {
        let place = self.place(known.spot);
        if place < self.known.len() {
            self.known[place] = known;
        }
    }

    /// Has two places at least for three states that are kept, and four at most but at first; where it gets more, all is
    /// forgotten, and given up before.
    pub fn fit(&mut self, alloc: Global, states: usize) -> Result<(), AllocError>
        ensures { OnOk result ((k : KnownOf) → Contains self.new.known.items k
            → Contains self.old.known.items k ⊎ (k.spot.process ≡ 0)) }
    {
        let size = self.known.len();
        let third = states / 3;
        if size >= third.saturating_mul(2) && size >= LEAST {
            return Ok(());
        }
        self.known = Vec::new(alloc);
        self.known = room(alloc, LEAST.max(third.saturating_mul(4)))?;
        Ok(())
    }
}

/// What is known of a process that can't move from its spot.
pub(crate) fn resting(spot: Spot) -> Known
    ensures same { result.spot ≡ spot }
    ensures none { outcomes_of result ≡ [] }
{
    Known {
        spot,
        outcomes: Outcomes::Nothing,
    }
}
