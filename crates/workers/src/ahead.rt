use crate::image_ref::ImageRef;
use locals::AccessKind;
use machine::Machine;
use runner::{MOST_ACCESSES, Piece, RunName, Speculation};
use std::alloc::{AllocError, Global};
use words::{Addr, Gate, Mem};

// Behind so many accesses in a row a worker goes ahead. Where rows are short, as between futex calls, it wouldn't pay.
const MANY_ACCESSES: u32 = 64;

// How many accesses it makes at first, before they are handed in.
const FEW_ACCESSES: usize = 8;

// How often in a row they may be refused before it goes on by single entries: as often as threads meet words that others
// have changed, one behind another.
const MOST_REFUSALS: u32 = 4;

// A memory of so many words is copied for a worker, 64 KiB. Of a larger one it makes no access ahead.
const MOST_WORDS: usize = 16_384;

/// How accesses end that were made ahead.
#[derive(Clone, Copy, PartialEq, Eq, Debug)]
pub enum Row {
    /// There are as many as were wanted, or the last one gives a lock up.
    Whole,
    /// Another step comes, and local steps may stand behind the last access.
    Cut,
    /// There is none.
    Empty,
}

/// What the worker of a thread does ahead of the machine, where its thread makes access after access: it makes several on
/// a copy of the words, and hands them in together. The copy needn't be right. Where an access doesn't find on the machine
/// what it found here, none of them comes in, and the worker has looked at these words anew.
#[derive(Drop)]
pub struct Ahead<J: RunName> {
    alloc: Global,
    // On the heap, since a worker's stack is small.
    speculation: Box<Speculation<J>>,
    // Empty before the worker goes ahead for the first time.
    words: Mem,
    is_going: bool,
    // How many accesses were handed in one by one, in a row.
    row: u32,
    // How many it makes next before they are handed in.
    most: usize,
    // How often in a row they were refused.
    refusals: u32,
}

impl<J: RunName> Ahead<J> {
    /// Nothing yet, of thread `t`.
    pub fn new(alloc: Global, t: u32) -> Result<Ahead<J>, AllocError> {
        Ok(Ahead {
            alloc,
            speculation: Box::new(alloc, Speculation::idle(alloc, t)?)?,
            words: Mem::new(alloc, 0)?,
            is_going: false,
            row: 0,
            most: FEW_ACCESSES,
            refusals: 0,
        })
    }

    /// Whether its worker goes ahead.
    pub fn is_going(&self) -> bool {
        self.is_going
    }

    /// The thread, with the accesses that it made.
    pub fn speculation(&mut self) -> &mut Speculation<J> {
        &mut *self.speculation
    }

    /// How many accesses it made.
    pub fn len(&self) -> usize {
        self.speculation.made().len()
    }

    /// Whether the last access gave a lock up.
    pub fn ends_by_swap(&self) -> bool {
        match self.speculation.made().last() {
            Some(made) => made.access.kind == AccessKind::Swap,
            None => false,
        }
    }

    /// Notes that an access was handed in alone. Behind many in a row its worker goes ahead, from where the piece began.
    pub fn note(&mut self, piece: &Piece<J>, memory: usize) {
        self.row = self.row.saturating_add(1);
        if self.row >= MANY_ACCESSES && self.has_words(memory) {
            self.speculation.begin(piece);
            self.most = FEW_ACCESSES;
            self.refusals = 0;
            self.is_going = true;
        }
    }

    // Whether there is a copy of the words. It is made where there is room for it.
    fn has_words(&mut self, memory: usize) -> bool {
        if self.words.is_empty()
            && memory <= MOST_WORDS
            && let Ok(words) = Mem::new(self.alloc, memory)
        {
            self.words = words;
        }
        !self.words.is_empty()
    }

    /// Goes on by single entries.
    pub fn stop(&mut self) {
        self.row = 0;
        self.is_going = false;
    }

    /// Notes whether the accesses came in. Answers whether its worker goes on ahead.
    pub fn note_outcome(&mut self, came: bool) -> bool {
        if came {
            self.most = MOST_ACCESSES.min(self.most.saturating_mul(2));
            self.refusals = 0;
            return true;
        }
        self.speculation.restart();
        self.refusals = self.refusals.saturating_add(1);
        self.refusals < MOST_REFUSALS
    }

    /// Makes accesses, up to the next one that gives a lock up if that is asked for, and answers how its worker goes on with
    /// them. The gate is passed before each.
    pub fn go_on<G: Gate>(
        &mut self,
        image_ref: &ImageRef<J>,
        gate: &G,
        t: u32,
        up_to_swap: bool,
    ) -> Row {
        for _ in 0..self.most {
            gate.pass(t);
            if !self.make_one(image_ref) {
                return if self.len() > 0 { Row::Cut } else { Row::Empty };
            }
            if up_to_swap && self.ends_by_swap() {
                return Row::Whole;
            }
        }
        Row::Whole
    }

    // Makes one access more, if one comes.
    fn make_one(&mut self, image_ref: &ImageRef<J>) -> bool {
        self.speculation.go_on(image_ref.image, image_ref.sequences.list(), &mut self.words)
    }

    /// Begins anew, on words that were looked at anew, and makes as many accesses again as were made, so that there is no local
    /// step behind the last of them. Answers whether it made them.
    pub fn make_again(&mut self, image_ref: &ImageRef<J>) -> bool {
        let count = self.len();
        self.speculation.restart();
        for _ in 0..count {
            if !self.make_one(image_ref) {
                return false;
            }
        }
        true
    }

    /// Looks anew at the words of the accesses that it made.
    pub fn look(&mut self, machine: &Machine) {
        for made in self.speculation.made() {
            let address = made.access.address;
            if (address.0 as usize) < machine.memory_len() {
                put(&mut self.words, address, machine.word(address));
            }
        }
    }
}

// Puts a word at an address, if the memory has it.
fn put(words: &mut Mem, a: Addr, v: u32) {
    if (a.0 as usize) < words.len() {
        words.store(a, v);
    }
}
