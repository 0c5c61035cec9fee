use crate::attempt::attempt;
use crate::blocks::{Span, Units, chunk, ends_of, gathered, joined, next_alike, unit};
use crate::failing::RunFailure;
use crate::shrinking::fails_on;
use crate::switching::switches;
use isa::Image;
use runner::Turn;
use std::alloc::{AllocError, Global};

// How many turns all candidates together may have: some seconds of work.
const MOST_TURNS: u32 = 1 << 27;

// How often the number of units is halved, at most.
const HALVES: u32 = 64;

// How often all ways to make a schedule shorter are tried again, at most.
const ROUNDS: u32 = 64;

/// A schedule that is made shorter and shorter.
#[derive(Drop)]
struct Shortening<'i> {
    alloc: Global,
    image: &'i Image,
    failure: RunFailure,
    // The shortest schedule that was found, and its context switches.
    turns: Vec<Turn>,
    switches: usize,
    // How many turns more the candidates may have.
    left: usize,
}

/// A schedule of an image that fails as this one does, with no more turns and no more context switches. It is found by delta
/// debugging: in all of it, in its halves, its quarters and so on the turns of each thread are gathered; such chunks of its
/// blocks are left out, and then of its turns; and blocks of one thread are moved together. What can't be taken then is
/// left out, and the run goes on to its end.
///
/// Nothing is promised of it here: who takes it tests it.
pub(crate) fn shortened(
    alloc: Global,
    image: &Image,
    schedule: &[Turn],
    failure: RunFailure,
) -> Result<Vec<Turn>, AllocError> {
    let turns = Vec::from_slice(alloc, schedule)?;
    let mut shortening = Shortening {
        alloc,
        image,
        failure,
        turns,
        switches: switches(schedule),
        left: MOST_TURNS as usize,
    };
    shortening.take(schedule)?;
    shortening.go_round()?;
    let Shortening { turns, .. } = shortening;
    Ok(turns)
}

// What is tried with chunks of a schedule.
#[derive(Clone, Copy)]
enum Way {
    // That the turns of each thread come together in them.
    Gather,
    // That they are left out.
    LeaveOut(Units),
}

impl Way {
    // What the chunks are made up of.
    fn units(self) -> Units {
        match self {
            Way::Gather => Units::Blocks,
            Way::LeaveOut(units) => units,
        }
    }

    // The least chunk: of one block the turns are together.
    fn least(self) -> usize {
        match self {
            Way::Gather => 2,
            Way::LeaveOut(_) => 1,
        }
    }
}

impl<'i> Shortening<'i> {
    // Makes a candidate a run, and takes that in place of the shortest one, where it fails alike and is shorter.
    fn take(&mut self, candidate: &[Turn]) -> Result<bool, AllocError> {
        let most = self.turns.len();
        self.left = self.left.saturating_sub(most);
        let Some(turns) = attempt(self.alloc, self.image, candidate, self.failure, most)? else {
            return Ok(false);
        };
        self.take_run(turns)
    }

    // The same of a run.
    fn take_run(&mut self, turns: Vec<Turn>) -> Result<bool, AllocError> {
        let switches = switches(turns.as_slice());
        if !self.is_shorter(turns.len(), switches) {
            return Ok(false);
        }
        if !fails_on(self.alloc, self.image, turns.as_slice(), self.failure)? {
            return Ok(false);
        }
        self.turns = turns;
        self.switches = switches;
        Ok(true)
    }

    // Whether it is shorter with so many turns and switches: no more turns, and fewer switches, or as many and fewer turns.
    fn is_shorter(&self, turns: usize, switches: usize) -> bool {
        if switches == self.switches {
            turns < self.turns.len()
        } else {
            switches < self.switches && turns <= self.turns.len()
        }
    }

    // Tries all ways again and again, as long as one of them makes it shorter.
    fn go_round(&mut self) -> Result<(), AllocError> {
        for _ in 0..ROUNDS {
            let gathered = self.try_chunks(Way::Gather)?;
            let blocks = self.try_chunks(Way::LeaveOut(Units::Blocks))?;
            let together = self.move_together()?;
            let turns = self.try_chunks(Way::LeaveOut(Units::Turns))?;
            if !gathered && !blocks && !together && !turns {
                break;
            }
        }
        Ok(())
    }

    // Tries a way with all units at once, with chunks of half of them, of a quarter, and so on.
    fn try_chunks(&mut self, way: Way) -> Result<bool, AllocError> {
        let ends = ends_of(self.alloc, self.turns.as_slice(), way.units())?;
        let mut size = ends.len();
        let mut shorter = false;
        for _ in 0..HALVES {
            if size < way.least() {
                break;
            }
            if self.try_each(way, size)? {
                shorter = true;
            }
            size /= 2;
        }
        Ok(shorter)
    }

    // Tries a way with chunks of so many units, the last ones first.
    fn try_each(&mut self, way: Way, size: usize) -> Result<bool, AllocError> {
        let mut behind: usize = 0;
        let mut shorter = false;
        for _ in 0..MOST_TURNS {
            let Some(is_shorter) = self.try_at(way, size, behind)? else {
                break;
            };
            if is_shorter {
                shorter = true;
            } else {
                behind = behind.saturating_add(size);
            }
        }
        Ok(shorter)
    }

    // Tries a way with so many units before so many others. None where there are none, or the candidates have had all turns that
    // they may have.
    fn try_at(&mut self, way: Way, size: usize, behind: usize) -> Result<Option<bool>, AllocError> {
        if self.left == 0 {
            return Ok(None);
        }
        let ends = ends_of(self.alloc, self.turns.as_slice(), way.units())?;
        let Some(span) = chunk(ends.as_slice(), behind, size) else {
            return Ok(None);
        };
        let taken = match way {
            Way::Gather => self.take_gathered(span)?,
            Way::LeaveOut(_) => self.take_without(span)?,
        };
        Ok(Some(taken))
    }

    // The schedule with the turns of each thread together in these.
    fn take_gathered(&mut self, span: Span) -> Result<bool, AllocError> {
        let candidate = gathered(self.alloc, self.turns.as_slice(), span)?;
        self.take(candidate.as_slice())
    }

    // The schedule without these turns.
    fn take_without(&mut self, out: Span) -> Result<bool, AllocError> {
        let spans = [
            Span {
                from: 0,
                to: out.from,
            },
            Span {
                from: out.to,
                to: self.turns.len(),
            },
        ];
        self.take_spans(&spans)
    }

    // These spans of the schedule.
    fn take_spans(&mut self, spans: &[Span]) -> Result<bool, AllocError> {
        let candidate = joined(self.alloc, self.turns.as_slice(), spans)?;
        self.take(candidate.as_slice())
    }

    // Moves blocks of one thread together, block by block.
    fn move_together(&mut self) -> Result<bool, AllocError> {
        let mut number: usize = 0;
        let mut shorter = false;
        for _ in 0..MOST_TURNS {
            let Some(is_shorter) = self.move_to(number)? else {
                break;
            };
            if is_shorter {
                shorter = true;
            } else {
                number = number.saturating_add(1);
            }
        }
        Ok(shorter)
    }

    // Moves the block of this number and the next one of its thread together. None where there is no such block, or the
    // candidates have had all turns that they may have.
    fn move_to(&mut self, number: usize) -> Result<Option<bool>, AllocError> {
        if self.left == 0 {
            return Ok(None);
        }
        let ends = ends_of(self.alloc, self.turns.as_slice(), Units::Blocks)?;
        let Some(here) = unit(ends.as_slice(), number) else {
            return Ok(None);
        };
        let Some(there) = next_alike(self.turns.as_slice(), ends.as_slice(), number) else {
            return Ok(Some(false));
        };
        let taken = self.take_moved(here, there)?;
        Ok(Some(taken))
    }

    // The schedule with the second span right behind the first one, or else with the first one right before the second.
    fn take_moved(&mut self, here: Span, there: Span) -> Result<bool, AllocError> {
        let before = Span {
            from: 0,
            to: here.from,
        };
        let between = Span {
            from: here.to,
            to: there.from,
        };
        let behind = Span {
            from: there.to,
            to: self.turns.len(),
        };
        if self.take_spans(&[before, here, there, between, behind])? {
            return Ok(true);
        }
        self.take_spans(&[before, between, here, there, behind])
    }
}
