use places::Places;
use std::alloc::Global;
use text_writer::TextWriter;

/// Where a procedure stands that runs, or that waits for one that it called.
#[derive(Clone, Copy, PartialEq, Eq)]
pub(crate) enum Standing {
    /// Before its first statement.
    Begins,
    /// At this statement, or behind it and before the next.
    At(usize),
    /// At the END of its body.
    Ends,
}

// What is left of a list of statements.
#[derive(Clone, Copy)]
struct Left {
    // The next one, where there is one.
    spot: Option<usize>,
    // Whether the list has that statement alone.
    alone: bool,
}

/// A procedure of a process, as its frame is, with the places of the statements that are left of it.
#[derive(Drop)]
pub(crate) struct Level {
    /// The number of its piece.
    pub piece: u32,
    /// Where it stands.
    pub standing: Standing,
    // The lists of statements that are left, the innermost last.
    rest: Vec<Left>,
}

// The statement behind one, where there is one.
fn next_of(places: &Places<'_>, spot: usize) -> Option<usize> {
    places.spot(spot)?.next
}

impl Level {
    /// A procedure that begins.
    pub fn new(alloc: Global, piece: u32) -> Level {
        Level {
            piece,
            standing: Standing::Begins,
            rest: Vec::new(alloc),
        }
    }

    /// All its statements are left.
    pub fn begin(&mut self, out: &mut TextWriter, places: &Places<'_>) {
        if let Some(found) = places.piece(self.piece) {
            self.precede(out, found.first, false)
        }
    }

    // Takes the next statement, and whether its list has it alone.
    fn take(&mut self) -> Option<(usize, bool)> {
        for _list in 0..self.rest.len() {
            let left = self.rest.pop()?;
            if let Some(spot) = left.spot {
                return Some((spot, left.alone));
            }
        }
        None
    }

    /// Comes to the next statement, or to its end.
    pub fn go_on(&mut self, out: &mut TextWriter, places: &Places<'_>) {
        self.standing = match self.take() {
            None => Standing::Ends,
            Some((spot, alone)) => {
                if !alone {
                    self.precede(out, next_of(places, spot), false);
                }
                Standing::At(spot)
            }
        };
    }

    // A list of statements comes first.
    fn precede(&mut self, out: &mut TextWriter, spot: Option<usize>, alone: bool) {
        out.push(&mut self.rest, Left { spot, alone })
    }

    /// The statements behind THEN or ABORTED of the one that it stands at come first, or with `other` those behind
    /// ELSE.
    pub fn enter_part(&mut self, out: &mut TextWriter, places: &Places<'_>, other: bool) {
        let Standing::At(number) = self.standing else {
            return;
        };
        let Some(spot) = places.spot(number) else {
            return;
        };
        let first = if other { spot.other } else { spot.part };
        self.precede(out, first, false)
    }

    /// The statements behind DO of the one that it stands at come first, and then that one again.
    pub fn enter_loop(&mut self, out: &mut TextWriter, places: &Places<'_>) {
        let Standing::At(number) = self.standing else {
            return;
        };
        self.precede(out, Some(number), true);
        self.enter_part(out, places, false)
    }
}
