// How often in a row who waits sleeps at once, at most.
const MOST_RESTS: u32 = 1023;

/// Whether who waits looks before it sleeps, by what came of it before. Who looked in vain sleeps at once the next time, and
/// where it looks in vain again the next three times, then seven, and so on; each look that wasn't in vain takes an eighth
/// off. So where the one that is waited for has no processor, since others take it, who waits soon looks no more, and it comes
/// back slowly. It is a courtesy: nothing rests on it but speed.
#[derive(Clone, Copy)]
pub struct Patience {
    // How often it sleeps at once before it looks again.
    rests: u32,
    // How often it did so when it had last looked in vain, less what came off since.
    row: u32,
}

impl Patience {
    /// That of one who hasn't looked yet.
    pub fn new() -> Patience {
        Patience { rests: 0, row: 0 }
    }

    /// Whether it will sleep at once the next time, since it looked in vain: then other work seems to have the processors.
    pub fn rests(&self) -> bool {
        self.rests > 0
    }

    /// Whether it looks this time.
    pub fn looks(&mut self) -> bool {
        let looks = self.rests == 0;
        self.rests = self.rests.saturating_sub(1);
        looks
    }

    /// Notes whether what it looked for came meanwhile. Answers that.
    pub fn note(&mut self, came: bool) -> bool {
        if came {
            self.row = self.row.saturating_sub(self.row / 8 + 1);
        } else {
            self.row = MOST_RESTS.min(self.row.saturating_mul(2).saturating_add(1));
            self.rests = self.row;
        }
        came
    }
}
