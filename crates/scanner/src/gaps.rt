ghost use Rattle.std.specs.Prelude.{◌≡◌, ◌≢◌, ◌<◌, length, OnOk, IfOk, IfErr};
ghost use Rattle.scanner.specs.Steps.{front_of, SourceFits, IsWrongAt, SkipsGap};

use crate::front::{Front, comment_length, front_of};
use crate::refusal::{Refusal, RefusalKind};
use crate::source::Source;

impl Source<'_> {
    // Passes a comment, with the line feed at its end where there is one.
    fn pass_comment(&mut self) -> Result<(), Refusal>
        requires fits { SourceFits self.old }
        requires comment { front_of self.old.rest.now ≡ Front.Comment }
        ensures gap { OnOk result (SkipsGap self.old self.new) }
        ensures fits { OnOk result (SourceFits self.new) }
        ensures shorter { OnOk result (length self.new.rest.now < length self.old.rest.now) }
        ensures wrong { IfErr result (λ e. IsWrongAt self.old e) }
    {
        let _comment = self.take(comment_length(self.rest));
        match self.rest {
            [] => {}
            [b'\n', ..] => self.pass(),
            _ => return Err(Refusal {
                kind: RefusalKind::NotAscii,
                place: self.place,
            }),
        }
        Ok(())
    }

    /// Passes white space and comments, and says what stands behind them.
    pub fn pass_gap(&mut self) -> Result<Front, Refusal>
        requires { SourceFits self.old }
        ensures gap { OnOk result (SkipsGap self.old self.new) }
        ensures fits { OnOk result (SourceFits self.new) }
        ensures front { IfOk result (λ front. front ≡ front_of self.new.rest.now) }
        ensures no_gap { IfOk result (λ front. (front ≢ Front.White) × (front ≢ Front.Comment)) }
        ensures wrong { IfErr result (λ e. IsWrongAt self.old e) }
    {
        loop {
            match front_of(self.rest) {
                Front::White => self.pass(),
                Front::Comment => self.pass_comment()?,
                front => return Ok(front),
            }
        }
    }
}
