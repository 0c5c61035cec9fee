ghost use Rattle.std.specs.Prelude.{◌≡◌};
ghost use Rattle.piece_machine.specs.PieceViews.{event_told};

use machine::{Event, EventName};

/// How a step is told of.
#[derive(Clone, Copy)]
pub enum Told {
    /// By its kind and its value, since it woke and moved nobody.
    Plain(EventName, u32),
    /// By an event, which was put in the place that was given for it.
    Written,
}

impl Told {
    /// Puts the event in its place, where it isn't there already.
    pub fn write(self, event: &mut Event)
        ensures { event.new ≡ event_told self event.old }
    {
        match self {
            Told::Plain(name, value) => event.put(name, value),
            Told::Written => {}
        }
    }
}
