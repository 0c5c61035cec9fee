use crate::sheet::{Sheet, index_of};

/// What leads from one process to another.
#[derive(Clone, Copy)]
pub(crate) enum Arrow {
    /// A process makes another.
    Fork,
    /// A process resumes another.
    Notify,
    /// The end of a process lets another go on.
    Join,
}

impl Arrow {
    // How it is drawn: from a point to another height, on a line of the ground that parts it from what lies below.
    fn form(self) -> &'static str {
        match self {
            Arrow::Fork => "<path class='halo' d='M$,$V$'/><path class='fork' d='M$,$V$'/>",
            Arrow::Notify => "<path class='halo' d='M$,$V$'/><path class='notify' d='M$,$V$'/>",
            Arrow::Join => "<path class='halo' d='M$,$V$'/><path class='join' d='M$,$V$'/>",
        }
    }
}

// Where an arrow's head ends: at the nearer edge of the bars of a row.
fn head(start: u64, goal: u64) -> u64 {
    if start < goal {
        goal.saturating_sub(8)
    } else {
        goal.saturating_add(8)
    }
}

impl<'c, 'n> Sheet<'c, 'n> {
    /// The middle of a process's row, where it has one in this strip.
    pub fn middle(&self, process: u64) -> Option<u64> {
        match self.rows.get(index_of(process)) {
            Some(row) if row.placed => Some(row.middle),
            _ => None,
        }
    }

    /// Draws an arrow in the column of the last action.
    pub fn draw_arrow(&mut self, arrow: Arrow, from: u64, to: u64) {
        let (Some(start), Some(goal)) = (self.middle(from), self.middle(to)) else {
            return;
        };
        let left = self.moment(1).left;
        let end = head(start, goal);
        let numbers = [left, start, end, left, start, end];
        self.marks.form(arrow.form(), &numbers)
    }
}
