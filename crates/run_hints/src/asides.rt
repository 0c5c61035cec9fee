use crate::causes::fault_name;
use crate::follower::Follower;
use crate::level::Standing;
use crate::moment::Moment;
use crate::names::{append_member, append_piece, append_place};
use crate::stands::token_of;
use crate::values::{
    append_callee, append_local, append_typed, append_value, member_type, result_of,
};
use places::places_of;
use program::{Checked, Member, Names, Statement, Target};
use source_offers::{End, Place};
use source_states::{Action, ActionKind};
use std::alloc::{AllocError, Global};
use text_writer::TextWriter;

// An action that was done, and what is known of it.
#[derive(Clone, Copy)]
struct Told<'f, 'n, 'k, 'm, 'a, 't> {
    follower: &'f Follower<'a, 't>,
    names: &'n Names<'m>,
    action: &'k Action,
    moment: Moment<'a>,
}

impl Told<'_, '_, '_, '_, '_, '_> {
    // The token at which it was done: a monitor is entered at the call.
    fn token(&self) -> usize {
        let moment = &self.moment;
        match (&self.action.kind, moment.below) {
            (ActionKind::Enter(_), Some(token)) if moment.standing == Standing::Begins => token,
            _ => token_of(self.follower.places, moment.piece, moment.standing),
        }
    }

    // The locals of a process's innermost procedure.
    fn locals(&self, process: u64) -> &[i64] {
        match self.follower.state.process(process) {
            Some(found) => found.frame.locals.as_slice(),
            None => &[],
        }
    }

    // Appends a variable of a monitor that was assigned, and its value.
    fn append_stored(&self, out: &mut TextWriter, member: Member, index: Option<i64>) {
        append_member(out, self.names, member);
        if let Some(index) = index {
            out.text("[");
            out.signed(index);
            out.text("]");
        }
        out.text(" := ");
        let place = Place {
            monitor: member.monitor,
            member: member.number,
            index: u32::try_from(index.unwrap_or(0)).unwrap_or(0),
        };
        let value = self.follower.state.variable(place);
        append_typed(out, member_type(self.follower.program, member), value)
    }

    // Appends a local that was assigned, and its value.
    fn append_put(&self, out: &mut TextWriter, slot: u32) {
        append_local(out, self.follower, self.moment.piece, slot);
        out.text(" := ");
        let value = self
            .locals(self.action.process)
            .get(slot as usize)
            .copied()
            .unwrap_or(0);
        append_value(out, self.follower.program, self.moment.piece, slot, value)
    }

    // Appends what was assigned.
    fn append_assigned(&self, out: &mut TextWriter) {
        match self.moment.statement {
            Some(Statement::Assign(Target::Local(slot), _)) => self.append_put(out, *slot),
            Some(Statement::Assign(Target::Member(member), _)) => {
                self.append_stored(out, *member, None)
            }
            Some(Statement::Assign(Target::Element(element), _)) => {
                self.append_stored(out, element.array, Some(self.moment.value))
            }
            _ => {}
        }
    }

    // Appends what was tested, and what came of it.
    fn append_test(&self, out: &mut TextWriter) {
        let mut words = String::new(self.follower.alloc);
        let from = self.token().saturating_add(1);
        match self.follower.places.append_words(&mut words, from) {
            Ok(()) => out.text(words.as_str()),
            Err(_) => out.fail(),
        }
        out.text(if self.moment.value == 0 {
            ", FALSE"
        } else {
            ", TRUE"
        })
    }

    // Appends how a procedure ended.
    fn append_return(&self, out: &mut TextWriter) {
        if self.moment.standing == Standing::Ends {
            return out.text("END");
        }
        out.text("RETURN");
        let result = result_of(self.follower.program, self.moment.piece);
        if result.is_none() {
            return;
        }
        out.text(" ");
        append_typed(out, result, self.moment.value)
    }

    // Appends what came of a JOIN.
    fn append_joined(&self, out: &mut TextWriter, child: u64) {
        match self.follower.state.over(child) {
            Some(End::Ended(value)) => {
                out.text("gave ");
                out.signed(value)
            }
            Some(End::Aborted(_)) => out.text("it aborted"),
            None => {}
        }
    }

    // Appends the innermost procedure of a process, with its arguments.
    fn append_begun(&self, out: &mut TextWriter, process: u64) {
        match self.follower.levels(process) {
            [.., top] => append_callee(out, self.follower, top.piece, self.locals(process)),
            [] => {}
        }
    }

    // Appends the procedure that a process was forked with.
    fn append_forked(&self, out: &mut TextWriter, process: u64) {
        match self.follower.levels(process) {
            [first, ..] => append_piece(out, self.follower.places, first.piece),
            [] => {}
        }
    }

    // Appends what was done, behind a blank, where more is told than the line has.
    fn append_deed(&self, out: &mut TextWriter) {
        out.text(" ");
        match &self.action.kind {
            ActionKind::Assign => self.append_assigned(out),
            ActionKind::Test => self.append_test(out),
            ActionKind::Call => self.append_begun(out, self.action.process),
            ActionKind::Enter(_) => self.append_begun(out, self.action.process),
            ActionKind::Fork(child) => self.append_begun(out, *child),
            ActionKind::Claim(child) => self.append_forked(out, *child),
            ActionKind::Return => self.append_return(out),
            ActionKind::Exit(_) => self.append_return(out),
            ActionKind::Join(child) => self.append_joined(out, *child),
            ActionKind::Fails(fault) => out.text(fault_name(*fault)),
            _ => {}
        }
    }

    // Appends the place, and what was done.
    fn append(&self, out: &mut TextWriter, file: &str) {
        let told = told_of(&self.action.kind);
        if told > 0 {
            out.text("  ");
            append_place(out, file, self.follower.places, self.token());
        }
        if told > 1 {
            self.append_deed(out)
        }
    }
}

// How much is told of an action: nothing, its place, or what it did too.
fn told_of(kind: &ActionKind) -> u8 {
    match kind {
        ActionKind::Finish => 0,
        ActionKind::Abandon(_) => 0,
        ActionKind::Print(_) => 1,
        ActionKind::Wait(_) => 1,
        ActionKind::Resume(_) => 1,
        ActionKind::Notify(_, _) => 1,
        ActionKind::Broadcast(_, _) => 1,
        ActionKind::Stray(_) => 1,
        ActionKind::Kill(_, _) => 1,
        _ => 2,
    }
}

// Appends what stands behind the line of an action, which is done; whether it could be.
fn append_aside(
    out: &mut TextWriter,
    file: &str,
    names: &Names<'_>,
    follower: &mut Follower<'_, '_>,
    action: &Action,
) -> bool {
    let Some(moment) = follower.pass(out, action) else {
        return false;
    };
    let told = Told {
        follower,
        names,
        action,
        moment,
    };
    told.append(out, file);
    true
}

// What stands behind the line of an action, which is done.
fn aside_of(
    alloc: Global,
    file: &str,
    names: &Names<'_>,
    follower: &mut Follower<'_, '_>,
    action: &Action,
) -> Result<Option<String>, AllocError> {
    let mut out = TextWriter::new(alloc);
    let is_done = append_aside(&mut out, file, names, follower, action);
    let aside = out.finish()?;
    Ok(if is_done { Some(aside) } else { None })
}

/// What stands behind the line of each action of a run of a program, whose text this is: two blanks, `FILE:LINE`, and
/// what it did; nothing behind that of an end or of an abandoned monitor. Of actions that aren't a run it has those
/// before the first that isn't possible.
///
/// # Errors
///
/// Where memory runs out, and for nothing else.
pub fn asides_of(
    alloc: Global,
    file: &str,
    text: &[u8],
    checked: &Checked,
    actions: &[Action],
) -> Result<Vec<String>, AllocError> {
    let places = places_of(alloc, text)?;
    let mut follower = Follower::opening(alloc, checked, &places)?;
    asides_from(alloc, file, checked.names(), &mut follower, actions)
}

// What stands behind each action of a run that begins.
fn asides_from(
    alloc: Global,
    file: &str,
    names: &Names<'_>,
    follower: &mut Follower<'_, '_>,
    actions: &[Action],
) -> Result<Vec<String>, AllocError> {
    begin(alloc, follower)?;
    let mut asides = Vec::new(alloc);
    for action in actions {
        match aside_of(alloc, file, names, follower, action)? {
            Some(aside) => asides.push(aside)?,
            None => break,
        }
    }
    Ok(asides)
}

// The first process begins.
fn begin(alloc: Global, follower: &mut Follower<'_, '_>) -> Result<(), AllocError> {
    let mut nothing = TextWriter::new(alloc);
    follower.begin(&mut nothing);
    nothing.finish()?;
    Ok(())
}
