use crate::memo::Outcome;
use crate::packed::Packed;
use program::{Member, Program, Statement, Target};
use source_offers::{End, Frame, Place, Process, Stage, Variables};
use source_states::SourceState;
use source_table::Hold;
use words::Cause;

// What spreads numbers.
const SPREAD: u64 = 0x9E37_79B9_7F4A_7C15;

// A number that is mixed of others, each at its place: it isn't 0 at first, so that no zeros are lost.
#[derive(Drop)]
struct Mixer {
    number: u64,
}

// A number of which each bit depends on those of this one.
fn mixed(number: u64) -> u64 {
    let half = number.wrapping_mul(SPREAD);
    (half ^ (half >> 32)).wrapping_mul(0xC2B2_AE3D_27D4_EB4F)
}

impl Mixer {
    fn new() -> Mixer {
        Mixer { number: SPREAD }
    }

    // Mixes in a number.
    fn feed(&mut self, number: u64) {
        self.number = (self.number ^ number).wrapping_mul(SPREAD).rotate_left(31);
    }

    // Mixes in a number of one kind among several.
    fn feed_kind(&mut self, kind: u64, number: u64) {
        self.feed(number.wrapping_mul(16).wrapping_add(kind));
    }
}

fn feed_member(member: Member, digest: &mut Mixer) {
    digest.feed_kind(u64::from(member.monitor), u64::from(member.number));
}

fn feed_option(number: Option<u32>, digest: &mut Mixer) {
    match number {
        None => digest.feed(0),
        Some(number) => digest.feed(u64::from(number) + 1),
    }
}

fn feed_target(target: &Target, digest: &mut Mixer) {
    match target {
        Target::Local(slot) => digest.feed_kind(1, u64::from(*slot)),
        Target::Member(member) => feed_member(*member, digest),
        Target::Element(element) => feed_member(element.array, digest),
    }
}

// What a statement is, roughly.
fn feed_statement(statement: &Statement, digest: &mut Mixer) {
    match statement {
        Statement::Assign(target, _) => feed_target(target, digest),
        Statement::If { then_part, .. } => digest.feed_kind(2, then_part.len() as u64),
        Statement::While { body, .. } => digest.feed_kind(3, body.len() as u64),
        Statement::Call { procedure, .. } => digest.feed_kind(4, u64::from(*procedure)),
        Statement::Fork { procedure, .. } => digest.feed_kind(5, u64::from(*procedure)),
        Statement::Join { .. } => digest.feed_kind(6, 0),
        Statement::Return(_) => digest.feed_kind(7, 0),
        Statement::Wait(condition) => feed_member(*condition, digest),
        Statement::Notify(condition) => feed_member(*condition, digest),
        Statement::Broadcast(condition) => feed_member(*condition, digest),
        Statement::Print(_) => digest.feed_kind(8, 0),
        Statement::Abort => digest.feed_kind(9, 0),
    }
}

fn feed_rest(rest: &[&[Statement]], digest: &mut Mixer) {
    for statements in rest {
        digest.feed(statements.len() as u64);
        if let Some(first) = statements.first() {
            feed_statement(first, digest);
        }
    }
}

fn feed_frame(frame: &Frame, digest: &mut Mixer) {
    feed_option(frame.into, digest);
    for value in frame.locals.as_slice() {
        digest.feed(value.cast_unsigned());
    }
    feed_rest(frame.rest.as_slice(), digest);
}

fn feed_end(end: End, digest: &mut Mixer) {
    match end {
        End::Ended(value) => digest.feed_kind(10, value.cast_unsigned()),
        End::Aborted(Cause::Killed) => digest.feed_kind(11, 0),
        End::Aborted(Cause::Faulted(fault)) => digest.feed_kind(12, u64::from(fault.number())),
    }
}

fn feed_stage(stage: &Stage, digest: &mut Mixer) {
    match stage {
        Stage::Entering(monitor) => digest.feed_kind(1, u64::from(*monitor)),
        Stage::Before(None) => digest.feed_kind(2, 0),
        Stage::Before(Some(entered)) => digest.feed_kind(3, u64::from(*entered)),
        Stage::Suspended(condition) => {
            digest.feed_kind(4, u64::from(condition.monitor));
            digest.feed(u64::from(condition.number));
        }
        Stage::Joining { child, .. } => digest.feed_kind(5, *child),
        Stage::Returning(value) => digest.feed_kind(6, value.cast_unsigned()),
        Stage::Failing(fault, _) => digest.feed_kind(7, u64::from(fault.number())),
        Stage::Dying(_, monitors) => digest.feed_kind(8, monitors.len() as u64),
        Stage::Leaving(value) => digest.feed_kind(9, value.cast_unsigned()),
        Stage::Over(end) => feed_end(*end, digest),
    }
}

fn feed_callers(process: &Process, digest: &mut Mixer) {
    for caller in process.callers.as_slice() {
        feed_frame(caller, digest);
    }
}

// Of a process that dies, leaves or is over the procedures don't matter any more, and of one that hands a result to its
// caller the procedure that ended doesn't.
fn feed_process(process: &Process, digest: &mut Mixer) {
    feed_stage(&process.stage, digest);
    match &process.stage {
        Stage::Dying(_, _) | Stage::Leaving(_) | Stage::Over(_) => {}
        Stage::Returning(_) => feed_callers(process, digest),
        _ => {
            feed_frame(&process.frame, digest);
            feed_callers(process, digest);
        }
    }
}

fn feed_hold(hold: Hold, digest: &mut Mixer) {
    match hold {
        Hold::Free => digest.feed(0),
        Hold::Abandoned => digest.feed(u64::MAX),
        Hold::HeldBy(process) => digest.feed(process),
    }
}

fn feed_variable(place: Place, value: i64, digest: &mut Mixer) {
    digest.feed_kind(u64::from(place.monitor), u64::from(place.member));
    digest.feed(u64::from(place.index));
    digest.feed(value.cast_unsigned());
}

// Who holds each monitor.
fn feed_holds(program: &Program, state: &SourceState, digest: &mut Mixer) {
    let mut monitor: u32 = 0;
    for _ in program.monitors.as_slice() {
        feed_hold(state.hold(monitor), digest);
        monitor = monitor.saturating_add(1);
    }
}

/// The digest of a process.
pub(crate) fn digest_process(process: &Process) -> u64 {
    let mut digest = Mixer::new();
    feed_process(process, &mut digest);
    mixed(digest.number)
}

/// The digest of the table of a state in which so many processes were made.
pub(crate) fn digest_table(program: &Program, state: &SourceState, made: u64) -> u64 {
    let mut digest = Mixer::new();
    for before in 0..made {
        let number = before + 1;
        if let Some(condition) = state.waits(number) {
            digest.feed(number);
            feed_member(condition, &mut digest);
        }
        if let Some(end) = state.over(number) {
            feed_end(end, &mut digest);
        }
        digest.feed(u64::from(state.claimed(number)));
    }
    feed_holds(program, state, &mut digest);
    mixed(digest.number)
}

/// The digest of the values of variables.
pub(crate) fn digest_variables(variables: &Variables) -> u64 {
    let mut digest = Mixer::new();
    for (place, value) in variables.entries() {
        feed_variable(*place, *value, &mut digest);
    }
    mixed(digest.number)
}

// What a part at a place adds to the digest of a kept state.
fn part_digest(place: u64, part: u32) -> u64 {
    mixed(place.wrapping_mul(SPREAD) ^ u64::from(part))
}

// The place of the table, past those of all processes; that of the variables is the next one.
const TABLE: u64 = 1 << 31;

/// A number that is mostly another where the state is another: a sum, so that a move changes it by what it changes of the
/// state. Nothing is promised of it: it decides how fast a kept state is found, and no more.
pub(crate) fn digest_packed(packed: &Packed) -> u64 {
    let mut digest = part_digest(TABLE, packed.table);
    digest = digest.wrapping_add(part_digest(TABLE + 1, packed.variables));
    for place in 0..packed.processes.len() {
        digest = digest.wrapping_add(part_digest(place as u64, packed.processes[place]));
    }
    digest
}

// What the process that was made adds, where one was: its place is the one of its number.
fn child_digest(outcome: Outcome) -> u64 {
    match outcome.made.checked_sub(1) {
        None => 0,
        Some(place) => part_digest(u64::from(place), outcome.child),
    }
}

/// The digest of a kept state of this digest, with the process at this place, the table and the variables as an outcome
/// has them, and with the process that was made.
pub(crate) fn digest_moved(packed: &Packed, digest: u64, place: usize, outcome: Outcome) -> u64 {
    let Some(part) = packed.processes.get(place).copied() else {
        return digest;
    };
    let at = place as u64;
    digest
        .wrapping_sub(part_digest(TABLE, packed.table))
        .wrapping_sub(part_digest(TABLE + 1, packed.variables))
        .wrapping_sub(part_digest(at, part))
        .wrapping_add(part_digest(TABLE, outcome.table))
        .wrapping_add(part_digest(TABLE + 1, outcome.variables))
        .wrapping_add(part_digest(at, outcome.part))
        .wrapping_add(child_digest(outcome))
}
