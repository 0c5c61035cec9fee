use crate::slice::{Slices, append_slices_of};
use crate::takers::{given_up, handovers, taken};
use crate::tape::{Flow, Tape};
use crate::texts::{append_condition, append_monitor};
use crate::track::{Gate, Track, gates};
use program::{Checked, Member, Names};
use source_states::{Action, ActionKind, SourceState};
use std::alloc::{AllocError, Global};
use words::{Fault, ImageVersion};

/// A run while it is recorded.
#[derive(Drop)]
struct Recording<'c, 'n> {
    alloc: Global,
    tape: Tape<'c, 'n>,
    // The tracks of the processes, the first of process 1.
    tracks: Vec<Track>,
    gates: Vec<Gate>,
    // Of the actions that come next, the last one first, whether each gives a monitor up that another process takes.
    handovers: Vec<bool>,
}

// The place of a process's track.
fn index_of(process: u64) -> usize {
    process.saturating_sub(1) as usize
}

// The processes that an action resumes.
fn resumed_by(kind: &ActionKind) -> &[u64] {
    match kind {
        ActionKind::Notify(_, resumed) => resumed.as_slice(),
        ActionKind::Broadcast(_, resumed) => resumed.as_slice(),
        ActionKind::Kill(resumed, _) => resumed.as_slice(),
        _ => &[],
    }
}

impl<'c, 'n> Recording<'c, 'n> {
    // From now on a process does what the state says.
    fn follow(&mut self, state: &SourceState, process: u64) {
        let mut slices = Slices::new(self.alloc);
        append_slices_of(&mut slices, state, process);
        if slices.failed {
            self.tape.out.fail();
        }
        let gates = self.gates.as_mut_slice();
        if let Some(track) = self.tracks.get_mut(index_of(process)) {
            track.change(&mut self.tape, gates, process, slices.list.as_slice())
        }
    }

    // The track of a process that was just made.
    fn add_track(&mut self, state: &SourceState) {
        let track = Track::new(self.alloc);
        self.tape.out.push(&mut self.tracks, track);
        let process = self.tracks.len() as u64;
        self.tape.add_track(process);
        self.follow(state, process)
    }

    // Writes a number that a process prints.
    fn note_number(&mut self, process: u64, number: i64) {
        self.tape.begin_instant(process);
        self.tape.out.text("print ");
        self.tape.out.signed(number);
        self.tape.end_instant()
    }

    // Writes that a process has a fault.
    fn note_fault(&mut self, process: u64, fault: Fault) {
        self.tape.begin_instant(process);
        self.tape.out.form("fault $", &[u64::from(fault.number())]);
        self.tape.end_instant()
    }

    // Writes that a process is woken from outside.
    fn note_stray(&mut self, process: u64, condition: Member) {
        let names = self.tape.names;
        self.tape.begin_instant(process);
        append_condition(&mut self.tape.out, names, "stray ", condition);
        self.tape.end_instant()
    }

    // Writes that a process abandons a monitor.
    fn note_abandoned(&mut self, process: u64, monitor: u32) {
        let names = self.tape.names;
        self.tape.begin_instant(process);
        append_monitor(&mut self.tape.out, names, "abandon ", monitor);
        self.tape.end_instant()
    }

    // Writes that a process is killed.
    fn note_kill(&mut self, process: u64) {
        self.tape.begin_instant(process);
        self.tape.out.text("kill");
        self.tape.end_instant()
    }

    // Writes what an action is that changes no slice, or that is to be seen beside them.
    fn note(&mut self, action: &Action) {
        let process = action.process;
        match action.kind {
            ActionKind::Print(number) => self.note_number(process, number),
            ActionKind::Fails(fault) => self.note_fault(process, fault),
            ActionKind::Stray(condition) => self.note_stray(process, condition),
            ActionKind::Abandon(monitor) => self.note_abandoned(process, monitor),
            ActionKind::Kill(_, _) => self.note_kill(process),
            _ => {}
        }
    }

    // Begins the flow from who gives a monitor up, where another process takes it next.
    fn give_up(&mut self, action: &Action) {
        if self.handovers.pop() != Some(true) {
            return;
        }
        let Some(monitor) = given_up(&action.kind) else {
            return;
        };
        if let Some(gate) = self.gates.get_mut(monitor as usize) {
            let flow = self.tape.begin_flow(action.process, Flow::GiveUp);
            gate.given_up = Some(flow);
        }
    }

    // Ends the flow from who gave up the monitor that an action takes.
    fn take(&mut self, action: &Action) {
        let Some(monitor) = taken(&action.kind) else {
            return;
        };
        if let Some(gate) = self.gates.get_mut(monitor as usize) {
            let flow = gate.given_up.take();
            self.tape.finish_flow(action.process, Flow::GiveUp, flow)
        }
    }

    // Ends the flow from who resumed a process.
    fn resume(&mut self, process: u64) {
        if let Some(track) = self.tracks.get_mut(index_of(process)) {
            let flow = track.resumed.take();
            self.tape.finish_flow(process, Flow::Notify, flow)
        }
    }

    // A process resumes another.
    fn notify(&mut self, state: &SourceState, from: u64, to: u64) {
        let flow = self.tape.begin_flow(from, Flow::Notify);
        if let Some(track) = self.tracks.get_mut(index_of(to)) {
            track.resumed = Some(flow);
        }
        self.follow(state, to)
    }

    // A process resumes others.
    fn notify_all(&mut self, state: &SourceState, from: u64, resumed: &[u64]) {
        for to in resumed {
            self.notify(state, from, *to);
        }
    }

    // Makes a process.
    fn fork(&mut self, state: &SourceState, from: u64, child: u64) {
        let flow = self.tape.begin_flow(from, Flow::Fork);
        self.add_track(state);
        self.tape.finish_flow(child, Flow::Fork, Some(flow))
    }

    // Begins the flow from the end of a process.
    fn end(&mut self, process: u64) {
        if let Some(track) = self.tracks.get_mut(index_of(process)) {
            track.ended = Some(self.tape.begin_flow(process, Flow::Join));
        }
    }

    // Ends the flow from the end of a process that is joined.
    fn join(&mut self, process: u64, child: u64) {
        if let Some(track) = self.tracks.get_mut(index_of(child)) {
            let flow = track.ended.take();
            self.tape.finish_flow(process, Flow::Join, flow)
        }
    }

    // Writes what an action does beyond its process's own slices.
    fn follow_others(&mut self, state: &SourceState, action: &Action) {
        let process = action.process;
        match &action.kind {
            ActionKind::Fork(child) => self.fork(state, process, *child),
            ActionKind::Join(child) => self.join(process, *child),
            ActionKind::Resume(_) => self.resume(process),
            kind => self.notify_all(state, process, resumed_by(kind)),
        }
    }

    // Writes an action that led to a state. Flows begin in the slices before it, and end in those behind it.
    fn record(&mut self, state: &SourceState, action: &Action) {
        self.tape.time = self.tape.time.saturating_add(1);
        self.note(action);
        self.give_up(action);
        if let ActionKind::Finish = action.kind {
            self.end(action.process);
        }
        self.follow(state, action.process);
        self.take(action);
        self.follow_others(state, action)
    }

    // Does an action, and writes it; whether it was possible.
    fn step<'a>(
        &mut self,
        checked: &'a Checked,
        action: &Action,
        state: &mut SourceState<'a>,
    ) -> bool {
        match state.advance(self.alloc, checked.program(), action) {
            Ok(true) => {
                self.record(state, action);
                true
            }
            Ok(false) => false,
            Err(_) => {
                self.tape.out.fail();
                false
            }
        }
    }

    // Writes the actions from a state on, up to the first that isn't possible, and the file's end.
    fn record_all<'a>(
        &mut self,
        checked: &'a Checked,
        actions: &[Action],
        state: &mut SourceState<'a>,
    ) {
        self.tape.head();
        self.add_track(state);
        for action in actions {
            if !self.step(checked, action, state) {
                break;
            }
        }
        self.cut_all();
        self.tape.tail()
    }

    // Writes the actions from the opening state on.
    fn record_whole(&mut self, checked: &Checked, actions: &[Action]) {
        match SourceState::opening(self.alloc, checked, ImageVersion::Two) {
            Ok(mut state) => self.record_all(checked, actions, &mut state),
            Err(_) => self.tape.out.fail(),
        }
    }

    // Ends the slices of the processes that aren't over.
    fn cut_all(&mut self) {
        self.tape.time = self.tape.time.saturating_add(1);
        for (index, track) in self.tracks.iter().enumerate() {
            track.cut(&mut self.tape, (index as u64).saturating_add(1));
        }
    }
}

/// A run as a trace-event file, as Perfetto and Chrome's tracing read it. Of actions that aren't a run it has those
/// before the first that isn't possible.
///
/// Each process has a track, with slices for the procedures that run in it, the monitors that it holds, and what it
/// waits for; the time of an action is its number in microseconds.
pub fn timeline(
    alloc: Global,
    checked: &Checked,
    actions: &[Action],
) -> Result<Vec<u8>, AllocError> {
    let mut recording = recording_of(alloc, checked.names(), actions)?;
    recording.record_whole(checked, actions);
    Ok(recording.tape.out.finish()?.into_bytes())
}

// What begins to record these actions.
fn recording_of<'c, 'n>(
    alloc: Global,
    names: &'c Names<'n>,
    actions: &[Action],
) -> Result<Recording<'c, 'n>, AllocError> {
    let gates = gates(alloc, names)?;
    let handovers = handovers(alloc, names, actions)?;
    Ok(Recording {
        alloc,
        tape: Tape::new(alloc, names),
        tracks: Vec::new(alloc),
        gates,
        handovers,
    })
}
