use crate::failure::Failure;
use serde_json::Value;
use std::alloc::Global;
use std::fmt;

/// What the records of a timeline tell, and how many there are of each kind.
#[derive(Drop)]
pub struct Tally<'v> {
    alloc: Global,
    // The names of the slices that each process is in, the outermost first; the first process is the first.
    tracks: Vec<Vec<&'v str>>,
    // The names of the flows that haven't ended, by their numbers.
    flows: Vec<Option<&'v str>>,
    time: u64,
    slices: u32,
    deepest: usize,
    instants: u32,
    ended: u32,
    counts: u32,
}

impl fmt::Display for Tally<'_> {
    fn fmt<W: fmt::Write>(&self, f: &mut fmt::Formatter<W>) -> fmt::Result {
        let tracks = self.tracks.len();
        let slices = self.slices;
        let deepest = self.deepest;
        write!(f, "{tracks} tracks, {slices} slices in {deepest} levels, ")?;
        let instants = self.instants;
        let flows = self.flows.len();
        let ended = self.ended;
        let counts = self.counts;
        write!(
            f,
            "{instants} instants, {flows} flows, {ended} of them ended, {counts} counts"
        )
    }
}

// A text in a record.
fn text_of<'v>(record: &'v Value, key: &str) -> Result<&'v str, Failure> {
    record
        .get(key)
        .and_then(Value::as_str)
        .ok_or(Failure::Record)
}

// A number in a record.
fn number_of(record: &Value, key: &str) -> Result<u64, Failure> {
    record
        .get(key)
        .and_then(Value::as_u64)
        .ok_or(Failure::Record)
}

// The place of what has a number from 1.
fn place_of(number: u64) -> usize {
    number.saturating_sub(1) as usize
}

impl<'v> Tally<'v> {
    /// That of no records.
    pub fn new(alloc: Global) -> Tally<'v> {
        Tally {
            alloc,
            tracks: Vec::new(alloc),
            flows: Vec::new(alloc),
            time: 0,
            slices: 0,
            deepest: 0,
            instants: 0,
            ended: 0,
            counts: 0,
        }
    }

    /// Takes all records of a timeline.
    pub fn take_all(&mut self, timeline: &'v Value) -> Result<(), Failure> {
        let records = timeline.get("traceEvents").and_then(Value::as_array);
        for record in records.ok_or(Failure::Record)?.iter() {
            self.take(record)?;
        }
        match self.is_closed() {
            true => Ok(()),
            false => Err(Failure::Nesting),
        }
    }

    // Whether no process is in a slice.
    fn is_closed(&self) -> bool {
        for track in self.tracks.iter() {
            if !track.is_empty() {
                return false;
            }
        }
        true
    }

    // Takes a record.
    fn take(&mut self, record: &'v Value) -> Result<(), Failure> {
        let kind = text_of(record, "ph")?;
        if kind == "M" {
            return self.take_name(record);
        }
        let time = number_of(record, "ts")?;
        if time < self.time {
            return Err(Failure::Time);
        }
        self.time = time;
        match kind {
            "B" => self.begin(record),
            "E" => self.end(record),
            "i" => self.take_instant(record),
            "s" => self.begin_flow(record),
            "f" => self.end_flow(record),
            "C" => self.take_count(record),
            _ => Err(Failure::Record),
        }
    }

    // Takes the name of a track.
    fn take_name(&mut self, record: &'v Value) -> Result<(), Failure> {
        if text_of(record, "name")? == "process_name" {
            return Ok(());
        }
        if place_of(number_of(record, "tid")?) != self.tracks.len() {
            return Err(Failure::Record);
        }
        self.tracks.push(Vec::new(self.alloc))?;
        Ok(())
    }

    // Takes the beginning of a slice.
    fn begin(&mut self, record: &'v Value) -> Result<(), Failure> {
        let place = place_of(number_of(record, "tid")?);
        let name = text_of(record, "name")?;
        let track = self.tracks.get_mut(place).ok_or(Failure::Record)?;
        track.push(name)?;
        self.deepest = self.deepest.max(track.len());
        self.slices = self.slices.saturating_add(1);
        Ok(())
    }

    // Takes the end of a slice.
    fn end(&mut self, record: &'v Value) -> Result<(), Failure> {
        let place = place_of(number_of(record, "tid")?);
        let name = text_of(record, "name")?;
        let track = self.tracks.get_mut(place).ok_or(Failure::Record)?;
        match track.pop() {
            Some(open) if open == name => Ok(()),
            _ => Err(Failure::Nesting),
        }
    }

    // Takes what happens at one moment, in a slice.
    fn take_instant(&mut self, record: &'v Value) -> Result<(), Failure> {
        let place = place_of(number_of(record, "tid")?);
        let _name = text_of(record, "name")?;
        self.instants = self.instants.saturating_add(1);
        match self.tracks.get(place) {
            Some(track) if !track.is_empty() => Ok(()),
            _ => Err(Failure::Nesting),
        }
    }

    // Takes the beginning of a flow, which has the next number.
    fn begin_flow(&mut self, record: &'v Value) -> Result<(), Failure> {
        let name = text_of(record, "name")?;
        if place_of(number_of(record, "id")?) != self.flows.len() {
            return Err(Failure::Flow);
        }
        self.flows.push(Some(name))?;
        Ok(())
    }

    // Takes the end of a flow.
    fn end_flow(&mut self, record: &'v Value) -> Result<(), Failure> {
        let name = text_of(record, "name")?;
        let place = place_of(number_of(record, "id")?);
        let flow = self.flows.get_mut(place).ok_or(Failure::Flow)?;
        self.ended = self.ended.saturating_add(1);
        match flow.take() {
            Some(begun) if begun == name => Ok(()),
            _ => Err(Failure::Flow),
        }
    }

    // Takes how many processes wait on a condition.
    fn take_count(&mut self, record: &'v Value) -> Result<(), Failure> {
        let _name = text_of(record, "name")?;
        let args = record.get("args").ok_or(Failure::Record)?;
        let _waiting = number_of(args, "waiting")?;
        self.counts = self.counts.saturating_add(1);
        Ok(())
    }
}
