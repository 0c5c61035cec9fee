use crate::fault::RowFault;
use crate::outcome::Outcome;
use std::alloc::Global;

/// A command, and what has to come of it.
#[derive(Drop)]
pub struct Row {
    /// The row's file, the number of its first line, and its name.
    pub name: String,
    /// The source text, where there is one.
    pub source: Option<Vec<u8>>,
    /// The schedule, where there is one.
    pub schedule: Option<Vec<u8>>,
    /// The log, where there is one.
    pub log: Option<Vec<u8>>,
    /// The words of the command line.
    pub words: Vec<String>,
    /// How many bytes standard output takes.
    pub output_room: u32,
    /// How many bytes standard error takes.
    pub errors_room: u32,
    /// What has to come of it.
    pub wanted: Outcome,
    alloc: Global,
    // The source text of the row before.
    before: Option<Vec<u8>>,
}

impl Row {
    /// A row of this name, after one with this source text, with nothing said yet.
    pub fn new(alloc: Global, name: String, before: Option<Vec<u8>>) -> Row {
        Row {
            name,
            source: None,
            schedule: None,
            log: None,
            words: Vec::new(alloc),
            output_room: u32::MAX,
            errors_room: u32::MAX,
            wanted: Outcome::new(alloc),
            alloc,
            before,
        }
    }

    /// Takes a line of the row: its key, and what it says.
    pub fn take_line(&mut self, key: &str, said: &str) -> Result<(), RowFault> {
        match key {
            "text" => add_text(self.alloc, &mut self.source, said),
            "schedule" => add_text(self.alloc, &mut self.schedule, said),
            "log" => add_entry(self.alloc, &mut self.log, said),
            "logged" => add_entry(self.alloc, &mut self.wanted.log, said),
            "times" => self.add_repeated(said),
            "bytes" => self.add_bytes(said),
            "again" => self.take_before(),
            "words" => self.add_words(said),
            "output" => add_line(&mut self.wanted.output, said),
            "errors" => add_line(&mut self.wanted.errors, said),
            "room" => self.set_rooms(said),
            "output-part" => add_part(&mut self.wanted.output, said),
            "errors-part" => add_part(&mut self.wanted.errors, said),
            "failures" => self.set_failures(said),
            "image" => self.set_image(said),
            "status" => self.set_status(said),
            _ => Err(RowFault::Key),
        }
    }

    fn take_before(&mut self) -> Result<(), RowFault> {
        let source = self.before.take().ok_or(RowFault::Before)?;
        self.source = Some(source);
        Ok(())
    }

    fn add_repeated(&mut self, said: &str) -> Result<(), RowFault> {
        let (count, text) = said.split_once(' ').ok_or(RowFault::Number)?;
        let count: u32 = count.parse().map_err(|_| RowFault::Number)?;
        let mut source = self.source.take().unwrap_or(Vec::new(self.alloc));
        for _ in 0..count {
            source.extend_from_slice(text.as_bytes())?;
        }
        self.source = Some(source);
        Ok(())
    }

    fn add_bytes(&mut self, digits: &str) -> Result<(), RowFault> {
        let bytes = hex::decode(self.alloc, digits).map_err(|_| RowFault::Number)?;
        let mut source = self.source.take().unwrap_or(Vec::new(self.alloc));
        source.extend_from_slice(bytes.as_slice())?;
        self.source = Some(source);
        Ok(())
    }

    fn add_words(&mut self, said: &str) -> Result<(), RowFault> {
        for word in said.split_whitespace() {
            self.words.push(String::from_str(self.alloc, word)?)?;
        }
        Ok(())
    }

    fn set_rooms(&mut self, said: &str) -> Result<(), RowFault> {
        let (output, errors) = said.split_once(' ').ok_or(RowFault::Number)?;
        self.output_room = output.parse().map_err(|_| RowFault::Number)?;
        self.errors_room = errors.parse().map_err(|_| RowFault::Number)?;
        Ok(())
    }

    fn set_failures(&mut self, said: &str) -> Result<(), RowFault> {
        self.wanted.failures = said.parse().map_err(|_| RowFault::Number)?;
        Ok(())
    }

    fn set_image(&mut self, digits: &str) -> Result<(), RowFault> {
        let image = hex::decode(self.alloc, digits).map_err(|_| RowFault::Number)?;
        self.wanted.image = Some(image);
        Ok(())
    }

    fn set_status(&mut self, said: &str) -> Result<(), RowFault> {
        self.wanted.status = said.parse().map_err(|_| RowFault::Number)?;
        Ok(())
    }
}

fn add_text(alloc: Global, file: &mut Option<Vec<u8>>, line: &str) -> Result<(), RowFault> {
    let mut text = file.take().unwrap_or(Vec::new(alloc));
    add_line(&mut text, line)?;
    *file = Some(text);
    Ok(())
}

// Adds a line to a log; no line is an empty log, where it is the first.
fn add_entry(alloc: Global, file: &mut Option<Vec<u8>>, line: &str) -> Result<(), RowFault> {
    if line.is_empty() {
        *file = Some(Vec::new(alloc));
        return Ok(());
    }
    add_text(alloc, file, line)
}

fn add_part(text: &mut Vec<u8>, part: &str) -> Result<(), RowFault> {
    text.extend_from_slice(part.as_bytes())?;
    Ok(())
}

fn add_line(text: &mut Vec<u8>, line: &str) -> Result<(), RowFault> {
    text.extend_from_slice(line.as_bytes())?;
    text.push(b'\n')?;
    Ok(())
}
