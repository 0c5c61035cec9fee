// The names of the monitors' words.

use program::{Member, MemberType, Names, Program};
use std::alloc::{AllocError, Global};
use text_writer::TextWriter;
use words::ImageVersion;

/// What a word of a monitor is.
#[derive(Clone, Copy)]
enum Word {
    /// Its link.
    Link(u32),
    /// Its lock.
    Lock(u32),
    /// A member, or an element of an array.
    Member(Member),
}

/// The words of the monitors, from the first one's link on.
#[derive(Drop)]
pub(crate) struct Words<'p, 'n> {
    names: &'p Names<'n>,
    base: u32,
    words: Vec<Word>,
}

// How many words a member has.
fn size_of(member: MemberType) -> u32 {
    match member {
        MemberType::Array(size) => size,
        _ => 1,
    }
}

impl<'p, 'n> Words<'p, 'n> {
    // Adds the words of a member.
    fn add_member(&mut self, member: Member, size: u32) -> Result<(), AllocError> {
        for _word in 0..size {
            self.words.push(Word::Member(member))?;
        }
        Ok(())
    }

    // Adds the words of a monitor.
    fn add_monitor(&mut self, monitor: u32, members: &[MemberType]) -> Result<(), AllocError> {
        self.words.push(Word::Link(monitor))?;
        self.words.push(Word::Lock(monitor))?;
        for (number, member) in members.iter().enumerate() {
            let number = u32::try_from(number).unwrap_or(0);
            self.add_member(Member { monitor, number }, size_of(*member))?;
        }
        Ok(())
    }

    /// The words of a program's monitors in an image of this version.
    pub fn of(
        alloc: Global,
        program: &Program,
        names: &'p Names<'n>,
        version: ImageVersion,
    ) -> Result<Words<'p, 'n>, AllocError> {
        let mut words = Words {
            names,
            base: version.monitors_base(),
            words: Vec::new(alloc),
        };
        for (number, monitor) in program.monitors.iter().enumerate() {
            let number = u32::try_from(number).unwrap_or(0);
            words.add_monitor(number, monitor.members.as_slice())?;
        }
        Ok(words)
    }

    // Appends the name of a monitor, and of its member of this number.
    fn append_member(&self, out: &mut TextWriter, member: Member) {
        let Some(monitor) = self.names.monitors.get(member.monitor as usize) else {
            return;
        };
        out.shown(monitor.name);
        out.text(".");
        if let Some(name) = monitor.members.get(member.number as usize) {
            out.shown(name)
        }
    }

    // Appends the name of a monitor, and a text.
    fn append_monitor(&self, out: &mut TextWriter, monitor: u32, behind: &str) {
        if let Some(monitor) = self.names.monitors.get(monitor as usize) {
            out.shown(monitor.name)
        }
        out.text(behind)
    }

    // The word at an address, where it is one of a monitor.
    fn word_at(&self, address: u32) -> Option<Word> {
        let index = address.checked_sub(self.base)?;
        self.words.get(index as usize).copied()
    }

    /// Appends two blanks and what the word at an address is, where it is one of a monitor.
    pub fn append_word(&self, out: &mut TextWriter, address: u32) {
        let Some(word) = self.word_at(address) else {
            return;
        };
        out.text("  ");
        match word {
            Word::Member(member) => self.append_member(out, member),
            Word::Lock(monitor) => self.append_monitor(out, monitor, "'s lock"),
            Word::Link(monitor) => self.append_monitor(out, monitor, "'s link"),
        }
    }
}
