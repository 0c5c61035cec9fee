ghost use Rattle.std.specs.Prelude.{◌≡◌, ◌++◌, length};
ghost use Rattle.std.specs.Iterator.{YieldsFirst, item_count};
ghost use Rattle.packed_log.specs.Packing.{entries_of, heads_of};
ghost use Rattle.packed_log.specs.Views.{IsPacked as IsPackedIn};

use crate::head::{entry_at, sets_beside, widen};
use crate::wide_head::WideHead;
use machine::Entry;
use std::marker::Model;

/// The entries of a log that are left to be read. Contracts see their list.
#[derive(Drop)]
pub struct LogReader<'a> {
    heads: &'a [u64],
    wide: &'a [WideHead],
    sets: &'a [u64],
    // Entries of a list, which stand whole.
    whole: &'a [Entry],
}

impl<'a> Model for LogReader<'a> {
    ghost use Rattle.std.specs.Prelude.{List, ◌++◌};
    ghost use Rattle.machine.specs.declared.event.Entry.{Entry as LogEntry};
    ghost use Rattle.packed_log.specs.Packing.{entries_of, heads_of};
    ghost use Rattle.packed_log.specs.Views.{IsPacked};

    ghost Value = { List LogEntry };

    ghost view = { λ r. entries_of (heads_of r.heads.now r.wide.now) r.sets.now ++ r.whole.now };

    ghost invariant = { λ r. IsPacked (heads_of r.heads.now r.wide.now) r.sets.now };
}

impl<'a> LogReader<'a> {
    /// Of the entries of heads of both kinds, with the sets beside them.
    pub(crate) fn new(heads: &'a [u64], wide: &'a [WideHead], sets: &'a [u64]) -> LogReader<'a>
        requires { IsPackedIn (heads_of heads.now wide.now) sets.now }
        ensures { result ≡ entries_of (heads_of heads.now wide.now) sets.now }
    {
        LogReader {
            heads,
            wide,
            sets,
            whole: &[],
        }
    }

    /// Of the entries of a list.
    pub fn of(entries: &'a [Entry]) -> LogReader<'a>
        ensures { result ≡ entries.now }
    {
        LogReader {
            heads: &[],
            wide: &[],
            sets: &[],
            whole: entries,
        }
    }

    /// How many are left.
    pub fn len(&self) -> usize
        ensures { result ≡ length self.now }
    {
        self.heads.len() + self.wide.len() + self.whole.len()
    }
}

impl<'a> Iterator for LogReader<'a> {
    type Item = Entry;

    ghost next_gives = { YieldsFirst (λ rest. rest) };

    ghost remaining = { item_count (λ rest. rest) };

    fn next(&mut self) -> Option<Entry> {
        if let Some((head, heads)) = self.heads.split_first() {
            let entry = entry_at(widen(*head), self.sets);
            self.sets = &self.sets[sets_beside(*head)..];
            self.heads = heads;
            return Some(entry);
        }
        if let Some((head, wide)) = self.wide.split_first() {
            let entry = entry_at(*head, self.sets);
            self.sets = &self.sets[sets_beside(head.head)..];
            self.wide = wide;
            return Some(entry);
        }
        let (entry, whole) = self.whole.split_first()?;
        self.whole = whole;
        Some(*entry)
    }
}
