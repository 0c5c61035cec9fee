// Names by their numbers.

ghost use Rattle.std.specs.Prelude.{◌≡◌, ◌<◌, ◌≤◌, [], ◌∷◌, ◌++◌, List, IfOk, OnErr, bytes_eq, is_none, length, map};
ghost use Rattle.syntax.specs.Lexeme.{NameTree};
ghost use Rattle.syntax.specs.View.{name_of};
ghost use Rattle.types.specs.Names.{number_in, text_number};
ghost use Rattle.types.specs.Tables.{IsTable};

use indexmap::IndexMap;
use std::alloc::{AllocError, Global};
use syntax::Name;

// So many names of a scope are compared one by one: that takes less time than a hash, and most scopes have no more.
const MOST_COMPARED: usize = 16;

/// The names of a scope, by which their numbers are looked up.
#[derive(Drop)]
pub struct Table<'a> {
    /// The first names, in their order.
    first: Vec<&'a [u8]>,
    /// The number of the first declaration of each further name.
    numbers: IndexMap<&'a [u8], u32>,
    /// How many names were declared.
    count: u32,
}

// Whether two texts are the same. A loop takes less time for the few bytes of a name than `==`.
fn is_same(text: &[u8], other: &[u8]) -> bool
    ensures { result ≡ bytes_eq text.now other.now }
{
    if text.len() != other.len() {
        return false;
    }
    for i in 0..text.len() {
        if text[i] != other[i] {
            return false;
        }
    }
    true
}

// The number of the first of these texts that is this one.
fn position(texts: &[&[u8]], text: &[u8]) -> Option<u32>
    ensures { (names : List NameTree) → map (λ x. x.now) texts.now ≡ map (λ n. n.text) names
        → length names ≤ MOST_COMPARED → result ≡ text_number names text.now }
{
    for number in 0..texts.len().min(MOST_COMPARED) {
        if is_same(text, texts[number]) {
            return Some(number as u32);
        }
    }
    None
}

impl<'a> Table<'a> {
    /// The table of a scope without names.
    pub fn new(alloc: Global) -> Table<'a>
        ensures { IsTable [] result }
    {
        Table {
            first: Vec::new(alloc),
            numbers: IndexMap::new(alloc),
            count: 0,
        }
    }

    /// Declares a further name, and says whether it is the first that is written so.
    pub fn declare(&mut self, name: Name<'a>) -> Result<bool, AllocError>
        requires { self.old.count < u32.MAX }
        ensures declared { (names : List NameTree) → IsTable names self.old
            → IfOk result (λ fresh. IsTable (names ++ name_of name.entry ∷ []) self.new) }
        ensures fresh { (names : List NameTree) → IsTable names self.old
            → IfOk result (λ fresh. fresh ≡ is_none (number_in names (name_of name.entry))) }
        ensures same { (names : List NameTree) → IsTable names self.old
            → OnErr result (IsTable names self.new) }
    {
        let fresh = self.find(name).is_none();
        if (self.count as usize) < MOST_COMPARED {
            self.first.push(name.text)?;
        } else if fresh {
            self.numbers.insert(name.text, self.count)?;
        }
        self.count += 1;
        Ok(fresh)
    }

    /// The number of the first name that is written as this one.
    pub fn find(&self, name: Name<'_>) -> Option<u32>
        ensures { (names : List NameTree) → IsTable names self.now
            → result ≡ number_in names (name_of name.entry) }
    {
        let compared = position(&self.first, name.text);
        if compared.is_some() || self.count as usize <= MOST_COMPARED {
            return compared;
        }
        self.numbers.get(name.text).copied()
    }
}
