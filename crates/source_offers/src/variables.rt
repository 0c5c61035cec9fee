ghost use Rattle.std.specs.Prelude.{◌≡◌, IfOk, OnErr, OnOk, pos, true};
ghost use Rattle.meaning.specs.Values.{with_variable};

use sorted_map::SortedMap;
use std::alloc::{AllocError, Global};

/// Where a variable stands: its monitor, its member, and in an array its index (0 where the member is no array).
#[derive(Clone, Copy, PartialEq, Eq, PartialOrd, Ord)]
pub struct Place {
    /// The monitor.
    pub monitor: u32,
    /// The member of the monitor.
    pub member: u32,
    /// The index in the array.
    pub index: u32,
}

/// The value of each variable. `variables_of` makes it those of the meaning.
#[derive(Drop)]
pub struct Variables {
    // What isn't 0, so that the lists are the same where the values are.
    values: SortedMap<Place, i64>,
}

impl Variables {
    ghost use Rattle.source_offers.specs.Stores.{variables_in, variables_of};

    /// All variables as they begin: 0, FALSE, or the empty handle.
    pub fn new(alloc: Global) -> Variables
        ensures { variables_of result ≡ (λ m n i. pos 0) }
    {
        Variables {
            values: SortedMap::new(alloc),
        }
    }

    /// The value of a variable.
    pub fn get(&self, place: Place) -> i64
        ensures { result ≡ variables_of self.now place.monitor place.member place.index }
    {
        match self.values.get(place) {
            None => 0,
            Some(value) => value,
        }
    }

    /// Puts a value into a variable.
    pub fn put(&mut self, place: Place, value: i64) -> Result<(), AllocError>
        ensures ok { OnOk result (variables_of self.new
            ≡ with_variable (variables_of self.old) place.monitor place.member place.index value) }
        ensures err { OnErr result (variables_of self.new ≡ variables_of self.old) }
    {
        if value == 0 {
            self.values.remove(place);
            return Ok(());
        }
        self.values.insert(place, value)
    }

    /// The same values once more.
    pub fn copy(&self) -> Result<Variables, AllocError>
        ensures { IfOk result (λ v. variables_of v ≡ variables_of self.now) }
    {
        Ok(Variables {
            values: self.values.copy()?,
        })
    }

    /// Whether all values are the same.
    pub fn is_same(&self, other: &Variables) -> bool
        ensures { result ≡ true → variables_of self.now ≡ variables_of other.now }
    {
        self.values == other.values
    }

    /// The variables that aren't 0 with their values, by rising places.
    pub fn entries(&self) -> &[(Place, i64)]
        ensures { variables_in result.now ≡ variables_of self.now }
    {
        self.values.entries()
    }
}
