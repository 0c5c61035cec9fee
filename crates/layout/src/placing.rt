ghost use Rattle.std.specs.Prelude.{◌≡◌, ◌<◌, ◌+◌, ◌*◌, ◌^◌, IfOk, IfErr, map};
ghost use Rattle.scanner.specs.Refusals.{out_of_memory};
ghost use Rattle.program.specs.Names.{said_by};
ghost use Rattle.program.specs.Trees.{as_version};
ghost use Rattle.program.specs.Views.{monitor_of};
ghost use Rattle.program.specs.WellFormed.{words_of, member_words};
ghost use Rattle.lowering.specs.Layout as layouts;
ghost use Rattle.layout.specs.Views.{view_of};

use crate::monitor_place::MonitorPlace;
use program::{Checked, Member, MemberType, Monitor};
use scanner::Refusal;
use std::alloc::{AllocError, Global};
use std::marker::Model;
use words::ImageVersion;

/// The addresses of the monitors' words in an image of some version, and how many pieces of code there are. Contracts see
/// it as a `Layout` of a few monitors with a few words.
#[derive(Drop)]
pub struct Layout {
    version: ImageVersion,
    monitors: Vec<MonitorPlace>,
    pieces: usize,
}

impl Model for Layout {
    ghost use Rattle.std.specs.Prelude.{map};
    ghost use Rattle.lowering.specs.Layout as layouts;
    ghost use Rattle.layout.specs.Views.{view_of, IsSmall};

    ghost Value = { layouts.Layout };

    ghost view = { λ l. record {
      version = l.version;
      monitors = map view_of l.monitors.items;
      pieces = l.pieces;
    } };

    ghost invariant = { λ l. IsSmall (record {
      version = l.version;
      monitors = map view_of l.monitors.items;
      pieces = l.pieces;
    }) };
}

impl Layout {
    /// The version of the image.
    pub fn version(&self) -> ImageVersion
        ensures { result ≡ self.now.version }
    {
        self.version
    }

    /// The address of a monitor's link word, 0 for a monitor that there isn't.
    pub fn link(&self, monitor: u32) -> u32
        ensures is { result ≡ layouts.link_at self.now monitor }
        ensures small { result < 2 ^ 16 }
    {
        match self.monitors.get(monitor as usize) {
            Some(place) => place.link,
            None => 0,
        }
    }

    /// The address of a member's first word, 0 for a member that there isn't.
    pub fn address(&self, member: Member) -> u32
        ensures { result ≡ layouts.address_at self.now member }
    {
        match self.monitors.get(member.monitor as usize) {
            Some(place) => match place.members.get(member.number as usize) {
                Some(address) => *address,
                None => 0,
            },
            None => 0,
        }
    }

    /// How many pieces of code there are.
    pub fn pieces(&self) -> usize
        ensures { result ≡ self.now.pieces }
    {
        self.pieces
    }

    /// How many member words each monitor has.
    pub fn words(&self, alloc: Global) -> Result<Vec<u32>, AllocError>
        ensures { IfOk result (λ v. v.items ≡ layouts.words_in self.now) }
    {
        let mut words = Vec::new(alloc);
        let monitors = &self.monitors;
        for place in monitors {
            words.push(place.words)?;
        }
        Ok(words)
    }
}

// The words of a member.
fn member_size(member: MemberType) -> u32
    ensures { result ≡ member_words member }
{
    match member {
        MemberType::Variable(_) | MemberType::Condition => 1,
        MemberType::Array(size) => size,
    }
}

// One monitor at an address.
fn place_monitor(alloc: Global, base: u32, monitor: &Monitor) -> Result<MonitorPlace, AllocError>
    requires { base + 2 + words_of monitor.now.members.items < 2 ^ 16 }
    ensures { IfOk result (λ m. view_of m ≡ layouts.monitor_layout base (monitor_of monitor.now)) }
{
    let start = base + 2;
    let mut next = start;
    let mut members = Vec::new(alloc);
    for member in &monitor.members {
        members.push(next)?;
        next += member_size(*member);
    }
    Ok(MonitorPlace {
        link: base,
        members,
        words: next - start,
    })
}

/// Where the words of a program's monitors lie in an image of this version.
pub fn place_as(alloc: Global, checked: &Checked, version: ImageVersion) -> Result<Layout, Refusal>
    ensures layout { IfOk result (λ l. l
        ≡ layouts.layout_of (as_version version (said_by checked.now))) }
    ensures refusal { IfErr result (λ e. e ≡ out_of_memory) }
{
    let program = checked.program();
    let mut monitors = Vec::new(alloc);
    let mut base = version.monitors_base();
    for monitor in &program.monitors {
        let place = place_monitor(alloc, base, monitor)?;
        base = base + 2 + place.words;
        monitors.push(place)?;
    }
    Ok(Layout {
        version,
        monitors,
        pieces: program.procedures.len(),
    })
}

/// Where the words of a program's monitors lie in its image, which is of version 2.
///
/// # Errors
///
/// Want of memory, and nothing else.
pub fn place(alloc: Global, checked: &Checked) -> Result<Layout, Refusal>
    ensures layout { IfOk result (λ l. l ≡ layouts.layout_of (said_by checked.now)) }
    ensures refusal { IfErr result (λ e. e ≡ out_of_memory) }
{
    place_as(alloc, checked, ImageVersion::Two)
}
