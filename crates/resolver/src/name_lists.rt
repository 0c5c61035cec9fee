// What the things of a unit are called.

ghost use Rattle.std.specs.Prelude.{◌≡◌, IfOk, map};
ghost use Rattle.program.specs.Names.{monitor_naming_of, naming_of};
ghost use Rattle.syntax.specs.View.{member_of, name_of};
ghost use Rattle.syntax.specs.Whole.{unit_of};
ghost use Rattle.types.specs.Resolved.{naming};

use program::{MonitorNames, Names};
use std::alloc::{AllocError, Global};
use syntax::{Member, Monitor, Unit};

// The names of members.
fn member_names<'a>(alloc: Global, members: &[Member<'a>]) -> Result<Vec<&'a [u8]>, AllocError>
    ensures { IfOk result (λ x. map (λ n. n.now) x.items
        ≡ map (λ m. m.name.text) (map member_of members.now)) }
{
    let mut names = Vec::new(alloc);
    for member in members {
        names.push(member.name.text)?;
    }
    Ok(names)
}

// The names of a monitor.
fn monitor_names<'a>(alloc: Global, tree: &Monitor<'a>) -> Result<MonitorNames<'a>, AllocError>
    ensures { IfOk result (λ x. monitor_naming_of x ≡ record {
      name = (name_of tree.now.name).text;
      members = map (λ m. m.name.text) (map member_of tree.now.members.items);
    }) }
{
    let members = member_names(alloc, &tree.members)?;
    Ok(MonitorNames {
        name: tree.name.text,
        members,
    })
}

/// What the things of a unit are called. Only memory can run out.
pub fn names<'a>(alloc: Global, unit: &Unit<'a>) -> Result<Names<'a>, AllocError>
    ensures { IfOk result (λ x. naming_of x ≡ naming (unit_of unit.now)) }
{
    let mut monitors = Vec::new(alloc);
    for tree in &unit.monitors {
        monitors.push(monitor_names(alloc, tree)?)?;
    }
    Ok(Names { monitors })
}
