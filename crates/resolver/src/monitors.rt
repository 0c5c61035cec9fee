// Monitors.

ghost use Rattle.std.specs.Prelude.{◌≡◌, ◌≤◌, ◌+◌, IfOk, length, map, option_map};
ghost use Rattle.program.specs.Views as p;
ghost use Rattle.syntax.specs.View.{member_of, recover_of};
ghost use Rattle.syntax.specs.Whole.{unit_of};
ghost use Rattle.types.specs.Kinds.{member_kinds};
ghost use Rattle.types.specs.Resolved.{monitors_from};
ghost use Rattle.callees.specs.Names.{IsCallees};

use callees::Callees;
use program::{MemberType, Monitor};
use std::alloc::{AllocError, Global};
use syntax::{Member, Recover, Unit};
use types::member_kind;

// The types of members.
fn members(alloc: Global, trees: &[Member<'_>]) -> Result<Vec<MemberType>, AllocError>
    ensures { IfOk result (λ x. x.items ≡ member_kinds (map member_of trees.now)) }
{
    let mut kinds = Vec::new(alloc);
    for tree in trees {
        kinds.push(member_kind(tree.kind))?;
    }
    Ok(kinds)
}

// A RECOVER part is the piece of this number, where there is one.
fn recover(tree: &Option<Recover<'_>>, number: u32) -> Option<u32>
    ensures { result ≡ option_map (λ _. number) (recover_of tree.now) }
{
    match tree {
        Some(_) => Some(number),
        None => None,
    }
}

// A monitor, of which the first piece has this number.
fn monitor(
    alloc: Global,
    tree: &syntax::Monitor<'_>,
    first_piece: u32,
) -> Result<Monitor, AllocError>
    requires { first_piece + length tree.now.procedures.items ≤ u32.MAX }
    ensures { IfOk result (λ x. p.monitor_of x ≡ record {
      members = member_kinds (map member_of tree.now.members.items);
      recover = option_map (λ _. first_piece
          + length tree.now.procedures.items) (recover_of tree.now.recover);
    }) }
{
    let members = members(alloc, &tree.members)?;
    let behind = first_piece + tree.procedures.len() as u32;
    Ok(Monitor {
        members,
        recover: recover(&tree.recover, behind),
    })
}

/// The monitors of a unit.
pub fn monitors(
    alloc: Global,
    unit: &Unit<'_>,
    callees: &Callees<'_, '_>,
) -> Result<Vec<Monitor>, AllocError>
    requires { IsCallees (unit_of unit.now) callees.now }
    ensures { IfOk result (λ x. map p.monitor_of x.items
        ≡ monitors_from (unit_of unit.now) 0 (unit_of unit.now).monitors) }
{
    let mut monitors = Vec::new(alloc);
    for (number, tree) in unit.monitors.iter().enumerate() {
        let first_piece = callees.inner[number].first_piece;
        monitors.push(monitor(alloc, tree, first_piece)?)?;
    }
    Ok(monitors)
}
