ghost use Rattle.std.specs.Prelude.{◌≡◌, ◌++◌, OnOk, List, ℕ};
ghost use Rattle.program.specs.Scope.{recover_of};
ghost use Rattle.program.specs.Views.{program_of};
ghost use Rattle.meaning.specs.Processes.{callers_monitors, monitor_of_role};
ghost use Rattle.source_offers.specs.Frames.{callers_of};

use crate::frame::Frame;
use program::{Program, Role};
use std::alloc::AllocError;

/// The piece of a monitor's RECOVER part, where it has one.
pub fn recover_part(program: &Program, monitor: u32) -> Option<u32>
    ensures { result ≡ recover_of (program_of program.now) monitor }
{
    match program.monitors.get(monitor as usize) {
        None => None,
        Some(monitor) => monitor.recover,
    }
}

/// Adds the monitor that a procedure of this role entered, where it is an ENTRY procedure.
pub fn add_monitor(monitors: &mut Vec<u32>, role: Role) -> Result<(), AllocError>
    ensures { OnOk result ((more : List ℕ)
        → monitors.new.items ++ more ≡ monitors.old.items ++ monitor_of_role role more) }
{
    if let Role::Entry(monitor) = role {
        monitors.push(monitor)?;
    }
    Ok(())
}

/// Adds the monitors of the ENTRY procedures among these, the last one's first.
pub fn add_monitors(monitors: &mut Vec<u32>, callers: &[Frame]) -> Result<(), AllocError>
    ensures { OnOk result (monitors.new.items
        ≡ monitors.old.items ++ callers_monitors (callers_of callers.now)) }
{
    match callers {
        [] => Ok(()),
        [below @ .., top] => {
            add_monitor(monitors, top.role)?;
            add_monitors(monitors, below)?;
            Ok(())
        }
    }
}
