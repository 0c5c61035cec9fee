ghost use Rattle.std.specs.Prelude.{◌≡◌, ◌<◌, length};

use crate::failure::Failure;
use isa::Image;
use machine::Machine;
use std::alloc::Global;
use std::io;
use words::BUCKETS;

// The numbers that the machine makes room for.
const ROOM: usize = 2;

/// Prints what the machine of an image has at the start: its threads, whether it has the room that was made, and the
/// words of the monitors' members.
pub fn show_opening<R: Print>(rt: &R, alloc: Global, image: &Image) -> Result<(), Failure> {
    let mut machine = Machine::new(alloc, image, BUCKETS)?;
    machine.make_room(ROOM)?;
    Ok(show_machine(rt, image, &machine)?)
}

fn show_machine<R: Print>(rt: &R, image: &Image, machine: &Machine) -> io::Result<()>
    requires { machine.now.program ≡ image.now }
{
    let threads = machine.threads();
    let has_room = machine.room() >= ROOM;
    let quiet = machine.quiet();
    println!(rt; "  opens with {threads} thread, room {has_room}, quiet {quiet}")?;
    for monitor in 0..image.monitors().len() {
        show_members(rt, image, machine, monitor)?;
    }
    Ok(())
}

// The words of a monitor's members.
fn show_members<R: Print>(
    rt: &R,
    image: &Image,
    machine: &Machine,
    monitor: usize,
) -> io::Result<()>
    requires program { machine.now.program ≡ image.now }
    requires monitor { monitor < length image.now.monitors }
{
    for index in 0..image.monitors()[monitor] {
        let word = machine.var(monitor as u32, index);
        println!(rt; "  member {index} of monitor {monitor}: {word}")?;
    }
    Ok(())
}
