ghost use Rattle.std.specs.Prelude.{◌≡◌, ◌≤◌, ◌<◌, Some, None};
ghost use Rattle.locals.specs.Steps.{local_step, local_after};

use crate::local::Local;
use isa::Image;

/// Takes local steps of thread `t` until the next one isn't local or the budget is used. Answers where the thread has
/// come, and how many steps it took.
pub fn run_local(image: &Image, t: u32, local: Local, budget: u32) -> (Local, u32)
    ensures reached { local_after image.now t result.1 local ≡ Some result.0 }
    ensures within { result.1 ≤ budget }
    ensures whole { result.1 < budget → local_step image.now t result.0 ≡ None }
{
    let mut local = local;
    let count = local.run(image, t, budget);
    (local, count)
}
