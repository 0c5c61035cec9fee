ghost use Rattle.std.specs.Prelude.{◌≡◌, IfOk, IfErr, IsOk, OnOk};
ghost use Rattle.runner.specs.Logs.{nothing_outside};
ghost use Rattle.runner.specs.Orders.{GoesOn, IsInOrder};
ghost use Rattle.runner.specs.Reports.{IsReport, CanFail};
ghost use Rattle.runner.specs.Rounds.{Idle};
ghost use Rattle.runner.specs.Views.{log_state};

use crate::fault::RunFault;
use crate::naming::RunName;
use crate::report::{Report, report_of};
use crate::rounds::run_rounds;
use crate::share::{PARTS, Share};
use crate::shared::Shared;
use isa::Image;
use std::alloc::Global;
use std::marker::Brand;
use std::sync::ledger::Blank;
use words::Gate;

/// Runs an image on the calling thread, within a limit of steps, from 0 to 2^32 - 1. The gate is passed with a
/// thread's number before each entry of it.
///
/// It makes entries round after round. A round goes through the threads by rising number, those made in the round
/// included, and makes one entry for each that can move; one whose entry would pass the limit is passed over from then
/// on, and one that a held bucket is in the way of as long as the bucket is held. The run ends with a round that makes no
/// entry. No entry comes from outside.
///
/// Refuses only with `Memory` and with `Broken`, where some legal log within the limit leads a thread, within a turn
/// of local steps, to a step that may not be.
pub fn run_in_order<G: Gate>(
    alloc: Global,
    image: &Image,
    limit: u32,
    gate: &G,
) -> Result<Report, RunFault>
    ensures ok { IfOk result (λ report. IsReport image.now nothing_outside limit report) }
    ensures order { IfOk result (λ report. IsInOrder image.now limit report.log.items) }
    ensures err { IfErr result (λ fault. CanFail image.now nothing_outside limit fault) }
{
    run_as::<Brand, G>(alloc, image, limit, Blank::new(u64::from(PARTS)), gate)
}

fn run_as<J: RunName, G: Gate>(
    alloc: Global,
    image: &Image,
    limit: u32,
    blank: Blank,
    gate: &G,
) -> Result<Report, RunFault>
    requires image { image.now ≡ J.program }
    requires limit { limit ≡ J.limit }
    requires blank { (blank.name ≡ J.name) × (blank.parts ≡ J.parts) × (J.parts ≡ 1024) }
    ensures ok { IfOk result (λ report. IsReport J.program J.outside J.limit report) }
    ensures order { IfOk result (λ report. IsInOrder J.program J.limit report.log.items) }
    ensures err { IfErr result (λ fault. CanFail J.program J.outside J.limit fault) }
{
    let Ok(mut shared) = Shared::<J>::new(alloc, image, limit, blank) else {
        return Err(RunFault::Memory);
    };
    let Some(mut share) = shared.share() else {
        unreachable!()
    };
    finish(alloc, shared, image, &mut share, gate)
}

/// Runs on the calling thread, as `run_in_order` does, from where the log leads.
pub fn finish<J: RunName, G: Gate>(
    alloc: Global,
    shared: Shared<J>,
    image: &Image,
    share: &mut Share<J>,
    gate: &G,
) -> Result<Report, RunFault>
    requires image { image.now ≡ J.program }
    ensures ok { IfOk result (λ report. IsReport J.program J.outside J.limit report) }
    ensures order { IfOk result (λ report. GoesOn J.program J.limit shared.log report.log.items) }
    ensures err { IfErr result (λ fault. CanFail J.program J.outside J.limit fault) }
{
    let mut shared = shared;
    let done = run_rounds(&mut shared, image, share, gate);
    report_run(alloc, shared, done)
}

/// What is told of a run whose entries came to this end.
pub fn report_run<J: RunName>(
    alloc: Global,
    shared: Shared<J>,
    done: Result<(), RunFault>,
) -> Result<Report, RunFault>
    requires ok { OnOk done (Idle J.program J.limit (log_state shared)) }
    requires err { IfErr done (λ fault. CanFail J.program J.outside J.limit fault) }
    ensures ok { IfOk result (λ report. IsReport J.program J.outside J.limit report) }
    ensures log { IfOk result (λ report. IsOk done × (report.log.items ≡ shared.log)) }
    ensures err { IfErr result (λ fault. CanFail J.program J.outside J.limit fault) }
{
    done?;
    let (log, last) = shared.into_parts();
    report_of(alloc, log, last).map_err(|_| RunFault::Memory)
}
