ghost use Rattle.std.specs.Prelude.{◌≡◌, is_some, IfOk, IfErr};
ghost use Rattle.runner.specs.Logs.{outside_of};
ghost use Rattle.runner.specs.Reports.{IsReport, CanFail};
ghost use Rattle.runner.specs.Seeds.{IsBySeed};

use crate::drawing::{Outside, run_drawn};
use crate::fault::RunFault;
use crate::naming::RunName;
use crate::report::Report;
use crate::running::report_run;
use crate::share::PARTS;
use crate::shared::Shared;
use isa::Image;
use rand_core::SeedableRng;
use rand_xoshiro::SplitMix64;
use std::alloc::Global;
use std::marker::Brand;
use std::sync::ledger::Blank;

/// Runs an image on the calling thread, within a limit of steps, from 0 to 2^32 - 1, in an order that follows from a
/// seed.
///
/// Before each entry it draws the thread that makes it among those that can move: of those, by rising number, the one
/// at the place, from 0, that SplitMix64's next number has modulo how many there are. One whose entry would pass the
/// limit is passed over from then on, and one that a held bucket is in the way of until an entry is made; and then it
/// draws anew. The run ends where there is no thread to be drawn. So the same seed gives the same log, on each machine.
///
/// Where `strays` is `Some(n)` with n from 1, some entries are wakes from outside, of a thread that sleeps. Each time
/// that there is a thread to be drawn, the generator's next number comes first. Where that is a multiple of n, some
/// thread sleeps, and the steps so far are fewer than the limit, no thread is drawn that can move; the entry wakes, of
/// those that sleep, by rising number, the one at the place that the number behind has modulo how many there are. With
/// `None` and with `Some(0)` there are no such entries and no such numbers.
///
/// At most `kills` entries are kills, of threads that live: that were made, and aren't dying. Where it isn't 0, the
/// generator's first number has an e from 1 to 12, which is 1 more than what it has modulo 12. Each time that there is a
/// thread to be drawn, no wake was made in its place, and there were fewer kills, the next number comes before that
/// which draws it. Where it is a multiple of 2^e, some thread lives and wasn't passed over for good, and the steps so
/// far are fewer than the limit, the entry kills, of those threads, by rising number, the one at the place that the
/// number behind has modulo how many there are. With 0 there are no such entries and no such numbers.
///
/// Refuses only with `Memory` and with `Broken`, as `run_in_order` does; the log that leads to a broken step may have
/// as much from outside.
pub fn run_by_seed(
    alloc: Global,
    image: &Image,
    limit: u32,
    seed: u64,
    strays: Option<u32>,
    kills: u32,
) -> Result<Report, RunFault>
    ensures ok { IfOk result (λ report. IsReport image.now (outside_of (is_some strays) kills) limit report) }
    ensures seeded { IfOk result (λ report. IsBySeed image.now strays kills limit seed report.log.items) }
    ensures err { IfErr result (λ fault. CanFail image.now (outside_of (is_some strays) kills) limit fault) }
{
    run_as::<Brand>(
        alloc,
        image,
        limit,
        Blank::new(u64::from(PARTS)),
        seed,
        strays,
        kills,
    )
}

fn run_as<J: RunName>(
    alloc: Global,
    image: &Image,
    limit: u32,
    blank: Blank,
    seed: u64,
    strays: Option<u32>,
    kills: u32,
) -> Result<Report, RunFault>
    requires image { image.now ≡ J.program }
    requires strays { is_some strays ≡ J.outside.strays }
    requires kills { kills ≡ J.outside.kills }
    requires limit { limit ≡ J.limit }
    requires blank { (blank.name ≡ J.name) × (blank.parts ≡ J.parts) × (J.parts ≡ 1024) }
    ensures ok { IfOk result (λ report. IsReport J.program J.outside J.limit report) }
    ensures seeded { IfOk result (λ report. IsBySeed J.program strays kills J.limit seed report.log.items) }
    ensures err { IfErr result (λ fault. CanFail J.program J.outside J.limit fault) }
{
    let Ok(mut shared) = Shared::<J>::new(alloc, image, limit, blank) else {
        return Err(RunFault::Memory);
    };
    let Some(mut share) = shared.share() else {
        unreachable!()
    };
    let mut generator = SplitMix64::seed_from_u64(seed);
    let outside = Outside::new(strays, kills, &mut generator);
    let done = run_drawn(&mut shared, image, &mut share, &mut generator, outside);
    report_run(alloc, shared, done)
}
