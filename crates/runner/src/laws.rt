ghost use Rattle.runner.specs.LogRuns.{StepsSo, LogsSo, RunsSo, MeetsSo, LocallySo};
ghost use Rattle.runner.specs.Orders.{OneLogSo};
ghost use Rattle.runner.specs.Seeds.{OneLogBySeedSo};

/// A legal log is a run of the machine: its own steps, one by one, lead where the log leads, and each run of the
/// machine itself is that of a log. And where a run meets a step that may not be, so does a run of the machine,
/// and local steps of one thread lead there from where the log leads.
pub fn logs_are_machine_runs()
    ensures steps { StepsSo }
    ensures logs { LogsSo }
    ensures runs { RunsSo }
    ensures broken { MeetsSo }
    ensures locally { LocallySo }
{}

/// All reports of one program and one limit whose logs are in order have one log.
pub fn orders_give_one_log()
    ensures { OneLogSo }
{}

/// All runs of one program by one seed, with one limit, `strays` and `kills`, have one log.
pub fn seeds_give_one_log()
    ensures { OneLogBySeedSo }
{}
