ghost use Rattle.machine.specs.Determined.{OpensSo, StepsSo, BreaksSo, RefusesSo, MovesSo, StraysSo};
ghost use Rattle.machine.specs.Determined.{StrayRefusedSo, KillsSo, KillRefusedSo};
ghost use Rattle.machine.specs.FrontRuns.{FrontsRunSo};

/// What `Machine` keeps at the start stands for the opening state, and each of its steps is one step of the machine's
/// relation, in which wakes and moves may choose any sleepers. A step is refused exactly where the relation has none.
/// A wake from outside is a step of the relation too, and is refused exactly where the thread doesn't sleep; and so is
/// a kill, which is refused exactly where no such thread was made. And a run of its own steps is a run of the relation,
/// step by step.
pub fn steps_are_machine_steps()
    ensures opening { OpensSo }
    ensures step { StepsSo }
    ensures broken { BreaksSo }
    ensures cannot_move { RefusesSo }
    ensures can_move { MovesSo }
    ensures stray { StraysSo }
    ensures no_stray { StrayRefusedSo }
    ensures kill { KillsSo }
    ensures no_kill { KillRefusedSo }
    ensures runs { FrontsRunSo }
{}
