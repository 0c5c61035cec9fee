ghost use Rattle.lowering.specs.Pieces.{code_of};
ghost use Rattle.locals.specs.Looks.{look};
ghost use Rattle.machine.specs.ConcretePieces.{is_piece};
ghost use Rattle.machine.specs.FrontRuns.{doing_of};
ghost use Rattle.machine.specs.Runs.{Step};
ghost use Rattle.machine.specs.States.{state_of};
ghost use Rattle.piece_machine.specs.PieceConcrete.{PieceConcrete, kill_piece, pieces_at, stray_piece};
ghost use Rattle.proof_explaining.specs.Events.{whole_of};
ghost use Rattle.machine.specs.declared.event.Entry.{Entry};
ghost use Rattle.machine.specs.declared.event.Event.{Event};
ghost use Rattle.proof_simulation.specs.Explaining.{IsDue};
ghost use Rattle.proof_simulation.specs.Kills.{killed_last};
ghost use Rattle.proof_simulation.specs.Progress.{Progress, opening_progress};
ghost use Rattle.proof_simulation.specs.Strays.{stray_condition};
ghost use Rattle.program.specs.declared.kinds.Member.{Member};
ghost use Rattle.program.specs.Trees.{Program};
ghost use Rattle.program.specs.WellFormed.{WellFormed};
ghost use Rattle.machine.specs.FrontRuns.{EventStep};
ghost use Rattle.runner.specs.Logs.{EntersOutside, EntersOwn, opening};
ghost use Rattle.std.specs.Prelude.{[], ◌≡◌, ◌+◌, ◌++◌, ◌<◌, ◌^◌, false, List, Ok, Some, length, true};
ghost use Rattle.log_simulation.specs.Entries.{ComesTo, entry_steps, is_visible, progress_entry, progress_locally};
ghost use Rattle.log_simulation.specs.Entries.{progress_outside};
ghost use Rattle.log_simulation.specs.Going.{IsKillDue, IsStrayDue};
ghost use Rattle.log_simulation.specs.Verdicts.{SaysOf};
ghost use Rattle.refinement.specs.Pieces.{ExplainedInPieces};
ghost use Rattle.runner.specs.Reports.{IsVerdict};
ghost use Rattle.runner.specs.declared.report.Verdict.{Verdict};

/// What the source has come to behind a legal log of a program's code is a function of the log, entry by entry: each
/// local step, and each shared one that isn't visible, adds the action that it completes by the marks of the code, if
/// it completes one, to what is deferred; a piece behind which its futex call goes on is nothing; behind a visible step, by the request that the thread makes and the value of
/// its event, all that was deferred of its process and the action itself are taken, which are possible. Behind a wake
/// from outside, of a thread that slept on the word of the condition that its process waits on, all that was deferred
/// of the process is taken, and then it waits no longer, which is possible; behind another wake from outside, nothing
/// is. Behind a kill by which a thread begins to die, all that was deferred of its process is taken, and then the kill,
/// which is possible: by it the process has resumed those who wait and don't sleep, if its thread had raised the number
/// of a condition's word and not yet woken who slept on it, and it abandons last the monitor that the thread was just
/// taking or giving up, if the thread owned it. Behind a kill of a thread that is dying or has ended, nothing is.
pub fn progress_follows_logs()
    ensures opens { (p : Program)
        → ComesTo p [] (opening (code_of p)) (opening_progress p) }
    ensures entries { (p : Program) (events : List EventStep) (k k' : PieceConcrete) (e : Entry)
        (g : Progress)
        → ComesTo p events k g
        → (enters : EntersOwn (code_of p) k e k')
        → ComesTo p (events ++ entry_steps e) k'
        (progress_entry p e enters.origin enters.here (state_of k.concrete).word k' g) }
    ensures outside { (p : Program) (events : List EventStep) (k k' : PieceConcrete) (e : Entry)
        (g : Progress)
        → ComesTo p events k g
        → (outside : EntersOutside (code_of p) k e k')
        → ComesTo p (events ++ entry_steps e) k' (progress_outside p e.thread
        (doing_of outside.event.name outside.event.value) (state_of k.concrete).word (whole_of p k') g) }
    ensures strays { (p : Program) (events : List EventStep) (k k' : PieceConcrete) (e : Entry)
        (g : Progress)
        → ComesTo p events k g
        → (outside : EntersOutside (code_of p) k e k') → WellFormed p → length events + 1 < 2 ^ 32
        → stray_piece k e.thread ≡ Ok (k', outside.event) → (c : Member)
        → stray_condition p outside.event.value (g.source.table.waits e.thread) ≡ Some c
        → IsStrayDue p e.thread c g }
    ensures kills { (p : Program) (events : List EventStep) (k k' : PieceConcrete) (e : Entry)
        (g : Progress)
        → ComesTo p events k g
        → (outside : EntersOutside (code_of p) k e k') → WellFormed p → length events + 1 < 2 ^ 32
        → kill_piece (code_of p) k e.thread ≡ Ok (k', outside.event) → outside.event.value ≡ 1
        → IsKillDue p (whole_of p k') e.thread (killed_last p (state_of k.concrete).word e.thread) g }
    ensures due { (p : Program) (events : List EventStep) (k k' : PieceConcrete) (e : Entry)
        (g : Progress)
        → ComesTo p events k g
        → (enters : EntersOwn (code_of p) k e k') → WellFormed p → (event : Event)
        → e.event ≡ Some event → is_piece event.name ≡ false
        → is_visible p (state_of k.concrete).word e.thread (look (code_of p) e.thread enters.here) event.value
        ≡ true
        → length events + e.local + 1 < 2 ^ 32
        → IsDue p (whole_of p k') e.thread (progress_locally p e.thread e.local enters.origin g) }
{}

/// A verdict on a machine says of the run of the program that explains the machine's run: Done, that each process is
/// over; Stuck, that the source is stuck, and what each process waits for that isn't over.
pub fn verdicts_are_the_sources()
    ensures { (p : Program) (steps : List Step) (k : PieceConcrete)
        (e : ExplainedInPieces p (code_of p) steps (pieces_at k)) (verdict : Verdict)
        → IsVerdict k.concrete verdict → SaysOf verdict p e.source }
{}
