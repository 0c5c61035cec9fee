ghost use Rattle.std.specs.Prelude.{ℕ, ℤ, List};
ghost use Rattle.proof_thread.specs.Builds.{IsBuild, IsFollowed, IsHeld, IsSettled};
ghost use Rattle.proof_thread.specs.Evaluation.{Evaluates, IsEvaluated};
ghost use Rattle.proof_thread.specs.Following.{Build};
ghost use Rattle.proof_thread.specs.Deferrals.{MarkedImage};
ghost use Rattle.locals.specs.declared.frame.Locals.{Locals};
ghost use Rattle.meaning.specs.Values.{Variables};
ghost use Rattle.program.specs.Scope.{Scope};

/// The code of an expression leads a thread to the expression's value, or into its first fault, from any place, with
/// any operands beneath, as long as the variables of the own monitor don't change. Handles are those of so many
/// processes that were `made`.
pub fn expressions_evaluate()
    ensures { (image : MarkedImage) (made t : ℕ) (s : Scope) (v : Variables) (values : List ℤ)
        (l : Locals)
        → IsEvaluated made s v values l → Evaluates image made t s v values l }
{}

/// Code goes as its process goes: a thread that stands for a process comes, within a bounded number of steps, to the
/// step that does what the process offers, and then stands for the process after it, or to the beginning of the
/// template that does it: ENTER with what comes behind it, in the body or in a RECOVER part, EXIT, WAIT, NOTIFY,
/// BROADCAST. What the process offers depends on the variables of its own monitor alone, which it holds.
pub fn code_goes_as_its_process()
    ensures goes { (b : Build) → IsBuild b → IsFollowed b }
    ensures settles { (b : Build) → IsBuild b → IsSettled b }
    ensures holds { (b : Build) → IsBuild b → IsHeld b }
{}
