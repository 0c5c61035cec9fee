ghost use Rattle.piece_machine.specs.PieceDetermined.{PiecesOpenSo, PieceStepsSo, PieceBreaksSo, PieceRefusesSo};
ghost use Rattle.piece_machine.specs.PieceDetermined.{TakesSo, PieceStraysSo, PieceStrayRefusedSo, PieceKillsSo};
ghost use Rattle.piece_machine.specs.PieceDetermined.{PieceKillRefusedSo};
ghost use Rattle.piece_machine.specs.PieceFronts.{PiecesRunSo};
ghost use Rattle.piece_machine.specs.PieceTaken.{TakenSo};

/// The step of a machine in pieces as a function (`piece_of`) is one of the relation, in which wakes and moves may choose
/// any sleepers, and keeps what always holds; it is refused exactly where the relation has none. So is what comes from
/// outside: a wake exactly where the thread doesn't sleep, a kill exactly where no such thread was made. And a run of its
/// own steps is a run of the relation, step by step, with as many buckets.
pub fn functions_are_steps()
    ensures opening { PiecesOpenSo }
    ensures cases { TakenSo }
    ensures step { PieceStepsSo }
    ensures broken { PieceBreaksSo }
    ensures cannot_move { PieceRefusesSo }
    ensures can_move { TakesSo }
    ensures stray { PieceStraysSo }
    ensures no_stray { PieceStrayRefusedSo }
    ensures kill { PieceKillsSo }
    ensures no_kill { PieceKillRefusedSo }
    ensures runs { PiecesRunSo }
{}
