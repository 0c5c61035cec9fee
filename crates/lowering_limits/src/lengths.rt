ghost use Rattle.std.specs.Prelude.{◌≡◌, ℕ, [], Option, length};
ghost use Rattle.program.specs.declared.kinds.Member.{Member};
ghost use Rattle.words.specs.declared.version.ImageVersion.{ImageVersion};
ghost use Rattle.program.specs.Trees.{NoPart};
ghost use Rattle.isa.specs.declared.instr.Instr.{Instr};
ghost use Rattle.lowering.specs.declared.mark.Mark.{Mark};
ghost use Rattle.lowering.specs.Locks.{enter_code, exit_code, got_code, leave_code, take_code};
ghost use Rattle.lowering.specs.Locks.{exit_length, leave_length};
ghost use Rattle.lowering.specs.Conditions.{broadcast_code, notify_code, wait_code, wait_length};
ghost use Rattle.lowering.specs.Statements.{Setting, aborted_code, join_all_code};

/// How many instructions each template has. That of JOIN is counted without its handle, and with the fault of a
/// process that aborted.
pub fn template_laws()
    ensures enter { (m e : ℕ) (r : Instr) → length (enter_code m e r) ≡ 61 }
    ensures take { (mark : Mark) (e : ℕ) → length (take_code mark e) ≡ 32 }
    ensures got { (e : ℕ) (r : Instr) → length (got_code e r) ≡ 18 }
    ensures leave { (v : ImageVersion) (mark : Mark) (e : ℕ)
        → length (leave_code v mark e) ≡ leave_length v }
    ensures exit { (v : ImageVersion) (m e : ℕ) → length (exit_code v m e) ≡ exit_length v }
    ensures wait { (v : ImageVersion) (c : Member) (e s : ℕ) (r : Instr)
        → length (wait_code v c e s r) ≡ wait_length v }
    ensures notify { (c : Member) (s : ℕ) → length (notify_code c s) ≡ 8 }
    ensures broadcast { (c : Member) (e s : ℕ) → length (broadcast_code c e s) ≡ 16 }
    ensures join { (c : Setting) (into : Option ℕ) (place : ℕ)
        → length (join_all_code [] into (aborted_code c NoPart) place) ≡ 31 }
{}
