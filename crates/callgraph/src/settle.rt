// Procedures whose chains of calls all end.

ghost use Rattle.std.specs.Prelude.{◌≡◌, ℕ, ◌<◌, List, length, slice_index_or, true, false, count_by, Contains};
ghost use Rattle.callgraph.specs.Calls.{IsCall};
ghost use Rattle.callgraph.specs.Graphs.{IsGraph};
ghost use Rattle.callgraph.specs.Marks.{AreSettled};
ghost use Rattle.callgraph.specs.declared.Call.{Call as CallOf};

use crate::graph::Graph;

// Whether one of these procedures is marked.
fn any_marked(procedures: &[u32], marks: &[bool]) -> bool
    ensures some { result ≡ true → (b : ℕ) × Contains procedures.now b
        × (slice_index_or marks.now b false ≡ true) }
    ensures none { result ≡ false → (b : ℕ) → Contains procedures.now b
        → slice_index_or marks.now b false ≡ false }
{
    for procedure in procedures {
        let number = *procedure as usize;
        if number < marks.len() && marks[number] {
            return true;
        }
    }
    false
}

impl Graph {
    // Unmarks a procedure that calls no marked one, and says whether it did.
    pub(crate) fn settle(&self, procedure: usize, marks: &mut [bool]) -> bool
        ensures fewer { result ≡ true → count_by (λ m. m) marks.new < count_by (λ m. m) marks.old }
        ensures same { result ≡ false → marks.new ≡ marks.old }
        ensures settled { (calls : List CallOf) → IsGraph calls self.now
            → length marks.old ≡ length self.now.rows.items
            → AreSettled calls marks.old → AreSettled calls marks.new }
        ensures calls_marked { result ≡ false → (calls : List CallOf) → IsGraph calls self.now
            → slice_index_or marks.old procedure false ≡ true
            → (b : ℕ) × IsCall calls procedure b × (slice_index_or marks.old b false ≡ true) }
    {
        if procedure >= marks.len() || !marks[procedure] {
            return false;
        }
        if any_marked(self.callees(procedure), marks) {
            return false;
        }
        marks[procedure] = false;
        true
    }

    // Unmarks procedures that call no marked one, each of them looked at once, and says whether there was one.
    pub(crate) fn sweep(&self, marks: &mut [bool]) -> bool
        requires { length marks.old ≡ length self.now.rows.items }
        ensures fewer { result ≡ true → count_by (λ m. m) marks.new < count_by (λ m. m) marks.old }
        ensures same { result ≡ false → marks.new ≡ marks.old }
        ensures settled { (calls : List CallOf) → IsGraph calls self.now
            → AreSettled calls marks.old → AreSettled calls marks.new }
        ensures call_marked { result ≡ false → (calls : List CallOf) → IsGraph calls self.now
            → (a : ℕ)
            → slice_index_or marks.old a false ≡ true
            → (b : ℕ) × IsCall calls a b × (slice_index_or marks.old b false ≡ true) }
    {
        let mut swept = false;
        for number in 0..marks.len() {
            if self.settle(number, marks) {
                swept = true;
            }
        }
        swept
    }
}
