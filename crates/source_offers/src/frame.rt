ghost use Rattle.std.specs.Prelude.{◌≡◌, ◌++◌, IfOk};
ghost use Rattle.program.specs.Views.{program_of};
ghost use Rattle.meaning.specs.Processes.{opening_frame, with_result, zeros};

use program::{Program, Role, Statement, ValueType};
use std::alloc::{AllocError, Global};

/// A procedure that runs. `frame_of` makes it a frame of the meaning.
#[derive(Drop)]
pub struct Frame<'a> {
    /// Which part of the program it is.
    pub role: Role,
    /// The values of its locals.
    pub locals: Vec<i64>,
    /// What is left of its body: the innermost statements last.
    pub rest: Vec<&'a [Statement]>,
    /// The local that takes the result of what it calls.
    pub into: Option<u32>,
}

// The arguments, and the other locals as they begin.
fn with_zeros(arguments: Vec<i64>, types: &[ValueType]) -> Result<Vec<i64>, AllocError>
    ensures { IfOk result (λ v. v.items ≡ arguments.items ++ zeros types.now) }
{
    let mut locals = arguments;
    for _ in types {
        locals.push(0)?;
    }
    Ok(locals)
}

impl<'a> Frame<'a> {
    ghost use Rattle.source_offers.specs.Frames.{frame_of};

    /// The frame of a procedure that begins with these arguments.
    pub fn new(
        alloc: Global,
        program: &'a Program,
        procedure: u32,
        arguments: Vec<i64>,
    ) -> Result<Frame<'a>, AllocError>
        ensures { IfOk result (λ f. frame_of f
            ≡ opening_frame (program_of program.now) procedure arguments.items) }
    {
        let mut rest = Vec::new(alloc);
        let mut locals = arguments;
        let role = match program.procedures.get(procedure as usize) {
            None => Role::External,
            Some(q) => {
                locals = with_zeros(locals, q.locals.as_slice())?;
                rest.push(q.body.as_slice())?;
                q.role
            }
        };
        Ok(Frame {
            role,
            locals,
            rest,
            into: None,
        })
    }

    /// Puts a value into a local.
    pub fn put(&mut self, slot: Option<u32>, value: i64)
        ensures frame { frame_of self.new ≡ with_result slot value (frame_of self.old) }
        ensures into { self.new.into ≡ self.old.into }
    {
        if let Some(slot) = slot {
            let slot = slot as usize;
            if slot < self.locals.len() {
                self.locals[slot] = value;
            }
        }
    }
}
