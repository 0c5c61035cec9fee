// What names mean where they stand.

ghost use Rattle.std.specs.Prelude.{◌≡◌, ◌<◌, ◌+◌, Option, IfOk, length, map, slice_get};
ghost use Rattle.syntax.specs.Tree.{MonitorTree};
ghost use Rattle.syntax.specs.View.{name_of, parameter_of, local_of, member_of};
ghost use Rattle.types.specs.Scope.{Scope, meaning, local_meaning};
ghost use Rattle.types.specs.Standings.{meaning_of, HasMembers, IsMembers, IsLocals, IsNameScope, member_in};

use crate::kinds::{local_kind, member_kind};
use crate::table::Table;
use program::{Member, MemberType, ValueType};
use std::alloc::{AllocError, Global};
use syntax::{Local, Name, Parameter};

/// What a variable's name means.
#[derive(Clone, Copy)]
pub enum Meaning {
    /// Nothing.
    Nothing,
    /// A parameter or a local, and its type.
    Local(u32, ValueType),
    /// A member of the own monitor, and its type.
    Member(Member, MemberType),
}

/// The members of a monitor.
#[derive(Drop)]
pub struct Members<'a> {
    /// Their names.
    pub names: Table<'a>,
    /// Their types.
    pub kinds: Vec<MemberType>,
}

/// The monitor that a procedure or a RECOVER part belongs to.
#[derive(Clone, Copy)]
pub struct Own<'s, 'a> {
    /// Its number.
    pub monitor: u32,
    /// Its members.
    pub members: &'s Members<'a>,
}

/// The names in scope of a procedure, a RECOVER part or MAIN.
#[derive(Drop)]
pub struct NameScope<'s, 'a> {
    /// The names of its parameters and locals.
    pub locals: Table<'a>,
    /// Their types.
    pub kinds: Vec<ValueType>,
    /// Its monitor, where it has one.
    pub own: Option<Own<'s, 'a>>,
}

impl<'a> Members<'a> {
    /// The names and types of these members.
    pub fn new(alloc: Global, members: &[syntax::Member<'a>]) -> Result<Members<'a>, AllocError>
        requires { length members.now < u32.MAX }
        ensures { IfOk result (λ m. HasMembers (map member_of members.now) m) }
    {
        let mut names = Table::new(alloc);
        let mut kinds = Vec::new(alloc);
        for member in members {
            names.declare(member.name)?;
            kinds.push(member_kind(member.kind))?;
        }
        Ok(Members { names, kinds })
    }
}

impl<'s, 'a> NameScope<'s, 'a> {
    /// The names in scope of a piece of these parameters and locals, in this monitor.
    pub fn new(
        alloc: Global,
        parameters: &[Parameter<'a>],
        locals: &[Local<'a>],
        own: Option<Own<'s, 'a>>,
    ) -> Result<NameScope<'s, 'a>, AllocError>
        requires { length parameters.now + length locals.now < u32.MAX }
        ensures locals { IfOk result
            (λ st. IsLocals (map parameter_of parameters.now) (map local_of locals.now) st) }
        ensures own { IfOk result (λ st. st.own ≡ own.entry) }
    {
        let mut table = Table::new(alloc);
        let mut kinds = Vec::new(alloc);
        for parameter in parameters {
            table.declare(parameter.name)?;
            kinds.push(local_kind(parameter.kind))?;
        }
        for local in locals {
            table.declare(local.name)?;
            kinds.push(local_kind(local.kind))?;
        }
        Ok(NameScope {
            locals: table,
            kinds,
            own,
        })
    }
}

impl Own<'_, '_> {
    // What a name means among the members.
    fn member(&self, name: Name<'_>) -> Meaning
        ensures { (t : MonitorTree) → IsMembers t self.now.members.now
            → meaning_of result ≡ member_in self.now.monitor t (name_of name.entry) }
    {
        let Some(number) = self.members.names.find(name) else {
            return Meaning::Nothing;
        };
        match self.members.kinds.get(number as usize) {
            Some(kind) => {
                let member = Member {
                    monitor: self.monitor,
                    number,
                };
                Meaning::Member(member, *kind)
            }
            None => Meaning::Nothing,
        }
    }
}

impl NameScope<'_, '_> {
    // What a parameter or local of this number is.
    fn local(&self, slot: u32) -> Meaning
        ensures { meaning_of result ≡ local_meaning slot (slice_get self.now.kinds.items slot) }
    {
        match self.kinds.get(slot as usize) {
            Some(kind) => Meaning::Local(slot, *kind),
            None => Meaning::Nothing,
        }
    }

    /// What a variable's name means: it is sought among the parameters and locals, then among the members of the own
    /// monitor.
    pub fn meaning(&self, name: Name<'_>) -> Meaning
        ensures { (s : Scope) → IsNameScope s self.now
            → meaning_of result ≡ meaning s (name_of name.entry) }
    {
        if let Some(slot) = self.locals.find(name) {
            return self.local(slot);
        }
        match &self.own {
            Some(own) => own.member(name),
            None => Meaning::Nothing,
        }
    }
}
