//! Operators that begin to be evaluated.
ghost use Rattle.std.specs.Prelude.{◌≡◌, ◌<◌, IfOk};
ghost use Rattle.eo_term.specs.Arguments.{arguments_of, count_of};
ghost use Rattle.eo_term.specs.Growth.{tree_in};
ghost use Rattle.eo_term.specs.Terms.{arity, HasArity};
ghost use Rattle.eo_term.specs.Tree.{Op};
ghost use Rattle.eo_term.specs.declared.OpCode.TheVariants as code;
ghost use Rattle.eo_type.specs.Known.{Extends};
ghost use Rattle.eo_eval.specs.Ready.{Goes, Ready, outcome_from};
ghost use Rattle.eo_stack.specs.declared.stack.Control.TheVariants as next;

use crate::machine::Machine;
use eo_sig::Signature;
use eo_stack::{Control, Frame};
use eo_term::{Id, OpCode, OpName, Table};
use eo_type::Types;
use std::alloc::AllocError;

impl Machine {
    /// An operator or a program begins to be evaluated.
    pub(crate) fn enter_op(
        &mut self,
        sig: &Signature,
        table: &mut Table,
        types: &mut Types,
        id: Id,
        code: OpCode,
        left: u32,
    ) -> Result<Control, AllocError>
        requires ready { Ready sig.now table.old types.old self.old (next.Eval id left) }
        requires operator { Op code (arguments_of (tree_in table.old id)) ≡ tree_in table.old id }
        requires arity { HasArity code (count_of (arguments_of (tree_in table.old id))) }
        ensures goes { IfOk result (Goes sig.now table.new types.new self.new (outcome_from sig.now table.old self.old
            (next.Eval id left))) }
        ensures extends { Extends sig.now table.old types.old table.new types.new }
    {
        match code {
            OpCode::Builtin(op) => self.enter_builtin(sig, table, types, id, op, left),
            OpCode::Prog(_) => self.enter_parts(sig, table, types, id, left),
        }
    }

    // An operator of the language begins to be evaluated.
    fn enter_builtin(
        &mut self,
        sig: &Signature,
        table: &mut Table,
        types: &mut Types,
        id: Id,
        op: OpName,
        left: u32,
    ) -> Result<Control, AllocError>
        requires ready { Ready sig.now table.old types.old self.old (next.Eval id left) }
        requires operator { Op (code.Builtin op) (arguments_of (tree_in table.old id)) ≡ tree_in table.old id }
        requires count { count_of (arguments_of (tree_in table.old id)) ≡ arity op }
        ensures goes { IfOk result (Goes sig.now table.new types.new self.new (outcome_from sig.now table.old self.old
            (next.Eval id left))) }
        ensures extends { Extends sig.now table.old types.old table.new types.new }
    {
        let part = table.arg(id, 0);
        match op {
            OpName::Ite => self.begin(
                sig,
                table,
                types,
                id,
                Frame::Choice { id, left },
                part,
                left,
            ),
            OpName::Requires => self.begin(
                sig,
                table,
                types,
                id,
                Frame::RequireLeft { id, left },
                part,
                left,
            ),
            OpName::IsEq => self.begin(
                sig,
                table,
                types,
                id,
                Frame::EqLeft { id, left },
                part,
                left,
            ),
            OpName::IsOk => self.begin(sig, table, types, id, Frame::Tested { id }, part, left),
            _ => self.enter_parts(sig, table, types, id, left),
        }
    }
}
