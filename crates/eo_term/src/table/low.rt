//! Terms that are known not to be too tall.
ghost use Rattle.std.specs.Prelude.{◌≡◌, ◌<◌, length, false, All, IfSome, OnErr};
ghost use Rattle.eo_term.specs.Tree.{Con, Op, NoTree, is_tall};
ghost use Rattle.eo_term.specs.Terms.{trees_at, tree_of, PartsBelow, TextsBelow, IsPlain, IsProper, HasArity};
ghost use Rattle.eo_term.specs.Growth.{Grows, IsTerm, Makes};

use super::{Table, TermRefused};
use crate::{BOOL, FALSE, Id, Node, OpCode, TRUE, TYPE};
use std::alloc::AllocError;

impl Table {
    /// The term with this root, as [`Table::intern`] has it, where it is not too tall. `Err` is out
    /// of memory, and the table stays as it is.
    #[inline(always)]
    pub fn intern_low(&mut self, node: Node) -> Result<Id, AllocError>
        requires plain { IsPlain node }
        requires parts { PartsBelow (length self.old.trees) node }
        requires texts { TextsBelow (length self.old.texts) node }
        requires proper { IsProper node }
        requires low { is_tall (tree_of self.old.trees self.old.texts node NoTree) ≡ false }
        ensures makes { Makes self.new result (tree_of self.old.trees self.old.texts node NoTree) }
        ensures err { OnErr result (self.new ≡ self.old) }
        ensures grows { Grows self.old self.new }
    {
        match self.intern(node) {
            Ok(id) => Ok(id),
            Err(TermRefused::Memory(e)) => Err(e),
            Err(TermRefused::Tall) => unreachable!(),
        }
    }

    /// The term that applies an operator or a program, as [`Table::intern_op`] has it, where it is
    /// not too tall. `Err`: out of memory, and the table stays as it is.
    pub fn intern_low_op(&mut self, code: OpCode, args: &[Id]) -> Result<Id, AllocError>
        requires count { HasArity code (length args.now) }
        requires args { All (λ j. j < length self.old.trees) args.now }
        requires low { is_tall (Op code (trees_at self.old.trees args.now)) ≡ false }
        ensures makes { Makes self.new result (Op code (trees_at self.old.trees args.now)) }
        ensures err { OnErr result (self.new ≡ self.old) }
        ensures grows { Grows self.old self.new }
    {
        match self.intern_op(code, args) {
            Ok(id) => Ok(id),
            Err(TermRefused::Memory(e)) => Err(e),
            Err(TermRefused::Tall) => unreachable!(),
        }
    }

    /// The constant of this number. `Err`: out of memory, and the table stays as it is.
    pub fn constant(&mut self, k: usize) -> Result<Id, AllocError>
        ensures makes { Makes self.new result (Con k) }
        ensures err { OnErr result (self.new ≡ self.old) }
        ensures grows { Grows self.old self.new }
    {
        match self.first_constant(k) {
            Some(id) => Ok(id),
            None => self.intern_low(Node::Con(k)),
        }
    }

    // The constant of this number, if it is one of those that each table has: they are never looked up.
    fn first_constant(&self, k: usize) -> Option<Id>
        ensures { IfSome result (λ i. IsTerm self.now (Con k) i) }
    {
        self.laws();
        match k {
            0 => Some(TYPE),
            1 => Some(BOOL),
            2 => Some(TRUE),
            3 => Some(FALSE),
            _ => None,
        }
    }
}
