//! A table that a test holds.
ghost use Rattle.std.specs.Prelude.{◌≡◌, ◌<◌, ◌≤◌, length, All, IsTrue, IfOk};
ghost use Rattle.eo_base.specs.Characters.{AreCharacters};
ghost use Rattle.eo_term.specs.Terms.{PartsBelow, TextsBelow, IsPlain, IsProper, HasArity};
ghost use Rattle.eo_term.specs.Growth.{Grows};

use eo_term::{Id, Node, OpCode, ParamSet, TRUE, Table, TermRefused, TextId};
use std::alloc::Global;
use std::marker::Model;
use std::test::Fail;

/// A table of terms.
///
/// A call that gets a term or a text of another table fails.
#[derive(Drop)]
pub(super) struct World {
    table: Table,
}

impl Model for World {
    ghost use Rattle.std.specs.Prelude.{ℕ, length};

    ghost Value = { ℕ };

    ghost view = { λ a. length a.table.trees };
}

impl World {
    /// A table with no more than the first terms.
    pub(super) fn new(alloc: Global) -> Result<World, Fail> {
        Ok(World {
            table: Table::new(alloc)?,
        })
    }

    /// How many terms there are.
    pub(super) fn len(&self) -> usize {
        self.table.len()
    }

    /// The term with this root, which is no operator and no bit string.
    pub(super) fn make(&mut self, node: Node) -> Result<Id, Fail> {
        Ok(make_term(&mut self.table, node)??)
    }

    /// Whether the term with this root is too tall.
    pub(super) fn is_too_tall(&mut self, node: Node) -> Result<bool, Fail> {
        Ok(matches!(make_term(&mut self.table, node)?, Err(TermRefused::Tall)))
    }

    /// The longest bit string of ones.
    pub(super) fn ones(&mut self) -> Result<Id, Fail> {
        let node = Node::Bits {
            width: 128,
            value: u128::MAX,
        };
        Ok(self.table.intern(node)?)
    }

    /// An operator or a program over these arguments.
    pub(super) fn apply(&mut self, code: OpCode, args: &[Id]) -> Result<Id, Fail>
        requires { HasArity code (length args.now) }
    {
        Ok(apply_op(&mut self.table, code, args)??)
    }

    /// Whether an operator or a program over these arguments is too tall.
    pub(super) fn is_op_too_tall(&mut self, code: OpCode, args: &[Id]) -> Result<bool, Fail>
        requires { HasArity code (length args.now) }
    {
        Ok(matches!(
            apply_op(&mut self.table, code, args)?,
            Err(TermRefused::Tall)
        ))
    }

    /// The text with these characters.
    pub(super) fn text(&mut self, chars: &[u32]) -> Result<TextId, Fail>
        requires { AreCharacters chars.now }
    {
        Ok(self.table.text(chars)?)
    }

    /// Whether the text has these characters.
    pub(super) fn is_text(&self, text: TextId, chars: &[u32]) -> Result<bool, Fail> {
        if text.place() >= self.table.mark().texts() {
            return Err(Fail::new("no text of the table"));
        }
        Ok(self.table.chars(text) == chars)
    }

    /// The root of a term.
    pub(super) fn node(&self, id: Id) -> Result<Node, Fail> {
        let id = live(&self.table, id)?;
        Ok(self.table.node(id))
    }

    /// The height of a term, whether it is a value, and whether it is closed.
    pub(super) fn facts_of(&self, id: Id) -> Result<(u32, bool, bool), Fail> {
        let id = live(&self.table, id)?;
        let table = &self.table;
        Ok((table.height(id), table.is_value(id), table.is_closed(id)))
    }

    /// Whether a term has no operator, whether it may be a declared type, and whether it uses only
    /// parameter 3.
    pub(super) fn kinds(&self, id: Id) -> Result<[bool; 3], Fail> {
        let id = live(&self.table, id)?;
        let third = ParamSet::of(3);
        Ok([
            self.table.is_plain(id),
            self.table.may_be_type(id),
            self.table.uses_only(&third, id),
        ])
    }

    /// The parameters that occur in a term.
    pub(super) fn parameters(&self, id: Id) -> Result<ParamSet, Fail> {
        let id = live(&self.table, id)?;
        Ok(self.table.parameters(id))
    }

    /// The parameters that occur in a term outside every operator.
    pub(super) fn open_parameters(&self, id: Id) -> Result<ParamSet, Fail> {
        let id = live(&self.table, id)?;
        Ok(self.table.open_parameters(id))
    }

    /// A program over two terms, carried back to before it was made, with a term that it does not
    /// need.
    pub(super) fn carry_back(&mut self) -> Result<Id, Fail> {
        Ok(carry_in(&mut self.table)?)
    }

    /// How many texts there are.
    pub(super) fn texts(&self) -> usize {
        self.table.mark().texts()
    }

    /// The text of a string, carried back to before it was made, with a string that it does not need.
    pub(super) fn carried_text(&mut self) -> Result<TextId, Fail> {
        carried_text(&mut self.table)
    }

    /// How many terms there are before and after a text's term is released.
    pub(super) fn release_text(&mut self) -> Result<(usize, usize), Fail> {
        Ok(release_in(&mut self.table)?)
    }
}

// The term, if it is one of the table.
fn live(table: &Table, id: Id) -> Result<Id, Fail>
    ensures { IfOk result (λ i. i < length table.now.trees) }
{
    if id.place() >= table.len() {
        return Err(Fail::new("no term of the table"));
    }
    Ok(id)
}

// Whether the root is that of a term over the table, which is no operator and no bit string.
fn is_fit(table: &Table, node: &Node) -> bool
    ensures plain { IsTrue result → IsPlain node.now }
    ensures parts { IsTrue result → PartsBelow (length table.now.trees) node.now }
    ensures texts { IsTrue result → TextsBelow (length table.now.texts) node.now }
    ensures proper { IsTrue result → IsProper node.now }
{
    let count = table.len();
    let texts = table.mark().texts();
    match *node {
        Node::Con(_) => true,
        Node::Num(_) => true,
        Node::Bits { .. } => false,
        Node::Str(text) => text.place() < texts,
        Node::Par(i) => i < 64,
        Node::Var { name, ty } => name.place() < texts && ty.place() < count,
        Node::App { fun, arg } => fun.place() < count && arg.place() < count,
        Node::Arr { from, to } => from.place() < count && to.place() < count,
        Node::Qar { ty, to, .. } => ty.place() < count && to.place() < count,
        Node::Op { .. } => false,
    }
}

// The term with this root, if it is one over the table.
fn make_term(table: &mut Table, node: Node) -> Result<Result<Id, TermRefused>, Fail> {
    if !is_fit(table, &node) {
        return Err(Fail::new("no root over the table"));
    }
    Ok(table.intern(node))
}

// Whether each term is one of the table.
fn are_live(table: &Table, ids: &[Id]) -> bool
    ensures { IsTrue result → All (λ i. i < length table.now.trees) ids.now }
{
    let count = table.len();
    ids.iter().all(|id| id.place() < count)
}

// An operator or a program over these arguments, if they are of the table.
fn apply_op(table: &mut Table, code: OpCode, args: &[Id]) -> Result<Result<Id, TermRefused>, Fail>
    requires { HasArity code (length args.now) }
{
    if !are_live(table, args) {
        return Err(Fail::new("no term of the table"));
    }
    Ok(table.intern_op(code, args))
}

// A program over two terms that it needs, after a term that it does not need.
fn make_more(table: &mut Table, old: Id) -> Result<Id, TermRefused>
    requires { old < length table.old.trees }
    ensures live { IfOk result (λ i. i < length table.new.trees) }
    ensures grows { Grows table.old table.new }
{
    let part = table.intern(Node::Arr { from: old, to: old })?;
    let _waste = table.intern(Node::App {
        fun: part,
        arg: old,
    })?;
    table.intern_op(OpCode::Prog(7), &[part, old])
}

fn carry_in(table: &mut Table) -> Result<Id, TermRefused> {
    let mark = table.mark();
    let whole = make_more(table, TRUE)?;
    Ok(table.carry(mark, whole)?)
}

// A string, after one that it does not need.
fn make_strings(table: &mut Table) -> Result<Id, TermRefused>
    ensures live { IfOk result (λ i. i < length table.new.trees) }
    ensures grows { Grows table.old table.new }
{
    let waste = table.text(&[97])?;
    table.intern(Node::Str(waste))?;
    let text = table.text(&[98])?;
    table.intern(Node::Str(text))
}

fn carried_text(table: &mut Table) -> Result<TextId, Fail> {
    let mark = table.mark();
    let string = make_strings(table)?;
    let kept = table.carry(mark, string)?;
    match table.node(kept) {
        Node::Str(text) => Ok(text),
        _ => Err(Fail::new("no string")),
    }
}

fn release_in(table: &mut Table) -> Result<(usize, usize), TermRefused> {
    let mark = table.mark();
    let text = table.text(&[104, 105])?;
    table.intern(Node::Str(text))?;
    let before = table.len();
    table.release(mark);
    Ok((before, table.len()))
}
