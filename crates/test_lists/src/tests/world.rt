//! Terms, and a signature with constants that spell lists.
ghost use Rattle.std.specs.Prelude.{ℕ, ◌<◌, ◌≤◌, length, All, IsTrue, IfOk};
ghost use Rattle.eo_term.specs.Terms.{PartsBelow, TextsBelow, IsPlain, IsProper};
ghost use Rattle.eo_sig.specs.Reading.{IsBelow, AttributeBelow, ConstBelow};
ghost use Rattle.eo_lists.specs.Outcomes.{IsListOperator};

use eo_base::{Name, ok_with};
use eo_lists::list_op;
use eo_sig::{Attribute, ConstDecl, Params, Signature, growth_law};
use eo_term::{BOOL, FALSE, Id, Ids, Node, OpName, Table, TermRefused};
use std::alloc::{AllocError, Global};
use std::marker::Model;
use std::test::Fail;

/// A term, or what is wanted of an operator.
#[derive(Clone, Copy, Debug)]
pub(super) enum Sample {
    /// The constant of a letter.
    Con(u8),
    /// `or` applied to the constant of a letter.
    Front(u8),
    /// `or` before the constant of each letter but the last, which ends it.
    Or(&'static str),
    /// The same with `own`, of which `Own("pq")` is the terminator.
    Own(&'static str),
    /// A number.
    Number(i128),
    /// Nothing: the operator is stuck.
    Stuck,
}

/// A table and a signature over it. It declares four constants: `or` with the terminator `false`,
/// `own` with a terminator that is an application of `own`, `left` whose lists begin with their
/// terminator, and `plain` with none. Their letters are `o`, `s`, `l` and `c`; those of `true` and
/// `false` are `t` and `f`.
///
/// A call that gets a term of another table fails.
#[derive(Drop)]
pub(super) struct World {
    alloc: Global,
    table: Table,
    sig: Signature,
}

impl Model for World {
    ghost use Rattle.std.specs.Prelude.{ℕ, ◌≤◌, length};
    ghost use Rattle.eo_sig.specs.Reading.{IsBelow};

    ghost Value = { ℕ };

    ghost view = { λ a. length a.table.trees };

    ghost invariant = { λ a. (n : ℕ) → length a.table.trees ≤ n → IsBelow n a.sig };
}

impl World {
    // Nothing is declared yet.
    fn first(alloc: Global) -> Result<World, AllocError> {
        let table = first_table(alloc)?;
        let (sig, table) = ok_with(first_signature(alloc), table)?;
        Ok(World { alloc, table, sig })
    }

    // What a function returns once the four constants are declared.
    fn with_constants<T, F: FnOnce(&mut World) -> Result<T, Fail>>(
        &mut self,
        f: F,
    ) -> Result<T, Fail>
        requires { F.IsAlwaysCallable f }
    {
        self.declare_all()?;
        f(self)
    }

    fn declare_all(&mut self) -> Result<(), Fail> {
        let own = self.term(Sample::Own("pq"))?;
        self.declare(b"or", Attribute::RightNil(FALSE))?;
        self.declare(b"own", Attribute::RightNil(own))?;
        self.declare(b"left", Attribute::LeftNil(FALSE))?;
        self.declare(b"plain", Attribute::Plain)
    }

    // Declares a constant, whose type plays no part.
    fn declare(&mut self, name: &[u8], attribute: Attribute) -> Result<(), Fail> {
        let attribute = live_attribute(&self.table, attribute)?;
        let ty = live(&self.table, BOOL)?;
        let d = constant(self.alloc, name, ty, attribute)?;
        if !self.sig.is_free(d.name.as_bytes()) {
            drop(d);
            return Err(Fail::new("no free name"));
        }
        self.sig.declare(&self.table, d)?;
        Ok(())
    }

    /// The term of a sample. That of no term fails.
    pub(super) fn term(&mut self, sample: Sample) -> Result<Id, Fail> {
        match sample {
            Sample::Con(letter) => self.con(letter),
            Sample::Front(letter) => self.front(b'o', letter),
            Sample::Or(letters) => self.spell_letters(b'o', letters.as_bytes()),
            Sample::Own(letters) => self.spell_letters(b's', letters.as_bytes()),
            Sample::Number(value) => Ok(make_term(&mut self.table, Node::Num(value))?),
            Sample::Stuck => Err(Fail::new("no term")),
        }
    }

    /// `or` before this many constants of the letter `p`, and `false`.
    pub(super) fn long(&mut self, count: usize) -> Result<Id, Fail> {
        let front = self.front(b'o', b'p')?;
        let mut id = FALSE;
        for _ in 0..count {
            id = self.app(front, id)?;
        }
        Ok(id)
    }

    fn con(&mut self, letter: u8) -> Result<Id, Fail> {
        Ok(make_term(&mut self.table, Node::Con(number_of(letter)))?)
    }

    fn app(&mut self, fun: Id, arg: Id) -> Result<Id, Fail> {
        let fun = live(&self.table, fun)?;
        let arg = live(&self.table, arg)?;
        Ok(make_term(&mut self.table, Node::App { fun, arg })?)
    }

    fn front(&mut self, fun: u8, item: u8) -> Result<Id, Fail> {
        let fun = self.con(fun)?;
        let item = self.con(item)?;
        self.app(fun, item)
    }

    // The constant of a letter before each of the letters but the last.
    fn spell_letters(&mut self, fun: u8, letters: &[u8]) -> Result<Id, Fail> {
        let Some((end, items)) = letters.split_last() else {
            return Err(Fail::new("no letter"));
        };
        let mut id = self.con(*end)?;
        for item in items.iter().rev() {
            let front = self.front(fun, *item)?;
            id = self.app(front, id)?;
        }
        Ok(id)
    }

    /// What the operator returns.
    pub(super) fn value(
        &mut self,
        op: OpName,
        args: &[Id],
    ) -> Result<Result<Option<Id>, TermRefused>, Fail> {
        if !is_list_operator(op) || args.len() != op.arity() || !are_live(&self.table, args) {
            return Err(Fail::new("no arguments of a list operator"));
        }
        Ok(list_op(self.alloc, &self.sig, &mut self.table, op, args))
    }

    /// Whether the operator, at these arguments, has this value.
    pub(super) fn gives(&mut self, op: OpName, args: &[Id], want: Sample) -> Result<bool, Fail> {
        let answer = self.value(op, args)??;
        if matches!(want, Sample::Stuck) {
            return Ok(answer.is_none());
        }
        Ok(answer == Some(self.term(want)?))
    }
}

/// What a function returns for a new world, in which the four constants are declared. It alone owns
/// one: each way out of a function that does is expensive to prove.
pub(super) fn tell<T, F: FnOnce(&mut World) -> Result<T, Fail>>(
    alloc: Global,
    f: F,
) -> Result<T, Fail>
    requires { F.IsAlwaysCallable f }
{
    let mut w = World::first(alloc)?;
    let told = w.with_constants(f);
    drop(w);
    told
}

fn number_of(letter: u8) -> usize {
    match letter {
        b't' => 2,
        b'f' => 3,
        b'o' => 4,
        b's' => 5,
        b'l' => 6,
        b'c' => 7,
        _ => usize::from(letter),
    }
}

// A table with no more than the first terms.
fn first_table(alloc: Global) -> Result<Table, AllocError>
    ensures { IfOk result (λ t. 4 ≤ length t.trees) }
{
    Table::new(alloc)
}

// A signature of which a proof knows only where its terms are.
fn first_signature(alloc: Global) -> Result<Signature, AllocError>
    ensures { IfOk result (λ s. (n : ℕ) → 4 ≤ n → IsBelow n s) }
{
    growth_law();
    Signature::new(alloc)
}

// The term, if it is one of the table.
fn live(table: &Table, id: Id) -> Result<Id, Fail>
    ensures { IfOk result (λ i. i < length table.now.trees) }
{
    if id.place() >= table.len() {
        return Err(Fail::new("no term of the table"));
    }
    Ok(id)
}

// Whether each term is one of the table.
fn are_live(table: &Table, ids: &[Id]) -> bool
    ensures { IsTrue result → All (λ i. i < length table.now.trees) ids.now }
{
    let count = table.len();
    ids.iter().all(|id| id.place() < count)
}

// The attribute, if it has a term of the table or none.
fn live_attribute(table: &Table, attribute: Attribute) -> Result<Attribute, Fail>
    ensures { IfOk result (λ a. (n : ℕ) → length table.now.trees ≤ n → AttributeBelow n a) }
{
    match attribute {
        Attribute::Plain => Ok(Attribute::Plain),
        Attribute::RightNil(end) => Ok(Attribute::RightNil(live(table, end)?)),
        Attribute::LeftNil(end) => Ok(Attribute::LeftNil(live(table, end)?)),
        _ => Err(Fail::new("no attribute of a test")),
    }
}

fn is_list_operator(op: OpName) -> bool
    ensures { IsTrue result → IsListOperator op }
{
    matches!(
        op,
        OpName::Nil
            | OpName::Cons
            | OpName::ListLen
            | OpName::ListConcat
            | OpName::ListNth
            | OpName::ListFind
            | OpName::ListRev
            | OpName::ListErase
            | OpName::ListSetof
            | OpName::ListMinclude
    )
}

// The term with this root.
fn make_term(table: &mut Table, node: Node) -> Result<Id, TermRefused>
    requires plain { IsPlain node }
    requires parts { PartsBelow (length table.old.trees) node }
    requires texts { TextsBelow (length table.old.texts) node }
    requires proper { IsProper node }
    ensures more { length table.old.trees ≤ length table.new.trees }
{
    table.intern(node)
}

// A constant of this type, with no parameters.
fn constant(alloc: Global, name: &[u8], ty: Id, attribute: Attribute) -> Result<ConstDecl, Fail>
    ensures { IfOk result (λ d. (n : ℕ) → ty < n → AttributeBelow n attribute → ConstBelow n d) }
{
    Ok(ConstDecl {
        name: Name::new(alloc, name)?,
        params: Params::new(alloc),
        ty,
        attribute,
        from_reference: false,
    })
}
