//! Types of terms, and the types that are kept.
ghost use Rattle.std.specs.Prelude.{◌≡◌, ℕ, ◌<◌, List, [], ◌∷◌, ◌++◌, length, filter, Ok, Some, IfSome, IfNone, OnOk, OnErr};
ghost use Rattle.eo_term.specs.Tree.{Tree};
ghost use Rattle.eo_term.specs.Growth.{tree_in, Grows};
ghost use Rattle.eo_pattern.specs.Slots.{AreBelow, AreEmpty};
ghost use Rattle.eo_sig.specs.Signature as spec;
ghost use Rattle.eo_sig.specs.Reading.{signature, IsBelow};
ghost use Rattle.eo_type.specs.Types.{declared, literal_type_at};
ghost use Rattle.eo_type.specs.Outcomes.{Yields, Answers, Gives};
ghost use Rattle.eo_type.specs.TypeSteps.{GivesTypeStep};
ghost use Rattle.eo_type.specs.Known.{Fits, FitWith, Lasts, Extends, IsUntyped, Finds, KeepsAnswer, FitsCut, kept_type, is_before};
ghost use Rattle.eo_type.specs.Known.{class_type, type_at};

use crate::TypeRefused;
use crate::application::{assign, settle_under};
use crate::known::TypeCache;
use crate::leaves::if_value;
use crate::partwise::{application_step, function_step, type_step, variable_step};
use crate::refused::{Stop, answer};
use eo_pattern::Subst;
use eo_sig::{LiteralClass, Signature, growth_law, longer_law};
use eo_term::{Id, Mark, Node, Step, Table, walk_law};
use std::alloc::{AllocError, Global};
use std::marker::Model;

/// Types that were found, with their terms, in the order in which they were found. Contracts see them
/// as a list of pairs.
///
/// They fit a signature and a table where each pair names terms of the table, the second being the
/// type of the first. Every call that takes them has this condition, and leaves them fitting and each
/// that was kept still kept, also where it is refused. Who cuts the table at a mark lets them
/// [forget](Types::forget) to that mark.
#[derive(Drop)]
pub struct Types {
    alloc: Global,
    known: TypeCache,
    // Room for the values of parameters of types. What it holds between two calls does not matter.
    subst: Subst,
    // Room for the terms that wait for the types of their parts. What it holds counts for nothing.
    waiting: Vec<Id>,
}

impl Model for Types {
    ghost use Rattle.std.specs.Prelude.{List, ℕ};

    ghost Value = { List (ℕ × ℕ) };

    ghost view = { λ a. a.known };
}

impl Types {
    /// No types. No memory is taken.
    pub fn new(alloc: Global) -> Types
        ensures types { result ≡ [] }
        ensures fits { (S : spec.Signature) (ts : List Tree) → Fits S ts result }
    {
        Types {
            alloc,
            known: TypeCache::new(alloc),
            subst: Subst::new(alloc),
            waiting: Vec::new(alloc),
        }
    }

    /// What holds of all types that fit. A call costs nothing: it gives a proof these facts.
    pub fn laws(&self)
        ensures { Lasts self.now }
    {
        growth_law();
        longer_law();
        let _known = &self.known;
    }

    /// The type of a term, by the typing rules of the Ethos manual; `None` exactly where it has
    /// none. The parts of a term are typed from left to right, and only then compared.
    ///
    /// A constant has its declared type, a literal that of its class with the literal substituted,
    /// a variable its own. `NumberRange`: a number, a bit string or a string in a type is out of
    /// range. `Tall`: a type is too tall. `Memory`: out of memory. After any of these the table is
    /// as it was. A part that is shared is typed once.
    ///
    /// Types that are found are kept. One that is kept is returned at once, without memory.
    pub fn type_of(
        &mut self,
        sig: &Signature,
        table: &mut Table,
        id: Id,
    ) -> Result<Option<Id>, TypeRefused>
        requires { FitWith sig.now table.old self.old id }
        ensures answers { Answers table.new result (type_at sig.now table.old id) }
        ensures known { (u : ℕ) → kept_type self.old id ≡ Some u →
            (result ≡ Ok (Some u)) × (table.new ≡ table.old) × (self.new ≡ self.old) }
        ensures kept { KeepsAnswer self.new id result }
        ensures refused { OnErr result (table.new ≡ table.old) }
        ensures extends { Extends sig.now table.old self.old table.new self.new }
    {
        match self.known.get(id) {
            Some(ty) => Ok(Some(ty)),
            None => self.type_of_new(sig, table, id),
        }
    }

    /// Drops each entry that names a term which was made after the mark. It takes no memory, and it
    /// costs no more than was found since the table was last marked so, or before.
    #[inline]
    pub fn forget(&mut self, mark: Mark)
        ensures left { self.new ≡ filter (is_before mark.0) self.old }
        ensures fits { FitsCut mark.0 self.old self.new }
    {
        growth_law();
        self.known.forget(mark.terms());
    }

    // The type of a term of which none is kept.
    fn type_of_new(
        &mut self,
        sig: &Signature,
        table: &mut Table,
        id: Id,
    ) -> Result<Option<Id>, TypeRefused>
        requires { IsUntyped sig.now table.old self.old id }
        ensures answers { Answers table.new result (type_at sig.now table.old id) }
        ensures kept { KeepsAnswer self.new id result }
        ensures refused { OnErr result (table.new ≡ table.old) }
        ensures extends { Extends sig.now table.old self.old table.new self.new }
    {
        let mark = table.mark();
        match answer(self.find_new(sig, table, id)) {
            Ok(found) => Ok(found),
            Err(e) => {
                table.release(mark);
                self.forget(mark);
                Err(e)
            }
        }
    }

    // The type of a term of which none is kept. What is found is kept before it is answered, and the
    // first failure ends the walk, so no term is derived twice in a call.
    fn find_new(&mut self, sig: &Signature, table: &mut Table, id: Id) -> Result<Id, Stop>
        requires { IsUntyped sig.now table.old self.old id }
        ensures gives { Gives table.new result (type_at sig.now table.old id) }
        ensures finds { Finds sig.now table.old self.old id result table.new self.new }
    {
        let alloc = self.alloc;
        self.waiting.clear();
        find_walk(
            alloc,
            sig,
            table,
            &mut self.subst,
            &mut self.known,
            &mut self.waiting,
            id,
        )
    }
}

// The same, as a walk over its parts: a term waits while the type of a part is found.
fn find_walk(
    alloc: Global,
    sig: &Signature,
    table: &mut Table,
    subst: &mut Subst,
    known: &mut TypeCache,
    waiting: &mut Vec<Id>,
    id: Id,
) -> Result<Id, Stop>
    requires untyped { IsUntyped sig.now table.old known.old id }
    requires waiting { waiting.old.items ≡ [] }
    ensures gives { Gives table.new result (type_at sig.now table.old id) }
    ensures finds { Finds sig.now table.old known.old id result table.new known.new }
{
    walk_law();
    sig.laws();
    let mut top = id;
    loop {
        match derive(alloc, sig, table, subst, &*known, top)? {
            Step::Made(ty) => {
                known.keep(top, ty)?;
                let Some(next) = resume(waiting) else {
                    return Ok(ty);
                };
                top = next;
            }
            Step::Part(part) => {
                wait(waiting, top)?;
                top = part;
            }
        }
    }
}

// Another term waits, the last of all.
#[inline]
fn wait(waiting: &mut Vec<Id>, id: Id) -> Result<(), AllocError>
    ensures { OnOk result (waiting.new.items ≡ waiting.old.items ++ id ∷ []) }
{
    waiting.push(id)?;
    Ok(())
}

// The term that waited last waits no more.
#[inline]
fn resume(waiting: &mut Vec<Id>) -> Option<Id>
    ensures some { IfSome result (λ i. waiting.old.items ≡ waiting.new.items ++ i ∷ []) }
    ensures none { IfNone result (waiting.old.items ≡ []) }
{
    waiting.pop()
}

// The type of a term, by the types that are kept of its parts, or the first part of which none is.
fn derive(
    alloc: Global,
    sig: &Signature,
    table: &mut Table,
    subst: &mut Subst,
    known: &TypeCache,
    id: Id,
) -> Result<Step, Stop>
    requires { FitWith sig.now table.old known.now id }
    ensures gives { GivesTypeStep sig.now table.old known.now id (type_at sig.now table.old id) table.new result }
    ensures grows { Grows table.old table.new }
{
    match table.node(id) {
        Node::Con(k) => type_step(declared_type(sig, &*table, k)),
        Node::Num(_) => type_step(literal(alloc, sig, table, LiteralClass::Numeral, id)),
        Node::Bits { .. } => type_step(literal(alloc, sig, table, LiteralClass::Binary, id)),
        Node::Str(_) => type_step(literal(alloc, sig, table, LiteralClass::String, id)),
        Node::Var { ty, .. } => variable_step(sig, &*table, known, ty),
        Node::App { fun, arg } => application_step(alloc, sig, table, subst, known, fun, arg),
        Node::Arr { from, to } => function_step(sig, &*table, known, from, to),
        Node::Par(_) => Err(Stop::Untyped),
        Node::Qar { .. } => Err(Stop::Untyped),
        Node::Op { .. } => Err(Stop::Untyped),
    }
}

// The type of a literal, by that of its class.
fn literal(
    alloc: Global,
    sig: &Signature,
    table: &mut Table,
    class: LiteralClass,
    id: Id,
) -> Result<Id, Stop>
    requires live { id < length table.old.trees }
    requires below { IsBelow (length table.old.trees) sig.now }
    ensures { Yields table.old table.new result
        (literal_type_at (class_type sig.now table.old class) (tree_in table.old id)) }
{
    match sig.literal_type(class) {
        None => Err(Stop::Untyped),
        Some(ty) => literal_in(alloc, table, ty, id),
    }
}

// The declared type of a constant.
fn declared_type(sig: &Signature, table: &Table, k: usize) -> Result<Id, Stop>
    requires { IsBelow (length table.now.trees) sig.now }
    ensures gives { Gives table.now result (declared (spec.constant_at (signature table.now.trees sig.now) k)) }
{
    table.laws();
    if k >= sig.constants() {
        return Err(Stop::Untyped);
    }
    Ok(sig.constant(k).ty)
}

// The type of a class with a literal substituted.
fn literal_in(alloc: Global, table: &mut Table, ty: Id, id: Id) -> Result<Id, Stop>
    requires ty { ty < length table.old.trees }
    requires live { id < length table.old.trees }
    ensures { Yields table.old table.new result (literal_type_at (Some (tree_in table.old ty)) (tree_in table.old id)) }
{
    let mut subst = Subst::new(alloc);
    literal_with(alloc, table, &mut subst, ty, id)
}

// The same, by an assignment that holds nothing.
fn literal_with(
    alloc: Global,
    table: &mut Table,
    subst: &mut Subst,
    ty: Id,
    id: Id,
) -> Result<Id, Stop>
    requires empty { AreEmpty subst.old }
    requires below { AreBelow (length table.old.trees) subst.old }
    requires ty { ty < length table.old.trees }
    requires live { id < length table.old.trees }
    ensures { Yields table.old table.new result (literal_type_at (Some (tree_in table.old ty)) (tree_in table.old id)) }
{
    assign(table, subst, 0, id)?;
    let found = settle_under(alloc, table, subst, ty)?;
    if_value(table, found)
}
