//! The table of terms.
ghost use Rattle.std.specs.Prelude.{◌≡◌, ℕ, ◌+◌, ◌<◌, ◌≤◌, ◌↔◌, ◌&&◌, ◌||◌, nat_eq, [], ◌∷◌};
ghost use Rattle.std.specs.Prelude.{length, take, true, false, IsTrue, All, None, IfSome, IfNone, IfOk, OnOk, OnErr, slice_index_or};
ghost use Rattle.eo_base.specs.Characters.{AreCharacters};
ghost use Rattle.eo_term.specs.ParamSet.{has};
ghost use Rattle.eo_term.specs.Tree.{height, arity, height_all, is_tall, is_value, is_closed, all_closed, is_plain};
ghost use Rattle.eo_term.specs.Tree.{may_type_use, may_be_type, all_may_be_type, occurs, occurs_in_all, occurs_openly};
ghost use Rattle.eo_term.specs.Tree.{uses_only, tree_eq, NoTree, Con, Op, App, Arr};
ghost use Rattle.eo_term.specs.Arguments.{count_of, arguments_of, argument_at, application_of};
ghost use Rattle.eo_term.specs.Growth.{IsTable, Grows};
ghost use Rattle.eo_term.specs.Terms.{Terms, tree_at, text_at, trees_at, tree_of, PartsBelow, TextsBelow, IsPlain};
ghost use Rattle.eo_term.specs.Terms.{HasCount, HasArity, IsProper, AreLow, Interned, InternedText, IsMark};
ghost use Rattle.eo_term.specs.Terms.{first_trees};
ghost use Rattle.eo_term.specs.Refused.{IsTall};
ghost use Rattle.eo_term.specs.Held.{Tells, IsOver, HasRoot, tree_over, Lacks, AreFirst};
ghost use Rattle.eo_term.specs.Keys.{entries_of, IsKept};

use crate::carry::Texts;
use crate::id::number_of;
use crate::node::Info;
use crate::nodes::Nodes;
use crate::{Id, Mark, Node, OpCode, ParamSet, TextId};
use indexmap::IndexSet;
use std::alloc::{AllocError, Global};
use std::hash::BuildHasherDefault;
use std::marker::Model;

mod low;
mod release;
mod texts;

/// The greatest height of a term.
pub const HEIGHT_LIMIT: u32 = 1_000_000;

/// Why a term was not made.
#[derive(Debug, Drop)]
pub enum TermRefused {
    /// Its height would exceed [`HEIGHT_LIMIT`].
    Tall,
    /// There was no memory left.
    Memory(AllocError),
}

impl From<AllocError> for TermRefused {
    ghost use Rattle.std.specs.Prelude.{◌≡◌};
    ghost use Rattle.eo_term.specs.declared.table.TermRefused.TheVariants.{Memory};

    ghost from_gives = { λ e refused. refused ≡ Memory e };

    fn from(e: AllocError) -> TermRefused {
        TermRefused::Memory(e)
    }
}

/// A table of terms and texts. Contracts see it as the list of its trees and the list of its
/// texts; an [`Id`] or a [`TextId`] is a place in them.
///
/// No two terms have the same tree, so two live ids are equal exactly where their trees are. The
/// parts of a term are before it. A term's height, which parameters occur in it and what operators
/// it holds are stored with it, so that the cost of a look-up does not depend on its size.
#[derive(Drop)]
pub struct Table {
    alloc: Global,
    // A term's number is its place, so terms are dropped from the end at a cost of what is dropped.
    nodes: Nodes,
    texts: Texts,
}

impl Model for Table {
    ghost use Rattle.std.specs.Prelude.{map};
    ghost use Rattle.eo_term.specs.Terms.{Terms};
    ghost use Rattle.eo_term.specs.TermsCode.{terms_code};
    ghost use Rattle.eo_term.specs.Held.{IsSound, trees_of};
    ghost use Rattle.eo_term.specs.Keys.{entries_of, IsKept};

    ghost Value = { Terms };

    ghost coded = { terms_code };

    ghost view = { λ a. let xs = map (λ w. w.items) a.texts.keys in record { trees = trees_of xs (entries_of a.nodes); texts = xs } };

    ghost invariant = { λ a. IsKept a.nodes × IsSound (entries_of a.nodes) (map (λ w. w.items) a.texts.keys) };
}

/// Adds the constants 0 to 3, where there are no terms.
fn add_constants(alloc: Global, nodes: &mut Nodes) -> Result<(), AllocError>
    requires kept { IsKept nodes.old }
    requires none { entries_of nodes.old ≡ [] }
    ensures kept { IsKept nodes.new }
    ensures first { OnOk result (AreFirst (entries_of nodes.new)) }
{
    nodes.add(Node::Con(0), Vec::new(alloc), Info::leaf())?;
    nodes.add(Node::Con(1), Vec::new(alloc), Info::leaf())?;
    nodes.add(Node::Con(2), Vec::new(alloc), Info::leaf())?;
    nodes.add(Node::Con(3), Vec::new(alloc), Info::leaf())?;
    Ok(())
}

impl Table {
    /// A table with the constants 0 to 3. `Err`: out of memory.
    pub fn new(alloc: Global) -> Result<Table, AllocError>
        ensures trees { IfOk result (λ t. t.trees ≡ first_trees) }
        ensures texts { IfOk result (λ t. t.texts ≡ []) }
    {
        let mut nodes = Nodes::new(alloc);
        add_constants(alloc, &mut nodes)?;
        Ok(Table {
            alloc,
            nodes,
            texts: IndexSet::with_hasher(alloc, BuildHasherDefault::new()),
        })
    }

    /// How many terms there are. The constants 0 to 3 are always there.
    pub fn len(&self) -> usize
        ensures { result ≡ length self.now.trees }
    {
        self.nodes.len()
    }

    /// What holds of every table. A call costs nothing: it gives a proof these facts.
    pub fn laws(&self)
        ensures { IsTable self.now }
    {
        let _count = self.nodes.len();
    }

    /// The present place in the table's history, to which it can be cut later.
    pub fn mark(&self) -> Mark
        ensures mark { result ≡ (length self.now.trees, length self.now.texts) }
        ensures holds { IsMark self.now result }
    {
        Mark {
            terms: self.nodes.len(),
            texts: self.texts.len(),
        }
    }

    /// The root of a term. Its parts are older terms; the arguments of an operator are returned by
    /// [`Table::arg`].
    #[inline(always)]
    pub fn node(&self, id: Id) -> Node
        requires { id < length self.now.trees }
        ensures tree { tree_of self.now.trees self.now.texts result (arguments_of (tree_at self.now.trees id)) ≡ tree_at self.now.trees id }
        ensures parts { PartsBelow id result }
        ensures texts { TextsBelow (length self.now.texts) result }
        ensures proper { IsProper result }
        ensures count { HasCount result (arguments_of (tree_at self.now.trees id)) }
    {
        let (node, _) = self.root(id);
        node
    }

    /// The function and the argument of an application, which are older terms, and none of any other
    /// term.
    #[inline(always)]
    pub fn application(&self, id: Id) -> Option<(Id, Id)>
        requires { id < length self.now.trees }
        ensures tree { IfSome result (λ p. App (tree_at self.now.trees p.0) (tree_at self.now.trees p.1) ≡ tree_at self.now.trees id) }
        ensures older { IfSome result (λ p. (p.0 < id) × (p.1 < id)) }
        ensures other { IfNone result (application_of (tree_at self.now.trees id) ≡ None) }
    {
        self.nodes.application(id.place())
    }

    /// The argument of an operator at a place, counted from 0. It is an older term.
    #[inline]
    pub fn arg(&self, id: Id, i: usize) -> Id
        requires live { id < length self.now.trees }
        requires within { i < count_of (arguments_of (tree_at self.now.trees id)) }
        ensures tree { tree_at self.now.trees result ≡ argument_at (arguments_of (tree_at self.now.trees id)) i }
        ensures older { result < id }
    {
        let (_, args) = self.root(id);
        argument(args, i)
    }

    /// The arguments of an operator, and none of any other term. They are older terms.
    #[inline]
    pub fn args(&self, id: Id) -> &[Id]
        requires { id < length self.now.trees }
        ensures trees { trees_at self.now.trees result.now ≡ arguments_of (tree_at self.now.trees id) }
        ensures older { All (λ j. j < id) result.now }
    {
        let (_, args) = self.root(id);
        args
    }

    /// Whether two terms have the same tree.
    pub fn is_same(&self, a: Id, b: Id) -> bool
        requires first { a < length self.now.trees }
        requires second { b < length self.now.trees }
        ensures tells { IsTrue result ↔ (tree_at self.now.trees a ≡ tree_at self.now.trees b) }
        ensures equals { result ≡ tree_eq (tree_at self.now.trees a) (tree_at self.now.trees b) }
    {
        let _ = &self.nodes;
        a.number == b.number
    }

    /// Whether two texts have the same characters.
    pub fn is_same_text(&self, a: TextId, b: TextId) -> bool
        requires first { a < length self.now.texts }
        requires second { b < length self.now.texts }
        ensures { IsTrue result ↔ (text_at self.now.texts a ≡ text_at self.now.texts b) }
    {
        let _ = &self.texts;
        a.number == b.number
    }

    /// The height of a term, from 1 to [`HEIGHT_LIMIT`]: that of a leaf is 1, that of any other
    /// term is 1 more than its tallest part's.
    #[inline]
    pub fn height(&self, id: Id) -> u32
        requires { id < length self.now.trees }
        ensures height { result ≡ height (tree_at self.now.trees id) }
        ensures low { result ≤ HEIGHT_LIMIT }
    {
        self.info(id).height
    }

    /// How many arguments a function type takes one after another. No other term takes any.
    pub fn arity(&self, id: Id) -> usize
        requires { id < length self.now.trees }
        ensures { result ≡ arity (tree_at self.now.trees id) }
    {
        self.info(id).arity as usize
    }

    /// Whether a term is a value: it has no parameter, no operator and no function type that binds
    /// one.
    #[inline]
    pub fn is_value(&self, id: Id) -> bool
        requires { id < length self.now.trees }
        ensures value { result ≡ is_value (tree_at self.now.trees id) }
        ensures low { AreLow self.now.trees }
    {
        self.info(id).value
    }

    /// Whether a term has no parameter.
    #[inline]
    pub fn is_closed(&self, id: Id) -> bool
        requires { id < length self.now.trees }
        ensures closed { result ≡ is_closed (tree_at self.now.trees id) }
        ensures low { AreLow self.now.trees }
    {
        self.info(id).closed
    }

    /// Whether a term has no operator.
    pub fn is_plain(&self, id: Id) -> bool
        requires { id < length self.now.trees }
        ensures { result ≡ is_plain (tree_at self.now.trees id) }
    {
        self.info(id).plain
    }

    /// Whether a term may be a declared type: whether such types may hold each of its operators.
    pub fn may_be_type(&self, id: Id) -> bool
        requires { id < length self.now.trees }
        ensures { result ≡ may_be_type (tree_at self.now.trees id) }
    {
        self.info(id).typable
    }

    /// The parameters that occur in a term.
    pub fn parameters(&self, id: Id) -> ParamSet
        requires { id < length self.now.trees }
        ensures { (i : ℕ) → has result i ≡ occurs i (tree_at self.now.trees id) }
    {
        self.info(id).parameters
    }

    /// The parameters that occur in a term outside every operator.
    pub fn open_parameters(&self, id: Id) -> ParamSet
        requires { id < length self.now.trees }
        ensures { (i : ℕ) → has result i ≡ occurs_openly i (tree_at self.now.trees id) }
    {
        self.info(id).open_parameters
    }

    /// Whether each parameter that occurs in a term is in the set.
    pub fn uses_only(&self, known: &ParamSet, id: Id) -> bool
        requires { id < length self.now.trees }
        ensures { result ≡ uses_only (has known.now) (tree_at self.now.trees id) }
    {
        self.parameters(id).is_within(*known)
    }

    /// The characters of a text.
    pub fn chars(&self, text: TextId) -> &[u32]
        requires { text < length self.now.texts }
        ensures text { result.now ≡ text_at self.now.texts text }
        ensures characters { AreCharacters result.now }
    {
        self.texts.get_index(text.number).unwrap().as_slice()
    }

    /// The text with these characters, which are added where they are not there. Where there is no
    /// memory left, the table stays as it is.
    pub fn text(&mut self, chars: &[u32]) -> Result<TextId, AllocError>
        requires { AreCharacters chars.now }
        ensures text { IfOk result (λ t. InternedText self.old chars.now t self.new) }
        ensures err { OnErr result (self.new ≡ self.old) }
        ensures grows { Grows self.old self.new }
    {
        match self.texts.get_index_of(chars) {
            Some(number) => Ok(TextId { number }),
            None => {
                let number = self.texts.len();
                let owned = chars.to_vec(self.alloc)?;
                self.texts.insert(owned)?;
                Ok(TextId { number })
            }
        }
    }

    /// The term with this root, which is not an operator, over live terms and texts. It is added
    /// where its tree is not there. A bit string has at most 128 bits and fits its width, and a
    /// parameter has a number below 64, as those of a declaration have.
    ///
    /// It is refused with [`TermRefused::Tall`] exactly where its height would exceed
    /// [`HEIGHT_LIMIT`]. The table then stays as it is, and also where there is no memory left.
    #[inline(always)]
    pub fn intern(&mut self, node: Node) -> Result<Id, TermRefused>
        requires plain { IsPlain node }
        requires parts { PartsBelow (length self.old.trees) node }
        requires texts { TextsBelow (length self.old.texts) node }
        requires proper { IsProper node }
        ensures interned { IfOk result (λ i. Interned self.old (tree_of self.old.trees self.old.texts node NoTree) i self.new) }
        ensures tall { IsTall result ↔ (is_tall (tree_of self.old.trees self.old.texts node NoTree) ≡ true) }
        ensures err { OnErr result (self.new ≡ self.old) }
        ensures grows { Grows self.old self.new }
    {
        // Inlined, so that a caller which writes an application or a constant goes straight there.
        match node {
            Node::App { fun, arg } => self.apply(fun, arg),
            Node::Con(k) => self.intern_constant(k),
            _ => self.intern_other(node),
        }
    }

    // The application of one term to another, as `intern` has it.
    #[inline(always)]
    fn apply(&mut self, fun: Id, arg: Id) -> Result<Id, TermRefused>
        requires fun { fun < length self.old.trees }
        requires arg { arg < length self.old.trees }
        ensures interned { IfOk result (λ i. Interned self.old (App (tree_at self.old.trees fun) (tree_at self.old.trees arg)) i self.new) }
        ensures tall { IsTall result ↔ (is_tall (App (tree_at self.old.trees fun) (tree_at self.old.trees arg)) ≡ true) }
        ensures err { OnErr result (self.new ≡ self.old) }
        ensures grows { Grows self.old self.new }
    {
        match self.nodes.find_application(fun, arg) {
            Some(at) => term_at(at),
            None => self.apply_new(fun, arg),
        }
    }

    // The same where it is not there.
    #[inline(never)]
    fn apply_new(&mut self, fun: Id, arg: Id) -> Result<Id, TermRefused>
        requires fun { fun < length self.old.trees }
        requires arg { arg < length self.old.trees }
        requires lacks { Lacks self.old (App (tree_at self.old.trees fun) (tree_at self.old.trees arg)) }
        ensures interned { IfOk result (λ i. Interned self.old (App (tree_at self.old.trees fun) (tree_at self.old.trees arg)) i self.new) }
        ensures tall { IsTall result ↔ (is_tall (App (tree_at self.old.trees fun) (tree_at self.old.trees arg)) ≡ true) }
        ensures err { OnErr result (self.new ≡ self.old) }
        ensures grows { Grows self.old self.new }
    {
        let info = self.info_of_pair(fun, arg);
        if info.height > HEIGHT_LIMIT {
            return Err(TermRefused::Tall);
        }
        Ok(self.add_application(fun, arg, info)?)
    }

    // The constant of this number, as `intern` has it.
    #[inline(always)]
    fn intern_constant(&mut self, k: usize) -> Result<Id, TermRefused>
        ensures interned { IfOk result (λ i. Interned self.old (Con k) i self.new) }
        ensures tall { IsTall result ↔ (is_tall (Con k) ≡ true) }
        ensures err { OnErr result (self.new ≡ self.old) }
        ensures grows { Grows self.old self.new }
    {
        match self.nodes.find_constant(k) {
            Some(at) => term_at(at),
            None => self.intern_other(Node::Con(k)),
        }
    }

    // The term with this root, as `intern` has it.
    fn intern_other(&mut self, node: Node) -> Result<Id, TermRefused>
        requires plain { IsPlain node }
        requires parts { PartsBelow (length self.old.trees) node }
        requires texts { TextsBelow (length self.old.texts) node }
        requires proper { IsProper node }
        ensures interned { IfOk result (λ i. Interned self.old (tree_of self.old.trees self.old.texts node NoTree) i self.new) }
        ensures tall { IsTall result ↔ (is_tall (tree_of self.old.trees self.old.texts node NoTree) ≡ true) }
        ensures err { OnErr result (self.new ≡ self.old) }
        ensures grows { Grows self.old self.new }
    {
        let info = self.info_of(&node);
        if info.height > HEIGHT_LIMIT {
            return Err(TermRefused::Tall);
        }
        Ok(self.add(node, &[], info)?)
    }

    /// The term that applies an operator of the language, to as many arguments as it takes, or a
    /// program, to at most 64. It is added where its tree is not there.
    ///
    /// It is refused with [`TermRefused::Tall`] exactly where its height would exceed
    /// [`HEIGHT_LIMIT`]. The table then stays as it is, and also where there is no memory left.
    pub fn intern_op(&mut self, code: OpCode, args: &[Id]) -> Result<Id, TermRefused>
        requires count { HasArity code (length args.now) }
        requires args { All (λ j. j < length self.old.trees) args.now }
        ensures interned { IfOk result (λ i. Interned self.old (Op code (trees_at self.old.trees args.now)) i self.new) }
        ensures tall { IsTall result ↔ (is_tall (Op code (trees_at self.old.trees args.now)) ≡ true) }
        ensures err { OnErr result (self.new ≡ self.old) }
        ensures grows { Grows self.old self.new }
    {
        let info = self.info_of_op(code, args);
        if info.height > HEIGHT_LIMIT {
            return Err(TermRefused::Tall);
        }
        let node = Node::Op {
            code,
            count: args.len() as u8,
        };
        Ok(self.add(node, args, info)?)
    }

    // The root of a term.
    #[inline(always)]
    fn root(&self, id: Id) -> (Node, &[Id])
        requires { id < length self.now.trees }
        ensures { HasRoot self.now id (record { node = result.0; args = result.1.now }) }
    {
        let (node, args, _) = self.nodes.get(id.place());
        (node, args)
    }

    // What is known of a term.
    #[inline(always)]
    fn info(&self, id: Id) -> Info
        requires { id < length self.now.trees }
        ensures tells { Tells (tree_at self.now.trees id) result }
        ensures small { result.height ≤ HEIGHT_LIMIT }
        ensures few { result.arity ≤ HEIGHT_LIMIT }
        ensures low { AreLow self.now.trees }
    {
        self.nodes.info(id.place())
    }

    // What is known of a term with this root.
    fn info_of(&self, node: &Node) -> Info
        requires plain { IsPlain node.now }
        requires parts { PartsBelow (length self.now.trees) node.now }
        requires proper { IsProper node.now }
        ensures tells { Tells (tree_of self.now.trees self.now.texts node.now NoTree) result }
        ensures small { result.height ≤ HEIGHT_LIMIT + 1 }
    {
        match *node {
            Node::Con(_) | Node::Num(_) | Node::Bits { .. } | Node::Str(_) => Info::leaf(),
            Node::Par(i) => Info::parameter(i),
            Node::Var { ty, .. } => {
                let t = self.info(ty);
                Info {
                    height: 1 + t.height,
                    arity: 0,
                    ..t
                }
            }
            Node::App { fun, arg } => self.info_of_pair(fun, arg),
            Node::Arr { from, to } => self.info_of_arrow(from, to),
            Node::Qar { ty, to, .. } => {
                let both = self.info_of_arrow(ty, to);
                Info {
                    value: false,
                    ..both
                }
            }
            Node::Op { .. } => Info::leaf(),
        }
    }

    // What is known of a function type.
    fn info_of_arrow(&self, from: Id, to: Id) -> Info
        requires from { from < length self.now.trees }
        requires to { to < length self.now.trees }
        ensures tells { Tells (Arr (tree_at self.now.trees from) (tree_at self.now.trees to)) result }
        ensures small { result.height ≤ HEIGHT_LIMIT + 1 }
    {
        let both = self.info_of_pair(from, to);
        let arity = 1 + self.info(to).arity;
        Info { arity, ..both }
    }

    // What is known of an application of one term to another.
    fn info_of_pair(&self, first: Id, second: Id) -> Info
        requires first { first < length self.now.trees }
        requires second { second < length self.now.trees }
        ensures tells { Tells (App (tree_at self.now.trees first) (tree_at self.now.trees second)) result }
        ensures small { result.height ≤ HEIGHT_LIMIT + 1 }
    {
        let a = self.info(first);
        let b = self.info(second);
        Info {
            height: 1 + a.height.max(b.height),
            arity: 0,
            value: a.value && b.value,
            closed: a.closed && b.closed,
            plain: a.plain && b.plain,
            typable: a.typable && b.typable,
            parameters: a.parameters.union(b.parameters),
            open_parameters: a.open_parameters.union(b.open_parameters),
        }
    }

    // What is known of an operator with these arguments.
    fn info_of_op(&self, code: OpCode, args: &[Id]) -> Info
        requires { All (λ j. j < length self.now.trees) args.now }
        ensures tells { Tells (Op code (trees_at self.now.trees args.now)) result }
        ensures small { result.height ≤ HEIGHT_LIMIT + 1 }
    {
        let mut tallest = 0;
        let mut closed = true;
        let mut typable = may_type_use(code);
        let mut parameters = ParamSet::new();
        for id in args {
            let info = self.info(*id);
            tallest = info.height.max(tallest);
            closed = info.closed && closed;
            typable = info.typable && typable;
            parameters.add_all(info.parameters);
        }
        Info {
            height: 1 + tallest,
            arity: 0,
            value: false,
            closed,
            plain: false,
            typable,
            parameters,
            open_parameters: ParamSet::new(),
        }
    }

    // The term with this root, of which `info` is known.
    fn add(&mut self, node: Node, args: &[Id], info: Info) -> Result<Id, AllocError>
        requires over { IsOver (length self.old.trees) (length self.old.texts) (record { node = node; args = args.now }) }
        requires tells { Tells (tree_over self.old node args.now) info }
        requires low { info.height ≤ HEIGHT_LIMIT }
        ensures interned { IfOk result (λ i. Interned self.old (tree_over self.old node args.now) i self.new) }
        ensures err { OnErr result (self.new ≡ self.old) }
        ensures grows { Grows self.old self.new }
    {
        let number = self.nodes.intern(self.alloc, &node, args, info)?;
        Ok(Id { number })
    }

    // The application of one term to another, which is not there, and of which `info` is known.
    #[inline(always)]
    fn add_application(&mut self, fun: Id, arg: Id, info: Info) -> Result<Id, AllocError>
        requires fun { fun < length self.old.trees }
        requires arg { arg < length self.old.trees }
        requires lacks { Lacks self.old (App (tree_at self.old.trees fun) (tree_at self.old.trees arg)) }
        requires tells { Tells (App (tree_at self.old.trees fun) (tree_at self.old.trees arg)) info }
        requires low { info.height ≤ HEIGHT_LIMIT }
        ensures interned { IfOk result (λ i. Interned self.old (App (tree_at self.old.trees fun) (tree_at self.old.trees arg)) i self.new) }
        ensures err { OnErr result (self.new ≡ self.old) }
        ensures grows { Grows self.old self.new }
    {
        let number = self.nodes.push_application(fun, arg, info)?;
        Ok(Id { number })
    }
}

// The term at a place. Beyond 2^32 of them there is no memory left.
#[inline(always)]
fn term_at(place: usize) -> Result<Id, TermRefused>
    ensures ok { IfOk result (λ i. i ≡ place) }
    ensures low { IsTall result → ⊥ }
{
    let number = number_of(place)?;
    Ok(Id { number })
}

fn argument(args: &[Id], i: usize) -> Id
    requires { i < length args.now }
    ensures { result ≡ slice_index_or args.now i 0 }
{
    args[i]
}

// Whether a declared type may hold the operator.
fn may_type_use(code: OpCode) -> bool
    ensures { result ≡ may_type_use code }
{
    match code {
        OpCode::Builtin(op) => op.is_in_types(),
        OpCode::Prog(_) => false,
    }
}
