//! The roots of terms, each under a small key.
ghost use Rattle.std.specs.Prelude.{◌≡◌, ℕ, ◌+◌, ◌<◌, ◌≤◌, ◌^◌, [], ◌∷◌, ◌++◌, length, map, take};
ghost use Rattle.std.specs.Prelude.{slice_get, Some, All, IsOk, IfOk, IfSome, IfNone, OnOk, OnErr};
ghost use Rattle.std.specs.Map.{keys_of};
ghost use Rattle.indexmap.specs.IndexMap.{spare};
ghost use Rattle.eo_term.specs.Terms.{HasArguments};
ghost use Rattle.eo_term.specs.Keys.{IsRoot, root_of, literal_node, literal_at, list_at, UsesOnly, literals_of};
ghost use Rattle.eo_term.specs.Keys.{lists_of, list_items, ages_of, entries_of, IsKeyed, IsKept, IsMore, IsKeyOf, IsAt};
ghost use Rattle.eo_term.specs.Keys.{IsNew, IsPut, HasRoom, IsNumbered, HasNumber, MoreLiterals, MoreLists, HasKeyRoom};
ghost use Rattle.eo_term.specs.Keys.{IsAbsent, IsCut, IsShape, IsWide, HasRootAt, HasPartsAt, parts_of, applied};
ghost use Rattle.eo_term.specs.declared.node.Node.TheVariants as node;

use crate::id::number_of;
use crate::node::{Applied, Constant, Info, Key, Literal, SmallNumber};
use crate::{Id, Node, OpCode};
use indexmap::IndexMap;
use std::alloc::{AllocError, Global};
use std::hash::{BuildHasher, BuildHasherDefault, DefaultHasher, Hash};

/// Literals with their numbers. A file chooses them freely, so they are hashed by SipHash.
type Literals = IndexMap<Literal, usize, BuildHasherDefault<DefaultHasher>>;

/// The roots of terms and what is known of them, by their places. No root is there twice.
///
/// A small number is in the key of its term, and so are two arguments of an operator of the
/// language. Any other literal or list of arguments is there once, under a number of its own, with
/// how many terms there were when it came. So they are dropped from the end with the terms that use
/// them.
#[derive(Drop)]
pub(crate) struct Nodes {
    pub(crate) keys: IndexMap<Key, Info>,
    pub(crate) literals: Literals,
    pub(crate) lists: IndexMap<Vec<Id>, usize>,
}

impl Nodes {
    // No terms.
    pub(crate) fn new(alloc: Global) -> Nodes
        ensures kept { IsKept result }
        ensures empty { entries_of result ≡ [] }
    {
        Nodes {
            keys: IndexMap::new(alloc),
            literals: IndexMap::with_hasher(alloc, BuildHasherDefault::new()),
            lists: IndexMap::new(alloc),
        }
    }

    pub(crate) fn len(&self) -> usize
        ensures len { result ≡ length (entries_of self.now) }
        ensures small { result < 2 ^ 63 }
    {
        self.keys.len()
    }

    // What is known of the term at a place.
    #[inline(always)]
    pub(crate) fn info(&self, at: usize) -> Info
        requires { at < length (entries_of self.now) }
        ensures { IsAt (entries_of self.now) at result }
    {
        let (_, info) = self.keys.get_index(at).unwrap();
        *info
    }

    // The two parts of the application at a place, or none where another root is there.
    #[inline(always)]
    pub(crate) fn application(&self, at: usize) -> Option<(Id, Id)>
        requires { at < length (entries_of self.now) }
        ensures { HasPartsAt self.now at result }
    {
        let (key, _) = self.keys.get_index(at).unwrap();
        parts_of(key)
    }

    // The root of the term at a place, and what is known of it.
    #[inline(always)]
    pub(crate) fn get(&self, at: usize) -> (Node, &[Id], Info)
        requires kept { IsKept self.now }
        requires live { at < length (entries_of self.now) }
        ensures { slice_get (entries_of self.now) at ≡ Some (record { node = result.0; args = result.1.now }, result.2) }
    {
        let (key, info) = self.keys.get_index(at).unwrap();
        let (node, args) = self.root(key);
        (node, args, *info)
    }

    // The place of the application of one term to another, if it is there.
    #[inline(always)]
    pub(crate) fn find_application(&self, fun: Id, arg: Id) -> Option<usize>
        requires { IsKept self.now }
        ensures yes { IfSome result (λ i. HasRootAt (entries_of self.now) i (node.App fun arg) []) }
        ensures no { IfNone result (IsNew (entries_of self.now) (node.App fun arg) []) }
    {
        self.keys.get_index_of(Applied { fun, arg })
    }

    // The place of a constant, if it is there.
    #[inline(always)]
    pub(crate) fn find_constant(&self, k: usize) -> Option<usize>
        requires { IsKept self.now }
        ensures yes { IfSome result (λ i. HasRootAt (entries_of self.now) i (node.Con k) []) }
        ensures no { IfNone result (IsNew (entries_of self.now) (node.Con k) []) }
    {
        self.keys.get_index_of(Constant(k))
    }

    // The number of the application of one term to another, which is not there and is added.
    pub(crate) fn push_application(
        &mut self,
        fun: Id,
        arg: Id,
        info: Info,
    ) -> Result<u32, AllocError>
        requires kept { IsKept self.old }
        requires absent { IsNew (entries_of self.old) (node.App fun arg) [] }
        ensures kept { IsKept self.new }
        ensures ok { IfOk result (λ i. IsPut (entries_of self.old) (node.App fun arg) [] info i (entries_of self.new)) }
        ensures err { OnErr result (entries_of self.new ≡ entries_of self.old) }
    {
        let number = number_of(self.keys.len())?;
        self.keys.insert(Key::App { fun, arg }, info)?;
        Ok(number)
    }

    // The number of the term with that root, which is added at the end where it is not there.
    pub(crate) fn intern(
        &mut self,
        alloc: Global,
        node: &Node,
        args: &[Id],
        info: Info,
    ) -> Result<u32, AllocError>
        requires kept { IsKept self.old }
        requires args { HasArguments node.now args.now }
        ensures kept { IsKept self.new }
        ensures ok { IfOk result (λ i. IsPut (entries_of self.old) node.now args.now info i (entries_of self.new)) }
        ensures err { OnErr result (entries_of self.new ≡ entries_of self.old) }
    {
        let key = self.key_of(alloc, node, args)?;
        match self.keys.get_index_of(&key) {
            Some(at) => number_of(at),
            None => {
                let number = number_of(self.keys.len())?;
                self.keys.insert(key, info)?;
                Ok(number)
            }
        }
    }

    // The key of that root, as `make_key` returns it. The arguments are copied where they are not
    // there.
    fn key_of(&mut self, alloc: Global, node: &Node, args: &[Id]) -> Result<Key, AllocError>
        requires kept { IsKept self.old }
        requires args { HasArguments node.now args.now }
        ensures more { IsMore self.old self.new }
        ensures key { IfOk result (λ k. IsKeyOf self.new node.now args.now k × IsKeyed self.new (length self.new.keys.entries) k) }
    {
        let terms = self.keys.len();
        match shape_of(node, args) {
            Shape::Known(key) => Ok(key),
            Shape::Literal(literal) => {
                let number = number_literal(&mut self.literals, literal, terms)?;
                Ok(Key::Literal(number))
            }
            Shape::Applied { code, count } => {
                let number = number_copy(&mut self.lists, alloc, args, terms)?;
                Ok(operator_key(code, count, number))
            }
        }
    }

    // Adds a term at the end, whose root is not there.
    pub(crate) fn add(&mut self, node: Node, args: Vec<Id>, info: Info) -> Result<(), AllocError>
        requires kept { IsKept self.old }
        requires args { HasArguments node args.items }
        requires absent { IsNew (entries_of self.old) node args.items }
        ensures kept { IsKept self.new }
        ensures ok { OnOk result (entries_of self.new ≡ entries_of self.old ++ (record { node = node; args = args.items }, info) ∷ []) }
        ensures err { OnErr result (entries_of self.new ≡ entries_of self.old) }
        ensures room { (n : ℕ) → HasRoom (n + 1) self.old → IsOk result × HasRoom n self.new }
    {
        let key = self.make_key(node, args)?;
        self.keys.insert(key, info)?;
        Ok(())
    }

    // The key of that root. Its literal or its arguments are added where they are not there.
    fn make_key(&mut self, node: Node, args: Vec<Id>) -> Result<Key, AllocError>
        requires kept { IsKept self.old }
        requires args { HasArguments node args.items }
        ensures more { IsMore self.old self.new }
        ensures key { IfOk result (λ k. IsKeyOf self.new node args.items k × IsKeyed self.new (length self.new.keys.entries) k) }
        ensures room { (n : ℕ) → HasRoom (n + 1) self.old → IsOk result × HasKeyRoom n self.new }
    {
        let terms = self.keys.len();
        match shape_of(&node, args.as_slice()) {
            Shape::Known(key) => Ok(key),
            Shape::Literal(literal) => {
                let number = number_literal(&mut self.literals, literal, terms)?;
                Ok(Key::Literal(number))
            }
            Shape::Applied { code, count } => {
                let number = number_list(&mut self.lists, args, terms)?;
                Ok(operator_key(code, count, number))
            }
        }
    }

    // Makes room, so that so many more terms take no memory.
    pub(crate) fn reserve(&mut self, more: usize) -> Result<(), AllocError>
        requires { IsKept self.old }
        ensures kept { IsKept self.new }
        ensures entries { entries_of self.new ≡ entries_of self.old }
        ensures ok { OnOk result (HasRoom more self.new) }
    {
        self.keys.reserve(more)?;
        self.literals.reserve(more)?;
        self.lists.reserve(more)
    }

    // Drops the terms from a place on, and the literals and the arguments that only they have. It costs
    // nothing where there is no such term.
    #[tactic(auto, using(crate::proofs::Keys::nothing_cut))]
    pub(crate) fn cut(&mut self, terms: usize)
        requires kept { IsKept self.old }
        requires within { terms ≤ length (entries_of self.old) }
        ensures kept { IsKept self.new }
        ensures entries { entries_of self.new ≡ take terms (entries_of self.old) }
        ensures room { (n : ℕ) → HasRoom n self.old → HasRoom n self.new }
    {
        if terms == self.len() {
            return;
        }
        self.cut_newer(terms);
    }

    // The same where there are such terms.
    fn cut_newer(&mut self, terms: usize)
        requires kept { IsKept self.old }
        requires within { terms ≤ length (entries_of self.old) }
        ensures kept { IsKept self.new }
        ensures entries { entries_of self.new ≡ take terms (entries_of self.old) }
        ensures room { (n : ℕ) → HasRoom n self.old → HasRoom n self.new }
    {
        let literals = older(&self.literals, terms);
        let lists = older(&self.lists, terms);
        self.keys.truncate(terms);
        self.literals.truncate(literals);
        self.lists.truncate(lists);
    }

    // The root that a key represents.
    #[inline(always)]
    fn root<'a>(&'a self, key: &'a Key) -> (Node, &'a [Id])
        requires { UsesOnly (λ l. l < length (literals_of self.now)) (λ l. l < length (lists_of self.now)) key.now }
        ensures { IsRoot (root_of (literals_of self.now) (lists_of self.now) key.now) result.0 result.1.now }
    {
        match *key {
            Key::Con(k) => (Node::Con(k), &[]),
            Key::Num(small) => (Node::Num(small.value as i128), &[]),
            Key::Literal(l) => (self.literal(l), &[]),
            Key::Str(text) => (Node::Str(text), &[]),
            Key::Par(i) => (Node::Par(i), &[]),
            Key::Var { name, ty } => (Node::Var { name, ty }, &[]),
            Key::App { fun, arg } => (Node::App { fun, arg }, &[]),
            Key::Arr { from, to } => (Node::Arr { from, to }, &[]),
            Key::Qar { par, ty, to } => (Node::Qar { par, ty, to }, &[]),
            Key::Pair { name, ref args } => {
                let code = OpCode::Builtin(name);
                (Node::Op { code, count: 2 }, args.as_slice())
            }
            Key::Builtin { name, count, args } => {
                let code = OpCode::Builtin(name);
                (Node::Op { code, count }, self.list(args))
            }
            Key::Prog {
                count,
                program,
                args,
            } => {
                let code = OpCode::Prog(program);
                (Node::Op { code, count }, self.list(args))
            }
        }
    }

    #[inline]
    fn literal(&self, number: usize) -> Node
        requires { number < length (literals_of self.now) }
        ensures { result ≡ literal_node (literal_at (literals_of self.now) number) }
    {
        let (literal, _) = self.literals.get_index(number).unwrap();
        match *literal {
            Literal::Num(z) => Node::Num(z),
            Literal::Bits { width, value } => Node::Bits { width, value },
        }
    }

    #[inline]
    fn list(&self, number: usize) -> &[Id]
        requires { number < length (lists_of self.now) }
        ensures { result.now ≡ list_at (lists_of self.now) number }
    {
        let (list, _) = self.lists.get_index(number).unwrap();
        list.as_slice()
    }
}

// The two parts of an application's key, and none of any other.
#[inline(always)]
fn parts_of(key: &Key) -> Option<(Id, Id)>
    ensures { result ≡ parts_of key.now }
{
    match *key {
        Key::App { fun, arg } => Some((fun, arg)),
        _ => None,
    }
}

// What is to be numbered in a root.
enum Shape {
    // Nothing: it is known by this key.
    Known(Key),
    Literal(Literal),
    // The arguments of an operator.
    Applied { code: OpCode, count: u8 },
}

fn shape_of(node: &Node, args: &[Id]) -> Shape
    requires { HasArguments node.now args.now }
    ensures { IsShape node.now args.now result }
{
    match *node {
        Node::Con(k) => Shape::Known(Key::Con(k)),
        Node::Num(z) => shape_of_number(z),
        Node::Bits { width, value } => Shape::Literal(Literal::Bits { width, value }),
        Node::Str(text) => Shape::Known(Key::Str(text)),
        Node::Par(i) => Shape::Known(Key::Par(i)),
        Node::Var { name, ty } => Shape::Known(Key::Var { name, ty }),
        Node::App { fun, arg } => Shape::Known(Key::App { fun, arg }),
        Node::Arr { from, to } => Shape::Known(Key::Arr { from, to }),
        Node::Qar { par, ty, to } => Shape::Known(Key::Qar { par, ty, to }),
        Node::Op { code, count } => shape_of_operator(code, count, args),
    }
}

fn shape_of_operator(code: OpCode, count: u8, args: &[Id]) -> Shape
    requires { length args.now ≡ count }
    ensures { IsShape (node.Op code count) args.now result }
{
    match code {
        OpCode::Builtin(name) => match *args {
            [first, second] => Shape::Known(Key::Pair {
                name,
                args: [first, second],
            }),
            _ => Shape::Applied { code, count },
        },
        OpCode::Prog(_) => Shape::Applied { code, count },
    }
}

fn shape_of_number(z: i128) -> Shape
    ensures { IsShape (node.Num z) [] result }
{
    match i64::try_from(z) {
        Ok(value) => Shape::Known(Key::Num(SmallNumber { value })),
        Err(_) => Shape::Literal(Literal::Num(z)),
    }
}

// The key of an operator whose arguments have that number.
fn operator_key(code: OpCode, count: u8, args: usize) -> Key
    ensures { result ≡ applied code count args }
{
    match code {
        OpCode::Builtin(name) => Key::Builtin { name, count, args },
        OpCode::Prog(program) => Key::Prog {
            count,
            program,
            args,
        },
    }
}

fn find_literal(literals: &Literals, literal: Literal) -> Option<usize>
    ensures yes { IfSome result (λ l. slice_get (keys_of literals.now.entries) l ≡ Some literal) }
    ensures no { IfNone result (IsAbsent (keys_of literals.now.entries) literal) }
{
    literals.get_index_of(&literal)
}

fn find_list(lists: &IndexMap<Vec<Id>, usize>, args: &[Id]) -> Option<usize>
    ensures yes { IfSome result (λ l. slice_get (list_items lists.now.entries) l ≡ Some args.now) }
    ensures no { IfNone result (IsAbsent (list_items lists.now.entries) args.now) }
{
    lists.get_index_of(args)
}

// The number of a literal, which is added where it is not there.
fn number_literal(
    literals: &mut Literals,
    literal: Literal,
    terms: usize,
) -> Result<usize, AllocError>
    requires numbered { IsNumbered terms (keys_of literals.old.entries) (ages_of literals.old.entries) }
    requires wide { IsWide literal }
    requires all_wide { All IsWide (keys_of literals.old.entries) }
    ensures number { IfOk result (HasNumber terms (keys_of literals.new.entries) (ages_of literals.new.entries) literal) }
    ensures more { MoreLiterals terms literals.old.entries literals.new.entries }
    ensures wide { All IsWide (keys_of literals.new.entries) }
    ensures succeeds { 0 < spare literals.old → IsOk result }
    ensures room { spare literals.old ≤ spare literals.new + 1 }
{
    match find_literal(literals, literal) {
        Some(number) => Ok(number),
        None => {
            let number = literals.len();
            literals.insert(literal, terms)?;
            Ok(number)
        }
    }
}

// The number of a list of arguments, which is added where it is not there.
fn number_list(
    lists: &mut IndexMap<Vec<Id>, usize>,
    args: Vec<Id>,
    terms: usize,
) -> Result<usize, AllocError>
    requires { IsNumbered terms (list_items lists.old.entries) (ages_of lists.old.entries) }
    ensures number { IfOk result (HasNumber terms (list_items lists.new.entries) (ages_of lists.new.entries) args.items) }
    ensures more { MoreLists terms lists.old.entries lists.new.entries }
    ensures succeeds { 0 < spare lists.old → IsOk result }
    ensures room { spare lists.old ≤ spare lists.new + 1 }
{
    match find_list(lists, args.as_slice()) {
        Some(number) => Ok(number),
        None => add_list(lists, args, terms),
    }
}

// The same, where the list is copied to be added.
fn number_copy(
    lists: &mut IndexMap<Vec<Id>, usize>,
    alloc: Global,
    args: &[Id],
    terms: usize,
) -> Result<usize, AllocError>
    requires { IsNumbered terms (list_items lists.old.entries) (ages_of lists.old.entries) }
    ensures number { IfOk result (HasNumber terms (list_items lists.new.entries) (ages_of lists.new.entries) args.now) }
    ensures more { MoreLists terms lists.old.entries lists.new.entries }
{
    match find_list(lists, args) {
        Some(number) => Ok(number),
        None => {
            let owned = args.to_vec(alloc)?;
            add_list(lists, owned, terms)
        }
    }
}

// The number of a list of arguments that is not there, and is added.
fn add_list(
    lists: &mut IndexMap<Vec<Id>, usize>,
    args: Vec<Id>,
    terms: usize,
) -> Result<usize, AllocError>
    requires numbered { IsNumbered terms (list_items lists.old.entries) (ages_of lists.old.entries) }
    requires absent { IsAbsent (list_items lists.old.entries) args.items }
    ensures number { IfOk result (HasNumber terms (list_items lists.new.entries) (ages_of lists.new.entries) args.items) }
    ensures more { MoreLists terms lists.old.entries lists.new.entries }
    ensures succeeds { 0 < spare lists.old → IsOk result }
    ensures room { spare lists.old ≤ spare lists.new + 1 }
{
    let number = lists.len();
    lists.insert(args, terms)?;
    Ok(number)
}

// How many of what has numbers came when there were fewer than so many terms.
fn older<K: Eq + Hash, S: BuildHasher>(numbers: &IndexMap<K, usize, S>, terms: usize) -> usize
    ensures { IsCut (ages_of numbers.now.entries) terms result }
{
    let mut count = numbers.len();
    while count > 0 {
        let (_, age) = numbers.get_index(count - 1).unwrap();
        if *age < terms {
            return count;
        }
        count -= 1;
    }
    count
}
