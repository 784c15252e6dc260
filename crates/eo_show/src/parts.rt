//! What a member is written as, and its parts.
ghost use Rattle.std.specs.Prelude.{◌≡◌, IsTrue, ℕ, ◌<◌, ◌+◌, List, [], ◌∷◌, length, map, true, false, IfOk, Some, None};
ghost use Rattle.eo_term.specs.Terms.{Terms, tree_at, text_at};
ghost use Rattle.eo_term.specs.Tree.{Tree, Con, App, Bits, Str};
ghost use Rattle.eo_sig.specs.Reading.{signature, constants_of, read_attribute};
ghost use Rattle.eo_sig.specs.Signature as spec;
ghost use Rattle.eo_show.specs.Forms as forms;
ghost use Rattle.eo_show.specs.Forms.{alone, is_this, name_of, form, by_head, head_of, arguments_of};
ghost use Rattle.eo_show.specs.declared.Shape.TheVariants as shape;
ghost use Rattle.eo_show.specs.Members.{has_no_spelling};
ghost use Rattle.eo_show.specs.Plan.{TellsLengths, IsMemberOf, AreMembersOf, IsForm, IsLive, member_tree, first_items, last_arguments};
ghost use Rattle.eo_show.specs.Plan.{without_arguments, Applies, Knows, KnowsAll, GivesForm, short_list, folding};

use crate::lengths::{Lengths, MANY_ARGUMENTS, MANY_ITEMS, unlink};
use crate::spelling::spell_string;
use crate::{Member, Shape, ShowRefused};
use eo_sig::{Attribute, Entry, Signature};
use eo_term::{Id, Node, Table, TextId};
use std::alloc::{AllocError, Global};

/// The most bytes of a string with its quotes.
pub(crate) const STRING_LIMIT: usize = 1_048_576;

/// What a member is written as, and its parts in order.
#[derive(Drop)]
pub(crate) struct Form {
    pub(crate) shape: Shape,
    pub(crate) parts: Vec<Member>,
}

/// What a term is as a member.
pub(crate) fn member_of(table: &Table, id: Id) -> Member
    requires { id < length table.now.trees }
    ensures { IsMemberOf table.now (tree_at table.now.trees id) result }
{
    match table.node(id) {
        Node::Str(text) => Member::Text(text),
        _ => Member::Term(id),
    }
}

/// The form of a member.
pub(crate) fn form_of(
    alloc: Global,
    sig: &Signature,
    table: &Table,
    lengths: &Lengths,
    member: &Member,
) -> Result<Form, ShowRefused>
    requires live { IsLive table.now member.now }
    requires tells { KnowsAll sig.now table.now member.now lengths.now }
    ensures { GivesForm (signature table.now.trees sig.now) table.now (member_tree table.now member.now) result }
{
    match *member {
        Member::Text(text) => string_form(alloc, table, text),
        Member::Term(id) => term_form(alloc, sig, table, lengths, id),
    }
}

#[tactic(auto, unfolding(crate::specs::Forms::form))]
fn string_form(alloc: Global, table: &Table, text: TextId) -> Result<Form, ShowRefused>
    requires { text < length table.now.texts }
    ensures { (S : spec.Signature) → GivesForm S table.now (Str (text_at table.now.texts text)) result }
{
    let spelled = spell_string(alloc, table, text)?;
    if spelled.as_slice().len() > STRING_LIMIT {
        return Err(ShowRefused::Unprintable);
    }
    Ok(leaf(alloc))
}

fn leaf(alloc: Global) -> Form
    ensures shape { result.shape ≡ shape.Leaf }
    ensures parts { (t : Terms) → AreMembersOf t [] result.parts.items }
{
    Form {
        shape: Shape::Leaf,
        parts: Vec::new(alloc),
    }
}

#[tactic(auto, unfolding(crate::specs::Forms::form))]
fn term_form(
    alloc: Global,
    sig: &Signature,
    table: &Table,
    lengths: &Lengths,
    id: Id,
) -> Result<Form, ShowRefused>
    requires live { id < length table.now.trees }
    requires tells { Knows sig.now table.now id lengths.now }
    ensures { GivesForm (signature table.now.trees sig.now) table.now (tree_at table.now.trees id) result }
{
    match table.node(id) {
        Node::Con(k) => constant_form(alloc, sig, k),
        Node::Num(_) => Ok(leaf(alloc)),
        Node::Bits { width, .. } => bits_form(alloc, width),
        Node::Str(text) => string_form(alloc, table, text),
        Node::Par(_) => Ok(leaf(alloc)),
        Node::Var { name, ty } => form_or_refusal(variable_form(alloc, table, name, ty)),
        Node::App { fun, arg } => {
            form_or_refusal(application_form(alloc, sig, table, lengths, id, fun, arg))
        }
        Node::Arr { from, to } => form_or_refusal(function_form(alloc, table, from, to)),
        Node::Qar { .. } => Ok(leaf(alloc)),
        Node::Op { .. } => Ok(leaf(alloc)),
    }
}

fn form_or_refusal(found: Result<Form, AllocError>) -> Result<Form, ShowRefused>
    ensures { (S : spec.Signature) (t : Terms) (u : Tree) → has_no_spelling S u ≡ false →
        IfOk found (λ f. IsForm S t (form S u) f.shape f.parts.items) → GivesForm S t u result }
{
    match found {
        Ok(form) => Ok(form),
        Err(e) => Err(ShowRefused::Memory(e)),
    }
}

#[tactic(auto, unfolding(crate::specs::Forms::form))]
fn constant_form(alloc: Global, sig: &Signature, constant: usize) -> Result<Form, ShowRefused>
    ensures { (t : Terms) (ts : List Tree) → GivesForm (signature ts sig.now) t (Con constant) result }
{
    if takes(sig, constant) {
        Ok(leaf(alloc))
    } else {
        Err(ShowRefused::Unprintable)
    }
}

#[tactic(auto, unfolding(crate::specs::Forms::form))]
fn bits_form(alloc: Global, width: u8) -> Result<Form, ShowRefused>
    ensures { (S : spec.Signature) (t : Terms) (v : ℕ) → GivesForm S t (Bits width v) result }
{
    if width == 0 {
        Err(ShowRefused::Unprintable)
    } else {
        Ok(leaf(alloc))
    }
}

// A function type.
fn function_form(alloc: Global, table: &Table, from: Id, to: Id) -> Result<Form, AllocError>
    requires first { from < length table.now.trees }
    requires second { to < length table.now.trees }
    ensures { (S : spec.Signature) → IfOk result (λ f. IsForm S table.now (forms.Function (tree_at table.now.trees from)
        (tree_at table.now.trees to)) f.shape f.parts.items) }
{
    let form = two_parts(alloc, table, Shape::Function, from, to)?;
    Ok(form)
}

/// Whether the name of a constant means it by itself: it is the first of its name.
#[tactic(auto, using(crate::proofs::Lookups::none_past, crate::proofs::Lookups::name_given))]
pub(crate) fn takes(sig: &Signature, constant: usize) -> bool
    ensures within { IsTrue result → constant < length (constants_of sig.now) }
    ensures tells { (ts : List Tree) → result ≡ is_this (signature ts sig.now) constant
        (alone (signature ts sig.now) (name_of (signature ts sig.now) constant)) }
{
    if constant >= sig.constants() {
        return false;
    }
    match constant_named(sig, sig.constant(constant).name.as_bytes()) {
        Some(k) => k == constant,
        None => false,
    }
}

// The constant that a name means by itself.
#[tactic(auto, using(crate::proofs::Lookups::as_constant_is))]
fn constant_named(sig: &Signature, name: &[u8]) -> Option<usize>
    ensures { (ts : List Tree) → result ≡ spec.constant_named (signature ts sig.now) name.now }
{
    match sig.lookup(name) {
        Some(Entry::Constant(k)) => Some(k),
        Some(Entry::Macro(_)) => None,
        Some(Entry::Program(_)) => None,
        None => None,
    }
}

/// Whether the name of a constant means it before so many arguments.
#[tactic(auto, using(crate::proofs::Lookups::none_before, crate::proofs::Lookups::name_given))]
fn takes_before(sig: &Signature, constant: usize, n: usize) -> bool
    ensures within { IsTrue result → constant < length (constants_of sig.now) }
    ensures tells { (ts : List Tree) → result ≡ forms.takes (signature ts sig.now) constant n }
{
    if constant >= sig.constants() {
        return false;
    }
    match constant_before(sig, sig.constant(constant).name.as_bytes(), n) {
        Some(k) => k == constant,
        None => false,
    }
}

// The constant that a name means before so many arguments.
#[tactic(auto, using(crate::proofs::Lookups::as_constant_before))]
fn constant_before(sig: &Signature, name: &[u8], n: usize) -> Option<usize>
    ensures { (ts : List Tree) → result ≡ spec.constant_for (signature ts sig.now) name.now n }
{
    match sig.lookup_count(name, n) {
        Some(Entry::Constant(k)) => Some(k),
        Some(Entry::Macro(_)) => None,
        Some(Entry::Program(_)) => None,
        None => None,
    }
}

fn variable_form(alloc: Global, table: &Table, name: TextId, ty: Id) -> Result<Form, AllocError>
    requires name { name < length table.now.texts }
    requires second { ty < length table.now.trees }
    ensures { (S : spec.Signature) → IfOk result (λ f. IsForm S table.now (forms.Variable (text_at table.now.texts name)
        (tree_at table.now.trees ty)) f.shape f.parts.items) }
{
    let mut parts = Vec::new(alloc);
    parts.push(Member::Text(name))?;
    parts.push(member_of(table, ty))?;
    Ok(Form {
        shape: Shape::Variable,
        parts,
    })
}

fn two_parts(
    alloc: Global,
    table: &Table,
    shape: Shape,
    first: Id,
    second: Id,
) -> Result<Form, AllocError>
    requires first { first < length table.now.trees }
    requires second { second < length table.now.trees }
    ensures shape { IfOk result (λ f. f.shape ≡ shape) }
    ensures parts { IfOk result (λ f. AreMembersOf table.now
        (tree_at table.now.trees first ∷ tree_at table.now.trees second ∷ []) f.parts.items) }
{
    let mut parts = Vec::new(alloc);
    parts.push(member_of(table, first))?;
    parts.push(member_of(table, second))?;
    Ok(Form { shape, parts })
}

// A function that is applied plainly to one argument.
fn plain_pair(alloc: Global, table: &Table, fun: Id, arg: Id) -> Result<Form, AllocError>
    requires first { fun < length table.now.trees }
    requires second { arg < length table.now.trees }
    ensures { (S : spec.Signature) → IfOk result (λ f. IsForm S table.now (forms.Plainly (tree_at table.now.trees fun)
        (tree_at table.now.trees arg ∷ [])) f.shape f.parts.items) }
{
    let form = two_parts(alloc, table, Shape::Plainly, fun, arg)?;
    Ok(form)
}

// The form of an application.
fn application_form(
    alloc: Global,
    sig: &Signature,
    table: &Table,
    lengths: &Lengths,
    id: Id,
    fun: Id,
    arg: Id,
) -> Result<Form, AllocError>
    requires live { id < length table.now.trees }
    requires tells { Knows sig.now table.now id lengths.now }
    requires parts { (fun < id) × (arg < id) }
    requires tree { tree_at table.now.trees id ≡ App (tree_at table.now.trees fun) (tree_at table.now.trees arg) }
    ensures { IfOk result (λ f. IsForm (signature table.now.trees sig.now) table.now (form (signature table.now.trees sig.now)
        (tree_at table.now.trees id)) f.shape f.parts.items) }
{
    if let Some(constant) = short_list(sig, table, lengths, id) {
        let parts = items(alloc, table, lengths.run(id), id)?;
        return Ok(Form {
            shape: Shape::Folded(constant),
            parts,
        });
    }
    let count = lengths.chain(id);
    if count < MANY_ARGUMENTS {
        chain_form(alloc, sig, table, id, count)
    } else {
        plain_pair(alloc, table, fun, arg)
    }
}

// The constant of a list that is written by its items.
fn short_list(sig: &Signature, table: &Table, lengths: &Lengths, id: Id) -> Option<usize>
    requires live { id < length table.now.trees }
    requires tells { Knows sig.now table.now id lengths.now }
    ensures { result ≡ short_list (signature table.now.trees sig.now) (tree_at table.now.trees id) }
{
    let run = lengths.run(id);
    if run < 1 {
        return None;
    }
    if run >= MANY_ITEMS {
        return None;
    }
    let link = unlink(table, id)?;
    if takes_before(sig, link.constant, run as usize) {
        Some(link.constant)
    } else {
        None
    }
}

// So many items of a list.
fn items(alloc: Global, table: &Table, count: u16, list: Id) -> Result<Vec<Member>, AllocError>
    requires { list < length table.now.trees }
    ensures { IfOk result (λ v. AreMembersOf table.now (first_items count (tree_at table.now.trees list)) v.items) }
{
    let mut found = Vec::new(alloc);
    let mut rest = list;
    for _ in 0..count {
        let Some(link) = unlink(table, rest) else {
            return Ok(found);
        };
        found.push(member_of(table, link.item))?;
        rest = link.rest;
    }
    Ok(found)
}

// An application of a head to so many arguments.
fn chain_form(
    alloc: Global,
    sig: &Signature,
    table: &Table,
    id: Id,
    count: u8,
) -> Result<Form, AllocError>
    requires live { id < length table.now.trees }
    requires count { count ≡ length (arguments_of (tree_at table.now.trees id)) }
    ensures { IfOk result (λ f. IsForm (signature table.now.trees sig.now) table.now (by_head (signature table.now.trees sig.now)
        (head_of (tree_at table.now.trees id)) (arguments_of (tree_at table.now.trees id))) f.shape f.parts.items) }
{
    let head = head_of(table, id, count);
    let mut parts = arguments(alloc, table, id, count)?;
    match folding(sig, table, head, count) {
        Some(constant) => {
            parts.reverse();
            Ok(Form {
                shape: Shape::Folded(constant),
                parts,
            })
        }
        None => {
            parts.push(member_of(table, head))?;
            parts.reverse();
            Ok(Form {
                shape: Shape::Plainly,
                parts,
            })
        }
    }
}

// A function and its argument.
#[derive(Clone, Copy)]
pub(crate) struct Pair {
    fun: Id,
    arg: Id,
}

fn unapply(table: &Table, id: Id) -> Option<Pair>
    requires { id < length table.now.trees }
    ensures { Applies table.now.trees id result }
{
    match table.node(id) {
        Node::App { fun, arg } => Some(Pair { fun, arg }),
        _ => None,
    }
}

// What is applied to so many arguments.
fn head_of(table: &Table, id: Id, count: u8) -> Id
    requires { id < length table.now.trees }
    ensures live { result < length table.now.trees }
    ensures tree { tree_at table.now.trees result ≡ without_arguments count (tree_at table.now.trees id) }
{
    let mut head = id;
    for _ in 0..count {
        let Some(pair) = unapply(table, head) else {
            return head;
        };
        head = pair.fun;
    }
    head
}

// So many arguments, the last first.
fn arguments(alloc: Global, table: &Table, id: Id, count: u8) -> Result<Vec<Member>, AllocError>
    requires { id < length table.now.trees }
    ensures { IfOk result (λ v. AreMembersOf table.now (last_arguments count (tree_at table.now.trees id)) v.items) }
{
    let mut found = Vec::new(alloc);
    let mut front = id;
    for _ in 0..count {
        let Some(pair) = unapply(table, front) else {
            return Ok(found);
        };
        found.push(member_of(table, pair.arg))?;
        front = pair.fun;
    }
    Ok(found)
}

// The constant, where the head is one that is written before so many arguments.
fn folding(sig: &Signature, table: &Table, head: Id, count: u8) -> Option<usize>
    requires { head < length table.now.trees }
    ensures { result ≡ folding (signature table.now.trees sig.now) (tree_at table.now.trees head) count }
{
    let Node::Con(constant) = table.node(head) else {
        return None;
    };
    if !takes_before(sig, constant, count as usize) {
        return None;
    }
    if joins_plainly(sig.constant(constant).attribute, count) {
        Some(constant)
    } else {
        None
    }
}

// Whether so many arguments are applied plainly.
fn joins_plainly(attribute: Attribute, count: u8) -> bool
    ensures { (ts : List Tree) → result ≡ forms.joins_plainly (read_attribute ts attribute) count }
{
    match attribute {
        Attribute::Plain => true,
        Attribute::Right | Attribute::Left | Attribute::Chain(_) | Attribute::Pairs(_) => {
            count == 2
        }
        Attribute::RightNil(_) | Attribute::LeftNil(_) | Attribute::Binder(_) => false,
    }
}
