//! How many arguments an application has and how many items a list, for each term of a table.
ghost use Rattle.std.specs.Prelude.{◌≡◌, ℕ, List, IfSome, option_map, ◌<◌, ◌+◌, length, slice_index_or, OnOk, IfOk};
ghost use Rattle.eo_term.specs.Terms.{tree_at};
ghost use Rattle.eo_lists.specs.Parts.{GivesTree};
ghost use Rattle.eo_sig.specs.Signature as spec;
ghost use Rattle.eo_term.specs.Tree.{Tree};
ghost use Rattle.eo_sig.specs.Reading.{signature, IsBelow, read_attribute, AttributeBelow};
ghost use Rattle.eo_show.specs.Plan.{TellsLengths, some_arguments, some_items, Parts, parted, longer_by};

use eo_sig::{Attribute, Signature};
use eo_term::{Id, Node, Table};
use std::alloc::{AllocError, Global};
use std::marker::Model;

/// One more than the most arguments of an application in one list.
pub(crate) const MANY_ARGUMENTS: u8 = 65;

/// One more than the most items of a list.
pub(crate) const MANY_ITEMS: u16 = 1001;

/// For each term of a table, up to one of them, how many arguments it has as an application and how
/// many items as a list, each up to its bound.
#[derive(Drop)]
pub(crate) struct Lengths {
    chains: Vec<u8>,
    runs: Vec<u16>,
}

impl Model for Lengths {
    ghost use Rattle.eo_show.specs.Plan.{Lengths};

    ghost Value = { Lengths };

    ghost view = { λ a. record { chains = a.chains.items; runs = a.runs.items } };
}

impl Lengths {
    /// Those of all terms.
    pub(crate) fn find(alloc: Global, sig: &Signature, table: &Table) -> Result<Lengths, AllocError>
        requires below { IsBelow (length table.now.trees) sig.now }
        ensures { IfOk result (TellsLengths (signature table.now.trees sig.now) table.now.trees (length table.now.trees)) }
    {
        let mut lengths = Lengths {
            chains: Vec::new(alloc),
            runs: Vec::new(alloc),
        };
        for place in 0..table.len() {
            let next = Id::at(place)?;
            lengths.add(sig, table, next)?;
        }
        Ok(lengths)
    }

    /// How many arguments a term has as an application, up to a bound.
    pub(crate) fn chain(&self, id: Id) -> u8
        requires { id < length self.now.chains }
        ensures { result ≡ slice_index_or self.now.chains id 0 }
    {
        self.chains[id.place()]
    }

    /// How many items a term has as a list, up to a bound; 0, where it is none.
    pub(crate) fn run(&self, id: Id) -> u16
        requires { id < length self.now.runs }
        ensures { result ≡ slice_index_or self.now.runs id 0 }
    {
        self.runs[id.place()]
    }

    // The same for one term more.
    fn add(&mut self, sig: &Signature, table: &Table, id: Id) -> Result<(), AllocError>
        requires live { id < length table.now.trees }
        requires below { IsBelow (length table.now.trees) sig.now }
        requires tells { TellsLengths (signature table.now.trees sig.now) table.now.trees id self.old }
        ensures { OnOk result (TellsLengths (signature table.now.trees sig.now) table.now.trees (id + 1) self.new) }
    {
        let chain = self.next_chain(table, id);
        let run = self.next_run(sig, table, id);
        self.chains.push(chain)?;
        self.runs.push(run)?;
        Ok(())
    }

    fn next_chain(&self, table: &Table, id: Id) -> u8
        requires live { id < length table.now.trees }
        requires count { length self.now.chains ≡ id }
        requires chain { (i : ℕ) → i < id → slice_index_or self.now.chains i 0 ≡ some_arguments (tree_at table.now.trees i) }
        ensures { result ≡ some_arguments (tree_at table.now.trees id) }
    {
        let Node::App { fun, .. } = table.node(id) else {
            return 0;
        };
        let chain = self.chain(fun);
        if chain < MANY_ARGUMENTS {
            chain + 1
        } else {
            MANY_ARGUMENTS
        }
    }

    #[tactic(auto, using(crate::proofs::Items::no_items, crate::proofs::Items::no_terminator, crate::proofs::Items::is_terminator, crate::proofs::Items::one_item, crate::proofs::Items::more_items))]
    fn next_run(&self, sig: &Signature, table: &Table, id: Id) -> u16
        requires live { id < length table.now.trees }
        requires below { IsBelow (length table.now.trees) sig.now }
        requires tells { TellsLengths (signature table.now.trees sig.now) table.now.trees id self.now }
        ensures { result ≡ some_items (signature table.now.trees sig.now) (tree_at table.now.trees id) }
    {
        let Some(link) = unlink(table, id) else {
            return 0;
        };
        let Some(end) = terminator(sig, table, link.constant) else {
            return 0;
        };
        if table.is_same(id, end) {
            return 0;
        }
        if table.is_same(link.rest, end) {
            return 1;
        }
        self.longer(sig, table, &link)
    }

    // The items of a list whose rest is not empty.
    fn longer(&self, sig: &Signature, table: &Table, link: &Link) -> u16
        requires live { link.now.rest < length table.now.trees }
        requires count { link.now.rest < length self.now.runs }
        requires run { slice_index_or self.now.runs link.now.rest 0 ≡ some_items (signature table.now.trees sig.now)
            (tree_at table.now.trees link.now.rest) }
        ensures { result ≡ longer_by (signature table.now.trees sig.now) link.now.constant
            (parted (tree_at table.now.trees link.now.rest)) (tree_at table.now.trees link.now.rest) }
    {
        let Some(after) = unlink(table, link.rest) else {
            return 0;
        };
        if after.constant != link.constant {
            return 0;
        }
        let run = self.run(link.rest);
        if run == 0 {
            return 0;
        }
        if run < MANY_ITEMS {
            run + 1
        } else {
            MANY_ITEMS
        }
    }
}

/// A constant that is applied to an item and the rest of a list.
#[derive(Clone, Copy)]
pub(crate) struct Link {
    pub(crate) constant: usize,
    pub(crate) item: Id,
    pub(crate) rest: Id,
}

/// The constant, the item and the rest, where a constant is applied to two arguments.
pub(crate) fn unlink(table: &Table, id: Id) -> Option<Link>
    requires { id < length table.now.trees }
    ensures { Parts table.now.trees id result }
{
    let Node::App {
        fun: front,
        arg: rest,
    } = table.node(id)
    else {
        return None;
    };
    let Node::App {
        fun: head,
        arg: item,
    } = table.node(front)
    else {
        return None;
    };
    let Node::Con(constant) = table.node(head) else {
        return None;
    };
    Some(Link {
        constant,
        item,
        rest,
    })
}

/// The terminator of a constant that has one.
pub(crate) fn terminator(sig: &Signature, table: &Table, constant: usize) -> Option<Id>
    requires { IsBelow (length table.now.trees) sig.now }
    ensures { GivesTree table.now result (spec.terminator (signature table.now.trees sig.now) constant) }
{
    if constant >= sig.constants() {
        return None;
    }
    end_of(sig.constant(constant).attribute)
}

// The terminator that an attribute holds.
fn end_of(attribute: Attribute) -> Option<Id>
    ensures tree { (ts : List Tree) → option_map (tree_at ts) result ≡ spec.terminator_of (read_attribute ts attribute) }
    ensures live { (m : ℕ) → AttributeBelow m attribute → IfSome result (λ i. i < m) }
{
    match attribute {
        Attribute::RightNil(end) => Some(end),
        Attribute::Plain
        | Attribute::LeftNil(_)
        | Attribute::Right
        | Attribute::Left
        | Attribute::Chain(_)
        | Attribute::Pairs(_)
        | Attribute::Binder(_) => None,
    }
}
