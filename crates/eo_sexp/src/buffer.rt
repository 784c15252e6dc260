//! The bytes of a command that is begun, and its parts.
ghost use Rattle.std.specs.Prelude.{◌≡◌, ◌<◌, ◌≤◌, ◌+◌, ◌^◌, ℕ, ◌∷◌, [], ◌++◌, length, take, reverse};
ghost use Rattle.std.specs.Prelude.{OnOk, IfOk};
ghost use Rattle.eo_sexp.specs.Nodes.{token_atom, Delimits, HasText, first_of};
ghost use Rattle.eo_sexp.specs.Parts.{IsPart};
ghost use Rattle.eo_sexp.specs.Built.{nothing, with_child, closed, opened, width_of, parts_of};
ghost use Rattle.eo_sexp.specs.Token.{kind_meant};

use crate::count::Count;
use crate::lent::{Node, Parts, Sexp, first};
use crate::token::AtomKind;
use std::alloc::{AllocError, Global};
use std::marker::Model;

mod appending;
mod counting;

use appending::append;
use counting::count_child;

/// A list that is open: the byte of its `(`, its node, and how many children it has so far.
#[derive(Clone, Copy)]
pub(crate) struct Open {
    at: u32,
    node: usize,
    children: u32,
}

/// The bytes of a command that is begun, and its parts so far.
#[derive(Drop)]
pub(crate) struct Buffer {
    parts: Parts,
    // the innermost last
    lists: Vec<Open>,
}

impl Model for Buffer {
    ghost use Rattle.std.specs.Prelude.{reverse, vec_capacity};
    ghost use Rattle.std.specs.Coded.{codes};
    ghost use Rattle.eo_sexp.specs.SexpCode.{sexp_coded};
    ghost use Rattle.eo_sexp.specs.Built.{Built};

    ghost Value = { Built };

    ghost coded = { Prim.hlevel (codes, sexp_coded) };

    ghost use Rattle.eo_sexp.specs.Buffers.{built, IsBuffer};

    ghost view = { λ a. built a.parts.bytes.items a.parts.nodes.items (reverse a.lists.items) };

    ghost invariant = { λ a. IsBuffer a.parts.bytes.items a.parts.nodes.items (vec_capacity a.parts.nodes) (reverse a.lists.items) };
}

impl Buffer {
    /// An empty buffer.
    pub(crate) fn new(alloc: Global) -> Result<Buffer, AllocError>
        ensures { IfOk result (λ b. b ≡ nothing) }
    {
        let mut nodes = Vec::new(alloc);
        nodes.reserve(1)?;
        Ok(Buffer {
            parts: Parts {
                bytes: Vec::new(alloc),
                nodes,
            },
            lists: Vec::new(alloc),
        })
    }

    /// Drops everything, and keeps the room.
    pub(crate) fn clear(&mut self)
        ensures { self.new ≡ nothing }
    {
        self.parts.bytes.clear();
        self.parts.nodes.clear();
        self.lists.clear();
    }

    /// The bytes so far.
    pub(crate) fn bytes(&self) -> &[u8]
        ensures { result.now ≡ self.now.bytes }
    {
        self.parts.bytes.as_slice()
    }

    /// How many lists are open.
    pub(crate) fn depth(&self) -> usize
        ensures { result ≡ length self.now.open_lists }
    {
        self.lists.len()
    }

    /// How many children the innermost list has.
    pub(crate) fn width(&self) -> usize
        ensures { result ≡ width_of self.now.open_lists }
    {
        match self.lists.as_slice() {
            [] => 0,
            [.., last] => last.children as usize,
        }
    }

    /// Keeps one byte more.
    pub(crate) fn push(&mut self, x: u8) -> Result<(), AllocError>
        ensures { OnOk result (self.new ≡ record self.old { bytes = self.old.bytes ++ x ∷ [] }) }
    {
        self.parts.bytes.push(x)?;
        Ok(())
    }

    /// Keeps the first `n` of these bytes too.
    #[inline(always)]
    pub(crate) fn extend(&mut self, more: &[u8], n: usize) -> Result<(), AllocError>
        requires { n ≤ length more.now }
        ensures { OnOk result (self.new ≡ record self.old { bytes = self.old.bytes ++ take n more.now }) }
    {
        append(&mut self.parts.bytes, more, n)?;
        Ok(())
    }

    /// Adds an atom to the innermost list.
    pub(crate) fn add_atom(
        &mut self,
        kind: AtomKind,
        delimited: bool,
        from: usize,
        to: usize,
    ) -> Result<(), AllocError>
        requires text { HasText self.old.bytes delimited from to }
        requires delimits { Delimits (kind_meant kind) delimited }
        requires short { to ≤ 2 ^ 31 }
        requires own { parts_of self.old ≤ from }
        ensures { OnOk result (self.new ≡ with_child self.old (token_atom self.old.bytes kind delimited from to)) }
    {
        self.parts.nodes.push(Node::Atom {
            kind,
            delimited,
            from: from as u32,
            to: to as u32,
        })?;
        count_child(&mut self.lists, self.parts.nodes.len());
        Ok(())
    }

    /// Adds an atom that is the whole command. It takes no memory.
    pub(crate) fn be_atom(&mut self, kind: AtomKind, delimited: bool, from: usize, to: usize)
        requires text { HasText self.old.bytes delimited from to }
        requires delimits { Delimits (kind_meant kind) delimited }
        requires short { to ≤ 2 ^ 31 }
        requires none { self.old.done ≡ [] }
        requires outside { self.old.open_lists ≡ [] }
        ensures { self.new ≡ with_child self.old (token_atom self.old.bytes kind delimited from to) }
    {
        self.parts.nodes.clear();
        self.parts.nodes.push_reserved(Node::Atom {
            kind,
            delimited,
            from: from as u32,
            to: to as u32,
        });
    }

    /// Opens a list.
    pub(crate) fn open_list(&mut self, at: usize) -> Result<(), AllocError>
        requires short { at < 2 ^ 31 }
        requires within { at ≤ length self.old.bytes }
        requires own { parts_of self.old ≤ at }
        ensures { OnOk result (self.new ≡ opened self.old at) }
    {
        let node = self.parts.nodes.len();
        self.lists.push(Open {
            at: at as u32,
            node,
            children: 0,
        })?;
        let list = Node::List {
            children: Count::new(0),
            inside: 0,
            from: at as u32,
            to: at as u32,
        };
        if let Err(e) = self.parts.nodes.push(list) {
            self.parts.nodes.clear();
            self.lists.clear();
            return Err(e.into());
        }
        Ok(())
    }

    /// Closes the innermost list before this byte. It takes no memory.
    pub(crate) fn close_list(&mut self, to: usize)
        requires some { 0 < length self.old.open_lists }
        requires short { to ≤ 2 ^ 24 + 1 }
        requires own { parts_of self.old < to }
        requires behind { length self.old.bytes < to }
        ensures { self.new ≡ closed self.old to }
    {
        let Open { at, node, children } = self.lists.pop().unwrap();
        let inside = self.parts.nodes.len() - node - 1;
        self.parts.nodes[node] = Node::List {
            children: Count::new(children as usize),
            inside: inside as u32,
            from: at,
            to: to as u32,
        };
        count_child(&mut self.lists, self.parts.nodes.len());
    }

    /// The first s-expression that is whole. It takes no memory.
    pub(crate) fn first(&self) -> Sexp<'_>
        requires some { 0 < length self.now.done }
        requires whole { self.now.open_lists ≡ [] }
        ensures { result ≡ first_of self.now.done }
    {
        first(&self.parts)
    }

    /// A law: what is whole is made of parts of the bytes.
    pub(crate) fn parts_law(&self)
        requires { self.now.open_lists ≡ [] }
        ensures { IsPart self.now.bytes (first_of self.now.done) }
    {
        let _count = self.parts.nodes.len();
    }
}
