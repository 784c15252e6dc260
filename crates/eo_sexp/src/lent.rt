//! S-expressions that borrow from the bytes of a command and a flat list of its parts.
ghost use Rattle.std.specs.Prelude.{◌≡◌, ◌<◌, ◌≤◌, ◌+◌, ◌∷◌, [], ℕ, length, drop, take};
ghost use Rattle.eo_sexp.specs.Sexp.{sexp_text, sexp_children, sexp_span};
ghost use Rattle.eo_sexp.specs.Kinds.{sexp_kind};
ghost use Rattle.eo_sexp.specs.Pairs.{list_of};
ghost use Rattle.eo_sexp.specs.Pairs.{pair_of_span, only_one, first_one, first_two, only_two, only_three, first_three};
ghost use Rattle.eo_sexp.specs.Nodes.{IsSexp, first_of, trees_at, AreLinked};

use crate::Kind;
use crate::count::Count;
use crate::token::AtomKind;
use std::marker::Model;

/// A part of a command. The parts are in the order of their first bytes, so a list is right
/// before its children, and each of these before what is inside of it.
///
/// A command has up to one node for each of its bytes, and the time to read a large one is that of
/// touching their memory. So a node has numbers of 24 and 32 bits, which a command's bytes are below,
/// and takes 16 bytes.
#[derive(Clone, Copy, Debug)]
pub(crate) enum Node {
    /// A token from one byte up to another, that one excluded. `delimited` says whether it has a bar or a
    /// quote at each end, which are no part of its text.
    Atom {
        kind: AtomKind,
        delimited: bool,
        from: u32,
        to: u32,
    },
    /// A list of so many children. So many nodes are in it.
    List {
        children: Count,
        inside: u32,
        from: u32,
        to: u32,
    },
}

/// The bytes of a command, and its parts.
#[derive(Debug, Drop)]
pub(crate) struct Parts {
    pub(crate) bytes: Vec<u8>,
    pub(crate) nodes: Vec<Node>,
}

/// A command, or a part of one. It borrows from what reads the file, and takes 16 bytes, so that the
/// shape of a command, which holds several, is cheap to move.
#[derive(Debug, Drop)]
pub struct Sexp<'b> {
    parts: &'b Parts,
    // the place of its node
    at: u32,
}

impl<'b> Model for Sexp<'b> {
    ghost use Rattle.eo_sexp.specs.Sexp.{Sexp};
    ghost use Rattle.eo_sexp.specs.SexpCode.{sexp_coded};

    ghost Value = { Sexp };

    ghost coded = { sexp_coded };

    ghost use Rattle.eo_sexp.specs.Nodes.{first_of, trees_at, IsSexp};

    ghost view = { λ a. first_of (trees_at a.parts.now a.at) };

    ghost invariant = { λ a. IsSexp a.parts.now a.at };
}

/// The parts of a list, in order. The value takes 16 bytes, however many they are.
#[derive(Debug, Drop)]
pub struct Children<'b> {
    parts: &'b Parts,
    // the place of the next one's node
    at: u32,
    left: u32,
}

impl<'b> Model for Children<'b> {
    ghost use Rattle.std.specs.Prelude.{List, take};
    ghost use Rattle.std.specs.Coded.{coded_list};
    ghost use Rattle.eo_sexp.specs.Sexp.{Sexp};
    ghost use Rattle.eo_sexp.specs.SexpCode.{sexp_coded};

    ghost Value = { List Sexp };

    ghost coded = { coded_list sexp_coded };

    ghost use Rattle.eo_sexp.specs.Nodes.{trees_at, AreSexps};

    ghost view = { λ a. take a.left (trees_at a.parts.now a.at) };

    ghost invariant = { λ a. AreSexps a.parts.now a.at a.left };
}

/// The first s-expression of these parts.
pub(crate) fn first<'b>(parts: &'b Parts) -> Sexp<'b>
    requires { IsSexp parts.now 0 }
    ensures { result ≡ first_of (trees_at parts.now 0) }
{
    Sexp { parts, at: 0 }
}

// The node at this place.
#[inline(always)]
fn node_at(parts: &Parts, at: u32) -> Node
    requires { at < length parts.now.nodes.items }
    ensures { drop at parts.now.nodes.items ≡ result ∷ drop (at + 1) parts.now.nodes.items }
{
    parts.nodes[at as usize]
}

// The place after the s-expression at this place.
fn behind(parts: &Parts, at: u32) -> u32
    requires { IsSexp parts.now at }
    ensures trees { trees_at parts.now result ≡ drop 1 (trees_at parts.now at) }
    ensures linked { AreLinked parts.now.bytes.items (drop result parts.now.nodes.items) }
{
    match node_at(parts, at) {
        Node::Atom { .. } => at + 1,
        Node::List { inside, .. } => at + 1 + inside,
    }
}

impl<'b> Sexp<'b> {
    /// What it is.
    pub fn kind(&self) -> Kind
        ensures { result ≡ sexp_kind self.now }
    {
        match node_at(self.parts, self.at) {
            Node::Atom { kind, .. } => kind.kind_of_atom(),
            Node::List { .. } => Kind::List,
        }
    }

    /// The bytes of an atom, without bars or quotes; none of a list.
    pub fn text(&self) -> &'b [u8]
        ensures { result.now ≡ sexp_text self.now }
    {
        let parts = self.parts;
        match node_at(parts, self.at) {
            Node::Atom {
                delimited: true,
                from,
                to,
                ..
            } => &parts.bytes[from as usize + 1..to as usize - 1],
            Node::Atom { from, to, .. } => &parts.bytes[from as usize..to as usize],
            Node::List { .. } => &[],
        }
    }

    /// How many bytes of the command are before its first byte, and before the byte after its
    /// last.
    pub fn span(&self) -> (usize, usize)
        ensures { result ≡ pair_of_span (sexp_span self.now) }
    {
        match node_at(self.parts, self.at) {
            Node::Atom { from, to, .. } => (from as usize, to as usize),
            Node::List { from, to, .. } => (from as usize, to as usize),
        }
    }

    /// The parts, where it is a list.
    #[tactic(auto, using(crate::proofs::Parts::children_of_sexps))]
    pub fn list(&self) -> Option<Children<'b>>
        ensures { result ≡ list_of self.now }
    {
        let parts = self.parts;
        let at = self.at;
        match node_at(parts, at) {
            Node::Atom { .. } => None,
            Node::List { children, .. } => Some(Children {
                parts,
                at: at + 1,
                left: children.get(),
            }),
        }
    }

    /// The parts of a list; none of an atom.
    #[tactic(auto, using(crate::proofs::Parts::children_of_sexps))]
    pub fn children(&self) -> Children<'b>
        ensures { result ≡ sexp_children self.now }
    {
        let parts = self.parts;
        let at = self.at;
        match node_at(parts, at) {
            Node::Atom { .. } => Children { parts, at, left: 0 },
            Node::List { children, .. } => Children {
                parts,
                at: at + 1,
                left: children.get(),
            },
        }
    }
}

impl<'b> Iterator for Children<'b> {
    ghost use Rattle.std.specs.Iterator.{YieldsFirst, item_count};

    type Item = Sexp<'b>;

    ghost next_gives = { YieldsFirst (λ rest. rest) };

    ghost remaining = { item_count (λ rest. rest) };

    fn next(&mut self) -> Option<Sexp<'b>> {
        if self.left == 0 {
            return None;
        }
        let parts = self.parts;
        let at = self.at;
        self.left -= 1;
        self.at = behind(parts, at);
        Some(Sexp { parts, at })
    }

    fn size_hint(&self) -> (usize, Option<usize>) {
        (self.left as usize, Some(self.left as usize))
    }
}

impl<'b> ExactSizeIterator for Children<'b> {
    fn len(&self) -> usize {
        self.left as usize
    }
}

impl<'b> Children<'b> {
    /// The same parts once more.
    pub fn again(&self) -> Children<'b>
        ensures { result ≡ self.now }
    {
        Children {
            parts: self.parts,
            at: self.at,
            left: self.left,
        }
    }

    /// No part, as of an empty list.
    pub fn none(&self) -> Children<'b>
        ensures { result ≡ [] }
    {
        Children {
            parts: self.parts,
            at: self.at,
            left: 0,
        }
    }
}

impl<'b> Children<'b> {
    /// The first part, and the others.
    pub fn split_first(&self) -> Option<(Sexp<'b>, Children<'b>)>
        ensures { result ≡ first_one self.now }
    {
        let mut rest = self.again();
        let first = rest.next()?;
        Some((first, rest))
    }

    /// The first part.
    pub fn first(&self) -> Sexp<'b>
        requires { 0 < length self.now }
        ensures { self.now ≡ result ∷ drop 1 self.now }
    {
        let mut rest = self.again();
        rest.next().unwrap()
    }

    /// The first two parts, and the others.
    pub fn split_two(&self) -> Option<(Sexp<'b>, Sexp<'b>, Children<'b>)>
        ensures { result ≡ first_two self.now }
    {
        let mut rest = self.again();
        let first = rest.next()?;
        let second = rest.next()?;
        Some((first, second, rest))
    }

    /// The first three parts, and the others.
    pub fn split_three(&self) -> Option<(Sexp<'b>, Sexp<'b>, Sexp<'b>, Children<'b>)>
        ensures { result ≡ first_three self.now }
    {
        let (first, rest) = self.split_first()?;
        let (second, third, rest) = rest.split_two()?;
        Some((first, second, third, rest))
    }

    /// The part, where there is one.
    pub fn only_one(&self) -> Option<Sexp<'b>>
        ensures { result ≡ only_one self.now }
    {
        let (first, rest) = self.split_first()?;
        if rest.len() != 0 {
            return None;
        }
        Some(first)
    }

    /// The parts, where there are two.
    pub fn only_two(&self) -> Option<(Sexp<'b>, Sexp<'b>)>
        ensures { result ≡ only_two self.now }
    {
        let (first, second, rest) = self.split_two()?;
        if rest.len() != 0 {
            return None;
        }
        Some((first, second))
    }

    /// The parts, where there are three.
    pub fn only_three(&self) -> Option<(Sexp<'b>, Sexp<'b>, Sexp<'b>)>
        ensures { result ≡ only_three self.now }
    {
        let mut rest = self.again();
        let first = rest.next()?;
        let (second, third) = rest.only_two()?;
        Some((first, second, third))
    }
}
