//! The texts that stay of a table that is cut at a mark.
ghost use Rattle.std.specs.Prelude.{◌≡◌, ℕ, ◌+◌, ◌<◌, ◌≤◌, ◌^◌, [], ◌∷◌, ◌++◌, length, take, drop, Some};
ghost use Rattle.std.specs.Prelude.{IfSome, IfOk, OnOk, OnErr, true, false, if◌then◌else◌, slice_index_or};
ghost use Rattle.indexmap.specs.IndexSet.{spare};
ghost use Rattle.eo_term.specs.Keys.{entries_of, IsKept};
ghost use Rattle.eo_term.specs.Terms.{AreApart};
ghost use Rattle.eo_term.specs.Carry.{chosen, trues, ArePlaces, IsNeeded, Adds, AddsOnly};
ghost use Rattle.eo_term.specs.Carry.{text_in, texts_of, AreTextsBelow, AreNeededTexts, IsAbsentText};

use super::{count_needed, need};
use crate::nodes::Nodes;
use crate::{Node, TextId};
use indexmap::IndexSet;
use std::alloc::{AllocError, Global};
use std::hash::{BuildHasherDefault, DefaultHasher};

/// Texts by their numbers. A file chooses them freely, so they are hashed by SipHash.
pub(crate) type Texts = IndexSet<Vec<u32>, BuildHasherDefault<DefaultHasher>>;

// The text of a node.
fn text_in(node: &Node) -> Option<TextId>
    ensures { result ≡ text_in node.now }
{
    match *node {
        Node::Str(text) => Some(text),
        Node::Var { name, .. } => Some(name),
        _ => None,
    }
}

// Marks the text of a node, if it is not one that stays anyway.
fn need_text(needed: &mut Vec<bool>, first: usize, end: usize, node: &Node)
    requires below { IfSome (text_in node.now) (λ s. s < end) }
    requires within { end ≤ first + length needed.old.items }
    ensures adds { Adds first end needed.old.items needed.new.items }
    ensures only { AddsOnly first (λ s. text_in node.now ≡ Some s) needed.old.items needed.new.items }
    ensures needed { IfSome (text_in node.now) (IsNeeded first needed.new.items) }
{
    if let Some(text) = text_in(node) {
        need(needed, first, end, text.place());
    }
}

// Marks what is needed of the texts from `first` on, up to the end, for the terms that are needed
// from `start` on. Where there are no such texts, no term is looked at.
pub(super) fn needed_texts(
    alloc: Global,
    nodes: &Nodes,
    start: usize,
    terms: &[bool],
    first: usize,
    end: usize,
) -> Result<Vec<bool>, AllocError>
    requires kept { IsKept nodes.now }
    requires long { start + length terms.now ≡ length (entries_of nodes.now) }
    requires first { first ≤ end }
    requires below { AreTextsBelow end (entries_of nodes.now) }
    ensures { IfOk result (λ v. AreNeededTexts (entries_of nodes.now) start terms.now first end v.items) }
{
    if first == end {
        return Ok(Vec::new(alloc));
    }
    let _len = nodes.len();
    let mut needed = vec![in alloc; false; end - first]?;
    for (j, b) in terms.iter().enumerate() {
        if *b {
            let (node, _, _) = nodes.get(start + j);
            need_text(&mut needed, first, end, &node);
        }
    }
    Ok(needed)
}

// The new places of the texts from `first` on.
pub(super) fn text_places(
    alloc: Global,
    first: usize,
    needed: &[bool],
) -> Result<Vec<TextId>, AllocError>
    requires { first + length needed.now < 2 ^ 63 }
    ensures long { IfOk result (λ ps. length ps.items ≡ length needed.now) }
    ensures places { IfOk result (λ ps. ArePlaces first needed.now ps.items) }
{
    let mut places = Vec::with_capacity(alloc, needed.len())?;
    let mut number = first;
    for b in needed {
        places.push(TextId { number })?;
        if *b {
            number += 1;
        }
    }
    Ok(places)
}

/// Drops the texts from `first` on that are not needed. `Err` is out of memory, and all stay.
pub(crate) fn cut_texts(texts: &mut Texts, first: usize, needed: &[bool]) -> Result<(), AllocError>
    requires long { first + length needed.now ≡ length texts.old.keys }
    requires apart { AreApart (texts_of texts.old.keys) }
    ensures ok { OnOk result (texts_of texts.new.keys
        ≡ take first (texts_of texts.old.keys) ++ chosen needed.now (drop first (texts_of texts.old.keys))) }
    ensures err { OnErr result (texts_of texts.new.keys ≡ texts_of texts.old.keys) }
{
    let count = count_needed(needed);
    if count == needed.len() {
        return Ok(());
    }
    texts.reserve(count)?;
    let newer = texts.split_off(first)?;
    put_texts(texts, newer, needed);
    Ok(())
}

// Puts those texts at the end that are needed, for which there is room.
fn put_texts(texts: &mut Texts, newer: Texts, needed: &[bool])
    requires long { length needed.now ≡ length newer.keys }
    requires room { trues needed.now ≤ spare texts.old }
    requires apart { AreApart (texts_of texts.old.keys ++ chosen needed.now (texts_of newer.keys)) }
    ensures { texts_of texts.new.keys ≡ texts_of texts.old.keys ++ chosen needed.now (texts_of newer.keys) }
{
    let mut at = 0;
    for text in newer {
        put_needed(texts, text, is_marked(needed, at));
        at += 1;
    }
}

fn is_marked(needed: &[bool], at: usize) -> bool
    requires { at < length needed.now }
    ensures { result ≡ slice_index_or needed.now at false }
{
    needed[at]
}

// Puts a text at the end, if it is needed.
fn put_needed(texts: &mut Texts, text: Vec<u32>, needed: bool)
    requires absent { needed ≡ true → IsAbsentText (texts_of texts.old.keys) text.items }
    requires room { needed ≡ true → 0 < spare texts.old }
    ensures texts { texts_of texts.new.keys ≡ (if needed then texts_of texts.old.keys ++ text.items ∷ [] else texts_of texts.old.keys) }
    ensures room { spare texts.old ≤ spare texts.new + (if needed then 1 else 0) }
{
    if needed {
        put_text(texts, text);
    }
}

// Puts a text that is not there at the end, for which there is room.
fn put_text(texts: &mut Texts, text: Vec<u32>)
    requires absent { IsAbsentText (texts_of texts.old.keys) text.items }
    requires room { 0 < spare texts.old }
    ensures texts { texts_of texts.new.keys ≡ texts_of texts.old.keys ++ text.items ∷ [] }
    ensures room { spare texts.old ≤ spare texts.new + 1 }
{
    texts.insert(text).unwrap();
}
