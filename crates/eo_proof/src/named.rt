//! Terms by their names, in order, each with the number of the command that made it a fact.
ghost use Rattle.std.specs.Prelude.{◌≡◌, ◌<◌, ◌∷◌, ◌++◌, [], Some, None, true, false, not};
ghost use Rattle.std.specs.Prelude.{length, take, map, is_some, slice_get, IfOk, OnOk, OnErr};
ghost use Rattle.std.specs.List.{position};
ghost use Rattle.std.specs.Map.{lookup, keys_of};
ghost use Rattle.std.specs.Str.{bytes_eq};
ghost use Rattle.eo_proof.specs.Kept.{NamedId, term_named, command_named};
ghost use Rattle.eo_proof.specs.Places.{number_in};

use crate::places::{Places, number_in};
use crate::texts::Texts;
use eo_term::Id;
use std::alloc::{AllocError, Global};
use std::marker::Model;

/// Terms by their names, the oldest first. No two names are the same.
#[derive(Drop)]
pub(crate) struct NamedIds {
    alloc: Global,
    names: Texts,
    // As many as names, in the same order.
    ids: Vec<Id>,
    // The numbers of commands, in the same order.
    commands: Vec<u64>,
    places: Places,
}

impl Model for NamedIds {
    ghost use Rattle.std.specs.Prelude.{◌≡◌, List, length};
    ghost use Rattle.std.specs.List.{zip};
    ghost use Rattle.eo_proof.specs.Kept.{NamedId};
    ghost use Rattle.eo_proof.specs.Places.{AreFound};

    ghost Value = { List NamedId };

    ghost view = { λ a. zip a.names (zip a.ids.items a.commands.items) };

    ghost invariant = { λ a. (length a.ids.items ≡ length a.names) × (length a.commands.items ≡ length a.names)
        × AreFound a.names a.places.numbered.items a.places.others.entries };
}

impl NamedIds {
    /// None. No memory is taken.
    pub(crate) fn new(alloc: Global) -> NamedIds
        ensures { result ≡ [] }
    {
        NamedIds {
            alloc,
            names: Texts::new(alloc),
            ids: Vec::new(alloc),
            commands: Vec::new(alloc),
            places: Places::new(alloc),
        }
    }

    /// How many there are.
    pub(crate) fn len(&self) -> usize
        ensures { result ≡ length self.now }
    {
        self.names.len()
    }

    /// The place of the name.
    pub(crate) fn place(&self, name: &[u8]) -> Option<usize>
        ensures { result ≡ position (bytes_eq name.now) (keys_of self.now) }
    {
        self.place_by(name, number_in(name))
    }

    // The place of the name, which ends in this number.
    fn place_by(&self, name: &[u8], number: usize) -> Option<usize>
        requires { number ≡ number_in name.now }
        ensures { result ≡ position (bytes_eq name.now) (keys_of self.now) }
    {
        self.places.find(&self.names, name, number)
    }

    /// Whether one has the name.
    pub(crate) fn has(&self, name: &[u8]) -> bool
        ensures { result ≡ is_some (lookup (bytes_eq name.now) self.now) }
    {
        self.has_by(name, number_in(name))
    }

    // Whether one has the name, which ends in this number.
    #[tactic(auto, using(indexmap::proofs::MapLemmas::some_index))]
    fn has_by(&self, name: &[u8], number: usize) -> bool
        requires { number ≡ number_in name.now }
        ensures { result ≡ is_some (lookup (bytes_eq name.now) self.now) }
    {
        self.place_by(name, number).is_some()
    }

    /// The term with the name.
    pub(crate) fn get(&self, name: &[u8]) -> Option<Id>
        ensures { result ≡ term_named self.now name.now }
    {
        match self.place(name) {
            Some(place) => Some(self.id_at(place)),
            None => None,
        }
    }

    /// The number of the command that made the fact with the name.
    pub(crate) fn command(&self, name: &[u8]) -> Option<u64>
        ensures { result ≡ command_named self.now name.now }
    {
        match self.place(name) {
            Some(place) => Some(self.command_at(place)),
            None => None,
        }
    }

    // The term at a place.
    fn id_at(&self, place: usize) -> Id
        requires { place < length self.now }
        ensures { (e : NamedId) → slice_get self.now place ≡ Some e → e.1.0 ≡ result }
    {
        self.ids()[place]
    }

    // The number of the command at a place.
    fn command_at(&self, place: usize) -> u64
        requires { place < length self.now }
        ensures { (e : NamedId) → slice_get self.now place ≡ Some e → e.1.1 ≡ result }
    {
        self.commands()[place]
    }

    /// Puts a term at the end, by a name that no other has, and returns whether none had it. The error
    /// is out of memory.
    pub(crate) fn add(&mut self, name: &[u8], id: Id, command: u64) -> Result<bool, AllocError>
        ensures added { IfOk result (λ added. added ≡ not (is_some (lookup (bytes_eq name.now) self.old))) }
        ensures new { IfOk result (λ added. added ≡ true → self.new ≡ self.old ++ (name.now, (id, command)) ∷ []) }
        ensures taken { IfOk result (λ added. added ≡ false → self.new ≡ self.old) }
        ensures same { OnErr result (self.new ≡ self.old) }
    {
        let number = number_in(name);
        if self.has_by(name, number) {
            return Ok(false);
        }
        self.push_by(name, number, id, command)?;
        Ok(true)
    }

    /// Puts a term at the end, by a name that no other has.
    pub(crate) fn push(&mut self, name: &[u8], id: Id, command: u64) -> Result<(), AllocError>
        requires { lookup (bytes_eq name.now) self.old ≡ None }
        ensures new { OnOk result (self.new ≡ self.old ++ (name.now, (id, command)) ∷ []) }
        ensures same { OnErr result (self.new ≡ self.old) }
    {
        self.push_by(name, number_in(name), id, command)
    }

    // The same by a name that ends in this number.
    fn push_by(
        &mut self,
        name: &[u8],
        number: usize,
        id: Id,
        command: u64,
    ) -> Result<(), AllocError>
        requires number { number ≡ number_in name.now }
        requires free { lookup (bytes_eq name.now) self.old ≡ None }
        ensures new { OnOk result (self.new ≡ self.old ++ (name.now, (id, command)) ∷ []) }
        ensures same { OnErr result (self.new ≡ self.old) }
    {
        self.ids.reserve(1)?;
        self.commands.reserve(1)?;
        // Where the name itself then finds no memory, its place leads to nothing.
        self.places.add(self.alloc, &self.names, name, number)?;
        self.names.push(name)?;
        self.ids.push_reserved(id);
        self.commands.push_reserved(command);
        Ok(())
    }

    /// Keeps the first so many alone.
    pub(crate) fn truncate(&mut self, n: usize)
        ensures { self.new ≡ take n self.old }
    {
        self.places.cut(n);
        self.names.truncate(n);
        self.ids.truncate(n);
        self.commands.truncate(n);
    }

    /// The terms.
    pub(crate) fn ids(&self) -> &[Id]
        ensures { result.now ≡ map (λ (e : NamedId). e.1.0) self.now }
    {
        self.ids.as_slice()
    }

    // The numbers of the commands.
    fn commands(&self) -> &[u64]
        ensures { result.now ≡ map (λ (e : NamedId). e.1.1) self.now }
    {
        self.commands.as_slice()
    }
}
