//! The members of a value, each after its parts.
ghost use Rattle.std.specs.Prelude.{Some, IfSome, position, ◌≡◌, ◌<◌, ◌+◌, ◌++◌, ◌∷◌, [], ℕ, length, true, false, slice_get, All, IfOk, OnOk};
ghost use Rattle.std.specs.List.{IsDistinct};
ghost use Rattle.eo_term.specs.Terms.{tree_at};
ghost use Rattle.eo_term.specs.Tree.{is_value, tree_eq};
ghost use Rattle.eo_sig.specs.Reading.{signature};
ghost use Rattle.eo_show.specs.Members.{members, is_unprintable, has_no_spelling};
ghost use Rattle.eo_show.specs.Plan.{TellsLengths, IsLive, member_tree, member_trees};
ghost use Rattle.eo_show.specs.Walking.{HaveForms, IsFrame, IsWalking, turns_in, is_found, Begins, IsUnprintable};

use crate::lengths::Lengths;
use crate::parts::{Form, form_of, member_of};
use crate::{Member, ShowRefused};
use eo_sig::Signature;
use eo_term::{Id, Table};
use indexmap::IndexSet;
use std::alloc::{AllocError, Global};

/// The members that were found, and the form of each.
#[derive(Drop)]
pub struct Members {
    pub(crate) found: IndexSet<Member>,
    pub(crate) forms: Vec<Form>,
}

/// A member that is begun: its form, and how many of its parts were looked at.
#[derive(Drop)]
pub struct Frame {
    member: Member,
    form: Form,
    next: usize,
}

impl Members {
    /// The members of a value.
    pub(crate) fn find(
        alloc: Global,
        sig: &Signature,
        table: &Table,
        lengths: &Lengths,
        id: Id,
    ) -> Result<Members, ShowRefused>
        requires live { id < length table.now.trees }
        requires lengths { TellsLengths (signature table.now.trees sig.now) table.now.trees (length table.now.trees) lengths.now }
        requires value { is_value (tree_at table.now.trees id) ≡ true }
        ensures found { IfOk result (λ ms. member_trees table.now ms.found.keys ≡ members (signature table.now.trees sig.now)
            (tree_at table.now.trees id)) }
        ensures live { IfOk result (λ ms. All (IsLive table.now) ms.found.keys) }
        ensures forms { IfOk result (λ ms. HaveForms (signature table.now.trees sig.now) table.now ms.found.keys ms.forms.items) }
        ensures printable { IfOk result (λ ms. is_unprintable (signature table.now.trees sig.now) (tree_at table.now.trees id) ≡ false) }
        ensures refused { IsUnprintable result → is_unprintable (signature table.now.trees sig.now) (tree_at table.now.trees id) ≡ true }
    {
        let mut members = Members {
            found: IndexSet::new(alloc),
            forms: Vec::new(alloc),
        };
        let mut frames = Vec::new(alloc);
        if let Err(e) = begin(
            alloc,
            sig,
            table,
            lengths,
            &mut frames,
            member_of(table, id),
        ) {
            return Err(e);
        }
        while let Some(frame) = frames.pop() {
            members.turn(alloc, sig, table, lengths, id, &mut frames, frame)?;
        }
        Ok(members)
    }

    // Looks at the next part of the last member that is begun, or keeps that member.
    fn turn(
        &mut self,
        alloc: Global,
        sig: &Signature,
        table: &Table,
        lengths: &Lengths,
        id: Id,
        frames: &mut Vec<Frame>,
        frame: Frame,
    ) -> Result<(), ShowRefused>
        requires lengths { TellsLengths (signature table.now.trees sig.now) table.now.trees (length table.now.trees) lengths.now }
        requires walking { IsWalking (signature table.now.trees sig.now) table.now
            (tree_at table.now.trees id) self.old.found.keys self.old.forms.items (frames.old.items ++ frame ∷ []) }
        ensures walking { OnOk result (IsWalking (signature table.now.trees sig.now) table.now
            (tree_at table.now.trees id) self.new.found.keys self.new.forms.items frames.new.items) }
        ensures shorter { OnOk result (turns_in (signature table.now.trees sig.now) table.now
            (tree_at table.now.trees id) self.new.found.keys frames.new.items
            < turns_in (signature table.now.trees sig.now) table.now (tree_at table.now.trees id) self.old.found.keys
            (frames.old.items ++ frame ∷ [])) }
        ensures refused { IsUnprintable result → is_unprintable (signature table.now.trees sig.now) (tree_at table.now.trees id) ≡ true }
    {
        let Some(part) = frame.part() else {
            self.keep(table, frame)?;
            return Ok(());
        };
        let known = self.has(table, &part);
        pass(frames, frame)?;
        if known {
            return Ok(());
        }
        begin(alloc, sig, table, lengths, frames, part)
    }

    // Whether a member is found.
    #[tactic(auto, using(crate::proofs::Same::found_same))]
    fn has(&self, table: &Table, member: &Member) -> bool
        requires live { All (IsLive table.now) self.now.found.keys }
        requires member { IsLive table.now member.now }
        ensures { result ≡ is_found (member_trees table.now self.now.found.keys) (member_tree table.now member.now) }
    {
        table.laws();
        table.text_laws();
        self.found.contains(member)
    }

    // Keeps a member that is not found yet.
    #[tactic(auto, using(crate::proofs::Same::found_same))]
    fn keep(&mut self, table: &Table, frame: Frame) -> Result<(), AllocError>
        requires live { All (IsLive table.now) self.old.found.keys }
        requires member { IsLive table.now frame.member }
        requires new { is_found (member_trees table.now self.old.found.keys) (member_tree table.now frame.member) ≡ false }
        ensures keys { OnOk result (self.new.found.keys ≡ self.old.found.keys ++ frame.member ∷ []) }
        ensures forms { OnOk result (self.new.forms.items ≡ self.old.forms.items ++ frame.form ∷ []) }
    {
        table.laws();
        table.text_laws();
        self.found.insert_full(frame.member)?;
        self.forms.push(frame.form)?;
        Ok(())
    }

    /// No two members are the same tree. A call costs nothing: it gives a proof this fact.
    #[tactic(auto, using(crate::proofs::Same::apart_same))]
    pub(crate) fn laws(&self, table: &Table)
        requires { All (IsLive table.now) self.now.found.keys }
        ensures { IsDistinct tree_eq (member_trees table.now self.now.found.keys) }
    {
        table.laws();
        table.text_laws();
        let _count = self.found.len();
    }

    /// How many there are.
    pub(crate) fn len(&self) -> usize
        ensures { result ≡ length self.now.found.keys }
    {
        self.found.len()
    }

    /// The place of a member, if it is found.
    #[tactic(auto, using(crate::proofs::Same::place_same))]
    pub(crate) fn place(&self, table: &Table, member: &Member) -> Option<usize>
        requires live { All (IsLive table.now) self.now.found.keys }
        requires member { IsLive table.now member.now }
        ensures place { result ≡ position (tree_eq (member_tree table.now member.now)) (member_trees table.now self.now.found.keys) }
        ensures within { IfSome result (λ i. i < length self.now.found.keys) }
    {
        table.laws();
        table.text_laws();
        self.found.get_index_of(member)
    }

    /// The member at a place.
    pub(crate) fn at(&self, place: usize) -> Member
        requires { place < length self.now.found.keys }
        ensures { slice_get self.now.found.keys place ≡ Some result }
    {
        *self.found.get_index(place).unwrap()
    }

    /// The form of the member at a place.
    pub(crate) fn form(&self, place: usize) -> &Form
        requires { place < length self.now.forms.items }
        ensures { slice_get self.now.forms.items place ≡ Some result.now }
    {
        &self.forms.as_slice()[place]
    }
}

impl Frame {
    // The part that is to be looked at.
    fn part(&self) -> Option<Member>
        ensures { result ≡ slice_get self.now.form.parts.items self.now.next }
    {
        self.form.parts.as_slice().get(self.next).copied()
    }
}

// Puts the frame back, with one more of its parts looked at.
fn pass(frames: &mut Vec<Frame>, frame: Frame) -> Result<(), AllocError>
    requires { frame.next < length frame.form.parts.items }
    ensures { OnOk result (frames.new.items ≡
        frames.old.items ++ record { member = frame.member; form = frame.form; next = frame.next + 1 } ∷ []) }
{
    let next = frame.next + 1;
    frames.push(Frame {
        member: frame.member,
        form: frame.form,
        next,
    })?;
    Ok(())
}

// Begins a member.
fn begin(
    alloc: Global,
    sig: &Signature,
    table: &Table,
    lengths: &Lengths,
    frames: &mut Vec<Frame>,
    member: Member,
) -> Result<(), ShowRefused>
    requires lengths { TellsLengths (signature table.now.trees sig.now) table.now.trees (length table.now.trees) lengths.now }
    requires live { IsLive table.now member }
    ensures begun { OnOk result (Begins (signature table.now.trees sig.now) table.now member frames.old.items frames.new.items) }
    ensures refused { IsUnprintable result → has_no_spelling (signature table.now.trees sig.now) (member_tree table.now member) ≡ true }
{
    let form = form_of(alloc, sig, table, lengths, &member)?;
    push(
        frames,
        Frame {
            member,
            form,
            next: 0,
        },
    )?;
    Ok(())
}

fn push(frames: &mut Vec<Frame>, frame: Frame) -> Result<(), AllocError>
    ensures { OnOk result (frames.new.items ≡ frames.old.items ++ frame ∷ []) }
{
    frames.push(frame)?;
    Ok(())
}
