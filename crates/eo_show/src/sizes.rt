//! How high and how long members are written, and which of them get a line.
ghost use Rattle.std.specs.Prelude.{◌≡◌, ◌&&◌, ◌||◌, ◌<◌, if◌then◌else◌, false, ℕ, List, Some, []};
ghost use Rattle.std.specs.Prelude.{Contains, fold, length, nat_le, map, slice_get, slice_index_or, take, All, IfOk};
ghost use Rattle.eo_term.specs.Tree.{Tree, Con};
ghost use Rattle.eo_sexp.specs.AtomKind.{AtomKind};
ghost use Rattle.eo_sig.specs.Reading.{signature};
ghost use Rattle.eo_sig.specs.Signature as signatures;
ghost use Rattle.eo_show.specs.declared.parts.Form.{Form};
ghost use Rattle.eo_show.specs.Forms.{form, Leaf, atom};
ghost use Rattle.eo_show.specs.Kept.{AreKept, trees_of, tree_of};
ghost use Rattle.eo_show.specs.Members as spec;
ghost use Rattle.eo_show.specs.Members.{stand_in};
ghost use Rattle.eo_show.specs.Plan.{IsLive, member_tree, member_trees, up_to};
ghost use Rattle.eo_show.specs.Sizes.{some_places, gets_line, head, list_size, with_part, size_of, own, part_size};

use crate::heads::print_head;
use crate::members::Members;
use crate::spelling::spell_leaf;
use crate::{Member, Shape};
use eo_sig::Signature;
use eo_term::Table;
use std::alloc::{AllocError, Global};

/// From this height on a member gets a line.
const MOST_HEIGHT: u8 = 64;

/// From so many bytes on a member gets a line.
const MOST_BYTES: u16 = 4096;

/// The height and the number of bytes of a written member, up to the bounds.
#[derive(Clone, Copy)]
pub struct Size {
    height: u8,
    bytes: u16,
}

/// What a part with a line of its own counts as.
const STAND_IN: Size = Size {
    height: 1,
    bytes: 24,
};

/// Which members get a line; the value itself, which is the last, always does.
pub(crate) fn find_lines(
    alloc: Global,
    sig: &Signature,
    table: &Table,
    members: &Members,
    places: &[u8],
) -> Result<Vec<bool>, AllocError>
    requires kept { AreKept (signature table.now.trees sig.now) table.now members.now }
    requires places { places.now
        ≡ map (some_places (signature table.now.trees sig.now) (trees_of table.now members.now)) (trees_of table.now members.now) }
    ensures { (u : Tree) → trees_of table.now members.now ≡ spec.members (signature table.now.trees sig.now) u →
        IfOk result (λ v. v.items
        ≡ map (gets_line (signature table.now.trees sig.now) (trees_of table.now members.now) u) (trees_of table.now members.now)) }
{
    let mut sizes = Vec::new(alloc);
    let mut wants = Vec::new(alloc);
    let others = members.len().saturating_sub(1);
    for place in 0..others {
        let size = size_of(alloc, sig, table, members, sizes.as_slice(), place)?;
        let wanted = is_wanted(members, places, place, size);
        sizes.push(as_part(wanted, size))?;
        wants.push(wanted)?;
    }
    wants.push(true)?;
    Ok(wants)
}

// The size of a member as a part of another one.
fn as_part(has_line: bool, size: Size) -> Size
    ensures { result ≡ (if has_line then size_of stand_in else size) }
{
    if has_line { STAND_IN } else { size }
}

// Whether a member of this size, which is not the value itself, gets a line.
fn is_wanted(members: &Members, places: &[u8], place: usize, size: Size) -> bool
    requires form { place < length members.now.forms.items }
    requires place { place < length places.now }
    ensures { (f : Form) → slice_get members.now.forms.items place ≡ Some f →
        result ≡ ((nat_le 1 (length f.parts.items) && nat_le 2 (slice_index_or places.now place 0))
        || nat_le 64 size.height || nat_le 4096 size.bytes) }
{
    let is_shared = !members.form(place).parts.is_empty() && places[place] >= 2;
    is_shared || size.height >= MOST_HEIGHT || size.bytes >= MOST_BYTES
}

// The size of a member, from those of the members before it as parts.
fn size_of(
    alloc: Global,
    sig: &Signature,
    table: &Table,
    members: &Members,
    sizes: &[Size],
    place: usize,
) -> Result<Size, AllocError>
    requires kept { AreKept (signature table.now.trees sig.now) table.now members.now }
    requires within { place < length members.now.found.keys }
    requires count { length sizes.now ≡ place }
    requires sizes { sizes.now
        ≡ map (part_size (signature table.now.trees sig.now) (trees_of table.now members.now)) (take place (trees_of table.now members.now)) }
    ensures { IfOk result (λ s. s ≡ size_of (own (signature table.now.trees sig.now) (trees_of table.now members.now)
        (tree_of table.now members.now place))) }
{
    let form = members.form(place);
    if let Shape::Leaf = form.shape {
        return leaf_size(alloc, sig, table, &members.at(place));
    }
    let head = head_len(alloc, sig, &form.shape)?;
    let list = list_size(head);
    Ok(with_parts(table, members, sizes, form.parts.as_slice(), list))
}

fn leaf_size(
    alloc: Global,
    sig: &Signature,
    table: &Table,
    member: &Member,
) -> Result<Size, AllocError>
    requires live { IsLive table.now member.now }
    requires spelled { spec.has_no_spelling (signature table.now.trees sig.now) (member_tree table.now member.now) ≡ false }
    ensures { (k : AtomKind) (text : List ℕ) → form (signature table.now.trees sig.now) (member_tree table.now member.now) ≡ Leaf k text →
        IfOk result (λ s. s ≡ size_of (atom k text)) }
{
    let spelled = spell_leaf(alloc, sig, table, member)?;
    Ok(Size {
        height: 1,
        bytes: short(spelled.len()),
    })
}

// The number of bytes of the symbol that a list begins with.
fn head_len(alloc: Global, sig: &Signature, shape: &Shape) -> Result<usize, AllocError>
    ensures { (ts : List Tree) → IfOk result (λ n. n ≡ length (head (signature ts sig.now) shape.now)) }
{
    let mut head = Vec::new(alloc);
    print_head(&mut head, sig, shape)?;
    Ok(head.len())
}

// The size of a list with more parts.
fn with_parts(
    table: &Table,
    members: &Members,
    sizes: &[Size],
    parts: &[Member],
    list: Size,
) -> Size
    requires live { All (IsLive table.now) members.now.found.keys }
    requires parts { All (IsLive table.now) parts.now }
    requires before { All (λ p. Contains (take (length sizes.now) (trees_of table.now members.now)) (member_tree table.now p)) parts.now }
    ensures { (S : signatures.Signature) →
        sizes.now ≡ map (part_size S (trees_of table.now members.now)) (take (length sizes.now) (trees_of table.now members.now)) →
        result ≡ fold with_part list (map (part_size S (trees_of table.now members.now)) (member_trees table.now parts.now)) }
{
    let mut size = list;
    for part in parts {
        let other = part_size(table, members, sizes, part);
        size = with_part(size, other);
    }
    size
}

// The size of a member before this one, as a part.
fn part_size(table: &Table, members: &Members, sizes: &[Size], part: &Member) -> Size
    requires live { All (IsLive table.now) members.now.found.keys }
    requires part { IsLive table.now part.now }
    requires before { Contains (take (length sizes.now) (trees_of table.now members.now)) (member_tree table.now part.now) }
    ensures { (S : signatures.Signature) →
        sizes.now ≡ map (part_size S (trees_of table.now members.now)) (take (length sizes.now) (trees_of table.now members.now)) →
        result ≡ part_size S (trees_of table.now members.now) (member_tree table.now part.now) }
{
    let place = members.place(table, part).unwrap();
    sizes[place]
}

// A length up to the bound.
fn short(length: usize) -> u16
    ensures { result ≡ up_to 4096 length }
{
    length.min(MOST_BYTES as usize) as u16
}

// The size of a list of a symbol of so many bytes.
fn list_size(head: usize) -> Size
    ensures { result ≡ list_size head }
{
    Size {
        height: 2,
        bytes: short(head.saturating_add(2)),
    }
}

// The size of a list with one part more.
fn with_part(list: Size, part: Size) -> Size
    ensures { result ≡ with_part list part }
{
    Size {
        height: list
            .height
            .max(part.height.saturating_add(1))
            .min(MOST_HEIGHT),
        bytes: short(list.bytes as usize + 1 + part.bytes as usize),
    }
}
