//! The lines as bytes.
ghost use Rattle.std.specs.Prelude.{◌≡◌, ◌+◌, ◌^◌, ◌<◌, ◌++◌, ◌∷◌, [], false, IfSome, ℕ};
ghost use Rattle.std.specs.Prelude.{List, Option, Some, length, map, slice_get, slice_index_or, All, OnOk};
ghost use Rattle.eo_sexp.specs.AtomKind.{AtomKind};
ghost use Rattle.eo_sexp.specs.Printing.{printed, printed_atom, printed_lines};
ghost use Rattle.eo_sig.specs.Reading.{signature};
ghost use Rattle.eo_term.specs.Tree.{Tree, Con, height};
ghost use Rattle.eo_show.specs.declared.parts.Form as code_form;
ghost use Rattle.eo_show.specs.Forms.{form, Leaf};
ghost use Rattle.eo_show.specs.Kept.{AreKept, trees_of, tree_of};
ghost use Rattle.eo_show.specs.Lines.{written, line, line_name};
ghost use Rattle.eo_show.specs.Members.{has_no_spelling};
ghost use Rattle.eo_show.specs.Numbers.{numbered};
ghost use Rattle.eo_show.specs.Plan.{IsLive, member_tree, member_trees};
ghost use Rattle.eo_show.specs.Sizes.{AreNamed};
ghost use Rattle.eo_show.specs.Unwritten.{front, begun, part_front, part_begun, IsStep};

use crate::heads::print_head;
use crate::members::Members;
use crate::names::print_name;
use crate::spelling::spell_leaf;
use crate::{Member, Shape};
use eo_sig::Signature;
use eo_term::Table;
use std::alloc::{AllocError, Global};

// A list that is begun: its member, and how many of its parts are written.
#[derive(Clone, Copy)]
struct Open {
    place: usize,
    next: usize,
}

/// Appends the line of each member that has a number.
pub(crate) fn write_lines(
    alloc: Global,
    sig: &Signature,
    table: &Table,
    members: &Members,
    numbers: &[u64],
    out: &mut Vec<u8>,
) -> Result<(), AllocError>
    requires kept { AreKept (signature table.now.trees sig.now) table.now members.now }
    requires numbers { length numbers.now ≡ length members.now.found.keys }
    ensures { (named : Tree → Option (List ℕ)) → AreNamed (trees_of table.now members.now) numbers.now named →
        OnOk result (out.new.items ≡ out.old.items
        ++ printed_lines (map (line (signature table.now.trees sig.now) named) (numbered (trees_of table.now members.now) numbers.now))) }
{
    for place in 0..members.len() {
        if numbers[place] != 0 {
            write_line(alloc, sig, table, members, numbers, place, out)?;
        }
    }
    Ok(())
}

// The line of a member.
fn write_line(
    alloc: Global,
    sig: &Signature,
    table: &Table,
    members: &Members,
    numbers: &[u64],
    place: usize,
    out: &mut Vec<u8>,
) -> Result<(), AllocError>
    requires kept { AreKept (signature table.now.trees sig.now) table.now members.now }
    requires numbers { length numbers.now ≡ length members.now.found.keys }
    requires within { place < length members.now.found.keys }
    ensures { (named : Tree → Option (List ℕ)) → AreNamed (trees_of table.now members.now) numbers.now named →
        OnOk result (out.new.items ≡ out.old.items ++ printed_lines (line (signature table.now.trees sig.now) named
        (record { name = line_name (slice_index_or numbers.now place 0); tree = tree_of table.now members.now place }) ∷ [])) }
{
    out.extend_from_slice(b"(define ")?;
    print_name(out, numbers[place])?;
    out.extend_from_slice(b" () ")?;
    write_member(alloc, sig, table, members, numbers, place, out)?;
    out.extend_from_slice(b")\n")?;
    Ok(())
}

// A member, whose parts that have a number are written by name.
fn write_member(
    alloc: Global,
    sig: &Signature,
    table: &Table,
    members: &Members,
    numbers: &[u64],
    place: usize,
    out: &mut Vec<u8>,
) -> Result<(), AllocError>
    requires kept { AreKept (signature table.now.trees sig.now) table.now members.now }
    requires numbers { length numbers.now ≡ length members.now.found.keys }
    requires within { place < length members.now.found.keys }
    ensures { (named : Tree → Option (List ℕ)) → AreNamed (trees_of table.now members.now) numbers.now named →
        OnOk result (out.new.items ≡ out.old.items
        ++ printed (written (signature table.now.trees sig.now) (height (tree_of table.now members.now place))
        named (tree_of table.now members.now place))) }
{
    let mut lists = Vec::new(alloc);
    begin(alloc, sig, table, members, place, out, &mut lists)?;
    while let Some(list) = lists.pop() {
        write_next(alloc, sig, table, members, numbers, list, out, &mut lists)?;
    }
    Ok(())
}

// The next part of the innermost list that is begun, or its end.
fn write_next(
    alloc: Global,
    sig: &Signature,
    table: &Table,
    members: &Members,
    numbers: &[u64],
    list: Open,
    out: &mut Vec<u8>,
    lists: &mut Vec<Open>,
) -> Result<(), AllocError>
    requires kept { AreKept (signature table.now.trees sig.now) table.now members.now }
    requires numbers { length numbers.now ≡ length members.now.found.keys }
    requires within { list.place < length members.now.found.keys }
    ensures { OnOk result (IsStep (signature table.now.trees sig.now) (trees_of table.now members.now) numbers.now
        out.old.items out.new.items (lists.old.items ++ list ∷ []) lists.new.items) }
{
    let Some(part) = next_part(members, list) else {
        out.push(b')')?;
        return Ok(());
    };
    let place = members.place(table, &part).unwrap();
    out.push(b' ')?;
    pass(lists, list)?;
    write_part(alloc, sig, table, members, numbers, place, out, lists)
}

fn next_part(members: &Members, list: Open) -> Option<Member>
    requires { list.place < length members.now.forms.items }
    ensures part { (f : code_form.Form) → slice_get members.now.forms.items list.place ≡ Some f → result ≡ slice_get f.parts.items list.next }
    ensures more { IfSome result (λ m. list.next + 1 < 2 ^ 64) }
{
    let form = members.form(list.place);
    form.parts.as_slice().get(list.next).copied()
}

// The list after one part more.
fn pass(lists: &mut Vec<Open>, list: Open) -> Result<(), AllocError>
    requires { list.next + 1 < 2 ^ 64 }
    ensures { OnOk result (lists.new.items ≡ lists.old.items ++ record { place = list.place; next = list.next + 1 } ∷ []) }
{
    lists.push(Open {
        place: list.place,
        next: list.next + 1,
    })?;
    Ok(())
}

// A member by its name, if it has a number, or what it begins with.
fn write_part(
    alloc: Global,
    sig: &Signature,
    table: &Table,
    members: &Members,
    numbers: &[u64],
    place: usize,
    out: &mut Vec<u8>,
    lists: &mut Vec<Open>,
) -> Result<(), AllocError>
    requires kept { AreKept (signature table.now.trees sig.now) table.now members.now }
    requires numbers { length numbers.now ≡ length members.now.found.keys }
    requires within { place < length members.now.found.keys }
    ensures bytes { OnOk result (out.new.items ≡ out.old.items
        ++ part_front (signature table.now.trees sig.now) (slice_index_or numbers.now place 0) (tree_of table.now members.now place)) }
    ensures begun { OnOk result (lists.new.items ≡ lists.old.items
        ++ part_begun (signature table.now.trees sig.now) (slice_index_or numbers.now place 0) (tree_of table.now members.now place)
        (record { place = place; next = 0 })) }
{
    if numbers[place] != 0 {
        return print_name(out, numbers[place]);
    }
    begin(alloc, sig, table, members, place, out, lists)
}

// A member that is an atom, or the front of a list.
fn begin(
    alloc: Global,
    sig: &Signature,
    table: &Table,
    members: &Members,
    place: usize,
    out: &mut Vec<u8>,
    lists: &mut Vec<Open>,
) -> Result<(), AllocError>
    requires kept { AreKept (signature table.now.trees sig.now) table.now members.now }
    requires within { place < length members.now.found.keys }
    ensures bytes { OnOk result (out.new.items ≡ out.old.items
        ++ front (signature table.now.trees sig.now) (form (signature table.now.trees sig.now) (tree_of table.now members.now place))) }
    ensures begun { OnOk result (lists.new.items ≡ lists.old.items
        ++ begun (signature table.now.trees sig.now) (form (signature table.now.trees sig.now) (tree_of table.now members.now place))
        (record { place = place; next = 0 })) }
{
    let shape = members.form(place).shape;
    if let Shape::Leaf = shape {
        return write_leaf(alloc, sig, table, &members.at(place), out);
    }
    out.push(b'(')?;
    print_head(out, sig, &shape)?;
    lists.push(Open { place, next: 0 })?;
    Ok(())
}

fn write_leaf(
    alloc: Global,
    sig: &Signature,
    table: &Table,
    member: &Member,
    out: &mut Vec<u8>,
) -> Result<(), AllocError>
    requires live { IsLive table.now member.now }
    requires spelled { has_no_spelling (signature table.now.trees sig.now) (member_tree table.now member.now) ≡ false }
    ensures { (k : AtomKind) (text : List ℕ) → form (signature table.now.trees sig.now) (member_tree table.now member.now) ≡ Leaf k text →
        OnOk result (out.new.items ≡ out.old.items ++ printed_atom k text) }
{
    let spelled = spell_leaf(alloc, sig, table, member)?;
    out.extend_from_slice(spelled.as_slice())
}
