//! How a value is shown.
ghost use Rattle.std.specs.Prelude.{◌≡◌, ◌<◌, [], map, length, true, false, All, IfOk};
ghost use Rattle.eo_sexp.specs.Printing.{printed_lines};
ghost use Rattle.eo_sig.specs.Reading.{signature, macros, IsBelow};
ghost use Rattle.eo_term.specs.Terms.{tree_at};
ghost use Rattle.eo_term.specs.Tree.{Tree, is_value};
ghost use Rattle.eo_show.specs.Lines.{shown, lines_of};
ghost use Rattle.eo_show.specs.Members as spec;
ghost use Rattle.eo_show.specs.Members.{is_unprintable};
ghost use Rattle.eo_show.specs.Numbers.{numbers_from, numbered};
ghost use Rattle.eo_show.specs.Plan.{IsLive, member_trees};
ghost use Rattle.eo_show.specs.Sizes.{gets_line};
ghost use Rattle.eo_show.specs.Walking.{HaveForms, IsUnprintable};
ghost use Rattle.eo_show.specs.Written.{Ordered};

use crate::ShowRefused;
use crate::lengths::Lengths;
use crate::members::Members;
use crate::names::number_lines;
use crate::places::count_places;
use crate::shown::ShownBytes;
use crate::sizes::find_lines;
use crate::writing::write_lines;
use eo_sig::Signature;
use eo_term::{Id, Table};
use std::alloc::{AllocError, Global};

// The members of a value, and the number of the line of each that gets one; 0 for the others.
#[derive(Drop)]
struct Plan {
    members: Members,
    numbers: Vec<u64>,
}

/// The lines that a value is shown by, a definition each. The name of a line is the first of `@s1`,
/// `@s2` and so on that is free after the lines before it, and the last line defines the value.
///
/// A value is unprintable exactly where a part of it has no spelling: a constant that its name does
/// not mean, the empty bit string, or a string of more than 1,048,576 bytes with its quotes.
pub fn show_term(
    alloc: Global,
    sig: &Signature,
    table: &Table,
    id: Id,
) -> Result<ShownBytes, ShowRefused>
    requires live { id < length table.now.trees }
    requires value { is_value (tree_at table.now.trees id) ≡ true }
    requires below { IsBelow (length table.now.trees) sig.now }
    ensures shown { IfOk result (λ b. b ≡ shown (signature table.now.trees sig.now) (macros table.now.trees sig.now)
        (tree_at table.now.trees id)) }
    ensures printable { IfOk result (λ b. is_unprintable (signature table.now.trees sig.now) (tree_at table.now.trees id) ≡ false) }
    ensures refused { IsUnprintable result → is_unprintable (signature table.now.trees sig.now) (tree_at table.now.trees id) ≡ true }
{
    let lengths = Lengths::find(alloc, sig, table)?;
    let members = Members::find(alloc, sig, table, &lengths, id)?;
    let plan = plan_of(alloc, sig, table, members)?;
    Ok(write(alloc, sig, table, &plan)?)
}

// Which members get a line, and their numbers.
fn plan_of(
    alloc: Global,
    sig: &Signature,
    table: &Table,
    members: Members,
) -> Result<Plan, AllocError>
    requires live { All (IsLive table.now) members.found.keys }
    requires forms { HaveForms (signature table.now.trees sig.now) table.now members.found.keys members.forms.items }
    requires ordered { Ordered (signature table.now.trees sig.now) [] (member_trees table.now members.found.keys) }
    ensures members { IfOk result (λ p. p.members ≡ members) }
    ensures numbers { (u : Tree) → member_trees table.now members.found.keys ≡ spec.members (signature table.now.trees sig.now) u →
        IfOk result (λ p. p.numbers.items ≡ numbers_from (signature table.now.trees sig.now) (macros table.now.trees sig.now) 1
        (map (gets_line (signature table.now.trees sig.now) (member_trees table.now members.found.keys) u)
        (member_trees table.now members.found.keys))) }
{
    let places = count_places(alloc, table, &members)?;
    let wants = find_lines(alloc, sig, table, &members, places.as_slice())?;
    let numbers = number_lines(alloc, sig, wants.as_slice())?;
    Ok(Plan { members, numbers })
}

// The lines of the members that have a number.
fn write(
    alloc: Global,
    sig: &Signature,
    table: &Table,
    plan: &Plan,
) -> Result<ShownBytes, AllocError>
    requires live { All (IsLive table.now) plan.now.members.found.keys }
    requires forms { HaveForms (signature table.now.trees sig.now) table.now plan.now.members.found.keys plan.now.members.forms.items }
    requires ordered { Ordered (signature table.now.trees sig.now) [] (member_trees table.now plan.now.members.found.keys) }
    requires numbers { length plan.now.numbers.items ≡ length plan.now.members.found.keys }
    ensures { IfOk result (λ b. b ≡ printed_lines (lines_of (signature table.now.trees sig.now)
        (numbered (member_trees table.now plan.now.members.found.keys) plan.now.numbers.items))) }
{
    let mut out = Vec::new(alloc);
    plan.members.laws(table);
    write_lines(
        alloc,
        sig,
        table,
        &plan.members,
        plan.numbers.as_slice(),
        &mut out,
    )?;
    Ok(ShownBytes::from_bytes(out))
}
