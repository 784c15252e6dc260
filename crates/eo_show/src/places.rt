//! Which members are a part at two or more places.
ghost use Rattle.std.specs.Prelude.{◌≡◌, ◌++◌, ◌∷◌, [], List, map, All, IfOk};
ghost use Rattle.eo_sig.specs.Signature.{Signature};
ghost use Rattle.eo_term.specs.Tree.{Tree};
ghost use Rattle.eo_show.specs.Plan.{IsLive, member_tree, member_trees};
ghost use Rattle.eo_show.specs.Places.{counted, counted_at};
ghost use Rattle.eo_show.specs.Walking.{HaveForms};
ghost use Rattle.eo_show.specs.Sizes.{some_places};

use crate::Member;
use crate::members::Members;
use eo_term::Table;
use std::alloc::{AllocError, Global};

/// At how many places each member is a part, up to two.
pub(crate) fn count_places(
    alloc: Global,
    table: &Table,
    members: &Members,
) -> Result<Vec<u8>, AllocError>
    requires live { All (IsLive table.now) members.now.found.keys }
    requires parts { All (λ f. All (IsLive table.now) f.parts.items) members.now.forms.items }
    ensures { (S : Signature) → HaveForms S table.now members.now.found.keys members.now.forms.items →
        IfOk result (λ v. v.items ≡ map (some_places S (member_trees table.now members.now.found.keys))
        (member_trees table.now members.now.found.keys)) }
{
    let mut places = vec![in alloc; 0u8; members.len()]?;
    for form in &members.forms {
        count_parts(table, members, &mut places, form.parts.as_slice());
    }
    Ok(places)
}

// Counts each of some parts once more.
fn count_parts(table: &Table, members: &Members, places: &mut Vec<u8>, parts: &[Member])
    requires live { All (IsLive table.now) members.now.found.keys }
    requires parts { All (IsLive table.now) parts.now }
    ensures { (done : List Tree) → places.old.items ≡ map (counted done) (member_trees table.now members.now.found.keys) →
        places.new.items ≡ map (counted (done ++ member_trees table.now parts.now)) (member_trees table.now members.now.found.keys) }
{
    for part in parts {
        count_one(table, members, places, part);
    }
}

// Counts a part once more.
fn count_one(table: &Table, members: &Members, places: &mut Vec<u8>, part: &Member)
    requires live { All (IsLive table.now) members.now.found.keys }
    requires part { IsLive table.now part.now }
    ensures { (done : List Tree) → places.old.items ≡ map (counted done) (member_trees table.now members.now.found.keys) →
        places.new.items ≡ map (counted (done ++ member_tree table.now part.now ∷ [])) (member_trees table.now members.now.found.keys) }
{
    members.laws(table);
    if let Some(place) = members.place(table, part) {
        count_at(places, place);
    }
}

#[tactic(auto, using(crate::proofs::Counting::past, crate::proofs::Counting::full, crate::proofs::Counting::fewer))]
fn count_at(places: &mut Vec<u8>, place: usize)
    ensures { places.new.items ≡ counted_at place places.old.items }
{
    if place >= places.len() {
        return;
    }
    if places[place] < 2 {
        places[place] += 1;
    }
}
