mod world;

use eo_term::{FALSE, HEIGHT_LIMIT, Id, TRUE, TermRefused};
use std::alloc::Global;
use std::process::Abort;
use std::test::Fail;
use world::World;

// What a function returns for a new table. It alone owns one: each exit of a function that does is
// expensive to prove.
fn tell<T, F: FnOnce(&mut World) -> Result<T, Fail>>(alloc: Global, f: F) -> Result<T, Fail>
    requires { F.IsAlwaysCallable f }
{
    let mut world = World::new(alloc)?;
    let told = f(&mut world);
    drop(world);
    told
}

// What a function finds of a new table holds.
fn holds<F: FnOnce(&mut World) -> Result<bool, Fail>>(
    rt: &impl Abort,
    alloc: Global,
    is_right: F,
) -> Result<(), Fail>
    requires { F.IsAlwaysCallable is_right }
{
    assert!(rt; tell(alloc, is_right)?);
    Ok(())
}

// Whether the parameter 0, as two patterns, matches equal terms, and then has them as its value.
fn equal(world: &mut World) -> Result<bool, Fail> {
    let par = world.par(0)?;
    let (matches, value) = world.match_twice(par, TRUE, TRUE)?;
    Ok(matches & (value == Some(TRUE)))
}

// Whether it matches no terms that differ, and then has no value.
fn different(world: &mut World) -> Result<bool, Fail> {
    let par = world.par(0)?;
    let (matches, value) = world.match_twice(par, TRUE, FALSE)?;
    Ok(!matches & value.is_none())
}

#[test]
fn a_repeated_parameter_stands_for_equal_trees(rt: HostRuntime) -> Result<(), Fail> {
    holds(&rt, rt.alloc(), equal)?;
    holds(&rt, rt.alloc(), different)
}

// Whether an application of parameters becomes the application that it matches.
fn application(world: &mut World) -> Result<bool, Fail> {
    let fun = world.par(0)?;
    let arg = world.par(1)?;
    let pattern = world.app(fun, arg)?;
    let term = world.app(TRUE, FALSE)?;
    Ok(world.match_and_put(pattern, term)? == Some(term))
}

#[test]
fn a_pattern_becomes_the_term_that_it_matches(rt: HostRuntime) -> Result<(), Fail> {
    holds(&rt, rt.alloc(), application)
}

// The term, applied to itself, applied to itself, and so on: as a tree it has 2^levels leaves.
fn tower(world: &mut World, leaf: Id, levels: u32) -> Result<Id, Fail> {
    let mut id = leaf;
    for _ in 0..levels {
        id = world.app(id, id)?;
    }
    Ok(id)
}

// Whether a number, put into a term of the greatest height, gives the same term over the number.
fn tallest(world: &mut World) -> Result<bool, Fail> {
    let par = world.par(0)?;
    let term = tower(world, par, HEIGHT_LIMIT - 1)?;
    let number = world.num(7)?;
    let made = world.put_in(term, number)??;
    Ok(made == tower(world, number, HEIGHT_LIMIT - 1)?)
}

#[test]
fn a_term_of_the_greatest_height_is_put_in(rt: HostRuntime) -> Result<(), Fail> {
    holds(&rt, rt.alloc(), tallest)
}

// Whether an application, put into a term of the greatest height, is refused as too tall.
fn too_tall(world: &mut World) -> Result<bool, Fail> {
    let par = world.par(0)?;
    let term = tower(world, par, HEIGHT_LIMIT - 1)?;
    let number = world.num(7)?;
    let value = world.app(number, number)?;
    Ok(matches!(world.put_in(term, value)?, Err(TermRefused::Tall)))
}

#[test]
fn a_term_that_becomes_too_tall_is_refused(rt: HostRuntime) -> Result<(), Fail> {
    holds(&rt, rt.alloc(), too_tall)
}

// Whether a tower over a parameter becomes the tower over a constant that it matches.
fn towers(world: &mut World) -> Result<bool, Fail> {
    let par = world.par(0)?;
    let pattern = tower(world, par, 60)?;
    let term = tower(world, TRUE, 60)?;
    Ok(world.match_and_put(pattern, term)? == Some(term))
}

#[test]
fn shared_parts_are_looked_at_once(rt: HostRuntime) -> Result<(), Fail> {
    holds(&rt, rt.alloc(), towers)
}

// Terms of which each is the one before it applied to the one 64 before it: as a tree the last of
// 1,500 has more than 10^31 leaves.
fn ladder(world: &mut World, leaf: Id, levels: usize) -> Result<Id, Fail> {
    let mut last = [leaf; 64];
    let mut id = leaf;
    for level in 0..levels {
        id = world.app(id, last[level % 64])?;
        last[level % 64] = id;
    }
    Ok(id)
}

// Whether such a term over a parameter becomes the one over a constant that it matches.
fn ladders(world: &mut World) -> Result<bool, Fail> {
    let par = world.par(0)?;
    let pattern = ladder(world, par, 1500)?;
    let term = ladder(world, TRUE, 1500)?;
    Ok(world.match_and_put(pattern, term)? == Some(term))
}

#[test]
fn parts_that_are_shared_far_apart_are_looked_at_once(rt: HostRuntime) -> Result<(), Fail> {
    holds(&rt, rt.alloc(), ladders)
}

// Whether it matches no term that differs from that one at one leaf, and then has no value.
fn ladders_differ(world: &mut World) -> Result<bool, Fail> {
    let par = world.par(0)?;
    let pattern = ladder(world, par, 1500)?;
    let other = ladder(world, FALSE, 1499)?;
    let term = world.app(other, TRUE)?;
    Ok(world.match_and_put(pattern, term)?.is_none())
}

#[test]
fn parts_that_become_two_terms_match_nothing(rt: HostRuntime) -> Result<(), Fail> {
    holds(&rt, rt.alloc(), ladders_differ)
}
