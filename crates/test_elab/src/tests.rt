mod declarations;
mod programs;
mod reference;
mod rules;
mod terms;
mod texts;
mod world;

use std::alloc::Global;
use std::process::Abort;
use std::test::Fail;
use world::World;

// What a function returns for a new world. It alone owns one: each exit of a function that does is
// expensive to prove.
fn tell<T, F: FnOnce(&mut World) -> Result<T, Fail>>(alloc: Global, f: F) -> Result<T, Fail>
    requires { F.IsAlwaysCallable f }
{
    let mut world = World::new(alloc)?;
    let told = f(&mut world);
    drop(world);
    told
}

// A function that is lent a new world finds no row that is wrong.
fn all_right<F: FnOnce(&mut World) -> Result<Option<usize>, Fail>>(
    rt: &impl Abort,
    alloc: Global,
    first_wrong: F,
) -> Result<(), Fail>
    requires { F.IsAlwaysCallable first_wrong }
{
    assert_eq!(rt; tell(alloc, first_wrong)?, None);
    Ok(())
}

// What a function returns for a new world holds.
fn holds<F: FnOnce(&mut World) -> Result<bool, Fail>>(
    rt: &impl Abort,
    alloc: Global,
    is_right: F,
) -> Result<(), Fail>
    requires { F.IsAlwaysCallable is_right }
{
    assert!(rt; tell(alloc, is_right)?);
    Ok(())
}
