//! Names and lists hold what they were given.
//!
//! What owns a list, a name or a map lets go of it by a call, in a function of its own: each way out
//! of a function that lets go of one by itself is expensive to prove.
use eo_base::{Chars, List, Name, NameRef, Text};
use indexmap::IndexMap;
use std::alloc::{AllocError, Global};
use std::hash::{BuildHasherDefault, DefaultHasher};
use std::test::Fail;

const LONG: &[u8] = b"a name of more bytes";

// Whether a text of this string has it, and its bytes.
fn text_holds(alloc: Global, string: &str) -> Result<bool, AllocError> {
    let text = Text::new(alloc, string)?;
    let holds = text.as_str() == string && text.as_bytes() == string.as_bytes();
    drop(text);
    Ok(holds)
}

// Whether the characters of a list are held as they were given.
fn chars_hold(alloc: Global) -> Result<bool, AllocError> {
    let characters = Chars::new(alloc, &[97, 0x2_ffff])?;
    let holds = characters.as_slice() == [97, 0x2_ffff].as_slice();
    drop(characters);
    Ok(holds)
}

#[test]
fn lists_hold_what_they_were_given(rt: HostRuntime) -> Result<(), Fail> {
    assert!(rt; text_holds(rt.alloc(), "p.eo")?);
    assert!(rt; chars_hold(rt.alloc())?);
    Ok(())
}

// Whether a list holds two numbers that are pushed.
fn list_holds(alloc: Global) -> Result<bool, AllocError> {
    let mut list = List::new(alloc);
    let holds = push_two(&mut list);
    drop(list);
    holds
}

fn push_two(list: &mut List<u64>) -> Result<bool, AllocError> {
    list.push(3)?;
    list.push(1)?;
    Ok(list.as_slice() == [3, 1].as_slice())
}

#[test]
fn a_list_holds_what_is_pushed(rt: HostRuntime) -> Result<(), Fail> {
    assert!(rt; list_holds(rt.alloc())?);
    Ok(())
}

// Whether a name of these bytes has them.
fn name_holds(alloc: Global, bytes: &[u8]) -> Result<bool, AllocError> {
    let name = Name::new(alloc, bytes)?;
    let holds = name.as_bytes() == bytes;
    drop(name);
    Ok(holds)
}

#[test]
fn a_name_holds_its_bytes(rt: HostRuntime) -> Result<(), Fail> {
    assert!(rt; name_holds(rt.alloc(), &[0, 255])?);
    assert!(rt; name_holds(rt.alloc(), LONG)?);
    Ok(())
}

/// Numbers by their names.
type Names = IndexMap<Name, u64, BuildHasherDefault<DefaultHasher>>;

// Whether two names are found by their bytes, and another is not.
fn names_are_found(alloc: Global) -> Result<bool, AllocError> {
    let mut names = IndexMap::with_hasher(alloc, BuildHasherDefault::new());
    let found = insert_and_find(alloc, &mut names);
    drop(names);
    found
}

fn insert_and_find(alloc: Global, names: &mut Names) -> Result<bool, AllocError> {
    names.insert(Name::new(alloc, b"@p1")?, 1)?;
    names.insert(Name::new(alloc, LONG)?, 2)?;
    Ok(
        stand_for(names, b"@p1", Some(1))
            && stand_for(names, LONG, Some(2))
            && stand_for(names, b"@p", None),
    )
}

// Whether the name of these bytes is the key of this number, or of none.
fn stand_for(names: &Names, name: &[u8], number: Option<u64>) -> bool {
    names.get(NameRef(name)).copied() == number
}

#[test]
fn a_name_is_found_by_its_bytes(rt: HostRuntime) -> Result<(), Fail> {
    assert!(rt; names_are_found(rt.alloc())?);
    Ok(())
}
