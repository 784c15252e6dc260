//! Values that are shown.
mod world;

use eo_term::{BOOL, TRUE};
use std::test::Fail;
use world::{World, tell};

fn constant(w: &mut World) -> Result<bool, Fail> {
    w.shows(TRUE, b"(define @s1 () true)\n")
}

// A part that occurs once is written where it occurs.
fn shows_nested(w: &mut World) -> Result<bool, Fail> {
    let inner = w.arrow(BOOL, BOOL)?;
    let outer = w.arrow(BOOL, inner)?;
    w.shows(outer, b"(define @s1 () (-> Bool (-> Bool Bool)))\n")
}

fn shows_shared(w: &mut World) -> Result<bool, Fail> {
    let inner = w.arrow(BOOL, BOOL)?;
    let outer = w.arrow(inner, inner)?;
    let lines = b"(define @s1 () (-> Bool Bool))\n(define @s2 () (-> @s1 @s1))\n";
    w.shows(outer, lines)
}

fn shows_undeclared(w: &mut World) -> Result<bool, Fail> {
    let unknown = w.constant(9)?;
    let outer = w.arrow(BOOL, unknown)?;
    w.is_unprintable(outer)
}

#[test]
fn values_are_shown(rt: HostRuntime) -> Result<(), Fail> {
    assert!(rt; tell(rt.alloc(), constant)?);
    assert!(rt; tell(rt.alloc(), shows_nested)?);
    assert!(rt; tell(rt.alloc(), shows_shared)?);
    assert!(rt; tell(rt.alloc(), shows_undeclared)?);
    Ok(())
}
