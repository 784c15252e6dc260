//! Types that are kept, and that are forgotten with their terms.
use super::world::{World, holds};
use eo_sig::LiteralClass;
use eo_term::TYPE;
use std::test::Fail;

#[test]
fn a_type_is_kept(rt: HostRuntime) -> Result<(), Fail> {
    assert!(rt; holds(rt.alloc(), a_width_is_kept)?);
    Ok(())
}

// The type of a bit string, for which its width is made.
fn a_width_is_kept(w: &mut World) -> Result<bool, Fail> {
    let literal = w.par(0)?;
    let vector = w.con(4)?;
    let class = w.app(vector, literal)?;
    w.declare(b"BitVec", TYPE)?;
    w.set_class(LiteralClass::Binary, class)?;
    let bits = w.bits()?;
    w.is_kept(bits)
}

#[test]
fn a_number_is_used_again(rt: HostRuntime) -> Result<(), Fail> {
    assert!(rt; holds(rt.alloc(), |w| w.have_types_in_turn())?);
    Ok(())
}
