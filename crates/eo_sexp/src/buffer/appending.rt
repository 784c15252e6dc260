//! The bytes of a command, a few at a time.
ghost use Rattle.std.specs.Prelude.{◌≡◌, ◌≤◌, ◌++◌, length, take, OnOk, OnErr};

use std::alloc::AllocError;

// So many bytes are copied at once: two words, with no call, where most tokens are shorter.
const FEW: usize = 16;

/// Appends the first `n` of these bytes.
#[inline(always)]
pub(super) fn append(bytes: &mut Vec<u8>, more: &[u8], n: usize) -> Result<(), AllocError>
    requires { n ≤ length more.now }
    ensures appends { OnOk result (bytes.new.items ≡ bytes.old.items ++ take n more.now) }
    ensures fails { OnErr result (bytes.new.items ≡ bytes.old.items) }
{
    if n <= FEW && more.len() >= FEW {
        let size = bytes.len();
        bytes.extend_from_slice(&more[..FEW])?;
        bytes.truncate(size + n);
    } else {
        bytes.extend_from_slice(&more[..n])?;
    }
    Ok(())
}
