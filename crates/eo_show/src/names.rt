//! The names of lines.
ghost use Rattle.std.specs.Prelude.{◌≡◌, ◌++◌, ◌∷◌, ◌+◌, ℕ, Bool, List, IfOk, OnOk};
ghost use Rattle.eo_term.specs.Tree.{Tree};
ghost use Rattle.eo_sig.specs.Reading.{signature, macros};
ghost use Rattle.eo_sig.specs.Signature.{is_free};
ghost use Rattle.eo_show.specs.Lines.{line_name, next_free};
ghost use Rattle.eo_show.specs.Numbers.{numbers_from};

use eo_sig::Signature;
use itoa::Buffer;
use std::alloc::{AllocError, Global};

/// Appends the name of a line.
pub(crate) fn print_name(out: &mut Vec<u8>, number: u64) -> Result<(), AllocError>
    ensures { OnOk result (out.new.items ≡ out.old.items ++ line_name number) }
{
    let mut digits = Buffer::new();
    out.extend_from_slice(b"@s")?;
    out.extend_from_slice(digits.format(number).as_bytes())?;
    Ok(())
}

/// A number for each member that gets a line, and 0 for the others.
pub(crate) fn number_lines(
    alloc: Global,
    sig: &Signature,
    wants: &[bool],
) -> Result<Vec<u64>, AllocError>
    ensures { (ts : List Tree) → IfOk result (λ v. v.items ≡ numbers_from (signature ts sig.now) (macros ts sig.now) 1 wants.now) }
{
    let mut numbers = Vec::new(alloc);
    let mut next = 1;
    for wanted in wants {
        next = number_one(alloc, sig, &mut numbers, next, *wanted)?;
    }
    Ok(numbers)
}

// One number more, of those from `next` on. The next one comes back.
fn number_one(
    alloc: Global,
    sig: &Signature,
    numbers: &mut Vec<u64>,
    next: u64,
    wanted: bool,
) -> Result<u64, AllocError>
    ensures { (ts : List Tree) (wants : List Bool) → IfOk result (λ n. numbers.old.items ++ numbers_from (signature ts sig.now)
        (macros ts sig.now) next (wanted ∷ wants)
        ≡ numbers.new.items ++ numbers_from (signature ts sig.now) (macros ts sig.now) n wants) }
{
    if !wanted {
        numbers.push(0)?;
        return Ok(next);
    }
    let number = next_free(alloc, sig, next)?;
    numbers.push(number)?;
    let later = after(number)?;
    Ok(later)
}

// The first number from this one on whose name is free.
fn next_free(alloc: Global, sig: &Signature, from: u64) -> Result<u64, AllocError>
    ensures { (ts : List Tree) → IfOk result (λ n. n ≡ next_free (signature ts sig.now) (macros ts sig.now) from) }
{
    let mut number = from;
    // no more names are taken
    let mut left = sig.declarations() as u128 + sig.macros() as u128;
    while left > 0 {
        if is_free(alloc, sig, number)? {
            return Ok(number);
        }
        number = after(number)?;
        left -= 1;
    }
    Ok(number)
}

fn after(number: u64) -> Result<u64, AllocError>
    ensures { IfOk result (λ n. n ≡ number + 1) }
{
    match number.checked_add(1) {
        Some(next) => Ok(next),
        None => Err(AllocError),
    }
}

fn is_free(alloc: Global, sig: &Signature, number: u64) -> Result<bool, AllocError>
    ensures { (ts : List Tree) → IfOk result (λ b. b ≡ is_free (signature ts sig.now) (macros ts sig.now) (line_name number)) }
{
    let mut name = Vec::new(alloc);
    print_name(&mut name, number)?;
    Ok(sig.is_free(name.as_slice()))
}
