//! Steps that may be refused, beside what is owned.
ghost use Rattle.std.specs.Prelude.{◌≡◌, Ok, Err, IfOk, IfErr};

/// What a call returned, and another value, or why the call was refused. The other value is then
/// dropped here, once for all types, so that a function that owns much drops nothing itself.
pub fn ok_with<A: Drop, B: Drop, E: Drop>(called: Result<A, E>, other: B) -> Result<(A, B), E>
    ensures called { IfOk result (λ p. called ≡ Ok p.0) }
    ensures other { IfOk result (λ p. p.1 ≡ other) }
    ensures refused { IfErr result (λ e. called ≡ Err e) }
{
    match called {
        Ok(value) => Ok((value, other)),
        Err(e) => Err(e),
    }
}
