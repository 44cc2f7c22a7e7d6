//! Large values that are handed over, so that a caller holds none where memory may run out.

ghost use Rattle.std.specs.Prelude.{◌≡◌, Ok, IfOk, IsErr, OnErr};

use std::alloc::AllocError;

/// Both values, if the second is there. So the caller does not hold the first at its own `?`, and need not drop it there.
pub fn both<A: Drop, B: Drop>(first: A, second: Result<B, AllocError>) -> Result<(A, B), AllocError>
    ensures first { IfOk result (λ pair. pair.0 ≡ first) }
    ensures second { IfOk result (λ pair. second ≡ Ok pair.1) }
    ensures wanting { OnErr result (IsErr second) }
{
    match second {
        Ok(second) => Ok((first, second)),
        Err(error) => Err(error),
    }
}
