// What keeps a call from its answer.

#![tactic(auto)]

ghost use Rattle.std.specs.Prelude.{◌≡◌};
ghost use Rattle.failures.specs.declared.Failure.TheVariants.{Refused as RefusedFor, Memory as NoMemory};

use std::alloc::{AllocError, AllocFailed};

// Why a call is refused, where a `?` is to make a failure of it.
pub trait Reason {}

// What keeps a call from its answer: a refusal that says why, or want of memory.
#[derive(Clone, Copy, Debug, PartialEq, Eq)]
pub enum Failure<E> {
    // It is refused, and this is why.
    Refused(E),
    // There is no memory for the answer.
    Memory,
}

// The conversions are written by hand, since the clauses name the failure that a `?` makes.
impl<E: Reason> From<E> for Failure<E> {
    ghost from_gives = { λ why r. r ≡ RefusedFor why };

    fn from(value: E) -> Failure<E> {
        Failure::Refused(value)
    }
}

impl<E> From<AllocError> for Failure<E> {
    ghost from_gives = { λ _ r. r ≡ NoMemory };

    fn from(_value: AllocError) -> Failure<E> {
        Failure::Memory
    }
}

impl<E, T: Drop> From<AllocFailed<T>> for Failure<E> {
    ghost from_gives = { λ _ r. r ≡ NoMemory };

    fn from(value: AllocFailed<T>) -> Failure<E> {
        Failure::from(AllocError::from(value))
    }
}
