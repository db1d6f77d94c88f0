//! Tests of what a call returned. `equal(found, wanted).expect(&rt, "equal")` shows the line of a failure as `assert!` does, and
//! costs the prover half as much.

/// `Some` if this is true.
pub fn is_true(holds: bool) -> Option<()> {
    holds.then_some(())
}

/// `Some` if these are equal.
pub fn equal<T: Copy + PartialEq>(found: T, wanted: T) -> Option<()> {
    (found == wanted).then_some(())
}
