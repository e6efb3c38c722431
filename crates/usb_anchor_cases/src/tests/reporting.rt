//! Which rejects a poison raises, and an unpoison withdraws.

use crate::tests::desk::check;
use crate::tests::row::Row::{
    self, Added, Holds, Off, Poison, PoisonRaising, Unpoison, UnpoisonWithdrawing,
};
use crate::tests::row::{A, B, C, D, G, H};
use std::test::Fail;

/// Raised tail first, withdrawn in rising number.
const REJECTS_ARE_REPORTED: &[&[Row]] = &[
    &[PoisonRaising(G, &[], &[]), UnpoisonWithdrawing(G, &[])],
    &[
        Added(G, C),
        Added(G, A),
        PoisonRaising(G, &[A, C], &[A, C]),
        UnpoisonWithdrawing(G, &[A, C]),
    ],
    // Raised in the order of the list, withdrawn by number.
    &[
        Added(G, A),
        Added(G, D),
        Added(G, B),
        PoisonRaising(G, &[B, D, A], &[B, D, A]),
        UnpoisonWithdrawing(G, &[A, B, D]),
        Holds(G, &[]),
    ],
    // None is raised where one is held.
    &[
        Poison(G, &[]),
        Added(G, D),
        Added(G, A),
        Off(D, Some(G)),
        PoisonRaising(G, &[A], &[]),
        UnpoisonWithdrawing(G, &[A, D]),
    ],
    // One of two is raised.
    &[
        Added(G, B),
        Poison(G, &[B]),
        Unpoison(G),
        Added(G, B),
        Added(G, C),
        PoisonRaising(G, &[C, B], &[C, B]),
    ],
    // Nothing is left to withdraw.
    &[
        Added(G, A),
        PoisonRaising(G, &[A], &[A]),
        UnpoisonWithdrawing(G, &[A]),
        UnpoisonWithdrawing(G, &[]),
    ],
    // Those of the other anchor stay.
    &[
        Added(G, A),
        Added(H, B),
        PoisonRaising(G, &[A], &[A]),
        PoisonRaising(H, &[B], &[B]),
        UnpoisonWithdrawing(G, &[A]),
        Holds(H, &[B]),
    ],
];

#[test]
fn rejects_are_reported(rt: HostRuntime) -> Result<(), Fail> {
    check(&rt, REJECTS_ARE_REPORTED)
}
