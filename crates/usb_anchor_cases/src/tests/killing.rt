//! The list of an anchor is taken whole by a kill.

use crate::tests::desk::check;
use crate::tests::row::Row::{self, Added, Busy, Empty, First, Holds, Kill, Off, Scuttle, Unlink};
use crate::tests::row::{A, B, C, D, G, H, K};
use std::test::Fail;

/// The whole list is answered, tail first.
const A_LIST_IS_KILLED_TAIL_FIRST: &[&[Row]] = &[
    // An empty list.
    &[Kill(G, &[]), Empty(G, true)],
    &[
        Added(G, A),
        Added(G, B),
        Busy(G, A, G),
        Kill(G, &[B, A]),
        Empty(G, true),
    ],
    // An URB that was never submitted is in the list like any other.
    &[Added(G, A), Kill(G, &[A]), Empty(G, true), Off(A, None)],
    // All URBs.
    &[
        Added(H, A),
        Added(H, B),
        Added(H, C),
        Added(H, D),
        Kill(H, &[D, C, B, A]),
    ],
    // One has left before.
    &[
        Added(G, A),
        Added(G, B),
        Added(G, C),
        Off(B, Some(G)),
        Kill(G, &[C, A]),
    ],
    // The first one has left before.
    &[
        Added(G, A),
        Added(G, B),
        Added(G, C),
        First(G, Some(A)),
        Kill(G, &[C, B]),
    ],
    // One came back.
    &[
        Added(G, A),
        Added(G, B),
        Off(A, Some(G)),
        Added(G, A),
        Kill(G, &[A, B]),
    ],
    // A list that was let go.
    &[Added(G, A), Scuttle(G), Kill(G, &[])],
];

#[test]
fn a_list_is_killed_tail_first(rt: HostRuntime) -> Result<(), Fail> {
    check(&rt, A_LIST_IS_KILLED_TAIL_FIRST)
}

/// What was killed is on no anchor, and what comes later is not in the list.
const A_KILL_TAKES_THE_LIST_ONCE: &[&[Row]] = &[
    &[Added(G, A), Added(G, B), Kill(G, &[B, A]), Kill(G, &[])],
    // The list begins anew.
    &[
        Added(G, A),
        Kill(G, &[A]),
        Added(G, B),
        Added(G, A),
        Kill(G, &[A, B]),
    ],
    // Another anchor may have them.
    &[
        Added(G, A),
        Added(G, B),
        Kill(G, &[B, A]),
        Added(H, A),
        Added(H, B),
        Kill(H, &[B, A]),
        Empty(G, true),
    ],
    // The lists of other anchors stay.
    &[
        Added(G, A),
        Added(H, B),
        Added(K, C),
        Kill(H, &[B]),
        Unlink(G, &[A]),
        Unlink(K, &[C]),
    ],
    // An unlink after it has nothing.
    &[Added(G, A), Kill(G, &[A]), Unlink(G, &[]), First(G, None)],
    // A kill holds no reject.
    &[
        Added(G, A),
        Kill(G, &[A]),
        Holds(G, &[]),
        Added(G, A),
        Holds(G, &[]),
    ],
];

#[test]
fn a_kill_takes_the_list_once(rt: HostRuntime) -> Result<(), Fail> {
    check(&rt, A_KILL_TAKES_THE_LIST_ONCE)
}
