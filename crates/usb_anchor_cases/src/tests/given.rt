//! URBs that are given back leave their anchor.

use crate::tests::desk::check;
use crate::tests::row::Row::{
    self, Added, Busy, Empty, First, Given, Holds, Kill, Poison, Scuttle, Unlink,
};
use crate::tests::row::{A, B, C, G, H, K};
use std::test::Fail;

/// The server takes an URB off, and writes a row where it was on an anchor.
const A_GIVEN_URB_LEAVES: &[&[Row]] = &[
    // No row where it is on none.
    &[Given(A, None), Given(B, None)],
    &[
        Added(G, A),
        Given(A, Some(G)),
        Given(A, None),
        Empty(G, true),
    ],
    // Its handler submits it again.
    &[
        Added(G, A),
        Given(A, Some(G)),
        Added(G, A),
        Given(A, Some(G)),
        Empty(G, true),
    ],
    // Its handler puts it onto another anchor.
    &[
        Added(G, A),
        Given(A, Some(G)),
        Added(H, A),
        Busy(G, A, H),
        Given(A, Some(H)),
    ],
    // In the order in which they come back.
    &[
        Added(G, A),
        Added(G, B),
        Added(G, C),
        Given(B, Some(G)),
        Given(C, Some(G)),
        First(G, Some(A)),
        Given(A, None),
    ],
    // Before a kill.
    &[
        Added(G, A),
        Added(G, B),
        Added(G, C),
        Given(B, Some(G)),
        Kill(G, &[C, A]),
    ],
    // After a kill: the list was taken before.
    &[
        Added(G, A),
        Added(G, B),
        Kill(G, &[B, A]),
        Given(B, None),
        Given(A, None),
    ],
    // After an unlink.
    &[Added(G, A), Unlink(G, &[A]), Given(A, None)],
    // After it was let go.
    &[Added(G, A), Scuttle(G), Given(A, None)],
    // Each from its own anchor.
    &[
        Added(G, A),
        Added(H, B),
        Added(K, C),
        Given(C, Some(K)),
        Given(A, Some(G)),
        Given(B, Some(H)),
    ],
    // A reject stays when its URB comes back.
    &[
        Poison(G, &[]),
        Added(G, A),
        Given(A, Some(G)),
        Holds(G, &[A]),
        Added(H, A),
        Holds(G, &[A]),
        Holds(H, &[]),
    ],
];

#[test]
fn a_given_urb_leaves(rt: HostRuntime) -> Result<(), Fail> {
    check(&rt, A_GIVEN_URB_LEAVES)
}
