//! The rule of the shared table, and what each step does to the view of the seat that makes it. Word 0 stays 0, word 1
//! is 1 while the turn is held, word 2 counts the rows, and the one slot has the value.
use crate::kept::Kept;
use atomic_table::{Join, Play, Split, TableRule};
use std::collections::LinkedList;
use std::marker::{Brand, PhantomData};
use std::snapshot::Snapshot;

/// What a seat at the table knows. No value of it is made.
pub struct View<R> {
    /// The numbers that the seat has, each with the rows that the number made.
    pub parts: LinkedList<(u64, LinkedList<R>)>,
    /// The rows that it has seen.
    pub seen: LinkedList<R>,
    /// Rows that it was told of, and has not compared with those seen yet.
    pub heard: LinkedList<R>,
    /// The next number that it deals. It is 0 but at the seat that deals the passes.
    pub spare: u64,
    /// Whether it has the turn.
    pub has: bool,
}

/// What the rule may read: how many passes there are, and the value with which the turns began.
#[derive(Drop)]
pub struct Opening<V> {
    pub passes: u32,
    pub first: Snapshot<V>,
}

/// The rule of turns.
pub struct Held<V> {
    of: PhantomData<V>,
}

impl<V: Kept> TableRule<Option<V>, View<V::Row>, Opening<V>> for Held<V> {
    ghost use Rattle.std.specs.Prelude.{◌≡◌};
    ghost use Rattle.usb_turn.specs.Held.{HoldsTurns, dealer, keyed};

    ghost holds = { λ o. HoldsTurns (keyed V.stands V.key (λ x. x ≡ V.key o.first.value)) V.by o.passes };

    ghost first = { λ _. dealer 0 };
}

/// The rows that a step adds.
pub trait Added<R> {
    ghost use Rattle.std.specs.Prelude.{List};

    ghost more: { List R };
}

impl<R> Added<R> for Brand {
    ghost use Rattle.std.specs.Prelude.{[]};

    ghost more = { [] };
}

/// What a step tells of the key and of the number of passes, since it cannot read them.
pub trait Told<K> {
    ghost use Rattle.std.specs.Prelude.{ℕ};

    ghost is_key: { K → Type 0 };

    ghost passes: { ℕ };
}

impl<K> Told<K> for Brand {
    ghost is_key = { λ _. Unit {0} };

    ghost passes = { 0 };
}

/// The turn is taken, where word 1 was 0.
pub(crate) struct Take<N> {
    of: PhantomData<N>,
}

impl<V: Kept, N: Told<V::Key>> Play<Option<V>, View<V::Row>> for Take<N> {
    ghost use Rattle.std.specs.Prelude.{◌≡◌, ◌==◌, MatchBool};
    ghost use Rattle.usb_turn.specs.Held.{Took, keyed};

    ghost then = { λ _ m n w. MatchBool (n == 0) (Took (keyed V.stands V.key N.is_key) V.by m w) (w ≡ m) };
}

/// All rows are seen, by the seat that has all numbers.
pub(crate) struct Fill<N> {
    of: PhantomData<N>,
}

impl<V: Kept, N: Told<V::Key>> Play<Option<V>, View<V::Row>> for Fill<N> {
    ghost use Rattle.usb_turn.specs.Held.{Filled, keyed};

    ghost then = { λ _ m _ w. Filled (keyed V.stands V.key N.is_key) V.by N.passes m w };
}

/// A row is counted.
pub(crate) struct Count<N> {
    of: PhantomData<N>,
}

impl<V: Kept, N: Added<V::Row>> Play<Option<V>, View<V::Row>> for Count<N> {
    ghost use Rattle.std.specs.Prelude.{◌≡◌};
    ghost use Rattle.usb_turn.specs.Held.{grown};

    ghost then = { λ _ m _ w. w ≡ (grown m.0 N.more, m.1) };
}

/// The turn is given back, and the value with it.
pub(crate) struct Give;

impl<S, R> Play<S, View<R>> for Give {
    ghost use Rattle.std.specs.Prelude.{◌≡◌, []};
    ghost use Rattle.usb_turn.specs.Held.{rested};

    ghost then = { λ _ m _ w. w ≡ (rested m.0, []) };
}

/// What was heard is compared with what was seen.
pub(crate) struct Compare;

impl<V: Kept> Play<Option<V>, View<V::Row>> for Compare {
    ghost use Rattle.std.specs.Prelude.{◌≡◌};
    ghost use Rattle.usb_turn.specs.Held.{compared, Compared};

    ghost then = { λ _ m _ w. (w ≡ (compared m.0, m.1)) × Compared V.by m.0 };
}

/// The next pass is dealt.
pub(crate) struct Deal;

impl<R> Split<View<R>> for Deal {
    ghost use Rattle.std.specs.Prelude.{◌+◌};
    ghost use Rattle.usb_turn.specs.Held.{dealer, blank};

    ghost left = { λ v. dealer (v.spare + 1) };

    ghost right = { λ v. blank v.spare };
}

/// A seat gives a note of what it has seen, and another seat takes it in.
pub(crate) struct Tell;

impl<R> Split<View<R>> for Tell {
    ghost use Rattle.usb_turn.specs.Held.{note};

    ghost left = { λ v. v };

    ghost right = { λ v. note v.seen };
}

impl<R> Join<View<R>> for Tell {
    ghost use Rattle.std.specs.Prelude.{[]};
    ghost use Rattle.usb_turn.specs.Held.{note, both};

    ghost both = { both };

    ghost spent = { note [] };
}
