//! The rule of a desk's table, and its steps.
ghost use Rattle.xl_desk.specs.Turns.{OneTurn, opened, taken, checked, glanced, added, halted, given, seen_more, halved, half, both, spent};

use crate::view::View;
use atomic_table::{Join, Play, Split, TableRule};
use std::snapshot::Snapshot;
use xl_base::Serial;

/// The rule of a desk's table. Word 0 is the place past the last entry, word 1 the number of the halt, and word 2 is 1
/// while a pass has the turn.
pub struct InTurns;

impl<H: Serial> TableRule<Option<H>, View<H::Origin>, Snapshot<H>> for InTurns {
    ghost holds = { λ _. OneTurn H.history H.halt H.origin H.first H.lawful H.may_halt };

    ghost first = { λ key. opened (H.origin key.value) (H.first (H.origin key.value)) (H.history key.value) (H.halt key.value) };
}

/// Takes the turn, if it is free.
pub(crate) struct Take;

impl<H: Serial> Play<Option<H>, View<H::Origin>> for Take {
    ghost then = { taken H.history H.halt H.origin H.first H.lawful };
}

/// Looks whether the machine in hand is halted.
pub(crate) struct Check;

impl<H: Serial> Play<Option<H>, View<H::Origin>> for Check {
    ghost then = { checked };
}

/// Looks whether the machine is halted, whoever has it.
pub(crate) struct Glance;

impl<H: Serial> Play<Option<H>, View<H::Origin>> for Glance {
    ghost then = { glanced };
}

/// Counts an entry.
pub(crate) struct Add;

impl<H: Serial> Play<Option<H>, View<H::Origin>> for Add {
    ghost then = { added H.history };
}

/// Notes that the machine is halted.
pub(crate) struct Stop;

impl<H: Serial> Play<Option<H>, View<H::Origin>> for Stop {
    ghost then = { halted H.halt };
}

/// Gives the turn back.
pub(crate) struct Give;

impl<H: Serial> Play<Option<H>, View<H::Origin>> for Give {
    ghost then = { given };
}

/// Looks how long the journal is.
pub(crate) struct See;

impl<H: Serial> Play<Option<H>, View<H::Origin>> for See {
    ghost then = { seen_more H.lawful };
}

/// Cuts a pass in two, and joins two.
pub(crate) struct Halves;

impl<O> Split<View<O>> for Halves {
    ghost left = { halved };

    ghost right = { half };
}

impl<O> Join<View<O>> for Halves {
    ghost both = { both };

    ghost spent = { spent };
}
