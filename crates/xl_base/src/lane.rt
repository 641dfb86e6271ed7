//! Where connections come from.
ghost use Rattle.std.specs.Prelude.{◌≡◌, ℕ, ◌<◌, ◌≤◌, ◌||◌, Bool, List, length, Option};
ghost use Rattle.xl_base.specs.Memory.{counted};
ghost use Rattle.xl_base.specs.Telling.{Follows, OnNewest, RoseIf, counted_if};
ghost use Rattle.xl_base.specs.Links.{Nexts, Receives, Sends, Shuts, Fits, next_failed, next_ended, receive_failed, send_failed};
ghost use Rattle.xl_base.specs.declared.lane.Link.{Link as TheLink};

use crate::event::Kind;
use crate::sequence::Sequence;
use crate::sink::WriteOutcome;

/// What the wait for the next link gave.
#[derive(Clone, Copy)]
pub enum NextOutcome {
    /// A link of this kind, in place of the one before.
    Link(Kind),
    /// None yet.
    Quiet,
    /// No link comes any more.
    End,
    /// The wait failed.
    Failed,
}

/// What a wait for a link's bytes gave.
#[derive(Clone, Copy, Debug)]
pub enum ReceiveOutcome {
    /// So many bytes, at least one, now stand at the front of the buffer.
    Got(usize),
    /// None yet.
    Quiet,
    /// The peer sends no more.
    End,
    /// The link failed, and took nothing.
    Failed,
}

/// What a lane tells of a link.
#[derive(Drop)]
pub struct Link {
    /// What it speaks.
    pub kind: Kind,
    /// The bytes that were taken from it.
    pub taken: Sequence<u8>,
    /// The bytes that were sent to it.
    pub sent: Sequence<u8>,
    /// Whether it said that its peer sends no more.
    pub ended: bool,
    /// How many waits for its bytes, and sends to it, failed; it stops at its last value.
    pub failed: u64,
    /// Whether it was shut.
    pub shut: bool,
}

/// Where connections come from, one after another: the newest link is the one that is served. The links are told, or
/// not; then no contract says what was taken from them and sent to them.
pub trait Lane {
    /// The links so far, the newest in front, if the lane tells them.
    ghost told: { Self → Option (List TheLink) };

    /// How many of the lane's calls have failed; it stops at its last value.
    ghost faults: { Self → ℕ };

    /// How many waits for a next link have failed; it stops at its last value.
    ghost lost: { Self → ℕ };

    /// Whether a wait for a next link has said that none comes any more.
    ghost ended: { Self → Bool };

    /// How many waits for a link and for a link's bytes there were; it stops at its last value.
    ghost asked: { Self → ℕ };

    /// The count of failed calls; it never falls.
    fn faults(&self) -> u64
        ensures { result ≡ faults self.now };

    /// The count of failed waits for a next link.
    fn lost(&self) -> u64
        ensures { result ≡ lost self.now };

    /// Whether no link comes any more.
    fn ended(&self) -> bool
        ensures { result ≡ ended self.now };

    /// The count of waits for a link and for a link's bytes.
    fn asked(&self) -> u64
        ensures { result ≡ asked self.now };

    /// Waits for the next link, a while at most. The counts of faults and of lost links rise if the answer is
    /// Failed, and only then.
    fn next(&mut self) -> NextOutcome
        ensures told { Follows (told self.old) (told self.new) (Nexts result) }
        ensures later { faults self.old ≤ faults self.new }
        ensures counts { RoseIf (next_failed result) (faults self.old) (faults self.new) }
        ensures lost { lost self.new ≡ counted_if (next_failed result) (lost self.old) }
        ensures ended { ended self.new ≡ (ended self.old || next_ended result) }
        ensures asked { asked self.new ≡ counted (asked self.old) };

    /// Waits for bytes of the newest link, a while at most. The count of faults rises if the answer is Failed, and
    /// only then.
    fn recv(&mut self, buffer: &mut [u8]) -> ReceiveOutcome
        requires { 0 < length buffer.old }
        ensures fits { Fits result buffer.new }
        ensures told { Follows (told self.old) (told self.new) (OnNewest (Receives result buffer.new)) }
        ensures later { faults self.old ≤ faults self.new }
        ensures counts { RoseIf (receive_failed result) (faults self.old) (faults self.new) }
        ensures lost { lost self.new ≡ lost self.old }
        ensures ended { ended self.new ≡ ended self.old }
        ensures asked { asked self.new ≡ counted (asked self.old) };

    /// Sends the bytes to the newest link, all or, if it fails, a beginning of them. The count of faults rises if
    /// the answer is Failed, and only then.
    fn send(&mut self, bytes: &[u8]) -> WriteOutcome
        ensures told { Follows (told self.old) (told self.new) (OnNewest (Sends result bytes.now)) }
        ensures later { faults self.old ≤ faults self.new }
        ensures counts { RoseIf (send_failed result) (faults self.old) (faults self.new) }
        ensures lost { lost self.new ≡ lost self.old }
        ensures ended { ended self.new ≡ ended self.old }
        ensures asked { asked self.new ≡ asked self.old };

    /// Closes the newest link.
    fn shut(&mut self)
        ensures told { Follows (told self.old) (told self.new) (OnNewest Shuts) }
        ensures faults { faults self.new ≡ faults self.old }
        ensures lost { lost self.new ≡ lost self.old }
        ensures ended { ended self.new ≡ ended self.old }
        ensures asked { asked self.new ≡ asked self.old };
}
