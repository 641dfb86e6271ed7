//! Who may call the machine now.
ghost use Rattle.std.specs.Prelude.{◌≡◌, Bool, true, false, not};
ghost use Rattle.xl_base.specs.Gates.{is_held};

use std::marker::Model;

/// Asked before each call of the machine. A gate that says no is asked again, a turn later.
pub trait Gate {
    /// Whether the gate tells that it is open: that it lets everybody pass.
    ghost is_open: { Self → Bool };

    /// Whether the call may be made now. Its number is the place of the worker that makes it times 2^32, plus the count
    /// of the worker's calls so far modulo 2^32; beside it stands how many turns the worker has done.
    fn pass(&self, call: u64, turns: u64) -> bool
        ensures open { is_open self.now ≡ true → result ≡ true };
}

/// The gate that lets everybody pass.
#[derive(Clone, Copy, Debug)]
pub struct OpenGate;

impl Gate for OpenGate {
    ghost is_open = { λ _. true };

    fn pass(&self, _call: u64, _turns: u64) -> bool
        ensures open { true ≡ true → result ≡ true }
        ensures passes { result ≡ true }
    {
        true
    }
}

/// A call that is held back until so many turns are done.
#[derive(Clone, Copy, Debug)]
pub struct Held {
    /// The number of the call.
    pub call: u64,
    /// How many turns its worker has to have done.
    pub turns: u64,
}

/// A gate in memory that holds some calls back, and tells nothing.
#[derive(Drop)]
pub struct MemoryGate {
    held: Vec<Held>,
}

impl Model for MemoryGate {
    ghost use Rattle.std.specs.Prelude.{List};
    ghost use Rattle.xl_base.specs.declared.gate.Held.{Held as TheHeld};

    ghost Value = { List TheHeld };

    ghost view = { λ g. g.held.items };
}

impl MemoryGate {
    /// A gate that holds these calls back. It takes no memory.
    pub fn new(held: Vec<Held>) -> MemoryGate
        ensures { result ≡ held.items }
    {
        MemoryGate { held }
    }
}

impl Gate for MemoryGate {
    ghost is_open = { λ _. false };

    fn pass(&self, call: u64, turns: u64) -> bool
        ensures open { false ≡ true → result ≡ true }
        ensures passes { result ≡ not (is_held call turns self.now) }
    {
        !is_held(&self.held, call, turns)
    }
}

/// Whether the call is held back still.
fn is_held(held: &[Held], call: u64, turns: u64) -> bool
    ensures { result ≡ is_held call turns held.now }
{
    held.iter().any(|h| h.call == call && turns < h.turns)
}
