//! What the front keeps: its hosts, and the calls that await an answer.
ghost use Rattle.std.specs.Prelude.{◌≡◌, ◌==◌, ◌≤◌, ◌<◌, [], ◌∷◌, ◌++◌, true, false, length, None, IfSome, OnOk, OnErr};
ghost use Rattle.std.specs.List.{AllByRecursion, find};
ghost use Rattle.xl_core.specs.Limits.{most_hosts};
ghost use Rattle.xl_core.specs.Good.{IsRangeBy};
ghost use Rattle.xl_front_nlm.specs.Hosts.{is_host, host_entered, AreHosts, rooms, host_rows, makes_host, hosts_after};
ghost use Rattle.xl_front_nlm.specs.State.{empty_front, IsCall, IsFront, noted, awaited, without, taken};

use crate::call::GrantedCall;
use indexmap::IndexSet;
use std::alloc::{AllocError, AllocFailed, Global};
use std::marker::Model;
use xl_base::Sequence;
use xl_core::{Answer, MOST_HOSTS, MOST_OPENS, MOST_OWNERS};
use xl_wait::Rooms;

/// What the front keeps: its hosts, at most 256, each once, in order of arrival; and the calls of GRANTED that await an
/// answer, in the order in which they were made. A host is the name of a caller (XNFS C702, `caller_name`) that was
/// granted a lock or a share, or waited for a lock, since the start. A contract sees both lists.
#[derive(Drop)]
pub struct Front {
    hosts: IndexSet<Sequence<u8>>,
    calls: Vec<GrantedCall>,
}

impl Model for Front {
    ghost use Rattle.xl_front_nlm.specs.State.{FrontState, IsFront};

    ghost Value = { FrontState };

    ghost view = { λ f. record { hosts = f.hosts.keys; calls = f.calls.items } };

    ghost invariant = { λ f. IsFront (record { hosts = f.hosts.keys; calls = f.calls.items }) };
}

impl Front {
    /// The front at a start, without hosts and calls. It takes no memory.
    pub fn new(alloc: Global) -> Front
        ensures { result ≡ empty_front }
    {
        Front {
            hosts: IndexSet::new(alloc),
            calls: Vec::new(alloc),
        }
    }

    /// The hosts in order of arrival.
    pub fn hosts(&self) -> &[Sequence<u8>]
        ensures hosts { result.now ≡ self.now.hosts }
        ensures sound { AreHosts self.now.hosts }
    {
        self.hosts.as_slice()
    }

    /// The calls that await an answer, in the order in which they were made. Each sends a range with bytes.
    pub fn calls(&self) -> &[GrantedCall]
        ensures calls { result.now ≡ self.now.calls }
        ensures sound { AllByRecursion IsCall self.now.calls }
    {
        &self.calls
    }

    /// The room that is left in the tables of the fronts: for 256 hosts less those that there are. The tables of the
    /// other protocols have no rows.
    pub fn rooms(&self) -> Rooms
        ensures { result ≡ rooms self.now.hosts }
    {
        rooms_of(&self.hosts)
    }

    /// The rows that a lock or a share of this caller adds.
    pub(crate) fn host_rows(&self, caller: &Sequence<u8>) -> Rooms
        ensures { result ≡ host_rows caller.now self.now.hosts }
    {
        Rooms {
            hosts: if is_host(&self.hosts, caller) { 0 } else { 1 },
            owners: 0,
            opens: 0,
        }
    }

    /// Enters the caller as a host if the answer makes it one. After an error the front is as it was.
    pub(crate) fn note(
        &mut self,
        answer: Answer,
        caller: Sequence<u8>,
    ) -> Result<(), AllocFailed<Sequence<u8>>>
        requires room { makes_host answer ≡ true → is_host caller self.old.hosts ≡ false → length self.old.hosts < most_hosts }
        ensures ok { OnOk result (self.new ≡ noted answer caller self.old) }
        ensures err { OnErr result (self.new ≡ self.old) }
    {
        if makes_host(answer) {
            enter(&mut self.hosts, caller)?;
        }
        Ok(())
    }

    /// One call more awaits an answer. After an error the front is as it was.
    pub(crate) fn await_answer(&mut self, call: GrantedCall) -> Result<(), AllocError>
        requires range { IsRangeBy call.claim.what }
        ensures ok { OnOk result (self.new ≡ awaited self.old call) }
        ensures err { OnErr result (self.new ≡ self.old) }
    {
        push(&mut self.calls, call)
    }

    /// The call of this number, which awaits no answer any more; None exactly if none has it. Then the front is as
    /// it was.
    pub(crate) fn take(&mut self, number: u64) -> Option<GrantedCall>
        ensures call { result ≡ find (λ c. c.number == number) self.old.calls }
        ensures taken { IfSome result (λ call. self.new ≡ taken self.old number) }
        ensures none { result ≡ None → self.new ≡ self.old }
    {
        take(&mut self.calls, number)
    }
}

fn is_host(hosts: &IndexSet<Sequence<u8>>, caller: &Sequence<u8>) -> bool
    ensures { result ≡ is_host caller.now hosts.now.keys }
{
    hosts.contains(caller)
}

fn rooms_of(hosts: &IndexSet<Sequence<u8>>) -> Rooms
    requires { length hosts.now.keys ≤ most_hosts }
    ensures { result ≡ rooms hosts.now.keys }
{
    Rooms {
        hosts: MOST_HOSTS - hosts.len() as u32,
        owners: MOST_OWNERS,
        opens: MOST_OPENS,
    }
}

/// Enters a host behind those before it, if it is new.
#[tactic(auto, using(crate::proofs::HostLaws::sound_entered))]
fn enter(
    hosts: &mut IndexSet<Sequence<u8>>,
    caller: Sequence<u8>,
) -> Result<(), AllocFailed<Sequence<u8>>>
    requires sound { AreHosts hosts.old.keys }
    requires room { is_host caller hosts.old.keys ≡ false → length hosts.old.keys < most_hosts }
    ensures ok { OnOk result (hosts.new.keys ≡ host_entered caller hosts.old.keys) }
    ensures err { OnErr result (hosts.new.keys ≡ hosts.old.keys) }
    ensures sound { AreHosts hosts.new.keys }
{
    hosts.insert_full(caller)?;
    Ok(())
}

/// Whether an answer makes its asker a host.
fn makes_host(answer: Answer) -> bool
    ensures { result ≡ makes_host answer }
{
    match answer {
        Answer::Granted(_) | Answer::Queued(_) => true,
        _ => false,
    }
}

/// Puts a call behind the others.
#[tactic(auto, using(crate::proofs::CallLaws::calls_pushed))]
fn push(calls: &mut Vec<GrantedCall>, call: GrantedCall) -> Result<(), AllocError>
    requires sound { AllByRecursion IsCall calls.old.items }
    requires range { IsRangeBy call.claim.what }
    ensures ok { OnOk result (calls.new.items ≡ calls.old.items ++ call ∷ []) }
    ensures err { OnErr result (calls.new.items ≡ calls.old.items) }
    ensures sound { AllByRecursion IsCall calls.new.items }
{
    calls.push(call)?;
    Ok(())
}

/// The call of this number.
fn find_call(calls: &[GrantedCall], number: u64) -> Option<GrantedCall>
    ensures { result ≡ find (λ c. c.number == number) calls.now }
{
    calls
        .iter()
        .find(|call| u64::from(call.number) == number)
        .copied()
}

/// Takes out the call of this number, if there is one.
fn take(calls: &mut Vec<GrantedCall>, number: u64) -> Option<GrantedCall>
    requires sound { AllByRecursion IsCall calls.old.items }
    ensures call { result ≡ find (λ c. c.number == number) calls.old.items }
    ensures taken { IfSome result (λ call. calls.new.items ≡ without number calls.old.items) }
    ensures none { result ≡ None → calls.new.items ≡ calls.old.items }
    ensures sound { AllByRecursion IsCall calls.new.items }
{
    let call = find_call(calls, number)?;
    drop_call(calls, number);
    Some(call)
}

/// Takes out the call of this number.
#[tactic(auto, unfolding(crate::specs::State::without))]
fn drop_call(calls: &mut Vec<GrantedCall>, number: u64)
    requires sound { AllByRecursion IsCall calls.old.items }
    ensures rest { calls.new.items ≡ without number calls.old.items }
    ensures sound { AllByRecursion IsCall calls.new.items }
{
    calls.retain(|call| u64::from(call.number) != number);
}
