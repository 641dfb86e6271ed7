//! Lanes in memory.
ghost use Rattle.std.specs.Prelude.{◌≡◌, ◌<◌, ◌≤◌, ◌||◌, [], ◌++◌, length, take, Some, IsTrue, false};
ghost use Rattle.xl_base.specs.Memory.{counted, is_failing};
ghost use Rattle.xl_base.specs.Telling.{Follows, OnNewest, RoseIf, counted_if};
ghost use Rattle.xl_base.specs.Links.{Nexts, Receives, Sends, Shuts, Fits, next_failed, next_ended, receive_failed, send_failed};
ghost use Rattle.xl_base.specs.declared.lane.NextOutcome.TheVariants as next;
ghost use Rattle.xl_base.specs.declared.lane.ReceiveOutcome.TheVariants as receive;
ghost use Rattle.xl_base.specs.declared.sink.WriteOutcome.TheVariants as write;

use crate::event::Kind;
use crate::lane::{Lane, Link, NextOutcome, ReceiveOutcome};
use crate::sequence::Sequence;
use crate::sink::WriteOutcome;
use crate::source::{copy_front, is_failing};
use std::alloc::Global;
use std::collections::VecDeque;
use std::marker::Model;

/// Bytes that a peer sends once so many were sent to it. A part of no bytes is one wait that gives none.
#[derive(Drop)]
pub struct Part {
    /// How many bytes have to be sent to the link before.
    pub after: usize,
    /// The bytes.
    pub bytes: Sequence<u8>,
}

/// What a peer does: it sends its parts in order, and then no more.
#[derive(Drop)]
pub struct Peer {
    /// What it speaks.
    pub kind: Kind,
    /// What it sends.
    pub parts: VecDeque<Part>,
}

/// A lane in memory, to which its peers come in order. Its calls numbered in the list fail: waits for a link, waits for
/// bytes and sends are counted together, and the first has number 1. A failed send sends half of its bytes. A call
/// fails too if memory runs out.
#[derive(Drop)]
pub struct MemoryLane {
    alloc: Global,
    peers: VecDeque<Peer>,
    parts: VecDeque<Part>,
    given: usize,
    links: Vec<Link>,
    failing: Vec<u64>,
    calls: u64,
    faults: u64,
    lost: u64,
    ended: bool,
    asked: u64,
}

impl Model for MemoryLane {
    ghost use Rattle.xl_base.specs.Links.{MemoryLinks};

    ghost Value = { MemoryLinks };

    ghost view = { λ l. record { told = l.links.items; failing = l.failing.items; calls = l.calls; faults = l.faults; lost = l.lost; ended = l.ended; asked = l.asked } };
}

impl MemoryLane {
    /// A lane to which these peers come, and of which these calls fail. It takes no memory.
    pub fn new(alloc: Global, peers: VecDeque<Peer>, failing: Vec<u64>) -> MemoryLane
        ensures { result ≡ record { told = []; failing = failing.items; calls = 0; faults = 0; lost = 0; ended = false; asked = 0 } }
    {
        MemoryLane {
            alloc,
            peers,
            parts: VecDeque::new(alloc),
            given: 0,
            links: Vec::new(alloc),
            failing,
            calls: 0,
            faults: 0,
            lost: 0,
            ended: false,
            asked: 0,
        }
    }

    /// The links so far, the newest in front.
    pub fn links(&self) -> &[Link]
        ensures { result.now ≡ self.now.told }
    {
        &self.links
    }
}

/// The next peer's link, in front of the others.
fn take_next(
    alloc: Global,
    peers: &mut VecDeque<Peer>,
    parts: &mut VecDeque<Part>,
    links: &mut Vec<Link>,
) -> NextOutcome
    ensures { Nexts result links.old.items links.new.items }
{
    let Some(peer) = peers.pop_front() else {
        return NextOutcome::End;
    };
    let kind = peer.kind;
    let link = Link {
        kind,
        taken: Sequence::new(alloc),
        sent: Sequence::new(alloc),
        ended: false,
        failed: 0,
        shut: false,
    };
    if links.insert(0, link).is_err() {
        return NextOutcome::Failed;
    }
    *parts = peer.parts;
    NextOutcome::Link(kind)
}

/// The bytes that the newest link gives now.
fn receive(
    parts: &mut VecDeque<Part>,
    given: &mut usize,
    links: &mut [Link],
    buffer: &mut [u8],
) -> ReceiveOutcome
    requires { 0 < length buffer.old }
    ensures fits { Fits result buffer.new }
    ensures told { OnNewest (Receives result buffer.new) links.old links.new }
{
    let [newest, ..] = links else {
        return ReceiveOutcome::Quiet;
    };
    let Some(part) = parts.front() else {
        newest.ended = true;
        return ReceiveOutcome::End;
    };
    if newest.sent.len() < part.after {
        return ReceiveOutcome::Quiet;
    }
    let at = (*given).min(part.bytes.len());
    let (_, rest) = part.bytes.as_slice().split_at(at);
    if rest.is_empty() {
        *given = 0;
        parts.pop_front();
        return ReceiveOutcome::Quiet;
    }
    let count = copy_front(rest, buffer);
    if newest.taken.extend_from_slice(&buffer[..count]).is_err() {
        newest.failed = newest.failed.saturating_add(1);
        return ReceiveOutcome::Failed;
    }
    *given = at + count;
    ReceiveOutcome::Got(count)
}

/// Notes that a wait for the newest link's bytes failed.
fn fail(links: &mut [Link], buffer: &mut [u8]) -> ReceiveOutcome
    ensures failed { result ≡ receive.Failed }
    ensures told { OnNewest (Receives result buffer.new) links.old links.new }
    ensures same { length buffer.new ≡ length buffer.old }
{
    if let [newest, ..] = links {
        newest.failed = newest.failed.saturating_add(1);
    }
    ReceiveOutcome::Failed
}

/// Sends half of the bytes, or none if memory runs out; the answer is how many.
fn send_half(sent: &mut Sequence<u8>, bytes: &[u8]) -> usize
    ensures { sent.new ≡ sent.old ++ take result bytes.now }
{
    let half = bytes.len() / 2;
    match sent.extend_from_slice(&bytes[..half]) {
        Ok(()) => half,
        Err(_) => 0,
    }
}

/// Sends the bytes to the newest link, or half of them if it fails.
#[tactic(auto, using(crate::proofs::LinkLaws::front_of))]
fn send(links: &mut [Link], bytes: &[u8], fails: bool) -> WriteOutcome
    ensures told { OnNewest (Sends result bytes.now) links.old links.new }
    ensures fails { IsTrue fails → result ≡ write.Failed }
{
    let [newest, ..] = links else {
        return if fails {
            WriteOutcome::Failed
        } else {
            WriteOutcome::Wrote
        };
    };
    if fails {
        newest.failed = newest.failed.saturating_add(1);
        send_half(&mut newest.sent, bytes);
        return WriteOutcome::Failed;
    }
    if newest.sent.extend_from_slice(bytes).is_err() {
        newest.failed = newest.failed.saturating_add(1);
        return WriteOutcome::Failed;
    }
    WriteOutcome::Wrote
}

/// Closes the newest link.
fn shut(links: &mut [Link])
    ensures { OnNewest Shuts links.old links.new }
{
    if let [newest, ..] = links {
        newest.shut = true;
    }
}

impl Lane for MemoryLane {
    ghost told = { λ l. Some l.told };

    ghost faults = { λ l. l.faults };

    ghost lost = { λ l. l.lost };

    ghost ended = { λ l. l.ended };

    ghost asked = { λ l. l.asked };

    fn faults(&self) -> u64 {
        self.faults
    }

    fn lost(&self) -> u64 {
        self.lost
    }

    fn ended(&self) -> bool {
        self.ended
    }

    fn asked(&self) -> u64 {
        self.asked
    }

    fn next(&mut self) -> NextOutcome
        ensures told { Follows (Some self.old.told) (Some self.new.told) (Nexts result) }
        ensures later { self.old.faults ≤ self.new.faults }
        ensures counts { RoseIf (next_failed result) self.old.faults self.new.faults }
        ensures lost { self.new.lost ≡ counted_if (next_failed result) self.old.lost }
        ensures ended { self.new.ended ≡ (self.old.ended || next_ended result) }
        ensures asked { self.new.asked ≡ counted self.old.asked }
        ensures calls { (self.new.calls ≡ counted self.old.calls) × (self.new.failing ≡ self.old.failing) }
        ensures fails { IsTrue (is_failing self.old.failing self.new.calls) → result ≡ next.Failed }
    {
        self.asked = self.asked.saturating_add(1);
        self.calls = self.calls.saturating_add(1);
        let outcome = if is_failing(&self.failing, self.calls) {
            NextOutcome::Failed
        } else {
            take_next(
                self.alloc,
                &mut self.peers,
                &mut self.parts,
                &mut self.links,
            )
        };
        match outcome {
            NextOutcome::Link(_) => self.given = 0,
            NextOutcome::Failed => {
                self.faults = self.faults.saturating_add(1);
                self.lost = self.lost.saturating_add(1);
            }
            NextOutcome::End => self.ended = true,
            _ => {}
        }
        outcome
    }

    fn recv(&mut self, buffer: &mut [u8]) -> ReceiveOutcome
        requires { 0 < length buffer.old }
        ensures fits { Fits result buffer.new }
        ensures told { Follows (Some self.old.told) (Some self.new.told) (OnNewest (Receives result buffer.new)) }
        ensures later { self.old.faults ≤ self.new.faults }
        ensures counts { RoseIf (receive_failed result) self.old.faults self.new.faults }
        ensures lost { self.new.lost ≡ self.old.lost }
        ensures ended { self.new.ended ≡ self.old.ended }
        ensures asked { self.new.asked ≡ counted self.old.asked }
        ensures calls { (self.new.calls ≡ counted self.old.calls) × (self.new.failing ≡ self.old.failing) }
        ensures fails { IsTrue (is_failing self.old.failing self.new.calls) → result ≡ receive.Failed }
    {
        self.asked = self.asked.saturating_add(1);
        self.calls = self.calls.saturating_add(1);
        let outcome = if is_failing(&self.failing, self.calls) {
            fail(&mut self.links, buffer)
        } else {
            receive(&mut self.parts, &mut self.given, &mut self.links, buffer)
        };
        if let ReceiveOutcome::Failed = outcome {
            self.faults = self.faults.saturating_add(1);
        }
        outcome
    }

    fn send(&mut self, bytes: &[u8]) -> WriteOutcome
        ensures told { Follows (Some self.old.told) (Some self.new.told) (OnNewest (Sends result bytes.now)) }
        ensures later { self.old.faults ≤ self.new.faults }
        ensures counts { RoseIf (send_failed result) self.old.faults self.new.faults }
        ensures lost { self.new.lost ≡ self.old.lost }
        ensures ended { self.new.ended ≡ self.old.ended }
        ensures asked { self.new.asked ≡ self.old.asked }
        ensures calls { (self.new.calls ≡ counted self.old.calls) × (self.new.failing ≡ self.old.failing) }
        ensures fails { IsTrue (is_failing self.old.failing self.new.calls) → result ≡ write.Failed }
    {
        self.calls = self.calls.saturating_add(1);
        let fails = is_failing(&self.failing, self.calls);
        let outcome = send(&mut self.links, bytes, fails);
        if let WriteOutcome::Failed = outcome {
            self.faults = self.faults.saturating_add(1);
        }
        outcome
    }

    fn shut(&mut self)
        ensures told { Follows (Some self.old.told) (Some self.new.told) (OnNewest Shuts) }
        ensures faults { self.new.faults ≡ self.old.faults }
        ensures lost { self.new.lost ≡ self.old.lost }
        ensures ended { self.new.ended ≡ self.old.ended }
        ensures asked { self.new.asked ≡ self.old.asked }
        ensures calls { (self.new.calls ≡ self.old.calls) × (self.new.failing ≡ self.old.failing) }
    {
        shut(&mut self.links);
    }
}
