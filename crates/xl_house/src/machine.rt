//! The machine: what one event does, and what it sends.
ghost use Rattle.std.specs.Prelude.{◌≡◌, ℕ, ◌+◌, ◌*◌, ◌<◌, ◌≤◌, ◌^◌, true, false, [], Some, None, map, option_map, OnOk, IfOk};
ghost use Rattle.xl_base.specs.Limits.{most_numbers};
ghost use Rattle.xl_programs.specs.Programs.{serves, shown_request, incoming_at};
ghost use Rattle.xl_programs.specs.Sent.{sent_to};
ghost use Rattle.xl_rpc.specs.Replies.{reply};
ghost use Rattle.xl_core.specs.Numbers.{numbers_of};
ghost use Rattle.xl_core.specs.State.{MayBe, step_begun};
ghost use Rattle.xl_core.specs.Stores.{Holds};
ghost use Rattle.xl_core.specs.Ticks.{tick};
ghost use Rattle.xl_front_nlm.specs.Answers.{nlm_called};
ghost use Rattle.xl_front_nlm.specs.FrontNlm.{nlm_step};
ghost use Rattle.xl_front_nlm.specs.Short.{AreShort, IsReady, Leaves};
ghost use Rattle.xl_house.specs.Free.{IsFree};
ghost use Rattle.xl_house.specs.Journals.{is_restart};
ghost use Rattle.xl_front_nfs.specs.FrontNfs.{nfs_step};
ghost use Rattle.xl_front_smb.specs.FrontSmb.{smb_step};
ghost use Rattle.xl_plan.specs.Keepers.{HandsTo, IsQuiet, telling};
ghost use Rattle.xl_house.specs.Machine.{connected, frame_in, frames_begun, gone, gone_by, heard, heard_in, run, sent_of, step, steps_left, Gives};
ghost use Rattle.xl_house.specs.Owing.{LeavesOwed};
ghost use Rattle.xl_house.specs.Sifting.{paused_left};
ghost use Rattle.xl_house.specs.Own.{with_nlm, with_nfs, with_smb, after_call, after_tick, begun, record_own, message_own, end_own};
ghost use Rattle.xl_house.specs.Recording.{HasKept};
ghost use Rattle.xl_house.specs.State.{smb_opens, nfs_opens, as_found};
ghost use Rattle.xl_house.specs.Telling.{framed};
ghost use Rattle.xl_house.specs.Whole.{whole_of};

use crate::connections::{Connection, end, has_room, kind_of, open};
use crate::frames::{Going, Ground, brings_frame, end_paused, put_cancelled, run, settle_frames};
use crate::layers::{Fronts, Layers};
use crate::outs::{room_for, send_all, sent_for, sent_with};
use crate::settling::settle;
use std::alloc::{AllocError, Global};
use xl_base::{Event, Exports, Keeper, Kind, Moment, Out, Sequence};
use xl_front_nfs::{Arrival, nfs_step, nfs_tick};
use xl_front_nlm::{NlmLayers, nlm_called, nlm_step};
use xl_front_smb::{Packet, smb_begin, smb_end, smb_step};
use xl_programs::{Incoming, Program, Request, read_incoming, refusal, sent_to};
use xl_rpc::Verdict;
use xl_smb_frames::Paused;

/// What the machine keeps between two events.
#[derive(Drop)]
pub(crate) struct Machine {
    /// The place of the next event.
    pub place: u64,
    /// The connections that are open.
    pub connections: Vec<Connection>,
    /// What stands behind requests of SMB that wait in their frames.
    pub paused: Sequence<Paused>,
    /// The fronts and the core.
    pub layers: Layers,
}

/// Opens or ends a connection if the event at this place does.
#[tactic(auto, unfolding(crate::specs::Machine::connected))]
fn connect(connections: &mut Vec<Connection>, place: u64, event: &Event) -> Result<(), AllocError>
    ensures { OnOk result (connections.new.items ≡ connected connections.old.items place event.now) }
{
    match event {
        Event::Open(kind) => open(connections, place, *kind)?,
        Event::End(number) => end(connections, *number),
        _ => {}
    }
    Ok(())
}

/// What a call of NLM sends: what the fronts show for the effects, and its reply.
fn hear_nlm<K: Keeper>(
    alloc: Global,
    exports: &Exports,
    layers: &mut Layers,
    keeper: &mut K,
    number: u64,
    request: &Request,
) -> Result<Sequence<Out>, AllocError>
    requires known { serves Program.Nlm request.now.procedure ≡ true }
    requires ready { IsReady most_numbers layers.old.core }
    ensures heard { (n : ℕ) → IfOk result (λ outs. MayBe n layers.new.core → sent_of exports.now (Some Kind.Rpc) (with_nlm layers.old.front (nlm_step n exports.now layers.old.front.nlm layers.old.core number (shown_request request.now))) ≡ (outs, layers.new.front, layers.new.core)) }
    ensures leaves { OnOk result (Leaves most_numbers layers.old.core layers.new.core) }
    ensures keeper { OnOk result (HandsTo K.held K.given K.faults K.left layers.old.core layers.new.core keeper.old keeper.new) }
{
    let (reply, effects) = nlm_step(
        alloc,
        exports,
        NlmLayers {
            front: &mut layers.front.nlm,
            core: &mut layers.core,
        },
        keeper,
        number,
        request,
    )?;
    let outs = sent_with(alloc, exports, Kind::Rpc, layers, reply, effects)?;
    Ok(outs)
}

/// What a call of NFSv4 sends: what the fronts show for the effects, and its reply.
fn hear_nfs<K: Keeper>(
    alloc: Global,
    exports: &Exports,
    layers: &mut Layers,
    keeper: &mut K,
    number: u64,
    request: &Request,
) -> Result<Sequence<Out>, AllocError>
    requires known { serves Program.Nfs request.now.procedure ≡ true }
    requires ready { IsReady most_numbers layers.old.core }
    ensures heard { (n : ℕ) → IfOk result (λ outs. MayBe n layers.new.core → sent_of exports.now (Some Kind.Rpc) (with_nfs layers.old.front (nfs_step n exports.now (smb_opens layers.old.front) layers.old.front.nfs layers.old.core number (shown_request request.now))) ≡ (outs, layers.new.front, layers.new.core)) }
    ensures leaves { OnOk result (Leaves most_numbers layers.old.core layers.new.core) }
    ensures keeper { OnOk result (HandsTo K.held K.given K.faults K.left layers.old.core layers.new.core keeper.old keeper.new) }
{
    let others = layers.front.smb.opens_held();
    let arrival = Arrival {
        conn: number,
        request,
    };
    let (reply, effects) = nfs_step(
        alloc,
        exports,
        others,
        &mut layers.front.nfs,
        &mut layers.core,
        keeper,
        &arrival,
    )?;
    let outs = sent_with(alloc, exports, Kind::Rpc, layers, reply, effects)?;
    Ok(outs)
}

/// A reply without results, in its frame.
fn refuse(
    alloc: Global,
    number: u64,
    xid: u32,
    verdict: Verdict,
) -> Result<Sequence<Out>, AllocError>
    ensures { IfOk result (λ outs. outs ≡ map (framed Kind.Rpc) (sent_to number (reply xid verdict))) }
{
    let bytes = refusal(alloc, xid, verdict)?;
    let sent = sent_to(alloc, number, bytes)?;
    let mut outs = Sequence::from_vec(room_for(alloc, sent.len())?);
    send_all(alloc, Kind::Rpc, sent, &mut outs)?;
    Ok(outs)
}

/// What a record of ONC RPC sends.
#[tactic(auto, using(xl_front_nlm::proofs::LeaveLaws::leaves_self))]
fn hear_record<K: Keeper>(
    alloc: Global,
    exports: &Exports,
    layers: &mut Layers,
    keeper: &mut K,
    number: u64,
    bytes: &[u8],
) -> Result<Sequence<Out>, AllocError>
    requires ready { IsReady most_numbers layers.old.core }
    ensures heard { (n : ℕ) → IfOk result (λ outs. MayBe n layers.new.core → sent_of exports.now (Some Kind.Rpc) (record_own n exports.now layers.old.front layers.old.core number (incoming_at bytes.now)).given ≡ (outs, layers.new.front, layers.new.core)) }
    ensures leaves { OnOk result (Leaves most_numbers layers.old.core layers.new.core) }
    ensures keeper { OnOk result (HandsTo K.held K.given K.faults K.left layers.old.core layers.new.core keeper.old keeper.new) }
{
    match read_incoming(bytes) {
        Incoming::Asked(request) => match request.program {
            Program::Nlm => hear_nlm(alloc, exports, layers, keeper, number, &request),
            Program::Nfs => hear_nfs(alloc, exports, layers, keeper, number, &request),
        },
        Incoming::Refused(xid, verdict) => refuse(alloc, number, xid, verdict),
        Incoming::Unanswered => Ok(Sequence::new(alloc)),
    }
}

/// What a message of SMB, or a part of a frame, sends: what the fronts show for the effects, and its reply.
pub(crate) fn hear_part<K: Keeper>(
    alloc: Global,
    exports: &Exports,
    layers: &mut Layers,
    keeper: &mut K,
    number: u64,
    bytes: &[u8],
) -> Result<Sequence<Out>, AllocError>
    requires ready { IsReady 3 layers.old.core }
    ensures heard { (n : ℕ) → IfOk result (λ outs. MayBe n layers.new.core → sent_of exports.now (Some Kind.Smb) (with_smb layers.old.front (smb_step n exports.now (nfs_opens layers.old.front) layers.old.front.smb layers.old.core number bytes.now)) ≡ (outs, layers.new.front, layers.new.core)) }
    ensures leaves { OnOk result (Leaves 3 layers.old.core layers.new.core) }
    ensures keeper { OnOk result (HandsTo K.held K.given K.faults K.left layers.old.core layers.new.core keeper.old keeper.new) }
{
    let others = layers.front.nfs_opens();
    let (reply, effects) = smb_step(
        alloc,
        exports,
        &mut layers.front.smb,
        &mut layers.core,
        keeper,
        &Packet {
            conn: number,
            bytes,
        },
        others,
    )?;
    let outs = sent_with(alloc, exports, Kind::Smb, layers, reply, effects)?;
    Ok(outs)
}

/// What a message of SMB sends.
#[tactic(auto, using(crate::proofs::HearLaws::ready_part, crate::proofs::HearLaws::leaves_part))]
fn hear_packet<K: Keeper>(
    alloc: Global,
    exports: &Exports,
    layers: &mut Layers,
    keeper: &mut K,
    number: u64,
    bytes: &[u8],
) -> Result<Sequence<Out>, AllocError>
    requires ready { IsReady most_numbers layers.old.core }
    ensures heard { (n : ℕ) → IfOk result (λ outs. MayBe n layers.new.core → sent_of exports.now (Some Kind.Smb) (with_smb layers.old.front (smb_step n exports.now (nfs_opens layers.old.front) layers.old.front.smb layers.old.core number bytes.now)) ≡ (outs, layers.new.front, layers.new.core)) }
    ensures leaves { OnOk result (Leaves most_numbers layers.old.core layers.new.core) }
    ensures keeper { OnOk result (HandsTo K.held K.given K.faults K.left layers.old.core layers.new.core keeper.old keeper.new) }
{
    hear_part(alloc, exports, layers, keeper, number, bytes)
}

/// What a message from a connection of this kind sends.
#[tactic(auto, using(xl_front_nlm::proofs::LeaveLaws::leaves_self))]
fn hear<K: Keeper>(
    alloc: Global,
    exports: &Exports,
    layers: &mut Layers,
    keeper: &mut K,
    kind: Option<Kind>,
    number: u64,
    bytes: &[u8],
) -> Result<Sequence<Out>, AllocError>
    requires ready { IsReady most_numbers layers.old.core }
    ensures heard { (n : ℕ) → IfOk result (λ outs. MayBe n layers.new.core → sent_of exports.now kind (message_own n exports.now layers.old.front layers.old.core kind number bytes.now).given ≡ (outs, layers.new.front, layers.new.core)) }
    ensures leaves { OnOk result (Leaves most_numbers layers.old.core layers.new.core) }
    ensures keeper { OnOk result (HandsTo K.held K.given K.faults K.left layers.old.core layers.new.core keeper.old keeper.new) }
{
    let Some(kind) = kind else {
        return Ok(Sequence::new(alloc));
    };
    match kind {
        Kind::Rpc => hear_record(alloc, exports, layers, keeper, number, bytes),
        Kind::Smb => hear_packet(alloc, exports, layers, keeper, number, bytes),
    }
}

/// A connection of this kind opens at this place: SMB's front keeps its own, if there is room.
fn begin(
    front: &mut Fronts,
    connections: &[Connection],
    place: u64,
    kind: Kind,
) -> Result<(), AllocError>
    ensures { OnOk result (front.new ≡ begun front.old connections.now place kind) }
{
    if has_room(connections) {
        match kind {
            Kind::Rpc => {}
            Kind::Smb => smb_begin(&mut front.smb, place)?,
        }
    }
    Ok(())
}

/// What the end of an SMB connection sends.
fn hear_last(
    alloc: Global,
    exports: &Exports,
    layers: &mut Layers,
    number: u64,
) -> Result<Sequence<Out>, AllocError>
    requires ready { IsReady most_numbers layers.old.core }
    ensures heard { IfOk result (λ outs. sent_of exports.now None (end_own layers.old.front layers.old.core (Some Kind.Smb) number).given ≡ (outs, layers.new.front, layers.new.core)) }
    ensures leaves { OnOk result (Leaves most_numbers layers.old.core layers.new.core) }
    ensures quiet { OnOk result (IsQuiet layers.old.core layers.new.core) }
{
    let effects = smb_end(alloc, &mut layers.front.smb, &mut layers.core, number)?;
    let outs = sent_for(alloc, exports, layers, effects)?;
    Ok(outs)
}

/// What the end of a connection of this kind sends.
#[tactic(auto, using(xl_front_nlm::proofs::LeaveLaws::leaves_self))]
fn hear_end(
    alloc: Global,
    exports: &Exports,
    layers: &mut Layers,
    kind: Option<Kind>,
    number: u64,
) -> Result<Sequence<Out>, AllocError>
    requires ready { IsReady most_numbers layers.old.core }
    ensures heard { IfOk result (λ outs. sent_of exports.now None (end_own layers.old.front layers.old.core kind number).given ≡ (outs, layers.new.front, layers.new.core)) }
    ensures leaves { OnOk result (Leaves most_numbers layers.old.core layers.new.core) }
    ensures quiet { OnOk result (IsQuiet layers.old.core layers.new.core) }
{
    match kind {
        Some(Kind::Smb) => hear_last(alloc, exports, layers, number),
        Some(Kind::Rpc) => Ok(Sequence::new(alloc)),
        None => Ok(Sequence::new(alloc)),
    }
}

/// The bytes of a reply, if there is one.
fn bytes_of(reply: &Option<Sequence<u8>>) -> Option<&[u8]>
    ensures { option_map (λ bytes. bytes.now) result ≡ reply.now }
{
    match reply {
        Some(bytes) => Some(bytes.as_slice()),
        None => None,
    }
}

/// What the end of a call of the server's sends.
fn hear_answer<K: Keeper>(
    alloc: Global,
    exports: &Exports,
    layers: &mut Layers,
    keeper: &mut K,
    call: u64,
    reply: &Option<Sequence<u8>>,
) -> Result<Sequence<Out>, AllocError>
    requires ready { IsReady most_numbers layers.old.core }
    ensures heard { (n : ℕ) → IfOk result (λ outs. MayBe n layers.new.core → sent_of exports.now None (after_call layers.old.front (nlm_called n layers.old.front.nlm layers.old.core call reply.now)) ≡ (outs, layers.new.front, layers.new.core)) }
    ensures leaves { OnOk result (Leaves most_numbers layers.old.core layers.new.core) }
    ensures keeper { OnOk result (HandsTo K.held K.given K.faults K.left layers.old.core layers.new.core keeper.old keeper.new) }
{
    let effects = nlm_called(
        alloc,
        NlmLayers {
            front: &mut layers.front.nlm,
            core: &mut layers.core,
        },
        keeper,
        call,
        bytes_of(reply),
    )?;
    let outs = sent_for(alloc, exports, layers, effects)?;
    Ok(outs)
}

/// What a reading of the clock sends.
fn hear_tick<K: Keeper>(
    alloc: Global,
    exports: &Exports,
    layers: &mut Layers,
    keeper: &mut K,
    now: Moment,
) -> Result<Sequence<Out>, AllocError>
    requires ready { IsReady most_numbers layers.old.core }
    ensures heard { (n : ℕ) → IfOk result (λ outs. MayBe n layers.new.core → sent_of exports.now None (after_tick layers.old.front (tick n layers.old.core now)) ≡ (outs, layers.new.front, layers.new.core)) }
    ensures leaves { OnOk result (Leaves most_numbers layers.old.core layers.new.core) }
    ensures keeper { OnOk result (HandsTo K.held K.given K.faults K.left layers.old.core layers.new.core keeper.old keeper.new) }
{
    let effects = layers.core.tick(alloc, keeper, now)?;
    nfs_tick(&mut layers.front.nfs, layers.core.clock());
    let outs = sent_for(alloc, exports, layers, effects)?;
    Ok(outs)
}

/// What an event sends before the table is settled; the step begins with it.
#[tactic(auto, unfolding(crate::specs::Machine::heard), using(crate::proofs::HearLaws::leaves_begun))]
fn hear_event<K: Keeper>(
    alloc: Global,
    exports: &Exports,
    machine: &mut Machine,
    keeper: &mut K,
    event: &Event,
) -> Result<Sequence<Out>, AllocError>
    requires ready { IsReady most_numbers machine.old.layers.core }
    ensures heard { (n : ℕ) → IfOk result (λ outs. MayBe n machine.new.layers.core → heard n (as_found (whole_of exports.now machine.old)) event.now ≡ (outs, machine.new.layers.front, machine.new.layers.core)) }
    ensures leaves { OnOk result (Leaves most_numbers (step_begun machine.old.layers.core) machine.new.layers.core) }
    ensures place { machine.new.place ≡ machine.old.place }
    ensures connections { machine.new.connections.items ≡ machine.old.connections.items }
    ensures paused { machine.new.paused ≡ machine.old.paused }
    ensures keeper { OnOk result (HandsTo K.held K.given K.faults K.left (step_begun machine.old.layers.core) machine.new.layers.core keeper.old keeper.new) }
{
    machine.layers.core.begin_step();
    match event {
        Event::Open(kind) => {
            begin(
                &mut machine.layers.front,
                &machine.connections,
                machine.place,
                *kind,
            )?;
            Ok(Sequence::new(alloc))
        }
        Event::Message(number, bytes) => {
            let kind = kind_of(&machine.connections, *number);
            hear(
                alloc,
                exports,
                &mut machine.layers,
                keeper,
                kind,
                *number,
                bytes.as_slice(),
            )
        }
        Event::End(number) => {
            let kind = kind_of(&machine.connections, *number);
            hear_end(alloc, exports, &mut machine.layers, kind, *number)
        }
        Event::Called(call, reply) => {
            hear_answer(alloc, exports, &mut machine.layers, keeper, *call, reply)
        }
        Event::Tick(now) => hear_tick(alloc, exports, &mut machine.layers, keeper, *now),
        Event::Restart => Ok(Sequence::new(alloc)),
    }
}

/// What a step sends, and how many stores of the record it made.
#[derive(Drop)]
pub(crate) struct Acted {
    pub outs: Sequence<Out>,
    pub stores: u64,
}

/// A frame that an event brings goes on.
fn open_frame(alloc: Global, paused: Sequence<Paused>, event: &Event) -> Result<Going, AllocError>
    ensures { IfOk result (λ g. g ≡ frame_in paused event.now) }
{
    let mut stack = Sequence::new(alloc);
    if let Event::Message(number, bytes) = event {
        stack.push(xl_smb_frames::open(alloc, *number, bytes.as_slice())?)?;
    }
    Ok(Going {
        paused,
        stack,
        outs: Sequence::new(alloc),
    })
}

/// What stands behind requests that wait is taken out of the machine for a step.
fn take_paused(alloc: Global, machine: &mut Machine) -> Sequence<Paused>
    ensures taken { result ≡ machine.old.paused }
    ensures rest { machine.new ≡ record machine.old { paused = [] } }
{
    std::mem::replace(&mut machine.paused, Sequence::new(alloc))
}

/// The frames that go on after an event was heard, or that it brings. The step begins with it.
#[tactic(auto, unfolding(crate::specs::Machine::frames_begun), using(crate::proofs::HearLaws::leaves_begun))]
fn begin_frames<K: Keeper>(
    alloc: Global,
    exports: &Exports,
    machine: &mut Machine,
    keeper: &mut K,
    event: &Event,
) -> Result<Going, AllocError>
    requires ready { IsReady most_numbers machine.old.layers.core }
    ensures begun { (n : ℕ) → IfOk result (λ g. MayBe n machine.new.layers.core → frames_begun n (as_found (whole_of exports.now machine.old)) event.now ≡ (g, machine.new.layers.front, machine.new.layers.core)) }
    ensures leaves { OnOk result (Leaves most_numbers (step_begun machine.old.layers.core) machine.new.layers.core) }
    ensures owed { IfOk result (λ g. numbers_of machine.new.layers.core + 3 * steps_left g ≤ numbers_of machine.old.layers.core + 3 * paused_left machine.old.paused + most_numbers) }
    ensures place { machine.new.place ≡ machine.old.place }
    ensures connections { machine.new.connections.items ≡ machine.old.connections.items }
    ensures keeper { OnOk result (HandsTo K.held K.given K.faults K.left (step_begun machine.old.layers.core) machine.new.layers.core keeper.old keeper.new) }
{
    if brings_frame(&machine.connections, event) {
        machine.layers.core.begin_step();
        let paused = take_paused(alloc, machine);
        return Ok(open_frame(alloc, paused, event)?);
    }
    let heard = hear_event(alloc, exports, machine, keeper, event)?;
    let paused = end_paused(take_paused(alloc, machine), event);
    let going = put_cancelled(alloc, paused, heard)?;
    settle_frames(alloc, exports, &mut machine.layers, keeper, going)
}

/// The frames go on, to their ends.
fn run_frames<K: Keeper>(
    alloc: Global,
    exports: &Exports,
    machine: &mut Machine,
    keeper: &mut K,
    going: Going,
) -> Result<Going, AllocError>
    requires ready { IsReady (3 * steps_left going) machine.old.layers.core }
    ensures run { (n : ℕ) → IfOk result (λ g. MayBe n machine.new.layers.core → run n (exports.now, machine.old.connections.items) (going, machine.old.layers.front, machine.old.layers.core) ≡ (g, machine.new.layers.front, machine.new.layers.core)) }
    ensures leaves { OnOk result (Leaves (3 * steps_left going) machine.old.layers.core machine.new.layers.core) }
    ensures owed { IfOk result (λ g. numbers_of machine.new.layers.core + 3 * paused_left g.paused ≤ numbers_of machine.old.layers.core + 3 * steps_left going) }
    ensures place { machine.new.place ≡ machine.old.place }
    ensures connections { machine.new.connections.items ≡ machine.old.connections.items }
    ensures keeper { OnOk result (HandsTo K.held K.given K.faults K.left machine.old.layers.core machine.new.layers.core keeper.old keeper.new) }
{
    let ground = Ground {
        exports,
        connections: &machine.connections,
    };
    run(alloc, &ground, &mut machine.layers, keeper, going)
}

/// What an event gives where no frame goes on, and it brings none.
fn hear_plain<K: Keeper>(
    alloc: Global,
    exports: &Exports,
    machine: &mut Machine,
    keeper: &mut K,
    event: &Event,
) -> Result<Going, AllocError>
    requires ready { IsReady most_numbers machine.old.layers.core }
    ensures gone { (n : ℕ) → IfOk result (λ g. MayBe n machine.new.layers.core → gone_by n (as_found (whole_of exports.now machine.old)) event.now true ≡ (g, machine.new.layers.front, machine.new.layers.core)) }
    ensures paused { IfOk result (λ g. g.paused ≡ machine.old.paused) }
    ensures leaves { OnOk result (Leaves most_numbers (step_begun machine.old.layers.core) machine.new.layers.core) }
    ensures place { machine.new.place ≡ machine.old.place }
    ensures connections { machine.new.connections.items ≡ machine.old.connections.items }
    ensures keeper { OnOk result (HandsTo K.held K.given K.faults K.left (step_begun machine.old.layers.core) machine.new.layers.core keeper.old keeper.new) }
{
    let mut outs = hear_event(alloc, exports, machine, keeper, event)?;
    settle(alloc, exports, &mut machine.layers, keeper, &mut outs)?;
    Ok(Going {
        paused: take_paused(alloc, machine),
        stack: Sequence::new(alloc),
        outs,
    })
}

/// What an event gives where frames go on, or it brings one.
fn hear_in_frames<K: Keeper>(
    alloc: Global,
    exports: &Exports,
    machine: &mut Machine,
    keeper: &mut K,
    event: &Event,
) -> Result<Going, AllocError>
    requires ready { IsReady (most_numbers + 3 * paused_left machine.old.paused) machine.old.layers.core }
    ensures gone { (n : ℕ) → IfOk result (λ g. MayBe n machine.new.layers.core → heard_in n (as_found (whole_of exports.now machine.old)) event.now ≡ (g, machine.new.layers.front, machine.new.layers.core)) }
    ensures leaves { IfOk result (λ g. LeavesOwed (paused_left machine.old.paused) (paused_left g.paused) (step_begun machine.old.layers.core) machine.new.layers.core) }
    ensures place { machine.new.place ≡ machine.old.place }
    ensures connections { machine.new.connections.items ≡ machine.old.connections.items }
    ensures keeper { OnOk result (HandsTo K.held K.given K.faults K.left (step_begun machine.old.layers.core) machine.new.layers.core keeper.old keeper.new) }
{
    let going = begin_frames(alloc, exports, machine, keeper, event)?;
    run_frames(alloc, exports, machine, keeper, going)
}

/// What an event gives, once the table is settled and all frames are at their ends.
#[tactic(auto, unfolding(crate::specs::Machine::gone))]
fn hear_all<K: Keeper>(
    alloc: Global,
    exports: &Exports,
    machine: &mut Machine,
    keeper: &mut K,
    event: &Event,
) -> Result<Going, AllocError>
    requires ready { IsReady (most_numbers + 3 * paused_left machine.old.paused) machine.old.layers.core }
    ensures gone { (n : ℕ) → IfOk result (λ g. MayBe n machine.new.layers.core → gone n (as_found (whole_of exports.now machine.old)) event.now ≡ (g, machine.new.layers.front, machine.new.layers.core)) }
    ensures leaves { IfOk result (λ g. LeavesOwed (paused_left machine.old.paused) (paused_left g.paused) (step_begun machine.old.layers.core) machine.new.layers.core) }
    ensures place { machine.new.place ≡ machine.old.place }
    ensures connections { machine.new.connections.items ≡ machine.old.connections.items }
    ensures keeper { OnOk result (HandsTo K.held K.given K.faults K.left (step_begun machine.old.layers.core) machine.new.layers.core keeper.old keeper.new) }
{
    if machine.paused.is_empty() && !brings_frame(&machine.connections, event) {
        hear_plain(alloc, exports, machine, keeper, event)
    } else {
        hear_in_frames(alloc, exports, machine, keeper, event)
    }
}

/// One event: changes the machine, and gives what it sends and how many stores it made. It ends settled.
pub(crate) fn act<K: Keeper>(
    alloc: Global,
    exports: &Exports,
    machine: &mut Machine,
    keeper: &mut K,
    event: &Event,
) -> Result<Acted, AllocError>
    requires place { machine.old.place < 2 ^ 63 }
    requires ready { IsReady (most_numbers + 3 * paused_left machine.old.paused) machine.old.layers.core }
    requires goes_on { is_restart event.now ≡ false }
    requires free { IsFree (whole_of exports.now machine.old) }
    requires holds { Holds (K.held keeper.old) machine.old.layers.core.stable }
    ensures step { IfOk result (λ a. Gives (step a.stores (whole_of exports.now machine.old) event.now) (whole_of exports.now machine.new) a.stores a.outs) }
    ensures allowed { (n : ℕ) → K.left keeper.old ≡ Some n → IfOk result (λ a. Gives (step n (whole_of exports.now machine.old) event.now) (whole_of exports.now machine.new) a.stores a.outs) }
    ensures keeper { IfOk result (λ a. HasKept (step a.stores (whole_of exports.now machine.old) event.now) (telling K.held K.given K.faults K.left keeper.old) (telling K.held K.given K.faults K.left keeper.new)) }
    ensures short { OnOk result (AreShort machine.new.layers.core.names) }
    ensures numbers { OnOk result (numbers_of machine.new.layers.core + 3 * paused_left machine.new.paused ≤ numbers_of machine.old.layers.core + 3 * paused_left machine.old.paused + most_numbers) }
{
    let Going {
        paused,
        stack: _,
        outs,
    } = hear_all(alloc, exports, machine, keeper, event)?;
    machine.paused = paused;
    connect(&mut machine.connections, machine.place, event)?;
    let stores = machine.layers.core.made();
    machine.layers.core.begin_step();
    machine.place += 1;
    Ok(Acted { outs, stores })
}
