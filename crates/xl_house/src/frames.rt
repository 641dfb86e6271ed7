//! Frames of several SMB messages: their parts are done one after the other, and the table is settled after each.
ghost use Rattle.std.specs.Prelude.{◌≡◌, ℕ, ◌+◌, ◌*◌, ◌≤◌, ◌∷◌, ◌++◌, map, option_copied, filter, find, not, false, true, [], OnOk, IfOk};
ghost use Rattle.xl_base.specs.declared.event.Kind.TheVariants as kinds;
ghost use Rattle.xl_core.specs.Good.{IsSettled};
ghost use Rattle.xl_core.specs.Numbers.{numbers_of};
ghost use Rattle.xl_core.specs.State.{MayBe};
ghost use Rattle.xl_front_nlm.specs.Short.{IsReady, Leaves};
ghost use Rattle.xl_plan.specs.Keepers.{HandsTo};
ghost use Rattle.xl_smb_frames.specs.Answers.{answered};
ghost use Rattle.xl_smb_frames.specs.Frames.{frame_sent};
ghost use Rattle.xl_smb_frames.specs.Steps.{next_step};
ghost use Rattle.xl_house.specs.Machine.{sorted_in, settled_in, part_heard, part_in, part_done, gone_on, gone_further, run, cancelled_in, paused_after};
ghost use Rattle.xl_house.specs.Sifting.{is_smb, brings_frame, message_in, goes_to, is_id, is_final, behind_woken, sent_by, sift_one, sifted, on_top, popped, last_apart, message_or_none, listed, stack_left, paused_left};
ghost use Rattle.xl_house.specs.State.{kind_of};
ghost use Rattle.xl_house.specs.Telling.{framed};
ghost use Rattle.xl_house.specs.Whole.{ground_of};

use crate::connections::{Connection, kind_of};
use crate::layers::Layers;
use crate::machine::hear_part;
use crate::outs::send_all;
use crate::settling::settle;
use std::alloc::{AllocError, Global};
use xl_base::{Dest, Event, Exports, Keeper, Kind, Out, Sequence};
use xl_smb_frames::{Frame, Paused, Step, answer, async_id, frame_sent, is_alone, next_step, wake};

/// Whether it is that of an SMB connection.
fn is_smb(kind: Option<Kind>) -> bool
    ensures { result ≡ is_smb kind }
{
    match kind {
        Some(Kind::Smb) => true,
        Some(Kind::Rpc) => false,
        None => false,
    }
}

/// Whether an event brings a frame of several messages, or one that is related, by an SMB connection.
pub(crate) fn brings_frame(connections: &[Connection], event: &Event) -> bool
    ensures { result ≡ brings_frame connections.now event.now }
{
    match event {
        Event::Message(number, bytes) => {
            is_smb(kind_of(connections, *number)) && !is_alone(bytes.as_slice())
        }
        _ => false,
    }
}

// ---- final replies

/// The message that an out carries in its frame.
#[tactic(auto, using(crate::proofs::SiftingLaws::short_drop))]
fn message_in(out: &Out) -> &[u8]
    ensures { result.now ≡ message_in out.now }
{
    let bytes = out.bytes.as_slice();
    if bytes.len() < 4 {
        &[]
    } else {
        bytes.split_at(4).1
    }
}

/// Whether an out for this goes to this connection.
fn goes_to(conn: u64, dest: Dest) -> bool
    ensures { result ≡ goes_to conn dest }
{
    match dest {
        Dest::Conn(number) => number == conn,
        Dest::Back(_) => false,
    }
}

/// Whether this AsyncId is that of this request.
fn is_id(waiter: u64, id: Option<u64>) -> bool
    ensures { result ≡ is_id waiter id }
{
    match id {
        Some(id) => id == waiter,
        None => false,
    }
}

/// Whether an out is the final reply to the request of this.
fn is_final(out: &Out, paused: &Paused) -> bool
    ensures { result ≡ is_final out.now paused.now }
{
    goes_to(paused.conn, out.dest) && is_id(paused.waiter, async_id(message_in(out)))
}

/// What stands behind the request of which this is the final reply.
fn find_paused<'a>(paused: &'a [Paused], out: &Out) -> Option<&'a Paused>
    ensures { option_copied result ≡ find (is_final out.now) paused.now }
{
    paused.iter().find(|p| is_final(out, p))
}

/// Takes out what stands behind the request of which this is the final reply.
fn drop_paused(paused: &mut Vec<Paused>, out: &Out)
    ensures { paused.new.items ≡ filter (λ p. not (is_final out.now p)) paused.old.items }
{
    paused.retain(|p| !is_final(out, p));
}

/// What is sent aside from the final replies of frames, the frames that go on with these, and what stands behind the others
/// that wait.
#[derive(Drop)]
pub(crate) struct Sifted {
    /// What is sent.
    pub outs: Sequence<Out>,
    /// The frames that go on, in order.
    pub woken: Sequence<Frame>,
    /// What stands behind requests that wait.
    pub paused: Sequence<Paused>,
}

/// The frames except for the last, and the last, if there is one.
fn take_frame(woken: Sequence<Frame>) -> (Sequence<Frame>, Option<Frame>)
    ensures { result ≡ last_apart woken }
{
    let mut woken = woken.into_vec();
    let last = woken.pop();
    (Sequence::from_vec(woken), last)
}

/// A frame behind which this is sent too.
fn add_after(frame: Frame, out: Out) -> Result<Frame, AllocError>
    ensures { IfOk result (λ f. f ≡ record frame { after = frame.after ++ out ∷ [] }) }
{
    let Frame {
        conn,
        before,
        rest,
        left,
        replies,
        after,
    } = frame;
    let mut after = after;
    after.push(out)?;
    Ok(Frame {
        conn,
        before,
        rest,
        left,
        replies,
        after,
    })
}

/// What is sent in a row with final replies comes right behind the last frame that goes on with one before it.
fn send_behind(sifted: Sifted, out: Out) -> Result<Sifted, AllocError>
    ensures { IfOk result (λ w. w ≡ behind_woken sifted out) }
{
    let Sifted {
        outs,
        woken,
        paused,
    } = sifted;
    let (mut outs, (woken, last)) = (outs, take_frame(woken));
    let mut woken = woken;
    match last {
        Some(frame) => woken.push(add_after(frame, out)?)?,
        None => outs.push(out)?,
    }
    Ok(Sifted {
        outs,
        woken,
        paused,
    })
}

/// This is sent behind the others.
fn send_out(sifted: Sifted, out: Out) -> Result<Sifted, AllocError>
    ensures { IfOk result (λ w. w ≡ record sifted { outs = sifted.outs ++ out ∷ [] }) }
{
    let Sifted {
        outs,
        woken,
        paused,
    } = sifted;
    let mut outs = outs;
    outs.push(out)?;
    Ok(Sifted {
        outs,
        woken,
        paused,
    })
}

/// What is no final reply of a frame is sent; in a row with such it comes behind the frames that go on with those before it.
fn send(row: bool, sifted: Sifted, out: Out) -> Result<Sifted, AllocError>
    ensures { IfOk result (λ w. w ≡ sent_by row sifted out) }
{
    if row {
        send_behind(sifted, out)
    } else {
        send_out(sifted, out)
    }
}

/// A frame goes on with the final reply to the request that it waits for.
fn wake_with(alloc: Global, sifted: Sifted, frame: Frame, out: &Out) -> Result<Sifted, AllocError>
    ensures { IfOk result (λ w. w ≡ record sifted { woken = sifted.woken ++ frame ∷ []; paused = filter (λ p. not (is_final out.now p)) sifted.paused }) }
{
    let Sifted {
        outs,
        woken,
        paused,
    } = sifted;
    let (mut woken, mut paused) = (woken, paused.into_vec());
    woken.push(frame)?;
    drop_paused(&mut paused, out);
    Ok(Sifted {
        outs,
        woken,
        paused: Sequence::from_vec(paused),
    })
}

/// Sifts one more out.
#[tactic(auto, unfolding(crate::specs::Sifting::sift_one))]
fn sift_one(alloc: Global, row: bool, sifted: Sifted, out: Out) -> Result<Sifted, AllocError>
    ensures { IfOk result (λ w. w ≡ sift_one row sifted out) }
{
    match find_paused(sifted.paused.as_slice(), &out) {
        Some(behind) => {
            let frame = wake(alloc, behind, message_in(&out))?;
            Ok(wake_with(alloc, sifted, frame, &out)?)
        }
        None => Ok(send(row, sifted, out)?),
    }
}

/// Takes the final replies of frames out of what is sent; those to whom an event cancels are a row.
fn sift(
    alloc: Global,
    row: bool,
    paused: Sequence<Paused>,
    sent: Sequence<Out>,
) -> Result<Sifted, AllocError>
    ensures { IfOk result (λ w. w ≡ sifted row paused sent) }
{
    let mut sifted = Sifted {
        outs: Sequence::new(alloc),
        woken: Sequence::new(alloc),
        paused,
    };
    for out in sent.into_vec() {
        sifted = sift_one(alloc, row, sifted, out)?;
    }
    Ok(sifted)
}

// ---- frames that go on

/// What is exported, and the connections that are open.
#[derive(Clone, Copy)]
pub(crate) struct Ground<'a> {
    /// What is exported.
    pub exports: &'a Exports,
    /// The open connections.
    pub connections: &'a [Connection],
}

/// Frames that go on, the topmost first, with what stands behind requests that wait, and what was sent.
#[derive(Drop)]
pub(crate) struct Going {
    /// What stands behind requests that wait.
    pub paused: Sequence<Paused>,
    /// The frames that go on.
    pub stack: Sequence<Frame>,
    /// What was sent.
    pub outs: Sequence<Out>,
}

/// These frames and those below them.
fn above(woken: Sequence<Frame>, stack: Sequence<Frame>) -> Result<Sequence<Frame>, AllocError>
    ensures { IfOk result (λ all. all ≡ woken ++ stack) }
{
    let mut all = woken;
    for frame in stack.into_vec() {
        all.push(frame)?;
    }
    Ok(all)
}

/// A frame on top of others.
fn put(alloc: Global, frame: Frame, stack: Sequence<Frame>) -> Result<Sequence<Frame>, AllocError>
    ensures { IfOk result (λ all. all ≡ frame ∷ stack) }
{
    let mut all = Sequence::new(alloc);
    all.push(frame)?;
    above(all, stack)
}

/// These frames on top of others, the last of them topmost.
fn on_top(
    alloc: Global,
    woken: Sequence<Frame>,
    stack: Sequence<Frame>,
) -> Result<Sequence<Frame>, AllocError>
    ensures { IfOk result (λ all. all ≡ on_top woken stack) }
{
    let mut all = stack;
    for frame in woken.into_vec() {
        all = put(alloc, frame, all)?;
    }
    Ok(all)
}

/// The topmost frame, if there is one, and those below it.
fn pop(stack: Sequence<Frame>) -> (Option<Frame>, Sequence<Frame>)
    ensures { result ≡ popped stack }
{
    let mut frames = stack.into_vec();
    if frames.is_empty() {
        return (None, Sequence::from_vec(frames));
    }
    let top = frames.remove(0);
    (Some(top), Sequence::from_vec(frames))
}

/// These outs, and more behind them.
fn join_outs(outs: Sequence<Out>, more: Sequence<Out>) -> Result<Sequence<Out>, AllocError>
    ensures { IfOk result (λ all. all ≡ outs ++ more) }
{
    let mut all = outs;
    for out in more.into_vec() {
        all.push(out)?;
    }
    Ok(all)
}

/// The outs except for the last, and the last, if there is one.
fn take_last(outs: Sequence<Out>) -> (Sequence<Out>, Option<Out>)
    ensures { result ≡ last_apart outs }
{
    let mut outs = outs.into_vec();
    let last = outs.pop();
    (Sequence::from_vec(outs), last)
}

/// Settles the table; the frames of those who are served go on top of the others.
pub(crate) fn settle_frames<K: Keeper>(
    alloc: Global,
    exports: &Exports,
    layers: &mut Layers,
    keeper: &mut K,
    going: Going,
) -> Result<Going, AllocError>
    requires ready { IsReady 0 layers.old.core }
    ensures state { (n : ℕ) → IfOk result (λ g. MayBe n layers.new.core → settled_in n exports.now (going, layers.old.front, layers.old.core) ≡ (g, layers.new.front, layers.new.core)) }
    ensures leaves { OnOk result (Leaves 0 layers.old.core layers.new.core) }
    ensures settled { OnOk result (IsSettled layers.new.core) }
    ensures keeper { OnOk result (HandsTo K.held K.given K.faults K.left layers.old.core layers.new.core keeper.old keeper.new) }
{
    let mut sent = Sequence::new(alloc);
    settle(alloc, exports, layers, keeper, &mut sent)?;
    Ok(sort_in(alloc, going, sent)?)
}

/// What settling sends, sifted; the frames of those who are served go on top of the others.
fn sort_in(alloc: Global, going: Going, sent: Sequence<Out>) -> Result<Going, AllocError>
    ensures { IfOk result (λ g. g ≡ sorted_in going (sifted false going.paused sent)) }
{
    let Going {
        paused,
        stack,
        outs,
    } = going;
    let Sifted {
        outs: more,
        woken,
        paused,
    } = sift(alloc, false, paused, sent)?;
    Ok(Going {
        paused,
        stack: on_top(alloc, woken, stack)?,
        outs: join_outs(outs, more)?,
    })
}

/// A reply's message, or nothing.
fn message_or_none(own: &Option<Out>) -> &[u8]
    ensures { result.now ≡ message_or_none own.now }
{
    match own {
        Some(out) => message_in(out),
        None => &[],
    }
}

/// What stands behind a part that waits comes behind the others.
fn list(paused: Sequence<Paused>, more: Option<Paused>) -> Result<Sequence<Paused>, AllocError>
    ensures { IfOk result (λ all. all ≡ paused ++ listed more) }
{
    let mut all = paused;
    if let Some(behind) = more {
        all.push(behind)?;
    }
    Ok(all)
}

/// A part is answered: its own reply stands in its frame, and whom it cancelled go on before the frame does.
fn answer_in(
    alloc: Global,
    going: Going,
    frame: Frame,
    sent: Sequence<Out>,
    own: &Option<Out>,
) -> Result<Going, AllocError>
    ensures { IfOk result (λ g. g ≡ part_in going frame (sent, own.now)) }
{
    let Going {
        paused,
        stack,
        outs,
    } = going;
    let Sifted {
        outs: more,
        woken,
        paused,
    } = sift(alloc, true, paused, sent)?;
    let (frame, waits) = answer(alloc, frame, message_or_none(own))?;
    let stack = put(alloc, frame, stack)?;
    Ok(Going {
        paused: list(paused, waits)?,
        stack: above(woken, stack)?,
        outs: join_outs(outs, more)?,
    })
}

/// What a part of a connection of SMB sends, as this message alone.
#[tactic(auto, unfolding(crate::specs::Machine::heard))]
fn hear_message<K: Keeper>(
    alloc: Global,
    ground: &Ground<'_>,
    layers: &mut Layers,
    keeper: &mut K,
    conn: u64,
    message: &[u8],
) -> Result<Sequence<Out>, AllocError>
    requires ready { IsReady 3 layers.old.core }
    requires smb { is_smb (kind_of ground.now.connections.now conn) ≡ true }
    ensures heard { (n : ℕ) → IfOk result (λ outs. MayBe n layers.new.core → part_heard n (ground_of ground.now) layers.old.front layers.old.core conn message.now ≡ (outs, layers.new.front, layers.new.core)) }
    ensures leaves { OnOk result (Leaves 3 layers.old.core layers.new.core) }
    ensures keeper { OnOk result (HandsTo K.held K.given K.faults K.left layers.old.core layers.new.core keeper.old keeper.new) }
{
    hear_part(alloc, ground.exports, layers, keeper, conn, message)
}

/// Does a part of a connection of SMB as this message alone, and settles the table.
fn do_message<K: Keeper>(
    alloc: Global,
    ground: &Ground<'_>,
    layers: &mut Layers,
    keeper: &mut K,
    going: Going,
    frame: Frame,
    message: &[u8],
) -> Result<Going, AllocError>
    requires ready { IsReady 3 layers.old.core }
    requires smb { is_smb (kind_of ground.now.connections.now frame.conn) ≡ true }
    ensures state { (n : ℕ) → IfOk result (λ g. MayBe n layers.new.core → part_done n (ground_of ground.now) (going, layers.old.front, layers.old.core) frame message.now true ≡ (g, layers.new.front, layers.new.core)) }
    ensures leaves { OnOk result (Leaves 3 layers.old.core layers.new.core) }
    ensures keeper { OnOk result (HandsTo K.held K.given K.faults K.left layers.old.core layers.new.core keeper.old keeper.new) }
{
    let sent = hear_message(alloc, ground, layers, keeper, frame.conn, message)?;
    let (sent, own) = take_last(sent);
    let going = answer_in(alloc, going, frame, sent, &own)?;
    settle_frames(alloc, ground.exports, layers, keeper, going)
}

/// Does a part of a frame as this message alone; each comes by a connection of SMB.
#[tactic(auto, using(xl_front_nlm::proofs::LeaveLaws::leaves_self))]
fn do_part<K: Keeper>(
    alloc: Global,
    ground: &Ground<'_>,
    layers: &mut Layers,
    keeper: &mut K,
    going: Going,
    frame: Frame,
    message: &[u8],
) -> Result<Going, AllocError>
    requires ready { IsReady 3 layers.old.core }
    ensures state { (n : ℕ) → IfOk result (λ g. MayBe n layers.new.core → part_done n (ground_of ground.now) (going, layers.old.front, layers.old.core) frame message.now (is_smb (kind_of ground.now.connections.now frame.conn)) ≡ (g, layers.new.front, layers.new.core)) }
    ensures leaves { OnOk result (Leaves 3 layers.old.core layers.new.core) }
    ensures keeper { OnOk result (HandsTo K.held K.given K.faults K.left layers.old.core layers.new.core keeper.old keeper.new) }
{
    if is_smb(kind_of(ground.connections, frame.conn)) {
        do_message(alloc, ground, layers, keeper, going, frame, message)
    } else {
        Ok(answer_in(alloc, going, frame, Sequence::new(alloc), &None)?)
    }
}

/// The replies to a frame's parts are sent, and what comes right behind them.
fn send_frame(
    alloc: Global,
    going: Going,
    frame: &Frame,
    after: Sequence<Out>,
) -> Result<Going, AllocError>
    ensures { IfOk result (λ g. g ≡ record going { outs = going.outs ++ (map (framed kinds.Smb) (frame_sent frame.now) ++ after) }) }
{
    let Going {
        paused,
        stack,
        outs,
    } = going;
    let sent = frame_sent(alloc, frame)?;
    let mut more = Sequence::new(alloc);
    send_all(alloc, Kind::Smb, sent, &mut more)?;
    let more = join_outs(more, after)?;
    Ok(Going {
        paused,
        stack,
        outs: join_outs(outs, more)?,
    })
}

/// A frame ends: its replies are sent, and what comes right behind them.
#[tactic(auto, unfolding(xl_smb_frames::specs::Frames::frame_sent))]
fn end_frame(alloc: Global, going: Going, frame: Frame) -> Result<Going, AllocError>
    ensures { IfOk result (λ g. g ≡ record going { outs = going.outs ++ (map (framed kinds.Smb) (frame_sent frame) ++ frame.after) }) }
{
    let Frame {
        conn,
        before,
        rest,
        left,
        replies,
        after,
    } = frame;
    let ended = Frame {
        conn,
        before,
        rest,
        left,
        replies,
        after: Sequence::new(alloc),
    };
    send_frame(alloc, going, &ended, after)
}

/// A part that isn't done is answered so.
fn reply_in(alloc: Global, going: Going, frame: Frame, reply: &[u8]) -> Result<Going, AllocError>
    ensures { IfOk result (λ g. g ≡ record going { stack = (answered frame reply.now).0 ∷ going.stack }) }
{
    let Going {
        paused,
        stack,
        outs,
    } = going;
    let (frame, _) = answer(alloc, frame, reply)?;
    Ok(Going {
        paused,
        stack: put(alloc, frame, stack)?,
        outs,
    })
}

/// The topmost frame goes on by one step.
fn go_on<K: Keeper>(
    alloc: Global,
    ground: &Ground<'_>,
    layers: &mut Layers,
    keeper: &mut K,
    going: Going,
    frame: Frame,
) -> Result<Going, AllocError>
    requires ready { IsReady 3 layers.old.core }
    ensures state { (n : ℕ) → IfOk result (λ g. MayBe n layers.new.core → gone_on n (ground_of ground.now) (going, layers.old.front, layers.old.core) frame (next_step frame) ≡ (g, layers.new.front, layers.new.core)) }
    ensures leaves { OnOk result (Leaves 3 layers.old.core layers.new.core) }
    ensures keeper { OnOk result (HandsTo K.held K.given K.faults K.left layers.old.core layers.new.core keeper.old keeper.new) }
{
    match next_step(alloc, &frame)? {
        Step::Ends => Ok(end_frame(alloc, going, frame)?),
        Step::Replied(reply) => Ok(reply_in(alloc, going, frame, reply.as_slice())?),
        Step::Asked(message) => Ok(do_part(
            alloc,
            ground,
            layers,
            keeper,
            going,
            frame,
            message.as_slice(),
        )?),
    }
}

/// The topmost frame goes on, if there is one.
#[tactic(auto, unfolding(crate::specs::Machine::gone_further))]
fn advance<K: Keeper>(
    alloc: Global,
    ground: &Ground<'_>,
    layers: &mut Layers,
    keeper: &mut K,
    going: Going,
) -> Result<Going, AllocError>
    requires ready { IsReady 3 layers.old.core }
    ensures state { (n : ℕ) → IfOk result (λ g. MayBe n layers.new.core → gone_further n (ground_of ground.now) (going, layers.old.front, layers.old.core) ≡ (g, layers.new.front, layers.new.core)) }
    ensures leaves { OnOk result (Leaves 3 layers.old.core layers.new.core) }
    ensures keeper { OnOk result (HandsTo K.held K.given K.faults K.left layers.old.core layers.new.core keeper.old keeper.new) }
{
    let Going {
        paused,
        stack,
        outs,
    } = going;
    let (top, stack) = pop(stack);
    let going = Going {
        paused,
        stack,
        outs,
    };
    match top {
        Some(frame) => Ok(go_on(alloc, ground, layers, keeper, going, frame)?),
        None => Ok(going),
    }
}

/// All frames go on, to their ends; the topmost first.
pub(crate) fn run<K: Keeper>(
    alloc: Global,
    ground: &Ground<'_>,
    layers: &mut Layers,
    keeper: &mut K,
    going: Going,
) -> Result<Going, AllocError>
    requires ready { IsReady (3 * (stack_left going.stack + paused_left going.paused)) layers.old.core }
    ensures state { (n : ℕ) → IfOk result (λ g. MayBe n layers.new.core → run n (ground_of ground.now) (going, layers.old.front, layers.old.core) ≡ (g, layers.new.front, layers.new.core)) }
    ensures leaves { OnOk result (Leaves (3 * (stack_left going.stack + paused_left going.paused)) layers.old.core layers.new.core) }
    ensures owed { IfOk result (λ g. numbers_of layers.new.core + 3 * paused_left g.paused ≤ numbers_of layers.old.core + 3 * (stack_left going.stack + paused_left going.paused)) }
    ensures keeper { OnOk result (HandsTo K.held K.given K.faults K.left layers.old.core layers.new.core keeper.old keeper.new) }
{
    let mut going = going;
    'frames: while !going.stack.is_empty() {
        going = advance(alloc, ground, layers, keeper, going)?;
    }
    Ok(going)
}

/// What an event sent, sifted; whom it cancelled go on before its own reply is sent.
pub(crate) fn put_cancelled(
    alloc: Global,
    paused: Sequence<Paused>,
    heard: Sequence<Out>,
) -> Result<Going, AllocError>
    ensures { IfOk result (λ g. g ≡ cancelled_in (sifted true paused heard)) }
{
    let Sifted {
        outs,
        woken,
        paused,
    } = sift(alloc, true, paused, heard)?;
    Ok(Going {
        paused,
        stack: woken,
        outs,
    })
}

/// What stands behind requests that came by a connection goes with it.
pub(crate) fn end_paused(paused: Sequence<Paused>, event: &Event) -> Sequence<Paused>
    ensures { result ≡ paused_after paused event.now }
{
    match event {
        Event::End(number) => {
            let mut all = paused.into_vec();
            all.retain(|p| p.conn != *number);
            Sequence::from_vec(all)
        }
        _ => paused,
    }
}
