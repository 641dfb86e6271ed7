//! What is sent to the links that lanes left open, after all joins.
ghost use Rattle.std.specs.Prelude.{◌≡◌, Bool, vec_len, vec_capacity};
ghost use Rattle.xl_desk.specs.Passes.{IsLawful, IsLooked};
ghost use Rattle.xl_work.specs.Crews.{tells_lane};
ghost use Rattle.xl_work.specs.Rests.{AreRested, ArePlaced, IsRested};
ghost use Rattle.xl_work.specs.Lives.{HasPlace};

use crate::lane::is_failed;
use crate::worker::LaneDone;
use std::alloc::Global;
use std::sync::Wait;
use xl_base::{Lane, LaneEnd, Serial};
use xl_desk::{Desk, Pass};

/// Sends the link that a lane left open the rest of what the machine sends to it. If memory runs out the lane ends so.
#[tactic(auto, using(crate::proofs::LifeLaws::in_time_of))]
fn send_rest<H: Serial, L: Lane, R: Wait>(
    rt: &R,
    alloc: Global,
    desk: &Desk<H>,
    pass: &mut Pass<H>,
    done: &mut LaneDone<L>,
)
    requires desk { pass.old.desk ≡ desk.now }
    requires place { HasPlace pass.old.view done.old.live }
    ensures desk { pass.new.desk ≡ pass.old.desk }
    ensures looked { IsLooked pass.old.view pass.new.view }
    ensures lawful { IsLawful H.first H.lawful pass.new.view }
    ensures rested { (open_gate : Bool) → IsRested (tells_lane L.told L.asked L.lost L.faults L.ended) open_gate pass.old.view pass.new.view done.old done.new }
{
    let Some(live) = &mut done.live else {
        desk.see(pass);
        return;
    };
    if live.failed {
        desk.see(pass);
        return;
    }
    let looked = desk.look(rt, alloc, pass, live.conn.number, live.from);
    let Ok((bytes, end)) = looked else {
        done.end = LaneEnd::NoMemory;
        return;
    };
    live.from = end;
    let sent = bytes.as_slice();
    if sent.is_empty() {
        return;
    }
    live.failed = is_failed(done.lane.send(sent));
}

/// Sends each of the links that lanes left open the rest.
#[tactic(auto, using(crate::proofs::LifeLaws::in_time_of))]
pub(crate) fn send_rests<H: Serial, L: Lane, R: Wait>(
    rt: &R,
    alloc: Global,
    desk: &Desk<H>,
    pass: &mut Pass<H>,
    mut lanes: Vec<LaneDone<L>>,
) -> Vec<LaneDone<L>>
    requires desk { pass.old.desk ≡ desk.now }
    requires places { ArePlaced pass.old.view lanes.items }
    requires lawful { IsLawful H.first H.lawful pass.old.view }
    ensures desk { pass.new.desk ≡ pass.old.desk }
    ensures looked { IsLooked pass.old.view pass.new.view }
    ensures lawful { IsLawful H.first H.lawful pass.new.view }
    ensures room { (vec_len result ≡ vec_len lanes) × (vec_capacity result ≡ vec_capacity lanes) }
    ensures rested { (open_gate : Bool) → AreRested (tells_lane L.told L.asked L.lost L.faults L.ended) open_gate pass.old.view pass.new.view lanes.items result.items }
{
    let Some(mut last) = lanes.pop() else {
        return lanes;
    };
    let mut done = send_rests(rt, alloc, desk, pass, lanes);
    send_rest(rt, alloc, desk, pass, &mut last);
    done.push_reserved(last);
    done
}
