//! What `serve` has of the system: two ports, lanes at them, two callers, and the record file.
ghost use Rattle.std.specs.Prelude.{◌≡◌, ◌*◌, ◌≤◌, IfOk, IfSome, None, OnOk, vec_len};
ghost use Rattle.xl_adapters.specs.declared.caller.Reach.TheVariants.{All, Loopback};

use std::io;
use std::net::{Ipv4Addr, Net};
use std::rt::{Clock, Files};
use xl_adapters::{FileKeeper, Port, Reach, SteadyClock, TcpCaller, TcpLane};
use xl_base::Kind;
use xl_top::{Outside, Serving, record_path};

/// The address that is listened at.
fn address_of(serving: Serving) -> Ipv4Addr {
    match serving.address {
        Some((a, b, c, d)) => Ipv4Addr::new(a, b, c, d),
        None => Ipv4Addr::LOCALHOST,
    }
}

/// Which clients are called (SERVE-3).
fn reach_of(serving: Serving) -> Reach
    ensures near { serving.address ≡ None → result ≡ Loopback }
    ensures far { IfSome serving.address (λ _. result ≡ All) }
{
    match serving.address {
        Some(_) => Reach::All,
        None => Reach::Loopback,
    }
}

/// Adds lanes at a port until there are so many.
fn add_lanes(
    rt: &(impl Net + AllocGlobal),
    lanes: &mut Vec<TcpLane>,
    port: Option<&Port>,
    kind: Kind,
    most: usize,
) -> io::Result<()>
    requires { vec_len lanes.old ≤ most }
    ensures { OnOk result (vec_len lanes.new ≡ most) }
{
    'lanes: while lanes.len() < most {
        lanes.push(TcpLane::new(rt.alloc(), rt, port, kind)?)?;
    }
    Ok(())
}

/// Opens a port, and says so on standard error if it can't be opened.
fn open(rt: &(impl Net + Eprint), serving: Serving, port: u16) -> Option<Port> {
    match Port::open(rt, address_of(serving), port) {
        Ok(port) => Some(port),
        Err(_) => {
            let _ = eprintln!(rt; "xlockd: port {port} can't be opened");
            None
        }
    }
}

/// The lanes of both kinds.
fn lanes_of(rt: &(impl Net + Eprint + AllocGlobal), serving: Serving) -> io::Result<Vec<TcpLane>>
    requires { serving.lanes ≤ 16 }
    ensures { IfOk result (λ lanes. vec_len lanes ≡ 2 * serving.lanes) }
{
    let rpc = open(rt, serving, serving.rpc);
    let smb = open(rt, serving, serving.smb);
    let count = serving.lanes as usize;
    let mut lanes = Vec::new(rt.alloc());
    add_lanes(rt, &mut lanes, rpc.as_ref(), Kind::Rpc, count)?;
    add_lanes(rt, &mut lanes, smb.as_ref(), Kind::Smb, 2 * count)?;
    if rpc.is_some() && smb.is_some() {
        let (address, rpc, smb) = (address_of(serving), serving.rpc, serving.smb);
        let _ = eprintln!(rt; "xlockd: serving rpc at {address}:{rpc} and smb at {address}:{smb}");
    }
    Ok(lanes)
}

/// The two that make the machine's calls.
fn callers_of<R: Net + AllocGlobal + Copy + Drop>(
    rt: R,
    serving: Serving,
) -> io::Result<Vec<TcpCaller<R>>>
    ensures { IfOk result (λ callers. vec_len callers ≡ 2) }
{
    let first = TcpCaller::new(rt.alloc(), rt, reach_of(serving))?;
    let second = TcpCaller::new(rt.alloc(), rt, reach_of(serving))?;
    let mut callers = Vec::with_capacity(rt.alloc(), 2)?;
    callers.push_reserved(first);
    callers.push_reserved(second);
    Ok(callers)
}

/// What a machine that is served by these words has of the system.
pub(crate) type System<R> = Outside<FileKeeper<R>, TcpLane, TcpCaller<R>, SteadyClock<R>>;

/// What a machine that is served by these words has of the system. None comes if the system has no socket or no memory left.
pub(crate) fn system<R: Net + Files + Clock + Eprint + AllocGlobal + Copy + Drop>(
    rt: R,
    words: &[String],
    serving: Serving,
) -> Option<System<R>>
    requires { serving.lanes ≤ 16 }
    ensures counts { IfSome result (λ o. (vec_len o.lanes ≡ 2 * serving.lanes) × (vec_len o.callers ≡ 2)) }
    ensures few { IfSome result (λ o. (vec_len o.lanes ≤ 64) × (vec_len o.callers ≤ 64)) }
{
    let alloc = rt.alloc();
    let path = record_path(alloc, words)?;
    let keeper = FileKeeper::new(alloc, rt, path.as_str()).ok()?;
    let lanes = lanes_of(&rt, serving).ok()?;
    let callers = callers_of(rt, serving).ok()?;
    Some(Outside {
        keeper,
        lanes,
        callers,
        clock: SteadyClock::new(rt),
    })
}
