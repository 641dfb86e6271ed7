//! Each adapter with a socket of std as its peer, or a folder of its own.

use crate::{FileKeeper, Port, Reach, SteadyClock, TcpCaller, TcpLane};
use std::alloc::Global;
use std::fs;
use std::io::{Read, Write};
use std::net::{Ipv4Addr, Net, OpenListener, Shutdown, SocketAddr, TcpListener, TcpStream};
use std::test::Fail;
use std::thread::join;
use xl_base::{
    CallOutcome, Caller, Clock, Keeper, Kind, Lane, LoadOutcome, NextOutcome, ReceiveOutcome,
    Record, StoreOutcome, WriteOutcome,
};

/// A port that is free.
fn port(net: &impl Net) -> Result<Port, Fail> {
    Ok(Port::open(net, Ipv4Addr::LOCALHOST, 0)?)
}

/// Waits for a link a while; whether one came.
fn has_next(lane: &mut TcpLane) -> bool {
    for _ in 0..100u32 {
        match lane.next() {
            NextOutcome::Link(kind) => return kind == Kind::Rpc,
            NextOutcome::Quiet => {}
            _ => return false,
        }
    }
    false
}

/// The bytes that a link gives in some waits, up to so many.
fn take(lane: &mut TcpLane, alloc: Global, count: usize) -> Result<Vec<u8>, Fail> {
    let mut taken = Vec::new(alloc);
    let mut buffer = [0u8; 16];
    for _ in 0..100u32 {
        if let ReceiveOutcome::Got(count) = lane.recv(&mut buffer) {
            taken.extend_from_slice(&buffer[..count])?;
        }
        if taken.len() >= count {
            return Ok(taken);
        }
    }
    Ok(taken)
}

/// A lane takes what its peer sends and sends what it is given, and then says the peer's end.
#[test]
fn a_lane_serves_a_socket(rt: HostRuntime) -> Result<(), Fail> {
    let alloc = rt.alloc();
    let port = port(&rt)?;
    let mut lane = TcpLane::new(alloc, &rt, Some(&port), Kind::Rpc)?;
    assert!(rt; matches!(lane.next(), NextOutcome::Quiet));
    let mut peer = TcpStream::connect(&rt, port.address()?)?;
    assert!(rt; has_next(&mut lane));
    peer.write_all(b"hello")?;
    assert!(rt; take(&mut lane, alloc, 5)?.as_slice() == b"hello".as_slice());
    assert!(rt; matches!(lane.recv(&mut [0u8; 4]), ReceiveOutcome::Quiet));
    assert!(rt; matches!(lane.send(b"there"), WriteOutcome::Wrote));
    let mut buffer = [0u8; 5];
    peer.read_exact(&mut buffer)?;
    assert!(rt; buffer == *b"there");
    peer.shutdown(Shutdown::Write)?;
    assert!(rt; matches!(lane.recv(&mut [0u8; 4]), ReceiveOutcome::End));
    lane.shut();
    assert_eq!(rt; peer.read(&mut buffer)?, 0usize);
    assert_eq!(rt; (lane.faults(), lane.lost()), (0u64, 0u64));
    Ok(())
}

/// A second lane at the same port takes the second connection; a link that takes no bytes is given up.
#[test]
fn a_link_that_takes_nothing_is_given_up(rt: HostRuntime) -> Result<(), Fail> {
    let alloc = rt.alloc();
    let port = port(&rt)?;
    let mut first = TcpLane::new(alloc, &rt, Some(&port), Kind::Rpc)?;
    let mut second = TcpLane::new(alloc, &rt, Some(&port), Kind::Rpc)?;
    let _one = TcpStream::connect(&rt, port.address()?)?;
    let mut two = TcpStream::connect(&rt, port.address()?)?;
    assert!(rt; has_next(&mut first));
    assert!(rt; has_next(&mut second));
    let much = Vec::from_elem(alloc, 7u8, 1 << 20)?;
    let mut failed = false;
    for _ in 0..64u32 {
        if let WriteOutcome::Failed = first.send(&much) {
            failed = true;
            break;
        }
    }
    assert!(rt; failed);
    assert_eq!(rt; first.faults(), 1u64);
    assert!(rt; matches!(second.send(b"x"), WriteOutcome::Wrote));
    let mut buffer = [0u8; 1];
    two.read_exact(&mut buffer)?;
    Ok(())
}

/// A lane whose port could not be opened loses its first link.
#[test]
fn a_lane_without_a_port_fails(rt: HostRuntime) -> Result<(), Fail> {
    let mut lane = TcpLane::new(rt.alloc(), &rt, None, Kind::Smb)?;
    assert!(rt; matches!(lane.next(), NextOutcome::Failed));
    assert_eq!(rt;
        (lane.faults(), lane.lost(), lane.asked()),
        (1u64, 1u64, 1u64)
    );
    Ok(())
}

/// The universal address of a socket on this machine.
fn universal(alloc: Global, host: &str, port: u16) -> Result<String, Fail> {
    let [high, low] = port.to_be_bytes();
    Ok(format!(in alloc; "{host}.{high}.{low}")?)
}

/// A port at which nobody listens.
fn free_port(net: &impl Net) -> Result<u16, Fail> {
    let listener = TcpListener::bind(net, SocketAddr::from((Ipv4Addr::LOCALHOST, 0u16)))?;
    Ok(listener.local_addr()?.port())
}

/// Nobody answers a call to a port at which nobody listens, to an address that is none, or to another machine's.
#[test]
fn nobody_answers(rt: HostRuntime) -> Result<(), Fail> {
    let alloc = rt.alloc();
    let mut caller = TcpCaller::new(alloc, &rt, Reach::Loopback)?;
    let silent = universal(alloc, "127.0.0.1", free_port(&rt)?)?;
    for to in [
        silent.as_str(),
        "127.0.0.1.1",
        "",
        "10.0.0.1.3.4",
        "127.0.0.256.1.1",
    ] {
        let outcome = caller.call(alloc, to.as_bytes(), b"call");
        assert!(rt; matches!(outcome, CallOutcome::Nobody));
    }
    caller.idle(0);
    assert_eq!(rt; (caller.faults(), caller.asked()), (0u64, 6u64));
    Ok(())
}

/// Answers one call with the record `reply`: whether the record `call` came.
fn answer_one(listener: &TcpListener) -> bool {
    let Ok((mut peer, _)) = listener.accept() else {
        return false;
    };
    let mut call = [0u8; 8];
    let came = peer.read_exact(&mut call).is_ok() && call == *b"\x80\0\0\x04call";
    came && peer.write_all(b"\0\0\0\x02re\x80\0\0\x03ply").is_ok()
}

/// A client's record, in two fragments, is the answer of a call.
#[test]
fn a_client_answers(rt: HostRuntime) -> Result<(), Fail> {
    let alloc = rt.alloc();
    let listener = TcpListener::bind(&rt, SocketAddr::from((Ipv4Addr::LOCALHOST, 0u16)))?;
    let to = universal(alloc, "127.0.0.1", listener.local_addr()?.port())?;
    let mut caller = TcpCaller::new(alloc, &rt, Reach::Loopback)?;
    let (came, outcome) = join(
        &rt,
        || answer_one(&listener),
        || caller.call(alloc, to.as_bytes(), b"call"),
    );
    assert!(rt; came);
    let CallOutcome::Answer(bytes) = outcome else {
        return Err(Fail::new("no answer"));
    };
    assert!(rt; bytes.as_slice() == b"reply".as_slice());
    Ok(())
}

/// The clock goes on from 0.
#[test]
fn a_clock_goes_on(rt: HostRuntime) -> Result<(), Fail> {
    let mut clock = SteadyClock::new(&rt);
    let first = clock.now();
    let second = clock.now();
    assert!(rt; first.0 < 1_000 && first.0 <= second.0);
    Ok(())
}

/// What a load gave: the epoch, or a number above all epochs.
fn epoch_of(outcome: LoadOutcome) -> u64 {
    match outcome {
        LoadOutcome::Loaded(stable) => u64::from(stable.epoch()),
        LoadOutcome::Failed => 1 << 40,
        LoadOutcome::NoMemory => 1 << 41,
    }
}

/// A record file of the older form is loaded, and is stored as one of the newer.
#[test]
fn an_older_record_is_taken_over(rt: HostRuntime) -> Result<(), Fail> {
    let alloc = rt.alloc();
    fs::write(&rt, "older", b"XLR1\0\0\0\x02\0\0\0\x01\x01\0\x01c")?;
    let mut keeper = FileKeeper::new(alloc, &rt, "older")?;
    let LoadOutcome::Loaded(stable) = keeper.load(alloc) else {
        return Err(Fail::new("no record"));
    };
    assert!(rt; matches!(keeper.store(alloc, &stable), StoreOutcome::Stored));
    let written = fs::read(&rt, "older")?;
    assert_eq!(rt;
        written.as_slice(),
        &b"XLR2\0\0\0\x02\0\0\0\x01\x01\0\x01c\0"[..]
    );
    Ok(())
}

/// A record that was stored is loaded again, by another keeper too; a file that is no record isn't.
#[test]
fn a_record_is_kept(rt: HostRuntime) -> Result<(), Fail> {
    let alloc = rt.alloc();
    let mut keeper = FileKeeper::new(alloc, &rt, "record")?;
    assert_eq!(rt; epoch_of(keeper.load(alloc)), 0u64);
    let mut stable = Record::new(alloc);
    stable.set_epoch(7);
    assert!(rt; matches!(keeper.store(alloc, &stable), StoreOutcome::Stored));
    let mut other = FileKeeper::new(alloc, &rt, "record")?;
    assert_eq!(rt; epoch_of(other.load(alloc)), 7u64);
    fs::write(&rt, "record", b"XLR1 but no record")?;
    assert_eq!(rt; epoch_of(other.load(alloc)), 1u64 << 40);
    assert_eq!(rt; (keeper.faults(), other.faults()), (0u64, 1u64));
    Ok(())
}
