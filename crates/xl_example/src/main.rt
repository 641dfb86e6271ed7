//! A gateway in small: a house that exports one file, and three calls of NLM by one connection (docs/EMBEDDING.md).
#![tactic(auto)]

ghost use Rattle.std.specs.Prelude.{◌≡◌, IfOk, false};
ghost use Rattle.xl_house.specs.Journals.{is_restart};

use std::alloc::{AllocError, Global};
use std::{io, str};
use xl_base::{
    Dest, Event, Exports, Halt, Keeper, Kind, MemoryKeeper, Moment, Out, Record, Sequence,
};
use xl_house::House;

/// A LOCK by the caller `a` of the bytes 0 to 9 of file 1, exclusive, which doesn't wait, in hex (RFC 5531 9, XNFS C702 14).
const LOCK_BY_A: &str = "\
    000000010000000000000002000186b500000004000000020000000000000000000000000000000000000000\
    000000000000000100000001610000000000000\
    8584c4b310000000100000000000000070000000000000000000000000000000a0000000000000000";

/// The same by the caller `b`, which waits.
const LOCK_BY_B: &str = "\
    000000020000000000000002000186b500000004000000020000000000000000000000000000000000000000\
    000000010000000100000001620000000000000\
    8584c4b310000000100000000000000070000000000000000000000000000000a0000000000000000";

/// The UNLOCK of these bytes by `a`.
const UNLOCK_BY_A: &str = "\
    000000030000000000000002000186b500000004000000040000000000000000000000000000000000000000\
    00000001610000000000000\
    8584c4b310000000100000000000000070000000000000000000000000000000a";

/// What the house exports: `a.txt`, which is file 1, and the address at which the caller `b` is called back.
fn exports(alloc: Global) -> Result<Exports, AllocError> {
    let mut files = Sequence::new(alloc);
    files.push(Sequence::from_slice(alloc, b"a.txt")?)?;
    let name = Sequence::from_slice(alloc, b"b")?;
    let address = Sequence::from_slice(alloc, b"127.0.0.1.3.4")?;
    let mut addresses = Sequence::new(alloc);
    addresses.push((name, address))?;
    Ok(Exports {
        files,
        addresses,
        lease: 90_000,
        grace: 90_000,
        break_time: 35_000,
    })
}

/// A message by the connection 0, whose bytes are given in hex, without its frame.
fn message(alloc: Global, text: &str) -> io::Result<Event>
    ensures { IfOk result (λ event. is_restart event ≡ false) }
{
    match hex::decode(alloc, text) {
        Ok(bytes) => Ok(Event::Message(0, Sequence::from_vec(bytes))),
        Err(_) => Err(io::Error::other("these are no bytes")),
    }
}

/// Sends one message. A gateway writes it to a socket; this one writes it to standard output, in hex.
fn send(rt: &(impl Print + AllocGlobal), place: u64, out: &Out) -> io::Result<()> {
    let bytes = hex::encode(rt.alloc(), out.bytes.as_slice())?;
    match out.dest {
        Dest::Conn(number) => println!(rt; "{place}: to connection {number}: {bytes}"),
        Dest::Back(call) => {
            let address = str::from_utf8(out.to.as_slice()).unwrap_or("?");
            println!(rt; "{place}: call {call} to {address}: {bytes}")
        }
    }
}

/// Steps one event, and sends what the house has to send for it.
fn serve<K: Keeper>(
    rt: &(impl Print + AllocGlobal),
    house: &mut House<K>,
    event: Event,
) -> io::Result<()>
    requires goes_on { is_restart event ≡ false }
{
    let place = match house.step(rt.alloc(), event) {
        Ok(place) => place,
        Err(Halt::NoMemory) => return Err(io::Error::from(io::ErrorKind::OutOfMemory)),
        Err(_) => return Err(io::Error::other("the house has halted")),
    };
    let Some(entry) = house.outs_from(place).first() else {
        return Ok(());
    };
    for out in entry.outs.as_slice() {
        send(rt, place, out)?;
    }
    Ok(())
}

/// The house, which keeps its record in memory.
fn started(alloc: Global) -> io::Result<House<MemoryKeeper>> {
    let exports = exports(alloc)?;
    let keeper = MemoryKeeper::new(alloc, Record::new(alloc), Vec::new(alloc));
    match House::start(alloc, exports, keeper, Moment(0)) {
        Ok(house) => Ok(house),
        Err(_) => Err(io::Error::other("the house did not start")),
    }
}

/// Steps the events of the example, and writes how many claims are held then.
fn serve_all<K: Keeper>(rt: &(impl Print + AllocGlobal), house: &mut House<K>) -> io::Result<()> {
    let alloc = rt.alloc();
    serve(rt, house, Event::Open(Kind::Rpc))?;
    serve(rt, house, message(alloc, LOCK_BY_A)?)?;
    serve(rt, house, message(alloc, LOCK_BY_B)?)?;
    serve(rt, house, message(alloc, UNLOCK_BY_A)?)?;
    serve(rt, house, Event::Called(2, None))?;
    serve(rt, house, Event::Tick(Moment(1000)))?;
    write_claims(rt, house)
}

/// Writes how many claims are held.
fn write_claims<K: Keeper>(rt: &(impl Print + AllocGlobal), house: &House<K>) -> io::Result<()> {
    if house.is_spoiled() {
        return Ok(());
    }
    println!(rt; "claims {}", house.dump(rt.alloc())?.len())
}

/// Ends the house; the answer is how many entries its journal has.
fn end(house: House<MemoryKeeper>) -> usize {
    let (journal, _keeper) = house.end();
    journal.entries.len()
}

fn main(rt: HostRuntime) -> io::Result<()> {
    let mut house = started(rt.alloc())?;
    let served = serve_all(&rt, &mut house);
    let entries = end(house);
    served?;
    println!(rt; "entries {entries}")
}
