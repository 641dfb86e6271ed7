//! What a capture comes to, and the capture that a journal is written as.

use std::alloc::{AllocError, Global};
use std::fmt::Write;
use std::test::Fail;
use xl_base::{
    Entry, Event, Exports, Head, Journal, Kind, Mark, Moment, Protocol, Record, Recorded, Sequence,
};
use xl_capture::{ALL_STORES, Capture, Step, capture_of, read_capture};
use xl_names::put_hex_word;

/// Captures, and behind arrows what was read of them: addresses, the record before the start, and events, of which `M` is a
/// message without its frame; each event with what its line says of stores. Addresses stand between names of files, in both
/// cases of hex, of a caller without a byte. Each call that is over is an event, so the place of the next opening is one
/// more. Behind a restart no connection is open.
const CAPTURES: &str = "\
H 61 127.0.0.1=>
H 61 127.0.0.1
--
F a
H aB x
F b
#
H\t-\tx
O rpc
=>
H ab x
H - x
O rpc
--
H 61 !
H 62 ~
=>
H 61 !
H 62 ~
--
H 61 !9
=>
H 61 !9
--
H 61 0123456789abcdef0123456789abcdef0123456789abcdef0123456789abcdef=>
H 61 0123456789abcdef0123456789abcdef0123456789abcdef0123456789abcdef
--
H 61 x
H 6161 y=>
H 61 x
H 6161 y
--
C 0=>
C 0
--
C 5 0aFF
C 5
C 5 -=>
C 5 0aff
C 5
C 5 -
--
C 18446744073709551615 00=>
C 18446744073709551615 00
--
C 5
O rpc
E 0
E 1=>
C 5
O rpc
E 1
--
N nlm 00fF
K 4294967295
F a
N nfs 00fF
N nfs -
H 00ff x
T 5
=>
H 00ff x
K 4294967295
N nlm 00ff
N nfs 00ff
N nfs -
T 5
--
N nlm 61 0000000A
N nfs 61 0102030405060708
N nlm -\t00000000
=>
N nlm 61 0000000a
N nfs 61 0102030405060708
N nlm - 00000000
--
T\t1\t!0
T 18446744073709551615 !9999
C 5 !1
C 5 - !2
=>
T 1 !0
T 18446744073709551615 !9999
C 5 !1
C 5 - !2
--
O rpc !3
B 0 8000000161800000026263 !2
B 0 80000000 !4
B 0 00 !5
B 0 000000
E 0 !6
=>
O rpc !3
M 0 61 !2
M 0 6263 !2
M 0 - !4
E 0
--
O rpc
O smb
R !1
E 0
B 1 0000000161
O smb
B 3 0000000161
R
R !0
=>
O rpc
O smb
R !1
O smb
M 3 61
R
R !0
";

fn put_address(
    alloc: Global,
    text: &mut String,
    held: &(Sequence<u8>, Sequence<u8>),
) -> Result<(), AllocError> {
    text.push_str("H ")?;
    put_hex_word(alloc, text, held.0.as_slice())?;
    text.push_str(" ")?;
    for byte in held.1.as_slice() {
        text.push(char::from(*byte))?;
    }
    text.push_str("\n")
}

fn put_event(alloc: Global, text: &mut String, event: &Event) -> Result<(), AllocError> {
    match event {
        Event::Open(Kind::Rpc) => text.push_str("O rpc"),
        Event::Open(Kind::Smb) => text.push_str("O smb"),
        Event::Message(conn, bytes) => {
            write!(text, "M {conn} ")?;
            put_hex_word(alloc, text, bytes.as_slice())
        }
        Event::End(conn) => write!(text, "E {conn}"),
        Event::Called(call, None) => write!(text, "C {call}"),
        Event::Called(call, Some(reply)) => {
            write!(text, "C {call} ")?;
            put_hex_word(alloc, text, reply.as_slice())
        }
        Event::Tick(Moment(moment)) => write!(text, "T {moment}"),
        Event::Restart => text.push_str("R"),
    }
}

fn put_step(alloc: Global, text: &mut String, step: &Step) -> Result<(), AllocError> {
    put_event(alloc, text, &step.event)?;
    if step.stores != ALL_STORES {
        let stores = step.stores;
        write!(text, " !{stores}")?;
    }
    text.push_str("\n")
}

fn put_record(alloc: Global, text: &mut String, stable: &Record) -> Result<(), AllocError> {
    if stable.epoch() != 0 {
        let epoch = stable.epoch();
        writeln!(text, "K {epoch}")?;
    }
    for client in stable.names() {
        text.push_str(match client.protocol {
            Protocol::Nfs => "N nfs ",
            Protocol::Nlm => "N nlm ",
            Protocol::Smb => "N smb ",
        })?;
        put_hex_word(alloc, text, client.name.as_slice())?;
        if let Some(mark) = &client.mark {
            text.push_str(" ")?;
            put_hex_word(alloc, text, mark.as_bytes())?;
        }
        text.push_str("\n")?;
    }
    Ok(())
}

fn lines_of(alloc: Global, capture: &Capture) -> Result<Vec<u8>, AllocError> {
    let mut text = String::new(alloc);
    for held in capture.addresses.as_slice() {
        put_address(alloc, &mut text, held)?;
    }
    put_record(alloc, &mut text, &capture.stable)?;
    for step in capture.steps.as_slice() {
        put_step(alloc, &mut text, step)?;
    }
    Ok(text.into_bytes())
}

/// Whether the capture before a case's arrow comes to the lines behind it.
fn is_read(alloc: Global, case: &str) -> Result<bool, Fail> {
    let Some((text, wanted)) = case.split_once("=>\n") else {
        return Ok(false);
    };
    let capture = read_capture(alloc, text.as_bytes())?;
    Ok(lines_of(alloc, &capture)?.as_slice() == wanted.as_bytes())
}

#[test]
fn captures(rt: HostRuntime) -> Result<(), Fail> {
    for case in CAPTURES.split("--\n") {
        assert!(rt; is_read(rt.alloc(), case)?, "{case}");
    }
    Ok(())
}

/// What a journal is written as, whose record has a client of each protocol.
const WRITTEN: &str = "\
F a.txt
H 61 1.2
L 1 2 3
K 4294967295
N nlm 61 00000003
N nfs -
O smb !0
B 0 0000000161 !1
E 0 !9999
T 5 !2
R !1
C 7 !0
C 7 - !0
";

fn head(alloc: Global) -> Result<Head, Fail> {
    let mut files = Sequence::new(alloc);
    files.push(Sequence::from_slice(alloc, b"a.txt")?)?;
    let caller = Sequence::from_slice(alloc, b"a")?;
    let mut addresses = Sequence::new(alloc);
    addresses.push((caller, Sequence::from_slice(alloc, b"1.2")?))?;
    let mut record = Record::new(alloc);
    record.set_epoch(u32::MAX);
    let state = Some(Mark::State([0, 0, 0, 3]));
    for (protocol, name, mark) in [(Protocol::Nlm, "a", state), (Protocol::Nfs, "", None)] {
        let name = Sequence::from_slice(alloc, name.as_bytes())?;
        record.add(Recorded {
            protocol,
            name,
            mark,
        })?;
    }
    Ok(Head {
        exports: Exports {
            files,
            addresses,
            lease: 1,
            grace: 2,
            break_time: 3,
        },
        start: Moment(0),
        record,
    })
}

fn journal(alloc: Global) -> Result<Journal, Fail> {
    let message = Sequence::from_slice(alloc, b"a")?;
    let mut entries = Sequence::new(alloc);
    for (event, stores) in [
        (Event::Open(Kind::Smb), 0),
        (Event::Message(0, message), 1),
        (Event::End(0), 9999),
        (Event::Tick(Moment(5)), 2),
        (Event::Restart, 1),
        (Event::Called(7, None), 0),
        (Event::Called(7, Some(Sequence::new(alloc))), 0),
    ] {
        let outs = Sequence::new(alloc);
        entries.push(Entry {
            event,
            stores,
            outs,
        })?;
    }
    let head = head(alloc)?;
    Ok(Journal { head, entries })
}

#[test]
fn written(rt: HostRuntime) -> Result<(), Fail> {
    let text = capture_of(rt.alloc(), &journal(rt.alloc())?)?;
    assert!(rt; text.as_slice() == WRITTEN.as_bytes());
    Ok(())
}
