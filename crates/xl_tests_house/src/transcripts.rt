//! Transcripts of outs and of claims.

use std::alloc::{AllocError, Global};
use std::test::Fail;
use xl_base::{Dest, Entry, Event, Moment, Out, Owner, Party, Protocol, Sequence};
use xl_capture::transcript;
use xl_matrix::{Break, CacheKind, Claim, Extent, Rwd, What};
use xl_names::{Name, Names};

/// Where an out goes, its address, and its bytes.
type Sent = (Dest, &'static [u8], &'static [u8]);

const SENT: [Sent; 4] = [
    (Dest::Back(3), b"h:1", &[0, 255]),
    (Dest::Back(18446744073709551615), b"", b""),
    (Dest::Conn(3), b"h:1", &[1]),
    (Dest::Conn(0), b"", b""),
];

/// What is denied or accessed.
const NONE: Rwd = Rwd {
    r: false,
    w: false,
    d: false,
};

const READ_WRITE: Rwd = Rwd {
    r: true,
    w: true,
    d: false,
};

const ALL: Rwd = Rwd {
    r: true,
    w: true,
    d: true,
};

/// A break to R, and one to none.
const TO_R: Break = Break {
    target: Some(CacheKind::R),
    deadline: Moment(35000),
};

const TO_NONE: Break = Break {
    target: None,
    deadline: Moment(18446744073709551615),
};

/// Files, who holds a claim, and what is claimed: in no order.
const HELD: [(u32, u32, What); 13] = [
    (2, 3, What::Share(NONE, READ_WRITE)),
    (1, 9, What::Cache(CacheKind::RWH, None)),
    (1, 3, What::Cache(CacheKind::RH, Some(TO_R))),
    (1, 8, What::Cache(CacheKind::WriteDeleg, Some(TO_NONE))),
    (1, 3, What::Range(Extent::Bytes(5, 5), false)),
    (1, 3, What::Range(Extent::Bytes(5, 5), true)),
    (
        1,
        3,
        What::Range(Extent::Bytes(5, 18446744073709551615), true),
    ),
    (1, 3, What::Range(Extent::Empty(5), false)),
    (1, 3, What::Range(Extent::Empty(5), true)),
    (1, 3, What::Range(Extent::Bytes(4, 9), false)),
    (1, 1, What::Range(Extent::Bytes(0, 9), true)),
    (1, 3, What::Share(ALL, NONE)),
    (1, 0, What::Share(READ_WRITE, NONE)),
];

/// The lines of both.
const TOLD: &str = "\
0 b3 683a31 00ff
0 b18446744073709551615 - -
0 c3 01
0 c0 -
1 share nlm:61/- rw -
1 share smb:3 rwd -
1 range smb:1 0 9 x
1 range smb:3 4 9 s
1 range smb:3 5 - x
1 range smb:3 5 - s
1 range smb:3 5 5 x
1 range smb:3 5 5 s
1 range smb:3 5 18446744073709551615 x
1 cache smb:1003 RH > R 35000
1 cache smb:1008 WriteDeleg > none 18446744073709551615
1 cache smb:1009 RWH
2 share smb:3 - rw
";

fn out_of(alloc: Global, sent: Sent) -> Result<Out, AllocError> {
    let to = Sequence::from_slice(alloc, sent.1)?;
    Ok(Out {
        dest: sent.0,
        to,
        bytes: Sequence::from_slice(alloc, sent.2)?,
    })
}

/// An entry of a call that is over, with these outs.
fn entry(alloc: Global) -> Result<Entry, AllocError> {
    let mut outs = Sequence::new(alloc);
    for sent in SENT {
        outs.push(out_of(alloc, sent)?)?;
    }
    Ok(Entry {
        event: Event::Called(7, None),
        stores: 0,
        outs,
    })
}

/// A claim of the name 0, or of an open.
fn claim_of(file: u32, holder: u32, what: What) -> Claim {
    Claim {
        file,
        owner: if holder == 0 {
            Owner::Name(Protocol::Nlm, 0)
        } else {
            Owner::Open(holder)
        },
        party: Party::Open(holder.saturating_add(1000)),
        what,
    }
}

fn claims(alloc: Global) -> Result<Vec<Claim>, AllocError> {
    let mut claims = Vec::new(alloc);
    for (file, holder, what) in HELD {
        claims.push(claim_of(file, holder, what))?;
    }
    Ok(claims)
}

/// The owner of shares of the caller a.
fn names(alloc: Global) -> Result<Names, AllocError> {
    let mut names = Names::new(alloc);
    let caller = Sequence::from_slice(alloc, b"a")?;
    let _ = names.intern(&Name::NlmShare(caller, Sequence::new(alloc)));
    Ok(names)
}

fn is_told(alloc: Global, entry: Entry, claims: &[Claim]) -> Result<bool, AllocError> {
    let told = transcript(alloc, &[entry], claims, &names(alloc)?)?;
    Ok(told.as_slice() == TOLD.as_bytes())
}

#[test]
fn transcripts(rt: HostRuntime) -> Result<(), Fail> {
    let claims = claims(rt.alloc())?;
    assert!(rt; is_told(rt.alloc(), entry(rt.alloc())?, &claims)?);
    Ok(())
}
