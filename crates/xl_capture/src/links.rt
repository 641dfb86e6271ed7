//! The open connections of a capture.
ghost use Rattle.std.specs.Prelude.{◌≡◌, ◌+◌, ◌<◌, [], ◌∷◌, ◌++◌, length, map, take, drop, true, false, Option, Some, None, Ok, OnOk, IfOk, IfSome, IfNone, slice_index_or, if◌then◌else◌};
ghost use Rattle.std.specs.Option.{is_none};
ghost use Rattle.xl_base.specs.declared.event.Event.TheVariants.{Message, End};
ghost use Rattle.xl_frame.specs.Frames.{frames};
ghost use Rattle.xl_capture.specs.Links.{Link as OpenLink, opened, link_of, without, framed, events_of, still_open};
ghost use Rattle.xl_capture.specs.Capture.{steps_of};

use crate::step::Step;
use std::alloc::{AllocError, AllocFailed, Global};
use std::marker::Model;
use xl_base::{Event, Kind, Sequence};
use xl_frame::{Cutter, FeedErr};

/// An open connection, which speaks ONC RPC (RFC 5531 11) or SMB (MS-SMB2 2.1).
#[derive(Drop)]
pub struct Link {
    conn: u64,
    cutter: Cutter,
}

impl Model for Link {
    ghost use Rattle.std.specs.Prelude.{◌≡◌, [], None};
    ghost use Rattle.xl_capture.specs.Links.{Link as OpenLink};

    ghost Value = { OpenLink };

    ghost view = { λ l. record { conn = l.conn; kind = l.cutter.kind; rest = l.cutter.rest } };

    ghost invariant = { λ l. (l.cutter.ready ≡ []) × (l.cutter.bad ≡ None) };
}

/// Adds a message for each frame that the cutter has ready.
fn add_messages(
    conn: u64,
    stores: u64,
    cutter: &mut Cutter,
    steps: &mut Sequence<Step>,
) -> Result<(), AllocError>
    ensures steps { OnOk result (steps.new ≡ steps.old ++ steps_of stores (map (Message conn) cutter.old.ready)) }
    ensures ready { OnOk result (cutter.new.ready ≡ []) }
    ensures same { OnOk result ((cutter.new.kind ≡ cutter.old.kind) × (cutter.new.rest ≡ cutter.old.rest) × (cutter.new.bad ≡ cutter.old.bad)) }
{
    'frames: while let Some(frame) = cutter.next() {
        let event = Event::Message(conn, Sequence::from_vec(frame));
        steps.push(Step { event, stores })?;
    }
    Ok(())
}

#[tactic(auto, unfolding(xl_frame::specs::Cutting::then_piece))]
/// Cuts the next bytes of a stream. True says that no frame is bad.
fn cut(alloc: Global, cutter: &mut Cutter, bytes: &[u8]) -> Result<bool, AllocError>
    requires ready { cutter.old.ready ≡ [] }
    requires good { cutter.old.bad ≡ None }
    ensures kind { OnOk result (cutter.new.kind ≡ cutter.old.kind) }
    ensures ready { OnOk result (cutter.new.ready ≡ (frames cutter.old.kind (cutter.old.rest ++ bytes.now)).frames) }
    ensures rest { OnOk result (cutter.new.rest ≡ (frames cutter.old.kind (cutter.old.rest ++ bytes.now)).rest) }
    ensures good { IfOk result (λ good. good ≡ is_none (frames cutter.old.kind (cutter.old.rest ++ bytes.now)).bad) }
    ensures unbroken { result ≡ Ok true → cutter.new.bad ≡ None }
{
    match cutter.feed(alloc, bytes) {
        Ok(()) => Ok(true),
        Err(FeedErr::Bad(_)) => Ok(false),
        Err(FeedErr::NoMemory) => Err(AllocError),
    }
}

/// Adds the end of a connection if a frame is bad.
fn add_end(conn: u64, stores: u64, good: bool, steps: &mut Sequence<Step>) -> Result<(), AllocError>
    ensures { OnOk result (steps.new ≡ steps.old ++ steps_of stores (if good then [] else End conn ∷ [])) }
{
    if !good {
        let event = Event::End(conn);
        steps.push(Step { event, stores })?;
    }
    Ok(())
}

impl Link {
    /// A connection that was just opened.
    pub fn open(alloc: Global, conn: u64, kind: Kind) -> Link
        ensures { result ≡ opened conn kind }
    {
        Link {
            conn,
            cutter: Cutter::new(alloc, kind),
        }
    }

    /// Its number.
    pub fn conn(&self) -> u64
        ensures { result ≡ self.now.conn }
    {
        self.conn
    }

    /// Takes the next bytes of its stream, and adds what they come to to the steps: a message for each frame that is
    /// whole now, and its end if a frame is bad; in each of them so many stores succeed. The connection is given back if
    /// it is open still.
    pub fn feed(
        self,
        alloc: Global,
        stores: u64,
        bytes: &[u8],
        steps: &mut Sequence<Step>,
    ) -> Result<Option<Link>, AllocError>
        ensures steps { OnOk result (steps.new ≡ steps.old ++ steps_of stores (events_of self.conn (framed self bytes.now))) }
        ensures open { IfOk result (λ l. l ≡ still_open self (framed self bytes.now)) }
    {
        let Link { conn, mut cutter } = self;
        let good = cut(alloc, &mut cutter, bytes)?;
        add_messages(conn, stores, &mut cutter, steps)?;
        add_end(conn, stores, good, steps)?;
        if good {
            Ok(Some(Link { conn, cutter }))
        } else {
            Ok(None)
        }
    }
}

/// The place of the open connection of this number.
fn place_of(links: &[Link], conn: u64) -> Option<usize>
    ensures found { IfSome result (λ i. (i < length links.now) × ((d : OpenLink) → link_of conn links.now ≡ Some (slice_index_or links.now i d)) × (without conn links.now ≡ take i links.now ++ drop (i + 1) links.now)) }
    ensures none { IfNone result ((link_of conn links.now ≡ None) × (without conn links.now ≡ links.now)) }
{
    'links: for (i, link) in links.iter().enumerate() {
        if link.conn() == conn {
            return Some(i);
        }
    }
    None
}

/// The connections of a capture that are open at a line.
#[derive(Drop)]
pub struct Links {
    items: Vec<Link>,
}

impl Model for Links {
    ghost use Rattle.std.specs.Prelude.{List};
    ghost use Rattle.xl_capture.specs.Links.{Link as OpenLink};

    ghost Value = { List OpenLink };

    ghost view = { λ l. l.items.items };
}

impl Links {
    /// No connection; it takes no memory.
    pub fn new(alloc: Global) -> Links
        ensures { result ≡ [] }
    {
        Links {
            items: Vec::new(alloc),
        }
    }

    /// How many there are.
    pub fn len(&self) -> usize
        ensures { result ≡ length self.now }
    {
        self.items.len()
    }

    /// Adds one behind the others.
    pub fn push(&mut self, link: Link) -> Result<(), AllocFailed<Link>>
        ensures { OnOk result (self.new ≡ self.old ++ link ∷ []) }
    {
        self.items.push(link)
    }

    /// Takes out the one of this number.
    pub fn take_out(&mut self, conn: u64) -> Option<Link>
        ensures link { result ≡ link_of conn self.old }
        ensures others { self.new ≡ without conn self.old }
    {
        let place = place_of(&self.items, conn)?;
        Some(self.items.remove(place))
    }
}
