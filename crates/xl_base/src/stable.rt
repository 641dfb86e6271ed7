//! The record on stable storage: the epoch, and the clients that may reclaim after a restart (RFC 7530 9.6.2).
ghost use Rattle.std.specs.Prelude.{◌≡◌, ◌∷◌, [], ◌++◌, ◌≤◌, ◌⊎◌, true, false, Some, length, position, OnOk, OnErr, IfOk, IsTrue, ◌↔◌};
ghost use Rattle.xl_base.specs.Stable.{agree, is_recorded, is_recordable, keeps, mark_bytes, put_name, same_mark, same_name, IsWhole};
ghost use Rattle.xl_base.specs.declared.stable.RecordNameError.TheVariants.{NoMemory};

use crate::name::Protocol;
use crate::sequence::Sequence;
use std::alloc::{AllocError, AllocFailed, Global};
use std::marker::Model;

/// What a client's name is recorded with, as its messages have it: it differs once the client has started anew.
#[derive(Clone, Copy)]
pub enum Mark {
    /// The verifier of an NFSv4 client (RFC 7530 9.1.1).
    Verifier([u8; 8]),
    /// The state of an NLM client's host, as XDR spells it (XNFS C702, NLM_LOCK).
    State([u8; 4]),
}

impl Mark {
    /// The bytes of the mark.
    pub fn as_bytes(&self) -> &[u8]
        ensures bytes { result.now ≡ mark_bytes self.now }
        ensures few { length result.now ≤ 8 }
        ensures whole { IsWhole (Some self.now) }
    {
        match self {
            Mark::Verifier(bytes) => bytes,
            Mark::State(bytes) => bytes,
        }
    }

    /// Whether the other one is the same mark.
    pub fn is(&self, other: &Mark) -> bool
        ensures { result ≡ same_mark self.now other.now }
    {
        match (self, other) {
            (Mark::Verifier(_), Mark::Verifier(_)) | (Mark::State(_), Mark::State(_)) => {
                self.as_bytes() == other.as_bytes()
            }
            _ => false,
        }
    }
}

/// Whether two marks agree: they are the same, or one is missing.
pub fn agree(kept: &Option<Mark>, mark: &Option<Mark>) -> bool
    ensures { result ≡ agree kept.now mark.now }
{
    match (kept, mark) {
        (Some(kept), Some(mark)) => kept.is(mark),
        _ => true,
    }
}

/// Whether a client that comes with this mark leaves the kept one as it is: it comes with none, or with the same.
fn keeps(kept: &Option<Mark>, mark: &Option<Mark>) -> bool
    ensures { result ≡ keeps kept.now mark.now }
{
    match (kept, mark) {
        (_, None) => true,
        (None, Some(_)) => false,
        (Some(kept), Some(mark)) => kept.is(mark),
    }
}

/// The name of a client that may reclaim after a restart.
#[derive(Drop)]
pub struct Recorded {
    /// NFSv4 or NLM.
    pub protocol: Protocol,
    /// The NFSv4 client id string, or the NLM caller name.
    pub name: Sequence<u8>,
    /// The mark that the client had, None if none is known. It is no part of the name.
    pub mark: Option<Mark>,
}

impl Recorded {
    /// The same name with the same mark once more.
    pub fn copy(&self, alloc: Global) -> Result<Recorded, AllocError>
        ensures { IfOk result (λ r. r ≡ self.now) }
    {
        Ok(Recorded {
            protocol: self.protocol,
            name: Sequence::from_slice(alloc, self.name.as_slice())?,
            mark: self.mark,
        })
    }

    /// Whether the other one has the same name: the same protocol and the same bytes, whatever the marks.
    pub fn has_name_of(&self, other: &Recorded) -> bool
        ensures { result ≡ same_name self.now other.now }
    {
        self.protocol == other.protocol && self.name == other.name
    }

    /// Whether it may be recorded: an NFSv4 client with a verifier, an NLM client with a state, or either without a mark.
    pub fn is_recordable(&self) -> bool
        ensures { result ≡ is_recordable self.now }
    {
        match self.protocol {
            Protocol::Nlm => !matches!(self.mark, Some(Mark::Verifier(_))),
            Protocol::Nfs => !matches!(self.mark, Some(Mark::State(_))),
            Protocol::Smb => false,
        }
    }
}

/// Why a name could not be recorded.
#[derive(Clone, Copy, Debug)]
pub enum RecordNameError {
    /// Memory ran out.
    NoMemory,
    /// Only clients of NFSv4 and NLM reclaim, and a mark is one of the client's protocol.
    Unfit,
    /// The name is recorded already.
    Twice,
}

impl<T: Drop> From<AllocFailed<T>> for RecordNameError {
    ghost from_gives = { λ _ e. e ≡ NoMemory };

    fn from(_e: AllocFailed<T>) -> RecordNameError {
        RecordNameError::NoMemory
    }
}

/// The record on stable storage. Its names are distinct, and each is an NFSv4 or an NLM name, with a mark of its protocol or none.
#[derive(Drop)]
pub struct Record {
    epoch: u32,
    names: Sequence<Recorded>,
}

impl Model for Record {
    ghost use Rattle.xl_base.specs.Stable.{Stable, AreRecordable, AreWhole};

    ghost Value = { Stable };

    ghost view = { λ r. record { epoch = r.epoch; names = r.names } };

    ghost invariant = { λ r. AreRecordable r.names × AreWhole r.names };
}

#[tactic(auto, using(crate::proofs::StableLaws::recordable_push, crate::proofs::StableLaws::whole_push, crate::proofs::StableLaws::recordable_put, crate::proofs::StableLaws::whole_put))]
impl Record {
    ghost use Rattle.xl_base.specs.Stable.{AreRecordable, AreWhole, is_kept, is_recorded, is_recordable, raised};

    /// The record of a server that never started: epoch 0 and no names. It takes no memory.
    pub fn new(alloc: Global) -> Record
        ensures { result ≡ record { epoch = 0; names = [] } }
    {
        Record {
            epoch: 0,
            names: Sequence::new(alloc),
        }
    }

    /// How many times the server has started, wrapping past 2^32 - 1 to 1.
    pub fn epoch(&self) -> u32
        ensures { result ≡ self.now.epoch }
    {
        self.epoch
    }

    /// Sets the epoch.
    pub fn set_epoch(&mut self, epoch: u32)
        ensures { self.new ≡ record { epoch = epoch; names = self.old.names } }
    {
        self.epoch = epoch;
    }

    /// Raises the epoch by one, as a start does; after 4,294,967,295 comes 1.
    pub fn raise_epoch(&mut self)
        ensures { self.new ≡ raised self.old }
    {
        self.epoch = match self.epoch.checked_add(1) {
            Some(epoch) => epoch,
            None => 1,
        };
    }

    /// The same record once more.
    pub fn copy(&self, alloc: Global) -> Result<Record, AllocError>
        ensures { IfOk result (λ r. r ≡ self.now) }
    {
        Ok(Record {
            epoch: self.epoch,
            names: Sequence::from_vec(copy_names(alloc, self.names.as_slice())?),
        })
    }

    /// The names in the order in which they were recorded.
    pub fn names(&self) -> &[Recorded]
        ensures names { result.now ≡ self.now.names }
        ensures recordable { AreRecordable result.now }
        ensures whole { AreWhole result.now }
    {
        self.names.as_slice()
    }

    /// Whether the name is recorded.
    pub fn contains(&self, name: &Recorded) -> bool
        ensures { result ≡ is_recorded name.now self.now.names }
    {
        is_among(self.names.as_slice(), name)
    }

    /// Whether the name is recorded, with its mark if it comes with one.
    pub fn keeps(&self, name: &Recorded) -> bool
        ensures { result ≡ is_kept name.now self.now.names }
    {
        self.names.as_slice().iter().any(|held| held.has_name_of(name)
            && keeps(&held.mark, &name.mark))
    }

    /// Records a name with its mark: in its place if it is recorded, else behind the others. After an error the record is
    /// as it was.
    pub fn put(&mut self, name: Recorded) -> Result<(), RecordNameError>
        ensures ok { OnOk result (self.new ≡ record { epoch = self.old.epoch; names = put_name name self.old.names }) }
        ensures unfit { (result ≡ Err RecordNameError.Unfit) ↔ (is_recordable name ≡ false) }
        ensures either { OnErr result ((result ≡ Err RecordNameError.Unfit) ⊎ (result ≡ Err NoMemory)) }
        ensures err { OnErr result (self.new ≡ self.old) }
    {
        if !name.is_recordable() {
            return Err(RecordNameError::Unfit);
        }
        check_whole(&name.mark);
        put_in(&mut self.names, name)?;
        Ok(())
    }

    /// Records a name behind the others. After an error the record is as it was.
    pub fn add(&mut self, name: Recorded) -> Result<(), RecordNameError>
        ensures ok { OnOk result (self.new ≡ record { epoch = self.old.epoch; names = self.old.names ++ name ∷ [] }) }
        ensures unfit { (result ≡ Err RecordNameError.Unfit) ↔ (is_recordable name ≡ false) }
        ensures twice { (result ≡ Err RecordNameError.Twice) ↔ ((is_recordable name ≡ true) × (is_recorded name self.old.names ≡ true)) }
        ensures err { OnErr result (self.new ≡ self.old) }
    {
        if !name.is_recordable() {
            return Err(RecordNameError::Unfit);
        }
        check_whole(&name.mark);
        if is_among(self.names.as_slice(), &name) {
            return Err(RecordNameError::Twice);
        }
        self.names.push(name)?;
        Ok(())
    }
}

/// The place of the name among these.
pub(crate) fn place_of(names: &[Recorded], name: &Recorded) -> Option<usize>
    ensures { result ≡ position (λ held. same_name held name.now) names.now }
{
    names.iter().position(|held| held.has_name_of(name))
}

/// Puts a name in its place with its mark, or behind the others if it is new. Want of memory changes nothing.
fn put_in(names: &mut Sequence<Recorded>, name: Recorded) -> Result<(), AllocFailed<Recorded>>
    ensures ok { OnOk result (names.new ≡ put_name name names.old) }
    ensures err { OnErr result (names.new ≡ names.old) }
{
    match place_of(names.as_slice(), &name) {
        Some(place) => {
            names.set(place, name);
            Ok(())
        }
        None => names.push(name),
    }
}

fn is_among(names: &[Recorded], name: &Recorded) -> bool
    ensures { result ≡ is_recorded name.now names.now }
{
    names.iter().any(|held| held.has_name_of(name))
}

/// A mark has as many bytes as its protocol's messages have there.
fn check_whole(mark: &Option<Mark>)
    ensures { IsWhole mark.now }
{
    if let Some(mark) = mark {
        let _bytes = mark.as_bytes();
    }
}

/// The same names once more.
fn copy_names(alloc: Global, names: &[Recorded]) -> Result<Vec<Recorded>, AllocError>
    ensures { IfOk result (λ v. v.items ≡ names.now) }
{
    let mut copies = Vec::new(alloc);
    'names: for name in names {
        copies.push(name.copy(alloc)?)?;
    }
    Ok(copies)
}
