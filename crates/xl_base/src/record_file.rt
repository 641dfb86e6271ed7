//! The record as a file: the mark `XLR2`, the epoch and the count of names in four bytes each, and for each name a byte
//! for its protocol (1 NFSv4, 2 NLM), its length in two bytes, its bytes, and its mark behind the mark's length in a byte: 8
//! bytes of NFSv4, 4 of NLM, or a zero alone. Numbers are big-endian. The older form, `XLR1`, has no marks; it is read, and
//! never written.
ghost use Rattle.std.specs.Prelude.{◌≡◌, ℕ, ◌-◌, ◌<◌, ◌≤◌, ◌^◌, List, [], ◌∷◌, ◌++◌, length, codes, min, true, Ok, Err, IsTrue, ◌↔◌, OnOk, IfOk, if◌then◌else◌};
ghost use Rattle.std.specs.Int.{w16, w32};
ghost use Rattle.std.specs.List.{AllByRecursion};
ghost use Rattle.xl_base.specs.Codec.{big_endian_at};
ghost use Rattle.xl_base.specs.Results.{Gives, GivesUnless};
ghost use Rattle.xl_base.specs.Stable.{Stable, AreRecordable, is_recordable, is_recorded, is_reclaiming, is_mark_of, mark_bytes};
ghost use Rattle.xl_base.specs.RecordFile.{magic_of, form_of, most_bytes_of, most_record_bytes, fault_of, kind_of, mark_text, name_text, names_text, file_text, record_text, Fits, are_short, IsFileOf, HasFile, added, with_name, magic_at, protocol_at, text_at, mark_at, name_at, names_at, ended, file_at, record_at};
ghost use Rattle.xl_base.specs.declared.name.Protocol.TheVariants.{Nfs, Nlm};
ghost use Rattle.xl_base.specs.declared.record_file.RecordForm.TheVariants.{Unmarked, Marked};
ghost use Rattle.xl_base.specs.declared.record_file.RecordBad.TheVariants.{NoMemory, Cut, Twice};

use crate::name::Protocol;
use crate::sequence::Sequence;
use crate::stable::{Mark, Record, RecordNameError, Recorded, place_of};
use std::alloc::{AllocError, AllocFailed, Global};
use thiserror::Error;

/// The most bytes of a record file, as it is written.
pub const MOST_RECORD_BYTES: usize = 131_072;

/// The most bytes of a record file in the older form.
const MOST_UNMARKED_BYTES: usize = 65_536;

/// The form of a record file.
#[derive(Clone, Copy)]
pub enum RecordForm {
    /// `XLR1`: names alone. It is read.
    Unmarked,
    /// `XLR2`: names with their marks. It is read and written.
    Marked,
}

/// Why bytes are no record file: the length is judged first, then the first fault in reading order.
#[derive(Clone, Copy, Debug, Error)]
pub enum RecordBad {
    /// Memory ran out.
    #[error("no memory")]
    NoMemory,
    /// So many bytes, more than 131,072, or more than 65,536 of a file in the older form.
    #[error("a record file of {0} bytes")]
    Long(u64),
    /// The file begins neither with `XLR2` nor with `XLR1`; it may be shorter than that.
    #[error("no mark of a record file")]
    Magic,
    /// The file ends within the epoch, the count, a name or a mark.
    #[error("the record file is cut")]
    Cut,
    /// The byte in front of a name is neither 1 nor 2.
    #[error("a name of the kind {0}")]
    Kind(u8),
    /// A name is there once more.
    #[error("a name stands twice")]
    Twice,
    /// Bytes stand behind the last name.
    #[error("bytes stand behind the last name")]
    Extra,
    /// A mark has so many bytes: not 8 of an NFSv4 client, not 4 of an NLM client, and not none.
    #[error("a mark of {0} bytes")]
    Mark(u8),
}

impl From<AllocError> for RecordBad {
    ghost from_gives = { λ _ e. e ≡ NoMemory };

    fn from(_e: AllocError) -> RecordBad {
        RecordBad::NoMemory
    }
}

// ---- reading

/// The record of a record file, in either form. Long comes before all else, for more than 131,072 bytes, or more than 65,536
/// that begin with `XLR1`. Then the first fault in reading order is answered: Magic if the file begins with neither form's mark,
/// Cut if it ends within a number, a name or a mark, Kind if the byte in front of a name is neither 1 nor 2, Mark if a mark has
/// another length than its protocol's, Twice if the same name stood before, whatever the marks, Extra if bytes stand behind the last
/// name. The names of the older form have no marks.
pub fn read_record(alloc: Global, bytes: &[u8]) -> Result<Record, RecordBad>
    // The bytes are the file of the record that is read, and the record has a file as it is written.
    ensures found { IfOk result (λ r. IsFileOf r bytes.now × HasFile r) }
    // The file of a record is read, in either form; with bytes behind it the fault is Extra.
    ensures only { (form : RecordForm) (r : Stable) (rest : List ℕ) → r.epoch < 2 ^ 32 → AreRecordable r.names → AllByRecursion (Fits form) r.names → length bytes.now ≤ most_bytes_of form → bytes.now ≡ file_text form r ++ rest → GivesUnless fault_of (λ r. r) result (ended (r, rest)) }
    // Which fault it is.
    ensures exact { GivesUnless fault_of (λ r. r) result (record_at bytes.now) }
{
    read_file(alloc, form_of(bytes), bytes)
}

/// The form in which the bytes begin; what begins in neither is no file of the newer form either.
fn form_of(bytes: &[u8]) -> RecordForm
    ensures { result ≡ form_of bytes.now }
{
    if bytes.starts_with(b"XLR1") {
        RecordForm::Unmarked
    } else {
        RecordForm::Marked
    }
}

fn most_bytes_of(form: RecordForm) -> usize
    ensures { result ≡ most_bytes_of form }
{
    match form {
        RecordForm::Unmarked => MOST_UNMARKED_BYTES,
        RecordForm::Marked => MOST_RECORD_BYTES,
    }
}

#[tactic(auto, unfolding(crate::specs::RecordFile::file_at))]
fn read_file(alloc: Global, form: RecordForm, bytes: &[u8]) -> Result<Record, RecordBad>
    ensures { GivesUnless fault_of (λ r. r) result (file_at form bytes.now) }
{
    if bytes.len() > most_bytes_of(form) {
        return Err(RecordBad::Long(bytes.len() as u64));
    }
    let rest = read_magic(form, bytes)?;
    let (epoch, rest) = read_u32(rest)?;
    let (count, rest) = read_u32(rest)?;
    let (stable, rest) = read_names(alloc, form, epoch, count, rest)?;
    if rest.is_empty() {
        Ok(stable)
    } else {
        Err(RecordBad::Extra)
    }
}

#[tactic(auto, using(crate::proofs::RecordFileLaws::told, crate::proofs::RecordFileLaws::goes_on, crate::proofs::RecordFileLaws::fails, crate::proofs::RecordFileLaws::refuses, crate::proofs::RecordFileLaws::is_done))]
fn read_names(
    alloc: Global,
    form: RecordForm,
    epoch: u32,
    count: u32,
    bytes: &[u8],
) -> Result<(Record, &[u8]), RecordBad>
    ensures { GivesUnless fault_of (λ x. (x.0, x.1.now)) result (names_at form count (record { epoch = epoch; names = [] }) bytes.now) }
{
    let mut stable = Record::new(alloc);
    stable.set_epoch(epoch);
    let mut rest = bytes;
    'names: for _ in 0..count {
        let (protocol, text, mark, behind) = read_name(form, rest)?;
        let name = Sequence::from_slice(alloc, text)?;
        add_read(
            &mut stable,
            Recorded {
                protocol,
                name,
                mark,
            },
        )?;
        rest = behind;
    }
    Ok((stable, rest))
}

/// Adds a name that was read; Twice if it is there already.
fn add_read(stable: &mut Record, name: Recorded) -> Result<(), RecordBad>
    requires { is_recordable name ≡ true }
    ensures { GivesUnless fault_of (λ _. stable.new) result (if is_recorded name stable.old.names then Err Twice else Ok (added name stable.old)) }
{
    match stable.add(name) {
        Ok(()) => Ok(()),
        Err(RecordNameError::NoMemory) => Err(RecordBad::NoMemory),
        Err(RecordNameError::Unfit | RecordNameError::Twice) => Err(RecordBad::Twice),
    }
}

#[tactic(auto, unfolding(crate::specs::RecordFile::name_at))]
fn read_name(
    form: RecordForm,
    bytes: &[u8],
) -> Result<(Protocol, &[u8], Option<Mark>, &[u8]), RecordBad>
    ensures read { Gives (λ x. (record { protocol = x.0; name = x.1.now; mark = x.2 }, x.3.now)) result (name_at form bytes.now) }
    ensures recordable { IfOk result (λ x. is_recordable (record { protocol = x.0; name = x.1.now; mark = x.2 }) ≡ true) }
{
    let (protocol, rest) = read_protocol(bytes)?;
    let (text, rest) = read_text(rest)?;
    let (mark, rest) = read_mark(form, protocol, rest)?;
    Ok((protocol, text, mark, rest))
}

#[tactic(auto, unfolding(crate::specs::RecordFile::mark_at))]
fn read_mark(
    form: RecordForm,
    protocol: Protocol,
    bytes: &[u8],
) -> Result<(Option<Mark>, &[u8]), RecordBad>
    ensures read { Gives (λ x. (x.0, x.1.now)) result (mark_at form protocol bytes.now) }
    ensures fits { IfOk result (λ x. is_mark_of protocol x.0 ≡ true) }
{
    match form {
        RecordForm::Unmarked => Ok((None, bytes)),
        RecordForm::Marked => read_kept_mark(protocol, bytes),
    }
}

#[tactic(auto, unfolding(crate::specs::RecordFile::mark_at))]
fn read_kept_mark(protocol: Protocol, bytes: &[u8]) -> Result<(Option<Mark>, &[u8]), RecordBad>
    ensures read { Gives (λ x. (x.0, x.1.now)) result (mark_at Marked protocol bytes.now) }
    ensures fits { IfOk result (λ x. is_mark_of protocol x.0 ≡ true) }
{
    match bytes {
        [] => Err(RecordBad::Cut),
        [0, rest @ ..] => Ok((None, rest)),
        [length, rest @ ..] => match protocol {
            Protocol::Nfs => read_verifier(*length, rest),
            Protocol::Nlm => read_state(*length, rest),
            Protocol::Smb => Err(RecordBad::Mark(*length)),
        },
    }
}

#[tactic(auto, unfolding(crate::specs::RecordFile::mark_at))]
fn read_verifier(length: u8, bytes: &[u8]) -> Result<(Option<Mark>, &[u8]), RecordBad>
    requires { 0 < length }
    ensures read { Gives (λ x. (x.0, x.1.now)) result (mark_at Marked Nfs (length ∷ bytes.now)) }
    ensures fits { IfOk result (λ x. is_mark_of Nfs x.0 ≡ true) }
{
    if length != 8 {
        return Err(RecordBad::Mark(length));
    }
    match bytes.split_first_chunk::<8>() {
        Some((front, rest)) => Ok((Some(Mark::Verifier(*front)), rest)),
        None => Err(RecordBad::Cut),
    }
}

#[tactic(auto, unfolding(crate::specs::RecordFile::mark_at))]
fn read_state(length: u8, bytes: &[u8]) -> Result<(Option<Mark>, &[u8]), RecordBad>
    requires { 0 < length }
    ensures read { Gives (λ x. (x.0, x.1.now)) result (mark_at Marked Nlm (length ∷ bytes.now)) }
    ensures fits { IfOk result (λ x. is_mark_of Nlm x.0 ≡ true) }
{
    if length != 4 {
        return Err(RecordBad::Mark(length));
    }
    match bytes.split_first_chunk::<4>() {
        Some((front, rest)) => Ok((Some(Mark::State(*front)), rest)),
        None => Err(RecordBad::Cut),
    }
}

fn read_text(bytes: &[u8]) -> Result<(&[u8], &[u8]), RecordBad>
    ensures { Gives (λ x. (x.0.now, x.1.now)) result (text_at bytes.now) }
{
    let (length, rest) = read_u16(bytes)?;
    let length = usize::from(length);
    if rest.len() < length {
        return Err(RecordBad::Cut);
    }
    Ok(rest.split_at(length))
}

fn read_protocol(bytes: &[u8]) -> Result<(Protocol, &[u8]), RecordBad>
    ensures read { Gives (λ x. (x.0, x.1.now)) result (protocol_at bytes.now) }
    ensures reclaims { IfOk result (λ x. is_reclaiming x.0 ≡ true) }
{
    match bytes {
        [] => Err(RecordBad::Cut),
        [1, rest @ ..] => Ok((Protocol::Nfs, rest)),
        [2, rest @ ..] => Ok((Protocol::Nlm, rest)),
        [kind, ..] => Err(RecordBad::Kind(*kind)),
    }
}

fn read_magic(form: RecordForm, bytes: &[u8]) -> Result<&[u8], RecordBad>
    ensures { Gives (λ rest. (magic_of form, rest.now)) result (magic_at form bytes.now) }
{
    match form {
        RecordForm::Unmarked => read_older_magic(bytes),
        RecordForm::Marked => read_newer_magic(bytes),
    }
}

fn read_older_magic(bytes: &[u8]) -> Result<&[u8], RecordBad>
    ensures { Gives (λ rest. (codes "XLR1", rest.now)) result (magic_at Unmarked bytes.now) }
{
    match bytes {
        [b'X', b'L', b'R', b'1', rest @ ..] => Ok(rest),
        _ => Err(RecordBad::Magic),
    }
}

fn read_newer_magic(bytes: &[u8]) -> Result<&[u8], RecordBad>
    ensures { Gives (λ rest. (codes "XLR2", rest.now)) result (magic_at Marked bytes.now) }
{
    match bytes {
        [b'X', b'L', b'R', b'2', rest @ ..] => Ok(rest),
        _ => Err(RecordBad::Magic),
    }
}

fn read_u16(bytes: &[u8]) -> Result<(u16, &[u8]), RecordBad>
    ensures { Gives (λ x. (x.0, x.1.now)) result (big_endian_at Cut w16 bytes.now) }
{
    if bytes.len() < 2 {
        return Err(RecordBad::Cut);
    }
    let (front, rest) = bytes.split_at(2);
    Ok((u16::from_be_bytes([front[0], front[1]]), rest))
}

fn read_u32(bytes: &[u8]) -> Result<(u32, &[u8]), RecordBad>
    ensures { Gives (λ x. (x.0, x.1.now)) result (big_endian_at Cut w32 bytes.now) }
{
    if bytes.len() < 4 {
        return Err(RecordBad::Cut);
    }
    let (front, rest) = bytes.split_at(4);
    let number = u32::from_be_bytes([front[0], front[1], front[2], front[3]]);
    Ok((number, rest))
}

// ---- writing

/// The record file of a record. It has to have one, as `has_file` says.
#[tactic(auto, using(crate::proofs::RecordFileLaws::read_again))]
pub fn record_bytes(alloc: Global, stable: &Record) -> Result<Vec<u8>, AllocError>
    requires { HasFile stable.now }
    ensures bytes { IfOk result (λ v. v.items ≡ record_text stable.now) }
    // From its file the record is read again.
    ensures again { IfOk result (λ v. record_at v.items ≡ Ok stable.now) }
{
    write_file(alloc, stable.epoch(), stable.names())
}

#[tactic(auto, using(crate::proofs::RecordFileLaws::few_names, crate::proofs::RecordFileLaws::all_short, crate::proofs::RecordFileLaws::head_length), unfolding(crate::specs::Codec::big_endian, crate::specs::RecordFile::file_text))]
fn write_file(alloc: Global, epoch: u32, names: &[Recorded]) -> Result<Vec<u8>, AllocError>
    requires { HasFile (record { epoch = epoch; names = names.now }) }
    ensures { IfOk result (λ v. v.items ≡ record_text (record { epoch = epoch; names = names.now })) }
{
    let count = names.len() as u32;
    let mut bytes = Vec::from_slice(alloc, b"XLR2")?;
    bytes.extend_from_slice(&epoch.to_be_bytes())?;
    bytes.extend_from_slice(&count.to_be_bytes())?;
    put_names(&mut bytes, names)?;
    Ok(bytes)
}

fn put_names(out: &mut Vec<u8>, names: &[Recorded]) -> Result<(), AllocError>
    requires { AllByRecursion (λ n. length n.name < 2 ^ 16) names.now }
    ensures { OnOk result (out.new.items ≡ out.old.items ++ names_text Marked names.now) }
{
    'names: for name in names {
        put_name(out, name)?;
    }
    Ok(())
}

#[tactic(auto, unfolding(crate::specs::RecordFile::name_text))]
fn put_name(out: &mut Vec<u8>, name: &Recorded) -> Result<(), AllocError>
    requires { length name.now.name < 2 ^ 16 }
    ensures { OnOk result (out.new.items ≡ out.old.items ++ name_text Marked name.now) }
{
    let length = name.name.len() as u16;
    out.push(kind_byte(name.protocol))?;
    out.extend_from_slice(&length.to_be_bytes())?;
    out.extend_from_slice(name.name.as_slice())?;
    put_mark(out, &name.mark)?;
    Ok(())
}

fn put_mark(out: &mut Vec<u8>, mark: &Option<Mark>) -> Result<(), AllocError>
    ensures { OnOk result (out.new.items ≡ out.old.items ++ mark_text Marked mark.now) }
{
    match mark {
        None => out.push(0)?,
        Some(mark) => put_bytes(out, mark.as_bytes())?,
    }
    Ok(())
}

fn put_bytes(out: &mut Vec<u8>, bytes: &[u8]) -> Result<(), AllocError>
    requires { length bytes.now ≤ 8 }
    ensures { OnOk result (out.new.items ≡ out.old.items ++ (length bytes.now ∷ bytes.now)) }
{
    out.push(bytes.len() as u8)?;
    out.extend_from_slice(bytes)?;
    Ok(())
}

fn kind_byte(protocol: Protocol) -> u8
    ensures { result ≡ kind_of protocol }
{
    match protocol {
        Protocol::Nfs => 1,
        Protocol::Nlm => 2,
        // No SMB client is recorded.
        Protocol::Smb => 0,
    }
}

/// How many bytes a name takes in a record file, with its mark; the count stops at 2^64 - 1.
#[tactic(auto, using(crate::proofs::RecordFileLaws::name_length))]
pub fn name_length(name: &Recorded) -> u64
    ensures { result ≡ min (length (name_text Marked name.now)) (2 ^ 64 - 1) }
{
    3u64.saturating_add(name.name.len() as u64)
        .saturating_add(mark_length(&name.mark))
}

fn mark_length(mark: &Option<Mark>) -> u64
    ensures { result ≡ length (mark_text Marked mark.now) }
{
    match mark {
        None => 1,
        Some(mark) => 1 + mark.as_bytes().len() as u64,
    }
}

/// How many bytes the file of a record has, or would have if it weren't too long; the count stops at 2^64 - 1.
#[tactic(auto, using(crate::proofs::RecordFileLaws::length_whole))]
pub fn record_length(stable: &Record) -> u64
    ensures { result ≡ min (length (record_text stable.now)) (2 ^ 64 - 1) }
{
    12u64.saturating_add(names_length(stable.names()))
}

/// How many bytes these names take in a record file, with their marks; the count stops at 2^64 - 1.
fn names_length(names: &[Recorded]) -> u64
    ensures { result ≡ min (length (names_text Marked names.now)) (2 ^ 64 - 1) }
{
    let mut length = 0u64;
    'names: for name in names {
        length = length.saturating_add(name_length(name));
    }
    length
}

/// How many bytes the file of a record would have with this name in it, in its place or behind the others; the count stops at
/// 2^64 - 1.
pub fn length_with(stable: &Record, name: &Recorded) -> u64
    ensures { result ≡ min (length (record_text (with_name name.now stable.now))) (2 ^ 64 - 1) }
{
    let names = stable.names();
    match place_of(names, name) {
        Some(place) => {
            let others = names_length(&names[..place]).saturating_add(names_length(
                &names[place + 1..],
            ));
            12u64
                .saturating_add(others)
                .saturating_add(name_length(name))
        }
        None => record_length(stable).saturating_add(name_length(name)),
    }
}

/// Whether a record has a file: of at most `MOST_RECORD_BYTES` bytes, with names of at most 65,535 bytes.
pub fn has_file(stable: &Record) -> bool
    ensures { IsTrue result ↔ HasFile stable.now }
{
    record_length(stable) <= MOST_RECORD_BYTES as u64 && are_short(stable.names())
}

fn are_short(names: &[Recorded]) -> bool
    ensures { result ≡ are_short names.now }
{
    names.iter().all(|name| name.name.len() < 65_536)
}
