//! A writer of XDR items (RFC 4506).
ghost use Rattle.std.specs.Prelude.{◌≡◌, ◌<◌, ◌≤◌, ◌^◌, [], ◌++◌, length, take, OnOk, OnErr};
ghost use Rattle.xl_rpc.specs.Xdr.{Keeps, WordsFit, unsigned, hyper, signed, boolean, fixed, opaque, words};

use crate::xdr::padding;
use std::alloc::{AllocError, Global};
use std::marker::Model;

/// Writes a message by an expression that writes its items one behind the other: if memory runs out within it, what
/// was written of it is taken back.
#[macro_export]
macro_rules! put_whole {
    ($out:ident; $put:expr) => {{
        let before = $out.len();
        match $put {
            Ok(()) => Ok(()),
            Err(error) => {
                $out.truncate(before);
                Err(error)
            }
        }
    }};
}

/// A writer of items one behind the other. A contract sees the bytes written so far. Want of memory leaves them as
/// they were.
#[derive(Drop)]
pub struct XdrOut {
    bytes: Vec<u8>,
}

impl Model for XdrOut {
    ghost use Rattle.std.specs.Prelude.{List, ℕ};

    ghost Value = { List ℕ };

    ghost view = { λ w. w.bytes.items };
}

impl XdrOut {
    /// A writer with nothing written. It takes no memory.
    pub fn new(alloc: Global) -> XdrOut
        ensures { result ≡ [] }
    {
        XdrOut {
            bytes: Vec::new(alloc),
        }
    }

    /// Another writer with nothing written, which takes its memory from the same allocator. It takes none itself.
    pub fn new_beside(&self) -> XdrOut
        ensures { result ≡ [] }
    {
        XdrOut {
            bytes: Vec::new(*self.bytes.allocator()),
        }
    }

    /// The bytes written so far.
    pub fn as_slice(&self) -> &[u8]
        ensures { result.now ≡ self.now }
    {
        self.bytes.as_slice()
    }

    /// The bytes written. It takes no memory.
    pub fn done(self) -> Vec<u8>
        ensures { result.items ≡ self }
    {
        let XdrOut { bytes } = self;
        bytes
    }

    /// Writes an unsigned integer (RFC 4506 4.2).
    #[tactic(auto, using(crate::proofs::XdrLaws::keeps_front))]
    pub fn u32(&mut self, value: u32) -> Result<(), AllocError>
        ensures ok { OnOk result (self.new ≡ self.old ++ unsigned value) }
        ensures err { OnErr result (self.new ≡ self.old) }
        ensures kept { Keeps self.old self.new }
    {
        put_u32(&mut self.bytes, value)
    }

    /// Writes an unsigned hyper integer (RFC 4506 4.5).
    #[tactic(auto, using(crate::proofs::XdrLaws::keeps_front))]
    pub fn u64(&mut self, value: u64) -> Result<(), AllocError>
        ensures ok { OnOk result (self.new ≡ self.old ++ hyper value) }
        ensures err { OnErr result (self.new ≡ self.old) }
        ensures kept { Keeps self.old self.new }
    {
        put_u64(&mut self.bytes, value)
    }

    /// Writes an integer (RFC 4506 4.1).
    #[tactic(auto, using(crate::proofs::XdrLaws::keeps_front))]
    pub fn i32(&mut self, value: i32) -> Result<(), AllocError>
        ensures ok { OnOk result (self.new ≡ self.old ++ signed value) }
        ensures err { OnErr result (self.new ≡ self.old) }
        ensures kept { Keeps self.old self.new }
    {
        put_u32(&mut self.bytes, value.cast_unsigned())
    }

    /// Writes a bool (RFC 4506 4.4).
    #[tactic(auto, using(crate::proofs::XdrLaws::keeps_front))]
    pub fn boolean(&mut self, value: bool) -> Result<(), AllocError>
        ensures ok { OnOk result (self.new ≡ self.old ++ boolean value) }
        ensures err { OnErr result (self.new ≡ self.old) }
        ensures kept { Keeps self.old self.new }
    {
        put_u32(&mut self.bytes, if value { 1 } else { 0 })
    }

    /// Writes opaque data or a string: its length, the bytes, and zero bytes to whole units of four (RFC 4506 4.10).
    #[tactic(auto, using(crate::proofs::XdrLaws::keeps_front))]
    pub fn opaque(&mut self, value: &[u8]) -> Result<(), AllocError>
        requires { length value.now < 2 ^ 32 }
        ensures ok { OnOk result (self.new ≡ self.old ++ opaque value.now) }
        ensures err { OnErr result (self.new ≡ self.old) }
        ensures kept { Keeps self.old self.new }
    {
        put_opaque(&mut self.bytes, value)
    }

    /// Writes opaque data without its length, and zero bytes to whole units of four (RFC 4506 4.9).
    #[tactic(auto, using(crate::proofs::XdrLaws::keeps_front))]
    pub fn fixed(&mut self, value: &[u8]) -> Result<(), AllocError>
        requires { length value.now < 2 ^ 32 }
        ensures ok { OnOk result (self.new ≡ self.old ++ fixed value.now) }
        ensures err { OnErr result (self.new ≡ self.old) }
        ensures kept { Keeps self.old self.new }
    {
        put_units(&mut self.bytes, &[], value)
    }

    /// Writes an array of unsigned integers (RFC 4506 4.13), given as the bytes of its words: their count, and the words.
    #[tactic(auto, unfolding(crate::specs::Xdr::words, xl_base::specs::Codec::big_endian), using(crate::proofs::XdrLaws::keeps_front, crate::proofs::XdrLaws::fixed_words))]
    pub fn words(&mut self, value: &[u8]) -> Result<(), AllocError>
        requires { WordsFit value.now }
        ensures ok { OnOk result (self.new ≡ self.old ++ words value.now) }
        ensures err { OnErr result (self.new ≡ self.old) }
        ensures kept { Keeps self.old self.new }
    {
        let count = (value.len() / 4) as u32;
        put_units(&mut self.bytes, &count.to_be_bytes(), value)
    }

    /// Writes what another writer wrote, behind what was written before.
    pub fn append(&mut self, written: &XdrOut) -> Result<(), AllocError>
        ensures ok { OnOk result (self.new ≡ self.old ++ written.now) }
        ensures err { OnErr result (self.new ≡ self.old) }
    {
        self.bytes.extend_from_slice(written.as_slice())
    }

    /// Asks for room for so many bytes more, so that memory is taken once. Nothing is written, and no clause tells of the room.
    pub fn reserve(&mut self, bytes: usize) -> Result<(), AllocError>
        ensures { self.new ≡ self.old }
    {
        self.bytes.reserve(bytes)
    }

    /// How many bytes are written so far.
    pub fn len(&self) -> usize
        ensures { result ≡ length self.now }
    {
        self.bytes.len()
    }

    /// Takes back what was written behind so many bytes.
    pub fn truncate(&mut self, len: usize)
        ensures { self.new ≡ take len self.old }
    {
        self.bytes.truncate(len)
    }
}

#[tactic(auto, unfolding(xl_base::specs::Codec::big_endian))]
fn put_u32(bytes: &mut Vec<u8>, value: u32) -> Result<(), AllocError>
    ensures ok { OnOk result (bytes.new.items ≡ bytes.old.items ++ unsigned value) }
    ensures err { OnErr result (bytes.new.items ≡ bytes.old.items) }
{
    bytes.extend_from_slice(&value.to_be_bytes())
}

#[tactic(auto, unfolding(xl_base::specs::Codec::big_endian))]
fn put_u64(bytes: &mut Vec<u8>, value: u64) -> Result<(), AllocError>
    ensures ok { OnOk result (bytes.new.items ≡ bytes.old.items ++ hyper value) }
    ensures err { OnErr result (bytes.new.items ≡ bytes.old.items) }
{
    bytes.extend_from_slice(&value.to_be_bytes())
}

/// Writes the front, and behind it the data with its padding.
#[tactic(auto, unfolding(crate::specs::Xdr::fixed))]
fn put_units(bytes: &mut Vec<u8>, front: &[u8], value: &[u8]) -> Result<(), AllocError>
    requires { length front.now ≤ 4 }
    ensures ok { OnOk result (bytes.new.items ≡ bytes.old.items ++ (front.now ++ fixed value.now)) }
    ensures err { OnErr result (bytes.new.items ≡ bytes.old.items) }
{
    let zeros = padding(value.len());
    bytes.reserve(front.len() + value.len() + zeros)?;
    bytes.extend_from_slice(front)?;
    bytes.extend_from_slice(value)?;
    bytes.extend_from_slice(&[0; 4][..zeros])?;
    Ok(())
}

/// Of nothing the length alone is written.
#[tactic(auto, unfolding(crate::specs::Xdr::opaque, xl_base::specs::Codec::big_endian))]
fn put_opaque(bytes: &mut Vec<u8>, value: &[u8]) -> Result<(), AllocError>
    requires { length value.now < 2 ^ 32 }
    ensures ok { OnOk result (bytes.new.items ≡ bytes.old.items ++ opaque value.now) }
    ensures err { OnErr result (bytes.new.items ≡ bytes.old.items) }
{
    if value.is_empty() {
        return put_u32(bytes, 0);
    }
    put_units(bytes, &(value.len() as u32).to_be_bytes(), value)
}
