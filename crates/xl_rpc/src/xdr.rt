//! A reader of XDR items (RFC 4506).
ghost use Rattle.std.specs.Prelude.{◌≡◌, ◌+◌, ◌%◌, ◌<◌, ◌==◌, length, drop};
ghost use Rattle.std.specs.List.{list_all};
ghost use Rattle.xl_base.specs.Codec.{Advances, IsBytes};
ghost use Rattle.xl_base.specs.Results.{Gives};
ghost use Rattle.xl_rpc.specs.Xdr.{unsigned_at, hyper_at, signed_at, boolean_at, opaque_fixed_at, opaque_at, words_at, pad};

use crate::fault::RpcBad;

/// A reader of the items at the front of bytes. After a fault it stands where it stood. It is copied, and has no model
/// (PROOF-5).
#[derive(Clone, Copy)]
pub struct Xdr<'a> {
    rest: &'a [u8],
    pub ghost bytes: { IsBytes rest.now },
}

impl<'a> Xdr<'a> {
    /// A reader of these bytes from their front.
    pub fn new(bytes: &'a [u8]) -> Xdr<'a>
        ensures { result.rest.now ≡ bytes.now }
    {
        Xdr { rest: bytes }
    }

    /// The bytes that are not read yet.
    pub fn left(&self) -> &'a [u8]
        ensures { result.now ≡ self.now.rest.now }
    {
        self.rest
    }

    /// An unsigned integer (RFC 4506 4.2). Short if fewer than four bytes are left.
    pub fn u32(&mut self) -> Result<u32, RpcBad>
        ensures { Advances (λ n. n) result self.old.rest.now self.new.rest.now (unsigned_at self.old.rest.now) }
    {
        let (number, rest) = u32_of(self.rest)?;
        *self = Xdr::new(rest);
        Ok(number)
    }

    /// An unsigned hyper integer (RFC 4506 4.5). Short if fewer than eight bytes are left.
    pub fn u64(&mut self) -> Result<u64, RpcBad>
        ensures { Advances (λ n. n) result self.old.rest.now self.new.rest.now (hyper_at self.old.rest.now) }
    {
        let (number, rest) = u64_of(self.rest)?;
        *self = Xdr::new(rest);
        Ok(number)
    }

    /// An integer (RFC 4506 4.1). Short if fewer than four bytes are left.
    pub fn i32(&mut self) -> Result<i32, RpcBad>
        ensures { Advances (λ z. z) result self.old.rest.now self.new.rest.now (signed_at self.old.rest.now) }
    {
        let (number, rest) = i32_of(self.rest)?;
        *self = Xdr::new(rest);
        Ok(number)
    }

    /// A bool (RFC 4506 4.4). Short if fewer than four bytes are left, Bool if they are another number than 0
    /// and 1.
    pub fn boolean(&mut self) -> Result<bool, RpcBad>
        ensures { Advances (λ b. b) result self.old.rest.now self.new.rest.now (boolean_at self.old.rest.now) }
    {
        let (flag, rest) = boolean_of(self.rest)?;
        *self = Xdr::new(rest);
        Ok(flag)
    }

    /// Opaque data or a string of at most `max` bytes (RFC 4506 4.10, 4.11). Short if the length, the data or the
    /// padding is cut, TooLong if the length is above `max`, Pad if the padding is not zero.
    pub fn opaque(&mut self, max: u32) -> Result<&'a [u8], RpcBad>
        ensures { Advances (λ s. s.now) result self.old.rest.now self.new.rest.now (opaque_at max self.old.rest.now) }
    {
        let (bytes, rest) = opaque_of(max, self.rest)?;
        *self = Xdr::new(rest);
        Ok(bytes)
    }

    /// Opaque data of just `n` bytes (RFC 4506 4.9). Short if the data or the padding is cut, Pad if the padding
    /// is not zero.
    pub fn fixed(&mut self, n: u32) -> Result<&'a [u8], RpcBad>
        ensures { Advances (λ s. s.now) result self.old.rest.now self.new.rest.now (opaque_fixed_at n self.old.rest.now) }
    {
        let (bytes, rest) = fixed_of(n, self.rest)?;
        *self = Xdr::new(rest);
        Ok(bytes)
    }

    /// An array of unsigned integers (RFC 4506 4.13), as the bytes of its words. Short if the count or a word is cut.
    pub fn words(&mut self) -> Result<&'a [u8], RpcBad>
        ensures { Advances (λ s. s.now) result self.old.rest.now self.new.rest.now (words_at self.old.rest.now) }
    {
        let (bytes, rest) = words_of(self.rest)?;
        *self = Xdr::new(rest);
        Ok(bytes)
    }
}

#[tactic(auto, unfolding(crate::specs::Xdr::unsigned_at))]
fn u32_of(bytes: &[u8]) -> Result<(u32, &[u8]), RpcBad>
    ensures { Gives (λ x. (x.0, x.1.now)) result (unsigned_at bytes.now) }
{
    if bytes.len() < 4 {
        return Err(RpcBad::Short);
    }
    let (front, rest) = bytes.split_at(4);
    let number = u32::from_be_bytes([front[0], front[1], front[2], front[3]]);
    Ok((number, rest))
}

#[tactic(auto, unfolding(crate::specs::Xdr::hyper_at))]
fn u64_of(bytes: &[u8]) -> Result<(u64, &[u8]), RpcBad>
    ensures { Gives (λ x. (x.0, x.1.now)) result (hyper_at bytes.now) }
{
    if bytes.len() < 8 {
        return Err(RpcBad::Short);
    }
    let (front, rest) = bytes.split_at(8);
    let number = u64::from_be_bytes([
        front[0], front[1], front[2], front[3], front[4], front[5], front[6], front[7],
    ]);
    Ok((number, rest))
}

#[tactic(auto, unfolding(crate::specs::Xdr::signed_at))]
fn i32_of(bytes: &[u8]) -> Result<(i32, &[u8]), RpcBad>
    ensures { Gives (λ x. (x.0, x.1.now)) result (signed_at bytes.now) }
{
    let (number, rest) = u32_of(bytes)?;
    Ok((number.cast_signed(), rest))
}

#[tactic(auto, unfolding(crate::specs::Xdr::boolean_at))]
fn boolean_of(bytes: &[u8]) -> Result<(bool, &[u8]), RpcBad>
    ensures { Gives (λ x. (x.0, x.1.now)) result (boolean_at bytes.now) }
{
    let (number, rest) = u32_of(bytes)?;
    if number < 2 {
        Ok((number == 1, rest))
    } else {
        Err(RpcBad::Bool)
    }
}

#[tactic(auto, unfolding(crate::specs::Xdr::opaque_fixed_at))]
fn fixed_of(n: u32, bytes: &[u8]) -> Result<(&[u8], &[u8]), RpcBad>
    ensures { Gives (λ x. (x.0.now, x.1.now)) result (opaque_fixed_at n bytes.now) }
{
    let count = n as usize;
    let whole = count + padding(count);
    if bytes.len() < whole {
        return Err(RpcBad::Short);
    }
    let (units, rest) = bytes.split_at(whole);
    let (data, zeros) = units.split_at(count);
    if is_zero(zeros) {
        Ok((data, rest))
    } else {
        Err(RpcBad::Pad)
    }
}

#[tactic(auto, unfolding(crate::specs::Xdr::opaque_at))]
fn opaque_of(max: u32, bytes: &[u8]) -> Result<(&[u8], &[u8]), RpcBad>
    ensures { Gives (λ x. (x.0.now, x.1.now)) result (opaque_at max bytes.now) }
{
    let (n, rest) = u32_of(bytes)?;
    if n <= max {
        fixed_of(n, rest)
    } else {
        Err(RpcBad::TooLong)
    }
}

#[tactic(auto, unfolding(crate::specs::Xdr::words_at))]
fn words_of(bytes: &[u8]) -> Result<(&[u8], &[u8]), RpcBad>
    ensures { Gives (λ x. (x.0.now, x.1.now)) result (words_at bytes.now) }
{
    let (count, rest) = u32_of(bytes)?;
    let whole = count as usize * 4;
    if rest.len() < whole {
        return Err(RpcBad::Short);
    }
    Ok(rest.split_at(whole))
}

/// How many zero bytes fill so many bytes to whole units of four.
#[tactic(auto, unfolding(crate::specs::Xdr::pad))]
pub(crate) fn padding(count: usize) -> usize
    ensures value { result ≡ pad count }
    ensures below { result < 4 }
{
    (4 - count % 4) % 4
}

fn is_zero(bytes: &[u8]) -> bool
    ensures { result ≡ list_all (λ b. b == 0) bytes.now }
{
    bytes.iter().all(|b| *b == 0)
}
