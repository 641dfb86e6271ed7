//! Numbers and bytes at places, and their writing. Numbers are little-endian.
ghost use Rattle.std.specs.Prelude.{◌≡◌, ◌+◌, ◌≤◌, ◌++◌, length, map, OnOk};
ghost use Rattle.std.specs.Int.{w16, w32, w64};
ghost use Rattle.xl_base.specs.Codec.{little_endian};
ghost use Rattle.xl_layout.specs.Places.{joined, bytes_at, u16_at, u32_at, u64_at};

use std::alloc::AllocError;

/// The bytes at a place.
pub fn bytes_at<const N: usize>(bytes: &[u8], place: usize) -> [u8; N]
    requires { place + N ≤ length bytes.now }
    ensures { result ≡ bytes_at N place bytes.now }
{
    let (front, _) = bytes[place..].split_first_chunk::<N>().unwrap();
    *front
}

/// The number of two bytes at a place.
#[tactic(auto, unfolding(crate::specs::Places::u16_at))]
pub fn u16_at(bytes: &[u8], place: usize) -> u16
    requires { place + 2 ≤ length bytes.now }
    ensures { result ≡ u16_at place bytes.now }
{
    u16::from_le_bytes(bytes_at(bytes, place))
}

/// The number of four bytes at a place.
#[tactic(auto, unfolding(crate::specs::Places::u32_at))]
pub fn u32_at(bytes: &[u8], place: usize) -> u32
    requires { place + 4 ≤ length bytes.now }
    ensures { result ≡ u32_at place bytes.now }
{
    u32::from_le_bytes(bytes_at(bytes, place))
}

/// The number of eight bytes at a place.
#[tactic(auto, unfolding(crate::specs::Places::u64_at))]
pub fn u64_at(bytes: &[u8], place: usize) -> u64
    requires { place + 8 ≤ length bytes.now }
    ensures { result ≡ u64_at place bytes.now }
{
    u64::from_le_bytes(bytes_at(bytes, place))
}

/// A number in two bytes.
#[tactic(auto, unfolding(xl_base::specs::Codec::little_endian))]
pub fn u16_bytes(number: u16) -> [u8; 2]
    ensures { result ≡ little_endian w16 number }
{
    number.to_le_bytes()
}

/// A number in four bytes.
#[tactic(auto, unfolding(xl_base::specs::Codec::little_endian))]
pub fn u32_bytes(number: u32) -> [u8; 4]
    ensures { result ≡ little_endian w32 number }
{
    number.to_le_bytes()
}

/// A number in eight bytes.
#[tactic(auto, unfolding(xl_base::specs::Codec::little_endian))]
pub fn u64_bytes(number: u64) -> [u8; 8]
    ensures { result ≡ little_endian w64 number }
{
    number.to_le_bytes()
}

/// Writes the texts, one behind the other.
#[tactic(auto, using(crate::proofs::PlaceLaws::joined_more))]
pub fn put_all(out: &mut Vec<u8>, texts: &[&[u8]]) -> Result<(), AllocError>
    ensures { OnOk result (out.new.items ≡ out.old.items ++ joined (map (λ text. text.now) texts.now)) }
{
    'texts: for text in texts {
        out.extend_from_slice(text)?;
    }
    Ok(())
}
