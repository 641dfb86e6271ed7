//! The size with which a body begins, its fixed part, and the parts that it names.
ghost use Rattle.std.specs.Prelude.{◌≡◌, ◌+◌, ◌≤◌, true, false, length, OnOk, IfOk, IfErr};
ghost use Rattle.xl_layout.specs.Places.{bytes_at, u16_at, lies};
ghost use Rattle.xl_layout.specs.Forms.{size_found, has_fixed};

use crate::fault::SmbBad;
use xl_layout::u16_at;

/// The size with which a body begins, 0 if its two bytes are cut.
#[tactic(auto, unfolding(xl_layout::specs::Forms::size_found))]
pub(crate) fn size_found(body: &[u8]) -> u16
    ensures { result ≡ size_found body.now }
{
    if body.len() < 2 { 0 } else { u16_at(body, 0) }
}

/// Sees that a body begins with this size and that its fixed part, of so many bytes, is whole.
#[tactic(auto, unfolding(xl_layout::specs::Forms::has_fixed))]
pub(crate) fn check_fixed(command: u16, size: u16, fixed: usize, body: &[u8]) -> Result<(), SmbBad>
    ensures ok { OnOk result ((has_fixed size fixed body.now ≡ true) × (fixed ≤ length body.now)) }
    ensures err { IfErr result (λ e. (has_fixed size fixed body.now ≡ false) × (e ≡ SmbBad.Size command (size_found body.now))) }
{
    let found = size_found(body);
    if found != size || body.len() < fixed {
        return Err(SmbBad::Size(command, found));
    }
    Ok(())
}

/// The part of so many bytes at a place of the frame. A part of no bytes leaves no frame.
#[tactic(auto, unfolding(xl_layout::specs::Places::lies))]
pub(crate) fn part_at(frame: &[u8], start: u32, count: u32) -> Result<&[u8], SmbBad>
    ensures ok { IfOk result (λ part. (lies start count frame.now ≡ true) × (part.now ≡ bytes_at count start frame.now)) }
    ensures err { IfErr result (λ e. (lies start count frame.now ≡ false) × (e ≡ SmbBad.Offset)) }
{
    if count == 0 {
        return Ok(&frame[..0]);
    }
    let start = start as usize;
    let count = count as usize;
    if frame.len() < start + count {
        return Err(SmbBad::Offset);
    }
    Ok(&frame[start..start + count])
}

/// The part whose offset and length stand, in two bytes each, at a place of the body.
pub(crate) fn buffer_at<'a>(frame: &'a [u8], body: &[u8], place: usize) -> Result<&'a [u8], SmbBad>
    requires { place + 4 ≤ length body.now }
    ensures ok { IfOk result (λ part. (lies (u16_at place body.now) (u16_at (place + 2) body.now) frame.now ≡ true) × (part.now ≡ bytes_at (u16_at (place + 2) body.now) (u16_at place body.now) frame.now)) }
    ensures err { IfErr result (λ e. (lies (u16_at place body.now) (u16_at (place + 2) body.now) frame.now ≡ false) × (e ≡ SmbBad.Offset)) }
{
    let start = u16_at(body, place);
    let count = u16_at(body, place + 2);
    part_at(frame, u32::from(start), u32::from(count))
}
