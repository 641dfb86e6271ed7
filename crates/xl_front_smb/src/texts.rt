//! Paths and names in UTF-16LE.
ghost use Rattle.std.specs.Prelude.{◌≡◌, position};
ghost use Rattle.xl_front_smb.specs.Texts.{small, is_unit, spells, is_backslash, last_part, is_share, number_at, file_spelled};

use xl_base::Sequence;

/// An ASCII capital made small.
fn small(byte: u8) -> u8
    ensures { result ≡ small byte }
{
    if (65..=90).contains(&byte) {
        byte + 32
    } else {
        byte
    }
}

/// Whether a unit of two bytes is this byte, in any case.
fn is_unit(low: u8, high: u8, byte: u8) -> bool
    ensures { result ≡ is_unit low high byte }
{
    high == 0 && low < 128 && small(low) == byte
}

/// Whether a text in UTF-16LE is this one, of which no letter is a capital.
#[tactic(auto, using(crate::proofs::TextLaws::spells_step))]
fn spells(text: &[u8], name: &[u8]) -> bool
    ensures { result ≡ spells text.now name.now }
{
    let mut rest = text;
    let mut left = name;
    'units: while rest.len() >= 2 && !left.is_empty() {
        if !is_unit(rest[0], rest[1], left[0]) {
            return false;
        }
        rest = rest.split_at(2).1;
        left = left.split_at(1).1;
    }
    rest.is_empty() && left.is_empty()
}

/// Whether a unit of two bytes is a backslash, which parts a path.
fn is_backslash(low: u8, high: u8) -> bool
    ensures { result ≡ is_backslash low high }
{
    low == b'\\' && high == 0
}

/// What stands behind the last backslash of a path.
#[tactic(auto, unfolding(crate::specs::Texts::last_part), using(crate::proofs::TextLaws::part_step, crate::proofs::TextLaws::part_same, crate::proofs::TextLaws::part_end))]
fn last_part(path: &[u8]) -> &[u8]
    ensures { result.now ≡ last_part path.now }
{
    let mut part = path;
    let mut rest = path;
    'units: while rest.len() >= 2 {
        let behind = rest.split_at(2).1;
        if is_backslash(rest[0], rest[1]) {
            part = behind;
        }
        rest = behind;
    }
    part
}

/// Whether a path's last part is the name of the share, `xl` in any case.
#[tactic(auto, unfolding(crate::specs::Texts::is_share))]
pub(crate) fn is_share(path: &[u8]) -> bool
    ensures { result ≡ is_share path.now }
{
    spells(last_part(path), b"xl")
}

/// The place of the first file of this name.
fn place_of(files: &[Sequence<u8>], name: &[u8]) -> Option<usize>
    ensures { result ≡ position (spells name.now) files.now }
{
    files.iter().position(|file| spells(name, file.as_slice()))
}

/// The number of the file at this place.
fn number_at(place: usize) -> Option<u32>
    ensures { result ≡ number_at place }
{
    let before = u32::try_from(place).ok()?;
    before.checked_add(1)
}

/// The number of the first file of this name, in any case, from 1.
#[tactic(auto, unfolding(crate::specs::Texts::file_spelled))]
pub(crate) fn file_spelled(files: &[Sequence<u8>], name: &[u8]) -> Option<u32>
    ensures { result ≡ file_spelled files.now name.now }
{
    match place_of(files, name) {
        Some(place) => number_at(place),
        None => None,
    }
}
