//! Files that are exported, by name.
ghost use Rattle.std.specs.Prelude.{◌≡◌, bytes_eq, position};
ghost use Rattle.xl_nfs_opens.specs.Files.{file_number, file_named};

use xl_base::Sequence;

/// The root as the current handle.
pub const ROOT: u32 = 0;

/// The place of the first file of this name.
fn place_of(files: &[Sequence<u8>], name: &[u8]) -> Option<usize>
    ensures { result ≡ position (bytes_eq name.now) files.now }
{
    files.iter().position(|file| name == file.as_slice())
}

/// The number of the file at this place.
fn file_number(place: usize) -> Option<u32>
    ensures { result ≡ file_number place }
{
    let before = u32::try_from(place).ok()?;
    before.checked_add(1)
}

/// The number of the first file of this name.
#[tactic(auto, unfolding(crate::specs::Files::file_named))]
pub fn file_named(files: &[Sequence<u8>], name: &[u8]) -> Option<u32>
    ensures { result ≡ file_named files.now name.now }
{
    match place_of(files, name) {
        Some(place) => file_number(place),
        None => None,
    }
}
