//! File handles: eight bytes, the mark `XLK1` and the file's number.
ghost use Rattle.std.specs.Prelude.{◌≡◌, ℕ, ◌<◌, ◌^◌, Some, None, IfSome};
ghost use Rattle.xl_base.specs.Handles.{handle, file_at};

/// The handle of a file by its number, which counts from 1; 0 is the root of the one directory.
pub fn handle_of(file: u32) -> [u8; 8]
    ensures { result ≡ handle file }
{
    let [a, b, c, d] = file.to_be_bytes();
    [b'X', b'L', b'K', b'1', a, b, c, d]
}

#[tactic(auto, unfolding(crate::specs::Handles::file_at))]
/// The file's number in a handle, or None if the bytes are no handle of this server.
pub fn file_of(bytes: &[u8]) -> Option<u32>
    ensures found { IfSome result (λ file. bytes.now ≡ handle file) }
    ensures only { (file : ℕ) → file < 2 ^ 32 → bytes.now ≡ handle file → result ≡ Some file }
    ensures exact { result ≡ file_at bytes.now }
{
    match bytes {
        [b'X', b'L', b'K', b'1', a, b, c, d] => Some(u32::from_be_bytes([*a, *b, *c, *d])),
        _ => None,
    }
}
