//! The files that are held in memory.
ghost use Rattle.std.specs.Prelude.{◌≡◌, ◌≢◌, ℕ, ◌<◌, List, [], Some, None, length, take, drop, min, position, nat_eq};
ghost use Rattle.std.specs.Prelude.{IfSome, IfNone, OnOk, OnErr};
ghost use Rattle.std.specs.Cmp.Lexicographic.{pointwise};
ghost use Rattle.xg_memory.specs.Stored.{stored_bytes_of, stored_bytes_at, sure_bytes_of, sure_bytes_at};

use std::alloc::AllocError;

/// A file in memory.
#[derive(Drop)]
pub(crate) struct Stored {
    name: Vec<u8>,
    bytes: Vec<u8>,
}

/// Adds a file, in place of one with that name.
pub(crate) fn store(files: &mut Vec<Stored>, name: &str, bytes: &[u8]) -> Result<(), AllocError>
    ensures stored { OnOk result (stored_bytes_of files.new.items name.now ≡ Some bytes.now) }
    ensures others { OnOk result ((other : List ℕ) → other ≢ name.now
        → stored_bytes_of files.new.items other ≡ stored_bytes_of files.old.items other) }
    ensures same { OnErr result (files.new.items ≡ files.old.items) }
{
    let alloc = *files.allocator();
    let stored = Stored {
        name: Vec::from_slice(alloc, name.as_bytes())?,
        bytes: Vec::from_slice(alloc, bytes)?,
    };
    files.insert(0, stored)?;
    Ok(())
}

/// The place of the first file of a name.
pub(crate) fn find_file(files: &[Stored], name: &[u8]) -> Option<usize>
    ensures found { IfSome result (λ place. stored_bytes_of files.now name.now ≡ stored_bytes_at files.now place) }
    ensures within { IfSome result (λ place. place < length files.now) }
    ensures absent { IfNone result (stored_bytes_of files.now name.now ≡ None) }
{
    position_of(files, name)
}

fn position_of(files: &[Stored], name: &[u8]) -> Option<usize>
    ensures { result ≡ position (λ file. pointwise nat_eq file.name.items name.now) files.now }
{
    files.iter().position(|file| file.name.as_slice() == name)
}

/// The place of the first file of a name, and one past all files where there is none.
pub(crate) fn place_of(files: &[Stored], name: &[u8]) -> usize
    ensures { sure_bytes_at files.now result ≡ sure_bytes_of files.now name.now }
{
    match find_file(files, name) {
        Some(place) => place,
        None => files.len(),
    }
}

/// The bytes of the file at a place.
pub(crate) fn bytes_of_file(files: &[Stored], place: usize) -> &[u8]
    requires { place < length files.now }
    ensures { stored_bytes_at files.now place ≡ Some result.now }
{
    files[place].bytes.as_slice()
}

/// The bytes of the file at a place, and none where there is no file.
pub(crate) fn bytes_at(files: &[Stored], place: usize) -> &[u8]
    ensures { result.now ≡ sure_bytes_at files.now place }
{
    if place < files.len() {
        return bytes_of_file(files, place);
    }
    &[]
}

/// What is left of the bytes behind so many.
pub(crate) fn from_place(bytes: &[u8], taken: usize) -> &[u8]
    ensures { result.now ≡ drop taken bytes.now }
{
    if taken >= bytes.len() {
        return &[];
    }
    &bytes[taken..]
}

/// Copies what fits of the bytes, and says how many that are.
pub(crate) fn copy_front(rest: &[u8], into: &mut [u8]) -> usize
    ensures count { result ≡ min (length into.old) (length rest.now) }
    ensures copied { take result into.new ≡ take result rest.now }
{
    let n = into.len().min(rest.len());
    into[..n].copy_from_slice(&rest[..n]);
    n
}
