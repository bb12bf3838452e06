// Files by name, read whole.
ghost use Rattle.std.specs.Prelude.{◌≡◌, ◌≤◌, ◌<◌, ◌-◌, ◌^◌, ℕ, Option, Some, None, IsNone, Ok, Err, IsErrOf, IfOk, IfErr, IfSome, IfNone, ◌≢◌, IsTrue, IsSomeAnd, Contains, ◌↔◌, List, length, vec_len, option_map};
ghost use Rattle.outside_edge.specs.Shelf.{ShelfTold, CountsLoad, Loads, bytes_of, fault_at, file_of};
ghost use Rattle.std.specs.IoError.{error_kind};
ghost use Rattle.std.specs.declared.io.ErrorKind.TheVariants.{OutOfMemory};
ghost use Rattle.outside_edge.specs.MemShelf.{files_of, shelf_told, one_load_more};

use std::alloc::Global;
use std::fs::File;
use std::io;
use std::io::Read;
use std::marker::Model;
use std::rt::Files;
use thiserror::Error;

/// Why a load gave no bytes.
#[derive(Debug, Drop, Error)]
pub enum LoadFault {
    /// The name is missing, the file can't be read, or this load is one that fails.
    #[error("the file cannot be read")]
    Failed,
    /// Memory ran out.
    #[error("out of memory")]
    Memory,
}

/// Files that are read whole, by name.
pub trait Shelf {
    /// How many loads have failed: it rises exactly in a load that answers `Failed`. Where it stands at
    /// its type's end a load answers `Memory` in place of `Failed`.
    ghost faults: { Self → ℕ };

    /// The files, how many loads there were, and the numbers, from 1, of those that fail, where the shelf
    /// tells them.
    ghost told: { Self → Option ShelfTold };

    /// The bytes of the file of this name.
    ///
    /// Where the shelf tells its files, `Failed` comes exactly where the name is missing or this load is one
    /// that fails, but for want of memory. The files stay, and each load counts, whatever it answers.
    fn load(&mut self, alloc: Global, name: &str) -> Result<Vec<u8>, LoadFault>
        ensures cause { CountsLoad (faults self.old) (faults self.new) result }
        ensures told { Loads name.now (told self.old) (told self.new) (bytes_of result) };
}

// Counts a fault, where it can.
fn fail(faults: &mut u64) -> LoadFault
    ensures counts { CountsLoad {T = ℕ} faults.old faults.new (Err result) }
    ensures fault { result ≡ fault_at faults.old }
{
    match faults.checked_add(1) {
        Some(more) => {
            *faults = more;
            LoadFault::Failed
        }
        None => LoadFault::Memory,
    }
}

/// Files in memory, with chosen loads that fail. It tells them for its first 2^64 - 1 loads.
#[derive(Drop)]
pub struct MemShelf {
    files: Vec<(String, Vec<u8>)>,
    failing: Vec<u64>,
    // The loads so far, for as long as the type can count them.
    calls: Option<u64>,
    faults: u64,
}

impl Model for MemShelf {
    ghost use Rattle.std.specs.Prelude.{ℕ, List, Option};
    ghost use Rattle.outside_edge.specs.MemShelf.{ShelfSeen, files_of, shelf_told};

    ghost Value = { ShelfSeen };

    ghost view = { λ s. record {
      told = shelf_told (files_of s.files.items) s.calls s.failing.items;
      faults = s.faults;
    } };
}

impl MemShelf {
    /// A shelf of these files, of which the first of each name counts. The loads whose numbers, from 1, are
    /// among `failing` fail.
    pub fn new(files: Vec<(String, Vec<u8>)>, failing: Vec<u64>) -> MemShelf
        ensures told { result.told ≡ shelf_told (files_of files.items) (Some 0) failing.items }
        ensures faults { result.faults ≡ 0 }
    {
        MemShelf {
            files,
            failing,
            calls: Some(0),
            faults: 0,
        }
    }
}

// The bytes of the first file of this name.
fn find<'a>(files: &'a [(String, Vec<u8>)], name: &str) -> Option<&'a [u8]>
    ensures { option_map (λ b. b.now) result ≡ file_of (files_of files.now) name.now }
{
    for file in files {
        if file.0.as_str() == name {
            return Some(file.1.as_slice());
        }
    }
    None
}

// Whether the load of this number is one that fails. One that isn't counted doesn't.
fn is_failing(failing: &[u64], number: Option<u64>) -> bool
    ensures { IsTrue result ↔ IsSomeAnd number (λ n. Contains failing.now n) }
{
    number.is_some_and(|number| failing.contains(&number))
}

impl Shelf for MemShelf {
    ghost faults = { λ s. s.faults };

    ghost told = { λ s. s.told };

    fn load(&mut self, alloc: Global, name: &str) -> Result<Vec<u8>, LoadFault>
        ensures cause { CountsLoad self.old.faults self.new.faults result }
        ensures told { Loads name.now self.old.told self.new.told (bytes_of result) }

        // It goes on to tell for as long as the loads can be counted.
        ensures counted { self.new.told ≡ one_load_more self.old.told }
    {
        self.calls = self.calls.and_then(|calls| calls.checked_add(1));
        if is_failing(self.failing.as_slice(), self.calls) {
            return Err(fail(&mut self.faults));
        }
        match find(self.files.as_slice(), name) {
            Some(bytes) => bytes.to_vec(alloc).map_err(|_| LoadFault::Memory),
            None => Err(fail(&mut self.faults)),
        }
    }
}

/// Files of the system, by path. What they hold is not told.
///
/// A load is `Failed` where the file can't be read or has more than `LONGEST_FILE` bytes, of which it reads
/// one more at most, and `Memory` where memory ran out.
#[derive(Drop)]
pub struct FileShelf<R> {
    rt: R,
    faults: u64,
}

/// The most bytes that a file of a `FileShelf` may have: 256 MiB.
pub const LONGEST_FILE: u64 = 268_435_456;

// Clauses give the number itself, so that they say it whatever the constant is.
const _: () = prove!(LONGEST_FILE == 268_435_456);

impl<R> Model for FileShelf<R> {
    ghost use Rattle.std.specs.Prelude.{ℕ};

    ghost Value = { ℕ };

    ghost view = { λ s. s.faults };
}

impl<R: Files> FileShelf<R> {
    /// The files that this runtime reaches.
    pub fn new(rt: R) -> FileShelf<R>
        ensures { result ≡ 0 }
    {
        FileShelf { rt, faults: 0 }
    }
}

// All that the reader has, or `None` where that is more than `most` bytes. It reads one byte more at
// most.
fn read_up_to<F: Read + Drop>(alloc: Global, reader: F, most: u64) -> io::Result<Option<Vec<u8>>>
    requires { most < 2 ^ 64 - 1 }
    ensures most { IfOk result (λ found. IfSome found (λ bytes. vec_len bytes ≤ most)) }
    ensures whole { IfOk result (λ found. IfSome found (λ bytes.
        IfSome (F.remaining reader) (λ all. bytes.items ≡ all))) }
    ensures longer { IfOk result (λ found. IsNone found →
        IfSome (F.remaining reader) (λ all. most < length all)) }
{
    let mut bytes = Vec::new(alloc);
    reader.take(most + 1).read_to_end(&mut bytes)?;
    if bytes.len() as u64 > most {
        return Ok(None);
    }
    Ok(Some(bytes))
}

// The bytes of a file of the system, or `None` where it has more than `most`.
fn read_file<R: Files>(rt: &R, alloc: Global, name: &str, most: u64) -> io::Result<Option<Vec<u8>>>
    requires { most < 2 ^ 64 - 1 }
    ensures { IfOk result (λ found. IfSome found (λ bytes. vec_len bytes ≤ most)) }
{
    read_up_to(alloc, File::open(rt, name)?, most)
}

// What a load answers to what was read: the bytes, `Memory` where memory ran out, and a fault at a file that is too
// long and at every other error.
fn answer_of(read: io::Result<Option<Vec<u8>>>, faults: &mut u64) -> Result<Vec<u8>, LoadFault>
    ensures counts { CountsLoad faults.old faults.new result }
    ensures bytes { IfOk read (λ found. IfSome found (λ bytes. result ≡ Ok bytes)) }
    ensures long { IfOk read (λ found. IfNone found (result ≡ Err (fault_at faults.old))) }
    ensures memory { IfErr read (λ error. error_kind error ≡ OutOfMemory → result ≡ Err LoadFault.Memory) }
    ensures failed { IfErr read (λ error. error_kind error ≢ OutOfMemory → result ≡ Err (fault_at faults.old)) }
{
    match read {
        Ok(Some(bytes)) => Ok(bytes),
        Ok(None) => Err(fail(faults)),
        Err(error) if error.kind() == io::ErrorKind::OutOfMemory => Err(LoadFault::Memory),
        Err(_) => Err(fail(faults)),
    }
}

impl<R: Files> FileShelf<R> {
    // Loads a file of at most so many bytes.
    fn load_up_to(&mut self, alloc: Global, name: &str, most: u64) -> Result<Vec<u8>, LoadFault>
        requires { most < 2 ^ 64 - 1 }
        ensures cause { CountsLoad self.old self.new result }
        ensures most { IfOk result (λ bytes. vec_len bytes ≤ most) }
    {
        answer_of(read_file(&self.rt, alloc, name, most), &mut self.faults)
    }
}

impl<R: Files> Shelf for FileShelf<R> {
    ghost faults = { λ s. s };

    ghost told = { λ _. None };

    fn load(&mut self, alloc: Global, name: &str) -> Result<Vec<u8>, LoadFault>
        ensures cause { CountsLoad self.old self.new result }
        ensures most { IfOk result (λ bytes. vec_len bytes ≤ 268435456) }
    {
        self.load_up_to(alloc, name, LONGEST_FILE)
    }
}

#[cfg(test)]
mod tests {
    use super::*;
    use std::fs;
    use std::process::Abort;

    // How many bytes a shelf gives of a file of this text, where its files have three bytes at most.
    fn loads_within_three<R: Files>(rt: &R, alloc: Global, text: &str) -> Option<usize> {
        if fs::write(rt, "three", text).is_err() {
            return None;
        }
        match FileShelf::new(rt).load_up_to(alloc, "three", 3) {
            Ok(bytes) => Some(bytes.len()),
            Err(_) => None,
        }
    }

    #[test]
    fn a_file_over_the_limit_fails(rt: HostRuntime) {
        for (text, given) in [
            ("", Some(0)),
            ("abc", Some(3)),
            ("abcd", None),
            ("abcde", None),
        ] {
            assert!(rt;
                loads_within_three(&rt, rt.alloc(), text) == given,
                "{text}"
            );
        }
        assert!(rt; fs::remove_file(&rt, "three").is_ok());
    }
}
