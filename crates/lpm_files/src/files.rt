//! Files to read and a writer to write, of any kind.
ghost use Rattle.std.specs.Prelude.{◌≡◌, ◌≢◌, ◌⊎◌, ℕ, ◌≤◌, List, Option, length, take};
ghost use Rattle.std.specs.Prelude.{IfOk, IfErr, IfSome, OnOk, OnErr};
ghost use Rattle.std.specs.declared.io.ErrorKind.TheVariants.{OutOfMemory};
ghost use Rattle.std.specs.Io.KnownBytes.{Appends};
ghost use Rattle.std.specs.IoError.{error_kind};
ghost use Rattle.lpm_files.specs.Inputs.{IsKnownAs};
ghost use Rattle.lpm_files.specs.Output.{Begins};

use crate::failure::Failure;
use std::alloc::Global;
use std::io;
use std::io::{ErrorKind, Read, Write};

/// What gives a reader for a path.
pub trait Files {
    type Reader: Read + Drop;

    // The bytes of the file at a path, where they are known.
    ghost bytes: { Self → List ℕ → Option (List ℕ) };

    /// A reader of the file at the path, of which nothing is read yet. An error of the kind `OutOfMemory`
    /// says that a growth was refused, every other one that the file can't be opened.
    fn open(&self, path: &str) -> io::Result<Self::Reader>
        ensures { IfOk result (λ r. Self.Reader.remaining r ≡ bytes self.now path.now) };
}

/// The bytes of the file at the path. `CannotRead` comes where it can't be opened or a read fails,
/// `Memory` where a growth is refused.
pub fn read_file<'a, F: Files>(
    alloc: Global,
    files: &F,
    path: &'a str,
) -> Result<Vec<u8>, Failure<'a>>
    ensures bytes { IfOk result (λ v. IsKnownAs (F.bytes files.now path.entry.now) v.items) }
    ensures failure { IfErr result (λ e.
        (e ≡ Failure.CannotRead path.entry) ⊎ (e ≡ Failure.Memory)) }
{
    let mut reader = match files.open(path) {
        Ok(reader) => reader,
        Err(e) => return Err(unread(path, e)),
    };
    let mut bytes = Vec::new(alloc);
    match reader.read_to_end(&mut bytes) {
        Ok(_) => Ok(bytes),
        Err(e) => Err(unread(path, e)),
    }
}

// What a failure to open or read the file at the path ends the run with.
fn unread(path: &str, e: io::Error) -> Failure<'_>
    ensures memory { error_kind e ≡ OutOfMemory → result ≡ Failure.Memory }
    ensures other { error_kind e ≢ OutOfMemory → result ≡ Failure.CannotRead path.entry }
{
    match e.kind() {
        ErrorKind::OutOfMemory => Failure::Memory,
        _ => Failure::CannotRead { path },
    }
}

/// Writes all of the text. An interrupted write is made again. `CannotWrite` comes where a write
/// fails otherwise, or takes no byte though some are left.
pub fn put_text<'a, W: Write>(out: &mut W, text: &[u8]) -> Result<(), Failure<'a>>
    ensures all { OnOk result (Appends (W.contents out.old) (W.contents out.new) text.now) }
    ensures beginning { OnErr result (Begins (W.contents out.old) (W.contents out.new) text.now) }
    ensures failure { IfErr result (λ e. e ≡ Failure.CannotWrite) }
{
    let mut at = 0;
    for _ in 0..u64::MAX {
        if at >= text.len() {
            return Ok(());
        }
        match out.write(&text[at..]) {
            Ok(0) => return Err(Failure::CannotWrite),
            Ok(n) => at += n,
            Err(e) => {
                if e.kind() != ErrorKind::Interrupted {
                    return Err(Failure::CannotWrite);
                }
            }
        }
    }
    Err(Failure::CannotWrite)
}
