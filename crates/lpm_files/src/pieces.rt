//! Files that are read in pieces, whatever their lines spell.
ghost use Rattle.std.specs.Thread.{IsSync, IsSend};
ghost use Rattle.std.specs.Prelude.{◌≡◌, ℕ, List, ◌+◌, ◌^◌, ◌<◌, ◌++◌, length, map, IfOk, IfErr};
ghost use Rattle.route_text.specs.declared.fault.FaultKind.{FaultKind};
ghost use Rattle.route_text.specs.Files.{lines, AreItems, IsFirstFault, IsReadError};

use crate::lines::{count_lines, line_end, share};
use route_text::{Fault, ReadError};
use std::alloc::{AllocError, Global};
use std::thread::{Threads, join};

/// How many bytes a piece is to have at least, before its end is moved to that of a line.
const LEAST_BYTES: usize = 65_536;

/// A form of files, whose lines spell items. Where the same line stands later in a file, its item
/// follows from the one here.
pub(crate) trait PiecewiseFile {
    /// What a line spells.
    type Item: Copy + Send;

    // Which item the number and the fields of a line spell.
    ghost Spells: { ℕ → List (List ℕ) → Self.Item → Type 0 };

    // Which fault the fields of a line have.
    ghost HasFault: { List (List ℕ) → FaultKind → Type 0 };

    // The item of a line that stands so many lines later.
    ghost later: { ℕ → Self.Item → Self.Item };

    /// The items of a file that is read by one thread, or its first fault; or want of memory.
    fn read(alloc: Global, bytes: &[u8]) -> Result<Vec<Self::Item>, ReadError>
        ensures items { IfOk result (λ v. AreItems Spells 1 (lines bytes.now) v.items) }
        ensures error { IfErr result
            (IsReadError (IsFirstFault Spells HasFault 1 (lines bytes.now))) };

    /// The list, and then the items of a file as they are where its lines stand after the front. The
    /// error is want of memory for the list.
    fn append(
        list: Vec<Self::Item>,
        front: &[u8],
        more: &[Self::Item],
    ) -> Result<Vec<Self::Item>, AllocError>
        requires { (back : List (List ℕ)) × AreItems Spells 1 back more.now
            × (length front.now + length back < 2 ^ 63) }
        ensures { IfOk result (λ v.
            v.items ≡ list.items ++ map (later (length (lines front.now))) more.now) };

    // A line that stands later spells the item that `later` gives.
    ghost spells_later: { (k n : ℕ) (fs : List (List ℕ)) (item : Self.Item) → Spells n fs item
        → Spells (n + k) fs (later k item) };
}

/// The items that the bytes list, or their first fault, read in pieces on at most so many threads. The
/// pieces are cut where lines end, and have at least 64 KiB or about that. Where a thread can't be had its
/// piece is read by the thread that asks.
#[cycle(parsing)]
pub(crate) fn parse_on<R: Threads + Sync, T: Copy + Send, F: PiecewiseFile<Item = T> + Sync>(
    rt: &R,
    alloc: Global,
    bytes: &[u8],
    threads: usize,
) -> Result<Vec<T>, ReadError>
    ensures items { IfOk result (λ v. AreItems F.Spells 1 (lines bytes.now) v.items) }
    ensures error { IfErr result
        (IsReadError (IsFirstFault F.Spells F.HasFault 1 (lines bytes.now))) }
{
    let pieces = threads.min(bytes.len() / LEAST_BYTES);
    if pieces < 2 {
        return F::read(alloc, bytes);
    }
    let few = pieces / 2;
    let more = pieces - few;
    let end = line_end(bytes, share(bytes.len(), few, pieces));
    let (front, back) = bytes.split_at(end);
    let (first, second) = join(
        rt,
        || -> Result<Vec<T>, ReadError>
            requires { IsSync R.row × IsSync F.row × IsSend T.row }
            ensures items { IfOk result (λ v. AreItems F.Spells 1 (lines front.entry.now) v.items) }
            ensures error { IfErr result
                (IsReadError (IsFirstFault F.Spells F.HasFault 1 (lines front.entry.now))) }
        { parse_on::<R, T, F>(rt, alloc, front, few) },
        || -> Result<Vec<T>, ReadError>
            requires { IsSync R.row × IsSync F.row × IsSend T.row }
            ensures items { IfOk result (λ v. AreItems F.Spells 1 (lines back.entry.now) v.items) }
            ensures error { IfErr result
                (IsReadError (IsFirstFault F.Spells F.HasFault 1 (lines back.entry.now))) }
        { parse_on::<R, T, F>(rt, alloc, back, more) },
    );
    joined::<F>(bytes, front, back, first, second)
}

/// What two pieces of the bytes, cut where a line ends, come to.
fn joined<F: PiecewiseFile>(
    bytes: &[u8],
    front: &[u8],
    back: &[u8],
    first: Result<Vec<F::Item>, ReadError>,
    second: Result<Vec<F::Item>, ReadError>,
) -> Result<Vec<F::Item>, ReadError>
    requires cut { lines bytes.now ≡ lines front.now ++ lines back.now }
    requires room { length front.now + length back.now < 2 ^ 63 }
    requires front_list { IfOk first (λ v. AreItems F.Spells 1 (lines front.now) v.items) }
    requires front_error { IfErr first
        (IsReadError (IsFirstFault F.Spells F.HasFault 1 (lines front.now))) }
    requires back_list { IfOk second (λ v. AreItems F.Spells 1 (lines back.now) v.items) }
    requires back_error { IfErr second
        (IsReadError (IsFirstFault F.Spells F.HasFault 1 (lines back.now))) }
    ensures items { IfOk result (λ v. AreItems F.Spells 1 (lines bytes.now) v.items) }
    ensures error { IfErr result
        (IsReadError (IsFirstFault F.Spells F.HasFault 1 (lines bytes.now))) }
{
    let list = first?;
    match second {
        Ok(more) => {
            let all = F::append(list, front, &more)?;
            Ok(all)
        }
        Err(error) => Err(later::<F>(bytes, front, back, error)),
    }
}

/// The error of the bytes where that of the back piece is this one, and the front piece has none. The
/// lines of a fault are counted from the front of all bytes.
fn later<F: PiecewiseFile>(bytes: &[u8], front: &[u8], back: &[u8], error: ReadError) -> ReadError
    requires cut { lines bytes.now ≡ lines front.now ++ lines back.now }
    requires room { length front.now + length back.now < 2 ^ 63 }
    requires front { (items : List F.Item) × AreItems F.Spells 1 (lines front.now) items }
    requires error { IsReadError (IsFirstFault F.Spells F.HasFault 1 (lines back.now)) error }
    ensures { IsReadError (IsFirstFault F.Spells F.HasFault 1 (lines bytes.now)) result }
{
    match error {
        ReadError::Fault(fault) => ReadError::Fault(Fault {
            line: fault.line + count_lines(front),
            kind: fault.kind,
        }),
        ReadError::Memory => ReadError::Memory,
    }
}
