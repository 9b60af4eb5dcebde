//! Files that are read, each of its form.
ghost use Rattle.std.specs.Prelude.{◌≡◌, ⊤, ℕ, List, All, IfOk, IfErr};
ghost use Rattle.route_text.specs.declared.fault.Fault.{Fault};
ghost use Rattle.route_text.specs.Files.{AreRoutes, IsRoutesFault, AreAddresses, IsAddressesFault, IsReadError};
ghost use Rattle.route_text.specs.Updates.{AreUpdates, IsUpdatesFault};
ghost use Rattle.route_text.specs.Updates.{AreOldUpdates, IsOldUpdatesFault, IsCountInRange};
ghost use Rattle.lpm_files.specs.Inputs.{address_file, route_file, input, Reads, EndsReading, ending_of};

use crate::addresses::AddressFile;
use crate::failure::Failure;
use crate::files::{Files, read_file};
use crate::pieces::parse_on;
use crate::routes::RouteFile;
use route_text::{
    Order, ReadError, Route, read_addresses, read_routes, read_updates, read_updates_v1,
};
use std::alloc::Global;
use std::thread::Threads;

/// A form of files, whose bytes list items.
pub trait FileKind {
    /// What a line of the file says.
    type Item: Copy;

    // The bytes are a file of these items.
    ghost Lists: { List ℕ → List Self.Item → Type 0 };

    // The item's numbers are in their ranges.
    ghost IsInRange: { Self.Item → Type 0 };

    // The first fault of bytes that are no such file.
    ghost IsFault: { List ℕ → Fault → Type 0 };

    /// The items that the bytes list, in order. The error is the first fault, or that memory for the list is
    /// refused.
    fn parse(alloc: Global, bytes: &[u8]) -> Result<Vec<Self::Item>, ReadError>
        ensures items { IfOk result (λ v. Lists bytes.now v.items) }
        ensures in_range { IfOk result (λ v. All IsInRange v.items) }
        ensures error { IfErr result (IsReadError (IsFault bytes.now)) };
}

/// Route files: a prefix and its next hop a line.
pub struct Routes;

impl FileKind for Routes {
    type Item = Route;

    ghost Lists = { AreRoutes };

    ghost IsInRange = { λ _. ⊤ };

    ghost IsFault = { IsRoutesFault };

    fn parse(alloc: Global, bytes: &[u8]) -> Result<Vec<Route>, ReadError> {
        read_routes(alloc, bytes)
    }
}

/// Address files: an address a line.
pub struct Addresses;

impl FileKind for Addresses {
    type Item = u32;

    ghost Lists = { AreAddresses };

    ghost IsInRange = { λ _. ⊤ };

    ghost IsFault = { IsAddressesFault };

    fn parse(alloc: Global, bytes: &[u8]) -> Result<Vec<u32>, ReadError> {
        read_addresses(alloc, bytes)
    }
}

/// Update files of version 2, which begin with their header.
pub struct Updates;

impl FileKind for Updates {
    type Item = Order;

    ghost Lists = { AreUpdates };

    ghost IsInRange = { IsCountInRange };

    ghost IsFault = { IsUpdatesFault };

    fn parse(alloc: Global, bytes: &[u8]) -> Result<Vec<Order>, ReadError> {
        read_updates(alloc, bytes)
    }
}

/// Update files of version 1, which have no header.
pub struct OldUpdates;

impl FileKind for OldUpdates {
    type Item = Order;

    ghost Lists = { AreOldUpdates };

    ghost IsInRange = { IsCountInRange };

    ghost IsFault = { IsOldUpdatesFault };

    fn parse(alloc: Global, bytes: &[u8]) -> Result<Vec<Order>, ReadError> {
        read_updates_v1(alloc, bytes)
    }
}

/// The items of the file at the path. The file is read whole, and then parsed.
///
/// `CannotRead` comes where the file can't be opened or a read of it fails, `Bad` where its bytes have
/// a fault, and `Memory` where a growth is refused: in opening, in reading or in parsing.
pub fn read_list<'a, L: FileKind, F: Files>(
    alloc: Global,
    files: &F,
    path: &'a str,
) -> Result<Vec<L::Item>, Failure<'a>>
    ensures items { IfOk result (λ v.
        Reads L.Lists (F.bytes files.now path.entry.now) v.items) }
    ensures in_range { IfOk result (λ v. All L.IsInRange v.items) }
    ensures failure { IfErr result (EndsReading
        (input L.Lists L.IsFault path.entry.now (F.bytes files.now path.entry.now))) }
{
    let bytes = read_file(alloc, files, path)?;
    match L::parse(alloc, &bytes) {
        Ok(items) => Ok(items),
        Err(error) => Err(ending_of(path, error)),
    }
}

/// The addresses of the file at the path, as `read_list::<Addresses, F>` gives them. The file is read whole,
/// and then parsed in pieces on at most so many threads. The pieces are cut where lines end, and have at
/// least 64 KiB or about that. Where a thread can't be had its piece is parsed by the thread that asks.
pub fn read_addresses_on<'a, R: Threads + Sync, F: Files>(
    rt: &R,
    alloc: Global,
    files: &F,
    path: &'a str,
    threads: usize,
) -> Result<Vec<u32>, Failure<'a>>
    ensures items { IfOk result (λ v.
        Reads AreAddresses (F.bytes files.now path.entry.now) v.items) }
    ensures failure { IfErr result (EndsReading
        (address_file path.entry.now (F.bytes files.now path.entry.now))) }
{
    let bytes = read_file(alloc, files, path)?;
    match parse_on::<R, u32, AddressFile>(rt, alloc, &bytes, threads) {
        Ok(addrs) => Ok(addrs),
        Err(error) => Err(ending_of(path, error)),
    }
}

/// The routes of the file at the path, as `read_list::<Routes, F>` gives them, read and parsed as those of
/// `read_addresses_on`. Each has the number of its line in the whole file.
pub fn read_routes_on<'a, R: Threads + Sync, F: Files>(
    rt: &R,
    alloc: Global,
    files: &F,
    path: &'a str,
    threads: usize,
) -> Result<Vec<Route>, Failure<'a>>
    ensures items { IfOk result (λ v.
        Reads AreRoutes (F.bytes files.now path.entry.now) v.items) }
    ensures failure { IfErr result (EndsReading
        (route_file path.entry.now (F.bytes files.now path.entry.now))) }
{
    let bytes = read_file(alloc, files, path)?;
    match parse_on::<R, Route, RouteFile>(rt, alloc, &bytes, threads) {
        Ok(routes) => Ok(routes),
        Err(error) => Err(ending_of(path, error)),
    }
}

// What an error in parsing the file at the path ends the run with. Want of memory isn't a failed read.
fn ending_of(path: &str, error: ReadError) -> Failure<'_>
    ensures { result ≡ ending_of path.entry error }
{
    match error {
        ReadError::Fault(fault) => Failure::Bad { path, fault },
        ReadError::Memory => Failure::Memory,
    }
}
