//! Routes that are read in pieces.
ghost use Rattle.std.proofs.Common.{ap};
ghost use Rattle.std.specs.Prelude.{◌≡◌, ℕ, List, [], ◌∷◌, ◌+◌, ◌^◌, ◌<◌, ◌++◌, IfOk, length, map};
ghost use Rattle.route_text.specs.Files.{lines, AreItems, SpellsRoute, HasRouteFault};
ghost use Rattle.lpm_files.specs.Later.{later_route};

use crate::lines::count_lines;
use crate::pieces::PiecewiseFile;
use route_text::{ReadError, Route, read_routes};
use std::alloc::{AllocError, Global};

/// Route files. A route has the number of its line.
pub(crate) struct RouteFile;

impl PiecewiseFile for RouteFile {
    type Item = Route;

    ghost Spells = { SpellsRoute };

    ghost HasFault = { HasRouteFault };

    ghost later = { later_route };

    ghost spells_later = { λ k n. elim [
      | [] ↦ λ route is. is
      | p ∷ [] ↦ λ route is. is
      | p ∷ h ∷ [] ↦ λ route is. (ap (λ m. m + k) is.0, is.1, is.2)
      | p ∷ h ∷ f ∷ fs ↦ λ route is. is
    ] };

    fn read(alloc: Global, bytes: &[u8]) -> Result<Vec<Route>, ReadError> {
        read_routes(alloc, bytes)
    }

    fn append(list: Vec<Route>, front: &[u8], more: &[Route]) -> Result<Vec<Route>, AllocError>
        requires { (back : List (List ℕ)) × AreItems SpellsRoute 1 back more.now
            × (length front.now + length back < 2 ^ 63) }
        ensures { IfOk result (λ v.
            v.items ≡ list.items ++ map (later_route (length (lines front.now))) more.now) }
    {
        let lines = count_lines(front);
        let mut list = list;
        list.reserve(more.len())?;
        for route in more {
            list.push_reserved(Route {
                line: route.line + lines,
                prefix: route.prefix,
                hop: route.hop,
            });
        }
        Ok(list)
    }
}
