//! Reading a file line by line, for any grammar of lines.
ghost use Rattle.std.specs.Prelude.{ℕ, ◌+◌, ◌^◌, ◌<◌, ◌≤◌, List, ◌∷◌, IfSome, IfOk, IfErr};
ghost use Rattle.std.specs.Prelude.{length, drop};
ghost use Rattle.route_text.specs.declared.fault.FaultKind.{FaultKind};
ghost use Rattle.route_text.specs.declared.grammar.Line.TheVariants as Line;
ghost use Rattle.route_text.specs.Files.{lines, fields, AreItems, IsFirstFault, IsReadError};
ghost use Rattle.route_text.specs.Starts.{Says, SaysFirst, SaysItems, SaysFault};

use super::fault::{Fault, FaultKind, ReadError};
use super::lines::{next_field, next_line};
use std::alloc::Global;

/// About how many bytes a line has. At first room is taken for the items of a file of such lines.
const USUAL_LINE: usize = 16;

/// What a line says.
#[derive(Clone, Copy)]
pub(crate) enum Line<Item> {
    /// The line is blank or a comment.
    Nothing,
    Item(Item),
    Fault(FaultKind),
}

/// What the lines of a file spell. Blank lines and comments are the same in every grammar.
pub(crate) trait Grammar {
    /// What a line spells.
    type Item: Copy;

    // Which item the number and the fields of a line spell.
    ghost Spells: { ℕ → List (List ℕ) → Self.Item → Type 0 };

    // Which fault the fields of a line have.
    ghost HasFault: { List (List ℕ) → FaultKind → Type 0 };

    /// The item of a line, given its number, its first field and what stands after that field.
    fn item(number: usize, first: &[u8], rest: &[u8]) -> Result<Self::Item, FaultKind>
        ensures item { IfOk result (Spells number (first.now ∷ fields rest.now)) }
        ensures fault { IfErr result (HasFault (first.now ∷ fields rest.now)) };

    /// The item of the line at this place, and the place after the line, where it is written
    /// plainly: its bytes are read once. `None` may come for any line, which is then read by its
    /// fields.
    fn plain_line(number: usize, bytes: &[u8], at: usize) -> Option<(Self::Item, usize)>
        requires { at ≤ length bytes.now }
        ensures line { IfSome result (λ p. SaysFirst Spells HasFault number (drop at bytes.now)
            (Line.Item p.0) (drop p.1 bytes.now)) }
        ensures place { IfSome result (λ p. p.1 ≤ length bytes.now) };
}

/// What a line says: nothing, an item, or what is wrong with it.
fn read_line<G: Grammar>(number: usize, line: &[u8]) -> Line<G::Item>
    ensures { Says G.Spells G.HasFault number (fields line.now) result }
{
    let Some((first, rest)) = next_field(line) else {
        return Line::Nothing;
    };
    if first[0] == b'#' {
        return Line::Nothing;
    }
    match G::item(number, first, rest) {
        Ok(item) => Line::Item(item),
        Err(kind) => Line::Fault(kind),
    }
}

/// Items, how many lines were read for them, and what stands after these.
struct Taken<'a, Item> {
    items: Vec<Item>,
    lines: usize,
    rest: &'a [u8],
}

/// Adds the items of plain lines at the front of the bytes, as far as there is room for them, and
/// up to the first line that isn't plain.
///
/// The function owns the list and isn't inlined, so the list's place and length stay in registers.
#[inline(never)]
fn take_plain<G: Grammar>(number: usize, bytes: &[u8], items: Vec<G::Item>) -> Taken<'_, G::Item>
    requires { number + length (lines bytes.now) < 2 ^ 64 }
    ensures { SaysItems G.Spells number bytes.now items.items result.items.items result.lines
        result.rest.now }
{
    let mut items = items;
    let room = items.capacity() - items.len();
    let mut lines = 0;
    let mut end = 0;
    while lines < room {
        let Some((item, next)) = G::plain_line(number + lines, bytes, end) else {
            break;
        };
        items.push_reserved(item);
        lines += 1;
        end = next;
    }
    Taken {
        items,
        lines,
        rest: &bytes[end..],
    }
}

/// Adds the item of the first line, if it isn't blank or a comment, and gives what stands after it.
fn take_line<G: Grammar>(
    number: usize,
    bytes: &[u8],
    items: Vec<G::Item>,
) -> Result<(Vec<G::Item>, &[u8]), ReadError>
    requires { 0 < length bytes.now }
    ensures taken { IfOk result
        (λ p. SaysItems G.Spells number bytes.now items.items p.0.items 1 p.1.now) }
    ensures error { IfErr result (IsReadError (SaysFault G.Spells G.HasFault number bytes.now)) }
{
    let mut items = items;
    let (line, rest) = next_line(bytes);
    match read_line::<G>(number, line) {
        Line::Nothing => Ok((items, rest)),
        Line::Item(item) => {
            items.push(item)?;
            Ok((items, rest))
        }
        Line::Fault(kind) => Err(ReadError::Fault(Fault { line: number, kind })),
    }
}

/// The items of lines of which the first has the number `first`, or their first fault.
pub(crate) fn read_items<G: Grammar>(
    alloc: Global,
    first: usize,
    bytes: &[u8],
) -> Result<Vec<G::Item>, ReadError>
    requires { first + length bytes.now < 2 ^ 64 }
    ensures items { IfOk result (λ v. AreItems G.Spells first (lines bytes.now) v.items) }
    ensures error { IfErr result
        (IsReadError (IsFirstFault G.Spells G.HasFault first (lines bytes.now))) }
{
    let mut items = Vec::with_capacity(alloc, bytes.len() / USUAL_LINE)?;
    let mut read = 0;
    let mut rest = bytes;
    while !rest.is_empty() {
        items.reserve(1)?;
        let Taken {
            items: taken,
            lines,
            rest: after,
        } = take_plain::<G>(first + read, rest, items);
        read += lines;
        if after.is_empty() {
            return Ok(taken);
        }
        let (longer, left) = match take_line::<G>(first + read, after, taken) {
            Ok(line) => line,
            Err(error) => return Err(error),
        };
        read += 1;
        items = longer;
        rest = left;
    }
    Ok(items)
}
