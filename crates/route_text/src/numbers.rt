//! Decimals and addresses.
ghost use Rattle.std.specs.Prelude.{◌≡◌, ℕ, ◌+◌, ◌≤◌, List, ◌∷◌, IfSome, IfNone, length, drop};
ghost use Rattle.route_text.specs.Fields.{IsNumber, IsAddress};
ghost use Rattle.route_text.specs.Starts.{StartsNumber, StartsNoNumber, StartsNextOctet, StartsNoNextOctet, StartsAddress, StartsNoAddress, StartsNumberBefore, StartsAddressBefore};

use super::lines::{End, place_after};

/// The bytes of a number of three digits and of its end, as `255` and CR LF.
pub(crate) const NUMBER_ROOM: usize = 5;

/// The bytes of four such numbers: so many are left where an address is read in place, so that no
/// byte of it needs a test of the text's length.
pub(crate) const ADDRESS_ROOM: usize = 4 * NUMBER_ROOM;

/// The number of at most `max` that the text begins with, and what stands after its digits.
#[inline(always)]
pub(crate) fn leading_number(text: &[u8], max: u32) -> Option<(u32, &[u8])>
    ensures found { IfSome result (λ p. StartsNumber max text.now p.0 p.1.now) }
    ensures missing { IfNone result (StartsNoNumber max text.now) }
{
    let mut value: u32 = 0;
    let mut end = 0;
    while end < text.len() && text[end].is_ascii_digit() {
        let longer = u64::from(value) * 10 + u64::from(text[end] - b'0');
        if longer > u64::from(max) {
            return None;
        }
        value = longer as u32;
        end += 1;
    }
    if end == 0 {
        return None;
    }
    let begins_with_zero = text[0] == b'0';
    if begins_with_zero && end > 1 {
        return None;
    }
    Some((value, &text[end..]))
}

/// The number of at most `max` that the text is.
pub(crate) fn number(text: &[u8], max: u32) -> Option<u32>
    ensures found { IfSome result (IsNumber max text.now) }
    ensures missing { IfNone result ((n : ℕ) → IsNumber max text.now n → ⊥) }
{
    let (value, rest) = leading_number(text, max)?;
    if rest.is_empty() { Some(value) } else { None }
}

/// What stands after the byte that the text begins with.
#[inline(always)]
pub(crate) fn after_byte(text: &[u8], byte: u8) -> Option<&[u8]>
    ensures found { IfSome result (λ rest. text.now ≡ byte ∷ rest.now) }
    ensures missing { IfNone result ((rest : List ℕ) → text.now ≡ byte ∷ rest → ⊥) }
{
    match text {
        [first, rest @ ..] if *first == byte => Some(rest),
        _ => None,
    }
}

/// The octet that stands after a dot, and what stands after its digits.
#[inline(always)]
fn next_octet(text: &[u8]) -> Option<(u32, &[u8])>
    ensures found { IfSome result (λ p. StartsNextOctet text.now p.0 p.1.now) }
    ensures missing { IfNone result (StartsNoNextOctet text.now) }
{
    leading_number(after_byte(text, b'.')?, 255)
}

/// The address that the text begins with, and what stands after its digits.
#[inline(always)]
pub(crate) fn leading_address(text: &[u8]) -> Option<(u32, &[u8])>
    ensures found { IfSome result (λ p. StartsAddress text.now p.0 p.1.now) }
    ensures missing { IfNone result (StartsNoAddress text.now) }
{
    let (a, rest) = leading_number(text, 255)?;
    let (b, rest) = next_octet(rest)?;
    let (c, rest) = next_octet(rest)?;
    let (d, rest) = next_octet(rest)?;
    Some((((a * 256 + b) * 256 + c) * 256 + d, rest))
}

/// The address that the text is.
pub(crate) fn address(text: &[u8]) -> Option<u32>
    ensures found { IfSome result (IsAddress text.now) }
    ensures missing { IfNone result ((addr : ℕ) → IsAddress text.now addr → ⊥) }
{
    let (addr, rest) = leading_address(text)?;
    if rest.is_empty() { Some(addr) } else { None }
}

/// The number of at most `max` at this place that `end` stands after, and the place after that end.
///
/// `None` comes for a number of four digits or more too. `max` is 9 or more. A byte that is no digit
/// comes to a number past 9.
#[inline(always)]
pub(crate) fn number_before(bytes: &[u8], at: usize, max: u32, end: End) -> Option<(u32, usize)>
    requires room { at + NUMBER_ROOM ≤ length bytes.now }
    requires most { 9 ≤ max }
    ensures number { IfSome result
        (λ p. StartsNumberBefore end max (drop at bytes.now) p.0 (drop p.1 bytes.now)) }
    ensures place { IfSome result (λ p. p.1 ≤ at + NUMBER_ROOM) }
{
    let first = u32::from(bytes[at]).wrapping_sub(48);
    if first > 9 {
        return None;
    }
    let second = u32::from(bytes[at + 1]).wrapping_sub(48);
    if second > 9 {
        let next = place_after(bytes, at + 1, end)?;
        return Some((first, next));
    }
    if first == 0 {
        return None;
    }
    let two = first * 10 + second;
    let third = u32::from(bytes[at + 2]).wrapping_sub(48);
    if third > 9 {
        if two > max {
            return None;
        }
        let next = place_after(bytes, at + 2, end)?;
        return Some((two, next));
    }
    let three = two * 10 + third;
    if three > max {
        return None;
    }
    let next = place_after(bytes, at + 3, end)?;
    Some((three, next))
}

/// The address at this place that `end` stands after, and the place after that end.
#[inline(always)]
pub(crate) fn address_before(bytes: &[u8], at: usize, end: End) -> Option<(u32, usize)>
    requires { at + ADDRESS_ROOM ≤ length bytes.now }
    ensures address { IfSome result
        (λ p. StartsAddressBefore end (drop at bytes.now) p.0 (drop p.1 bytes.now)) }
    ensures place { IfSome result (λ p. p.1 ≤ at + ADDRESS_ROOM) }
{
    let (a, at) = number_before(bytes, at, 255, End::Byte(b'.'))?;
    let (b, at) = number_before(bytes, at, 255, End::Byte(b'.'))?;
    let ab = a * 256 + b;
    let (c, at) = number_before(bytes, at, 255, End::Byte(b'.'))?;
    let abc = ab * 256 + c;
    let (d, at) = number_before(bytes, at, 255, end)?;
    Some((abc * 256 + d, at))
}
