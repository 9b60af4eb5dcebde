//! The text that explains an answer.
ghost use Rattle.std.specs.Prelude.{◌≡◌, ◌<◌, ◌++◌, OnOk};
ghost use Rattle.route_text.specs.Explanation.{hex_digit, hex_byte, word_text, word_line};
ghost use Rattle.route_text.specs.Explanation.{second_lines, reading_lines, cover_line, cover_lines};
ghost use Rattle.route_text.specs.Explanation.{rule_lines, explanation_lines};

use crate::pieces::{put_named, put_octets, put_prefix};
use lpm_rules::Rule;
use std::alloc::AllocError;

/// The words of a table that the lookup of an address reads.
#[derive(Clone, Copy, Debug, PartialEq, Eq)]
pub struct Reading {
    /// The place of the first word in the first table, from 0.
    pub index: usize,
    /// The first word.
    pub word: u32,
    /// What is read then, where the first word names a group.
    pub second: Option<SecondWord>,
}

/// A word of the second table that a lookup reads.
#[derive(Clone, Copy, Debug, PartialEq, Eq)]
pub struct SecondWord {
    /// The group that the first word names.
    pub group: u32,
    /// The place of the word in the second table, which has the words of the groups one group behind
    /// the other, from 0.
    pub index: usize,
    /// The word.
    pub word: u32,
}

/// The digit of a number below 16.
fn hex_digit(number: u32) -> u8
    requires { number < 16 }
    ensures { result ≡ hex_digit number }
{
    if number < 10 {
        b'0' + number as u8
    } else {
        b'a' - 10 + number as u8
    }
}

/// Adds a byte as two digits.
fn put_byte(text: &mut Vec<u8>, byte: u32) -> Result<(), AllocError>
    requires { byte < 256 }
    ensures { OnOk result (text.new.items ≡ text.old.items ++ hex_byte byte) }
{
    text.extend_from_slice(&[hex_digit(byte / 16), hex_digit(byte % 16)])
}

/// Adds a word as `0x` and eight digits.
fn put_word(text: &mut Vec<u8>, word: u32) -> Result<(), AllocError>
    ensures { OnOk result (text.new.items ≡ text.old.items ++ word_text word) }
{
    text.extend_from_slice(b"0x")?;
    put_byte(text, word / 16_777_216)?;
    put_byte(text, word / 65_536 % 256)?;
    put_byte(text, word / 256 % 256)?;
    put_byte(text, word % 256)
}

/// Adds the line of a word at this place of this table.
fn put_place(text: &mut Vec<u8>, table: &[u8], index: usize, word: u32) -> Result<(), AllocError>
    ensures { OnOk result (text.new.items ≡ text.old.items ++ word_line table.now index word) }
{
    put_named(text, table, index as u64)?;
    text.push(b' ')?;
    put_word(text, word)?;
    text.push(b'\n')?;
    Ok(())
}

/// Adds the lines of the group and its word, where there is one.
fn put_second(text: &mut Vec<u8>, second: Option<SecondWord>) -> Result<(), AllocError>
    ensures { OnOk result (text.new.items ≡ text.old.items ++ second_lines second) }
{
    match second {
        None => Ok(()),
        Some(second) => {
            put_named(text, b"group ", u64::from(second.group))?;
            text.push(b'\n')?;
            put_place(text, b"tbl8 ", second.index, second.word)
        }
    }
}

/// Adds the lines of the words that a lookup reads.
fn put_reading(text: &mut Vec<u8>, reading: Reading) -> Result<(), AllocError>
    ensures { OnOk result (text.new.items ≡ text.old.items ++ reading_lines reading) }
{
    put_place(text, b"tbl24 ", reading.index, reading.word)?;
    put_second(text, reading.second)
}

/// Adds the line of a rule that covers the one that answers.
fn put_cover(text: &mut Vec<u8>, rule: &Rule<24, 8>) -> Result<(), AllocError>
    ensures { OnOk result (text.new.items ≡ text.old.items ++ cover_line rule.now) }
{
    text.extend_from_slice(b"cover ")?;
    put_prefix(text, rule.prefix)?;
    put_named(text, b" ", u64::from(rule.hop.number()))?;
    text.push(b'\n')?;
    Ok(())
}

/// Adds the lines of these rules.
fn put_covers(text: &mut Vec<u8>, rules: &[Rule<24, 8>]) -> Result<(), AllocError>
    ensures { OnOk result (text.new.items ≡ text.old.items ++ cover_lines rules.now) }
{
    for rule in rules {
        put_cover(text, rule)?;
    }
    Ok(())
}

/// Adds the lines of the rule that answers, the first one, and of its covers, the others.
fn put_rules(text: &mut Vec<u8>, rules: &[Rule<24, 8>]) -> Result<(), AllocError>
    ensures { OnOk result (text.new.items ≡ text.old.items ++ rule_lines rules.now) }
{
    match rules {
        [] => text.extend_from_slice(b"hop -\nrule -\n"),
        [rule, covers @ ..] => {
            put_named(text, b"hop ", u64::from(rule.hop.number()))?;
            text.extend_from_slice(b"\nrule ")?;
            put_prefix(text, rule.prefix)?;
            text.push(b'\n')?;
            put_covers(text, covers)
        }
    }
}

/// Adds the lines that explain the answer to an address: the address, the next hop and the prefix of
/// the first of these rules, a line for each other one, and the words that the lookup reads.
///
/// Without rules a `-` stands for the next hop and for the prefix. `AllocError` comes where room for
/// the lines is refused; some of them may have been added then.
pub fn put_explanation(
    text: &mut Vec<u8>,
    addr: u32,
    rules: &[Rule<24, 8>],
    reading: Reading,
) -> Result<(), AllocError>
    ensures { OnOk result (text.new.items
        ≡ text.old.items ++ explanation_lines addr rules.now reading) }
{
    text.extend_from_slice(b"address ")?;
    put_octets(text, addr)?;
    text.push(b'\n')?;
    put_rules(text, rules)?;
    put_reading(text, reading)
}
