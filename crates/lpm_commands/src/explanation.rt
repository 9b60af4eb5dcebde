//! What explains the answer to an address: the rules that cover it, and the words that a lookup reads.
ghost use Rattle.std.specs.Prelude.{◌≡◌, ◌+◌, ◌<◌, ◌%◌, ◌^◌, ◌++◌, OnOk, IfOk};
ghost use Rattle.std.specs.Option.{option_to_list};
ghost use Rattle.lpm_cells.specs.Words.{entry_in, IsWords, IsFirstWord};
ghost use Rattle.lpm_commands.specs.Explain.{AreCovering, IsAnsweredByFirst, reading_of, second_word};

use lpm_bits::Shape;
use lpm_cells::{Entry, PlainCells};
use lpm_rules::{Rule, Rules};
use route_text::{Reading, SecondWord};
use std::alloc::{AllocError, Global};

/// All rules that cover an address, the longest first: that one answers. Where no rule covers the
/// address there is none.
///
/// It looks once for each length. `AllocError` where memory for the list is refused.
pub fn covering_rules<const FIRST: u32, const SECOND: u32>(
    alloc: Global,
    rules: &Rules<FIRST, SECOND>,
    addr: u32,
) -> Result<Vec<Rule<FIRST, SECOND>>, AllocError>
    requires { addr < 2 ^ (FIRST + SECOND) }
    ensures covering { IfOk result (λ v.
        AreCovering (FIRST + SECOND) rules.now.rules addr v.items) }
    ensures answered { IfOk result (λ v.
        IsAnsweredByFirst (FIRST + SECOND) rules.now.rules addr v.items) }
{
    // Of the rule list this is what it keeps: widths in range, and prefixes without host bits.
    let _count = rules.len();
    let width = FIRST + SECOND;
    let mut found = Vec::new(alloc);
    let lengths = width + 1;
    for host in 0..lengths {
        push_found(&mut found, rules.rule_of_length(addr, width - host))?;
    }
    Ok(found)
}

// Adds the rule to the list, where there is one.
fn push_found<const FIRST: u32, const SECOND: u32>(
    found: &mut Vec<Rule<FIRST, SECOND>>,
    rule: Option<Rule<FIRST, SECOND>>,
) -> Result<(), AllocError>
    ensures { OnOk result (found.new.items ≡ found.old.items ++ option_to_list rule.entry) }
{
    match rule {
        None => Ok(()),
        Some(rule) => {
            found.push(rule)?;
            Ok(())
        }
    }
}

/// The words that a lookup of the address reads in these tables: one, or two where the first one
/// names a group.
pub fn reading_of<const FIRST: u32, const SECOND: u32>(
    cells: &PlainCells<FIRST, SECOND>,
    addr: u32,
) -> Reading
    requires { addr < 2 ^ (FIRST + SECOND) }
    ensures { result ≡ reading_of SECOND cells.now addr }
{
    // Of the cells this is what they keep: widths in range, and words of entries.
    let _seconds = cells.seconds();
    let index = Shape::<FIRST, SECOND>::first_index(addr);
    let word = cells.first_words()[index];
    let second = second_word(cells, addr, word);
    Reading {
        index,
        word,
        second,
    }
}

// The word that is read after this first one: none where that names no group.
fn second_word<const FIRST: u32, const SECOND: u32>(
    cells: &PlainCells<FIRST, SECOND>,
    addr: u32,
    first: u32,
) -> Option<SecondWord>
    requires words { IsWords FIRST SECOND cells.now }
    requires first { IsFirstWord (FIRST + SECOND) SECOND cells.now.seconds first }
    ensures { result ≡ second_word SECOND cells.now.seconds (addr % 2 ^ SECOND) (entry_in first) }
{
    let _seconds = cells.seconds();
    match Entry::group_of_word::<FIRST, SECOND>(u64::from(first)) {
        None => None,
        Some(group) => {
            let place = Shape::<FIRST, SECOND>::second_index(addr);
            let index = ((group as usize) << SECOND) + place;
            Some(SecondWord {
                group,
                index,
                word: cells.second_words()[index],
            })
        }
    }
}
