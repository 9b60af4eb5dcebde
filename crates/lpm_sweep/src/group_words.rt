//! The words of a group, for the rules of its block.

ghost use Rattle.std.specs.Prelude.{◌≡◌, ℕ, ◌+◌, ◌*◌, ◌/◌, ◌%◌, ◌^◌, ◌<◌, ◌≤◌, length, slice_index, take, IfOk, OnOk};
ghost use Rattle.std.specs.FinMap as map;
ghost use Rattle.lpm_bits.specs.Widths.{IsShape};
ghost use Rattle.lpm_cells.specs.Words.{word_of};
ghost use Rattle.lpm_cells.specs.declared.entry.Entry.TheVariants.{Hop as EntryHop};
ghost use Rattle.lpm_rules.specs.RuleMap.{RuleMap, AreInOrder, AllUpTo, place, prefix_at, rules_of};
ghost use Rattle.lpm_rules.specs.Deep.{IsDeepBlock};
ghost use Rattle.lpm_sweep.specs.SweepWords.{word_by_frames, IsFilling};

use crate::frames::{Frame, Frames};
use crate::word_list::WordList;
use lpm_bits::Shape;
use lpm_cells::Entry;
use lpm_rules::Rule;
use std::alloc::AllocError;

/// The word of the addresses that go by this rule.
#[inline]
pub(crate) fn word_of_rule<const FIRST: u32, const SECOND: u32>(rule: &Rule<FIRST, SECOND>) -> u32
    ensures value { result ≡ word_of (EntryHop rule.now.hop rule.now.prefix.len) }
    ensures hop { rule.now.hop < 2 ^ 24 }
{
    let hop = rule.hop;
    let depth = rule.prefix.len();
    let _bits = rule.prefix.bits();
    let _number = hop.number();
    Entry::Hop { hop, depth }.to_word() as u32
}

/// Puts the words of the group before the first address of the rule, which lies in the group's
/// block and is longer than `FIRST` bits, and the rule over those that follow.
fn put_deep<const FIRST: u32, const SECOND: u32, W: WordList>(
    rule: &Rule<FIRST, SECOND>,
    base: usize,
    frames: &mut Frames,
    words: &mut W,
) -> Result<(), AllocError>
    requires shape { IsShape FIRST SECOND }
    requires small { base ≤ 2 ^ 60 }
    requires deep { FIRST < rule.now.prefix.len }
    requires within { length (W.items words.old) ≤ base + rule.now.prefix.bits % 2 ^ SECOND }
    ensures len { OnOk result (length (W.items words.new)
        ≡ base + rule.now.prefix.bits % 2 ^ SECOND) }
    ensures kept { OnOk result ((k : ℕ) → k < length (W.items words.old)
        → slice_index (W.items words.new) k ≡ slice_index (W.items words.old) k) }
    ensures fills { OnOk result ((R0 R : RuleMap) → AllUpTo R (place rule.now.prefix)
        → IsFilling FIRST SECOND (rule.now.prefix.bits / 2 ^ SECOND) base R0 R
        (W.items words.old) (word_by_frames frames.old)
        → IsFilling FIRST SECOND (rule.now.prefix.bits / 2 ^ SECOND) base R0
        (map.insert R rule.now.prefix rule.now.hop) (W.items words.new) (word_by_frames frames.new)) }
{
    let bits = rule.prefix.bits();
    let len = rule.prefix.len();
    let start = base + Shape::<FIRST, SECOND>::second_index(bits);
    frames.advance(words, start)?;
    let word = word_of_rule(rule);
    let end = start + (1 << (FIRST + SECOND - len));
    frames.push(Frame { end, word })?;
    Ok(())
}

/// Puts the words of a new group last, for the rules of a block from `from` on, which are longer
/// than `FIRST` bits, and returns where the rules of later blocks begin.
pub(crate) fn fill_group<const FIRST: u32, const SECOND: u32, W: WordList>(
    rules: &[Rule<FIRST, SECOND>],
    from: usize,
    block: usize,
    frames: &mut Frames,
    words: &mut W,
) -> Result<usize, AllocError>
    requires shape { IsShape FIRST SECOND }
    requires small { length (W.items words.old) ≤ 2 ^ 59 }
    requires from { from < length rules.now }
    requires sorted { AreInOrder rules.now }
    requires deep { FIRST < (prefix_at rules.now from).len }
    requires block { (prefix_at rules.now from).bits / 2 ^ SECOND ≡ block }
    requires before { AllUpTo (rules_of (take from rules.now)) (place (prefix_at rules.now from)) }
    requires starts { IsFilling FIRST SECOND block (length (W.items words.old))
        (rules_of (take from rules.now)) (rules_of (take from rules.now))
        (W.items words.old) (word_by_frames frames.old) }
    ensures onward { IfOk result (λ next. from < next) }
    ensures within { IfOk result (λ next. next ≤ length rules.now) }
    ensures len { OnOk result (length (W.items words.new)
        ≡ length (W.items words.old) + 2 ^ SECOND) }
    ensures kept { OnOk result ((k : ℕ) → k < length (W.items words.old)
        → slice_index (W.items words.new) k ≡ slice_index (W.items words.old) k) }
    ensures later { IfOk result (λ next. (k : ℕ) → next ≤ k → k < length rules.now
        → (block + 1) * 2 ^ SECOND * 64 ≤ place (prefix_at rules.now k)) }
    ensures before { IfOk result (λ next. (k : ℕ) → next ≤ k → k < length rules.now
        → AllUpTo (rules_of (take next rules.now)) (place (prefix_at rules.now k))) }
    ensures filled { IfOk result (λ next. IsFilling FIRST SECOND block (length (W.items words.old))
        (rules_of (take from rules.now)) (rules_of (take next rules.now))
        (W.items words.new) (word_by_frames frames.new)) }
    ensures deep { IfOk result (λ next.
        IsDeepBlock FIRST SECOND (rules_of (take next rules.now)) block) }
{
    let base = words.count();
    let mut next = from;
    while next < rules.len() {
        let rule = &rules[next];
        let bits = rule.prefix.bits();
        let _len = rule.prefix.len();
        if Shape::<FIRST, SECOND>::first_index(bits) != block {
            break;
        }
        put_deep(rule, base, frames, words)?;
        next += 1;
    }
    frames.advance(words, base + (1 << SECOND))?;
    Ok(next)
}
