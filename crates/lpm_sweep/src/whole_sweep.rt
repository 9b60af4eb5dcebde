//! The sweep over the rules.

ghost use Rattle.std.specs.Prelude.{◌≡◌, ℕ, ◌+◌, ◌*◌, ◌/◌, ◌^◌, ◌<◌, ◌≤◌, length, IfOk, OnOk, IfSome, IsNone, take, List, []};
ghost use Rattle.std.specs.FinMap as map;
ghost use Rattle.std.specs.FinSet as set;
ghost use Rattle.lpm_bits.specs.Widths.{IsShape};
ghost use Rattle.lpm_rules.specs.RuleMap.{RuleMap, AreInOrder, AllUpTo, place, prefix_at, rules_of};
ghost use Rattle.lpm_rules.specs.Deep.{deep_blocks};
ghost use Rattle.lpm_update.specs.Represents.{Represents};
ghost use Rattle.lpm_sweep.specs.SweepWords.{word_by_frames, IsSwept, AreNumbered, words_of};

use crate::frames::{Frame, Frames};
use crate::group_words::{fill_group, word_of_rule};
use crate::word_list::WordList;
use lpm_bits::Shape;
use lpm_cells::Entry;
use lpm_rules::Rule;
use std::alloc::{AllocError, Global};

/// The words of a whole table, and the blocks that have a group.
///
/// The fields can be taken out of it: it only carries what [`sweep`] made.
#[derive(Drop)]
pub struct Swept {
    /// The first words, one for each of the `2^FIRST` blocks.
    pub first_words: Vec<u32>,
    /// The second words: the `2^SECOND` of each group, one group behind the other.
    pub second_words: Vec<u32>,
    /// The block of each group, from group 0 on.
    pub blocks: Vec<usize>,
}

/// Puts the first words before the block of the rule, which is no longer than `FIRST` bits, and the
/// rule over those that follow.
fn put_short<const FIRST: u32, const SECOND: u32, W: WordList>(
    rule: &Rule<FIRST, SECOND>,
    frames: &mut Frames,
    words: &mut W,
) -> Result<(), AllocError>
    requires shape { IsShape FIRST SECOND }
    requires short { rule.now.prefix.len ≤ FIRST }
    requires within { length (W.items words.old) ≤ rule.now.prefix.bits / 2 ^ SECOND }
    ensures len { OnOk result (length (W.items words.new) ≡ rule.now.prefix.bits / 2 ^ SECOND) }
    ensures swept { OnOk result ((groups : ℕ) (R : RuleMap) (seconds : List ℕ)
        → AllUpTo R (place rule.now.prefix)
        → IsSwept FIRST SECOND groups R
        (record { firsts = W.items words.old; seconds = seconds }) (word_by_frames frames.old)
        → IsSwept FIRST SECOND groups (map.insert R rule.now.prefix rule.now.hop)
        (record { firsts = W.items words.new; seconds = seconds }) (word_by_frames frames.new)) }
    ensures numbered { OnOk result ((groups : ℕ) (R : RuleMap) (seconds blocks : List ℕ)
        → IsSwept FIRST SECOND groups R
        (record { firsts = W.items words.old; seconds = seconds }) (word_by_frames frames.old)
        → AreNumbered (W.items words.old) blocks → AreNumbered (W.items words.new) blocks) }
{
    let bits = rule.prefix.bits();
    let len = rule.prefix.len();
    let block = Shape::<FIRST, SECOND>::first_index(bits);
    frames.advance(words, block)?;
    let word = word_of_rule(rule);
    let end = block + (1 << (FIRST - len));
    frames.push(Frame { end, word })?;
    Ok(())
}

/// Puts the first words before a block and the link to a new group last, and then the words of that
/// group, for the rules of the block. They begin at `from`, and are longer than `FIRST` bits. It
/// returns where the rules of later blocks begin.
fn put_group<const FIRST: u32, const SECOND: u32, W: WordList>(
    rules: &[Rule<FIRST, SECOND>],
    from: usize,
    outer: &mut Frames,
    inner: &mut Frames,
    firsts: &mut W,
    seconds: &mut W,
    blocks: &mut Vec<usize>,
) -> Result<usize, AllocError>
    requires shape { IsShape FIRST SECOND }
    requires few { length blocks.old.items < 65536 }
    requires from { from < length rules.now }
    requires sorted { AreInOrder rules.now }
    requires deep { FIRST < (prefix_at rules.now from).len }
    requires within { length (W.items firsts.old) ≤ (prefix_at rules.now from).bits / 2 ^ SECOND }
    requires before { AllUpTo (rules_of (take from rules.now)) (place (prefix_at rules.now from)) }
    requires numbered { AreNumbered (W.items firsts.old) blocks.old.items }
    requires swept { IsSwept FIRST SECOND (length blocks.old.items) (rules_of (take from rules.now))
        (record { firsts = W.items firsts.old; seconds = W.items seconds.old }) (word_by_frames outer.old) }
    ensures onward { IfOk result (λ next. from < next) }
    ensures within { IfOk result (λ next. next ≤ length rules.now) }
    ensures later { IfOk result (λ next. (k : ℕ) → next ≤ k → k < length rules.now
        → length (W.items firsts.new) * 2 ^ SECOND * 64 ≤ place (prefix_at rules.now k)) }
    ensures before { IfOk result (λ next. (k : ℕ) → next ≤ k → k < length rules.now
        → AllUpTo (rules_of (take next rules.now)) (place (prefix_at rules.now k))) }
    ensures count { OnOk result (length blocks.new.items ≡ length blocks.old.items + 1) }
    ensures deep { IfOk result (λ next.
        set.len (deep_blocks FIRST SECOND (rules_of (take next rules.now)))
        ≡ set.len (deep_blocks FIRST SECOND (rules_of (take from rules.now))) + 1) }
    ensures numbered { OnOk result (AreNumbered (W.items firsts.new) blocks.new.items) }
    ensures swept { IfOk result (λ next. IsSwept FIRST SECOND (length blocks.new.items)
        (rules_of (take next rules.now))
        (record { firsts = W.items firsts.new; seconds = W.items seconds.new }) (word_by_frames outer.new)) }
{
    let rule = &rules[from];
    let bits = rule.prefix.bits();
    let block = Shape::<FIRST, SECOND>::first_index(bits);
    outer.advance(firsts, block)?;
    let link = Entry::Group(blocks.len() as u32).to_word() as u32;
    firsts.fill(block + 1, link)?;
    blocks.push(block)?;
    inner.reset(outer.top.word);
    let next = fill_group(rules, from, block, inner, seconds)?;
    Ok(next)
}

/// Puts the words of a table of these rules into the two lists, each word once, and returns the
/// block of each group, from group 0 on.
///
/// The rules are in the order of their prefixes (see [`in_order`](crate::in_order)); of those of
/// one prefix the last counts. Each block in which a rule longer than `FIRST` bits lies gets a
/// group, and no other does; group 0 belongs to the first such block. There are at most `groups`
/// groups, of which a table has 65,536 at most.
///
/// The lists are empty before. `None` exactly where more groups are needed, and `AllocError` where
/// memory is short. After either the lists hold what was put so far.
pub fn sweep_into<const FIRST: u32, const SECOND: u32, W: WordList>(
    alloc: Global,
    rules: &[Rule<FIRST, SECOND>],
    groups: usize,
    firsts: &mut W,
    seconds: &mut W,
) -> Result<Option<Vec<usize>>, AllocError>
    requires shape { IsShape FIRST SECOND }
    requires few { groups ≤ 65536 }
    requires sorted { AreInOrder rules.now }
    requires no_firsts { W.items firsts.old ≡ [] }
    requires no_seconds { W.items seconds.old ≡ [] }
    ensures represents { IfOk result (λ o. IfSome o (λ _.
        Represents FIRST SECOND (rules_of rules.now)
        (record { firsts = W.items firsts.new; seconds = W.items seconds.new }))) }
    ensures numbered { IfOk result (λ o. IfSome o (λ blocks.
        AreNumbered (W.items firsts.new) blocks.items)) }
    ensures room { IfOk result (λ o. IfSome o (λ blocks.
        length (W.items seconds.new) ≡ length blocks.items * 2 ^ SECOND)) }
    ensures few { IfOk result (λ o. IfSome o (λ blocks. length blocks.items ≤ groups)) }
    ensures count { IfOk result (λ o. IfSome o (λ blocks.
        length blocks.items ≡ set.len (deep_blocks FIRST SECOND (rules_of rules.now)))) }
    ensures none { IfOk result (λ o. IsNone o
        → groups < set.len (deep_blocks FIRST SECOND (rules_of rules.now))) }
{
    let miss = Entry::Miss.to_word() as u32;
    let mut outer = Frames::new(alloc, miss);
    let mut inner = Frames::new(alloc, miss);
    let mut blocks = Vec::new(alloc);
    let mut next = 0;
    while next < rules.len() {
        let rule = &rules[next];
        let _bits = rule.prefix.bits();
        if rule.prefix.len() <= FIRST {
            put_short(rule, &mut outer, firsts)?;
            next += 1;
            continue;
        }
        let used = blocks.len();
        if used >= groups {
            return Ok(None);
        }
        next = put_group(
            rules,
            next,
            &mut outer,
            &mut inner,
            firsts,
            seconds,
            &mut blocks,
        )?;
    }
    outer.advance(firsts, 1 << FIRST)?;
    Ok(Some(blocks))
}

/// The words of a table of these rules, each stored once, and the blocks that have a group.
///
/// The rules are in the order of their prefixes (see [`in_order`](crate::in_order)); of those of
/// one prefix the last counts. Each block in which a rule longer than `FIRST` bits lies gets a
/// group, and no other does; group 0 belongs to the first such block. There are at most `groups`
/// groups, of which a table has 65,536 at most.
///
/// `None` exactly where more groups are needed, and `AllocError` where memory is short.
pub fn sweep<const FIRST: u32, const SECOND: u32>(
    alloc: Global,
    rules: &[Rule<FIRST, SECOND>],
    groups: usize,
) -> Result<Option<Swept>, AllocError>
    requires shape { IsShape FIRST SECOND }
    requires few { groups ≤ 65536 }
    requires sorted { AreInOrder rules.now }
    ensures represents { IfOk result (λ swept. IfSome swept (λ t.
        Represents FIRST SECOND (rules_of rules.now) (words_of t))) }
    ensures numbered { IfOk result (λ swept. IfSome swept (λ t.
        AreNumbered t.first_words.items t.blocks.items)) }
    ensures room { IfOk result (λ swept. IfSome swept (λ t.
        length t.second_words.items ≡ length t.blocks.items * 2 ^ SECOND)) }
    ensures few { IfOk result (λ swept. IfSome swept (λ t. length t.blocks.items ≤ groups)) }
    ensures count { IfOk result (λ swept. IfSome swept (λ t.
        length t.blocks.items ≡ set.len (deep_blocks FIRST SECOND (rules_of rules.now)))) }
    ensures none { IfOk result (λ swept. IsNone swept
        → groups < set.len (deep_blocks FIRST SECOND (rules_of rules.now))) }
{
    let mut firsts = Vec::with_capacity(alloc, 1 << FIRST)?;
    let mut seconds = Vec::new(alloc);
    let Some(blocks) = sweep_into(alloc, rules, groups, &mut firsts, &mut seconds)? else {
        return Ok(None);
    };
    Ok(Some(Swept {
        first_words: firsts,
        second_words: seconds,
        blocks,
    }))
}
