//! The parts of a table that opens with rules.

ghost use Rattle.std.specs.Prelude.{◌≡◌, ℕ, ◌-◌, ◌*◌, ◌^◌, ◌≤◌, [], ◌++◌, IfOk, IfSome, IsNone, length, map, replicate};
ghost use Rattle.lpm_bits.specs.Widths.{IsShape};
ghost use Rattle.lpm_cells.specs.declared.entry.Entry.TheVariants.{Miss};
ghost use Rattle.lpm_cells.specs.Words.{word_of, IsWords};
ghost use Rattle.lpm_groups.specs.declared.GroupState.TheVariants.{Free, Linked};
ghost use Rattle.lpm_limits.specs.Limits.{IsConfig};
ghost use Rattle.lpm_rules.specs.RuleMap.{RuleMap, AreInOrder, rules_of};
ghost use Rattle.lpm_update.specs.Represents.{Represents};
ghost use Rattle.lpm_sweep.specs.SweepWords.{AreNumbered, words_of};
ghost use Rattle.fib_model.specs.Outcomes.{AreSufficient, AreTooSmall};
ghost use Rattle.fib_model.specs.Counters.{initial_by_counters};
ghost use Rattle.fib.specs.Fib.{IsSound, table_of};

use defer_queue::DeferQueue;
use lpm_cells::{Entry, PlainCells};
use lpm_groups::Groups;
use lpm_limits::Config;
use lpm_rules::{Rule, Rules, count_rules};
use lpm_sweep::{MOST_SORTED, Swept, in_order, sweep};
use lpm_writer::{ControlState, GroupPool, PlainMemory};
use qsbr::Domain;
use std::alloc::{AllocError, Global};

/// The rules of a list in the order of their prefixes. The error is want of memory, or of room for the
/// sort, which takes at most 67,108,864 rules.
pub fn sorted_rules<const FIRST: u32, const SECOND: u32>(
    alloc: Global,
    rules: &[Rule<FIRST, SECOND>],
) -> Result<Vec<Rule<FIRST, SECOND>>, AllocError>
    ensures few { IfOk result (λ _. length rules.now ≤ 2 ^ 26) }
    ensures ordered { IfOk result (λ v. AreInOrder v.items) }
    ensures same { IfOk result (λ v. rules_of v.items ≡ rules_of rules.now) }
{
    if rules.len() > MOST_SORTED {
        return Err(AllocError);
    }
    in_order(alloc, rules)
}

/// The words of groups, with misses behind them up to so many words.
fn with_misses(mut words: Vec<u32>, count: usize) -> Result<Vec<u32>, AllocError>
    requires { length words.items ≤ count }
    ensures { IfOk result (λ v. v.items
        ≡ words.items ++ replicate (count - length words.items) (word_of Miss)) }
{
    let miss = Entry::Miss.to_word() as u32;
    words.resize(count, miss)?;
    Ok(words)
}

/// The memory of a table of these words, with misses in the rest of its groups, and with all workers
/// offline.
fn memory_of<const FIRST: u32, const SECOND: u32>(
    alloc: Global,
    config: Config,
    first_words: Vec<u32>,
    second_words: Vec<u32>,
) -> Result<PlainMemory<FIRST, SECOND>, AllocError>
    requires shape { IsShape FIRST SECOND }
    requires limits { IsConfig config }
    requires room { length second_words.items ≤ config.groups * 2 ^ SECOND }
    requires represents { (R : RuleMap) × Represents FIRST SECOND R
        (record { firsts = first_words.items; seconds = second_words.items }) }
    ensures firsts { IfOk result (λ m. m.cells.firsts ≡ first_words.items) }
    ensures seconds { IfOk result (λ m. m.cells.seconds ≡ second_words.items
        ++ replicate (config.groups * 2 ^ SECOND - length second_words.items) (word_of Miss)) }
    ensures domain { IfOk result (λ m. m.domain ≡ record {
      token = config.first_token;
      counters = replicate config.workers 0;
    }) }
{
    let second_words = with_misses(second_words, config.groups << SECOND)?;
    let domain = Domain::new(alloc, config.workers, config.first_token)?;
    let cells = PlainCells::of_words(first_words, second_words);
    Ok(PlainMemory { cells, domain })
}

/// What the writer of a table keeps beside its memory, where the table opens with these rules as
/// version `versions`.
///
/// `blocks` says which block has each group, from group 0 on, as a sweep over the rules returns them
/// (`lpm_sweep`). The other groups up to `config.groups` are free, none waits in limbo, and no check
/// of a token has passed. `AllocError` where memory is short.
pub fn control_of_blocks<const FIRST: u32, const SECOND: u32>(
    alloc: Global,
    config: Config,
    rules: Rules<FIRST, SECOND>,
    versions: u64,
    blocks: &[usize],
) -> Result<ControlState<FIRST, SECOND>, AllocError>
    requires limits { IsConfig config }
    requires few { length blocks.now ≤ config.groups }
    ensures { IfOk result (λ l. l ≡ record {
      config = config;
      rules = rules.entry;
      pool = record {
        groups = map Linked blocks.now ++ replicate (config.groups - length blocks.now) Free;
        queue = record { items = []; capacity = config.groups };
        passed = 0;
      };
      versions = versions;
    }) }
{
    let groups = Groups::of_blocks(alloc, blocks, config.groups)?;
    let queue = DeferQueue::new(alloc, config.groups)?;
    let pool = GroupPool {
        groups,
        queue,
        passed: 0,
    };
    Ok(ControlState {
        config,
        rules,
        pool,
        versions,
    })
}

/// The control state and the memory of a table that opens with these rules, as this version, and with the
/// words that were swept for them.
fn parts_with<const FIRST: u32, const SECOND: u32>(
    alloc: Global,
    config: Config,
    rules: Rules<FIRST, SECOND>,
    versions: u64,
    swept: Swept,
) -> Result<(ControlState<FIRST, SECOND>, PlainMemory<FIRST, SECOND>), AllocError>
    requires shape { IsShape FIRST SECOND }
    requires limits { IsConfig config }
    requires max { rules.max ≡ config.rules }
    requires count { versions ≤ 2 ^ 61 }
    requires represents { Represents FIRST SECOND rules.rules (words_of swept) }
    requires numbered { AreNumbered swept.first_words.items swept.blocks.items }
    requires room { length swept.second_words.items
        ≡ length swept.blocks.items * 2 ^ SECOND }
    requires few { length swept.blocks.items ≤ config.groups }
    ensures sound { IfOk result (λ t. IsSound FIRST SECOND t.0 t.1) }
    ensures config { IfOk result (λ t. t.0.config ≡ config) }
    ensures table { IfOk result (λ t. table_of t.0 t.1
        ≡ record (initial_by_counters config) { rules = rules.entry.rules; updates_begun = versions }) }
{
    let Swept {
        first_words,
        second_words,
        blocks,
    } = swept;
    let control = control_of_blocks(alloc, config, rules, versions, &blocks)?;
    let memory = memory_of(alloc, config, first_words, second_words)?;
    Ok((control, memory))
}

/// The control state and the memory of a table that opens with the rules of a list, which is in the order of
/// its prefixes. `None` exactly where the limits don't suffice for its rules, or for their groups.
pub(crate) fn parts_of<const FIRST: u32, const SECOND: u32>(
    alloc: Global,
    config: Config,
    rules: &[Rule<FIRST, SECOND>],
) -> Result<Option<(ControlState<FIRST, SECOND>, PlainMemory<FIRST, SECOND>)>, AllocError>
    requires shape { IsShape FIRST SECOND }
    requires limits { IsConfig config }
    requires sorted { AreInOrder rules.now }
    ensures sound { IfOk result (λ o. IfSome o (λ t. IsSound FIRST SECOND t.0 t.1)) }
    ensures config { IfOk result (λ o. IfSome o (λ t. t.0.config ≡ config)) }
    ensures table { IfOk result (λ o. IfSome o (λ t. table_of t.0 t.1
        ≡ record (initial_by_counters config) { rules = rules_of rules.now })) }
    ensures suffice { IfOk result (λ o. IfSome o (λ _.
        AreSufficient FIRST SECOND config (rules_of rules.now))) }
    ensures none { IfOk result (λ o. IsNone o
        → AreTooSmall FIRST SECOND config (rules_of rules.now)) }
{
    if count_rules(rules) > config.rules {
        return Ok(None);
    }
    let Some(swept) = sweep(alloc, rules, config.groups)? else {
        return Ok(None);
    };
    let rules = Rules::of_sorted(alloc, config.rules, rules)?;
    let parts = parts_with(alloc, config, rules, 0, swept)?;
    Ok(Some(parts))
}

/// The control state and the memory of a table that opens with the rules of a rule list, as version
/// `versions`. `sorted` is a list of the same rules in the order of its prefixes. `None` exactly where
/// the limits don't suffice for the rules, or for their groups.
pub(crate) fn parts_at<const FIRST: u32, const SECOND: u32>(
    alloc: Global,
    config: Config,
    rules: Rules<FIRST, SECOND>,
    versions: u64,
    sorted: &[Rule<FIRST, SECOND>],
) -> Result<Option<(ControlState<FIRST, SECOND>, PlainMemory<FIRST, SECOND>)>, AllocError>
    requires shape { IsShape FIRST SECOND }
    requires limits { IsConfig config }
    requires sorted { AreInOrder sorted.now }
    requires same { rules.rules ≡ rules_of sorted.now }
    requires max { rules.max ≡ config.rules }
    requires count { versions ≤ 2 ^ 61 }
    ensures sound { IfOk result (λ o. IfSome o (λ t. IsSound FIRST SECOND t.0 t.1)) }
    ensures config { IfOk result (λ o. IfSome o (λ t. t.0.config ≡ config)) }
    ensures table { IfOk result (λ o. IfSome o (λ t. table_of t.0 t.1
        ≡ record (initial_by_counters config) { rules = rules.entry.rules; updates_begun = versions })) }
    ensures suffice { IfOk result (λ o. IfSome o (λ _.
        AreSufficient FIRST SECOND config rules.entry.rules)) }
    ensures none { IfOk result (λ o. IsNone o
        → AreTooSmall FIRST SECOND config rules.entry.rules) }
{
    if rules.len() > config.rules {
        return Ok(None);
    }
    let Some(swept) = sweep(alloc, sorted, config.groups)? else {
        return Ok(None);
    };
    let parts = parts_with(alloc, config, rules, versions, swept)?;
    Ok(Some(parts))
}
