//! How a running table begins with the rules of a list.

ghost use Rattle.std.specs.Prelude.{◌≡◌, ◌↔◌, ◌+◌, ◌-◌, ◌*◌, ◌^◌, ◌<◌, ◌≤◌, ◌++◌, ◌∷◌, IfOk, IfErr, IfSome, IsNone, length, replicate};
ghost use Rattle.lpm_bits.specs.Widths.{IsShape};
ghost use Rattle.lpm_limits.specs.Limits.{IsConfig};
ghost use Rattle.lpm_rules.specs.RuleMap.{AreInOrder, rules_of};
ghost use Rattle.fib_model.specs.Outcomes.{AreSufficient, AreTooSmall, groups_in_use};
ghost use Rattle.shared_words.specs.Layout.{packed_words};
ghost use Rattle.shared_fib.specs.InitialTable.{AreInitialWords, IsInitialTable};
ghost use Rattle.shared_fib.specs.Passes.{IsFullBench};
ghost use Rattle.shared_fib.specs.RunningTable.{initial_data_of, initial_writer};

use crate::initial::go_on;
use crate::{Bench, InitialTable, Pairs, SharedTable, Writer};
use defer_queue::DeferQueue;
use fib::control_of_blocks;
use lpm_limits::Config;
use lpm_rules::{Rule, Rules, count_rules};
use lpm_sweep::{WordList, sweep_into};
use lpm_writer::{ControlState, GroupPool, OpenError};
use shared_words::{Layout, pairs};
use std::alloc::{AllocError, Global};

/// The words that a running table begins with: the sequence, which is 0, the token, the table words of these
/// lists, misses up to so many second words, and a counter for each worker, which is 0. A miss is the word 0.
fn lay_swept(
    firsts: Pairs,
    seconds: &Pairs,
    second_count: usize,
    token: u64,
    workers: usize,
) -> Result<Vec<u64>, AllocError>
    requires firsts { length firsts ≤ 2 ^ 32 }
    requires seconds { length seconds.now ≤ second_count }
    requires second_count { second_count ≤ 2 ^ 48 }
    requires workers { workers ≤ 2048 }
    ensures { IfOk result (λ words. words.items ≡ 0 ∷ token ∷ (packed_words firsts
        ++ (packed_words (seconds.now ++ replicate (second_count - length seconds.now) 0)
        ++ replicate workers 0))) }
{
    let count = 2 + pairs(firsts.count()) + pairs(second_count) + workers;
    let mut words = firsts.into_words(token);
    words.extend_from_slice(seconds.shared())?;
    words.resize(count, 0)?;
    Ok(words)
}

/// The words that a running table with the rules of a list begins with, and the block of each group. `None`
/// exactly where the rules need more groups than there are.
///
/// The first words are swept into a list that has room for all words. The second words, whose number isn't
/// known before, are put behind them once they are swept.
fn sweep_words<const FIRST: u32, const SECOND: u32>(
    alloc: Global,
    config: Config,
    rules: &[Rule<FIRST, SECOND>],
) -> Result<Option<(Vec<u64>, Vec<usize>)>, AllocError>
    requires shape { IsShape FIRST SECOND }
    requires limits { IsConfig config }
    requires sorted { AreInOrder rules.now }
    ensures swept { IfOk result (λ o. IfSome o (λ t.
        AreInitialWords FIRST SECOND config (rules_of rules.now) t.0.items t.1.items)) }
    ensures fit { IfOk result (λ o. IfSome o (λ _.
        groups_in_use FIRST SECOND (rules_of rules.now) ≤ config.groups)) }
    ensures none { IfOk result (λ o. IsNone o
        → config.groups < groups_in_use FIRST SECOND (rules_of rules.now)) }
{
    let second_count = config.groups << SECOND;
    let room = (1 << FIRST) + second_count + config.workers * 2;
    let mut firsts = Pairs::new(alloc, room)?;
    let mut seconds = Pairs::new(alloc, 0)?;
    let Some(blocks) = sweep_into(alloc, rules, config.groups, &mut firsts, &mut seconds)? else {
        return Ok(None);
    };
    let token = config.first_token;
    let words = lay_swept(firsts, &seconds, second_count, token, config.workers)?;
    Ok(Some((words, blocks)))
}

/// What a running table with the rules of a list is opened with, and the queue of the groups that wait, which
/// is empty. These words were swept for the rules, and these blocks have groups.
fn load_swept<const FIRST: u32, const SECOND: u32>(
    alloc: Global,
    config: Config,
    rules: &[Rule<FIRST, SECOND>],
    words: Vec<u64>,
    blocks: &[usize],
) -> Result<(DeferQueue, InitialTable<FIRST, SECOND>), AllocError>
    requires shape { IsShape FIRST SECOND }
    requires limits { IsConfig config }
    requires sorted { AreInOrder rules.now }
    requires swept { AreInitialWords FIRST SECOND config (rules_of rules.now) words.items blocks.now }
    ensures loaded { IfOk result (λ t. IsInitialTable FIRST SECOND config t.0 t.1) }
    ensures rules { IfOk result (λ t. t.1.rules.rules ≡ rules_of rules.now) }
    ensures token { IfOk result (λ t. (initial_data_of FIRST SECOND t.1).token ≡ config.first_token) }
    ensures workers { IfOk result (λ t. t.1.layout.workers ≡ config.workers) }
{
    let rules = Rules::of_sorted(alloc, config.rules, rules)?;
    let control = control_of_blocks(alloc, config, rules, 0, blocks)?;
    let ControlState {
        config: _,
        rules,
        pool,
        versions: _,
    } = control;
    let GroupPool {
        groups,
        queue,
        passed: _,
    } = pool;
    let layout = Layout::new(1 << FIRST, config.groups << SECOND, config.workers);
    let initial = InitialTable {
        words,
        layout,
        rules,
        groups,
    };
    Ok((queue, initial))
}

/// A running table with the rules of a list, which is in the order of its prefixes (see `in_order` of
/// `lpm_sweep`), its writer, and a pass for each worker, all offline. Of the rules of one prefix the last
/// counts. The rules are there at once, as version 0: no change is counted.
///
/// One sweep over the rules writes the words as the running table has them, two neighbours in each, where
/// [`go_live`](crate::go_live) packs those of a `Fib`. The list is given up before the words are copied into the
/// table, which takes the most memory.
///
/// `None` exactly where the limits don't suffice: the rules have more than `config.rules` prefixes, or rules
/// longer than `FIRST` bits lie in more blocks than there are groups. It refuses limits out of range, and ends
/// with `Memory` where there is no room for the rules, the words, the groups or the workers.
pub fn open_sorted<const FIRST: u32, const SECOND: u32>(
    alloc: Global,
    config: Config,
    rules: Vec<Rule<FIRST, SECOND>>,
) -> Result<Option<(SharedTable<FIRST, SECOND>, Writer<FIRST, SECOND>, Bench)>, OpenError>
    requires shape { IsShape FIRST SECOND }
    requires sorted { AreInOrder rules.items }
    ensures opened { IfOk result (λ o. IfSome o (λ r.
        r.1 ≡ initial_writer r.0 config (rules_of rules.entry.items))) }
    ensures token { IfOk result (λ o. IfSome o (λ r. r.0.initial.token ≡ config.first_token)) }
    ensures workers { IfOk result (λ o. IfSome o (λ r. r.0.initial.workers ≡ config.workers)) }
    ensures bench { IfOk result (λ o. IfSome o (λ r. IsFullBench r.0 r.2)) }
    ensures suffice { IfOk result (λ o. IfSome o (λ _.
        AreSufficient FIRST SECOND config (rules_of rules.entry.items))) }
    ensures none { IfOk result (λ o. IsNone o
        → AreTooSmall FIRST SECOND config (rules_of rules.entry.items)) }
    ensures limits { IfOk result (λ _. IsConfig config) }
    ensures bad_config { IfErr result
        (λ error. (error ≡ OpenError.BadConfig) ↔ (¬ IsConfig config)) }
{
    config.check()?;
    if count_rules(&rules) > config.rules {
        return Ok(None);
    }
    let Some((words, blocks)) = sweep_words(alloc, config, &rules)? else {
        return Ok(None);
    };
    let (queue, initial) = load_swept(alloc, config, &rules, words, &blocks)?;
    drop(rules);
    drop(blocks);
    Ok(Some(go_on(alloc, config, queue, initial)?))
}
