//! What a running table is opened with.

use lpm_groups::Groups;
use lpm_rules::Rules;
use shared_words::{InitialContent, Layout};

/// What a running table is opened with: its words and the newest token, as the list of shared words has
/// them, where each of them lies, the rules and the groups.
#[derive(Drop)]
pub struct InitialTable<const FIRST: u32, const SECOND: u32> {
    pub words: Vec<u64>,
    pub layout: Layout,
    pub rules: Rules<FIRST, SECOND>,
    pub groups: Groups,
}

impl<const FIRST: u32, const SECOND: u32> InitialContent for InitialTable<FIRST, SECOND> {
    ghost use Rattle.shared_fib.specs.Initial.{initial_data_of_words};

    ghost initial = { λ l. initial_data_of_words FIRST SECOND l.words.items l.layout l.rules.rules l.groups };
}
