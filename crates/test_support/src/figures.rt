//! The figures of a table, as tests compare them.

use lpm_groups::Counts;

/// The rules, versions, groups in use, groups in limbo, free groups and the token.
pub type Figures = (usize, u64, usize, usize, usize, u64);

/// These figures.
pub fn figures_with(rules: usize, versions: u64, counts: Counts, token: u64) -> Figures {
    (
        rules,
        versions,
        counts.in_use,
        counts.limbo,
        counts.free,
        token,
    )
}
