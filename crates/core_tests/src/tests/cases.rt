//! Worked cases of a table of one thread, each under its name: commands to a table that was just
//! opened, what comes of each, and after the last command the counts and what lookups find. The
//! expected values were worked out by hand.

use lpm_limits::Config;
use test_support::{Figures, USUAL};

/// A worked case of IPv4.
#[derive(Clone, Copy)]
pub(crate) struct Worked {
    /// The name under which documents speak of the case.
    pub(crate) name: &'static str,
    /// The limits of the table.
    pub(crate) config: Config,
    /// The commands to the table that was just opened, as an update file has them.
    pub(crate) commands: &'static str,
    /// What each command comes to, as `lpmtool apply` writes it.
    pub(crate) outcomes: &'static str,
    /// Addresses, each with the next hop that a lookup finds after the last command.
    pub(crate) answers: &'static str,
    /// The figures after the last command.
    pub(crate) figures: Figures,
}

/// The cases of lookups: every command adds a route.
pub(crate) static LOOKUPS: [Worked; 8] = [
    Worked {
        name: "empty-table",
        config: USUAL,
        commands: "",
        outcomes: "",
        answers: "1.2.3.4 -\n",
        figures: (0, 0, 0, 0, 256, 1),
    },
    Worked {
        name: "short-prefixes",
        config: USUAL,
        commands: "add 10.1.1.0/24 4\nadd 10.0.0.0/8 1\nadd 10.1.0.0/16 2\n",
        outcomes: "added\nadded\nadded\n",
        answers: "10.1.1.255 4\n10.1.2.0 2\n10.2.0.0 1\n9.255.255.255 -\n",
        figures: (3, 3, 0, 0, 256, 1),
    },
    Worked {
        name: "three-routes",
        config: USUAL,
        commands: "add 10.0.0.0/8 1\nadd 10.1.0.0/16 2\nadd 10.1.1.128/25 3\n",
        outcomes: "added\nadded\nadded\n",
        answers: "10.1.1.127 2\n10.1.1.128 3\n10.2.0.0 1\n11.0.0.0 -\n",
        figures: (3, 3, 1, 0, 255, 1),
    },
    Worked {
        name: "reverse-order",
        config: USUAL,
        commands: "add 10.1.1.128/25 3\nadd 10.1.0.0/16 2\nadd 10.0.0.0/8 1\n",
        outcomes: "added\nadded\nadded\n",
        answers: "10.1.1.127 2\n10.1.1.128 3\n10.2.0.0 1\n11.0.0.0 -\n",
        figures: (3, 3, 1, 0, 255, 1),
    },
    Worked {
        name: "top-bit",
        config: USUAL,
        commands: "add 128.0.0.0/1 7\n",
        outcomes: "added\n",
        answers: "127.255.255.255 -\n128.0.0.0 7\n255.255.255.255 7\n",
        figures: (1, 1, 0, 0, 256, 1),
    },
    Worked {
        name: "host-bits",
        config: USUAL,
        commands: "add 10.1.2.3/8 5\n",
        outcomes: "added\n",
        answers: "10.9.9.9 5\n",
        figures: (1, 1, 0, 0, 256, 1),
    },
    Worked {
        name: "last-address",
        config: USUAL,
        commands: "add 255.255.255.255/32 16777215\n",
        outcomes: "added\n",
        answers: "255.255.255.254 -\n255.255.255.255 16777215\n",
        figures: (1, 1, 1, 0, 255, 1),
    },
    Worked {
        name: "default-route",
        config: USUAL,
        commands: "add 0.0.0.0/0 1\nadd 10.0.0.0/8 2\n",
        outcomes: "added\nadded\n",
        answers: "0.0.0.0 1\n10.0.0.0 2\n255.255.255.255 1\n",
        figures: (2, 2, 0, 0, 256, 1),
    },
];

/// The cases of updates, reports and reclaims.
pub(crate) static UPDATES: [Worked; 20] = [
    Worked {
        name: "delete-then-reclaim",
        config: USUAL,
        commands: "add 10.0.0.0/8 1\nadd 10.1.0.0/16 2\nadd 10.1.1.128/25 3\ndel 10.1.1.128/25\n",
        outcomes: "added\nadded\nadded\ndeleted 3\n",
        answers: "10.1.1.128 2\n",
        figures: (2, 4, 0, 1, 255, 2),
    },
    Worked {
        name: "delete-then-reclaim, with the reclaim",
        config: USUAL,
        commands: "add 10.0.0.0/8 1\nadd 10.1.0.0/16 2\nadd 10.1.1.128/25 3\ndel 10.1.1.128/25\n\
            reclaim 16\n",
        outcomes: "added\nadded\nadded\ndeleted 3\nreclaimed 1\n",
        answers: "10.1.1.128 2\n",
        figures: (2, 4, 0, 0, 256, 2),
    },
    Worked {
        name: "one-group",
        config: Config { groups: 1, ..USUAL },
        commands: "add 10.0.0.0/25 1\nadd 10.0.1.0/25 2\n",
        outcomes: "added\nrefused 7 NoGroups\n",
        answers: "10.0.0.0 1\n10.0.1.0 -\n",
        figures: (1, 1, 1, 0, 0, 1),
    },
    Worked {
        name: "held-group",
        config: Config { groups: 1, ..USUAL },
        commands: "online 0\nadd 10.0.0.0/25 1\ndel 10.0.0.0/25\nadd 10.0.1.0/25 2\nquiescent 0\n\
            add 10.0.1.0/25 2\n",
        outcomes: "ok\nadded\ndeleted 1\nrefused 7 NoGroups worker 0 counter 1\nok\nadded\n",
        answers: "10.0.0.0 -\n10.0.1.127 2\n",
        figures: (1, 3, 1, 0, 0, 2),
    },
    Worked {
        name: "outcomes",
        config: USUAL,
        commands: "add 10.0.0.0/8 1\nadd 10.0.0.0/8 1\nadd 10.0.0.0/8 2\ndel 10.0.0.0/8\n\
            del 10.0.0.0/8\n",
        outcomes: "added\nunchanged\nreplaced\ndeleted 2\nrefused 4 NoSuchRule\n",
        answers: "10.0.0.0 -\n",
        figures: (0, 3, 0, 0, 256, 1),
    },
    Worked {
        name: "two-workers",
        config: Config {
            workers: 2,
            ..USUAL
        },
        commands: "add 10.0.0.0/25 1\nadd 10.0.1.0/25 2\nonline 0\ndel 10.0.0.0/25\nonline 1\n\
            del 10.0.1.0/25\nreclaim 16\nquiescent 0\nreclaim 16\noffline 1\nreclaim 16\n",
        outcomes: "added\nadded\nok\ndeleted 1\nok\ndeleted 2\n\
            reclaimed 0 stopped worker 0 counter 1\nok\nreclaimed 1 stopped worker 1 counter 2\n\
            ok\nreclaimed 1\n",
        answers: "10.0.0.0 -\n",
        figures: (0, 4, 0, 0, 256, 3),
    },
    Worked {
        name: "threshold-zero",
        config: Config {
            groups: 4,
            threshold: 0,
            workers: 0,
            ..USUAL
        },
        commands: "add 10.0.0.0/25 1\nadd 10.0.1.0/25 2\ndel 10.0.0.0/25\ndel 10.0.1.0/25\n",
        outcomes: "added\nadded\ndeleted 1\ndeleted 2\n",
        answers: "10.0.0.0 -\n",
        figures: (0, 4, 0, 1, 3, 3),
    },
    Worked {
        name: "one-rule",
        config: Config { rules: 1, ..USUAL },
        commands: "add 10.0.0.0/8 1\nadd 11.0.0.0/8 1\nadd 10.0.0.0/8 5\n",
        outcomes: "added\nrefused 3 TooManyRules\nreplaced\n",
        answers: "10.1.1.128 5\n11.0.0.0 -\n",
        figures: (1, 2, 0, 0, 256, 1),
    },
    Worked {
        name: "flush-report",
        config: USUAL,
        commands: "add 10.0.0.0/8 1\nadd 10.1.0.0/16 2\nadd 10.1.1.128/25 3\nflush\n",
        outcomes: "added\nadded\nadded\nflushed 3\n",
        answers: "10.1.1.128 -\n",
        figures: (0, 4, 0, 1, 255, 2),
    },
    Worked {
        name: "flush-three-groups",
        config: Config {
            groups: 3,
            threshold: 0,
            ..USUAL
        },
        commands: "add 10.0.0.0/25 1\nadd 10.0.1.0/25 2\nadd 10.0.2.0/25 3\nflush\n",
        outcomes: "added\nadded\nadded\nflushed 3\n",
        answers: "10.0.2.0 -\n",
        figures: (0, 4, 0, 1, 2, 4),
    },
    Worked {
        name: "default-route-updates",
        config: USUAL,
        commands: "add 1.2.3.4/0 1\nadd 0.0.0.0/0 1\nadd 10.0.0.0/8 2\ndel 10.0.0.0/8\n",
        outcomes: "added\nunchanged\nadded\ndeleted 2\n",
        answers: "10.0.0.0 1\n255.255.255.255 1\n",
        figures: (1, 3, 0, 0, 256, 1),
    },
    Worked {
        name: "exhausted-add",
        config: Config {
            groups: 1,
            first_token: (1 << 62) - 1,
            ..USUAL
        },
        commands: "add 10.0.0.0/25 1\ndel 10.0.0.0/25\nadd 10.0.0.0/8 1\n",
        outcomes: "added\ndeleted 1\nrefused 6 Exhausted\n",
        answers: "10.0.0.0 -\n",
        figures: (0, 2, 0, 1, 0, 1 << 62),
    },
    Worked {
        name: "last-token",
        config: Config {
            groups: 1,
            first_token: 1 << 62,
            ..USUAL
        },
        commands: "add 10.0.0.0/8 1\ndel 10.0.0.0/8\nflush\n",
        outcomes: "refused 6 Exhausted\nrefused 4 NoSuchRule\nflushed 0\n",
        answers: "10.0.0.0 -\n",
        figures: (0, 0, 0, 0, 1, 1 << 62),
    },
    Worked {
        name: "refused-reports",
        config: USUAL,
        commands: "online 1\noffline 0\nquiescent 0\nonline 0\nonline 0\noffline 0\n",
        outcomes: "refused 10 NoSuchWorker\nrefused 13 NotOnline\nrefused 13 NotOnline\nok\n\
            refused 14 AlreadyOnline\nok\n",
        answers: "",
        figures: (0, 0, 0, 0, 256, 1),
    },
    // In Shape<24, 8> the block is 10.0.1.0/24, and the rule in it 10.0.1.2/32.
    Worked {
        name: "under-a-group",
        config: USUAL,
        commands: "add 10.0.1.0/24 7\nadd 10.0.1.2/32 5\nadd 10.0.1.0/24 3\n",
        outcomes: "added\nadded\nreplaced\n",
        answers: "10.0.0.255 -\n10.0.1.0 3\n10.0.1.1 3\n10.0.1.2 5\n10.0.1.3 3\n10.0.1.255 3\n\
            10.0.2.0 -\n",
        figures: (2, 3, 1, 0, 255, 1),
    },
    Worked {
        name: "collapse",
        config: USUAL,
        commands: "add 10.0.1.0/24 7\nadd 10.0.1.2/32 5\nadd 10.0.1.0/30 6\ndel 10.0.1.2/32\n",
        outcomes: "added\nadded\nadded\ndeleted 5\n",
        answers: "10.0.1.0 6\n10.0.1.2 6\n10.0.1.3 6\n10.0.1.4 7\n10.0.1.255 7\n",
        figures: (2, 4, 1, 0, 255, 1),
    },
    Worked {
        name: "collapse, with both deletes",
        config: USUAL,
        commands: "add 10.0.1.0/24 7\nadd 10.0.1.2/32 5\nadd 10.0.1.0/30 6\ndel 10.0.1.2/32\n\
            del 10.0.1.0/30\n",
        outcomes: "added\nadded\nadded\ndeleted 5\ndeleted 6\n",
        answers: "10.0.0.255 -\n10.0.1.0 7\n10.0.1.2 7\n10.0.1.255 7\n10.0.2.0 -\n",
        figures: (1, 5, 0, 1, 255, 2),
    },
    Worked {
        name: "default-under-a-group",
        config: USUAL,
        commands: "add 10.0.1.2/32 5\nadd 0.0.0.0/0 9\n",
        outcomes: "added\nadded\n",
        answers: "0.0.0.0 9\n10.0.0.255 9\n10.0.1.1 9\n10.0.1.2 5\n10.0.1.3 9\n10.0.2.0 9\n\
            255.255.255.255 9\n",
        figures: (2, 2, 1, 0, 255, 1),
    },
    // The only group stays with its block while one of two long rules is left there.
    Worked {
        name: "second-half, which stays",
        config: Config { groups: 1, ..USUAL },
        commands: "add 10.0.0.0/25 1\nadd 10.0.0.128/25 2\ndel 10.0.0.0/25\nadd 10.0.1.0/25 3\n",
        outcomes: "added\nadded\ndeleted 1\nrefused 7 NoGroups\n",
        answers: "10.0.0.0 -\n10.0.0.127 -\n10.0.0.128 2\n10.0.0.255 2\n10.0.1.0 -\n",
        figures: (1, 3, 1, 0, 0, 1),
    },
    Worked {
        name: "second-half, which goes too",
        config: Config { groups: 1, ..USUAL },
        commands: "add 10.0.0.0/25 1\nadd 10.0.0.128/25 2\ndel 10.0.0.0/25\ndel 10.0.0.128/25\n\
            add 10.0.1.0/25 3\n",
        outcomes: "added\nadded\ndeleted 1\ndeleted 2\nadded\n",
        answers: "10.0.0.0 -\n10.0.0.255 -\n10.0.1.0 3\n10.0.1.128 -\n",
        figures: (1, 5, 1, 0, 0, 2),
    },
];
