ghost use Rattle.lpm_bits.specs.Widths.{IsShape};

use super::asserts::{assert_at, assert_shown};
use super::cases::{LOOKUPS, UPDATES, Worked};
use fib::{Fib, Replay};
use fib_model::{Order, Outcome};
use fib_reference::{Account, account_of};
use lpm_bits::{Hop, Shape};
use lpm_limits::{BadConfig, Busy, Config, Refusal};
use lpm_rules::{Put, Rule};
use lpm_writer::OpenError;
use route_text::{outcomes_text, read_updates_v1};
use std::alloc::{AllocError, Global};
use std::net::Ipv4Addr;
use std::process::Abort;
use std::test::Fail;
use test_support::{
    DEFAULT_HOP, FOUR, FOUR_HOPS, FOUR_NUMBERS, Figures, Row, THREE, USUAL, draw, figures_with,
    hop, hop_number, limits, other_hop, prefix, rule_of,
};

pub(crate) fn figures<const FIRST: u32, const SECOND: u32>(fib: &Fib<FIRST, SECOND>) -> Figures {
    figures_with(fib.rules(), fib.versions(), fib.counts(), fib.token())
}

pub(crate) fn figures_of_replay(replay: &Replay) -> Figures {
    figures_with(replay.rules, replay.versions, replay.counts, replay.token)
}

fn figures_of(account: &Account) -> Figures {
    figures_with(
        account.rules,
        account.versions,
        account.counts,
        account.token,
    )
}

// The table, which was just opened, does what the slow program computes.
fn assert_agrees<const FIRST: u32, const SECOND: u32>(
    rt: &impl Abort,
    alloc: Global,
    config: Config,
    fib: &mut Fib<FIRST, SECOND>,
    orders: &[Order<FIRST, SECOND>],
)
    requires { IsShape FIRST SECOND }
{
    assert!(rt; config.check().is_ok());
    let account = account_of(alloc, &config, orders).expect(rt, "memory");
    let outcomes = fib.execute_all(alloc, orders).expect(rt, "memory");
    assert_at(
        rt,
        orders.len(),
        outcomes.as_slice(),
        account.outcomes.as_slice(),
    );
    assert_at(rt, orders.len(), figures(fib), figures_of(&account));
}

// A lookup of the address finds the next hop of this number.
pub(crate) fn assert_number(
    rt: &impl Abort,
    name: &str,
    fib: &Fib<24, 8>,
    addr: u32,
    number: Option<u32>,
) {
    assert!(rt; Shape::<24, 8>::is_addr(addr));
    assert_at(rt, (name, addr), hop_number(fib.lookup(addr)), number);
}

pub(crate) fn assert_numbers(rt: &impl Abort, name: &str, fib: &Fib<24, 8>, rows: &[Row]) {
    for (addr, number) in rows {
        assert_number(rt, name, fib, *addr, Some(*number));
    }
}

// The line has an address, and the number of its next hop, or no number where it has none.
fn assert_answer(rt: &impl Abort, name: &str, fib: &Fib<24, 8>, line: &str) {
    let (addr, number) = line.split_once(' ').expect(rt, "two fields");
    let addr = addr.parse::<Ipv4Addr>().expect(rt, "an address");
    assert_number(rt, name, fib, addr.to_bits(), number.parse::<u32>().ok());
}

fn assert_answers(rt: &impl Abort, name: &str, fib: &Fib<24, 8>, answers: &str) {
    for line in answers.lines() {
        assert_answer(rt, name, fib, line);
    }
}

// The outcomes and the figures are those that were worked out by hand.
fn assert_account(
    rt: &impl Abort,
    alloc: Global,
    case: &Worked,
    outcomes: &[Outcome],
    figures: Figures,
) {
    let text = outcomes_text(alloc, outcomes).expect(rt, "memory");
    let lines = str::from_utf8(&text).expect(rt, "a text");
    assert_at(
        rt,
        case.name,
        (lines, figures),
        (case.outcomes, case.figures),
    );
}

fn assert_computed(rt: &impl Abort, alloc: Global, case: &Worked, orders: &[Order<24, 8>]) {
    assert!(rt; case.config.check().is_ok());
    let account = account_of(alloc, &case.config, orders).expect(rt, "memory");
    assert_account(rt, alloc, case, &account.outcomes, figures_of(&account));
}

fn assert_done(
    rt: &impl Abort,
    alloc: Global,
    case: &Worked,
    orders: &[Order<24, 8>],
    fib: &mut Fib<24, 8>,
) {
    let outcomes = fib.execute_all(alloc, orders).expect(rt, "memory");
    assert_account(rt, alloc, case, &outcomes, figures(fib));
    assert_answers(rt, case.name, fib, case.answers);
}

// The slow program and the table do what was worked out by hand.
fn assert_case(rt: &impl Abort, alloc: Global, case: &Worked) {
    let orders = read_updates_v1(alloc, case.commands.as_bytes()).expect(rt, "commands");
    assert_computed(rt, alloc, case, &orders);
    let mut fib = Fib::open(alloc, case.config).expect(rt, "memory");
    assert_done(rt, alloc, case, &orders, &mut fib);
    drop(fib);
}

#[test]
fn lookup_cases(rt: HostRuntime) {
    for case in &LOOKUPS {
        assert_case(&rt, rt.alloc(), case);
    }
}

#[test]
fn update_cases(rt: HostRuntime) {
    for case in &UPDATES {
        assert_case(&rt, rt.alloc(), case);
    }
}

// A rule for each address of the block 10.0.0.0/24.
fn block_of_rules(rt: &impl Abort, alloc: Global) -> Vec<Order<24, 8>> {
    let mut orders = Vec::new(alloc);
    for last in 0..256u32 {
        let order = Order::Add(prefix(0x0a00_0000 | last, 32), hop(9));
        orders.push(order).expect(rt, "memory");
    }
    orders
}

#[test]
fn full_block(rt: HostRuntime) {
    let orders = block_of_rules(&rt, rt.alloc());
    let mut fib = Fib::open(rt.alloc(), USUAL).expect(&rt, "memory");
    assert_agrees(&rt, rt.alloc(), USUAL, &mut fib, &orders);
    assert_at(&rt, "figures", figures(&fib), (256, 256, 1, 0, 255, 1));
    let answers = "9.255.255.255 -\n10.0.0.77 9\n10.0.1.0 -\n";
    assert_answers(&rt, "full-block", &fib, answers);
    drop(fib);
}

// An order to a small table: of 28 prefixes, four next hops, two workers and one that isn't there.
fn draw_order(seed: &mut u32) -> Order<4, 4> {
    let kind = draw(seed) % 20;
    let number = draw(seed) % 3;
    let prefix = prefix(draw(seed) % 64, 4 + draw(seed) % 3);
    match kind {
        0 => Order::Flush,
        1 => Order::Reclaim(number as usize),
        2 | 3 => Order::Online(number),
        4 => Order::Offline(number),
        5 => Order::Quiescent(number),
        6..=11 => Order::Del(prefix),
        _ => Order::Add(prefix, hop(draw(seed) % 4)),
    }
}

// The next hop of the longest rule that covers the address, found by the rules alone.
fn hop_by_rules(fib: &Fib<4, 4>, addr: u32) -> Option<Hop> {
    for shorter in 0..=8u32 {
        if let Some(hop) = fib.get(&prefix(addr, 8 - shorter)) {
            return Some(hop);
        }
    }
    None
}

// Each lookup answers what the rules alone say.
fn assert_lookups(rt: &impl Abort, fib: &Fib<4, 4>) {
    for addr in 0..256u32 {
        assert_at(rt, addr, fib.lookup(addr), hop_by_rules(fib, addr));
    }
}

const SMALL: Config = Config {
    rules: 9,
    groups: 3,
    workers: 2,
    threshold: 1,
    reclaim_max: 1,
    first_token: 1,
};

// A table agrees with the slow program, and each lookup with the table's rules.
fn assert_drawn(rt: &impl Abort, alloc: Global, orders: &[Order<4, 4>]) {
    let mut fib = Fib::open(alloc, SMALL).expect(rt, "memory");
    assert_agrees(rt, alloc, SMALL, &mut fib, orders);
    assert_lookups(rt, &fib);
    drop(fib);
}

// Draws five more orders.
fn draw_more(rt: &impl Abort, seed: &mut u32, orders: &mut Vec<Order<4, 4>>) {
    for _ in 0..5 {
        orders.push(draw_order(seed)).expect(rt, "memory");
    }
}

// Each of many lists of orders, one longer than the other, comes out as the slow program says.
#[test]
fn drawn_commands(rt: HostRuntime) {
    let mut seed = 1;
    let mut orders = Vec::new(rt.alloc());
    for _ in 0..40 {
        draw_more(&rt, &mut seed, &mut orders);
        assert_drawn(&rt, rt.alloc(), &orders);
    }
}

// Orders by which the three routes are added.
fn three_routes(rt: &impl Abort, alloc: Global) -> Vec<Order<24, 8>> {
    let mut orders = Vec::new(alloc);
    for plain in &THREE {
        let Rule { prefix, hop } = rule_of::<24, 8>(*plain).expect(rt, "a rule");
        orders.push(Order::Add(prefix, hop)).expect(rt, "memory");
    }
    orders
}

fn assert_reads(rt: &impl Abort, fib: &Fib<24, 8>) {
    let route = prefix(0x0a01_0000, 16);
    let other = prefix(0x0b00_0000, 8);
    assert_at(rt, "its rule", fib.get(&route), Some(hop(2)));
    assert_at(rt, "covered", fib.prefetch(&route), true);
    assert_at(rt, "uncovered", fib.prefetch(&other), false);
    assert_at(rt, "lookup4", fib.lookup4(FOUR, DEFAULT_HOP), FOUR_HOPS);
    assert_at(rt, "config", fib.config(), Config::default());
}

fn assert_all_found(rt: &impl Abort, alloc: Global, fib: &Fib<24, 8>) {
    let hops = fib.lookup_all(alloc, &FOUR).expect(rt, "memory");
    assert_at(rt, "place", other_hop(&hops, &FOUR_NUMBERS), None);
}

// The three routes are added, and then answer.
fn assert_added(rt: &impl Abort, fib: &mut Fib<24, 8>, orders: &[Order<24, 8>]) {
    for order in orders {
        let outcome = fib.execute(order);
        assert_at(rt, *order, outcome, Outcome::Put(Put::Added));
    }
    assert_reads(rt, fib);
}

#[test]
fn lookups_of_three_routes(rt: HostRuntime) {
    let mut fib = Fib::open(rt.alloc(), Config::default()).expect(&rt, "memory");
    assert_added(&rt, &mut fib, &three_routes(&rt, rt.alloc()));
    assert_all_found(&rt, rt.alloc(), &fib);
    drop(fib);
}

fn assert_replay(rt: &impl Abort, replay: &Replay) {
    assert_at(
        rt,
        "figures",
        figures_of_replay(replay),
        (3, 3, 1, 0, 255, 1),
    );
    assert_at(rt, "place", other_hop(&replay.hops, &FOUR_NUMBERS), None);
}

#[test]
fn replay_of_three_routes(rt: HostRuntime) {
    let orders = three_routes(&rt, rt.alloc());
    let replay = Fib::<24, 8>::replay(rt.alloc(), Config::default(), &orders, &FOUR);
    assert_replay(&rt, &replay.expect(&rt, "memory"));
}

#[test]
fn configs(rt: HostRuntime) {
    let refused = Fib::<24, 8>::open(rt.alloc(), limits(1, 0)).err();
    assert_at(&rt, "no groups", refused, Some(OpenError::BadConfig));
    let errors = [OpenError::from(BadConfig), OpenError::from(AllocError)];
    let wanted = [OpenError::BadConfig, OpenError::Memory];
    assert_at(&rt, "errors", errors, wanted);
    let text = "a limit of the table is outside its range";
    assert_shown(&rt, rt.alloc(), &OpenError::BadConfig, text);
    assert_shown(&rt, rt.alloc(), &OpenError::Memory, "out of memory");
}

// Worker 0 holds the group of a rule that came and went.
fn hold_a_group(rt: &impl Abort, fib: &mut Fib<24, 8>) {
    let route = prefix(0x0a00_0000, 25);
    if fib.config().workers > 0 && !fib.is_online(0) {
        fib.online(0);
    }
    assert_at(rt, "it comes", fib.add(&route, hop(1)), Ok(Put::Added));
    assert_at(rt, "it goes", fib.delete(&route), Ok(hop(1)));
}

// A rule in another block finds no group, and everything stays as it was.
fn assert_refused(rt: &impl Abort, fib: &mut Fib<24, 8>) {
    let route = prefix(0x0a00_0100, 25);
    let before = figures(fib);
    let oldest = Some(Busy {
        worker: 0,
        counter: 1,
    });
    let refused = Err(Refusal::NoGroups { oldest });
    assert_at(rt, "an add", fib.add(&route, hop(2)), refused);
    assert_at(rt, "counts", figures(fib), before);
    assert_at(rt, "lookup", fib.lookup(0x0a00_0100), Some(hop(7)));
    assert_at(rt, "rule", fib.get(&route), None);
}

// A refused change leaves everything as it was, and the worker that holds the group is named.
#[test]
fn a_refusal_changes_nothing(rt: HostRuntime) -> Result<(), Fail> {
    let mut fib = Fib::<24, 8>::open(rt.alloc(), limits(1_048_576, 1))?;
    let cover = prefix(0x0a00_0000, 8);
    let added = fib.add(&cover, hop(7));
    assert_at(&rt, "cover", added, Ok(Put::Added));
    hold_a_group(&rt, &mut fib);
    assert_refused(&rt, &mut fib);
    drop(fib);
    Ok(())
}

// The rule is added, at the latest by the second try; the first, where it's refused, changes nothing.
fn assert_grows(rt: &impl Abort, fib: &mut Fib<4, 4>) {
    let route = prefix(0x12, 8);
    let before = (0, 0, 0, 0, 2, 1);
    if fib.add(&route, hop(3)) == Err(Refusal::Memory) {
        let found = (fib.get(&route), fib.lookup(0x12));
        assert_at(rt, "refused", figures(fib), before);
        assert_at(rt, "no rule", found, (None, None));
        assert_at(rt, "again", fib.add(&route, hop(3)), Ok(Put::Added));
    }
    let counts = (fib.rules(), fib.versions(), fib.token());
    assert_at(rt, "rules, versions, token", counts, (1, 1, 1));
    assert_at(rt, "lookup", fib.lookup(0x12), Some(hop(3)));
}

// A growth that is refused leaves everything as it was, and the same addition then succeeds. Memory runs
// short here only where each allocation is made to fail in turn.
#[test]
fn a_refused_growth(rt: HostRuntime) -> Result<(), Fail> {
    let mut fib = Fib::<4, 4>::open(rt.alloc(), limits(1_048_576, 2))?;
    assert_grows(&rt, &mut fib);
    drop(fib);
    Ok(())
}
