//! What the adds that tell the replaced next hop do.

ghost use Rattle.std.specs.Prelude.{◌≡◌};
ghost use Rattle.saxiko_c.specs.Grace.{AtRest};
ghost use Rattle.saxiko_c.specs.Insertions.{InsertsRule, InsertsTo, StoresOld};
ghost use Rattle.saxiko_c.specs.Status.{add_status};

use crate::owner::Owner;
use crate::running_table::number_or;
use crate::stage::Stage;
use crate::status::{EAGAIN, EINVAL, of_add};
use fib::Fib;
use lpm_bits::{Hop, Prefix};
use lpm_limits::Refusal;
use lpm_rules::Put;

/// Stores the next hop that the prefix had.
fn store_replaced(added: Result<Put, Refusal>, replaced: Option<Hop>, had: &mut u32) -> i32
    ensures stores { StoresOld added replaced had.old had.new }
    ensures status { result ≡ add_status added }
{
    if added.is_ok() {
        *had = number_or(replaced, *had);
    }
    of_add(added)
}

pub(crate) fn insert_in_table(
    fib: &mut Fib<24, 8>,
    addr: u32,
    depth: u8,
    hop: u32,
    had: &mut u32,
) -> i32
    ensures { InsertsRule addr depth hop had.old had.new fib.old result fib.new }
{
    match (Prefix::new(addr, u32::from(depth)), Hop::new(hop)) {
        (Ok(prefix), Ok(hop)) => {
            let replaced = fib.get(&prefix);
            store_replaced(fib.add(&prefix, hop), replaced, had)
        }
        _ => EINVAL,
    }
}

pub(crate) fn insert_by_writer(
    owner: &mut Owner,
    addr: u32,
    depth: u8,
    hop: u32,
    had: &mut u32,
) -> i32
    ensures { AtRest (InsertsTo addr depth hop had.old had.new) (had.new ≡ had.old)
        owner.old result owner.new }
{
    let Stage::AtRest(running) = &mut owner.stage else {
        return EAGAIN;
    };
    match (Prefix::new(addr, u32::from(depth)), Hop::new(hop)) {
        (Ok(prefix), Ok(hop)) => {
            let replaced = running.get(&prefix);
            store_replaced(running.add(&prefix, hop), replaced, had)
        }
        _ => EINVAL,
    }
}
