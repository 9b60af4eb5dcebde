//! The text of updates.
ghost use Rattle.std.specs.Prelude.{◌≡◌, List, ◌++◌, All, OnOk, IfOk};
ghost use Rattle.route_text.specs.Texts.{update_text, update_line, update_lines};
ghost use Rattle.route_text.specs.Texts.{addition_text, deletion_text};
ghost use Rattle.route_text.specs.Updates.{AreUpdates, IsCountInRange};
ghost use Rattle.route_text.specs.Starts.{IsSound};
ghost use Rattle.fib_model.specs.declared.orders.Order.{Order};
ghost use Rattle.fib_model.specs.declared.orders.Order.TheVariants as orders;

use crate::Order;
use crate::pieces::{put_named, put_prefix};
use lpm_bits::{Hop, Prefix};
use std::alloc::{AllocError, Global};

/// Adds an addition.
fn put_addition(text: &mut Vec<u8>, prefix: Prefix<24, 8>, hop: Hop) -> Result<(), AllocError>
    ensures written { OnOk result (text.new.items ≡ text.old.items ++ addition_text prefix hop) }
    ensures sound { OnOk result (IsSound (orders.Add prefix hop)) }
{
    text.extend_from_slice(b"add ")?;
    put_prefix(text, prefix)?;
    put_named(text, b" ", u64::from(hop.number()))
}

/// Adds a deletion.
fn put_deletion(text: &mut Vec<u8>, prefix: Prefix<24, 8>) -> Result<(), AllocError>
    ensures written { OnOk result (text.new.items ≡ text.old.items ++ deletion_text prefix) }
    ensures sound { OnOk result (IsSound (orders.Del prefix)) }
{
    text.extend_from_slice(b"del ")?;
    put_prefix(text, prefix)
}

/// Adds an update.
fn put_update(text: &mut Vec<u8>, order: Order) -> Result<(), AllocError>
    ensures written { OnOk result (text.new.items ≡ text.old.items ++ update_text order) }
    ensures sound { OnOk result (IsSound order) }
{
    match order {
        Order::Add(prefix, hop) => put_addition(text, prefix, hop),
        Order::Del(prefix) => put_deletion(text, prefix),
        Order::Flush => text.extend_from_slice(b"flush"),
        Order::Reclaim(count) => put_named(text, b"reclaim ", count as u64),
        Order::Online(worker) => put_named(text, b"online ", u64::from(worker)),
        Order::Offline(worker) => put_named(text, b"offline ", u64::from(worker)),
        Order::Quiescent(worker) => put_named(text, b"quiescent ", u64::from(worker)),
    }
}

/// Adds the line of an update.
fn put_line(text: &mut Vec<u8>, order: Order) -> Result<(), AllocError>
    ensures written { OnOk result (text.new.items ≡ text.old.items ++ update_line order) }
    ensures sound { OnOk result (IsSound order) }
{
    put_update(text, order)?;
    text.push(b'\n')?;
    Ok(())
}

/// The update file of version 2 with these updates: the header, and then a line for each, in order.
///
/// It is asked for counts of at most 65,536, as they are read. `AllocError` comes where room for
/// the text is refused.
pub fn updates_text(alloc: Global, orders: &[Order]) -> Result<Vec<u8>, AllocError>
    requires { All IsCountInRange orders.now }
    ensures text { IfOk result (λ v. v.items ≡ update_lines orders.now) }
    ensures reads_back { IfOk result (λ v. AreUpdates v.items orders.now) }
    ensures alone { IfOk result (λ v.
        (others : List (Order 24 8)) → AreUpdates v.items others → others ≡ orders.now) }
{
    let mut text = Vec::from_slice(alloc, b"lpm-updates 2\n")?;
    for order in orders {
        put_line(&mut text, *order)?;
    }
    Ok(text)
}
