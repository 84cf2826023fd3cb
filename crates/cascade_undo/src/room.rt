//! Room in lists of transactions.
ghost use Rattle.std.specs.Prelude.{◌≡◌, ◌≤◌, [], IfOk, OnOk, vec_capacity};

use clv_base::names::TxId;
use std::alloc::{AllocError, Global};

/// The empty list with so many places.
pub(crate) fn with_places(alloc: Global, places: usize) -> Result<Vec<TxId>, AllocError>
    ensures items { IfOk result (λ list. list.items ≡ []) }
    ensures room { IfOk result (λ list. places ≤ vec_capacity list) }
{
    let mut list = Vec::new(alloc);
    hold(&mut list, places)?;
    Ok(list)
}

/// Makes the list one of so many places at least.
pub(crate) fn hold(list: &mut Vec<TxId>, places: usize) -> Result<(), AllocError>
    ensures items { list.new.items ≡ list.old.items }
    ensures ok { OnOk result (places ≤ vec_capacity list.new) }
    ensures room { vec_capacity list.old ≤ vec_capacity list.new }
{
    if places <= list.capacity() {
        return Ok(());
    }
    let more = places - list.len();
    list.reserve(more)
}
