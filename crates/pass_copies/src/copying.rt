//! How the slots of a function are copied.

use crate::slot::EarlySlot;
use ir_base::Items;
use pass_fetch::Fetch;

/// How the slots of a function are copied.
#[derive(Drop)]
pub struct Copying {
    /// The slots that are used before begin, in order of their allocas.
    pub slots: Items<EarlySlot>,
    /// For each name how it is fetched at a point before begin.
    pub fetches: Items<Option<Fetch>>,
    /// For each label whether a suspend's resume or destroy edge leads to it.
    pub resumed: Items<bool>,
}
