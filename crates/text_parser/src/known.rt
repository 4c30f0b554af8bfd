//! What the items of the whole text tell about those that come before them.

use ir_alignments::NamedTypes;
use text_reader::Groups;

/// The named types and the attribute groups that make coroutines.
#[derive(Drop)]
pub struct Known {
    pub types: NamedTypes,
    pub groups: Groups,
}
