//! Readers of the parts that instructions and items share: types, attributes, metadata, balanced texts, values and names.
//!
//! The readers are equal to their reading functions. Lemmas join each to the grammar, both ways.
#![tactic(auto)]

mod attrs;
mod fault;
mod groups;
mod locals;
mod marks;
mod types;
mod values;

pub use attrs::{attrs_of, balanced_of, behind_attrs};
pub use fault::ReadError;
pub use groups::Groups;
pub use locals::Locals;
pub use marks::{mark_of, metadata_of, pairs_of};
pub use types::type_of;
pub use values::{
    align_of, arg_of, constant_of, global_of, local_of, name_of, place_of, target_of, typed_of,
    value_of,
};
