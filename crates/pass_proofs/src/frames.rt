//! The passes that build frames, one behind another: what they ask of each other, and that the framed form may be
//! split.

pub mod begin_order;
pub mod crossing;
pub mod headings;
pub mod names_apart;
pub mod numbers;
pub mod rules;
pub mod shape;
pub mod slots_behind;
pub mod unnamed;
pub mod unused_frames;
