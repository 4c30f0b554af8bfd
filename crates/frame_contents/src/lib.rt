//! The frames of a module's coroutines: their fields, in order of the text, and the layouts ("Coroutines in LLVM", "Coroutine
//! Transformation").
//!
//! `frame_of` gives what a coroutine's frame holds, in order of the text, and its layout, or that it is too large
//! (`IsFrameOf`). `layouts_of` gives the layouts of a module's coroutines or the first that is too large
//! (`AreLayouts`), with bytes shared or plain. `layout_text` writes them.
#![tactic(auto)]

mod contents;
mod fields;
mod frames;
mod held;
mod marks;
mod module_frames;
mod positions;
mod promise;
mod report;

pub use contents::{Contents, contents_of};
pub use frame_conflicts::frame_classes_library;
pub use frames::{CoroutineFrame, frame_of};
pub use held::{Holding, result_size, value_size};
pub use module_frames::{LayoutsError, layouts_of};
pub use report::layout_text;
