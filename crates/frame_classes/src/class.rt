//! The classes of slots.

/// Where an alloca of a coroutine lives.
#[derive(Clone, Copy, Debug, PartialEq, Eq, Drop)]
pub enum SlotClass {
    /// On the stack of the ramp: it isn't used behind a suspend.
    Ramp,
    /// On the stack of each activation, made anew.
    Local,
    /// In the frame.
    Frame,
}
