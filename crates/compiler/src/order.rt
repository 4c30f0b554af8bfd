//! The order of names: neither rules nor meaning of a module without coroutines go by it.

pub mod meaning;
pub mod rules;
