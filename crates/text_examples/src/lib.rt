//! The public calls of low crates on texts and shapes, each on worked examples: what a call answers, and where it says
//! so.
#![tactic(auto)]

#[cfg(test)]
mod frames;
#[cfg(test)]
mod names;
#[cfg(test)]
mod shape;
#[cfg(test)]
mod symbols;
#[cfg(test)]
mod tokens;
