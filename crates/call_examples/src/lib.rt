//! The public calls of low crates, each on worked examples: what a call answers, and where it says so. Those on texts are in
//! `text_examples`, so that both are proved at once.
#![tactic(auto)]

#[cfg(test)]
mod memory;
#[cfg(test)]
mod numbers;
#[cfg(test)]
mod reach;
#[cfg(test)]
mod streams;
