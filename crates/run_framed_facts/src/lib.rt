//! The facts about paths that a machine of framed modules looks up, and what is seen of its runs by them.
//!
//! `all_framed_facts` gives facts that say what the paths say (`HaveFramedFacts`). For such facts a machine of framed
//! modules shows what the module means, `FramedAt` (`framed_facts_suffice`).
#![tactic(auto)]

mod facts;
mod law;

pub use facts::all_framed_facts;
pub use law::framed_facts_suffice;
