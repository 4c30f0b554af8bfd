//! Splitting keeps meaning: the parts of a coroutine, called by its ramp and its resumes, do what the framed form does.
#![tactic(auto)]

pub mod asking;
pub mod begins;
pub mod branching;
pub mod calling;
pub mod code;
pub mod disagreeing;
pub mod ends;
pub mod entering;
pub mod first_exits;
pub mod freeing;
pub mod given_begins;
pub mod given_calls;
pub mod given_ends;
pub mod given_frees;
pub mod giving;
pub mod held;
pub mod making;
pub mod marking;
pub mod numbers;
pub mod own_blocks;
pub mod places;
pub mod priced;
pub mod ready;
pub mod ruled;
pub mod silent;
pub mod simulation;
pub mod states;
pub mod steps;
pub mod transfers;
pub mod waking;
pub mod whole;
pub mod worked;
