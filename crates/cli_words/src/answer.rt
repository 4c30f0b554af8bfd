//! What is answered to the words of a command line.

use crate::words::Words;
use ir_base::Text;

/// What is answered to the words of a command line.
#[derive(Debug, Drop)]
pub enum Taken {
    /// They are words of the command set.
    Words(Words),
    /// They ask for help: its text, for standard output.
    Help(String),
    /// They are refused: the text that says why, for standard error.
    Usage(String),
    /// They are taken, but this word isn't a list: the one of `--args` before that of `--answers`.
    BadList(Text),
}
