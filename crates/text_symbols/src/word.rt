//! The words of the grammar.

ghost use Rattle.std.specs.Prelude.{◌≡◌, map};
ghost use Rattle.text_symbols.specs.Words.{word_of, word_in, plain_word};

use crate::numbers::are_digits;
use ir_base::{BinOp, CastOp, Pred};
use ir_model::IntWidth;

/// A word that the grammar writes out, or any other.
#[derive(Clone, Copy, Debug, PartialEq, Eq, Drop)]
pub enum Word {
    SourceFilename,
    Target,
    Comdat,
    Type,
    Global,
    Constant,
    Attributes,
    Distinct,
    Declare,
    Define,
    Align,
    Presplitcoroutine,
    Void,
    /// An integer type.
    Int(IntWidth),
    Ptr,
    Token,
    X,
    Phi,
    Icmp,
    Select,
    /// A cast.
    Cast(CastOp),
    Nneg,
    To,
    Alloca,
    Load,
    Store,
    Getelementptr,
    Inbounds,
    Tail,
    Notail,
    Musttail,
    Call,
    /// An operation on integers.
    Bin(BinOp),
    Nuw,
    Nsw,
    Exact,
    Disjoint,
    /// A predicate of `icmp`.
    Pred(Pred),
    Br,
    Label,
    Switch,
    Ret,
    Unreachable,
    True,
    False,
    Null,
    None,
    Poison,
    /// Any other word that may be an attribute.
    Attr,
    /// A word that begins with a dollar sign.
    Dollar,
    /// A word that is none of these.
    Other,
}

/// The word that the bytes spell.
pub fn word_of(text: &[u8]) -> Word
    ensures { result ≡ word_of text.now }
{
    match word_in(WORDS.as_slice(), text) {
        Some(word) => word,
        None => plain_word(text),
    }
}

fn word_in(table: &[(&str, Word)], text: &[u8]) -> Option<Word>
    ensures { result ≡ word_in (map (λ e. (e.0.now, e.1)) table.now) text.now }
{
    for (spelling, word) in table {
        if text == spelling.as_bytes() {
            return Some(*word);
        }
    }
    None
}

/// What a word is that the grammar doesn't write out.
fn plain_word(text: &[u8]) -> Word
    ensures { result ≡ plain_word text.now }
{
    match text {
        [b'$', ..] => Word::Dollar,
        [b'i', digit, digits @ ..] if b'0' <= *digit && *digit <= b'9' && are_digits(digits) => {
            Word::Other
        }
        _ => Word::Attr,
    }
}

static WORDS: [(&str, Word); 84] = [
    ("source_filename", Word::SourceFilename),
    ("target", Word::Target),
    ("comdat", Word::Comdat),
    ("type", Word::Type),
    ("global", Word::Global),
    ("constant", Word::Constant),
    ("attributes", Word::Attributes),
    ("distinct", Word::Distinct),
    ("declare", Word::Declare),
    ("define", Word::Define),
    ("align", Word::Align),
    ("presplitcoroutine", Word::Presplitcoroutine),
    ("void", Word::Void),
    ("i1", Word::Int(IntWidth::I1)),
    ("i8", Word::Int(IntWidth::I8)),
    ("i16", Word::Int(IntWidth::I16)),
    ("i32", Word::Int(IntWidth::I32)),
    ("i64", Word::Int(IntWidth::I64)),
    ("ptr", Word::Ptr),
    ("token", Word::Token),
    ("x", Word::X),
    ("phi", Word::Phi),
    ("icmp", Word::Icmp),
    ("select", Word::Select),
    ("trunc", Word::Cast(CastOp::Trunc)),
    ("zext", Word::Cast(CastOp::Zext)),
    ("sext", Word::Cast(CastOp::Sext)),
    ("nneg", Word::Nneg),
    ("to", Word::To),
    ("alloca", Word::Alloca),
    ("load", Word::Load),
    ("store", Word::Store),
    ("getelementptr", Word::Getelementptr),
    ("inbounds", Word::Inbounds),
    ("tail", Word::Tail),
    ("notail", Word::Notail),
    ("musttail", Word::Musttail),
    ("call", Word::Call),
    ("add", Word::Bin(BinOp::Add)),
    ("sub", Word::Bin(BinOp::Sub)),
    ("mul", Word::Bin(BinOp::Mul)),
    ("shl", Word::Bin(BinOp::Shl)),
    ("udiv", Word::Bin(BinOp::UDiv)),
    ("sdiv", Word::Bin(BinOp::SDiv)),
    ("lshr", Word::Bin(BinOp::LShr)),
    ("ashr", Word::Bin(BinOp::AShr)),
    ("urem", Word::Bin(BinOp::URem)),
    ("srem", Word::Bin(BinOp::SRem)),
    ("and", Word::Bin(BinOp::And)),
    ("or", Word::Bin(BinOp::Or)),
    ("xor", Word::Bin(BinOp::Xor)),
    ("nuw", Word::Nuw),
    ("nsw", Word::Nsw),
    ("exact", Word::Exact),
    ("disjoint", Word::Disjoint),
    ("eq", Word::Pred(Pred::Eq)),
    ("ne", Word::Pred(Pred::Ne)),
    ("ugt", Word::Pred(Pred::Ugt)),
    ("uge", Word::Pred(Pred::Uge)),
    ("ult", Word::Pred(Pred::Ult)),
    ("ule", Word::Pred(Pred::Ule)),
    ("sgt", Word::Pred(Pred::Sgt)),
    ("sge", Word::Pred(Pred::Sge)),
    ("slt", Word::Pred(Pred::Slt)),
    ("sle", Word::Pred(Pred::Sle)),
    ("br", Word::Br),
    ("label", Word::Label),
    ("switch", Word::Switch),
    ("ret", Word::Ret),
    ("unreachable", Word::Unreachable),
    ("true", Word::True),
    ("false", Word::False),
    ("null", Word::Null),
    ("none", Word::None),
    ("poison", Word::Poison),
    ("byval", Word::Other),
    ("sret", Word::Other),
    ("inalloca", Word::Other),
    ("preallocated", Word::Other),
    ("swiftself", Word::Other),
    ("swifterror", Word::Other),
    ("addrspace", Word::Other),
    ("asm", Word::Other),
    ("fence", Word::Other),
];
