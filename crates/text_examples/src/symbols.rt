use ir_base::Name;
use std::test::Fail;
use text_symbols::{Mark, Sym, Word, symbols_of};

/// A sign for each symbol.
fn sign(symbol: &Sym) -> char {
    match symbol {
        Sym::Label(ident) | Sym::Local(ident) | Sym::Global(ident) => match ident.name() {
            None => '-',
            Some(Name::Number(n)) => { if *n == 7 { '7' } else { 'n' } }
            Some(Name::Text(text)) => {
                if text.as_bytes() == b"a\\41".as_slice() {
                    'q'
                } else {
                    't'
                }
            }
        },
        Sym::Word(Word::Define) => 'd',
        Sym::Word(Word::Attr) => 'w',
        Sym::Word(Word::Dollar) => '$',
        Sym::Word(_) => 'o',
        Sym::Int(_) => 'i',
        Sym::Negative(_) => 'm',
        Sym::LongInt => 'l',
        Sym::Str => 's',
        Sym::Group(digits) => { if digits.len() == 1 { 'g' } else { 'z' } }
        Sym::Meta => '!',
        Sym::Mark(Mark::Comma) => ',',
        Sym::Mark(_) => '*',
    }
}

#[test]
fn symbols_of_texts(rt: HostRuntime) -> Result<(), Fail> {
    let alloc = rt.alloc();
    for (text, signs, whole) in [
        ("define i128 noundef $a a: 7:", "dow$t7", true),
        ("%007 @\"007\" %\"a\\\\41\" %\"\" @\"\\00\"", "7tq--", true),
        ("%4294967295 %4294967296", "n-", true),
        (
            "18446744073709551615 18446744073709551616 -0 -18446744073709551616",
            "ilml",
            true,
        ),
        ("#00 #01 !a ! \"s\" , = ; end", "zg!!s,*", true),
        ("define \"s", "d", false),
    ] {
        let symbols = symbols_of(alloc, text.as_bytes())?;
        assert_eq!(rt; symbols.whole, whole, "{text}");
        let all: String = symbols.symbols.as_slice().iter().map(sign).collect(alloc)?;
        assert_eq!(rt; all.as_str(), signs, "{text}");
    }
    Ok(())
}
