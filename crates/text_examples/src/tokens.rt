use text_lexer::{Kind, Next, Span, Token, next_token};

fn token(kind: Kind, start: usize, end: usize) -> Next {
    Next::Tok(Token {
        kind,
        span: Span { start, end },
    })
}

#[test]
fn next_tokens(rt: HostRuntime) {
    assert_eq!(rt; next_token(b"\0", 0), Next::BadByte(0));
    assert_eq!(rt; next_token(b" @", 0), Next::BadByte(1));
    assert_eq!(rt; next_token(b"%", 0), Next::BadByte(0));
    assert_eq!(rt; next_token(b"\"ab", 0), Next::BadByte(0));
    assert_eq!(rt; next_token(b"; [", 0), Next::End);
    assert_eq!(rt; next_token(b";a\n\t[", 0), token(Kind::Mark, 4, 5));
    assert_eq!(rt; next_token(b"%\"\":", 0), token(Kind::Local, 0, 3));
    assert_eq!(rt; next_token(b"-1:", 0), token(Kind::Label, 0, 3));
    assert_eq!(rt; next_token(b"x -12 ", 1), token(Kind::Int, 2, 5));
    assert_eq!(rt; next_token(b"i32,", 0), token(Kind::Word, 0, 3));
    assert_eq!(rt; next_token(b"#07!a", 0), token(Kind::Group, 0, 3));
    assert_eq!(rt; next_token(b"#07!a", 3), token(Kind::Meta, 3, 5));
}

#[test]
fn bytes_of_a_token(rt: HostRuntime) {
    let text = b"ret void";
    let token = Token {
        kind: Kind::Word,
        span: Span { start: 4, end: 8 },
    };
    assert_eq!(rt; token.bytes(text), b"void".as_slice());
}
