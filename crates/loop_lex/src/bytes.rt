// The bytes of the alphabet.

ghost use Rattle.std.specs.Prelude.{◌≡◌};
ghost use Rattle.loop_lex.specs.Bytes.{is_blank, starts_word, continues_word, is_single_sign};
ghost use Rattle.loop_lex.specs.Bytes.{is_double_sign};

/// Whether the byte separates tokens.
pub(crate) fn is_blank(byte: u8) -> bool
    ensures { result ≡ is_blank byte }
{
    matches!(byte, b' ' | b'\t' | b'\r' | b'\n')
}

/// Whether a word can begin with the byte.
pub(crate) fn starts_word(byte: u8) -> bool
    ensures { result ≡ starts_word byte }
{
    matches!(byte, b'a'..=b'z' | b'A'..=b'Z' | b'_')
}

/// Whether a word can go on with the byte.
pub(crate) fn continues_word(byte: u8) -> bool
    ensures { result ≡ continues_word byte }
{
    matches!(byte, b'a'..=b'z' | b'A'..=b'Z' | b'_' | b'0'..=b'9')
}

/// Whether the byte alone is a sign.
pub(crate) fn is_single_sign(byte: u8) -> bool
    ensures { result ≡ is_single_sign byte }
{
    matches!(
        byte,
        b'(' | b')'
            | b'{'
            | b'}'
            | b'['
            | b']'
            | b','
            | b';'
            | b'='
            | b'+'
            | b'-'
            | b'*'
            | b'/'
            | b'%'
            | b'<'
            | b'>'
    )
}

/// Whether the two bytes together are a sign.
pub(crate) fn is_double_sign(first: u8, second: u8) -> bool
    ensures { result ≡ is_double_sign first second }
{
    match second {
        b'=' => matches!(first, b'=' | b'!' | b'<' | b'>'),
        b'.' => first == b'.',
        _ => false,
    }
}
