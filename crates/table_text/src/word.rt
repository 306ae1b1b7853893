// The tokens of a text, one after another.

ghost use Rattle.std.specs.Prelude.{◌≡◌, ◌<◌, ◌≤◌, ◌+◌, ◌-◌, ◌*◌, ◌∷◌, [], true, false, IfSome};
ghost use Rattle.std.specs.Prelude.{IfNone, length, slice_index, slice_range, min};
ghost use Rattle.std.specs.List.{list_all};
ghost use Rattle.std.specs.Char.{is_ascii_digit};
ghost use Rattle.table_text.specs.Token.{is_blank, is_token_byte, is_word_start, is_word_byte};
ghost use Rattle.table_text.specs.Token.{is_word, run_value};
ghost use Rattle.table_text.specs.Reading.{tokens_at};

/// A token of a text.
#[derive(Clone, Copy)]
pub struct TableToken<'a> {
    /// Its first byte, by position in the text.
    pub at: usize,
    /// Its bytes, at least one.
    pub bytes: &'a [u8],
    /// The first byte behind it.
    pub end: usize,
}

/// Whether a byte is a space, a tab, a carriage return or a line end.
pub fn is_blank(byte: u8) -> bool
    ensures { result ≡ is_blank byte }
{
    byte == b' ' || byte == b'\t' || byte == b'\r' || byte == b'\n'
}

/// The first byte from another on that is no blank, or the text's length.
pub fn skip_blanks(text: &[u8], from: usize) -> usize
    requires { from ≤ length text.now }
    ensures behind { from ≤ result }
    ensures within { result ≤ length text.now }
    ensures tokens { tokens_at text.now result ≡ tokens_at text.now from }
    ensures stops { result < length text.now → is_blank (slice_index text.now result) ≡ false }
{
    let mut at = from;
    while at < text.len() && is_blank(text[at]) {
        at += 1;
    }
    at
}

/// The first blank from there on, or the text's length.
fn skip_word(text: &[u8], from: usize) -> usize
    requires { from ≤ length text.now }
    ensures behind { from ≤ result }
    ensures within { result ≤ length text.now }
    ensures word { list_all is_token_byte (slice_range text.now from result) ≡ true }
    ensures stops { result < length text.now → is_blank (slice_index text.now result) ≡ true }
{
    let mut at = from;
    while at < text.len() && !is_blank(text[at]) {
        at += 1;
    }
    at
}

/// The next token from a byte on; none where only blanks are left.
pub fn next_word(text: &[u8], from: usize) -> Option<TableToken<'_>>
    requires { from ≤ length text.now }
    ensures none { IfNone result (tokens_at text.now from ≡ []) }
    ensures word { IfSome result (λ word.
        tokens_at text.now from
        ≡ record { at = word.at; bytes = word.bytes.now } ∷ tokens_at text.now word.end) }
    ensures behind { IfSome result (λ word. from < word.end) }
    ensures within { IfSome result (λ word. word.end ≤ length text.now) }
{
    let at = skip_blanks(text, from);
    let end = skip_word(text, at);
    if at == end {
        return None;
    }
    Some(TableToken {
        at,
        bytes: &text[at..end],
        end,
    })
}

/// A run of digits, which may be empty.
#[derive(Clone, Copy)]
pub struct Run {
    /// Its value, or `TOO_GREAT` where it isn't below that; 0 where there is no digit.
    pub value: u64,
    /// The first byte behind it.
    pub end: usize,
}

/// Greater than every number of 64 bits, with a sign or without its minus.
pub const TOO_GREAT: u64 = 9_223_372_036_854_775_809;

/// The greatest value to which a digit may be added below `TOO_GREAT`.
const LAST_BEFORE: u64 = 922_337_203_685_477_580;

fn with_digit(value: u64, digit: u8) -> u64
    requires value { value ≤ TOO_GREAT }
    requires digit { digit < 10 }
    ensures { result ≡ min (value * 10 + digit) TOO_GREAT }
{
    if value > LAST_BEFORE {
        TOO_GREAT
    } else {
        value * 10 + u64::from(digit)
    }
}

/// The run of digits from a byte on.
pub fn run_at(text: &[u8], from: usize) -> Run
    requires { from ≤ length text.now }
    ensures behind { from ≤ result.end }
    ensures within { result.end ≤ length text.now }
    ensures digits { list_all is_ascii_digit (slice_range text.now from result.end) ≡ true }
    ensures value { result.value
        ≡ min (run_value (slice_range text.now from result.end)) TOO_GREAT }
    ensures stops { result.end < length text.now →
        is_ascii_digit (slice_index text.now result.end) ≡ false }
{
    let mut value = 0;
    let mut at = from;
    while at < text.len() && text[at].is_ascii_digit() {
        value = with_digit(value, text[at] - b'0');
        at += 1;
    }
    Run { value, end: at }
}

fn is_word_start(byte: u8) -> bool
    ensures { result ≡ is_word_start byte }
{
    byte.is_ascii_alphabetic() || byte == b'_'
}

fn is_word_byte(byte: u8) -> bool
    ensures { result ≡ is_word_byte byte }
{
    byte.is_ascii_alphanumeric() || byte == b'_'
}

/// Whether the bytes have the form of a name.
pub fn is_word(bytes: &[u8]) -> bool
    ensures { result ≡ is_word bytes.now }
{
    match bytes.split_first() {
        None => false,
        Some((first, rest)) => is_word_start(*first) && are_word_bytes(rest),
    }
}

fn are_word_bytes(bytes: &[u8]) -> bool
    ensures { result ≡ list_all is_word_byte bytes.now }
{
    bytes.iter().all(|byte| is_word_byte(*byte))
}
