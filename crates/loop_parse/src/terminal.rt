// Terminals: what the grammar makes of a token.

ghost use Rattle.std.specs.Prelude.{◌≡◌, slice_range, length, ◌≤◌, ◌<◌};
ghost use Rattle.loop_parse.specs.Spelling.{reserved, two_letters, three_letters, four_letters};
ghost use Rattle.loop_parse.specs.Spelling.{five_letters, six_letters, sign_of, single_sign};
ghost use Rattle.loop_parse.specs.Spelling.{terminal_of, spells};
ghost use Rattle.loop_lex.specs.Lexical.{text_of};

use loop_lex::{Token, TokenKind};
use tp_value::Place;

/// A reserved word or a sign.
#[derive(Clone, Copy, PartialEq, Eq, Debug)]
pub enum Fixed {
    /// `input`.
    Input,
    /// `table`.
    Table,
    /// `fn`.
    Fn,
    /// `return`.
    Return,
    /// `main`.
    Main,
    /// `let`.
    Let,
    /// `if`.
    If,
    /// `else`.
    Else,
    /// `while`.
    While,
    /// `loop`.
    Loop,
    /// `par`.
    Par,
    /// `in`.
    In,
    /// `carry`.
    Carry,
    /// `reduce`.
    Reduce,
    /// `by`.
    By,
    /// `fold`.
    Fold,
    /// `with`.
    With,
    /// `call`.
    Call,
    /// `both`.
    Both,
    /// `print`.
    Print,
    /// `emit`.
    Emit,
    /// `rows`.
    Rows,
    /// `cols`.
    Cols,
    /// `add`.
    Add,
    /// `mul`.
    Mul,
    /// `min`.
    Min,
    /// `max`.
    Max,
    /// `affine`.
    Affine,
    /// `leave`.
    Leave,
    /// `(`.
    OpenRound,
    /// `)`.
    CloseRound,
    /// `{`.
    OpenBrace,
    /// `}`.
    CloseBrace,
    /// `[`.
    OpenSquare,
    /// `]`.
    CloseSquare,
    /// `,`.
    Comma,
    /// `;`.
    Semi,
    /// `=`.
    Assign,
    /// `+`.
    Plus,
    /// `-`.
    Minus,
    /// `*`.
    Star,
    /// `/`.
    Slash,
    /// `%`.
    Percent,
    /// `==`.
    Same,
    /// `!=`.
    Differs,
    /// `<`.
    Less,
    /// `<=`.
    AtMost,
    /// `>`.
    Greater,
    /// `>=`.
    AtLeast,
    /// `..`.
    DotDot,
}

/// What the grammar makes of a token.
#[derive(Clone, Copy, PartialEq, Eq, Debug)]
pub enum Terminal {
    /// A literal with its value.
    Literal(i64),
    /// A word that isn't reserved.
    Name,
    /// A reserved word or a sign.
    Fixed(Fixed),
}

/// A token as the parser sees it.
#[derive(Clone, Copy, PartialEq, Eq, Debug)]
pub struct Lexeme {
    /// What the grammar makes of it.
    pub terminal: Terminal,
    /// The number of its first byte.
    pub start: u32,
    /// The number of the byte after its last.
    pub end: u32,
    /// The place of its first byte.
    pub place: Place,
}

/// What the grammar makes of a token of the text.
pub(crate) fn classify(source: &[u8], token: &Token) -> Terminal
    requires start { token.now.start ≤ token.now.end }
    requires end { token.now.end ≤ length source.now }
    ensures { result ≡ terminal_of token.now.kind (text_of source.now token.now) }
{
    let text = &source[token.start as usize..token.end as usize];
    match token.kind {
        TokenKind::Int(value) => Terminal::Literal(value),
        TokenKind::Word => match reserved(text) {
            Some(fixed) => Terminal::Fixed(fixed),
            None => Terminal::Name,
        },
        TokenKind::Sign => Terminal::Fixed(sign(text)),
    }
}

/// The reserved word of this spelling.
fn reserved(text: &[u8]) -> Option<Fixed>
    ensures { result ≡ reserved text.now }
{
    match text.len() {
        2 => two_letters(text),
        3 => three_letters(text),
        4 => four_letters(text),
        5 => five_letters(text),
        6 => six_letters(text),
        _ => None,
    }
}

/// Whether the text is this word.
fn spells(text: &[u8], word: &[u8]) -> bool
    ensures { result ≡ spells text.now word.now }
{
    text == word
}

fn two_letters(text: &[u8]) -> Option<Fixed>
    ensures { result ≡ two_letters text.now }
{
    if spells(text, b"fn") {
        Some(Fixed::Fn)
    } else if spells(text, b"if") {
        Some(Fixed::If)
    } else if spells(text, b"in") {
        Some(Fixed::In)
    } else if spells(text, b"by") {
        Some(Fixed::By)
    } else {
        None
    }
}

fn three_letters(text: &[u8]) -> Option<Fixed>
    ensures { result ≡ three_letters text.now }
{
    if spells(text, b"let") {
        Some(Fixed::Let)
    } else if spells(text, b"par") {
        Some(Fixed::Par)
    } else if spells(text, b"add") {
        Some(Fixed::Add)
    } else if spells(text, b"mul") {
        Some(Fixed::Mul)
    } else if spells(text, b"min") {
        Some(Fixed::Min)
    } else if spells(text, b"max") {
        Some(Fixed::Max)
    } else {
        None
    }
}

fn four_letters(text: &[u8]) -> Option<Fixed>
    ensures { result ≡ four_letters text.now }
{
    if spells(text, b"main") {
        Some(Fixed::Main)
    } else if spells(text, b"else") {
        Some(Fixed::Else)
    } else if spells(text, b"loop") {
        Some(Fixed::Loop)
    } else if spells(text, b"fold") {
        Some(Fixed::Fold)
    } else if spells(text, b"with") {
        Some(Fixed::With)
    } else if spells(text, b"call") {
        Some(Fixed::Call)
    } else if spells(text, b"both") {
        Some(Fixed::Both)
    } else if spells(text, b"emit") {
        Some(Fixed::Emit)
    } else if spells(text, b"rows") {
        Some(Fixed::Rows)
    } else if spells(text, b"cols") {
        Some(Fixed::Cols)
    } else {
        None
    }
}

fn five_letters(text: &[u8]) -> Option<Fixed>
    ensures { result ≡ five_letters text.now }
{
    if spells(text, b"input") {
        Some(Fixed::Input)
    } else if spells(text, b"table") {
        Some(Fixed::Table)
    } else if spells(text, b"while") {
        Some(Fixed::While)
    } else if spells(text, b"carry") {
        Some(Fixed::Carry)
    } else if spells(text, b"print") {
        Some(Fixed::Print)
    } else if spells(text, b"leave") {
        Some(Fixed::Leave)
    } else {
        None
    }
}

fn six_letters(text: &[u8]) -> Option<Fixed>
    ensures { result ≡ six_letters text.now }
{
    if spells(text, b"return") {
        Some(Fixed::Return)
    } else if spells(text, b"reduce") {
        Some(Fixed::Reduce)
    } else if spells(text, b"affine") {
        Some(Fixed::Affine)
    } else {
        None
    }
}

/// The sign of this spelling.
fn sign(text: &[u8]) -> Fixed
    ensures { result ≡ sign_of text.now }
{
    if spells(text, b"==") {
        Fixed::Same
    } else if spells(text, b"!=") {
        Fixed::Differs
    } else if spells(text, b"<=") {
        Fixed::AtMost
    } else if spells(text, b">=") {
        Fixed::AtLeast
    } else if text.len() == 1 {
        single_sign(text[0])
    } else {
        Fixed::DotDot
    }
}

/// The sign of one byte.
fn single_sign(byte: u8) -> Fixed
    ensures { result ≡ single_sign byte }
{
    match byte {
        b'(' => Fixed::OpenRound,
        b')' => Fixed::CloseRound,
        b'{' => Fixed::OpenBrace,
        b'}' => Fixed::CloseBrace,
        b'[' => Fixed::OpenSquare,
        b']' => Fixed::CloseSquare,
        b',' => Fixed::Comma,
        b';' => Fixed::Semi,
        b'=' => Fixed::Assign,
        b'+' => Fixed::Plus,
        b'-' => Fixed::Minus,
        b'*' => Fixed::Star,
        b'/' => Fixed::Slash,
        b'%' => Fixed::Percent,
        b'<' => Fixed::Less,
        _ => Fixed::Greater,
    }
}
