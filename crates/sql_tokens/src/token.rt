/// A reserved word.
#[derive(Clone, Copy, Debug, PartialEq, Eq)]
pub enum Keyword {
    Select,
    Distinct,
    From,
    Join,
    On,
    Where,
    And,
    Or,
    Not,
    Group,
    By,
    Order,
    Asc,
    Desc,
    Limit,
    As,
    Count,
    Sum,
    Min,
    Max,
    Option,
}

/// A name in small letters: so many of these bytes, with zeros behind them.
#[derive(Clone, Copy, Debug, PartialEq, Eq)]
pub struct Name {
    pub len: u8,
    pub bytes: [u8; 16],
}

impl Name {
    ghost use Rattle.std.specs.Prelude.{◌≡◌};
    ghost use Rattle.sql_tokens.specs.Words.{letters_of};

    /// Its letters, without the zeros behind them.
    pub fn letters(&self) -> &[u8]
        ensures { result.now ≡ letters_of self.now }
    {
        let (letters, _) = self
            .bytes
            .split_at((self.len as usize).min(self.bytes.len()));
        letters
    }
}

/// What a token is.
#[derive(Clone, Copy, Debug, PartialEq, Eq)]
pub enum What {
    Word(Keyword),
    Name(Name),
    /// A number's value, and 2^128 - 1 for a greater one.
    Number(u128),
    /// How many bytes a text has, with its marks.
    Text(u32),
    Comma,
    Dot,
    Open,
    Close,
    Star,
    Equal,
    Unequal,
    Less,
    AtMost,
    More,
    AtLeast,
    Minus,
    Semicolon,
    /// What begins no token, a name that is too long, a text without its end, or a letter right behind a number.
    Bad,
    /// The end of the text.
    End,
}

/// A token and its place, counted in bytes of the text from 1.
#[derive(Clone, Copy, Debug, PartialEq, Eq)]
pub struct Token {
    pub what: What,
    pub at: u32,
}
