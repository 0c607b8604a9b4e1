//! Keywords of statements.

ghost use Rattle.std.specs.Prelude.{◌≡◌};
ghost use Rattle.qsg_grammar.specs.Table.{text_of};

/// A keyword of a statement; each has a value.
#[derive(Clone, Copy, Debug, PartialEq, Eq)]
pub enum Keyword {
    /// Pages of a member's log: 1 to 8,192.
    Log,
    /// A number below 2^64.
    Pick,
    /// Elements of a structure: 1 to 1,048,576.
    Elements,
    /// Blocks of a data set: at least 1.
    Blocks,
    /// A body as its text.
    Body,
    /// A body in hexadecimal digits, two a byte.
    Hex,
    /// A body by its length in bytes.
    Size,
    /// A priority, 0 to 9, or -1 for the queue's.
    Pri,
    /// 0 or 1, or 2 for the queue's.
    Pers,
    /// 48 hexadecimal digits.
    Msgid,
    /// 48 hexadecimal digits.
    Correlid,
}

impl Keyword {
    /// It, in capitals.
    pub fn text(self) -> &'static str
        ensures { result.now ≡ text_of self }
    {
        match self {
            Keyword::Log => "LOG",
            Keyword::Pick => "PICK",
            Keyword::Elements => "ELEMENTS",
            Keyword::Blocks => "BLOCKS",
            Keyword::Body => "BODY",
            Keyword::Hex => "HEX",
            Keyword::Size => "SIZE",
            Keyword::Pri => "PRI",
            Keyword::Pers => "PERS",
            Keyword::Msgid => "MSGID",
            Keyword::Correlid => "CORRELID",
        }
    }
}
