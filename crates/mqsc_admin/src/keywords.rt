//! Verbs, objects and keywords, and what the value of each has to be.

ghost use Rattle.std.specs.Prelude.{◌≡◌};
ghost use Rattle.mqsc_admin.specs.Keywords.{text_of, form_of_name, form_of_value};

/// The verb of a command.
#[derive(Clone, Copy, Debug, PartialEq, Eq)]
pub enum Verb {
    Backup,
    Recover,
    Reset,
    Display,
}

/// What DISPLAY shows.
#[derive(Clone, Copy, Debug, PartialEq, Eq)]
pub enum Object {
    Cfstatus,
    Queue,
    Smds,
}

/// A keyword of a command.
#[derive(Clone, Copy, Debug, PartialEq, Eq)]
pub enum Keyword {
    Cfstruct,
    Exclint,
    Type,
    Smds,
    Access,
    Status,
}

/// What a value has to be.
#[derive(Clone, Copy, Debug, PartialEq, Eq)]
pub enum Form {
    /// 1 to 12 letters and digits, a letter first.
    StructureName,
    /// 1 to 48 of letters, digits, `.`, `/`, `_` and `%`.
    QueueName,
    /// 1 to 4 letters and digits, a letter first.
    MemberName,
    /// An asterisk, which stands for all members.
    AllMembers,
    /// A number below 2^32.
    Interval,
    /// NORMAL or PURGE.
    NormalOrPurge,
    /// ENABLED or DISABLED.
    EnabledOrDisabled,
    /// FAILED or RECOVERED.
    FailedOrRecovered,
}

impl Object {
    /// What its value has to be.
    pub fn form(self) -> Form
        ensures { result ≡ form_of_name self }
    {
        match self {
            Object::Cfstatus => Form::StructureName,
            Object::Queue => Form::QueueName,
            Object::Smds => Form::AllMembers,
        }
    }
}

impl Keyword {
    /// It, in capitals.
    pub fn text(self) -> &'static str
        ensures { result.now ≡ text_of self }
    {
        match self {
            Keyword::Cfstruct => "CFSTRUCT",
            Keyword::Exclint => "EXCLINT",
            Keyword::Type => "TYPE",
            Keyword::Smds => "SMDS",
            Keyword::Access => "ACCESS",
            Keyword::Status => "STATUS",
        }
    }

    /// What its value has to be.
    pub fn form(self) -> Form
        ensures { result ≡ form_of_value self }
    {
        match self {
            Keyword::Cfstruct => Form::StructureName,
            Keyword::Exclint => Form::Interval,
            Keyword::Type => Form::NormalOrPurge,
            Keyword::Smds => Form::MemberName,
            Keyword::Access => Form::EnabledOrDisabled,
            Keyword::Status => Form::FailedOrRecovered,
        }
    }
}
