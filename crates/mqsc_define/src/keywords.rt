//! The tables of DEFINE: its objects, their keywords, and what the value of each has to be.

ghost use Rattle.std.specs.Prelude.{◌≡◌};
ghost use Rattle.mqsc_define.specs.Keywords.{text_of_keyword, keywords_of, required_of, form_of_name, form_of_keyword};

use crate::faults::Required;
use crate::limits::{BUFFERS, DEEPEST, HIGHEST_PRIORITY, LONGEST_MESSAGE, PERCENT};

/// What a DEFINE makes.
#[derive(Clone, Copy, Debug, PartialEq, Eq)]
pub enum Object {
    Cfstruct,
    Qlocal,
}

/// A keyword of DEFINE.
#[derive(Clone, Copy, Debug, PartialEq, Eq)]
pub enum Keyword {
    Cflevel,
    Offload,
    Dsgroup,
    Recover,
    Offld1th,
    Offld2th,
    Offld3th,
    Offld1sz,
    Offld2sz,
    Offld3sz,
    Dsblock,
    Dsbufs,
    Dsexpand,
    Descr,
    Qsgdisp,
    Cfstruct,
    Put,
    Get,
    Defprty,
    Defpsist,
    Msgdlvsq,
    Maxdepth,
    Maxmsgl,
    Share,
    Noreplace,
    Defsopt,
}

/// What a value has to be.
#[derive(Clone, Copy, Debug)]
pub enum Form {
    /// There is none.
    Nothing,
    /// 5.
    Level,
    /// SMDS.
    Smds,
    /// SHARED.
    Shared,
    /// YES or NO.
    YesOrNo,
    /// ENABLED or DISABLED.
    EnabledOrDisabled,
    /// PRIORITY or FIFO.
    PriorityOrFifo,
    /// A number, at least the first and at most the second.
    Number(u64, u64),
    /// 0K to 64K.
    RuleSize,
    /// 8K, 16K, 32K, 64K, 128K, 256K, 512K or 1M.
    BlockSize,
    /// 1 to 44 characters, one of them an asterisk.
    DataSets,
    /// At most 64 characters.
    Description,
    /// 1 to 12 letters and digits, a letter first.
    StructureName,
    /// 1 to 48 of letters, digits, `.`, `/`, `_` and `%`.
    QueueName,
}

impl Object {
    /// Its keywords.
    pub fn keywords(self) -> &'static [Keyword]
        ensures { result.now ≡ keywords_of self }
    {
        match self {
            Object::Cfstruct => &[
                Keyword::Cflevel,
                Keyword::Offload,
                Keyword::Dsgroup,
                Keyword::Recover,
                Keyword::Offld1th,
                Keyword::Offld2th,
                Keyword::Offld3th,
                Keyword::Offld1sz,
                Keyword::Offld2sz,
                Keyword::Offld3sz,
                Keyword::Dsblock,
                Keyword::Dsbufs,
                Keyword::Dsexpand,
                Keyword::Descr,
            ],
            Object::Qlocal => &[
                Keyword::Qsgdisp,
                Keyword::Cfstruct,
                Keyword::Put,
                Keyword::Get,
                Keyword::Defprty,
                Keyword::Defpsist,
                Keyword::Msgdlvsq,
                Keyword::Maxdepth,
                Keyword::Maxmsgl,
                Keyword::Share,
                Keyword::Noreplace,
                Keyword::Defsopt,
                Keyword::Descr,
            ],
        }
    }

    /// The keywords that it can't do without, in order.
    pub fn required(self) -> &'static [Required]
        ensures { result.now ≡ required_of self }
    {
        match self {
            Object::Cfstruct => &[Required::Cflevel, Required::Offload, Required::Dsgroup],
            Object::Qlocal => &[Required::Qsgdisp, Required::Cfstruct],
        }
    }

    /// What its name has to be.
    pub fn form_of_name(self) -> Form
        ensures { result ≡ form_of_name self }
    {
        match self {
            Object::Cfstruct => Form::StructureName,
            Object::Qlocal => Form::QueueName,
        }
    }
}

impl Keyword {
    /// It, in capitals.
    pub fn text(self) -> &'static str
        ensures { result.now ≡ text_of_keyword self }
    {
        match self {
            Keyword::Cflevel => "CFLEVEL",
            Keyword::Offload => "OFFLOAD",
            Keyword::Dsgroup => "DSGROUP",
            Keyword::Recover => "RECOVER",
            Keyword::Offld1th => "OFFLD1TH",
            Keyword::Offld2th => "OFFLD2TH",
            Keyword::Offld3th => "OFFLD3TH",
            Keyword::Offld1sz => "OFFLD1SZ",
            Keyword::Offld2sz => "OFFLD2SZ",
            Keyword::Offld3sz => "OFFLD3SZ",
            Keyword::Dsblock => "DSBLOCK",
            Keyword::Dsbufs => "DSBUFS",
            Keyword::Dsexpand => "DSEXPAND",
            Keyword::Descr => "DESCR",
            Keyword::Qsgdisp => "QSGDISP",
            Keyword::Cfstruct => "CFSTRUCT",
            Keyword::Put => "PUT",
            Keyword::Get => "GET",
            Keyword::Defprty => "DEFPRTY",
            Keyword::Defpsist => "DEFPSIST",
            Keyword::Msgdlvsq => "MSGDLVSQ",
            Keyword::Maxdepth => "MAXDEPTH",
            Keyword::Maxmsgl => "MAXMSGL",
            Keyword::Share => "SHARE",
            Keyword::Noreplace => "NOREPLACE",
            Keyword::Defsopt => "DEFSOPT",
        }
    }

    /// What its value has to be.
    pub fn form(self) -> Form
        ensures { result ≡ form_of_keyword self }
    {
        match self {
            Keyword::Cflevel => Form::Level,
            Keyword::Offload => Form::Smds,
            Keyword::Dsgroup => Form::DataSets,
            Keyword::Offld1th | Keyword::Offld2th | Keyword::Offld3th => Form::Number(0, PERCENT),
            Keyword::Offld1sz | Keyword::Offld2sz | Keyword::Offld3sz => Form::RuleSize,
            Keyword::Dsblock => Form::BlockSize,
            Keyword::Dsbufs => Form::Number(1, BUFFERS),
            Keyword::Descr => Form::Description,
            Keyword::Qsgdisp | Keyword::Defsopt => Form::Shared,
            Keyword::Cfstruct => Form::StructureName,
            Keyword::Put | Keyword::Get => Form::EnabledOrDisabled,
            Keyword::Defprty => Form::Number(0, HIGHEST_PRIORITY),
            Keyword::Recover | Keyword::Dsexpand | Keyword::Defpsist => Form::YesOrNo,
            Keyword::Msgdlvsq => Form::PriorityOrFifo,
            Keyword::Maxdepth => Form::Number(0, DEEPEST),
            Keyword::Maxmsgl => Form::Number(0, LONGEST_MESSAGE),
            Keyword::Share | Keyword::Noreplace => Form::Nothing,
        }
    }
}
