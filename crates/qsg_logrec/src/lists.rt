//! Lists of records, of their spellings and of pieces, which contracts see as lists.

ghost use Rattle.std.specs.Prelude.{◌≡◌, length};

use crate::piece::Piece;
use crate::record::LogRecord;
use qsg_num::Bytes;
use std::marker::Model;

/// A list of records.
#[derive(Debug, Drop)]
pub struct Records {
    items: Vec<LogRecord>,
}

impl Model for Records {
    ghost use Rattle.std.specs.Prelude.{List};
    ghost use Rattle.qsg_logrec.specs.declared.record.LogRecord.{LogRecord};

    ghost Value = { List LogRecord };

    ghost view = { λ r. r.items.items };
}

impl Records {
    /// The list that a `Vec` holds. Takes no memory.
    pub fn from_vec(items: Vec<LogRecord>) -> Self
        ensures { result ≡ items.items }
    {
        Records { items }
    }

    /// The `Vec` that holds the list. Takes no memory.
    pub fn into_vec(self) -> Vec<LogRecord>
        ensures { result.items ≡ self }
    {
        self.items
    }

    /// Its items.
    pub fn as_slice(&self) -> &[LogRecord]
        ensures { result.now ≡ self.now }
    {
        self.items.as_slice()
    }
}

/// A list of spellings, of one record each.
#[derive(Debug, Drop)]
pub struct Spellings {
    items: Vec<Bytes>,
}

impl Model for Spellings {
    ghost use Rattle.std.specs.Prelude.{List, ℕ};

    ghost Value = { List (List ℕ) };

    ghost view = { λ r. r.items.items };
}

impl Spellings {
    /// The list that a `Vec` holds. Takes no memory.
    pub fn from_vec(items: Vec<Bytes>) -> Self
        ensures { result ≡ items.items }
    {
        Spellings { items }
    }

    /// The `Vec` that holds the list. Takes no memory.
    pub fn into_vec(self) -> Vec<Bytes>
        ensures { result.items ≡ self }
    {
        self.items
    }

    /// Its items.
    pub fn as_slice(&self) -> &[Bytes]
        ensures { result.now ≡ self.now }
    {
        self.items.as_slice()
    }
}

/// A list of pieces.
#[derive(Debug, Drop)]
pub struct Pieces {
    items: Vec<Piece>,
}

impl Model for Pieces {
    ghost use Rattle.std.specs.Prelude.{List};
    ghost use Rattle.qsg_logrec.specs.declared.piece.Piece.{Piece};

    ghost Value = { List Piece };

    ghost view = { λ r. r.items.items };
}

impl Pieces {
    /// The list that a `Vec` holds. Takes no memory.
    pub fn from_vec(items: Vec<Piece>) -> Self
        ensures { result ≡ items.items }
    {
        Pieces { items }
    }

    /// The `Vec` that holds the list. Takes no memory.
    pub fn into_vec(self) -> Vec<Piece>
        ensures { result.items ≡ self }
    {
        self.items
    }

    /// Its items.
    pub fn as_slice(&self) -> &[Piece]
        ensures { result.now ≡ self.now }
    {
        self.items.as_slice()
    }
}
