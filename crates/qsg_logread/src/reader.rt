//! A reader of a log.

ghost use Rattle.std.specs.Prelude.{◌≡◌, ◌≤◌, ◌++◌, [], ◌∷◌, ℕ, List, Option, None, Some, IfOk, OnOk, OnErr, IsErrOf};
ghost use Rattle.std.specs.List.{list_any};
ghost use Rattle.qsg_num.specs.declared.ids.PageNo.{PageNo};
ghost use Rattle.qsg_msg.specs.Prefix.{IsFaultPlace};
ghost use Rattle.qsg_logrec.specs.declared.piece.Piece.{Piece};
ghost use Rattle.qsg_logrec.specs.declared.record.LogRecord.{LogRecord};
ghost use Rattle.qsg_logrec.specs.Pages.{IsPageOf, IsBody};
ghost use Rattle.qsg_logrec.specs.Cutting.{joined_from};
ghost use Rattle.qsg_logread.specs.Records.{Joins, PageJoins};
ghost use Rattle.qsg_logread.specs.Joining.{unfinished, gone_on, IsEarly};
ghost use Rattle.qsg_logread.specs.Fed.{is_committed, commits_unit, structures_of, structures_told, with_records};
ghost use Rattle.qsg_logread.specs.Feeding.{WasFed, IsReadAs, IsBadPage, IsBadRecord, IsFault};
ghost use Rattle.qsg_num.specs.declared.words.LogWhy.{LogWhy};

use crate::commits::Commits;
use crate::fault::{FeedError, Stop};
use crate::joining::{Read, Rest, read_pieces};
use qsg_logrec::{LogRecord, PageFault, Piece, Pieces, Records, StructSet, decode_page};
use qsg_num::{Bytes, LogWhy, Page, PageNo, UnitName};
use std::alloc::{AllocError, Global};
use std::marker::Model;

/// Reads a log, whose pages it is fed in order. Contracts see of it the record that is unfinished at the end of the
/// last page, and the units that are committed.
#[derive(Drop)]
pub struct Reader {
    alloc: Global,
    begun: Option<Bytes>,
    commits: Commits,
}

impl Model for Reader {
    ghost use Rattle.qsg_logread.specs.Fed.{Fed};

    ghost Value = { Fed };

    ghost view = { λ r. record { begun = r.begun; commits = r.commits } };
}

/// The pieces of a page.
fn pieces_of(alloc: Global, no: PageNo, page: &Page) -> Result<Pieces, FeedError>
    ensures found { IfOk result (λ pieces. IsPageOf pieces page.now) }
    ensures bad { (why : LogWhy) → IsErrOf result (FeedError.Fault why) → IsBadPage no page.now why }
{
    match decode_page(alloc, page.as_slice()) {
        Ok(pieces) => Ok(pieces),
        Err(PageFault::BadPage { at }) => Err(FeedError::Fault(LogWhy::BadPage {
            page: no,
            at: at as u32,
        })),
        Err(PageFault::NoMemory) => Err(FeedError::NoMemory),
    }
}

/// The records that the pieces of a page end, behind a record that is unfinished or none.
fn read_of(
    alloc: Global,
    no: PageNo,
    old: &Option<Bytes>,
    pieces: &Pieces,
) -> Result<Read, FeedError>
    ensures joined { IfOk result (λ read. Joins old.now pieces.now read.records.items (unfinished old.now read.rest)) }
    ensures early { IfOk result (λ read. IsEarly read.rest read.records.items) }
    ensures bad { (why : LogWhy) → IsErrOf result (FeedError.Fault why) → IsBadRecord no (joined_from (record { records = []; begun = old.now }) pieces.now).records why }
{
    match read_pieces(alloc, old, pieces.as_slice()) {
        Ok(read) => Ok(read),
        Err(Stop::Bad(at)) => Err(FeedError::Fault(LogWhy::BadRecord { page: no, at })),
        Err(Stop::NoMemory) => Err(FeedError::NoMemory),
    }
}

/// Puts more bytes behind those of an unfinished record. Where memory runs out it stays.
fn go_on(begun: &mut Option<Bytes>, more: &[u8]) -> Result<(), AllocError>
    ensures longer { OnOk result (begun.new ≡ gone_on begun.old more.now) }
    ensures refused { OnErr result (begun.new ≡ begun.old) }
{
    let Some(bytes) = begun.take() else {
        return Ok(());
    };
    let mut bytes = bytes.into_vec();
    let done = bytes.extend_from_slice(more);
    *begun = Some(Bytes::from_vec(bytes));
    done
}

/// Keeps what a page told: the record that is unfinished behind it, and the commits in it, or nothing.
fn keep(
    begun: &mut Option<Bytes>,
    commits: &mut Commits,
    rest: Rest,
    records: &[LogRecord],
) -> Result<(), AllocError>
    requires { IsEarly rest records.now }
    ensures begun { OnOk result (begun.new ≡ unfinished begun.old rest) }
    ensures commits { OnOk result (commits.new ≡ with_records commits.old records.now) }
    ensures begun_stays { OnErr result (begun.new ≡ begun.old) }
    ensures commits_stay { OnErr result (commits.new ≡ commits.old) }
{
    match rest {
        Rest::Longer(more) => go_on(begun, more.as_slice()),
        Rest::Nothing => {
            commits.add(records)?;
            *begun = None;
            Ok(())
        }
        Rest::Begun(bytes) => {
            commits.add(records)?;
            *begun = Some(bytes);
            Ok(())
        }
    }
}

impl Reader {
    /// A reader that was fed nothing. Takes no memory.
    pub fn new(alloc: Global) -> Reader
        ensures empty { result ≡ record { begun = None; commits = [] } }
        ensures fed { WasFed [] [] result }
    {
        Reader {
            alloc,
            begun: None,
            commits: Commits::new(alloc),
        }
    }

    /// Reads the next page of the log, which has this number: gives the records that end in it. It takes time by the
    /// page's bytes and by those of the records that end there. A page that is refused changes nothing.
    pub fn feed(&mut self, no: PageNo, page: &Page) -> Result<Records, FeedError>
        // The records are those of the page, behind the one that was unfinished.
        ensures read { IfOk result (λ records. PageJoins self.old.begun page.now records self.new.begun) }
        ensures commits { IfOk result (λ records. self.new.commits ≡ with_records self.old.commits records) }
        // A page's records are read, unless memory runs out.
        ensures reads_back { (records : List LogRecord) (begun : Option (List ℕ)) → PageJoins self.old.begun page.now records begun → IsReadAs records result }
        // The fault, and its place.
        ensures fault { (why : LogWhy) → IsErrOf result (FeedError.Fault why) → IsFault self.old.begun no page.now why }
        ensures refused { OnErr result (self.new ≡ self.old) }
        // What was fed are pages, and what was given are their records.
        ensures fed { (pages : List (List ℕ)) (records : List LogRecord) → WasFed pages records self.old → IfOk result (λ more. WasFed (pages ++ page.now ∷ []) (records ++ more) self.new) }
    {
        let pieces = pieces_of(self.alloc, no, page)?;
        let Read { records, rest } = read_of(self.alloc, no, &self.begun, &pieces)?;
        keep(&mut self.begun, &mut self.commits, rest, &records)?;
        Ok(Records::from_vec(records))
    }

    /// Whether a Commit or a CommitIn of this unit was fed. It takes the same time however many were.
    pub fn committed(&self, unit: UnitName) -> bool
        ensures value { result ≡ is_committed unit self.now.commits }
        ensures fed { (pages : List (List ℕ)) (records : List LogRecord) → WasFed pages records self.now → result ≡ list_any (commits_unit unit) records }
    {
        self.commits.contains(unit)
    }

    /// The structures that a unit's CommitIn named, the last one that was fed. None exactly where none was fed. It
    /// takes no memory.
    pub fn structures(&self, unit: UnitName) -> Option<StructSet>
        ensures value { result ≡ structures_of unit self.now.commits }
        ensures fed { (pages : List (List ℕ)) (records : List LogRecord) → WasFed pages records self.now → result ≡ structures_told unit records }
    {
        self.commits.structures(unit)
    }
}
