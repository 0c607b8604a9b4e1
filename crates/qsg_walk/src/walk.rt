//! A walk over a log.

ghost use Rattle.std.specs.Prelude.{◌≡◌, ◌<◌, ◌≤◌, ◌+◌, ◌^◌, ◌++◌, ◌∷◌, [], ℕ, List, IfOk, OnErr, IsErrOf, None, Some, IsSome, is_some};
ghost use Rattle.qsg_num.specs.declared.words.LogWhy.{LogWhy};

use qsg_logread::{FeedError, Reader};
use qsg_logrec::Records;
use qsg_num::{Page, PageNo, UnitName};
use std::alloc::Global;
use std::marker::Model;

/// The page before which each page of a log stands.
const LAST_PAGE: u32 = 4_290_000_000;

/// A page that was read and isn't fed yet.
#[derive(Drop)]
pub struct KeptPage {
    pub no: PageNo,
    pub page: Page,
}

/// A walk over a log, page by page.
#[derive(Drop)]
pub struct Walk {
    alloc: Global,
    reader: Reader,
    kept: Option<KeptPage>,
    next: PageNo,
    left: u32,
}

impl Model for Walk {
    ghost use Rattle.std.specs.Prelude.{◌≤◌, ◌+◌};
    ghost use Rattle.qsg_walk.specs.Walks.{Walk as Seen};

    ghost Value = { Seen };

    ghost view = { λ w. record { reader = w.reader; kept = w.kept; next = w.next.number; left = w.left } };

    ghost invariant = { λ w. w.next.number + w.left ≤ 4294967295 };
}

impl Walk {
    ghost use Rattle.qsg_logrec.specs.declared.record.LogRecord.{LogRecord};
    ghost use Rattle.qsg_logread.specs.Fed.{is_committed};
    ghost use Rattle.qsg_logread.specs.Feeding.{WasFed};
    ghost use Rattle.qsg_walk.specs.Walks.{new_walk, after_read, Feeds, IsBad};

    /// A walk from a page on, over a log of so many pages. Takes no memory.
    pub fn new(alloc: Global, first: PageNo, pages: u32) -> Walk
        ensures { result ≡ new_walk first.number pages }
    {
        Walk {
            alloc,
            reader: Reader::new(alloc),
            kept: None,
            next: first,
            left: pages.min(LAST_PAGE.saturating_sub(first.number)),
        }
    }

    /// The page that is read next; None exactly where the walk has ended.
    pub fn next(&self) -> Option<PageNo>
        ensures some { 0 < self.now.left → result ≡ Some (record { number = self.now.next }) }
        ensures none { self.now.left ≡ 0 → result ≡ None }
    {
        if self.left == 0 {
            None
        } else {
            Some(self.next)
        }
    }

    /// Keeps what was read at the next page: its body, or that none stands there, which ends the walk. The page that
    /// was kept before is fed by then. Takes no memory.
    pub fn keep(&mut self, body: Option<Page>)
        requires goes_on { 0 < self.old.left }
        ensures { self.new ≡ after_read body self.old }
    {
        match body {
            None => {
                self.left = 0;
            }
            Some(page) => {
                self.kept = Some(KeptPage {
                    no: self.next,
                    page,
                });
                self.next = PageNo {
                    number: self.next.number + 1,
                };
                self.left -= 1;
            }
        }
    }

    /// Feeds the page that is kept, if one is, and gives the records that end in it. A page that is refused changes
    /// nothing. Memory is taken only where a page is kept.
    pub fn feed(&mut self) -> Result<Records, FeedError>
        ensures fed { IfOk result (λ records. Feeds self.old records self.new) }
        ensures bad { (why : LogWhy) → IsErrOf result (FeedError.Fault why) → IsBad self.old why }
        ensures kept { OnErr result (IsSome self.old.kept) }
        ensures refused { OnErr result (self.new ≡ self.old) }
    {
        let Some(kept) = &self.kept else {
            return Ok(Records::from_vec(Vec::new(self.alloc)));
        };
        match self.reader.feed(kept.no, &kept.page) {
            Ok(records) => {
                self.kept = None;
                Ok(records)
            }
            Err(refused) => Err(refused),
        }
    }

    /// Whether it keeps a page that it hasn't fed yet.
    pub fn keeps_page(&self) -> bool
        ensures { result ≡ is_some self.now.kept }
    {
        self.kept.is_some()
    }

    /// Whether a commit of this unit was fed. It takes the same time however many were.
    pub fn committed(&self, unit: UnitName) -> bool
        ensures { result ≡ is_committed unit self.now.reader.commits }
    {
        self.reader.committed(unit)
    }
}
