//! How far the records of a run fill its pages.

ghost use Rattle.std.specs.Prelude.{◌≡◌, ◌+◌, ◌≤◌};
ghost use Rattle.qsg_logneed.specs.Filled.{no_pages, with_record};

use qsg_num::PAGE_NUMBERS;

/// Bytes of a record on a page that a single piece fills: the page's area without the head of the piece.
const PIECE_ROOM: u32 = 4_085;

/// Bytes of a piece before those of its record.
const PIECE_HEAD: u32 = 3;

/// Bytes of the longest record: that of a backup's entry which a unit put or got, with the longest name of a queue
/// and the longest body.
pub const LONGEST_RECORD: u32 = 4_194_436;

/// Pages that the longest record adds at most.
pub const RECORD_PAGES: u32 = 1_027;

/// How far the records of a run fill its pages.
#[derive(Clone, Copy, Debug, PartialEq, Eq)]
pub struct Filling {
    /// Pages of the run so far.
    pub pages: u32,
    /// Bytes of the last page's area behind the last piece; 0 where there is no page yet.
    pub left: u32,
}

impl Filling {
    /// That of no record.
    pub fn new() -> Filling
        ensures { result ≡ no_pages }
    {
        Filling { pages: 0, left: 0 }
    }

    /// With one more record, of so many bytes, behind the others. It is no longer work for a long record than for a
    /// short one, and takes no memory.
    pub fn with(self, bytes: u32) -> Filling
        requires { self.pages ≤ PAGE_NUMBERS }
        ensures value { result ≡ with_record self bytes }
        ensures bound { bytes ≤ LONGEST_RECORD → result.pages ≤ self.pages + RECORD_PAGES }
    {
        if bytes == 0 {
            return self;
        }
        let room = self.left.saturating_sub(PIECE_HEAD);
        if bytes <= room {
            return Filling {
                pages: self.pages,
                left: room - bytes,
            };
        }
        let rest = bytes - room;
        // New pages that the record fills; the last one, which has at least a byte of it, comes besides.
        let full = (rest - 1) / PIECE_ROOM;
        Filling {
            pages: self.pages + full + 1,
            left: PIECE_ROOM - (rest - full * PIECE_ROOM),
        }
    }

    /// Pages of a run of these records.
    pub fn pages(self) -> u32
        ensures { result ≡ self.pages }
    {
        self.pages
    }
}
