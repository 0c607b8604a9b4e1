//! The bodies of log pages.

ghost use Rattle.std.specs.Prelude.{◌≡◌, ◌<◌, length, slice_get, Some};

use crate::limits::PAGE_BODY;
use std::marker::Model;

/// The body of a log page: its 4,095 bytes behind the gate.
#[derive(Debug, Drop, Clone)]
pub struct Page {
    bytes: Vec<u8>,
}

impl Model for Page {
    ghost use Rattle.std.specs.Prelude.{◌≡◌, List, ℕ, length};

    ghost Value = { List ℕ };

    ghost view = { λ page. page.bytes.items };

    ghost invariant = { λ page. length page.bytes.items ≡ 4095 };
}

impl Page {
    /// The body that a `Vec` holds. Takes no memory.
    pub fn from_vec(bytes: Vec<u8>) -> Page
        requires { length bytes.items ≡ PAGE_BODY }
        ensures { result ≡ bytes.items }
    {
        Page { bytes }
    }

    /// Its bytes.
    pub fn as_slice(&self) -> &[u8]
        ensures bytes { result.now ≡ self.now }
        ensures length { length result.now ≡ PAGE_BODY }
    {
        &self.bytes
    }
}

/// The bodies of the pages of a run, in order.
#[derive(Debug, Drop)]
pub struct Pages {
    pages: Vec<Page>,
}

impl Model for Pages {
    ghost use Rattle.std.specs.Prelude.{List, ℕ};

    ghost Value = { List (List ℕ) };

    ghost view = { λ run. run.pages.items };
}

impl Pages {
    /// The list that a `Vec` holds. Takes no memory.
    pub fn from_vec(pages: Vec<Page>) -> Pages
        ensures { result ≡ pages.items }
    {
        Pages { pages }
    }

    /// How many pages it has.
    pub fn len(&self) -> usize
        ensures { result ≡ length self.now }
    {
        self.pages.len()
    }

    /// The page at a place, from 0.
    pub fn page(&self, at: usize) -> &Page
        requires { at < length self.now }
        ensures { slice_get self.now at ≡ Some result.now }
    {
        &self.pages[at]
    }
}
