//! The pages of a log that are reserved for units and backups.

ghost use Rattle.std.specs.Prelude.{◌≡◌, ◌<◌, ◌≤◌, ◌+◌, ◌^◌, ◌++◌, [], ◌∷◌, ℕ, List, length};
ghost use Rattle.qsg_num.specs.Ids.{same_unit};
ghost use Rattle.qsg_logpage.specs.declared.table.Reservation.{Reservation};
ghost use Rattle.qsg_logpage.specs.Reserved.{besides, lowered, left_lowered, total};

use arrayvec::ArrayVec;
use qsg_num::{Incarnation, Member, UnitName};
use std::marker::Model;

/// Units and backups that may have a reservation at once.
pub const RESERVATIONS: usize = 8;

/// So many pages, for that unit or backup.
#[derive(Clone, Copy, Debug, PartialEq, Eq)]
pub struct Reservation {
    pub unit: UnitName,
    pub pages: u32,
}

impl Default for Reservation {
    /// No page.
    fn default() -> Self {
        Reservation {
            unit: UnitName {
                member: Member::One,
                incarnation: Incarnation { number: 0 },
                seq: 0,
            },
            pages: 0,
        }
    }
}

/// What is reserved. It takes no memory.
#[derive(Drop)]
pub struct Table {
    items: ArrayVec<Reservation, RESERVATIONS>,
}

impl Model for Table {
    ghost use Rattle.std.specs.Prelude.{◌≤◌, List, length};
    ghost use Rattle.qsg_logpage.specs.declared.table.Reservation.{Reservation};

    ghost Value = { List Reservation };

    ghost view = { λ table. table.items.items };

    ghost invariant = { λ table. length table.items.items ≤ 8 };
}

/// Whether two names are one.
fn same_unit(a: UnitName, b: UnitName) -> bool
    ensures { result ≡ same_unit a b }
{
    a.member.get() == b.member.get()
        && a.incarnation.number == b.incarnation.number
        && a.seq == b.seq
}

/// The reservations of the other units.
fn others(
    items: &ArrayVec<Reservation, RESERVATIONS>,
    unit: UnitName,
) -> ArrayVec<Reservation, RESERVATIONS>
    requires { length items.now.items ≤ RESERVATIONS }
    ensures items { result.items ≡ besides unit items.now.items }
    ensures fewer { length result.items ≤ length items.now.items }
{
    let mut kept = ArrayVec::new();
    for reservation in items.as_slice() {
        if !same_unit(reservation.unit, unit) {
            kept.push(*reservation);
        }
    }
    kept
}

/// Puts a reservation behind others, with a page less if it is the first of that unit.
fn push_lowered(
    out: &mut ArrayVec<Reservation, RESERVATIONS>,
    found: bool,
    reservation: Reservation,
    unit: UnitName,
) -> bool
    requires { length out.old.items < RESERVATIONS }
    ensures length { length out.new.items ≡ length out.old.items + 1 }
    ensures goes { (rest : List Reservation) → out.new.items ++ left_lowered unit result rest ≡ out.old.items ++ left_lowered unit found (reservation ∷ rest) }
{
    if !found && same_unit(reservation.unit, unit) {
        out.push(Reservation {
            unit: reservation.unit,
            pages: reservation.pages.saturating_sub(1),
        });
        return true;
    }
    out.push(reservation);
    found
}

/// The reservations with a page less for a unit.
fn with_a_page_less(
    items: &ArrayVec<Reservation, RESERVATIONS>,
    unit: UnitName,
) -> ArrayVec<Reservation, RESERVATIONS>
    requires { length items.now.items ≤ RESERVATIONS }
    ensures { result.items ≡ lowered unit items.now.items }
{
    let mut out = ArrayVec::new();
    let mut found = false;
    for reservation in items.as_slice() {
        found = push_lowered(&mut out, found, *reservation, unit);
    }
    out
}

/// The pages that are reserved for the other units.
fn sum_others(items: &[Reservation], unit: UnitName) -> u32
    requires { total items.now < 2 ^ 32 }
    ensures { result ≡ total (besides unit items.now) }
{
    let mut pages = 0;
    for reservation in items {
        if !same_unit(reservation.unit, unit) {
            pages += reservation.pages;
        }
    }
    pages
}

impl Table {
    ghost use Rattle.std.specs.Prelude.{nat_lt};

    /// Nothing is reserved.
    pub fn new() -> Table
        ensures { result ≡ [] }
    {
        Table {
            items: ArrayVec::new(),
        }
    }

    /// The pages that are reserved for the other units.
    pub fn others(&self, unit: UnitName) -> u32
        requires { total self.now < 2 ^ 32 }
        ensures { result ≡ total (besides unit self.now) }
    {
        sum_others(self.items.as_slice(), unit)
    }

    /// Drops a unit's reservation.
    pub fn remove(&mut self, unit: UnitName)
        ensures { self.new ≡ besides unit self.old }
    {
        self.items = others(&self.items, unit);
    }

    /// Makes so many pages the reservation of a unit.
    pub fn set(&mut self, unit: UnitName, pages: u32)
        requires { length (besides unit self.old) < RESERVATIONS }
        ensures { self.new ≡ besides unit self.old ++ record { unit = unit; pages = pages } ∷ [] }
    {
        let mut items = others(&self.items, unit);
        items.push(Reservation { unit, pages });
        self.items = items;
    }

    /// Takes a page off a unit's reservation.
    pub fn lower(&mut self, unit: UnitName)
        ensures { self.new ≡ lowered unit self.old }
    {
        self.items = with_a_page_less(&self.items, unit);
    }
}
