//! Cutting a run of records into pages.

ghost use Rattle.std.specs.Prelude.{◌≡◌, ◌<◌, ◌≤◌, ◌-◌, ◌++◌, [], ◌∷◌, List, ℕ, length, take, replicate, IfOk, OnOk, true};
ghost use Rattle.qsg_logrec.specs.declared.piece.Piece.{Piece};
ghost use Rattle.qsg_logrec.specs.Pages.{part_number, piece_text, page_text};
ghost use Rattle.qsg_logrec.specs.Cutting.{part_at, room_at, cut_pieces, left_after, run_pieces, cut_page, last_page, bodies, cut_bodies, Fit, NoneEmpty, HaveRecords, HaveFront};

use crate::lists::Spellings;
use crate::piece::{Part, Piece};
use qsg_num::{Bytes, PAGE_BODY, Page, Pages};
use std::alloc::{AllocError, Global};

/// Bytes of a page behind its fields.
const AREA: usize = 4088;

/// Bytes of the shortest piece.
const SHORTEST_PIECE: usize = 4;

/// The version of pages that are written.
const VERSION: u8 = 2;

/// The part of a piece, by whether it begins and whether it ends its record.
fn part(first: bool, last: bool) -> Part
    ensures { result ≡ part_at first last }
{
    match (first, last) {
        (true, true) => Part::Only,
        (true, false) => Part::First,
        (false, true) => Part::Last,
        (false, false) => Part::Middle,
    }
}

/// How many bytes of a record fit, on a new page if need be.
fn room_of(left: usize) -> usize
    requires { left ≤ AREA }
    ensures value { result ≡ room_at left }
    ensures bounds { (0 < result) × (result ≤ AREA) }
{
    (if left < SHORTEST_PIECE { AREA } else { left }) - 3
}

/// Cuts a record into pieces, where so many bytes of a page are left, and answers what is left behind it.
fn cut_record(
    alloc: Global,
    pieces: &mut Vec<Piece>,
    left: usize,
    spelling: &[u8],
) -> Result<usize, AllocError>
    requires { left ≤ AREA }
    ensures pieces { OnOk result (pieces.new.items ≡ pieces.old.items ++ cut_pieces (length spelling.now) left true spelling.now) }
    ensures left { IfOk result (λ n. n ≡ left_after left (cut_pieces (length spelling.now) left true spelling.now)) }
    ensures bound { IfOk result (λ n. n ≤ AREA) }
{
    let mut left = left;
    let mut rest = spelling;
    let mut first = true;
    while !rest.is_empty() {
        let room = room_of(left);
        let count = rest.len().min(room);
        let (bytes, after) = rest.split_at(count);
        pieces.push(Piece {
            part: part(first, after.is_empty()),
            bytes: Bytes::from_slice(alloc, bytes)?,
        })?;
        left = room - count;
        rest = after;
        first = false;
    }
    Ok(left)
}

/// The pieces of a run of records.
fn cut_run(alloc: Global, records: &[Bytes]) -> Result<Vec<Piece>, AllocError>
    ensures { IfOk result (λ ps. ps.items ≡ run_pieces 4088 records.now) }
{
    let mut pieces = Vec::new(alloc);
    let mut left = AREA;
    for record in records {
        left = cut_record(alloc, &mut pieces, left, record.as_slice())?;
    }
    Ok(pieces)
}

fn code(part: Part) -> u8
    ensures { result ≡ part_number part }
{
    match part {
        Part::Only => 1,
        Part::First => 2,
        Part::Middle => 3,
        Part::Last => 4,
    }
}

fn push_piece(area: &mut Vec<u8>, piece: &Piece) -> Result<(), AllocError>
    requires { length piece.now.bytes ≤ AREA }
    ensures { OnOk result (area.new.items ≡ area.old.items ++ piece_text piece.now) }
{
    let bytes = piece.bytes.as_slice();
    area.push(code(piece.part))?;
    area.extend_from_slice(&(bytes.len() as u16).to_be_bytes())?;
    area.extend_from_slice(bytes)?;
    Ok(())
}

/// The body of the page with this area.
fn page_of(alloc: Global, area: &[u8]) -> Result<Page, AllocError>
    requires { length area.now ≤ AREA }
    ensures { IfOk result (λ page. page ≡ cut_page area.now) }
{
    let mut body = Vec::new(alloc);
    body.push(VERSION)?;
    body.extend_from_slice(&(area.len() as u16).to_be_bytes())?;
    body.extend_from_slice(&[0, 0, 0, 0])?;
    body.extend_from_slice(area)?;
    body.resize(PAGE_BODY, 0)?;
    Ok(Page::from_vec(body))
}

/// Puts a piece on the page that is being filled, or on a new one where fewer than 4 bytes are left.
fn add_piece(
    alloc: Global,
    pages: &mut Vec<Page>,
    area: &mut Vec<u8>,
    piece: &Piece,
) -> Result<(), AllocError>
    requires area { length area.old.items ≤ AREA }
    requires piece { length piece.now.bytes ≤ room_at (4088 - length area.old.items) }
    ensures pages { OnOk result ((rest : List Piece) → pages.new.items ++ bodies area.new.items rest ≡ pages.old.items ++ bodies area.old.items (piece.now ∷ rest)) }
    ensures left { OnOk result (4088 - length area.new.items ≡ room_at (4088 - length area.old.items) - length piece.now.bytes) }
    ensures bound { OnOk result (length area.new.items ≤ AREA) }
{
    if AREA - area.len() < SHORTEST_PIECE {
        pages.push(page_of(alloc, area)?)?;
        area.clear();
    }
    push_piece(area, piece)
}

/// The pages of pieces that fit.
fn page_run(alloc: Global, pieces: &[Piece]) -> Result<Vec<Page>, AllocError>
    requires { Fit 4088 pieces.now }
    ensures { IfOk result (λ pages. pages.items ≡ bodies [] pieces.now) }
{
    let mut pages = Vec::new(alloc);
    let mut area = Vec::new(alloc);
    for piece in pieces {
        add_piece(alloc, &mut pages, &mut area, piece)?;
    }
    if !area.is_empty() {
        pages.push(page_of(alloc, &area)?)?;
    }
    Ok(pages)
}

/// The bodies of the pages of a run of records, of version 2 and with lap 0. For each record, while bytes of
/// it remain: where fewer than 4 bytes of a page are left, a new one begins; then a piece takes as many bytes
/// as remain or as fit.
#[tactic(auto, unfolding(crate::specs::Cutting::cut_bodies))]
pub fn cut(alloc: Global, records: &Spellings) -> Result<Pages, AllocError>
    ensures exact { IfOk result (λ pages. pages ≡ cut_bodies records.now) }
    ensures joins { NoneEmpty records.now → IfOk result (λ pages. HaveRecords records.now pages) }
{
    let pieces = cut_run(alloc, records.as_slice())?;
    Ok(Pages::from_vec(page_run(alloc, &pieces)?))
}

/// Of a run's pages the first ones, where a page is left, have a front of its records: the last record ends on the
/// last page.
pub fn the_last_record_ends_on_the_last_page()
    ensures { (records : List (List ℕ)) (count : ℕ) → NoneEmpty records → count < length (cut_bodies records) → HaveFront records (take count (cut_bodies records)) }
{}
