//! A table of 512 pages, made or not.
ghost use Rattle.std.specs.Prelude.{◌≡◌, ◌+◌, ◌*◌, ◌≤◌, ◌<◌, IfOk, IsOk, IsSome, OnErr, OnOk, length, replicate, true, None};
ghost use Rattle.em_mem.specs.Memory.{part, put};
ghost use Rattle.em_mem.specs.Pages.{AllAre, IsAt, IsWholePage, IsWholeTable, mark, pages_made, pages_octets};
ghost use Rattle.em_mem.specs.Pages.{table_made, table_octets, zero_page};

use crate::page::Page;
use crate::{PAGE_OCTETS, PARTS, page};
use std::alloc::{AllocError, Global};

/// A table, or none where it is not made: none of its pages is made then.
pub(crate) type Table = Option<Box<[Page; PARTS]>>;

pub(crate) const NO_PAGE: Page = None;

/// Pages, of which none is made.
pub(crate) fn no_pages(alloc: Global, count: usize) -> Result<Vec<Page>, AllocError>
    ensures { IfOk result (λ pages. pages.items ≡ replicate count None) }
{
    let mut pages = Vec::with_capacity(alloc, count)?;
    for _ in 0..count {
        pages.push(None)?;
    }
    Ok(pages)
}

/// A table of which no page is made.
#[inline(never)]
pub(crate) fn new_table(alloc: Global) -> Result<Table, AllocError>
    ensures whole { IfOk result (λ table. IsWholeTable table) }
    ensures some { IfOk result (λ table. IsSome table) }
    ensures octets { IfOk result (λ table. table_octets table ≡ table_octets None) }
    ensures made { IfOk result (λ table. table_made table ≡ table_made None) }
{
    Ok(Some(Box::new(alloc, [NO_PAGE; PARTS])?))
}

/// The octets of a page of the table, where `zeros` stands for one that is not made.
#[inline]
pub(crate) fn octets<'a>(table: &'a Table, at: usize, zeros: &'a [u8; PAGE_OCTETS]) -> &'a [u8]
    requires at { at < PARTS }
    requires whole { IsWholeTable table.now }
    requires zeros { zeros.now ≡ zero_page }
    ensures { result.now ≡ part (table_octets table.now) (PAGE_OCTETS * at) PAGE_OCTETS }
{
    match table {
        Some(pages) => octets_at(pages.as_slice(), at, zeros),
        None => zeros.as_slice(),
    }
}

/// Makes a page of the table, and the table with it, where they are not made yet. Where memory is refused, all stays as
/// it was to those who look at it.
#[inline]
pub(crate) fn make(alloc: Global, table: &mut Table, at: usize) -> Result<(), AllocError>
    requires at { at < PARTS }
    requires whole { IsWholeTable table.old }
    ensures whole { IsWholeTable table.new }
    ensures octets { table_octets table.new ≡ table_octets table.old }
    ensures made { OnOk result (table_made table.new ≡ mark (table_made table.old) at) }
    ensures same { OnErr result (table_made table.new ≡ table_made table.old) }
    ensures ready { IsAt (table_made table.old) at → IsOk result }
{
    match table {
        Some(_) => {}
        None => *table = new_table(alloc)?,
    }
    make_page(alloc, table, at)
}

/// Makes a page of a table that is made.
#[inline]
fn make_page(alloc: Global, table: &mut Table, at: usize) -> Result<(), AllocError>
    requires at { at < PARTS }
    requires some { IsSome table.old }
    requires whole { IsWholeTable table.old }
    ensures whole { IsWholeTable table.new }
    ensures octets { table_octets table.new ≡ table_octets table.old }
    ensures made { OnOk result (table_made table.new ≡ mark (table_made table.old) at) }
    ensures same { OnErr result (table_made table.new ≡ table_made table.old) }
    ensures ready { IsAt (table_made table.old) at → IsOk result }
{
    match table {
        Some(pages) => make_at(alloc, pages.as_mut_slice(), at),
        None => unreachable!(),
    }
}

/// Writes octets within a page of the table, which is made.
#[inline]
pub(crate) fn write(table: &mut Table, at: usize, from: usize, written: &[u8])
    requires at { at < PARTS }
    requires range { from + length written.now ≤ PAGE_OCTETS }
    requires whole { IsWholeTable table.old }
    requires made { IsAt (table_made table.old) at }
    ensures whole { IsWholeTable table.new }
    ensures octets { table_octets table.new ≡ put (table_octets table.old) (PAGE_OCTETS * at + from) written.now }
    ensures made { table_made table.new ≡ table_made table.old }
{
    match table {
        Some(pages) => write_at(pages.as_mut_slice(), at, from, written),
        None => unreachable!(),
    }
}

// ---- the pages of a table that is made
/// The octets of one of these pages, where `zeros` stands for one that is not made.
#[inline]
pub(crate) fn octets_at<'a>(pages: &'a [Page], at: usize, zeros: &'a [u8; PAGE_OCTETS]) -> &'a [u8]
    requires at { at < length pages.now }
    requires whole { AllAre IsWholePage pages.now }
    requires zeros { zeros.now ≡ zero_page }
    ensures { result.now ≡ part (pages_octets pages.now) (PAGE_OCTETS * at) PAGE_OCTETS }
{
    page::octets(&pages[at], zeros)
}

/// Makes one of these pages. Where memory is refused, all stays as it was.
#[inline]
pub(crate) fn make_at(alloc: Global, pages: &mut [Page], at: usize) -> Result<(), AllocError>
    requires at { at < length pages.old }
    requires whole { AllAre IsWholePage pages.old }
    ensures whole { AllAre IsWholePage pages.new }
    ensures len { length pages.new ≡ length pages.old }
    ensures octets { pages_octets pages.new ≡ pages_octets pages.old }
    ensures made { OnOk result (pages_made pages.new ≡ mark (pages_made pages.old) at) }
    ensures same { OnErr result (pages_made pages.new ≡ pages_made pages.old) }
    ensures ready { IsAt (pages_made pages.old) at → IsOk result }
{
    page::make(alloc, &mut pages[at])
}

/// Writes octets within one of these pages, which is made.
#[inline]
pub(crate) fn write_at(pages: &mut [Page], at: usize, from: usize, written: &[u8])
    requires at { at < length pages.old }
    requires range { from + length written.now ≤ PAGE_OCTETS }
    requires whole { AllAre IsWholePage pages.old }
    requires made { IsAt (pages_made pages.old) at }
    ensures whole { AllAre IsWholePage pages.new }
    ensures len { length pages.new ≡ length pages.old }
    ensures octets { pages_octets pages.new ≡ put (pages_octets pages.old) (PAGE_OCTETS * at + from) written.now }
    ensures made { pages_made pages.new ≡ pages_made pages.old }
{
    page::write(&mut pages[at], from, written)
}
