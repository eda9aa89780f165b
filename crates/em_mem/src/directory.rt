//! A directory of 512 tables, made or not.
ghost use Rattle.std.specs.Prelude.{◌≡◌, ◌+◌, ◌*◌, ◌≤◌, ◌<◌, IfOk, IsOk, IsSome, OnErr, OnOk, length, true, None};
ghost use Rattle.em_mem.specs.Memory.{part, put};
ghost use Rattle.em_mem.specs.Pages.{AllAre, IsAt, IsWholeDirectory, IsWholeTable, directory_made, directory_octets};
ghost use Rattle.em_mem.specs.Pages.{mark, tables_made, tables_octets, zero_page};

use crate::table::Table;
use crate::{DIRECTORY_PAGES, PAGE_OCTETS, PARTS, table};
use std::alloc::{AllocError, Global};

/// A directory, or none where it is not made: none of its tables is made then.
pub(crate) type Directory = Option<Box<[Table; PARTS]>>;

pub(crate) const NO_TABLE: Table = None;

/// A directory of which no table is made.
#[inline(never)]
pub(crate) fn new_directory(alloc: Global) -> Result<Directory, AllocError>
    ensures whole { IfOk result (λ directory. IsWholeDirectory directory) }
    ensures some { IfOk result (λ directory. IsSome directory) }
    ensures octets { IfOk result (λ directory. directory_octets directory ≡ directory_octets None) }
    ensures made { IfOk result (λ directory. directory_made directory ≡ directory_made None) }
{
    Ok(Some(Box::new(alloc, [NO_TABLE; PARTS])?))
}

/// The octets of a page of the directory, where `zeros` stands for one that is not made.
#[inline]
pub(crate) fn octets<'a>(
    directory: &'a Directory,
    at: usize,
    zeros: &'a [u8; PAGE_OCTETS],
) -> &'a [u8]
    requires at { at < DIRECTORY_PAGES }
    requires whole { IsWholeDirectory directory.now }
    requires zeros { zeros.now ≡ zero_page }
    ensures { result.now ≡ part (directory_octets directory.now) (PAGE_OCTETS * at) PAGE_OCTETS }
{
    match directory {
        Some(tables) => octets_at(tables.as_slice(), at, zeros),
        None => zeros.as_slice(),
    }
}

/// Makes a page of the directory, and what holds it, where they are not made yet. Where memory is refused, all stays as
/// it was to those who look at it.
#[inline]
pub(crate) fn make(alloc: Global, directory: &mut Directory, at: usize) -> Result<(), AllocError>
    requires at { at < DIRECTORY_PAGES }
    requires whole { IsWholeDirectory directory.old }
    ensures whole { IsWholeDirectory directory.new }
    ensures octets { directory_octets directory.new ≡ directory_octets directory.old }
    ensures made { OnOk result (directory_made directory.new ≡ mark (directory_made directory.old) at) }
    ensures same { OnErr result (directory_made directory.new ≡ directory_made directory.old) }
    ensures ready { IsAt (directory_made directory.old) at → IsOk result }
{
    match directory {
        Some(_) => {}
        None => *directory = new_directory(alloc)?,
    }
    make_page(alloc, directory, at)
}

/// Makes a page of a directory that is made.
#[inline]
fn make_page(alloc: Global, directory: &mut Directory, at: usize) -> Result<(), AllocError>
    requires at { at < DIRECTORY_PAGES }
    requires some { IsSome directory.old }
    requires whole { IsWholeDirectory directory.old }
    ensures whole { IsWholeDirectory directory.new }
    ensures octets { directory_octets directory.new ≡ directory_octets directory.old }
    ensures made { OnOk result (directory_made directory.new ≡ mark (directory_made directory.old) at) }
    ensures same { OnErr result (directory_made directory.new ≡ directory_made directory.old) }
    ensures ready { IsAt (directory_made directory.old) at → IsOk result }
{
    match directory {
        Some(tables) => make_at(alloc, tables.as_mut_slice(), at),
        None => unreachable!(),
    }
}

/// Writes octets within a page of the directory, which is made.
#[inline]
pub(crate) fn write(directory: &mut Directory, at: usize, from: usize, written: &[u8])
    requires at { at < DIRECTORY_PAGES }
    requires range { from + length written.now ≤ PAGE_OCTETS }
    requires whole { IsWholeDirectory directory.old }
    requires made { IsAt (directory_made directory.old) at }
    ensures whole { IsWholeDirectory directory.new }
    ensures octets { directory_octets directory.new ≡ put (directory_octets directory.old) (PAGE_OCTETS * at + from) written.now }
    ensures made { directory_made directory.new ≡ directory_made directory.old }
{
    match directory {
        Some(tables) => write_at(tables.as_mut_slice(), at, from, written),
        None => unreachable!(),
    }
}

// ---- the tables of a directory that is made
/// The octets of a page of these tables, where `zeros` stands for one that is not made.
#[inline]
fn octets_at<'a>(tables: &'a [Table], at: usize, zeros: &'a [u8; PAGE_OCTETS]) -> &'a [u8]
    requires at { at < PARTS * length tables.now }
    requires whole { AllAre IsWholeTable tables.now }
    requires zeros { zeros.now ≡ zero_page }
    ensures { result.now ≡ part (tables_octets tables.now) (PAGE_OCTETS * at) PAGE_OCTETS }
{
    table::octets(&tables[at / PARTS], at % PARTS, zeros)
}

/// Makes a page of these tables. Where memory is refused, all stays as it was.
#[inline]
fn make_at(alloc: Global, tables: &mut [Table], at: usize) -> Result<(), AllocError>
    requires at { at < PARTS * length tables.old }
    requires whole { AllAre IsWholeTable tables.old }
    ensures whole { AllAre IsWholeTable tables.new }
    ensures len { length tables.new ≡ length tables.old }
    ensures octets { tables_octets tables.new ≡ tables_octets tables.old }
    ensures made { OnOk result (tables_made tables.new ≡ mark (tables_made tables.old) at) }
    ensures same { OnErr result (tables_made tables.new ≡ tables_made tables.old) }
    ensures ready { IsAt (tables_made tables.old) at → IsOk result }
{
    table::make(alloc, &mut tables[at / PARTS], at % PARTS)
}

/// Writes octets within a page of these tables, which is made.
#[inline]
fn write_at(tables: &mut [Table], at: usize, from: usize, written: &[u8])
    requires at { at < PARTS * length tables.old }
    requires range { from + length written.now ≤ PAGE_OCTETS }
    requires whole { AllAre IsWholeTable tables.old }
    requires made { IsAt (tables_made tables.old) at }
    ensures whole { AllAre IsWholeTable tables.new }
    ensures len { length tables.new ≡ length tables.old }
    ensures octets { tables_octets tables.new ≡ put (tables_octets tables.old) (PAGE_OCTETS * at + from) written.now }
    ensures made { tables_made tables.new ≡ tables_made tables.old }
{
    table::write(&mut tables[at / PARTS], at % PARTS, from, written)
}
