//! Pages, tables and directories with what others hold, in memory of their own. What is not made takes none.
ghost use Rattle.std.specs.Prelude.{◌≡◌, OnOk, length};
ghost use Rattle.em_mem.specs.Pages.{AllAre, IsWholeDirectory, IsWholePage, IsWholeTable};
ghost use Rattle.em_mem.specs.Pages.{directories_made, directories_octets, directory_made, directory_octets, is_made};
ghost use Rattle.em_mem.specs.Pages.{page_octets, pages_made, pages_octets, table_made, table_octets, tables_made};
ghost use Rattle.em_mem.specs.Pages.{tables_octets};

use crate::PARTS;
use crate::directory::{Directory, NO_TABLE};
use crate::page::Page;
use crate::table::{NO_PAGE, Table};
use std::alloc::{AllocError, Global};

/// Makes the page one of the same octets, or one that is not made.
fn copy_page(alloc: Global, copy: &mut Page, page: &Page) -> Result<(), AllocError>
    ensures octets { OnOk result (page_octets copy.new ≡ page_octets page.now) }
    ensures made { OnOk result (is_made copy.new ≡ is_made page.now) }
{
    *copy = match page {
        Some(octets) => Some(Box::new(alloc, **octets)?),
        None => None,
    };
    Ok(())
}

/// Makes each of the pages one of the same octets as that of the others, or one that is not made.
pub(crate) fn copy_pages(alloc: Global, copy: &mut [Page], pages: &[Page]) -> Result<(), AllocError>
    requires len { length copy.old ≡ length pages.now }
    requires whole { AllAre IsWholePage pages.now }
    requires copy { AllAre IsWholePage copy.old }
    ensures whole { OnOk result (AllAre IsWholePage copy.new) }
    ensures octets { OnOk result (pages_octets copy.new ≡ pages_octets pages.now) }
    ensures made { OnOk result (pages_made copy.new ≡ pages_made pages.now) }
{
    for k in 0..pages.len() {
        copy_page(alloc, &mut copy[k], &pages[k])?;
    }
    Ok(())
}

/// Makes the table one with the same pages.
fn copy_table(alloc: Global, copy: &mut Table, table: &Table) -> Result<(), AllocError>
    requires { IsWholeTable table.now }
    ensures whole { OnOk result (IsWholeTable copy.new) }
    ensures octets { OnOk result (table_octets copy.new ≡ table_octets table.now) }
    ensures made { OnOk result (table_made copy.new ≡ table_made table.now) }
{
    *copy = match table {
        Some(pages) => {
            let mut copied = Box::new(alloc, [NO_PAGE; PARTS])?;
            copy_pages(alloc, copied.as_mut_slice(), pages.as_slice())?;
            Some(copied)
        }
        None => None,
    };
    Ok(())
}

/// Makes each of the tables one with the same pages.
fn copy_tables(alloc: Global, copy: &mut [Table], tables: &[Table]) -> Result<(), AllocError>
    requires len { length copy.old ≡ length tables.now }
    requires whole { AllAre IsWholeTable tables.now }
    requires copy { AllAre IsWholeTable copy.old }
    ensures whole { OnOk result (AllAre IsWholeTable copy.new) }
    ensures octets { OnOk result (tables_octets copy.new ≡ tables_octets tables.now) }
    ensures made { OnOk result (tables_made copy.new ≡ tables_made tables.now) }
{
    for k in 0..tables.len() {
        copy_table(alloc, &mut copy[k], &tables[k])?;
    }
    Ok(())
}

/// Makes the directory one with the same tables.
fn copy_directory(
    alloc: Global,
    copy: &mut Directory,
    directory: &Directory,
) -> Result<(), AllocError>
    requires { IsWholeDirectory directory.now }
    ensures whole { OnOk result (IsWholeDirectory copy.new) }
    ensures octets { OnOk result (directory_octets copy.new ≡ directory_octets directory.now) }
    ensures made { OnOk result (directory_made copy.new ≡ directory_made directory.now) }
{
    *copy = match directory {
        Some(tables) => {
            let mut copied = Box::new(alloc, [NO_TABLE; PARTS])?;
            copy_tables(alloc, copied.as_mut_slice(), tables.as_slice())?;
            Some(copied)
        }
        None => None,
    };
    Ok(())
}

/// Makes each of the directories one with the same tables.
pub(crate) fn copy_directories(
    alloc: Global,
    copy: &mut [Directory],
    directories: &[Directory],
) -> Result<(), AllocError>
    requires len { length copy.old ≡ length directories.now }
    requires whole { AllAre IsWholeDirectory directories.now }
    requires copy { AllAre IsWholeDirectory copy.old }
    ensures whole { OnOk result (AllAre IsWholeDirectory copy.new) }
    ensures octets { OnOk result (directories_octets copy.new ≡ directories_octets directories.now) }
    ensures made { OnOk result (directories_made copy.new ≡ directories_made directories.now) }
{
    for k in 0..directories.len() {
        copy_directory(alloc, &mut copy[k], &directories[k])?;
    }
    Ok(())
}
