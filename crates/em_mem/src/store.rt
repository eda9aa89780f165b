//! The pages of guest memory: the first ones lie in one table, where they are found at once, and those behind them in
//! directories, of which only what is written takes memory.
ghost use Rattle.std.specs.Prelude.{◌≡◌, ◌+◌, ◌*◌, ◌≤◌, ◌<◌, IfOk, IsOk, OnErr, OnOk, length};
ghost use Rattle.em_mem.specs.Memory.{part, put};
ghost use Rattle.em_mem.specs.Pages.{IsAt, IsUnmade, mark};

use crate::copies::{copy_directories, copy_pages};
use crate::directory::Directory;
use crate::page::Page;
use crate::{DIRECTORY_PAGES, PAGE_OCTETS, levels, page, table};
use std::alloc::{AllocError, Global};
use std::marker::Model;

/// How many pages lie in the first table: those of 16 MiB.
const FIRST_PAGES: usize = 4096;

/// Pages, some of which are made.
#[derive(Drop)]
pub(crate) struct Store {
    alloc: Global,
    first: Vec<Page>,
    directories: Vec<Directory>,
    // Stands for each page that is not made, so that its octets can be lent.
    zeros: Box<[u8; PAGE_OCTETS]>,
}

impl Model for Store {
    ghost use Rattle.em_mem.specs.Pages.{Pages, pages_code};

    ghost Value = { Pages };

    ghost coded = { pages_code };

    ghost use Rattle.em_mem.specs.Pages.{all_of, IsStore};

    ghost view = { λ s. all_of s.first.items s.directories.items };

    ghost invariant = { λ s. IsStore s.first.items s.directories.items s.zeros.value };
}

impl Store {
    /// So many pages or more, of which none is made.
    pub(crate) fn new(alloc: Global, pages: usize) -> Result<Store, AllocError>
        requires { pages ≤ 0x1000_0000 }
        ensures { IfOk result (IsUnmade pages) }
    {
        let count = pages.min(FIRST_PAGES);
        let first = table::no_pages(alloc, count)?;
        let behind = (pages - count + (DIRECTORY_PAGES - 1)) / DIRECTORY_PAGES;
        let directories = levels::no_directories(alloc, behind)?;
        let zeros = page::new_page(alloc)?;
        Ok(Store {
            alloc,
            first,
            directories,
            zeros,
        })
    }

    /// The same pages, in memory of their own. A page that is not made takes none.
    pub(crate) fn copy(&self) -> Result<Store, AllocError>
        ensures { IfOk result (λ copy. copy ≡ self.now) }
    {
        let mut first = table::no_pages(self.alloc, self.first.len())?;
        copy_pages(self.alloc, first.as_mut_slice(), self.first.as_slice())?;
        let mut directories = levels::no_directories(self.alloc, self.directories.len())?;
        copy_directories(
            self.alloc,
            directories.as_mut_slice(),
            self.directories.as_slice(),
        )?;
        let zeros = page::new_page(self.alloc)?;
        Ok(Store {
            alloc: self.alloc,
            first,
            directories,
            zeros,
        })
    }

    /// The octets of a page.
    #[inline]
    pub(crate) fn octets(&self, page: usize) -> &[u8]
        requires { page < length self.now.made }
        ensures octets { result.now ≡ part self.now.octets (PAGE_OCTETS * page) PAGE_OCTETS }
        ensures whole { length result.now ≡ PAGE_OCTETS }
    {
        let count = self.first.len();
        if page < count {
            table::octets_at(self.first.as_slice(), page, &self.zeros)
        } else {
            levels::octets_at(self.directories.as_slice(), count, page, &self.zeros)
        }
    }

    /// Makes a page. Where memory is refused, all stays as it was to those who look at it.
    #[inline]
    pub(crate) fn make(&mut self, page: usize) -> Result<(), AllocError>
        requires { page < length self.old.made }
        ensures octets { self.new.octets ≡ self.old.octets }
        ensures made { OnOk result (self.new.made ≡ mark self.old.made page) }
        ensures len { length self.new.made ≡ length self.old.made }
        ensures same { OnErr result (self.new ≡ self.old) }
        ensures ready { IsAt self.old.made page → IsOk result }
    {
        let count = self.first.len();
        if page < count {
            table::make_at(self.alloc, self.first.as_mut_slice(), page)
        } else {
            levels::make_at(self.alloc, self.directories.as_mut_slice(), count, page)
        }
    }

    /// Writes octets within a page, which is made.
    #[inline]
    pub(crate) fn write(&mut self, page: usize, from: usize, written: &[u8])
        requires page { page < length self.old.made }
        requires range { from + length written.now ≤ PAGE_OCTETS }
        requires made { IsAt self.old.made page }
        ensures octets { self.new.octets ≡ put self.old.octets (PAGE_OCTETS * page + from) written.now }
        ensures made { self.new.made ≡ self.old.made }
    {
        let count = self.first.len();
        if page < count {
            table::write_at(self.first.as_mut_slice(), page, from, written);
        } else {
            levels::write_at(self.directories.as_mut_slice(), count, page, from, written);
        }
    }
}
