//! All directories of a memory.
ghost use Rattle.std.specs.Prelude.{◌≡◌, ◌+◌, ◌-◌, ◌*◌, ◌≤◌, ◌<◌, IfOk, IsOk, OnErr, OnOk, length, true, replicate, None};
ghost use Rattle.em_mem.specs.Memory.{part, put};
ghost use Rattle.em_mem.specs.Pages.{AllAre, IsAt, IsWholeDirectory, directories_made, directories_octets, mark};
ghost use Rattle.em_mem.specs.Pages.{zero_page};

use crate::directory::Directory;
use crate::{DIRECTORY_PAGES, PAGE_OCTETS, directory};
use std::alloc::{AllocError, Global};
use std::mem::size_of;

// New memory of 2^40 octets takes 16 octets for each of the first 4,096 pages and of 1,024 directories, and a page of zeros:
// 86,016 octets.
const _: () = prove!(size_of::<Directory>() == 16);

/// Directories, of which none is made.
pub(crate) fn no_directories(alloc: Global, count: usize) -> Result<Vec<Directory>, AllocError>
    ensures { IfOk result (λ directories. directories.items ≡ replicate count None) }
{
    let mut directories = Vec::with_capacity(alloc, count)?;
    for _ in 0..count {
        directories.push(None)?;
    }
    Ok(directories)
}

// The pages of directories lie behind those of a table: page `count` is the first one. Most memories have none, so these
// functions are cold.

/// The octets of a page of these directories, where `zeros` stands for one that is not made.
#[cold]
#[inline(never)]
pub(crate) fn octets_at<'a>(
    directories: &'a [Directory],
    count: usize,
    page: usize,
    zeros: &'a [u8; PAGE_OCTETS],
) -> &'a [u8]
    requires behind { count ≤ page }
    requires at { page - count < DIRECTORY_PAGES * length directories.now }
    requires whole { AllAre IsWholeDirectory directories.now }
    requires zeros { zeros.now ≡ zero_page }
    ensures { result.now ≡ part (directories_octets directories.now) (PAGE_OCTETS * (page - count)) PAGE_OCTETS }
{
    let at = page - count;
    directory::octets(
        &directories[at / DIRECTORY_PAGES],
        at % DIRECTORY_PAGES,
        zeros,
    )
}

/// Makes a page of these directories. Where memory is refused, all stays as it was.
#[cold]
#[inline(never)]
pub(crate) fn make_at(
    alloc: Global,
    directories: &mut [Directory],
    count: usize,
    page: usize,
) -> Result<(), AllocError>
    requires behind { count ≤ page }
    requires at { page - count < DIRECTORY_PAGES * length directories.old }
    requires whole { AllAre IsWholeDirectory directories.old }
    ensures whole { AllAre IsWholeDirectory directories.new }
    ensures len { length directories.new ≡ length directories.old }
    ensures octets { directories_octets directories.new ≡ directories_octets directories.old }
    ensures made { OnOk result (directories_made directories.new ≡ mark (directories_made directories.old) (page - count)) }
    ensures same { OnErr result (directories_made directories.new ≡ directories_made directories.old) }
    ensures ready { IsAt (directories_made directories.old) (page - count) → IsOk result }
{
    let at = page - count;
    directory::make(
        alloc,
        &mut directories[at / DIRECTORY_PAGES],
        at % DIRECTORY_PAGES,
    )
}

/// Writes octets within a page of these directories, which is made.
#[cold]
#[inline(never)]
pub(crate) fn write_at(
    directories: &mut [Directory],
    count: usize,
    page: usize,
    from: usize,
    written: &[u8],
)
    requires behind { count ≤ page }
    requires at { page - count < DIRECTORY_PAGES * length directories.old }
    requires range { from + length written.now ≤ PAGE_OCTETS }
    requires whole { AllAre IsWholeDirectory directories.old }
    requires made { IsAt (directories_made directories.old) (page - count) }
    ensures whole { AllAre IsWholeDirectory directories.new }
    ensures len { length directories.new ≡ length directories.old }
    ensures octets { directories_octets directories.new ≡ put (directories_octets directories.old) (PAGE_OCTETS * (page - count) + from) written.now }
    ensures made { directories_made directories.new ≡ directories_made directories.old }
{
    let at = page - count;
    directory::write(
        &mut directories[at / DIRECTORY_PAGES],
        at % DIRECTORY_PAGES,
        from,
        written,
    )
}
