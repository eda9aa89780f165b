//! One page of guest memory, made or not.
ghost use Rattle.std.specs.Prelude.{◌≡◌, ◌+◌, ◌≤◌, ◌∷◌, [], IfOk, IsOk, OnErr, OnOk, length, true};
ghost use Rattle.em_mem.specs.Memory.{put};
ghost use Rattle.em_mem.specs.Pages.{zero_page, page_octets, page_made, is_made};

use crate::PAGE_OCTETS;
use std::alloc::{AllocError, Global};

/// A page, or none where it is not made: its octets are then zero.
pub(crate) type Page = Option<Box<[u8; PAGE_OCTETS]>>;

/// A page of zeros.
#[tactic(auto, unfolding(crate::specs::Memory::zeros))]
pub(crate) fn new_page(alloc: Global) -> Result<Box<[u8; PAGE_OCTETS]>, AllocError>
    ensures { IfOk result (λ page. page.value ≡ zero_page) }
{
    Ok(Box::new(alloc, [0; PAGE_OCTETS])?)
}

/// The octets of a page, where `zeros` stands for one that is not made.
#[inline]
pub(crate) fn octets<'a>(page: &'a Page, zeros: &'a [u8; PAGE_OCTETS]) -> &'a [u8]
    requires { zeros.now ≡ zero_page }
    ensures { result.now ≡ page_octets page.now }
{
    match page {
        Some(octets) => octets.as_slice(),
        None => zeros.as_slice(),
    }
}

/// Makes a page, if it is not made yet. Its octets stay.
#[inline]
pub(crate) fn make(alloc: Global, page: &mut Page) -> Result<(), AllocError>
    ensures octets { page_octets page.new ≡ page_octets page.old }
    ensures made { OnOk result (page_made page.new ≡ true ∷ []) }
    ensures same { OnErr result (page.new ≡ page.old) }
    ensures ready { is_made page.old ≡ true → IsOk result }
{
    if page.is_none() {
        make_now(alloc, page)
    } else {
        Ok(())
    }
}

/// Makes a page of zeros in place of what is there.
#[cold]
#[inline(never)]
fn make_now(alloc: Global, page: &mut Page) -> Result<(), AllocError>
    ensures octets { OnOk result (page_octets page.new ≡ zero_page) }
    ensures made { OnOk result (page_made page.new ≡ true ∷ []) }
    ensures same { OnErr result (page.new ≡ page.old) }
{
    *page = Some(new_page(alloc)?);
    Ok(())
}

/// Writes octets over those of a made page.
#[inline]
pub(crate) fn write(page: &mut Page, at: usize, written: &[u8])
    requires made { is_made page.old ≡ true }
    requires range { at + length written.now ≤ length (page_octets page.old) }
    ensures octets { page_octets page.new ≡ put (page_octets page.old) at written.now }
    ensures made { is_made page.new ≡ true }
{
    match page {
        Some(octets) => {
            let octets = octets.as_mut_slice();
            octets[at..at + written.len()].copy_from_slice(written);
        }
        None => unreachable!(),
    }
}
