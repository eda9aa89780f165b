//! Guest memory: the octets of the guest, and which of its pages are made.
ghost use Rattle.std.specs.Prelude.{◌≡◌, ◌+◌, ◌/◌, ◌%◌, ◌≤◌, ◌<◌, ◌↔◌, ◌⊎◌, ◌++◌, ℕ, length, not, take};
ghost use Rattle.std.specs.Prelude.{IfOk, IfErr, IsErrOf, IsOk, IsTrue, IsSome, IfSome, OnErr, OnOk};
ghost use Rattle.em_mem.specs.Memory.{IsHeld, IsInOnePage, IsMade, IsMemoryRange, IsMemorySize, IsPageMade};
ghost use Rattle.em_mem.specs.Memory.{MakesOnly, MorePages, fresh, leaves, part, put, zeros, Fits, undo, Reverses};
ghost use Rattle.em_mem.specs.OldOctets.{saved};
ghost use Rattle.em_mem.specs.Pages.{IsPageFrom};

use crate::laws::places_are_small;
use crate::store::Store;
use crate::{
    MOST_END, MOST_MEMORY, MemRefusal, MemUndo, OldOctets, PAGE_OCTETS, Reversible, Saved,
};
use std::alloc::{AllocError, Global};
use std::marker::Model;

/// How many octets `swap` reads out before it writes over them.
const SWAPPED: usize = 64;

/// The octets of the guest from an address on, in pages of 4,096. A page is made before it is first written, and never
/// given back.
#[derive(Drop)]
pub struct GuestMemory {
    base: u64,
    size: u64,
    store: Store,
}

impl Model for GuestMemory {
    ghost use Rattle.em_mem.specs.Memory.{Cells, cells_code};

    ghost Value = { Cells };

    ghost coded = { cells_code };

    ghost use Rattle.em_mem.specs.Pages.{cells_of, IsMemory};

    ghost view = { λ m. cells_of m.base m.size m.store };

    ghost invariant = { λ m. IsMemory m.base m.size m.store };
}

impl GuestMemory {
    /// Memory of `size` octets from address 0 on, all zero, with no page made. `Size` comes before any memory is
    /// taken, where `size` is not a multiple of 4,096 from 4,096 to 16,777,216.
    pub fn new(alloc: Global, size: u64) -> Result<GuestMemory, MemRefusal>
        ensures ok { IfOk result (λ memory. memory ≡ fresh 0 size) }
        ensures fit { OnOk result (IsMemorySize size) }
        ensures size { IsErrOf result MemRefusal.Size ↔ (IsMemorySize size → ⊥) }
        ensures memory { IsErrOf result MemRefusal.Memory → IsMemorySize size }
    {
        if size > MOST_MEMORY {
            return Err(MemRefusal::Size);
        }
        GuestMemory::at(alloc, 0, size)
    }

    /// Memory of `size` octets from `base` on, all zero, with no page made. `Size` comes before any memory is taken,
    /// where `size` or `base` is not a multiple of 4,096, `size` is 0, or memory would end past 2^40.
    pub fn at(alloc: Global, base: u64, size: u64) -> Result<GuestMemory, MemRefusal>
        ensures ok { IfOk result (λ memory. memory ≡ fresh base size) }
        ensures fit { OnOk result (IsMemoryRange base size) }
        ensures size { IsErrOf result MemRefusal.Size ↔ (IsMemoryRange base size → ⊥) }
        ensures memory { IsErrOf result MemRefusal.Memory → IsMemoryRange base size }
    {
        if !is_memory_range(base, size) {
            return Err(MemRefusal::Size);
        }
        let store = Store::new(alloc, size as usize / PAGE_OCTETS)?;
        Ok(GuestMemory { base, size, store })
    }

    /// The same memory once more, in pages of its own, as many as are made here. This one stays, and neither knows of
    /// what becomes of the other.
    pub fn copy(&self) -> Result<GuestMemory, AllocError>
        ensures { IfOk result (λ copy. copy ≡ self.now) }
    {
        let store = self.store.copy()?;
        Ok(GuestMemory {
            base: self.base,
            size: self.size,
            store,
        })
    }

    /// The address of the first octet.
    #[inline(always)]
    pub fn base(&self) -> u64
        ensures { result ≡ self.now.base }
    {
        self.base
    }

    /// The size of memory in octets.
    #[inline(always)]
    pub fn len(&self) -> u64
        ensures { self.now.base + result ≡ length self.now.octets }
    {
        self.size
    }

    /// The address behind the last octet.
    #[inline(always)]
    pub fn end(&self) -> u64
        ensures end { result ≡ length self.now.octets }
        ensures most { result ≤ MOST_END }
    {
        self.base + self.size
    }

    /// Where memory begins, and how many octets it has. What is listed before its first octet is no memory, and zero.
    pub fn range(&self) -> (u64, u64)
        ensures base { result.0 ≡ self.now.base }
        ensures size { result.0 + result.1 ≡ length self.now.octets }
        ensures range { IsMemoryRange result.0 result.1 }
        ensures front { take result.0 self.now.octets ≡ zeros result.0 }
    {
        (self.base, self.size)
    }

    /// Whether the `len` octets from `addr` on lie in memory.
    pub fn holds(&self, addr: u64, len: u64) -> bool
        ensures held { IsTrue result ↔ IsHeld self.now addr len }
        ensures leaves { result ≡ not (leaves self.now.base self.now.octets addr len) }
    {
        match addr.checked_add(len) {
            Some(end) => self.base <= addr && end <= self.end(),
            None => false,
        }
    }

    /// Where the range of `len` octets from `addr` on ends.
    fn range_end(&self, addr: u64, len: u64) -> u64
        requires { IsHeld self.now addr len }
        ensures end { result ≡ addr + len }
        ensures most { result ≤ MOST_END }
    {
        self.end().min(addr + len)
    }

    /// The `len` octets from `addr` on, where they lie in memory and in one page: without a copy.
    pub fn slice(&self, addr: u64, len: usize) -> Option<&[u8]>
        ensures found { IsSome result ↔ (IsHeld self.now addr len × IsInOnePage addr len) }
        ensures octets { IfSome result (λ octets. octets.now ≡ part self.now.octets addr len) }
    {
        if self.holds(addr, len as u64) {
            self.piece(addr, len)
        } else {
            None
        }
    }

    /// The `len` octets from `addr` on, which lie in memory; none where they do not lie in one page.
    #[inline(always)]
    pub fn piece(&self, addr: u64, len: usize) -> Option<&[u8]>
        requires { IsHeld self.now addr len }
        ensures found { IsSome result ↔ IsInOnePage addr len }
        ensures octets { IfSome result (λ octets. octets.now ≡ part self.now.octets addr len) }
    {
        if len == 0 {
            return Some(&[]);
        }
        if len > PAGE_OCTETS - addr as usize % PAGE_OCTETS {
            return None;
        }
        Some(self.slice_in_page(addr, len))
    }

    /// The `len` octets from `addr` on, which lie in one page of memory.
    fn slice_in_page(&self, addr: u64, len: usize) -> &[u8]
        requires some { 0 < len }
        requires held { IsHeld self.now addr len }
        requires one { IsInOnePage addr len }
        ensures { result.now ≡ part self.now.octets addr len }
    {
        let from = (addr - self.base) as usize;
        let octets = self.store.octets(from / PAGE_OCTETS);
        let at = from % PAGE_OCTETS;
        &octets[at..at + len]
    }

    /// Makes the pages of the `len` octets from `addr` on, so that they can be written; a range of 0
    /// octets has none. Where memory is refused (`Memory`), the pages made until then stay; it is not
    /// where all pages of the range are made already.
    #[inline(always)]
    pub fn touch(&mut self, addr: u64, len: u64) -> Result<(), MemRefusal>
        requires { IsHeld self.old addr len }
        ensures more { MorePages self.old self.new }
        ensures made { OnOk result (IsMade self.new addr len) }
        ensures only { MakesOnly self.old self.new addr len }
        ensures ready { IsMade self.old addr len → IsOk result }
        ensures refused { IfErr result (λ refusal. refusal ≡ MemRefusal.Memory) }
    {
        if len == 0 {
            return Ok(());
        }
        let _ = &self.base;
        places_are_small(self);
        let first = addr / PAGE_OCTETS as u64;
        let last = (addr + len - 1) / PAGE_OCTETS as u64;
        // most ranges lie in one page
        if first == last {
            self.make_page(first)?;
        } else {
            self.make_each(first, last)?;
        }
        Ok(())
    }

    /// Makes the pages from the first to the last, one after another. Where memory is refused, some of them may be made.
    #[cold]
    #[inline(never)]
    fn make_each(&mut self, first: u64, last: u64) -> Result<(), AllocError>
        requires order { first ≤ last }
        requires few { last < MOST_END }
        requires from { IsPageFrom self.old first }
        requires last { IsPageFrom self.old last }
        ensures base { self.new.base ≡ self.old.base }
        ensures octets { self.new.octets ≡ self.old.octets }
        ensures made { OnOk result ((p : ℕ) → first ≤ p → p ≤ last → IsPageMade self.new p) }
        ensures more { (p : ℕ) → IsPageMade self.old p → IsPageMade self.new p }
        ensures only { (p : ℕ) → IsPageMade self.new p → IsPageMade self.old p ⊎ ((first ≤ p) × (p ≤ last)) }
        ensures ready { ((p : ℕ) → first ≤ p → p ≤ last → IsPageMade self.old p) → IsOk result }
    {
        for page in first..last + 1 {
            self.make_page(page)?;
        }
        Ok(())
    }

    /// Makes one page. Where memory is refused, memory is as it was.
    #[inline(always)]
    fn make_page(&mut self, page: u64) -> Result<(), AllocError>
        requires { IsPageFrom self.old page }
        ensures base { self.new.base ≡ self.old.base }
        ensures octets { self.new.octets ≡ self.old.octets }
        ensures len { length self.new.made ≡ length self.old.made }
        ensures made { OnOk result (IsPageMade self.new page) }
        ensures more { (p : ℕ) → IsPageMade self.old p → IsPageMade self.new p }
        ensures only { (p : ℕ) → IsPageMade self.new p → IsPageMade self.old p ⊎ (p ≡ page) }
        ensures same { OnErr result (self.new ≡ self.old) }
        ensures ready { IsPageMade self.old page → IsOk result }
    {
        let first = self.base / PAGE_OCTETS as u64;
        self.store.make((page - first) as usize)
    }

    /// Copies the octets from `addr` on into `out`. The range may cross page ends.
    #[inline(always)]
    pub fn read_into(&self, addr: u64, out: &mut [u8])
        requires { IsHeld self.now addr (length out.old) }
        ensures { out.new ≡ part self.now.octets addr (length out.old) }
    {
        match self.piece(addr, out.len()) {
            Some(octets) => out.copy_from_slice(octets),
            None => self.read_pieces(addr, out),
        }
    }

    /// Copies the octets from `addr` on into `out`, page by page.
    #[inline(never)]
    pub(crate) fn read_pieces(&self, addr: u64, out: &mut [u8])
        requires { IsHeld self.now addr (length out.old) }
        ensures { out.new ≡ part self.now.octets addr (length out.old) }
    {
        let end = self.range_end(addr, out.len() as u64);
        let mut done = 0;
        while addr + (done as u64) < end {
            let from = addr + done as u64;
            let count = in_page(from, out.len() - done);
            let Some(octets) = self.piece(from, count) else {
                unreachable!();
            };
            out[done..done + count].copy_from_slice(octets);
            done += count;
        }
    }

    /// The `N` octets from `addr` on. The range may cross page ends.
    #[inline(always)]
    pub fn read_array<const N: usize>(&self, addr: u64) -> [u8; N]
        requires { IsHeld self.now addr N }
        ensures { result ≡ part self.now.octets addr N }
    {
        let mut octets = [0; N];
        self.read_into(addr, &mut octets);
        octets
    }

    /// Saves the `len` octets from `addr` on before the old octets of other records. The range may cross page ends.
    #[inline(always)]
    pub fn save(&self, addr: u64, len: usize, old: &mut OldOctets)
        requires held { IsHeld self.now addr len }
        requires room { len ≤ length old.old.octets }
        ensures { old.new ≡ saved (part self.now.octets addr len) old.old }
    {
        match self.piece(addr, len) {
            Some(octets) => old.save(octets),
            None => self.save_pieces(addr, len, old),
        }
    }

    /// Saves the `len` octets from `addr` on, page by page: those of the last page first, since what is saved later
    /// comes before them.
    #[inline(never)]
    fn save_pieces(&self, addr: u64, len: usize, old: &mut OldOctets)
        requires held { IsHeld self.now addr len }
        requires room { len ≤ length old.old.octets }
        ensures { old.new ≡ saved (part self.now.octets addr len) old.old }
    {
        places_are_small(self);
        let mut left = len;
        while left > 0 {
            let last = addr + (left as u64 - 1);
            let count = (last as usize % PAGE_OCTETS + 1).min(left);
            left -= count;
            let Some(octets) = self.piece(addr + left as u64, count) else {
                unreachable!();
            };
            old.save(octets);
        }
    }

    /// Writes octets from `addr` on, and saves the old ones first. The range may cross page ends. It takes no memory:
    /// `touch` made the pages.
    #[inline(always)]
    pub fn write_saving(&mut self, addr: u64, written: &[u8], old: &mut OldOctets)
        requires held { IsHeld self.old addr (length written.now) }
        requires made { IsMade self.old addr (length written.now) }
        requires room { length written.now ≤ length old.old.octets }
        ensures base { self.new.base ≡ self.old.base }
        ensures octets { self.new.octets ≡ put self.old.octets addr written.now }
        ensures made { self.new.made ≡ self.old.made }
        ensures saved { old.new ≡ saved (part self.old.octets addr (length written.now)) old.old }
        ensures reverses { Reverses self.old self.new
            (record { at = addr; octets = take (length written.now) old.new.octets }) }
    {
        self.save(addr, written.len(), old);
        self.write(addr, written);
    }

    /// Takes back the write that saved the first `len` of these octets, which lay from `addr` on. It takes no memory.
    #[inline(always)]
    pub fn put_saved_back(&mut self, addr: u64, len: usize, old: &Saved<'_>)
        requires room { len ≤ length old.now.octets }
        requires fits { Fits self.old (record { at = addr; octets = take len old.now.octets }) }
        ensures { self.new ≡ undo self.old (record { at = addr; octets = take len old.now.octets }) }
    {
        let (front, back) = old.first(len);
        self.write_both(addr, front, back);
    }

    /// Writes the octets from `addr` on. The range may cross page ends. It takes no memory: `touch` made
    /// the pages.
    #[inline(always)]
    pub fn write(&mut self, addr: u64, written: &[u8])
        requires held { IsHeld self.old addr (length written.now) }
        requires made { IsMade self.old addr (length written.now) }
        ensures base { self.new.base ≡ self.old.base }
        ensures octets { self.new.octets ≡ put self.old.octets addr written.now }
        ensures made { self.new.made ≡ self.old.made }
    {
        if !written.is_empty() && in_page(addr, written.len()) == written.len() {
            self.write_piece(addr, written);
        } else {
            self.write_pieces(addr, written);
        }
    }

    /// Writes two parts from `addr` on, one behind the other. The range may cross page ends. It takes no memory:
    /// `touch` made the pages.
    #[inline(always)]
    pub fn write_both(&mut self, addr: u64, first: &[u8], second: &[u8])
        requires held { IsHeld self.old addr (length first.now + length second.now) }
        requires made { IsMade self.old addr (length first.now + length second.now) }
        ensures base { self.new.base ≡ self.old.base }
        ensures octets { self.new.octets ≡ put self.old.octets addr (first.now ++ second.now) }
        ensures made { self.new.made ≡ self.old.made }
    {
        self.write(addr, first);
        if !second.is_empty() {
            places_are_small(self);
            self.write(addr + first.len() as u64, second);
        }
    }

    /// Writes the octets from `addr` on, page by page.
    #[inline(never)]
    fn write_pieces(&mut self, addr: u64, written: &[u8])
        requires held { IsHeld self.old addr (length written.now) }
        requires made { IsMade self.old addr (length written.now) }
        ensures base { self.new.base ≡ self.old.base }
        ensures octets { self.new.octets ≡ put self.old.octets addr written.now }
        ensures made { self.new.made ≡ self.old.made }
    {
        let end = self.range_end(addr, written.len() as u64);
        let mut done = 0;
        while addr + (done as u64) < end {
            let from = addr + done as u64;
            let count = in_page(from, written.len() - done);
            self.write_piece(from, &written[done..done + count]);
            done += count;
        }
    }

    /// Writes octets from `addr` on, and gives the old ones. The range may cross page ends. It takes no
    /// memory: `touch` made the pages.
    pub fn replace<const N: usize>(&mut self, addr: u64, written: &[u8; N]) -> [u8; N]
        requires held { IsHeld self.old addr N }
        requires made { IsMade self.old addr N }
        ensures base { self.new.base ≡ self.old.base }
        ensures octets { self.new.octets ≡ put self.old.octets addr written.now }
        ensures made { self.new.made ≡ self.old.made }
        ensures old { result ≡ part self.old.octets addr N }
        ensures reverses { Reverses self.old self.new (record { at = addr; octets = result }) }
    {
        let old = self.read_array(addr);
        self.write(addr, written);
        old
    }

    /// Writes octets within one page, which is made.
    fn write_piece(&mut self, addr: u64, written: &[u8])
        requires some { 0 < length written.now }
        requires held { IsHeld self.old addr (length written.now) }
        requires made { IsMade self.old addr (length written.now) }
        requires one { IsInOnePage addr (length written.now) }
        ensures base { self.new.base ≡ self.old.base }
        ensures octets { self.new.octets ≡ put self.old.octets addr written.now }
        ensures made { self.new.made ≡ self.old.made }
    {
        let from = (addr - self.base) as usize;
        self.store
            .write(from / PAGE_OCTETS, from % PAGE_OCTETS, written);
    }

    /// Writes the octets of `swapped` from `addr` on, and leaves the old ones in `swapped`. The range
    /// may cross page ends. It takes no memory: `touch` made the pages.
    pub fn swap(&mut self, addr: u64, swapped: &mut [u8])
        requires held { IsHeld self.old addr (length swapped.old) }
        requires made { IsMade self.old addr (length swapped.old) }

        ensures base { self.new.base ≡ self.old.base }
        ensures octets { self.new.octets ≡ put self.old.octets addr swapped.old }
        ensures made { self.new.made ≡ self.old.made }
        ensures old { swapped.new ≡ part self.old.octets addr (length swapped.old) }

        // A record of the old octets takes the write back.
        ensures len { length swapped.new ≡ length swapped.old }
        ensures reverses { Reverses self.old self.new (record { at = addr; octets = swapped.new }) }
    {
        let end = self.range_end(addr, swapped.len() as u64);
        let mut done = 0;
        while addr + (done as u64) < end {
            let from = addr + done as u64;
            let count = (swapped.len() - done).min(SWAPPED);
            self.swap_piece(from, &mut swapped[done..done + count]);
            done += count;
        }
    }

    /// Writes at most 64 octets, and leaves the old ones in their place: they are read before the write.
    fn swap_piece(&mut self, addr: u64, swapped: &mut [u8])
        requires few { length swapped.old ≤ SWAPPED }
        requires held { IsHeld self.old addr (length swapped.old) }
        requires made { IsMade self.old addr (length swapped.old) }
        ensures base { self.new.base ≡ self.old.base }
        ensures octets { self.new.octets ≡ put self.old.octets addr swapped.old }
        ensures made { self.new.made ≡ self.old.made }
        ensures old { swapped.new ≡ part self.old.octets addr (length swapped.old) }
    {
        let mut room = [0; SWAPPED];
        let old = &mut room[..swapped.len()];
        self.read_into(addr, old);
        self.write(addr, swapped);
        swapped.copy_from_slice(old);
    }

    /// Takes back the write that gave out this record. It takes no memory.
    fn put_back(&mut self, taken: &MemUndo)
        requires { Fits self.old taken.now }
        ensures { self.new ≡ undo self.old taken.now }
    {
        self.write(taken.addr, taken.octets.as_slice());
    }
}

/// How many of the `len` octets from `addr` on lie before the page's end.
fn in_page(addr: u64, len: usize) -> usize
    ensures within { result ≤ len }
    ensures one { IsInOnePage addr result }
    ensures some { 0 < len → 0 < result }
{
    (PAGE_OCTETS - addr as usize % PAGE_OCTETS).min(len)
}

/// Whether memory can lie there.
fn is_memory_range(base: u64, size: u64) -> bool
    ensures { IsTrue result ↔ IsMemoryRange base size }
{
    let page = PAGE_OCTETS as u64;
    page <= size
        && size <= MOST_END
        && base <= MOST_END - size
        && size % page == 0
        && base % page == 0
}

impl Reversible for GuestMemory {
    type Undo = MemUndo;

    ghost use Rattle.em_mem.specs.Memory.{Fits, undo};

    ghost fits = { Fits };

    ghost undone = { undo };

    fn take_back(&mut self, undo: MemUndo) {
        self.put_back(&undo);
    }
}
