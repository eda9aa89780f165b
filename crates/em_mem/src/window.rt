//! Guest memory as it was before a write, seen through a window: memory itself is neither copied nor changed.
ghost use Rattle.std.specs.Prelude.{◌≡◌, ◌≤◌, ◌++◌, length, take, drop};
ghost use Rattle.em_mem.specs.Memory.{Cells, Fits, undo};
ghost use Rattle.em_mem.specs.Window.{IsWindow, lay_over};

use crate::MOST_END;

/// Lays the octets that lay from `at` on over a window of memory from `addr` on. The window is then what it is once
/// they are put back.
#[inline(always)]
pub fn lay_over(at: u64, octets: &[u8], addr: u64, window: &mut [u8])
    ensures octets { window.new ≡ lay_over addr window.old (record { at = at; octets = octets.now }) }
    ensures before { (m : Cells) → Fits m (record { at = at; octets = octets.now })
        → IsWindow m.octets addr window.old
        → IsWindow (undo m (record { at = at; octets = octets.now })).octets addr window.new }
{
    lay(at, octets, addr, window);
}

/// Lays two parts, which lay one behind the other from `at` on, over a window of memory from `addr` on, as `lay_over`
/// does with octets in one piece.
#[inline(always)]
pub fn lay_both_over(at: u64, first: &[u8], second: &[u8], addr: u64, window: &mut [u8])
    requires { at ≤ MOST_END }
    ensures { window.new ≡ lay_over addr window.old (record { at = at; octets = first.now ++ second.now }) }
{
    lay(at, first, addr, window);
    if !second.is_empty() {
        lay(at + first.len() as u64, second, addr, window);
    }
}

/// Lays the octets over the window. Most records have none of it, so that is asked first.
#[inline(always)]
fn lay(at: u64, octets: &[u8], addr: u64, window: &mut [u8])
    ensures { window.new ≡ lay_over addr window.old (record { at = at; octets = octets.now }) }
{
    if at < addr {
        let before = addr - at;
        if before < octets.len() as u64 {
            cover(window, &octets[before as usize..]);
        }
    } else {
        let skipped = at - addr;
        if skipped < window.len() as u64 {
            cover(&mut window[skipped as usize..], octets);
        }
    }
}

/// Lays octets over the front of a window, as many as it has room for.
#[inline(never)]
fn cover(window: &mut [u8], octets: &[u8])
    ensures { window.new ≡ take (length window.old) (octets.now ++ drop (length octets.now) window.old) }
{
    let count = window.len().min(octets.len());
    window[..count].copy_from_slice(&octets[..count]);
}
