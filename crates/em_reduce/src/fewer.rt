//! Leaving out items of a list.
ghost use Rattle.std.specs.Prelude.{◌≡◌, ◌≤◌, ℕ, List, IfOk, Ok, true, length, take, drop, ◌++◌};
ghost use Rattle.em_reduce.specs.Reduce.{IsPartOf, Reduces};

use std::alloc::{AllocError, Global};

/// What is asked of some of a list's items.
pub trait Trial {
    /// These have it.
    ghost has: { Self → List ℕ → Type 0 };

    /// Whether these items have it; an error where memory is refused.
    fn try_on(&self, items: &[usize]) -> Result<bool, AllocError>
        ensures { result ≡ Ok true → has self.now items.now };
}

/// Leaves out items of a list that has it, as long as those that are left have it: first half of them at once, then fewer, and
/// at last one by one, until none can be left out alone.
pub fn reduce<T: Trial>(
    alloc: Global,
    trial: &T,
    items: Vec<usize>,
) -> Result<Vec<usize>, AllocError>
    requires { T.has trial.now items.items }
    ensures ok { IfOk result (λ few. Reduces (T.has trial.now) items.items few.items) }
{
    let mut left = items;
    let mut size = left.len() / 2;
    while size > 1 {
        left = without_pieces(alloc, trial, left, size)?;
        size /= 2;
    }
    one_by_one(alloc, trial, left)
}

/// Leaves out items one by one, again and again, until none can be left out.
fn one_by_one<T: Trial>(
    alloc: Global,
    trial: &T,
    items: Vec<usize>,
) -> Result<Vec<usize>, AllocError>
    requires { T.has trial.now items.items }
    ensures ok { IfOk result (λ few. Reduces (T.has trial.now) items.items few.items) }
{
    let mut left = items;
    for rounds in 0..u32::MAX {
        let before = left.len();
        left = without_pieces(alloc, trial, left, 1)?;
        if left.len() == before {
            return Ok(left);
        }
    }
    Ok(left)
}

/// Leaves out pieces of so many items, one after the other, where those that are left have it.
fn without_pieces<T: Trial>(
    alloc: Global,
    trial: &T,
    items: Vec<usize>,
    size: usize,
) -> Result<Vec<usize>, AllocError>
    requires { T.has trial.now items.items }
    ensures ok { IfOk result (λ few. Reduces (T.has trial.now) items.items few.items) }
{
    let mut left = items;
    let mut at = 0;
    for pieces in 0..u64::MAX {
        if at >= left.len() {
            return Ok(left);
        }
        let end = at.saturating_add(size).min(left.len());
        let fewer = without(alloc, left.as_slice(), at, end)?;
        if trial.try_on(fewer.as_slice())? {
            left = fewer;
        } else {
            at = end;
        }
    }
    Ok(left)
}

/// A list without a piece of it.
fn without(alloc: Global, items: &[usize], from: usize, to: usize) -> Result<Vec<usize>, AllocError>
    requires order { from ≤ to }
    requires within { to ≤ length items.now }
    ensures ok { IfOk result (λ left. left.items ≡ take from items.now ++ drop to items.now) }
{
    let mut left = Vec::new(alloc);
    left.extend_from_slice(&items[..from])?;
    left.extend_from_slice(&items[to..])?;
    Ok(left)
}
