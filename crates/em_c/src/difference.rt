//! Where octets differ from others of the same number.
ghost use Rattle.std.specs.Prelude.{◌≡◌, ◌≤◌, length, take, drop};
ghost use Rattle.em_c.specs.Difference as the;

/// Makes `there` what `octets` are. What is the same already is not written.
pub fn copy_changed(octets: &[u8], there: &mut [u8])
    requires { length octets.now ≡ length there.old }
    ensures { there.new ≡ octets.now }
{
    for i in 0..octets.len() {
        if there[i] != octets[i] {
            there[i] = octets[i];
        }
    }
}

/// How many octets at the head are the same.
pub fn same_at_head(old: &[u8], new: &[u8]) -> usize
    requires { length old.now ≡ length new.now }
    ensures count { result ≡ the.same_at_head old.now new.now }
    ensures most { result ≤ length new.now }
    ensures same { take result old.now ≡ take result new.now }
{
    let mut first = 0usize;
    while first < new.len() && old[first] == new[first] {
        first += 1;
    }
    first
}

/// How many octets there are up to the last that differs; 0 where none does.
pub fn up_to_last(old: &[u8], new: &[u8]) -> usize
    requires { length old.now ≡ length new.now }
    ensures count { result ≡ the.up_to_last old.now new.now }
    ensures most { result ≤ length new.now }
    ensures same { drop result old.now ≡ drop result new.now }
{
    let mut last = new.len();
    while last > 0 && old[last - 1] == new[last - 1] {
        last -= 1;
    }
    last
}
