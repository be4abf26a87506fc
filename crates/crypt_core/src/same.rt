//! Compares a hash with a stored one. If the lengths are equal, the comparison looks at every byte, and its time
//! doesn't depend on where the bytes differ. No clause of a contract says so; tests/library checks the compiled code.
ghost use Rattle.std.specs.Prelude.{◌≡◌, bytes_eq};

/// Returns whether `a` and `b` have the same bytes, as `==` does.
pub fn same_bytes(a: &[u8], b: &[u8]) -> bool
    ensures { result ≡ bytes_eq a.now b.now }
{
    if a.len() != b.len() {
        return false;
    }
    let mut differ = 0;
    'places: for i in 0..a.len() {
        differ |= a[i] ^ b[i];
    }
    differ == 0
}
