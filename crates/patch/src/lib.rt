// A part of a list written anew: what a loop over a slice leaves.
#![tactic(auto)]

ghost use Rattle.std.specs.Prelude.{◌≡◌, ◌++◌, ◌≤◌, drop, length, take};

// For the crates above: copies a row to the front of a slice that has room for it.
pub fn copy(row: &[u8], s: &mut [u8])
    requires { length row.now ≤ length s.old }
    ensures { s.new ≡ take (length row.now) row.now ++ drop (length row.now) s.old }
{
    s[..row.len()].copy_from_slice(row);
}
