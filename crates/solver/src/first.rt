// The lines before the first condition.
ghost use Rattle.std.specs.Prelude.{◌+◌, ◌*◌, ◌≤◌, ◌<◌, length};
ghost use Rattle.solver.specs.Working.Slots.{line_slots, Only, Each};
ghost use Rattle.solver.specs.Working.Start.{all_counts, first_slots, row_slots, row_line};

use crate::LINE;

// The first line: the values us, and the locator 1.
pub(crate) fn first_line(us: &[u8], space: &mut [u8])
    requires { (length us.now < line_slots) × (line_slots ≤ length space.old) }
    ensures { Only 0 (first_slots us.now) space.old space.new }
{
    rows::clear(space, 0, LINE);
    rows::store(us, space, 0);
    space[us.len()] = 1;
}

// Line j as that of a row with n conditions, the first of which is number `at`.
fn row_line(space: &mut [u8], j: usize, at: usize, n: usize)
    requires { (at + n ≤ line_slots) × (line_slots * j + line_slots ≤ length space.old) }
    ensures { Only j (row_slots at n) space.old space.new }
{
    rows::clear(space, LINE * j, LINE);
    let first = LINE * j + at;
    space[first..first + n].fill(1);
}

// The lines of the rows, which have these numbers of conditions, behind the first line.
pub(crate) fn row_lines(counts: &[usize], space: &mut [u8])
    requires { (all_counts counts.now ≤ line_slots) × (line_slots * (length counts.now + 1) ≤ length space.old) }
    ensures { Each (length counts.now + 1) (row_line counts.now) space.old space.new }
{
    let mut at = 0;
    for (j, count) in counts.iter().enumerate() {
        row_line(space, j + 1, at, *count);
        at += *count;
    }
}
