// The first line of lowest lead, among all lines or among some.
ghost use Rattle.std.specs.Prelude.{◌≡◌, List, ℕ, ◌≤◌, ◌<◌, length, replicate, IfSome, MatchOption};
ghost use Rattle.std.proofs.Math.ListN.{get_elem?};
ghost use Rattle.std.proofs.Math.Option.{none, some};
ghost use Rattle.basis.proofs.Lines.{Line, least, another};
ghost use Rattle.basis.proofs.Scan.{better};
ghost use Rattle.solver.specs.Working.Held.{LeadsOf};
ghost use Rattle.solver.specs.Working.Scan.{found, lead_of, unmarked, first_lowest};

// The better of the best line so far and line j: of the marked ones the first of lowest lead.
fn better(marks: &[u8], leads: &[usize], best: Option<usize>, j: usize) -> Option<usize>
    requires { (j < length marks.now) × (j < length leads.now) × IfSome best (λ b. b < j) }
    ensures { (found result ≡ better (lead_of leads.now) (unmarked marks.now) (found best) j (unmarked marks.now j))
        × IfSome result (λ r. r ≤ j) }
{
    if marks[j] == 0 {
        return best;
    }
    match best {
        Some(b) if leads[b] <= leads[j] => best,
        _ => Some(j),
    }
}

// For the crates above: the number of the first line of lowest lead among those whose mark is not zero, if there is one.
pub fn pivot(marks: &[u8], leads: &[usize], lines: usize) -> Option<usize>
    requires { (lines ≤ length marks.now) × (lines ≤ length leads.now) }
    ensures { (found result ≡ first_lowest marks.now leads.now lines) × IfSome result (λ r. r < lines) }
{
    let mut best = None;
    for j in 0..lines {
        best = better(marks, leads, best, j);
    }
    best
}

// For the crates above: the number of the first line of lowest lead.
pub fn least<const N: usize>(leads: &[usize; N], lines: usize) -> usize
    requires { lines ≤ N }
    ensures { (result ≤ lines)
        × (0 < lines → some result ≡ first_lowest (replicate N 1) leads.now lines)
        × ((es : List (Line ℕ)) → length es ≡ lines → LeadsOf leads.now es → get_elem? es result ≡ least es) }
{
    pivot(&[1; N], leads, lines).unwrap_or(lines)
}

// For the crates above: the number of the first line of lowest lead among those whose lead is not m, if there is one.
pub fn another(leads: &[usize; 5], lines: usize, m: usize) -> Option<usize>
    requires { lines ≤ 5 }
    ensures { IfSome result (λ r. r < lines)
        × ((es : List (Line ℕ)) → length es ≡ lines → LeadsOf leads.now es
        → MatchOption result (another m es ≡ none) (λ q. get_elem? es q ≡ another m es)) }
{
    pivot(&leads.map(|lead| u8::from(lead != m)), leads, lines)
}
