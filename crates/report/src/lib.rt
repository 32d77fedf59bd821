// The month's figures: how the marks of one code were read, entered one by one, and two suppliers ranked by them.
#![tactic(auto)]

mod checks;
mod counts;

ghost use Rattle.std.specs.Prelude.{◌≡◌, []};
ghost use Rattle.report.specs.Report.{Made, Opens, Enters, figures, mark_of};
ghost use Rattle.report.specs.Ranking.{Ranks};
ghost use Rattle.report.specs.Working.{Adding, added};

use mark::Handed;
use refusal::Refusal;
use std::cmp::Ordering;

// Of a code with so many columns: how many marks were entered, and how many with each ending, by its code; their wrong columns in
// total, for each column number, and the most in one mark. The places of columns that the code does not have are zero.
#[derive(Clone, Copy)]
pub struct Report {
    pub columns: usize,
    pub marks: usize,
    pub endings: [usize; 5],
    pub wrong: usize,
    pub each: [usize; 96],
    pub most: usize,
}

// Which of two suppliers comes first.
#[derive(Clone, Copy)]
pub enum Ranking {
    Equal,
    First,
    Second,
}

impl Report {
    // The report on no marks.
    fn empty(columns: usize) -> Self
        ensures { result ≡ figures columns [] }
    {
        Report {
            columns,
            marks: 0,
            endings: [0; 5],
            wrong: 0,
            each: [0; 96],
            most: 0,
        }
    }

    // Opens a report for marks of so many columns; refusal 3. A refused opening hands over an empty report for one column.
    pub fn open(columns: usize) -> Handed<Self>
        ensures opens { Opens columns result }
        ensures made { Made result.next }
    {
        if refusal::outside(1, 96, columns) {
            return Handed {
                outcome: Err(Refusal::Columns),
                next: Report::empty(1),
            };
        }
        Handed {
            outcome: Ok(()),
            next: Report::empty(columns),
        }
    }

    // The report with one mark more.
    fn add(mut self, ending: usize, detail: usize, flags: &[u8]) -> Self
        requires { Adding self (mark_of ending detail flags.now) }
        ensures { result ≡ added self (mark_of ending detail flags.now) }
    {
        self.marks += 1;
        self.endings[ending] += 1;
        if ending != 1 {
            return self;
        }
        let each = self.each;
        self.wrong += detail;
        self.each = counts::with_flags(each, flags);
        self.most = self.most.max(detail);
        self
    }

    // Enters a mark with its ending's code and detail and its flags; the code is a number, since check 26 refuses one that no ending has.
    // Refusals 24, 5, 26. A refused entry hands the report back as it
    // was.
    pub fn enter(self, ending: usize, detail: usize, flags: &[u8]) -> Handed<Self>
        requires { Made self }
        ensures enters { Enters self (mark_of ending detail flags.now) result }
        ensures made { Made result.next }
    {
        let outcome = checks::enter_refusal(self, ending, detail, flags);
        let next = match outcome {
            Ok(()) => self.add(ending, detail, flags),
            Err(_) => self,
        };
        Handed { outcome, next }
    }

    // Ranks two suppliers by their wrong columns per corrected mark, as exact fractions: fewer come first, one with no corrected mark
    // comes last, and two such rank equal.
    pub fn rank(self, other: Report) -> Ranking
        requires made { Made self }
        requires made_2 { Made other }
        ensures { Ranks self other result }
    {
        let own = self.endings[1];
        let others = other.endings[1];
        if own == 0 {
            if others == 0 {
                return Ranking::Equal;
            }
            return Ranking::Second;
        }
        if others == 0 {
            return Ranking::First;
        }
        let first = self.wrong * others;
        let second = other.wrong * own;
        match first.cmp(&second) {
            Ordering::Less => Ranking::First,
            Ordering::Equal => Ranking::Equal,
            Ordering::Greater => Ranking::Second,
        }
    }
}
