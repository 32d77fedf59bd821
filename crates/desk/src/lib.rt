// The desk: a mark is put together on it, column by column, and each row is held to its length.
#![tactic(auto)]

mod above;
mod checks;

ghost use Rattle.std.specs.Prelude.{◌≡◌, ◌≤◌, length, take};
ghost use Rattle.codes.specs.Factors.{description_of};
ghost use Rattle.desk.specs.Desk.{Made, Opens, Puts, placed, zero_desk};
ghost use Rattle.desk.specs.Verdict.{Judges};
ghost use Rattle.desk.specs.Working.{Placeable, Renewing, Renewed};

use field::Field;
use mark::Handed;

// A code, a factor for each of its columns, and an array, row after row. Laid out as the array, `above` has of each row, its symbols
// divided by their columns' factors, the coefficients of the interpolating polynomial from the row's length on, and zeros before
// them; `misfits` rows have a nonzero one. Places that the code does not use are zero.
#[derive(Clone, Copy)]
pub struct Desk {
    pub degree: u32,
    pub columns: usize,
    pub rows: usize,
    pub points: [u8; 16],
    pub factors: [u8; 16],
    pub lengths: [u8; 4],
    pub array: [u8; 64],
    pub above: [u8; 64],
    pub misfits: usize,
}

// What the verdict hands back.
#[derive(Clone, Copy)]
pub struct Judged {
    pub verdict: usize,
    pub desk: Desk,
}

impl Desk {
    // The desk of a code and its factors with an array of zeros.
    #[tactic(auto, unfolding(crate::specs::Desk::zeros))]
    fn zero(degree: u32, points: &[u8], factors: &[u8], lengths: &[u8]) -> Self
        requires points_len_bound { length points.now ≤ 16 }
        requires factors_len_bound { length factors.now ≤ 16 }
        requires lengths_len_bound { length lengths.now ≤ 4 }
        ensures { result ≡ zero_desk (description_of degree points.now factors.now lengths.now) }
    {
        let mut xs = [0u8; 16];
        rows::store(points, &mut xs, 0);
        let mut fs = [0u8; 16];
        rows::store(factors, &mut fs, 0);
        let mut ks = [0u8; 4];
        rows::store(lengths, &mut ks, 0);
        let array = [0u8; 64];
        let above = [0u8; 64];
        Desk {
            degree,
            columns: points.len(),
            rows: lengths.len(),
            points: xs,
            factors: fs,
            lengths: ks,
            array,
            above,
            misfits: 0,
        }
    }

    // Opens a desk; refusals 1, 2, 3, 4, 18, 5, 6, 23. A refused opening hands over the zero desk of GF(4) with points 0 1, factors 1 1
    // and k 1.
    pub fn open(degree: u32, points: &[u8], factors: &[u8], lengths: &[u8]) -> Handed<Self>
        ensures opens { Opens (description_of degree points.now factors.now lengths.now) result }
        ensures made { Made result.next }
    {
        if let Err(refused) = checks::open_refusal(degree, points, factors, lengths) {
            return Handed {
                outcome: Err(refused),
                next: Desk::zero(2, &[0, 1], &[1, 1], &[1]),
            };
        }
        Handed {
            outcome: Ok(()),
            next: Desk::zero(degree, points, factors, lengths),
        }
    }

    // The desk with the coefficients and the number of misfits that it has once the symbols, one a row, are in the column.
    fn renew(mut self, column: usize, symbols: [u8; 4]) -> Self
        requires { Renewing self column (take self.rows symbols) }
        ensures { Renewed self column (take self.rows symbols) result }
    {
        let n = self.columns;
        let r = self.rows;
        let points = self.points;
        let factors = self.factors;
        let lengths = self.lengths;
        let array = self.array;
        let mut above = self.above;
        let field = Field::new(self.degree);
        let basis = above::basis(&field, &points[..n], column);
        above::raise(
            &field,
            &lengths[..r],
            &basis[..n],
            column,
            factors[column],
            &array,
            &symbols[..r],
            &mut above,
        );
        self.misfits = above::nonzero_rows(&above, r, n);
        self.above = above;
        self
    }

    // The desk with the symbols, one a row, in a column.
    fn place(mut self, column: usize, symbols: [u8; 4]) -> Self
        requires { Placeable self column }
        ensures { result ≡ placed self column (take self.rows symbols) }
    {
        let n = self.columns;
        for (l, symbol) in symbols[..self.rows].iter().enumerate() {
            self.array[l * n + column] = *symbol;
        }
        self
    }

    // Puts the symbols, one a row, into a column, changes nothing else of the array, and keeps the coefficients and the number of
    // misfits true; refusals 14, 5, 7. A refused put hands the desk back as it was.
    pub fn put(mut self, column: usize, symbols: &[u8]) -> Handed<Self>
        requires { Made self }
        ensures puts { Puts self column symbols.now result }
        ensures made { Made result.next }
    {
        if let Err(refused) = checks::put_refusal(self, column, symbols) {
            return Handed {
                outcome: Err(refused),
                next: self,
            };
        }
        let mut four = [0u8; 4];
        rows::store(symbols, &mut four, 0);
        self = self.renew(column, four);
        self = self.place(column, four);
        Handed {
            outcome: Ok(()),
            next: self,
        }
    }

    // The number of rows that, each symbol divided by its column's factor, are not values of a polynomial with at most as many
    // coefficients as the row's length: the desk knows it. The desk is handed back as it was.
    pub fn verdict(self) -> Judged
        requires { Made self }
        ensures judges { Judges self result }
        ensures made { Made result.desk }
    {
        let verdict = self.misfits;
        Judged {
            verdict,
            desk: self,
        }
    }
}
