// One list of words, as a polynomial's coefficients, at 32 points at once: a lane for each point, eight coefficients at a time.
#![tactic(auto)]

ghost use Rattle.std.specs.Prelude.{◌≡◌, [], ◌+◌, ◌*◌, ◌<◌, ◌≤◌, get_or};
ghost use Rattle.lists.specs.Tabulate.{tab};
ghost use Rattle.field.specs.Field.{sum, product};
ghost use Rattle.polynomial.specs.Polynomial.{value};
ghost use Rattle.lanes.specs.Internal.Lanes.{nth_power, eight_before};

use field::Halves;

// One lane: the value of eight words and those after them, from that of those after them. The rows have the lane's point, its square, and so on.
fn lane(eight: &[u16; 8], rows: &[[u16; 32]; 8], j: usize, after: u16) -> u16
    requires { j < 32 }
    ensures { result ≡ eight_before eight.now (λ m. get_or (get_or rows.now m []) j 0) after }
{
    let mut sum = Halves {
        low: eight[0] as u32,
        high: 0,
    };
    for m in 0..7 {
        sum = sum.with(rows[m][j], eight[m + 1]);
    }
    let all = sum.with(rows[7][j], after);
    field::join_halves(all.low, all.high)
}

// Eight words put in front, in every lane.
#[tactic(auto, using(lists::proofs::Loops::rewrites))]
fn block(eight: &[u16; 8], rows: &[[u16; 32]; 8], values: &mut [u16; 32])
    ensures { values.new ≡ tab 32 (λ j. eight_before eight.now (λ m. get_or (get_or rows.now m []) j 0) (get_or values.old j 0)) }
{
    for (j, value) in values.iter_mut().enumerate() {
        *value = lane(eight, rows, j, *value);
    }
}

// One word put in front, in every lane.
#[tactic(auto, using(lists::proofs::Loops::rewrites))]
fn one(word: u16, points: &[u16; 32], values: &mut [u16; 32])
    ensures { values.new ≡ tab 32 (λ j. sum word (product (get_or points.now j 0) (get_or values.old j 0))) }
{
    for (j, value) in values.iter_mut().enumerate() {
        *value = field::add_product(word, points[j], *value);
    }
}

// The next powers, in place of the row's.
#[tactic(auto, using(lists::proofs::Loops::rewrites))]
fn next_powers(row: &mut [u16; 32], points: &[u16; 32])
    ensures { row.new ≡ tab 32 (λ j. product (get_or row.old j 0) (get_or points.now j 0)) }
{
    for (j, power) in row.iter_mut().enumerate() {
        *power = field::multiply(*power, points[j]);
    }
}

// The points' powers 1 to 8, a row for each.
fn powers(points: &[u16; 32], rows: &mut [[u16; 32]; 8])
    ensures { rows.new ≡ tab 8 (λ m. tab 32 (λ j. nth_power (get_or points.now j 0) m)) }
{
    let mut power = *points;
    rows[0] = power;
    for m in 0..7 {
        next_powers(&mut power, points);
        rows[m + 1] = power;
    }
}

// The value at each of 32 points of the polynomial with these coefficients. The lanes are an array of their own: written straight into `values`, they made
// dealing take 1.4 times as long, since the compiler used no vectors.
pub fn evaluate_at(words: &[u16], points: &[u16; 32], values: &mut [u16; 32])
    ensures { values.new ≡ tab 32 (λ j. value words.now (get_or points.now j 0)) }
{
    let (eights, odd) = words.as_chunks::<8>();
    let mut lanes = [0; 32];
    for word in odd.iter().rev() {
        one(*word, points, &mut lanes);
    }
    let mut rows = [[0u16; 32]; 8];
    powers(points, &mut rows);
    for eight in eights.iter().rev() {
        block(eight, &rows, &mut lanes);
    }
    *values = lanes;
}
