// Lagrange's matrix: from the values of some members, by sums of products, the values at 0 and at all members of the polynomial through them. It is made once
// for the members that are chosen, and serves every word.
#![tactic(auto)]

ghost use Rattle.std.specs.Prelude.{◌≡◌, ℕ, suc, cond, ◌%◌, ◌≤◌, ◌<◌, ◌^◌, eqb, length, take};
ghost use Rattle.lists.specs.Tabulate.{tab};
ghost use Rattle.field.specs.Field.{prime, difference, product, inverse};
ghost use Rattle.members.specs.Members.{card};
ghost use Rattle.lagrange.specs.Internal.Lagrange.{over, Apart, inverted, weight as weight_of, weights as weights_of, Reads};
ghost use Rattle.lagrange.specs.Internal.Matrix.{Chosen, Rows, products};

// The points of some of n members, and the rows that read off the polynomial through any values at them: the row for x its value at x, which is 0 or any
// member's point. Both are lent: with points of its own a matrix would carry a count beside an array, since there may be fewer than 16; and with rows of its own
// it would be a value of 1 KB, handed back at each renewal.
#[derive(Drop)]
pub struct Matrix<'a> {
    pub n: usize,
    pub points: &'a mut [u16],
    pub rows: &'a mut [[u16; 16]; 32],
    pub ghost small: { n ≤ 31 },
    pub ghost few: { length points.now ≤ 16 },
    pub ghost chosen: { Chosen n points.now },
    pub ghost readable: { Rows n points.now rows.now },
}

// Points, and Lagrange's weights of them: as many, which is known at run time only.
#[derive(Clone, Copy)]
struct Nodes<'a> {
    points: &'a [u16],
    weights: &'a [u16],
    ghost few: { length points.now ≤ 16 },
    ghost apart: { Apart points.now },
    ghost own: { weights.now ≡ weights_of points.now },
}

// A function of each point, multiplied over all of them.
fn over<F: Fn(u16) -> u16>(points: &[u16], factor: F) -> u16
    requires { F.IsAlwaysCallable factor }
    ensures { (f : ℕ → ℕ)
        → ((x y : ℕ) → x < 2 ^ 16 → F.post factor x y → y ≡ f x) → result ≡ over f points.now % prime }
{
    let mut result = 1;
    for point in points {
        result = field::multiply(result, factor(*point));
    }
    result
}

// The inverses of x less each of the points, multiplied.
fn inverted(x: u16, points: &[u16]) -> u16
    ensures { result ≡ inverted x points.now }
{
    over(points, |point| field::inverse_of_difference(x, point))
}

// x less each of the points, multiplied.
fn differences(x: u16, points: &[u16]) -> u16
    ensures { result ≡ over (difference x) points.now % prime }
{
    over(points, |point| field::subtract(x, point))
}

// The weight of point m, from its differences to the points before it and after it.
#[tactic(auto, using(lists::proofs::Stores::part_all), unfolding(crate::specs::Internal::Lagrange::weight))]
fn weight(points: &[u16], m: usize) -> u16
    requires { m < length points.now }
    ensures { result ≡ weight_of points.now m }
{
    let x = points[m];
    field::multiply(inverted(x, &points[..m]), inverted(x, &points[m + 1..]))
}

// Lagrange's weights of the points.
#[tactic(auto, using(lists::proofs::Loops::writes), unfolding(crate::specs::Internal::Lagrange::weights))]
fn fill_weights(points: &[u16], weights: &mut [u16])
    requires { length weights.old ≡ length points.now }
    ensures { weights.new ≡ weights_of points.now }
{
    for (m, word) in weights.iter_mut().enumerate() {
        *word = weight(points, m);
    }
}

// One word of a row: 1 at x itself, and else the product of all differences, with that from this point divided out.
fn entry(all: u16, weight: u16, x: u16, point: u16) -> u16
    ensures { result ≡ cond (eqb x point) 1 (product (product all weight) (inverse (difference x point))) }
{
    if x == point {
        return 1;
    }
    field::multiply(
        field::multiply(all, weight),
        field::inverse_of_difference(x, point),
    )
}

// The points of the first members of a set, as many as there is room for. That the set is of n members and has so many is about one argument beside another,
// and is only handed on to here: a type of sets with so many members would be made for these calls alone. A mask is no slice to iterate: its lowest member is
// taken, and left out.
fn choose(n: usize, set: u32, points: &mut [u16])
    requires { (n ≤ 31) × (set < 2 ^ n) × (length points.old ≤ card n set) }
    ensures { Chosen n points.new }
{
    let mut rest = set;
    for point in points.iter_mut() {
        let i = members::lowest(rest).unwrap();
        *point = (i + 1) as u16;
        rest = members::without(rest, i);
    }
}

impl Nodes<'_> {
    // The row for x: its inner product with any values at the points is the value at x of the polynomial through them.
    #[tactic(auto, using(lists::proofs::Loops::writes, crate::proofs::Lagrange::row_words), unfolding(crate::proofs::Lagrange::entry_of))]
    fn fill_row(&self, x: u16, row: &mut [u16; 16])
        requires { x < prime }
        ensures { Reads self.now.points.now x (take (length self.now.points.now) row.new) }
    {
        let all = differences(x, self.points);
        for (m, point) in self.points.iter().enumerate() {
            row[m] = entry(all, self.weights[m], x, *point);
        }
    }

    // Lagrange's rows for 0 and for the points of n members.
    fn fill_rows(&self, n: usize, rows: &mut [[u16; 16]; 32])
        requires { n ≤ 31 }
        ensures { Rows n self.now.points.now rows.new }
    {
        for x in 0..n + 1 {
            self.fill_row(x as u16, &mut rows[x]);
        }
    }
}

// The matrix for the first members of a set, as many as there are points to be filled.
pub fn prepare<'a>(
    n: usize,
    set: u32,
    points: &'a mut [u16],
    rows: &'a mut [[u16; 16]; 32],
) -> Matrix<'a>
    requires { (n ≤ 31) × (set < 2 ^ n) × (length points.old ≤ card n set) × (length points.old ≤ 16) }
    ensures made { (result.n ≡ n) × (length result.points.now ≡ length points.old) }
    ensures same_references { (result.points.ghost_name ≡ points.entry.ghost_name) × (result.rows.ghost_name ≡ rows.entry.ghost_name) }
{
    let mut room = [0u16; 16];
    let weights = &mut room[..points.len()];
    choose(n, set, points);
    fill_weights(points, weights);
    let nodes = Nodes { points, weights };
    nodes.fill_rows(n, rows);
    Matrix { n, points, rows }
}

// The inner products of the words with each row. It stands beside the method of a `Matrix`, which goes through it, since it answers for any rows.
#[tactic(auto, using(lists::proofs::Loops::writes), unfolding(crate::specs::Internal::Matrix::products))]
pub fn expect(rows: &[[u16; 16]; 32], words: &[u16], expected: &mut [u16])
    requires { (length words.now ≤ 16) × (length expected.old ≤ 32) }
    ensures { expected.new ≡ tab (length expected.old) (products rows.now words.now) }
{
    let count = words.len();
    for (x, word) in expected.iter_mut().enumerate() {
        *word = field::inner_product(&rows[x][..count], words);
    }
}

impl Matrix<'_> {
    ghost use Rattle.polynomial.specs.Polynomial.{value, interpolate};

    // The matrix for the first members of another set, in the same room.
    pub fn renew(self, set: u32) -> Self
        requires { (set < 2 ^ self.n) × (length self.points.now ≤ card self.n set) }
        ensures made { (result.n ≡ self.entry.n) × (length result.points.now ≡ length self.entry.points.now) }
        ensures same_references { (result.points.ghost_name ≡ self.entry.points.ghost_name) × (result.rows.ghost_name ≡ self.entry.rows.ghost_name) }
    {
        let Matrix { n, points, rows } = self;
        prepare(n, set, points, rows)
    }

    // The inner products of the words with each row. If the words are values at the points, they are the values at 0 and at all members' points of the
    // polynomial through them.
    pub fn expect(&self, words: &[u16], expected: &mut [u16])
        requires { (length words.now ≤ 16) × (length expected.old ≤ 32) }
        ensures sums { expected.new ≡ tab (length expected.old) (products self.now.rows.now words.now) }
        ensures values { length words.now ≡ length self.now.points.now → length expected.old ≡ suc self.now.n
            → expected.new ≡ tab (suc self.now.n) (value (interpolate self.now.points.now words.now)) }
    {
        expect(self.rows, words, expected);
    }
}
