// The parity weights, and the quick look: words of all n members that lie on a polynomial of degree at most t are known by sums of products.
#![tactic(auto)]

ghost use Rattle.std.specs.Prelude.{◌≡◌, cond, suc, ◌*◌, ◌%◌, ◌≤◌, ◌<◌, eqb, ltb, length, get_or};
ghost use Rattle.lists.specs.Tabulate.{tab};
ghost use Rattle.field.specs.Field.{prime, product};
ghost use Rattle.members.specs.Members.{size};
ghost use Rattle.parity.specs.Parity.{factorial as factorial_of, weight as weight_of};
ghost use Rattle.parity.specs.Internal.Looking.{leading, words, zero_weight, looked, with_values};
ghost use Rattle.parity.specs.Internal.Summing.{Fits, Cleared, Added, Summed, sum_at};

use shares::{Shape, Shares};

// The weights of n = 3, 5, .., 31 members, one station after the other: one flat table, as document 02 names it.
const WEIGHTS: [u16; 255] = [
    32761, 65520, 32761, 62791, 10920, 49141, 10920, 62791, 65430, 546, 64156, 1820, 64156, 546,
    65430, 40949, 13, 32715, 91, 49027, 91, 32715, 13, 40949, 1183, 53691, 53235, 54603, 51867,
    29489, 51867, 54603, 53235, 53691, 1183, 44186, 59457, 33352, 41709, 53577, 58423, 8281, 58423,
    53577, 41709, 33352, 59457, 44186, 14643, 57082, 22093, 42670, 46460, 38122, 8338, 65352, 8338,
    38122, 46460, 42670, 22093, 57082, 14643, 64763, 12128, 40082, 31354, 61902, 34894, 23389,
    22748, 7169, 22748, 23389, 34894, 61902, 31354, 40082, 12128, 64763, 27405, 30878, 65142,
    45702, 57941, 21224, 41376, 13311, 22648, 3956, 22648, 13311, 41376, 21224, 57941, 45702,
    65142, 30878, 27405, 64731, 15800, 46463, 48827, 38189, 61254, 43428, 44186, 10099, 8375,
    23548, 8375, 10099, 44186, 43428, 61254, 38189, 48827, 46463, 15800, 64731, 28646, 24998,
    65126, 46314, 9332, 45030, 3457, 38899, 33536, 20634, 51801, 50706, 51801, 20634, 33536, 38899,
    3457, 45030, 9332, 46314, 65126, 24998, 28646, 32575, 4452, 14323, 47847, 60028, 21972, 61464,
    57233, 17612, 48771, 25125, 63326, 7838, 63326, 25125, 48771, 17612, 57233, 61464, 21972,
    60028, 47847, 14323, 4452, 32575, 58011, 64218, 49048, 742, 28494, 44981, 6369, 56684, 29178,
    7165, 20580, 29630, 61244, 4606, 61244, 29630, 20580, 7165, 29178, 56684, 6369, 44981, 28494,
    742, 49048, 64218, 58011, 17497, 34252, 61766, 10703, 47768, 59006, 14054, 2631, 17664, 48108,
    52741, 50695, 53764, 4390, 32737, 4390, 53764, 50695, 52741, 48108, 17664, 2631, 14054, 59006,
    47768, 10703, 61766, 34252, 17497, 13049, 1656, 41509, 27549, 59748, 56228, 49641, 7645, 2591,
    30067, 48245, 19498, 23729, 2425, 39176, 6261, 39176, 2425, 23729, 19498, 48245, 30067, 2591,
    7645, 49641, 56228, 59748, 27549, 41509, 1656, 13049,
];

// The weight of member i of n = 2t + 1, from the table. It takes t, and asks for its bounds, in place of a shape, which has them: the crate `weights`, which
// prints the table, has a t and no d.
pub fn weight(t: usize, i: usize) -> u16
    requires { (1 ≤ t) × (t ≤ 15) × (i < size t) }
    ensures { result ≡ weight_of (size t) i }
{
    WEIGHTS[t * t - 1 + i]
}

// The weights of a station's members.
#[tactic(auto, using(lists::proofs::Loops::writes))]
fn fill_weights(shape: Shape, row: &mut [u16])
    requires { length row.old ≡ shape.n }
    ensures { row.new ≡ tab shape.n (weight_of shape.n) }
{
    for (i, entry) in row.iter_mut().enumerate() {
        *entry = weight(shape.t, i);
    }
}

// Each entry of the row times its member's point.
#[tactic(auto, using(lists::proofs::Loops::rewrites))]
fn raise(row: &mut [u16])
    requires { length row.old ≤ 31 }
    ensures { row.new ≡ tab (length row.old) (λ i. product (get_or row.old i 0) (suc i)) }
{
    for (i, entry) in row.iter_mut().enumerate() {
        *entry = field::multiply(*entry, (i + 1) as u16);
    }
}

// A sum of products for each of 64 places. The products' low and high halves are summed apart, as in field's `Halves`, but in two arrays, so that the compiler
// works on several places at once.
#[derive(Drop)]
struct Halves {
    low: [u32; 64],
    high: [u32; 64],
    ghost fits: { Fits 31 low high },
}

impl Halves {
    // No sums yet.
    fn clear(&mut self)
        ensures { Cleared self.new.low self.new.high }
    {
        self.low.fill(0);
        self.high.fill(0);
    }

    // A weight times each of a member's share words, added to the sums.
    fn add_member(&mut self, weight: u16, words: &[u16])
        requires few_words { length words.now ≤ 64 }
        requires room { Fits 30 self.old.low self.old.high }
        ensures { Added weight words.now self.old.low self.old.high (length words.now) self.new.low self.new.high }
    {
        for (k, word) in words.iter().enumerate() {
            let product = weight as u32 * *word as u32;
            self.low[k] += product % 65536;
            self.high[k] += product / 65536;
        }
    }

    // For each place k, the sum of each entry of the row times its member's share word there.
    fn sum_row(&mut self, shares: &Shares, row: &[u16])
        requires { length row.now ≡ shares.now.shape.n }
        ensures { Summed shares.now.shape.d (words shares.now) row.now shares.now.shape.n self.new.low self.new.high }
    {
        self.clear();
        for (i, entry) in row.iter().enumerate() {
            self.add_member(*entry, shares.share_words(i));
        }
    }

    // The sum at place k, modulo p.
    #[tactic(auto, unfolding(crate::specs::Internal::Summing::sum_at))]
    fn at(&self, k: usize) -> u16
        requires k_bound { k < 64 }
        ensures { result ≡ sum_at self.now.low self.now.high k }
    {
        field::join_halves(self.low[k], self.high[k])
    }

    // How many of the first `most` places have the sum 0, before one that has not.
    fn passing(&self, most: usize) -> usize
        requires most_bound { most ≤ 64 }
        ensures { result ≡ leading most (λ k. eqb (sum_at self.now.low self.now.high k) 0) }
    {
        for k in 0..most {
            if self.at(k) != 0 {
                return k;
            }
        }
        most
    }

    // The sums of the first places, stored.
    #[tactic(auto, using(lists::proofs::Loops::writes))]
    fn store_values(&self, values: &mut [u16])
        requires values_len { length values.old ≤ 64 }
        ensures { values.new ≡ tab (length values.old) (sum_at self.now.low self.now.high) }
    {
        for (k, value) in values.iter_mut().enumerate() {
            *value = self.at(k);
        }
    }
}

// How many words have all t sums 0, before one that has not.
fn count_balanced(shares: &Shares, row: &mut [u16], sums: &mut Halves) -> usize
    requires { length row.old ≡ shares.now.shape.n }
    ensures { result ≡ looked shares.now.shape.t shares.now.shape.d (words shares.now) }
{
    fill_weights(shares.shape, row);
    let mut left = shares.shape.d;
    for m in 0..shares.shape.t {
        if left == 0 {
            return 0; // the first word fails
        }
        sums.sum_row(shares, row);
        left = sums.passing(left);
        raise(row);
    }
    left
}

// 1 · 2 · .. · n modulo p
fn factorial(n: usize) -> u16
    requires { n ≤ 31 }
    ensures { result ≡ factorial_of n % prime }
{
    let mut result = 1;
    for k in 0..n {
        result = field::multiply((k + 1) as u16, result);
    }
    result
}

// The weight of member i for the value at 0: that of the next member, scaled. The last member has none.
fn zero_weight(shape: Shape, scale: u16, i: usize) -> u16
    requires { i < shape.n }
    ensures { result ≡ cond (ltb (suc i) shape.n) (product scale (weight_of shape.n (suc i))) 0 }
{
    let next = i + 1;
    if shape.n <= next {
        return 0;
    }
    field::multiply(scale, weight(shape.t, next))
}

// The weights of a station's members for the value at 0.
#[tactic(auto, using(lists::proofs::Loops::writes, crate::proofs::Turns::zero_row))]
fn fill_zero_weights(shape: Shape, row: &mut [u16])
    requires { length row.old ≡ shape.n }
    ensures { row.new ≡ tab shape.n (zero_weight shape.n) }
{
    let scale = field::multiply(65520, factorial(shape.n - 1));
    for (i, entry) in row.iter_mut().enumerate() {
        *entry = zero_weight(shape, scale, i);
    }
}

// The look, with room for a row and for the sums, both lent. Rows are slices of n words, here and above: n is known at run time only. A struct of shares, row
// and sums would spare most of these functions a parameter or two, and be a type for one call.
fn look_by_rows(shares: &Shares, row: &mut [u16], sums: &mut Halves, secret: &mut [u16]) -> usize
    requires { (length row.old ≡ shares.now.shape.n) × (length secret.old ≡ shares.now.shape.d) }
    ensures value { result ≡ looked shares.now.shape.t shares.now.shape.d (words shares.now) }
    ensures secret_after { secret.new ≡ with_values shares.now.shape.t result (words shares.now) secret.old }
{
    let left = count_balanced(shares, row, sums);
    fill_zero_weights(shares.shape, row);
    sums.sum_row(shares, row);
    sums.store_values(&mut secret[..left]);
    left
}

// The quick look at the share words of all n members: how many words pass it before one that does not. Their values at 0 are stored in front.
pub fn look(shares: &Shares, secret: &mut [u16]) -> usize
    requires { length secret.old ≡ shares.now.shape.d }
    ensures value { result ≡ looked shares.now.shape.t shares.now.shape.d (words shares.now) }
    ensures secret_after { secret.new ≡ with_values shares.now.shape.t result (words shares.now) secret.old }
{
    let n = shares.shape.n;
    let mut row = [0; 31];
    let mut sums = Halves {
        low: [0; 64],
        high: [0; 64],
    };
    look_by_rows(shares, &mut row[..n], &mut sums, secret)
}
