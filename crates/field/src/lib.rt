// Arithmetic modulo the prime 65521, for any words: a word above 65520 is taken modulo the prime.
#![tactic(auto)]

ghost use Rattle.std.specs.Prelude.{◌≡◌, ◌+◌, ◌*◌, ◌^◌, ◌/◌, ◌%◌, ◌≤◌, ◌<◌, length};
ghost use Rattle.lists.specs.Tabulate.{each};
ghost use Rattle.field.specs.Field.{prime, is_field_word, sum, difference, product, inverse as inverse_of};
ghost use Rattle.field.specs.Internal.Dot.{dot};

// The inverses of 1 to 30.
const SMALL_INVERSES: [u16; 30] = [
    1, 32761, 43681, 49141, 52417, 54601, 56161, 57331, 58241, 58969, 11913, 60061, 60481, 60841,
    61153, 61426, 42396, 61881, 6897, 62245, 62401, 38717, 11395, 62791, 49796, 63001, 41254,
    63181, 58743, 63337,
];

#[tactic(auto, unfolding(crate::specs::Field::sum))]
pub fn add(a: u16, b: u16) -> u16
    ensures { result ≡ sum a b }
{
    ((a as u32 + b as u32) % 65521) as u16
}

#[tactic(auto, unfolding(crate::specs::Field::difference))]
pub fn subtract(a: u16, b: u16) -> u16
    ensures { result ≡ difference a b }
{
    ((a as u32 + (65521 - b as u32 % 65521)) % 65521) as u16
}

#[tactic(auto, unfolding(crate::specs::Field::product))]
pub fn multiply(a: u16, b: u16) -> u16
    ensures { result ≡ product a b }
{
    ((a as u32 * b as u32) % 65521) as u16
}

// a · b as a plain number, with no reduction
pub fn whole_product(a: u16, b: u16) -> u64
    ensures { (result ≡ a * b) × (result ≤ 4294836225) }
{
    a as u64 * b as u64
}

// c + a · b, with one reduction. It works with 32 bits, which inner loops need: `add_products` takes 64.
#[tactic(auto, using(crate::proofs::Operations::once))]
pub fn add_product(c: u16, a: u16, b: u16) -> u16
    ensures { result ≡ sum c (product a b) }
{
    ((c as u32 + a as u32 * b as u32) % 65521) as u16
}

// c plus the products of two lists, place by place, by one index as below, with one reduction. Whole products of so few words add up in 64 bits;
// `inner_product` is for long lists, where 32-bit halves let the compiler use vectors.
#[tactic(auto, using(crate::proofs::Dot::adding))]
pub fn add_products<const N: usize>(c: u16, a: &[u16; N], b: &[u16; N]) -> u16
    requires { N ≤ 64 }
    ensures { result ≡ (c + dot a.now b.now) % prime }
{
    let mut total = c as u64;
    for i in 0..N {
        total += whole_product(a[i], b[i]);
    }
    (total % 65521) as u16
}

// low + 2^16 · high modulo p, since 2^16 is 15 modulo p. Two numbers, since `parity` has them in two arrays.
pub fn join_halves(low: u32, high: u32) -> u16
    requires { (low ≤ 268435455) × (high ≤ 268435455) }
    ensures { result ≡ (low + 65536 * high) % prime }
{
    ((low + 15 * high) % 65521) as u16
}

// A long sum of products of two words: the low 16 bits of the products added up, and the high 16 bits. Both fit 32 bits, and so the compiler makes several such
// sums at once. (`parity` has 64 of them in two arrays of its own, each in one piece.)
#[derive(Clone, Copy)]
pub struct Halves {
    pub low: u32,
    pub high: u32,
}

impl Halves {
    // The sum and one product more.
    pub fn with(self, a: u16, b: u16) -> Self
        requires { (self.low ≤ 268369920) × (self.high ≤ 268369920) }
        ensures { (result.low ≡ self.low + a * b % 65536) × (result.high ≡ self.high + a * b / 65536) × (result.high ≤ self.high + 65535) }
    {
        let product = a as u32 * b as u32;
        Halves {
            low: self.low + product % 65536,
            high: self.high + product / 65536,
        }
    }
}

// The sum of the products of two lists, place by place, with one reduction. One index serves both: with `zip` the compiler uses no vectors.
#[tactic(auto, using(crate::proofs::Dot::adding))]
pub fn inner_product(a: &[u16], b: &[u16]) -> u16
    requires { (length a.now ≡ length b.now) × (length a.now ≤ 64) }
    ensures { result ≡ dot a.now b.now % prime }
{
    let mut sum = Halves { low: 0, high: 0 };
    for (i, x) in a.iter().enumerate() {
        sum = sum.with(*x, b[i]);
    }
    join_halves(sum.low, sum.high)
}

// a to the power of the lowest binary digit of k
#[tactic(auto, using(crate::proofs::Operations::digit_powers))]
fn digit_power(a: u16, k: u16) -> u16
    ensures { result ≡ a ^ (k % 2) }
{
    if k % 2 == 1 {
        return a;
    }
    1
}

// The power p − 2, by squaring.
#[tactic(auto, using(crate::proofs::Squaring::turns))]
pub fn inverse(a: u16) -> u16
    ensures { result ≡ inverse_of a }
{
    let mut result: u16 = 1;
    let mut square: u16 = a;
    let mut k: u16 = 65519;
    for _turn in 0u16..16 {
        result = multiply(result, digit_power(square, k));
        square = multiply(square, square);
        k /= 2;
    }
    result
}

// The inverse of k, 1 to 30, from the table.
fn small_inverse(k: usize) -> u16
    requires { (1 ≤ k) × (k ≤ 30) }
    ensures { result ≡ inverse_of k }
{
    SMALL_INVERSES[k - 1]
}

// The inverse of a − b: from the table where a and b are at most 30 apart, and else worked out.
#[tactic(auto, using(crate::proofs::Table::differences))]
pub fn inverse_of_difference(a: u16, b: u16) -> u16
    ensures { result ≡ inverse_of (difference a b) }
{
    if b < a && a - b <= 30 {
        return small_inverse((a - b) as usize);
    }
    if a < b && b - a <= 30 {
        return subtract(0, small_inverse((b - a) as usize));
    }
    inverse(subtract(a, b))
}

// A field word is at most 65520.
pub fn is_field_word(word: u16) -> bool
    ensures { result ≡ is_field_word word }
{
    word < 65521
}

// Every word is a field word. All are tested, so that the compiler tests several at once.
#[tactic(auto, using(lists::proofs::Loops::tests))]
fn test_all(words: &[u16]) -> bool
    ensures { result ≡ each is_field_word words.now }
{
    let mut all = true;
    for word in words {
        all &= is_field_word(*word);
    }
    all
}

// Every word is a field word. Tested 16 at a time: the first 16 of which one is too large decide, and the rest is not looked at.
pub fn are_field_words(words: &[u16]) -> bool
    ensures { result ≡ each is_field_word words.now }
{
    let mut rest = words;
    while 16 <= rest.len() {
        let (block, after) = rest.split_at(16);
        if !test_all(block) {
            return false;
        }
        rest = after;
    }
    test_all(rest)
}
