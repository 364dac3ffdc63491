// Polynomials over the field, as words for the coefficients, power 0 first: evaluation and interpolation.
#![tactic(auto)]

ghost use Rattle.std.specs.Prelude.{◌≡◌, ◌∷◌, suc, ◌+◌, ◌*◌, ◌≤◌, ◌<◌, length, get_or};
ghost use Rattle.field.specs.Internal.Dot.{dot};
ghost use Rattle.polynomial.specs.Polynomial.{value, interpolated};
ghost use Rattle.polynomial.specs.Internal.Newton.{slopes_from, divided, linear_from, expanded};
ghost use Rattle.polynomial.specs.Internal.Powers.{Powers, sixteen, ByPowers};

// The polynomial's value at x, by Horner's rule.
fn horner(coefficients: &[u16], x: u16) -> u16
    ensures { result ≡ value coefficients.now x }
{
    let from_last = coefficients.iter().rev();
    from_last.fold(0, |so_far, coefficient| {
        field::add_product(*coefficient, x, so_far)
    })
}

// The polynomial's value at x, four coefficients at a time.
fn by_four(coefficients: &[u16], x: u16) -> u16
    ensures { result ≡ value coefficients.now x }
{
    let square = field::multiply(x, x);
    let cube = field::multiply(square, x);
    let fourth = field::multiply(square, square);
    let powers = [x, square, cube, fourth];
    let (blocks, rest) = coefficients.as_chunks::<4>();
    let from_last = blocks.iter().rev();
    from_last.fold(horner(rest, x), |so_far, block| {
        field::add_products(block[0], &[block[1], block[2], block[3], so_far], &powers)
    })
}

// 1, x itself, and the further powers of x modulo p, as many as there is room for.
#[tactic(auto, using(crate::proofs::Powers::powers_made))]
pub fn fill_powers(x: u16, powers: &mut [u16])
    requires { 2 ≤ length powers.old }
    ensures { Powers x powers.new }
{
    let square = field::multiply(x, x);
    powers[0] = 1;
    powers[1] = x;
    for m in 2..powers.len() {
        powers[m] = field::multiply(powers[m - 2], square);
    }
}

// Eight coefficients times the powers 0 to 7, and `top` times the power 8, with no reduction. It was tried with the block as `&[u16; 8]`, taken by
// `as_chunks`: the proof did not close, since nothing says that `sixteen` is the same over chunks as over `take` and `drop`.
#[tactic(auto, using(field::proofs::Dot::adding))]
fn add_eight(block: &[u16], powers: &[u16; 9], top: u64) -> u64
    requires { (length block.now ≡ 8) × (top ≤ 38653526025) }
    ensures { (result ≡ dot block.now powers.now + top * get_or powers.now 8 0) × (result ≤ 65535 * top + 34358689800) }
{
    let mut sum = top * powers[8] as u64;
    for (word, power) in block.iter().zip(powers) {
        sum += field::whole_product(*word, *power);
    }
    sum
}

// Sixteen coefficients before others whose value is `rest`, with one reduction.
fn by_sixteen(block: &[u16; 16], powers: &[u16; 9], rest: u16) -> u16
    ensures { result ≡ sixteen powers.now block.now rest }
{
    let upper = add_eight(&block[8..], powers, rest as u64);
    (add_eight(&block[..8], powers, upper) % 65521) as u16
}

// The polynomial's value at x, sixteen coefficients at a time; what is left over goes by four.
fn evaluate_by(coefficients: &[u16], x: u16, powers: &[u16; 9]) -> u16
    requires { Powers x powers.now }
    ensures { result ≡ value coefficients.now x }
{
    let (blocks, rest) = coefficients.as_chunks::<16>();
    let from_last = blocks.iter().rev();
    from_last.fold(by_four(rest, x), |so_far, block| {
        by_sixteen(block, powers, so_far)
    })
}

// The same, with the powers of x made in a buffer.
fn evaluate_long(coefficients: &[u16], x: u16, powers: &mut [u16; 9]) -> u16
    ensures { result ≡ value coefficients.now x }
{
    fill_powers(x, powers);
    evaluate_by(coefficients, x, powers)
}

// The polynomial's value at x. Short polynomials go by four, since they do not pay for more powers of x.
pub fn evaluate(coefficients: &[u16], x: u16) -> u16
    ensures { result ≡ value coefficients.now x }
{
    if coefficients.len() < 32 {
        return by_four(coefficients, x);
    }
    let mut powers = [0u16; 9];
    evaluate_long(coefficients, x, &mut powers)
}

// The value at x of the polynomial with this constant coefficient and the others.
#[tactic(auto, using(crate::proofs::Evaluation::value_with))]
pub fn evaluate_with(constant: u16, others: &[u16], x: u16) -> u16
    ensures { result ≡ value (constant ∷ others.now) x }
{
    field::add_product(constant, x, evaluate(others, x))
}

// The value of a constant coefficient and others, by one sum of products with the powers of the point.
pub fn evaluate_by_powers(constant: u16, others: &[u16], powers: &[u16]) -> u16
    requires { (length powers.now ≡ suc (length others.now)) × (length others.now ≤ 64) }
    ensures { ByPowers powers.now constant others.now result }
{
    field::add(constant, field::inner_product(others, &powers[1..]))
}

// The slopes from point i to the points after it, in place of their values. Points and values are two slices here and below: a struct of them would have to say
// in each contract that its values are the ones that were lent.
#[tactic(auto, using(crate::proofs::InPlace::slopes_first))]
fn slopes(points: &[u16], values: &mut [u16], i: usize)
    requires { (length values.old ≡ length points.now) × (i < length points.now) }
    ensures { values.new ≡ slopes_from points.now values.old i }
{
    let x = points[i];
    let y = values[i];
    for j in i + 1..values.len() {
        let rise = field::subtract(values[j], y);
        values[j] = field::multiply(rise, field::inverse_of_difference(points[j], x));
    }
}

// Newton's divided differences, in place of the values.
fn divide(points: &[u16], values: &mut [u16])
    requires { length values.old ≡ length points.now }
    ensures { values.new ≡ divided points.now values.old }
{
    for i in 0..points.len() {
        slopes(points, values, i);
    }
}

// c + (X − x) · f, in place of c and f, which stand from place i on.
#[tactic(auto, using(crate::proofs::InPlace::linear_first))]
fn linear(x: u16, words: &mut [u16], i: usize)
    requires { i < length words.old }
    ensures { words.new ≡ linear_from x words.old i }
{
    let minus = field::subtract(0, x);
    let last = words.len() - 1;
    for j in i..last {
        words[j] = field::add_product(words[j], minus, words[j + 1]);
    }
    words[last] = field::add(words[last], 0); // reduced, as the others are
}

// The coefficients, in place of the divided differences.
#[tactic(auto, using(crate::proofs::Newton::expanding))]
fn expand(points: &[u16], words: &mut [u16])
    requires { length words.old ≡ length points.now }
    ensures { words.new ≡ expanded points.now words.old }
{
    for i in (0..points.len()).rev() {
        linear(points[i], words, i);
    }
}

// The coefficients of the polynomial with these values at the points, in place of the values. They stay if there are not as many as points.
#[tactic(auto, using(crate::proofs::Newton::interpolating))]
pub fn interpolate(points: &[u16], values: &mut [u16])
    ensures { values.new ≡ interpolated points.now values.old }
{
    if points.len() != values.len() {
        return;
    }
    divide(points, values);
    expand(points, values);
}
