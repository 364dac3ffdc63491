// Runs the field, polynomials and tags on document 01's examples and on words from a fixed sequence, and prints the results.
// The expected output was worked out by another program, in arbitrary-precision integers.
#![tactic(auto)]

use samples::{Spaced, fill, next};
use std::io;

// Every field call on two words.
fn pair(rt: &impl Print, a: u16, b: u16) -> io::Result<()> {
    println!(rt;
        "{a}\t{b}\t{}\t{}\t{}\t{}\t{}\t{}\t",
        field::add(a, b),
        field::subtract(a, b),
        field::multiply(a, b),
        field::add_product(b, a, a),
        field::inverse(a),
        field::inverse_of_difference(a, b)
    )
}

// Pairs of words of the sequence.
fn far_pairs(rt: &impl Print) -> io::Result<()> {
    let mut a: u16 = 1;
    for _ in 0..100u8 {
        let b = next(a);
        pair(rt, a, b)?;
        a = next(b);
    }
    Ok(())
}

// Pairs of words at most 31 apart, either way.
fn near_pairs(rt: &impl Print) -> io::Result<()> {
    for near in (969..=1031u16).rev() {
        pair(rt, 1000, near)?;
    }
    Ok(())
}

// 1, 3, 5, ..
fn odd(words: &mut [u16]) {
    for (i, word) in words.iter_mut().enumerate() {
        *word = ((i % 1000) * 2 + 1) as u16;
    }
}

// Words of the sequence as values at odd points: their tag, the coefficients, and the values of these at three points.
fn interpolated(rt: &impl Print, points: &mut [u16], values: &mut [u16]) -> io::Result<()> {
    odd(points);
    fill(values, 7, next);
    println!(rt; "{}", Spaced(values, "\t"))?;
    print!(rt; "{}\t", mac::tag(12345, 65521, values))?;
    polynomial::interpolate(points, values);
    println!(rt; "{}", Spaced(values, "\t"))?;
    println!(rt;
        "{}\t{}\t{}\t",
        polynomial::evaluate(values, 0),
        polynomial::evaluate(values, 31),
        polynomial::evaluate(values, 65535)
    )
}

fn main(rt: HostRuntime) -> io::Result<()> {
    println!(rt;
        "{}\t{}\t{}\t{}\t",
        field::multiply(65520, 65520),
        field::inverse(2),
        mac::tag(4, 5, &[2, 3]),
        mac::tag(1, 1, &[65520])
    )?;
    far_pairs(&rt)?;
    near_pairs(&rt)?;
    interpolated(&rt, &mut [0; 16], &mut [0; 16])?;
    interpolated(&rt, &mut [0; 31], &mut [0; 31])?;
    interpolated(&rt, &mut [0; 5], &mut [0; 6])
}
