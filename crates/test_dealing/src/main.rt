// Runs dealing: document 01's C5, the largest dealing, and each refusal. A line is the answer's number, 0 for dealt, and then words of the
// share buffer at exit. The file stdout beside this folder is what another implementation answers, model.py.
#![tactic(auto)]

use refusals::number_of;
use samples::Spaced;
use std::io;

// Deals, and prints the number and the whole buffer.
fn show(
    rt: &impl Print,
    t: usize,
    day: u16,
    secret: &[u16],
    random: &[u16],
    shares: &mut [u16],
) -> io::Result<()> {
    let number = number_of(dealing::deal(t, day, secret, random, shares));
    let words = Spaced(shares, " ");
    println!(rt; "{number} {words}")
}

// Words of a linear congruential generator.
fn scramble(words: &mut [u16], seed: u16) {
    samples::fill(words, seed, |x| field::add_product(12345, 25173, x));
}

// Every 101st word.
fn print_samples(rt: &impl Print, words: &[u16]) -> io::Result<()> {
    for word in words.iter().step_by(101) {
        print!(rt; "{word} ")?;
    }
    println!(rt)
}

// Deals words of the generator, and prints the number, some words, and a checksum: the sum of word i times 31 to the power i.
fn show_scrambled(
    rt: &impl Print,
    t: usize,
    day: u16,
    secret: &mut [u16],
    random: &mut [u16],
    shares: &mut [u16],
) -> io::Result<()> {
    scramble(secret, 1);
    scramble(random, 2);
    let number = number_of(dealing::deal(t, day, secret, random, shares));
    print!(rt; "{number} ")?;
    print_samples(rt, shares)?;
    println!(rt; "{} ", polynomial::evaluate(shares, 31))
}

fn show_largest(rt: &impl Print) -> io::Result<()> {
    let mut secret = [0u16; 64];
    let mut random = [0u16; 2882];
    let mut shares = [0u16; 4867];
    show_scrambled(rt, 15, 65520, &mut secret, &mut random, &mut shares)
}

fn show_c5(rt: &impl Print) -> io::Result<()> {
    let secret = [250u16];
    let random = [3u16, 1, 1, 1, 2, 1, 3, 2, 1, 2, 2, 2, 3, 3, 1, 3, 2, 3, 3];
    let mut shares = [9u16; 30];
    show(rt, 1, 1, &secret, &random, &mut shares)
}

// Each refusal, of an input with one fault. The buffer stays.
fn show_refusals(rt: &impl Print) -> io::Result<()> {
    let secret = [250u16];
    let high = [65521u16];
    let random = [0u16; 19];
    let mut last_high = [0u16; 19];
    last_high[18] = 65521;
    let mut shares = [9u16; 30];
    let mut short = [9u16; 29];
    show(rt, 0, 1, &secret, &random, &mut shares)?;
    show(rt, 16, 1, &secret, &random, &mut shares)?;
    show(rt, 1, 1, &secret[..0], &random, &mut shares)?;
    show(rt, 1, 0, &secret, &random, &mut shares)?;
    show(rt, 1, 65521, &secret, &random, &mut shares)?;
    show(rt, 1, 65535, &secret, &random, &mut shares)?;
    show(rt, 1, 1, &secret, &random[..18], &mut shares)?;
    show(rt, 1, 1, &secret, &random, &mut short)?;
    show(rt, 1, 1, &high, &random, &mut shares)?;
    show(rt, 1, 1, &secret, &last_high, &mut shares)
}

fn main(rt: HostRuntime) -> io::Result<()> {
    show_c5(&rt)?;
    show_largest(&rt)?;
    show_refusals(&rt)
}
