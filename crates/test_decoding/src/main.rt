// Decodes words with no error, with as many as can be borne, and with one more, at several t and sets, and prints the results.
// The expected output was worked out by another program, which solves the key equation by elimination.
#![tactic(auto)]

use refusals::number_of;
use samples::{Spaced, fill, next};
use std::io;

// Member i's value: that of the polynomial, or 65535 outside the set.
fn value(f: &[u16], set: u32, i: usize) -> u16 {
    if members::has(set, i) {
        return polynomial::evaluate(f, (i % 31 + 1) as u16);
    }
    65535
}

fn values_of(f: &[u16], set: u32, values: &mut [u16]) {
    for (i, word) in values.iter_mut().enumerate() {
        *word = value(f, set, i);
    }
}

// What a wrong value is: that of one other polynomial, or a little more than the right one.
#[derive(Clone, Copy)]
enum Wrong {
    OnAnother,
    ByLittle,
}

// Makes the value of member i of the set wrong; how many errors are left.
fn spoil_one(
    g: &[u16],
    set: u32,
    values: &mut [u16],
    i: usize,
    wrong: Wrong,
    left: usize,
) -> usize {
    if left == 0 || values.len() <= i || !members::has(set, i) {
        return left;
    }
    let x = (i % 31 + 1) as u16;
    values[i] = match wrong {
        Wrong::OnAnother => polynomial::evaluate(g, x),
        Wrong::ByLittle => field::add(values[i], x),
    };
    left - 1
}

// Makes the values of so many members of the set wrong: every second member, from `from` on, round.
fn spoil(g: &[u16], set: u32, values: &mut [u16], errors: usize, from: usize, wrong: Wrong) {
    let n = values.len();
    let mut left = errors;
    for k in 0..n {
        left = spoil_one(g, set, values, (2 * (k % 31) + from % 31) % n, wrong, left);
    }
}

// A word to decode: how many of the set's members have a wrong value, what it is made from, and what its wrong values are.
#[derive(Clone, Copy)]
struct Case {
    t: usize,
    set: u32,
    errors: usize,
    seed: u16,
    wrong: Wrong,
}

fn case_of(t: usize, set: u32, errors: usize, seed: u16, wrong: Wrong) -> Case {
    Case {
        t,
        set,
        errors,
        seed,
        wrong,
    }
}

// One word: t, the set, the errors, the number, the buffer.
fn run(
    rt: &impl Print,
    case: Case,
    f: &mut [u16],
    g: &mut [u16],
    values: &mut [u16],
    out: &mut [u16],
) -> io::Result<()> {
    let t = case.t;
    let set = case.set;
    let seed = case.seed;
    fill(f, seed, next);
    fill(g, next(seed), next);
    values_of(f, set, values);
    spoil(g, set, values, case.errors, seed as usize, case.wrong);
    let number = number_of(decoding::decode(t, values, set, out));
    let words = Spaced(out, "\t");
    println!(rt; "{t}\t{set}\t{}\t{number}\t{words}", case.errors)
}

// The same, with buffers that fit.
fn word(rt: &impl Print, case: Case) -> io::Result<()> {
    let t = case.t;
    if 15 < t {
        return Ok(());
    }
    let n = members::size(t);
    let mut f = [0u16; 16];
    let mut g = [0u16; 16];
    let mut values = [0u16; 31];
    let mut out = [0u16; 16];
    run(
        rt,
        case,
        &mut f[..t + 1],
        &mut g[..t + 1],
        &mut values[..n],
        &mut out[..t + 1],
    )
}

// Words of one set: with no error, with half the surplus, and with one more.
fn words(rt: &impl Print, t: usize, set: u32, seed: u16) -> io::Result<()> {
    let s = members::card(set) as usize;
    if s <= t || 15 < t || 32 < s {
        return Ok(());
    }
    let half = (s - t - 1) / 2;
    let too_many = half + 1;
    word(rt, case_of(t, set, 0, seed, Wrong::ByLittle))?;
    word(rt, case_of(t, set, half, next(seed), Wrong::ByLittle))?;
    word(rt, case_of(t, set, half, next(seed), Wrong::OnAnother))?;
    word(rt, case_of(t, set, too_many, seed, Wrong::ByLittle))?;
    word(rt, case_of(t, set, too_many, seed, Wrong::OnAnother))
}

// All n members, and some of them.
fn sets(rt: &impl Print, t: usize, seed: u16) -> io::Result<()> {
    if 15 < t {
        return Ok(());
    }
    let all = members::first(members::size(t));
    words(rt, t, all, seed)?;
    words(rt, t, all & 4294967291, next(seed))?;
    words(rt, t, all & 3722304989, next(seed))?;
    words(rt, t, all & 2863311530, next(seed))
}

fn main(rt: HostRuntime) -> io::Result<()> {
    sets(&rt, 1, 1)?;
    sets(&rt, 2, 20)?;
    sets(&rt, 3, 300)?;
    sets(&rt, 4, 4000)?;
    sets(&rt, 7, 50000)?;
    sets(&rt, 8, 6)?;
    sets(&rt, 11, 77)?;
    sets(&rt, 14, 888)?;
    sets(&rt, 15, 9999)?;
    sets(&rt, 15, 10000)
}
