// Prunes tables of votes, and compares what is left with another way of finding the largest set.
#![tactic(auto)]

ghost use Rattle.std.specs.Prelude.{◌<◌, IfSome};

use refusals::number_of;
use std::io;

// Common members, counted bit by bit.
fn votes(row: u32, set: u32) -> u32 {
    let mut n: u32 = 0;
    for j in 0..32u32 {
        if row >> j & set >> j & 1 == 1 {
            n += 1;
        }
    }
    n
}

// Member i is in the set, and fewer than `need` members of it accept it.
fn weak(need: u32, row: u32, set: u32, i: usize) -> bool {
    i < 32 && set >> i & 1 == 1 && votes(row, set) < need
}

// The last member of the set that is weak, if there is one.
fn last_weak<const N: usize>(need: u32, rows: &[u32; N], set: u32) -> Option<usize>
    ensures { IfSome result (λ i. i < N) }
{
    (0..N).rev().find(|i| weak(need, rows[*i], set, *i))
}

// The sets of three members in which nobody is weak, joined.
fn joined(rows: &[u32; 3]) -> u32 {
    let mut all: u32 = 0;
    for set in 0..8u32 {
        if last_weak(2, rows, set).is_none() {
            all |= set;
        }
    }
    all
}

// Of 31 members, weak ones are struck one at a time, the last first.
fn struck(rows: &[u32; 31]) -> u32 {
    let mut set: u32 = 2147483647;
    for _ in 0..31u8 {
        let Some(i) = last_weak(16, rows, set) else {
            return set;
        };
        set ^= 1u32 << i;
    }
    set
}

// The next pseudo-random word (xorshift).
fn next(x: u32) -> u32 {
    let a = x ^ x << 13;
    let b = a ^ a >> 17;
    b ^ b << 5
}

// Rows in which a vote is given five times in eight; the next word.
fn fill(rows: &mut [u32; 31], word: u32) -> u32 {
    let mut x = word;
    for row in rows {
        let a = next(x);
        let b = next(a);
        let c = next(b);
        *row = (a | b & c) & 2147483647;
        x = c;
    }
    x
}

// Row i of a chain, from 0, the first row aside. Members 2 to 16 have just 16 votes each: of the member before, their own and of the 14 after. The last 15 have
// all.
fn link(i: usize) -> u32 {
    if i < 16 {
        return 65535u32 << i >> 1;
    }
    2147483647
}

// A chain of votes whose first member has the votes that are given.
fn chain(rows: &mut [u32; 31], first: u32) {
    for (i, row) in rows.iter_mut().enumerate() {
        *row = link(i);
    }
    rows[0] = first;
}

// How many tables agree, how many of them leave nobody and everybody, and the sum of what is left.
#[derive(Clone, Copy, Default)]
struct Tally {
    agree: u64,
    nobody: u64,
    everybody: u64,
    sum: u64,
}

// One more table, of as many members as `all` has; one whose two ways differ counts nowhere.
fn more(t: Tally, all: u32, left: Option<u32>) -> Tally {
    let Some(set) = left else {
        return t;
    };
    Tally {
        agree: t.agree.wrapping_add(1),
        nobody: t.nobody.wrapping_add(u64::from(set == 0)),
        everybody: t.everybody.wrapping_add(u64::from(set == all)),
        sum: t.sum.wrapping_add(u64::from(set)),
    }
}

fn report(rt: &impl Print, t: Tally) -> io::Result<()> {
    println!(rt; "tables that agree: {}", t.agree)?;
    println!(rt; "that leave nobody: {}", t.nobody)?;
    println!(rt; "that leave everybody: {}", t.everybody)?;
    println!(rt; "sum of what is left: {}", t.sum)
}

// What pruning leaves, if it does not refuse and another way leaves the same.
fn both(t: usize, rows: &[u32], other: u32) -> Option<u32> {
    pruning::prune(t, rows).ok().filter(|set| *set == other)
}

// What is left of the chain whose first member has these votes.
fn chained(first: u32) -> Option<u32> {
    let mut rows = [0u32; 31];
    chain(&mut rows, first);
    both(15, &rows, struck(&rows))
}

// All tables of three members.
fn small() -> Tally {
    let mut t = Tally::default();
    for k in 0..512u32 {
        let rows = [k % 8, k / 8 % 8, k / 64 % 8];
        t = more(t, 7, both(1, &rows, joined(&rows)));
    }
    t
}

// 300 tables of 31 members.
fn large() -> Tally {
    let mut t = Tally::default();
    let mut rows = [0u32; 31];
    let mut word: u32 = 1;
    for _ in 0..300u16 {
        word = fill(&mut rows, word);
        t = more(t, 2147483647, both(15, &rows, struck(&rows)));
    }
    t
}

// What is left of a table, or that there is no answer.
fn show(rt: &impl Print, name: &str, left: Option<u32>) -> io::Result<()> {
    match left {
        Some(set) => println!(rt; "{name}: {set}"),
        None => println!(rt; "{name}: refused, or the two ways differ"),
    }
}

fn main(rt: HostRuntime) -> io::Result<()> {
    show(&rt, "C6", pruning::prune(1, &[3, 6, 4]).ok())?;
    show(&rt, "C7", pruning::prune(1, &[7, 7, 7]).ok())?;
    show(&rt, "C8", pruning::prune(1, &[3, 3, 4]).ok())?;
    println!(rt; "no threshold: {}", number_of(pruning::prune(0, &[8])))?;
    println!(rt; "threshold 16: {}", number_of(pruning::prune(16, &[8])))?;
    println!(rt; "one row: {}", number_of(pruning::prune(1, &[8])))?;
    println!(rt;
        "a bit beyond member 3: {}",
        number_of(pruning::prune(1, &[3, 3, 8]))
    )?;
    show(&rt, "a chain of 31", chained(65535))?;
    show(&rt, "one vote short at its first member", chained(32767))?;
    report(&rt, small())?;
    report(&rt, large())
}
