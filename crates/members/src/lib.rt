// Sets of members as masks of 32 bits: member i, counted from 0, has bit i.
#![tactic(auto, using(crate::proofs::Words::words))]

ghost use Rattle.std.specs.Prelude.{◌≡◌, ℕ, Bool, suc, ◌<◌, ◌≤◌, ◌^◌, length};
ghost use Rattle.lists.specs.Tabulate.{tab};
ghost use Rattle.members.specs.Members.{is_threshold, size, has, set_of, is_set, card, adding, striking, first_of, common};
ghost use Rattle.members.specs.Internal.Lowest.{Lowest};

// A station's threshold is 1 to 15.
pub fn threshold(t: usize) -> bool
    ensures { result ≡ is_threshold t }
{
    lists::within(1, 15, t)
}

// How many members a station has.
#[tactic(auto, unfolding(crate::specs::Members::size))]
pub fn size(t: usize) -> usize
    requires { t ≤ 15 }
    ensures { result ≡ size t }
{
    2 * t + 1
}

// The members' own points: 1 to n, for n members, in the caller's array: n is known at run time only.
#[tactic(auto, using(lists::proofs::Loops::writes))]
pub fn own_points(points: &mut [u16])
    requires { length points.old ≤ 31 }
    ensures { points.new ≡ tab (length points.old) (λ i. suc i) }
{
    for (i, point) in points.iter_mut().enumerate() {
        *point = (i + 1) as u16;
    }
}

// The set of one member.
fn only(i: usize) -> u32
    requires { i < 32 }
    ensures { result ≡ 2 ^ i }
{
    1u32 << i
}

// Member i is in the set.
pub fn has(set: u32, i: usize) -> bool
    ensures { result ≡ has set i }
{
    if 32 <= i {
        return false;
    }
    set >> i & 1 == 1
}

// The set with member i.
pub fn with(set: u32, i: usize) -> u32
    ensures { result ≡ adding set i }
{
    if 32 <= i {
        return set; // a mask has no room for it
    }
    set | only(i)
}

// The set without member i.
pub fn without(set: u32, i: usize) -> u32
    ensures { result ≡ striking set i }
{
    if 32 <= i {
        return set; // it is not in
    }
    set & !only(i)
}

// The first member of the set, if it has any.
pub fn lowest(set: u32) -> Option<usize>
    ensures { Lowest set result }
{
    if set == 0 {
        return None;
    }
    Some(set.trailing_zeros() as usize)
}

// The first n members, or the 32 that a mask can hold.
pub fn first(n: usize) -> u32
    ensures { result ≡ first_of n }
{
    if 32 <= n {
        return u32::MAX;
    }
    only(n) - 1
}

// The mask is a set of the first n members.
pub fn is_set(n: usize, set: u32) -> bool
    ensures { result ≡ is_set n set }
{
    set <= first(n)
}

// The members below n that pass a test.
pub fn those<F: Fn(usize) -> bool>(n: usize, test: F) -> u32
    requires few { n ≤ 32 }
    requires callable { (i : ℕ) → i < n → F.pre test i }
    ensures { (p : ℕ → Bool) → ((i : ℕ) (b : Bool) → i < n → F.post test i b → b ≡ p i) → result ≡ set_of n p }
{
    let mut set = 0;
    for i in 0..n {
        if test(i) {
            set = with(set, i);
        }
    }
    set
}

// How many members the set has.
pub fn card(set: u32) -> u32
    ensures { result ≡ card 32 set }
{
    set.count_ones()
}

// How many members two sets have in common.
pub fn common(a: u32, b: u32) -> u32
    ensures { result ≡ common a b }
{
    (a & b).count_ones()
}
