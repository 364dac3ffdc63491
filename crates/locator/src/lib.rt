// Welch and Berlekamp's two pairs of polynomials, by which a decoder finds where wrong values may be.
//
// Both pairs (N, E) are kept so that N(x) = y · E(x) at each member passed. A member at which a pair is off raises one pair by a factor X − x and frees
// the other.
#![tactic(auto)]

ghost use Rattle.std.specs.Prelude.{◌≡◌, cond, ◌+◌, ◌≤◌, ◌<◌, length, get_or};
ghost use Rattle.members.specs.Members.{size, has};
ghost use Rattle.locator.specs.Internal.Pairs.{raised, mixed, off_by, Advanced, start, first_turn, stepped, state_of, passed};

// A pair (N, E), coefficients by power, 0 first, and how often it was raised: that is the degree of the first pair's N, and of the second one's E.
#[derive(Drop)]
pub struct Pair {
    pub n: [u16; 32],
    pub e: [u16; 32],
    pub degree: usize,
}

// The two pairs, for a polynomial of degree at most t.
#[derive(Drop)]
pub struct Pairs {
    t: usize,
    pub first: Pair,
    pub second: Pair,
    ghost small: { t ≤ 15 },
}

// (X − x) · f, in place; its last coefficient would be 0.
fn raise(x: u16, f: &mut [u16; 32])
    ensures { f.new ≡ raised x 0 f.old }
{
    let minus = field::subtract(0, x);
    let mut carry: u16 = 0;
    for coefficient in f.iter_mut() {
        let old = *coefficient;
        *coefficient = field::add_product(carry, minus, old);
        carry = old;
    }
}

// u · f + v · g, in place of f. Inlined, it would make the stack frame of decoding larger.
#[inline(never)]
fn mix(u: u16, f: &mut [u16; 32], v: u16, g: &[u16; 32])
    ensures { f.new ≡ mixed u f.old v g.now }
{
    for (j, coefficient) in f.iter_mut().enumerate() {
        *coefficient = field::add_product(field::multiply(u, *coefficient), v, g[j]);
    }
}

impl Pair {
    // How far the pair is off at (x, y).
    #[tactic(auto, unfolding(crate::specs::Internal::Pairs::off_by))]
    fn off_by(&self, x: u16, y: u16) -> u16
        ensures { result ≡ off_by x y self.now.n self.now.e }
    {
        field::subtract(
            polynomial::evaluate(&self.n, x),
            field::multiply(y, polynomial::evaluate(&self.e, x)),
        )
    }

    // This pair, which is off by d, is raised at x, and the other, which is off by d_other, is freed.
    fn advance(&mut self, x: u16, d: u16, d_other: u16, other: &mut Pair)
        requires { self.old.degree ≤ 31 }
        ensures { Advanced x d d_other self.old other.old self.new other.new }
    {
        let minus = field::subtract(0, d_other);
        mix(d, &mut other.n, minus, &self.n);
        mix(d, &mut other.e, minus, &self.e);
        raise(x, &mut self.n);
        raise(x, &mut self.e);
        self.degree += 1;
    }
}

impl Pairs {
    // The first pair is the one to raise.
    #[tactic(auto, using(std::proofs::lemmas::Bool::Decides::nat_tests), unfolding(crate::specs::Internal::Pairs::first_turn))]
    fn first_turn(&self, d0: u16, d1: u16) -> bool
        requires { self.now.second.degree ≤ 32 }
        ensures { result ≡ first_turn self.now.t d0 d1 self.now.first.degree self.now.second.degree }
    {
        d0 != 0 && (d1 == 0 || self.first.degree <= self.second.degree + self.t)
    }

    // The step at (x, y). The degrees' sum grows by one at most with each step, so its bound is no part of the type.
    #[tactic(auto, using(std::proofs::lemmas::Bool::Decides::nat_tests), unfolding(crate::specs::Internal::Pairs::stepped, crate::specs::Internal::Pairs::step_by, crate::specs::Internal::Pairs::first_up, crate::specs::Internal::Pairs::second_up))]
    fn step(&mut self, x: u16, y: u16)
        requires { self.old.first.degree + self.old.second.degree ≤ 31 }
        ensures same_t { self.new.t ≡ self.old.t }
        ensures state { state_of self.new.first self.new.second ≡ stepped self.old.t x y (state_of self.old.first self.old.second) }
    {
        let d0 = self.first.off_by(x, y);
        let d1 = self.second.off_by(x, y);
        if self.first_turn(d0, d1) {
            self.first.advance(x, d0, d1, &mut self.second);
        } else if d1 != 0 {
            self.second.advance(x, d1, d0, &mut self.first);
        }
    }

    // All members' steps, from the pairs (1, 0) and (0, 1). Points, values and set are what decoding's `Word`, above this crate, holds: a struct here would be
    // built from it for this one call.
    fn pass(&mut self, points: &[u16], values: &[u16], set: u32)
        requires { (length points.now ≡ size self.old.t) × (length values.now ≡ size self.old.t) × (state_of self.old.first self.old.second ≡ start 31) }
        ensures { state_of self.new.first self.new.second ≡ passed points.now self.old.t (λ i. get_or values.now i 0) set 31 (size self.old.t) }
    {
        for (i, y) in values.iter().enumerate() {
            if members::has(set, i) {
                self.step(points[i], *y);
            }
        }
    }
}

// The two pairs after all members: the second one's E is 0 at each member with a wrong value, if a polynomial meets enough members.
#[tactic(auto, unfolding(crate::specs::Internal::Pairs::start))]
pub fn locate(t: usize, points: &[u16], values: &[u16], set: u32) -> Pairs
    requires { (t ≤ 15) × (length points.now ≡ size t) × (length values.now ≡ size t) }
    ensures { state_of result.first result.second ≡ passed points.now t (λ i. get_or values.now i 0) set 31 (size t) }
{
    let mut pairs = Pairs {
        t,
        first: Pair {
            n: [0; 32],
            e: [0; 32],
            degree: 0,
        },
        second: Pair {
            n: [0; 32],
            e: [0; 32],
            degree: 0,
        },
    };
    pairs.first.n[0] = 1;
    pairs.second.e[0] = 1;
    pairs.pass(points, values, set);
    pairs
}
