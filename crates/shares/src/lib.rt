// A station's shape, the words of its members' shares, and its days.
#![tactic(auto)]

ghost use Rattle.std.specs.Prelude.{◌≡◌, ℕ, ◌+◌, ◌*◌, ◌≤◌, ◌<◌, length, take, drop, MatchResult};
ghost use Rattle.lists.specs.Tabulate.{tab};
ghost use Rattle.refusals.specs.Refusals.{number};
ghost use Rattle.members.specs.Members.{size};
ghost use Rattle.shares.specs.Layout.{is_day, width as width_of};
ghost use Rattle.shares.specs.Internal.FirstChecks.{Passed, Refused, SharesPassed, SharesRefused};

use refusals::Refusal;

// A day is 1 to 65520.
pub fn is_day(day: u16) -> bool
    ensures { result ≡ is_day day }
{
    lists::within(1, 65520, day as usize)
}

// t, d, how many members there are, and how many words a share has.
#[derive(Clone, Copy)]
pub struct Shape {
    pub t: usize,
    pub d: usize,
    pub n: usize,
    pub width: usize,
    pub ghost t_low: { 1 ≤ t },
    pub ghost t_high: { t ≤ 15 },
    pub ghost d_low: { 1 ≤ d },
    pub ghost d_high: { d ≤ 64 },
    pub ghost members: { n ≡ size t },
    pub ghost share: { width ≡ width_of t d },
    // these four follow; they stand here so that each check of a bound finds them
    pub ghost parts: { width ≡ d + 3 * n },
    pub ghost few: { n ≤ 31 },
    pub ghost narrow: { width ≤ 157 },
    pub ghost fit: { n * width ≤ 4867 },
}

impl Shape {
    // The shape for t and d.
    pub fn new(t: usize, d: usize) -> Self
        requires { (1 ≤ t) × (t ≤ 15) × (1 ≤ d) × (d ≤ 64) }
        ensures { (result.t ≡ t) × (result.d ≡ d) }
    {
        let n = members::size(t);
        Shape {
            t,
            d,
            n,
            width: d + 3 * n,
        }
    }

    // The shape for t and d, after the checks that every call with t, d and a day begins with, in their order: 1, 2 and 32.
    #[tactic(auto, using(crate::proofs::FirstChecks::by_check))]
    pub fn check(t: usize, d: usize, day: u16) -> Result<Self, Refusal>
        ensures { MatchResult result (λ s. (s.t ≡ t) × (s.d ≡ d) × Passed t d day) (λ refusal. Refused t d day (number refusal)) }
    {
        if !members::threshold(t) {
            return Err(Refusal::BadThreshold);
        }
        if !lists::within(1, 64, d) {
            return Err(Refusal::BadSecretLength);
        }
        if !is_day(day) {
            return Err(Refusal::BadDay);
        }
        Ok(Shape::new(t, d))
    }
}

// A key: α and β.
#[derive(Clone, Copy)]
pub struct Key {
    pub alpha: u16,
    pub beta: u16,
}

// The shares of all members, in member order, as they stand in a buffer.
#[derive(Clone, Copy)]
pub struct Shares<'a> {
    pub shape: Shape,
    pub words: &'a [u16],
    pub ghost long: { length words.now ≡ shape.n * shape.width },
}

// Members are plain indices, here and in the crates above: each loop over 0..n has the bound already, and would have to make a value of a type of indices from
// it.
impl<'a> Shares<'a> {
    ghost use Rattle.shares.specs.Layout.{share, share_word, share_words, tag_word_at, key_α, key_β};

    // The shares for t and d on a day, in these words, after the checks that opening and the writer begin with, in their order: 1, 2, 32, 11 and 12.
    #[tactic(auto, using(crate::proofs::SharesChecks::by_check))]
    pub fn check(
        t: usize,
        d: usize,
        day: u16,
        present: u32,
        words: &'a [u16],
    ) -> Result<Self, Refusal>
        ensures { MatchResult result (λ s. (s.shape.t ≡ t) × (s.shape.d ≡ d) × (s.words.now ≡ words.now) × SharesPassed t d day present words.now)
            (λ refusal. SharesRefused t d day present words.now (number refusal)) }
    {
        let shape = Shape::check(t, d, day)?;
        if words.len() != shape.n * shape.width {
            return Err(Refusal::BadInputLength);
        }
        if !members::is_set(shape.n, present) {
            return Err(Refusal::MemberBeyondN);
        }
        Ok(Shares { shape, words })
    }

    // Member i's share.
    pub fn share(&self, i: usize) -> &'a [u16]
        requires { i < self.now.shape.n }
        ensures words { result.now ≡ share self.now.shape.t self.now.shape.d self.now.words.now i }
        ensures long { length result.now ≡ self.now.shape.width }
    {
        let from = i * self.shape.width;
        &self.words[from..from + self.shape.width]
    }

    // Member i's share words.
    pub fn share_words(&self, i: usize) -> &'a [u16]
        requires { i < self.now.shape.n }
        ensures { result.now ≡ share_words self.now.shape.t self.now.shape.d self.now.words.now i }
    {
        let share = self.share(i);
        &share[..self.shape.d]
    }

    // Member i's share word k.
    pub fn share_word(&self, i: usize, k: usize) -> u16
        requires { (i < self.now.shape.n) × (k < self.now.shape.d) }
        ensures { result ≡ share_word self.now.shape.t self.now.shape.d self.now.words.now i k }
    {
        let share = self.share(i);
        share[k]
    }

    // tag(i,j)
    pub fn tag(&self, i: usize, j: usize) -> u16
        requires { (i < self.now.shape.n) × (j < self.now.shape.n) }
        ensures { result ≡ tag_word_at self.now.shape.t self.now.shape.d self.now.words.now i j }
    {
        let share = self.share(i);
        share[self.shape.d + j]
    }

    // key(i,j)
    pub fn key(&self, i: usize, j: usize) -> Key
        requires { (i < self.now.shape.n) × (j < self.now.shape.n) }
        ensures { (result.alpha ≡ key_α self.now.shape.t self.now.shape.d self.now.words.now i j) × (result.beta ≡ key_β self.now.shape.t self.now.shape.d self.now.words.now i j) }
    {
        let share = self.share(i);
        let at = self.shape.d + self.shape.n + 2 * j;
        Key {
            alpha: share[at],
            beta: share[at + 1],
        }
    }
}

// The keys of the first n members, by whatever gives one: α at each place of one array and β at each place of the other: lanes take the α in one piece.
// No struct of the two arrays: both callers hand them on to mac, which does not need this crate, and a struct would be taken apart in the next line.
pub fn gather_keys<F: Fn(usize) -> Key>(
    n: usize,
    key: F,
    alphas: &mut [u16; 32],
    betas: &mut [u16; 32],
)
    requires few { n ≤ 32 }
    requires callable { (k : ℕ) → k < n → F.pre key k }
    ensures keys { (α β : ℕ → ℕ) → ((k : ℕ) (r : _) → k < n → F.post key k r → (r.alpha ≡ α k) × (r.beta ≡ β k))
        → (take n alphas.new ≡ tab n α) × (take n betas.new ≡ tab n β) }
    ensures others_kept { (drop n alphas.new ≡ drop n alphas.old) × (drop n betas.new ≡ drop n betas.old) }
{
    for k in 0..n {
        let key = key(k);
        alphas[k] = key.alpha;
        betas[k] = key.beta;
    }
}

// So many members and words that it is quicker to make their share words by powers and their tags under all keys at once. Both ways answer the same. Each of
// the three places where ways part tests this itself: a choice made once would need closures of three types, through each function in between.
// It takes any t and d: a `Shape` has bounds, which it does not need.
pub fn is_large(t: usize, d: usize) -> bool {
    8 <= t && 8 <= d
}
