// Dealing: secret and random words to the members' shares for a day.
#![tactic(auto)]

ghost use Rattle.std.specs.Prelude.{◌≡◌, ℕ, ◌*◌, suc, ◌<◌, ◌∷◌, length, MatchResult};
ghost use Rattle.polynomial.specs.Polynomial.{value};
ghost use Rattle.members.specs.Members.{own_points};
ghost use Rattle.refusals.specs.Refusals.{number};
ghost use Rattle.dealing.specs.Dealing.{dealt_α, dealt_β, dealt_share, dealt_shares, deal as deal_of};
ghost use Rattle.dealing.specs.Internal.Steps.{Supplied, KeyAt, Accepted, words_at, tag_of, tags_of, keys_of};
ghost use Rattle.dealing.specs.Answer.{answer_of};

use refusals::Refusal;
use shares::{Key, Shape};

// What the shares are made of: the secret for a day, and the random words. Its functions fill slices of n, 2n, d or a share's words, parts of the
// share that is lent: t and d are known at run time only, and a struct round a lent buffer would have to say in each contract whose words it writes.
#[derive(Clone, Copy)]
struct Supply<'a> {
    shape: Shape,
    day: u16,
    secret: &'a [u16],
    random: &'a [u16],
    ghost supplied: { Supplied shape secret.now random.now },
}

impl Supply<'_> {
    // The share words for the point x, each by a way of finding a polynomial's value there. Word k's coefficients are the k-th t random words.
    #[tactic(auto, using(lists::proofs::Loops::writes), unfolding(crate::specs::Internal::Steps::words_at, crate::specs::Dealing::polynomial))]
    fn fill_words_by<F: Fn(u16, &[u16], u16) -> u16>(&self, value_at: F, x: u16, words: &mut [u16])
        requires words_len { length words.old ≡ self.now.shape.d }
        requires callable { (constant : ℕ) (others : _) → length others.now ≡ self.now.shape.t → F.pre value_at constant others x }
        requires values { (constant : ℕ) (others : _) (r : ℕ) → F.post value_at constant others x r → r ≡ value (constant ∷ others.now) x }
        ensures { words.new ≡ words_at self.now.shape.t self.now.secret.now self.now.random.now x }
    {
        let t = self.shape.t;
        for (k, word) in words.iter_mut().enumerate() {
            let from = t * k;
            *word = value_at(self.secret[k], &self.random[from..from + t], x);
        }
    }

    // The share words for the point x, by whichever way is quicker.
    fn fill_words(&self, x: u16, words: &mut [u16])
        requires { length words.old ≡ self.now.shape.d }
        ensures { words.new ≡ words_at self.now.shape.t self.now.secret.now self.now.random.now x }
    {
        // few: not worth the powers
        if !shares::is_large(self.shape.t, self.shape.d) {
            self.fill_words_by(polynomial::evaluate_with, x, words);
            return;
        }
        let mut powers = [0u16; 16];
        let powers = &mut powers[..self.shape.t + 1];
        polynomial::fill_powers(x, powers);
        self.fill_words_by(
            |constant, others, _| polynomial::evaluate_by_powers(constant, others, powers),
            x,
            words,
        );
    }

    // Where key(i,j) stands among the random words: α there, β next.
    #[tactic(auto, using(crate::proofs::Places::key_at))]
    fn key_place(&self, i: usize, j: usize) -> usize
        requires { (i < self.now.shape.n) × (j < self.now.shape.n) }
        ensures { KeyAt self.now.shape i j result }
    {
        self.shape.t * self.shape.d + 2 * (i * self.shape.n + j)
    }

    // key(i,j)
    #[tactic(auto, using(crate::proofs::Filling::keys))]
    fn key(&self, i: usize, j: usize) -> Key
        requires { (i < self.now.shape.n) × (j < self.now.shape.n) }
        ensures alpha { result.alpha ≡ dealt_α self.now.shape.t self.now.shape.d self.now.random.now i j }
        ensures beta { result.beta ≡ dealt_β self.now.shape.t self.now.shape.d self.now.random.now i j }
    {
        let at = self.key_place(i, j);
        Key {
            alpha: self.random[at],
            beta: self.random[at + 1],
        }
    }

    // tag(i,j) of the day and member i's share words.
    #[tactic(auto, unfolding(crate::specs::Internal::Steps::tag_of))]
    fn tag(&self, i: usize, j: usize, words: &[u16]) -> u16
        requires { (i < self.now.shape.n) × (j < self.now.shape.n) }
        ensures { result ≡ tag_of self.now.shape.t self.now.shape.d self.now.day self.now.random.now i words.now j }
    {
        let key = self.key(j, i);
        mac::tag_with_first(key.alpha, key.beta, self.day, words)
    }

    // Member i's tags of the day and its share words, one after the other.
    #[tactic(auto, using(lists::proofs::Loops::writes), unfolding(crate::specs::Internal::Steps::tags_of))]
    fn fill_tags_singly(&self, i: usize, words: &[u16], tags: &mut [u16])
        requires { (i < self.now.shape.n) × (length tags.old ≡ self.now.shape.n) }
        ensures { tags.new ≡ tags_of self.now.shape.t self.now.shape.d self.now.day self.now.random.now i words.now }
    {
        for (j, tag) in tags.iter_mut().enumerate() {
            *tag = self.tag(i, j, words);
        }
    }

    // Member i's tags of the day and its share words, all at once.
    fn fill_tags_at_once(&self, i: usize, words: &[u16], tags: &mut [u16])
        requires { (i < self.now.shape.n) × (length tags.old ≡ self.now.shape.n) }
        ensures { tags.new ≡ tags_of self.now.shape.t self.now.shape.d self.now.day self.now.random.now i words.now }
    {
        let mut alphas = [0u16; 32];
        let mut betas = [0u16; 32];
        let mut made = [0u16; 32];
        shares::gather_keys(self.shape.n, |k| self.key(k, i), &mut alphas, &mut betas);
        mac::tags_with_first(&alphas, &betas, self.day, words, &mut made);
        lists::copy(&made[..self.shape.n], tags);
    }

    // Member i's tags of the day and its share words, by whichever way is quicker.
    fn fill_tags(&self, i: usize, words: &[u16], tags: &mut [u16])
        requires { (i < self.now.shape.n) × (length tags.old ≡ self.now.shape.n) }
        ensures { tags.new ≡ tags_of self.now.shape.t self.now.shape.d self.now.day self.now.random.now i words.now }
    {
        // many: worth gathering the keys
        if shares::is_large(self.shape.t, self.shape.d) {
            self.fill_tags_at_once(i, words, tags);
        } else {
            self.fill_tags_singly(i, words, tags);
        }
    }

    // Member i's keys, which stand one after the other among the random words too.
    #[tactic(auto, using(crate::proofs::Filling::member_keys))]
    fn fill_keys(&self, i: usize, keys: &mut [u16])
        requires { (i < self.now.shape.n) × (length keys.old ≡ 2 * self.now.shape.n) }
        ensures { keys.new ≡ keys_of self.now.shape.t self.now.shape.d self.now.random.now i }
    {
        let from = self.key_place(i, 0);
        lists::copy(&self.random[from..from + 2 * self.shape.n], keys);
    }

    // Member i's share. The member's point is points[i].
    fn fill_share(&self, points: &[u16], i: usize, share: &mut [u16])
        requires points_len { (length points.now ≡ self.now.shape.n) × (i < self.now.shape.n) }
        requires share_len { length share.old ≡ self.now.shape.width }
        ensures { share.new ≡ dealt_share points.now self.now.shape.t self.now.day self.now.secret.now self.now.random.now i }
    {
        let (words, rest) = share.split_at_mut(self.shape.d);
        let (tags, keys) = rest.split_at_mut(self.shape.n);
        self.fill_words(points[i], words);
        self.fill_tags(i, words, tags);
        self.fill_keys(i, keys);
    }

    // All shares, in member order.
    fn fill_shares(&self, points: &[u16], shares: &mut [u16])
        requires points_len { length points.now ≡ self.now.shape.n }
        requires shares_len { length shares.old ≡ self.now.shape.n * self.now.shape.width }
        ensures { shares.new ≡ dealt_shares points.now self.now.shape.t self.now.day self.now.secret.now self.now.random.now }
    {
        let width = self.shape.width;
        for i in 0..self.shape.n {
            let at = i * width;
            self.fill_share(points, i, &mut shares[at..at + width]);
        }
    }

    // All shares at the members' own points.
    fn fill(&self, shares: &mut [u16])
        requires { length shares.old ≡ self.now.shape.n * self.now.shape.width }
        ensures { shares.new ≡ dealt_shares (own_points self.now.shape.t) self.now.shape.t self.now.day self.now.secret.now self.now.random.now }
    {
        let mut points = [0u16; 31];
        let own = &mut points[..self.shape.n];
        members::own_points(own);
        self.fill_shares(own, shares);
    }
}

// The checks, in their order: the shape of what is to be dealt, or the first refusal.
#[tactic(auto, using(crate::proofs::Refusals::by_check))]
fn check(
    t: usize,
    day: u16,
    secret: &[u16],
    random: &[u16],
    shares: &[u16],
) -> Result<Shape, Refusal>
    ensures { MatchResult result (Accepted t day secret.now random.now shares.now) (λ refusal. deal_of t day secret.now random.now shares.now ≡ record { number = number refusal; shares = shares.now }) }
{
    let s = Shape::check(t, secret.len(), day)?;
    if random.len() != s.t * s.d + 2 * (s.n * s.n) {
        return Err(Refusal::BadRandomLength);
    }
    if shares.len() != s.n * s.width {
        return Err(Refusal::BadSharesLength);
    }
    if !field::are_field_words(secret) {
        return Err(Refusal::BadSecretWord);
    }
    if !field::are_field_words(random) {
        return Err(Refusal::BadRandomWord);
    }
    Ok(s)
}

// The shares of the secret for the day, from the random words, in member order.
pub fn deal(
    t: usize,
    day: u16,
    secret: &[u16],
    random: &[u16],
    shares: &mut [u16],
) -> Result<(), Refusal>
    ensures { answer_of result shares.new ≡ deal_of t day secret.now random.now shares.old }
{
    let shape = check(t, day, secret, random, shares)?;
    let supply = Supply {
        shape,
        day,
        secret,
        random,
    };
    supply.fill(shares);
    Ok(())
}
