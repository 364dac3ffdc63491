// Votes from shares for a day (document 01, 'Votes and pruning'; document 02, W-204 and W-205): who is usable, everybody's vote on everybody,
// and how many there are of each kind.
#![tactic(auto)]

ghost use Rattle.std.specs.Prelude.{◌≡◌, ℕ, true, cond, ◌&&◌, [], ◌∷◌, ◌+◌, ◌<◌, ◌≤◌, length, take};
ghost use Rattle.lists.specs.Tabulate.{tab};
ghost use Rattle.members.specs.Members.{size, has, set_of, adding};
ghost use Rattle.shares.specs.Layout.{key_α, key_β};
ghost use Rattle.voting.specs.Votes.{field_share, usable, tag_holds, accepted, vote as vote_by, is_of, accepts, vote_rows, no_pairs, kinds, pairs as pairs_by};
ghost use Rattle.voting.specs.Answer.{vote_of, pairs_of};
ghost use Rattle.voting.specs.Internal.Counting.{together, Tests, Counts};
ghost use Rattle.voting.specs.Internal.Ballots.{holds, Row, Expected};

use shares::Shares;

// How the test of one tag comes out.
#[derive(Clone, Copy)]
pub enum Vote {
    Accepted,
    Mismatched,
    Unread,
}

// How many votes there are of each kind.
#[derive(Clone, Copy, Default)]
pub struct Pairs {
    pub accepted: u16,
    pub mismatched: u16,
    pub unread: u16,
}

// No votes of any kind, as the definition's `no_pairs`.
pub fn no_pairs() -> Pairs
    ensures { pairs_of result ≡ no_pairs }
{
    Pairs::default()
}

impl Pairs {
    // One vote more.
    fn with(self, vote: Vote) -> Self
        requires { (self.accepted < 65535) × (self.mismatched < 65535) × (self.unread < 65535) }
        ensures { pairs_of result ≡ together (pairs_of self) (kinds (vote_of vote ∷ [])) }
    {
        match vote {
            Vote::Accepted => Pairs {
                accepted: self.accepted + 1,
                ..self
            },
            Vote::Mismatched => Pairs {
                mismatched: self.mismatched + 1,
                ..self
            },
            Vote::Unread => Pairs {
                unread: self.unread + 1,
                ..self
            },
        }
    }

    // Two counts together.
    fn and(self, other: Self) -> Self
        requires { (self.accepted + other.accepted ≤ 65535) × (self.mismatched + other.mismatched ≤ 65535) × (self.unread + other.unread ≤ 65535) }
        ensures { pairs_of result ≡ together (pairs_of self) (pairs_of other) }
    {
        Pairs {
            accepted: self.accepted + other.accepted,
            mismatched: self.mismatched + other.mismatched,
            unread: self.unread + other.unread,
        }
    }
}

// The votes on one member: those who accept it, and how many votes there are of each kind.
#[derive(Clone, Copy)]
pub struct Counted {
    pub row: u32,
    pub pairs: Pairs,
}

impl Counted {
    // Member j's vote more.
    #[tactic(auto, unfolding(crate::specs::Answer::vote_of, crate::specs::Votes::is_of))]
    fn with(self, vote: Vote, j: usize) -> Self
        requires { (self.pairs.accepted < 65535) × (self.pairs.mismatched < 65535) × (self.pairs.unread < 65535) }
        ensures row_value { result.row ≡ cond (is_of accepted (vote_of vote)) (adding self.row j) self.row }
        ensures pairs_value { pairs_of result.pairs ≡ together (pairs_of self.pairs) (kinds (vote_of vote ∷ [])) }
    {
        let pairs = self.pairs.with(vote);
        match vote {
            Vote::Accepted => Counted {
                row: members::with(self.row, j),
                pairs,
            },
            Vote::Mismatched | Vote::Unread => Counted {
                row: self.row,
                pairs,
            },
        }
    }
}

// Member i is present, and every word of its share is a field word.
fn is_usable(shares: &Shares, present: u32, i: usize) -> bool
    requires { i < shares.now.shape.n }
    ensures { result ≡ (has present i && field_share shares.now.shape.t shares.now.shape.d shares.now.words.now i) }
{
    members::has(present, i) && field::are_field_words(shares.share(i))
}

// The usable members.
pub fn usable_members(shares: &Shares, present: u32) -> u32
    ensures { result ≡ usable shares.now.shape.t shares.now.shape.d present shares.now.words.now }
{
    members::those(shares.shape.n, |i| is_usable(shares, present, i))
}

// The shares of a day and the usable members, who vote.
#[derive(Clone, Copy)]
struct Ballot<'a> {
    shares: Shares<'a>,
    day: u16,
    able: u32,
}

impl Ballot<'_> {
    // What tag(i,j) has to be, at place j: the tag of the day and i's share words under key(j,i).
    fn expect(&self, i: usize, tags: &mut [u16; 32])
        requires { i < self.now.shares.shape.n }
        ensures { Expected self.now i tags.new }
    {
        let mut alphas = [0u16; 32];
        let mut betas = [0u16; 32];
        shares::gather_keys(
            self.shares.shape.n,
            |k| self.shares.key(k, i),
            &mut alphas,
            &mut betas,
        );
        mac::tags_with_first(&alphas, &betas, self.day, self.shares.share_words(i), tags);
    }

    // The same if member i is usable: else nobody looks.
    fn expect_usable(&self, i: usize, tags: &mut [u16; 32])
        requires { i < self.now.shares.shape.n }
        ensures { has self.now.able i ≡ true → Expected self.now i tags.new }
    {
        if !members::has(self.able, i) {
            return;
        }
        self.expect(i, tags);
    }

    // tag(i,j) is that of the day and i's share words under key(j,i).
    #[tactic(auto, unfolding(crate::specs::Votes::tag_holds))]
    fn tag_holds(&self, i: usize, j: usize) -> bool
        requires { (i < self.now.shares.shape.n) × (j < self.now.shares.shape.n) }
        ensures { result ≡ holds self.now i j }
    {
        let key = self.shares.key(j, i);
        let words = self.shares.share_words(i);
        let expected = mac::tag_with_first(key.alpha, key.beta, self.day, words);
        self.shares.tag(i, j) == expected
    }

    // The vote of member j on member i, where `holds` tells whether i's tag for a member is the right one. It is asked only if both are usable.
    fn test_tag<F: Fn(usize) -> bool>(&self, i: usize, j: usize, holds: &F) -> Vote
        requires { F.pre holds.now j }
        ensures { Tests self.now.able i j (F.post holds.now j) result }
    {
        if !members::has(self.able, i) {
            return Vote::Unread; // the member is not usable
        }
        if !members::has(self.able, j) {
            return Vote::Unread; // the voter is not usable
        }
        if !holds(j) {
            return Vote::Mismatched;
        }
        Vote::Accepted
    }

    // Everybody's votes on member i, where `holds` tells whether i's tag for a member is the right one.
    fn row_by<F: Fn(usize) -> bool>(&self, i: usize, holds: F) -> Counted
        requires { (j : ℕ) → j < self.now.shares.shape.n → F.pre holds j }
        ensures { Counts self.now.able i (F.post holds) self.now.shares.shape.n result }
    {
        let mut at = Counted {
            row: 0,
            pairs: no_pairs(),
        };
        for j in 0..self.shares.shape.n {
            at = at.with(self.test_tag(i, j, &holds), j);
        }
        at
    }

    // Everybody's votes on member i, one tag after the other.
    fn row_singly(&self, i: usize) -> Counted
        requires { i < self.now.shares.shape.n }
        ensures { Row self.now i result }
    {
        let ballot = *self; // a copy of its own, which the compiler keeps in registers: openings took 1.05 times as long without it
        ballot.row_by(i, |j| ballot.tag_holds(i, j))
    }

    // Everybody's votes on member i, all tags at once.
    fn row_at_once(&self, i: usize) -> Counted
        requires { i < self.now.shares.shape.n }
        ensures { Row self.now i result }
    {
        let mut tags = [0u16; 32];
        self.expect_usable(i, &mut tags);
        self.row_by(i, |j| self.shares.tag(i, j) == tags[j])
    }

    // Everybody's votes on member i, by whichever way is quicker.
    fn row(&self, i: usize) -> Counted
        requires { i < self.now.shares.shape.n }
        ensures { Row self.now i result }
    {
        if shares::is_large(self.shares.shape.t, self.shares.shape.d) {
            return self.row_at_once(i);
        }
        self.row_singly(i)
    }
}

// The vote rows of all members, and how many pairs fell to each kind of vote.
pub fn fill_rows(shares: &Shares, day: u16, able: u32, rows: &mut [u32]) -> Pairs
    requires { length rows.old ≡ shares.now.shape.n }
    ensures rows_after { rows.new ≡ vote_rows shares.now.shape.t shares.now.shape.d day able shares.now.words.now }
    ensures result_value { pairs_of result ≡ pairs_by shares.now.shape.t shares.now.shape.d day able shares.now.words.now }
{
    let ballot = Ballot {
        shares: *shares,
        day,
        able,
    };
    let mut pairs = no_pairs();
    for (i, entry) in rows.iter_mut().enumerate() {
        let at = ballot.row(i);
        *entry = at.row;
        pairs = pairs.and(at.pairs);
    }
    pairs
}
