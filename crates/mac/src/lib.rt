// The tag of a list of words under a key, whole or as its first word and the rest; and the latter under 32 keys at once. A key is two words here, α and β, as
// the rules name them: `Key` is of `shares`, where keys are read, and this crate needs nothing else of that one.
#![tactic(auto)]

ghost use Rattle.std.specs.Prelude.{◌≡◌, ◌∷◌, length, get_or};
ghost use Rattle.lists.specs.Tabulate.{tab};
ghost use Rattle.mac.specs.Tag.{tag as tag_of};

// One pass over the words.
#[tactic(auto, unfolding(crate::specs::Tag::tag, polynomial::specs::Polynomial::value, polynomial::specs::Polynomial::eval))]
pub fn tag(alpha: u16, beta: u16, words: &[u16]) -> u16
    ensures { result ≡ tag_of alpha beta words.now }
{
    polynomial::evaluate_with(beta, words, alpha)
}

// The tag of a first word and the rest, which need not stand together: the first has power 1, and the rest begin at power 2.
#[tactic(auto, using(crate::proofs::Tags::tag_by_products))]
pub fn tag_with_first(alpha: u16, beta: u16, first: u16, rest: &[u16]) -> u16
    ensures { result ≡ tag_of alpha beta (first ∷ rest.now) }
{
    let square = field::multiply(alpha, alpha);
    let value = polynomial::evaluate(rest, alpha);
    field::add_products(beta, &[alpha, square], &[first, value])
}

// Under 32 keys at once. The keys are two arrays, α and β apart: lanes need the α in one piece.
#[tactic(auto, using(crate::proofs::Tags::under_all_keys))]
fn fill_lanes(alphas: &[u16; 32], betas: &[u16; 32], first: u16, rest: &[u16], tags: &mut [u16; 32])
    ensures { tags.new ≡ tab 32 (λ j. tag_of (get_or alphas.now j 0) (get_or betas.now j 0) (first ∷ rest.now)) }
{
    lanes::evaluate_at(rest, alphas, tags);
    for (j, tag) in tags.iter_mut().enumerate() {
        let value = field::add_product(first, alphas[j], *tag);
        *tag = field::add_product(betas[j], alphas[j], value);
    }
}

// Under 32 keys at once, the tags of a first word and the rest, which need not stand together: the first has power 1, and the rest begin at power 2. The keys
// are any 32 words for α and 32 for β, also of longer buffers.
pub fn tags_with_first(alphas: &[u16], betas: &[u16], first: u16, rest: &[u16], tags: &mut [u16])
    requires { (length alphas.now ≡ 32) × (length betas.now ≡ 32) × (length tags.old ≡ 32) }
    ensures { tags.new ≡ tab 32 (λ j. tag_of (get_or alphas.now j 0) (get_or betas.now j 0) (first ∷ rest.now)) }
{
    let Some(alphas) = alphas.as_array::<32>() else {
        unreachable!()
    };
    let Some(betas) = betas.as_array::<32>() else {
        unreachable!()
    };
    let Some(tags) = tags.as_mut_array::<32>() else {
        unreachable!()
    };
    fill_lanes(alphas, betas, first, rest, tags);
}
