//! The words of a line, which one space each separates.
ghost use Rattle.std.specs.Prelude.{◌≡◌, ℕ, List, [], ◌∷◌, MatchOption};
ghost use Rattle.acct_program_feed.specs.Words.{words as words_in};

/// The first word of a text and what follows the space that ends it, or none if the text is one
/// word.
pub fn cut_word(text: &str) -> Option<(&str, &str)>
    ensures { MatchOption result (words_in text.now ≡ text.now ∷ [])
        (λ cut. words_in text.now ≡ cut.0.now ∷ words_in cut.1.now) }
{
    text.split_once(' ')
}

/// The text, if it is one word.
pub fn one_word(text: &str) -> Option<&str>
    ensures { MatchOption result ((a : List ℕ) → words_in text.now ≡ a ∷ [] → ⊥)
        (λ word. words_in text.now ≡ word.now ∷ []) }
{
    match cut_word(text) {
        None => Some(text),
        Some(_) => None,
    }
}

/// The two words of a text, if it has two.
pub fn two_words(text: &str) -> Option<(&str, &str)>
    ensures { MatchOption result ((a b : List ℕ) → words_in text.now ≡ a ∷ b ∷ [] → ⊥)
        (λ word. words_in text.now ≡ word.0.now ∷ word.1.now ∷ []) }
{
    let (first, text) = cut_word(text)?;
    let second = one_word(text)?;
    Some((first, second))
}

/// The three words of a text, if it has three.
pub fn three_words(text: &str) -> Option<(&str, &str, &str)>
    ensures { MatchOption result ((a b c : List ℕ) → words_in text.now ≡ a ∷ b ∷ c ∷ [] → ⊥)
        (λ word. words_in text.now ≡ word.0.now ∷ word.1.now ∷ word.2.now ∷ []) }
{
    let (first, text) = cut_word(text)?;
    let (second, third) = two_words(text)?;
    Some((first, second, third))
}

/// The four words of a text, if it has four.
pub fn four_words(text: &str) -> Option<(&str, &str, &str, &str)>
    ensures { MatchOption result ((a b c d : List ℕ) → words_in text.now ≡ a ∷ b ∷ c ∷ d ∷ [] → ⊥)
        (λ word. words_in text.now ≡ word.0.now ∷ word.1.now ∷ word.2.now ∷ word.3.now ∷ []) }
{
    let (first, text) = cut_word(text)?;
    let (second, third, fourth) = three_words(text)?;
    Some((first, second, third, fourth))
}
