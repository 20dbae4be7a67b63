// Bytes compared: parts of a text, and fixed words.
#![tactic(auto)]

ghost use Rattle.std.specs.Prelude.{◌≡◌, take, drop};
ghost use Rattle.leaf_letters.specs.Words.{same, raised, spelled, begins};

// As much of the text from `at` on as there is, at most `n` bytes.
pub fn cut(text: &[u8], at: usize, n: usize) -> &[u8]
    ensures { result.now ≡ take n (drop at text.now) }
{
    let len = text.len();
    if len < at {
        return &text[len..];
    }
    if len - at < n {
        return &text[at..];
    }
    let e = at + n;
    &text[at..e]
}

// Whether two texts are the same.
pub fn equal(a: &[u8], b: &[u8]) -> bool
    ensures { result ≡ same a.now b.now }
{
    a == b
}

// A letter a to z raised.
fn raise(b: u8) -> u8
    ensures { result ≡ raised b }
{
    b.to_ascii_uppercase()
}

// Whether a text, its letters raised, is the word.
pub fn spells(a: &[u8], w: &[u8]) -> bool
    ensures { result ≡ spelled a.now w.now }
{
    a.len() == w.len() && a.iter().zip(w).all(|(x, y)| raise(*x) == *y)
}

// Whether a text begins with the word.
pub fn starts_with(a: &[u8], w: &[u8]) -> bool
    ensures { result ≡ begins a.now w.now }
{
    a.starts_with(w)
}
