// The key of a name: its first eight letters as one number, by which rows are told apart at once.
#![tactic(auto)]

ghost use Rattle.std.specs.Prelude.{◌≡◌, ◌+◌, ◌≤◌, ◌<◌, length, take};
ghost use Rattle.leaf_fields.specs.Fields.{part};
ghost use Rattle.scope.specs.Tables.{packed, key_of};

use leaf_fields::Span;

// The first eight letters as one number.
pub fn name_key(name: &[u8]) -> u64
    ensures { result ≡ key_of name.now }
{
    let l = leaf_letters::cut(name, 0, 8);
    let mut k = 0;
    for b in l {
        k = k * 256 + u64::from(*b);
    }
    k
}

// Four bytes as one number, the first the highest.
fn four_letters(b: &[u8]) -> u64
    requires { length b.now ≡ 4 }
    ensures { result ≡ packed 0 b.now }
{
    ((b[0] as u64 * 256 + b[1] as u64) * 256 + b[2] as u64) * 256 + b[3] as u64
}

// Eight bytes as one number. The compiler loads them at once.
fn eight_letters(b: &[u8]) -> u64
    requires { length b.now ≡ 8 }
    ensures { result ≡ packed 0 b.now }
{
    four_letters(&b[..4]) * 0x1_0000_0000 + four_letters(&b[4..])
}

// The first n letters as one number, letter by letter. The compiler never inlines a function that calls itself: here that is wanted, as few names get here and
// a loop in each place where a name is looked up costs more than the call.
fn far_key(l: &[u8], n: usize) -> u64
    requires { (n ≤ 8) × (n ≤ length l.now) }
    ensures { result ≡ packed 0 (take n l.now) }
{
    if n == 0 {
        return 0;
    }
    let m = n - 1;
    far_key(l, m) * 256 + l[m] as u64
}

// The key of a name where it stands in the text. Of a short name with more text behind it eight bytes are taken at once, and those that are not its own shifted out.
pub fn key_at(text: &[u8], name: Span) -> u64
    ensures { result ≡ key_of (part name.at name.end text.now) }
{
    let l = leaf_fields::letters_of(text, name);
    let n = l.len();
    if n == 0 {
        return 0;
    }
    if 8 <= n {
        return far_key(l, 8);
    }
    let at = name.at;
    if 8 <= text.len() - at {
        let e = at + 8;
        return eight_letters(&text[at..e]) >> (64 - 8 * n);
    }
    far_key(l, n)
}
