// The first of two bytes in a text, looked for eight bytes at a time: how a line's end and its `;` are found.
#![tactic(auto)]

ghost use Rattle.std.specs.Prelude.{◌≡◌, ◌+◌, ◌*◌, ◌/◌, length, drop};
ghost use Rattle.std.specs.Int.Count.{count_trailing_zeros};
ghost use Rattle.leaf_words.specs.Scan.{clear_len, word};

// Eight bytes as one number, the first the lowest. The compiler loads them at once.
fn word_of(block: &[u8]) -> u64
    requires { length block.now ≡ 8 }
    ensures { result ≡ word block.now }
{
    block[0] as u64
        | (block[1] as u64) << 8
        | (block[2] as u64) << 16
        | (block[3] as u64) << 24
        | (block[4] as u64) << 32
        | (block[5] as u64) << 40
        | (block[6] as u64) << 48
        | (block[7] as u64) << 56
}

// The lowest bit of each byte.
const ONES: u64 = 0x0101_0101_0101_0101;

// The highest bit of each byte.
const HIGH: u64 = 0x8080_8080_8080_8080;

// The byte, eight times.
fn eight(b: u8) -> u64
    ensures { result ≡ b * 0x0101_0101_0101_0101 }
{
    u64::from(b) * ONES
}

// The lowest mark stands in the first byte that is a or b, and there is none where no byte is. Where a byte is a, x has a zero: one taken
// from it sets its highest bit, which x has not. It borrows from the byte above, so the marks above the lowest may be wrong.
// Where a is b, half of the work is enough: the compiler does not see that by itself.
fn hits(block: &[u8], a: u8, b: u8) -> u64
    requires { length block.now ≡ 8 }
    ensures { count_trailing_zeros 64 result / 8 ≡ clear_len a b block.now }
{
    let w = word_of(block);
    let x = w ^ eight(a);
    let s = x.wrapping_sub(ONES) & !x;
    if a == b {
        return s & HIGH;
    }
    let y = w ^ eight(b);
    let t = y.wrapping_sub(ONES) & !y;
    (s | t) & HIGH
}

// Where the first a or b stands from `from` on, or the text's end: byte by byte.
fn find_near(text: &[u8], from: usize, a: u8, b: u8) -> usize
    ensures { result ≡ from + clear_len a b (drop from text.now) }
{
    for i in from..text.len() {
        if text[i] == a || text[i] == b {
            return i;
        }
    }
    from.max(text.len())
}

// The same, eight bytes at a time, and twice that in each turn: docs/SPEED.md says what that is worth, and an iterator over blocks of eight has one in each.
pub fn find_either(text: &[u8], from: usize, a: u8, b: u8) -> usize
    ensures { result ≡ from + clear_len a b (drop from text.now) }
{
    let n = text.len();
    if n < from {
        return from;
    }
    let mut i = from;
    while 16 <= n - i {
        let m = i + 8;
        let h = hits(&text[i..m], a, b);
        if h != 0 {
            return i + (h.trailing_zeros() / 8) as usize;
        }
        let e = m + 8;
        let k = hits(&text[m..e], a, b);
        if k != 0 {
            return m + (k.trailing_zeros() / 8) as usize;
        }
        i = e;
    }
    find_near(text, i, a, b)
}
