// Tests of every element, the first or last place that passes, counts, and a byte that may be past the end. The tests look at every element, with no early return, where `all` would stop at
// the first that fails: in that form the compiler takes several elements at a time.
ghost use Rattle.std.specs.Prelude.{◌≡◌, get_or};
ghost use Rattle.lists.specs.Scan.{is, at_most, at_least, nonzero, all_pass, first, past, nth, how_many, rises};

// Each word is at most `b`. The fold keeps the largest, where one that keeps the answer compares twice: 7 instructions for 8 words, and not 13.
pub fn all_at_most(s: &[u32], b: u32) -> bool
    ensures { result ≡ all_pass (at_most b) s.now }
{
    s.iter().fold(0, |most, x| most.max(*x)) <= b
}

// Each byte is 0: no bit is set in any. Not one function with the test above: a trait that said of words and bytes alike which numbers they are would be longer than both.
pub fn bytes_zero(s: &[u8]) -> bool
    ensures { result ≡ all_pass (at_most 0) s.now }
{
    s.iter().fold(0, |bits, x| bits | *x) == 0
}

// No word is 0: all of them count.
pub fn none_zero(s: &[u32]) -> bool
    ensures { result ≡ all_pass nonzero s.now }
{
    count_nonzero(s) == s.len()
}

// Strictly ascending bytes, one a word.
pub fn rising(s: &[u32]) -> bool
    ensures { result ≡ rises 0 s.now }
{
    let [first, rest @ ..] = s else {
        return true;
    };
    let mut last = *first;
    let mut ok = last <= 255;
    for x in rest {
        ok &= (last < *x) & (*x <= 255);
        last = *x;
    }
    ok
}

// The place of the first word that is `x`, or the length.
pub fn first_equal(s: &[u32], x: u32) -> usize
    ensures { result ≡ first (is x) s.now }
{
    s.iter().position(|y| *y == x).unwrap_or(s.len())
}

// The place of the first word that is `x` or more, or the length.
pub fn first_at_least(s: &[u32], x: u32) -> usize
    ensures { result ≡ first (at_least x) s.now }
{
    s.iter().position(|y| *y >= x).unwrap_or(s.len())
}

// The place after the last word that is not 0; 0 where each is 0.
pub fn past_nonzero(s: &[u32]) -> usize
    ensures { result ≡ past nonzero s.now }
{
    s.iter().rposition(|x| *x > 0).map_or(0, |i| i + 1)
}

// The place of the word that is not 0 with `n` such words before it, or the length.
pub fn nth_nonzero(s: &[u32], n: usize) -> usize
    ensures { result ≡ nth nonzero n s.now }
{
    let mut left = n;
    for (i, x) in s.iter().enumerate() {
        if *x > 0 {
            if left == 0 {
                return i;
            }
            left -= 1;
        }
    }
    s.len()
}

// How many words are not 0. A `for`, since `filter` and `count` took 2.5 times as long: 46 ns and 18 ns for 48 words.
pub fn count_nonzero(s: &[u32]) -> usize
    ensures { result ≡ how_many nonzero s.now }
{
    let mut n = 0;
    for x in s {
        if *x > 0 {
            n += 1;
        }
    }
    n
}

// The byte at `i`, 0 past the end.
pub fn byte_at(s: &[u8], i: usize) -> u8
    ensures { result ≡ get_or s.now i 0 }
{
    s.get(i).copied().unwrap_or(0)
}
