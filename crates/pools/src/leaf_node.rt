// Leaves, written: six words.
ghost use Rattle.std.specs.Prelude.{◌≡◌, ◌%◌, ◌/◌, ◌^◌, length};
ghost use Rattle.frames.specs.Kind.{leaf_size};
ghost use Rattle.pools.specs.Leaf.{leaf_words, set_total};

// The low half of a total.
fn low_half(total: u64) -> u32
    ensures { result ≡ total % 2 ^ 32 }
{
    (total % 4294967296) as u32
}

// The high half.
fn high_half(total: u64) -> u32
    ensures { result ≡ total / 2 ^ 32 }
{
    (total / 4294967296) as u32
}

// A leaf in use: its tag's length, its neighbours, its total.
pub fn write_leaf(rec: &mut [u32], len: u32, previous: u32, next: u32, total: u64)
    requires { length rec.old ≡ leaf_size }
    ensures { rec.new ≡ leaf_words len previous next total }
{
    let leaf = [1, len, previous, next, low_half(total), high_half(total)];
    rec.copy_from_slice(&leaf);
}

// Another total.
pub fn set_total(rec: &mut [u32], total: u64)
    requires { length rec.old ≡ leaf_size }
    ensures { rec.new ≡ set_total total rec.old }
{
    rec[4] = low_half(total);
    rec[5] = high_half(total);
}
