// The body of kind 4: a reference for each byte.
ghost use Rattle.std.specs.Prelude.{◌≡◌, length};
ghost use Rattle.frames.specs.Kind.{byte_values};
ghost use Rattle.records.specs.Own.{direct_ok};

use lists::scan;

// The body's part of the own rule.
pub fn direct_ok(body: &[u32], n: usize) -> bool
    requires { length body.now ≡ byte_values }
    ensures { result ≡ direct_ok body.now n }
{
    scan::count_nonzero(body) == n
}
