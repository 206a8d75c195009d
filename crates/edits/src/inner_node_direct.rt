// The body of kind 4, written: a reference for each byte.
ghost use Rattle.std.specs.Prelude.{◌≡◌, ◌<◌, length, set};
ghost use Rattle.frames.specs.Kind.{byte_values};

use frames::kind::BYTES;

// The reference for a byte, 0 to take the child out.
pub fn direct_set(body: &mut [u32], byte: usize, reference: u32)
    requires { (byte < byte_values) × (length body.old ≡ byte_values) }
    ensures { body.new ≡ set body.old byte reference }
{
    body[byte] = reference;
}

// The references by their bytes.
pub fn direct_spread(body: &[u32]) -> [u32; BYTES]
    requires { length body.now ≡ byte_values }
    ensures { result ≡ body.now }
{
    let mut places = [0u32; BYTES];
    places.copy_from_slice(body);
    places
}

// The references of the places into a body.
pub fn direct_fill(body: &mut [u32], places: [u32; BYTES])
    requires { length body.old ≡ byte_values }
    ensures { body.new ≡ places }
{
    body.copy_from_slice(&places);
}
