// The forms: how an inner record's head is laid out, and how long a tag may be. One form is known, number 1.
ghost use Rattle.std.specs.Prelude.{◌≡◌, true, ◌≤◌, ◌<◌, ◌-◌, ◌^◌};
ghost use Rattle.frames.specs.Form.{form_of, form_known, header, record_words, sizes_of};

use super::kind;

// Its number, the words of its stored prefix and of its count below, and the longest tag.
#[derive(Clone, Copy)]
pub struct Form {
    pub number: u32,
    pub prefix: u32,
    pub counts: u32,
    pub limit: u32,
}

pub const FORMS: [Form; 1] = [Form {
    number: 1,
    prefix: 8,
    counts: 0,
    limit: 64,
}];

// Whether there is a form of that number.
pub fn form_known(number: u32) -> bool
    ensures { result ≡ form_known number }
{
    (1 <= number) & (number <= 1)
}

// The form of a number.
pub fn form_of(number: u32) -> Form
    requires { form_known number ≡ true }
    ensures { result ≡ form_of number }
{
    let i = (number - 1) as usize;
    FORMS[i]
}

// The words of a head: kind, child count and length, the count below, and the stored prefix.
pub fn header_of(form: Form) -> usize
    ensures { (result ≡ header form) × (result < 2 ^ 34) }
{
    3 + form.counts as usize + form.prefix as usize
}

// The words of an inner record: the head by the form, the body by the kind.
pub fn record_words(form: Form, k: u32) -> usize
    requires { (1 ≤ k) × (k ≤ 4) }
    ensures { (result ≡ record_words form k) × (result < 2 ^ 35) }
{
    let row = kind::row_of(k);
    header_of(form) + body_of(row)
}

// The words of a body: those of the record in form 1, less that form's head.
fn body_of(row: kind::KindRow) -> usize
    requires { 11 ≤ row.words }
    ensures { result ≡ row.words - 11 }
{
    row.words as usize - 11
}

// The words of a record by its pool.
#[derive(Clone, Copy)]
pub struct Sizes {
    pub z1: usize,
    pub z2: usize,
    pub z3: usize,
    pub z4: usize,
    pub z5: usize,
}

// The sizes in a form.
pub fn sizes_of(form: Form) -> Sizes
    ensures { result ≡ sizes_of form }
{
    let z1 = record_words(form, 1);
    let z2 = record_words(form, 2);
    let z3 = record_words(form, 3);
    let z4 = record_words(form, 4);
    Sizes {
        z1: z1,
        z2: z2,
        z3: z3,
        z4: z4,
        z5: kind::LEAF_WORDS,
    }
}
