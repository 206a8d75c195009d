// The clerk's tally: how many tags were counted, and the exact sum of their totals as a low word and a count of carries.
#![tactic(auto)]

ghost use Rattle.std.specs.Prelude.{◌≡◌};
ghost use Rattle.tally.specs.Tally.{Room, added_of, nothing};

#[derive(Clone, Copy)]
pub struct Tally {
    pub count: u32,
    pub low: u64,
    pub carries: u32,
}

// Nothing counted yet.
pub fn nothing() -> Tally
    ensures { result ≡ nothing }
{
    Tally {
        count: 0,
        low: 0,
        carries: 0,
    }
}

// A total more, by value.
pub fn added(t: Tally, total: u64) -> Tally
    requires { Room t }
    ensures { result ≡ added_of t total }
{
    let low = std::num::wrapping_add_u64(t.low, total);
    if low < total {
        return Tally {
            count: t.count + 1,
            low: low,
            carries: t.carries + 1,
        };
    }
    Tally {
        count: t.count + 1,
        low: low,
        carries: t.carries,
    }
}

// The tally that is lent, changed where it stands.
pub fn add(t: &mut Tally, total: u64)
    requires { Room t.old }
    ensures { t.new ≡ added_of t.old total }
{
    *t = added(*t, total);
}
