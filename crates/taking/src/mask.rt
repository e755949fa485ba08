// Sets of kinds as masks: bit k says whether kind k is in the set.
//
// Each has a `requires`, that a mask has room for the kind or for so many kinds, as an index has: they are inner steps of loops over kinds.
ghost use Rattle.std.specs.Prelude.{◌≡◌, ◌-◌, ◌^◌, ◌<◌, ◌≤◌, bit_or};
ghost use Rattle.taking.specs.Masks.{test};

// Whether a kind is in the set.
pub fn holds(kinds: u16, kind: usize) -> bool
    requires { kind < 16 }
    ensures { result ≡ test kinds kind }
{
    (kinds >> kind) & 1 == 1
}

// The set of the first so many kinds.
pub fn first_kinds(count: usize) -> u16
    requires { count ≤ 16 }
    ensures { result ≡ 2 ^ count - 1 }
{
    ((1u32 << count) - 1) as u16
}

// The set with one more kind.
pub fn with(kinds: u16, kind: usize) -> u16
    requires { kind < 16 }
    ensures { result ≡ bit_or kinds (2 ^ kind) }
{
    kinds | (1 << kind)
}
