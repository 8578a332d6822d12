// Sets of numbers below 64: a word with a bit for each.
#![tactic(auto)]

ghost use Rattle.std.specs.Prelude.{◌≡◌, ◌<◌};
ghost use Rattle.masks.specs.Member.{member, Put};

pub fn has(mask: u64, v: usize) -> bool
    requires { v < 64 }
    ensures { result ≡ member mask v }
{
    (mask >> v) % 2 == 1
}

// The set with v in it.
pub fn with(mask: u64, v: usize) -> u64
    requires { v < 64 }
    ensures { Put v mask result }
{
    mask | (1u64 << v)
}
