// The head that charts, rules and maps share: the version and the stated length.
#![tactic(auto)]

ghost use Rattle.std.specs.Prelude.{◌≡◌, ◌+◌, ◌≤◌, ℕ};
ghost use Rattle.outcome.specs.Answer.{number_of, answer};
ghost use Rattle.outcome.specs.Refusal.{first};
ghost use Rattle.head.specs.Head.{faults_rows};

use outcome::{Fault, Refusal};

// The first of three rows that is met: under `least` bytes, version not 1, stated length not the real one.
// Each return is the row whose test led there, the tests before it having failed.
#[tactic(auto, using(std::proofs::lemmas::Bool::Decides::nat_tests), unfolding(outcome::specs::Refusal::first))]
pub fn head_refusal(
    s: &[u8],
    least: usize,
    short: Fault,
    version: Fault,
    stated: Fault,
) -> Result<(), Refusal>
    requires { 5 ≤ least }
    ensures { answer result ≡ first (faults_rows (number_of short) (number_of version) (number_of stated) least s.now) }
{
    if s.len() < least {
        return Err(short.at(0));
    }
    if s[0] != 1 {
        return Err(version.at(0));
    }
    let length = words::be32(s, 1) as usize;
    if length != s.len() {
        return Err(stated.at(0));
    }
    Ok(())
}
