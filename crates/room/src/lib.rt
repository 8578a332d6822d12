// The room that is lent to a call: rows 17 and 18.
#![tactic(auto)]

ghost use Rattle.std.specs.Prelude.{◌≡◌, ◌≤◌};
ghost use Rattle.outcome.specs.Answer.{answer};
ghost use Rattle.outcome.specs.Refusal.{first};
ghost use Rattle.room.specs.Room.{size_for, room_table};

use outcome::{Fault, Refusal};

// How many numbers are asked for, and cleared, for n states: where minutes are counted, or where none are.
pub fn scratch_size(minutely: bool, n: usize) -> usize
    requires { n ≤ 256 }
    ensures { result ≡ size_for minutely n }
{
    if minutely {
        return 256 * n;
    }
    4 * n
}

// Rows 17 and 18, for a call that asks for so many numbers.
#[tactic(auto, using(std::proofs::lemmas::Bool::Decides::nat_tests), unfolding(outcome::specs::Refusal::first))]
pub fn room_refusal(
    n: usize,
    k: usize,
    size: usize,
    marks: &[u8],
    scratch: &[u32],
) -> Result<(), Refusal>
    requires { (n ≤ 256) × (k ≤ 64) }
    ensures { answer result ≡ first (room_table n k size marks.now scratch.now) }
{
    if marks.len() < k * n {
        return Err(Fault::MarksTable.at(0));
    }
    if scratch.len() < size {
        return Err(Fault::Scratch.at(0));
    }
    Ok(())
}
