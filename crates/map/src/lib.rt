// A map's bytes: its entries, and the rows of map check that speak of them alone.
#![tactic(auto)]

ghost use Rattle.std.specs.Prelude.{◌≡◌, [], ◌∷◌, ◌+◌, ◌*◌, ◌≤◌, ◌<◌, length};
ghost use Rattle.outcome.specs.Answer.{answer};
ghost use Rattle.outcome.specs.Refusal.{first};
ghost use Rattle.map.specs.Bytes.{entry};
ghost use Rattle.map.specs.Refusals.{form_row, entry_row};

use outcome::{Fault, Refusal};

// The overview state that detail state d stands for.
pub fn entry_at(map: &[u8], d: usize) -> usize
    requires { 7 + 2 * d + 2 ≤ length map.now }
    ensures { (result ≡ entry map.now d) × (result < 65536) }
{
    words::be16(map, 7 + 2 * d) as usize
}

// Row 20.
#[tactic(auto, using(std::proofs::lemmas::Bool::Decides::nat_tests), unfolding(outcome::specs::Refusal::first, crate::specs::Refusals::no_map))]
pub fn form_refusal(map: &[u8], n: usize) -> Result<(), Refusal>
    ensures { answer result ≡ first (form_row map.now n ∷ []) }
{
    head::head_refusal(map, 7, Fault::NoMap, Fault::NoMap, Fault::NoMap)?;
    let count = words::be16(map, 5) as usize;
    if map.len() != 7 + 2 * count || count != n {
        return Err(Fault::NoMap.at(0));
    }
    Ok(())
}

// Row 21.
pub fn entry_refusal(map: &[u8], n: usize, k: usize) -> Result<(), Refusal>
    requires { (7 + 2 * n ≤ length map.now) × (n ≤ 256) }
    ensures { answer result ≡ first (entry_row map.now n k ∷ []) }
{
    for d in 0..n {
        if k <= entry_at(map, d) {
            return Err(Fault::NoOverviewState.at(d));
        }
    }
    Ok(())
}
