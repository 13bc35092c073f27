// The window memory: filled by the rule of reference/README.md, or one number set.
ghost use Rattle.std.specs.Prelude.{◌≡◌};
ghost use Rattle.channel_vectors.specs.Code.Memory.{sixty_fourths, filled, poked};

use ieee754::conversion::u64_to_f64;

// Both numbers are cut first, so that the product and the sum fit.
fn sixty_fourths(start: u64, i: usize) -> f64
    ensures { result ≡ sixty_fourths start i }
{
    let k = i as u64;
    u64_to_f64((k % 64 * 7 + start % 64) % 64) / 64.0
}

// In its place: of an array that is made and then copied a line took 2.8 times as many instructions.
#[tactic(auto, using(vectors::proofs::LineLaws::fill_end), unfolding(crate::specs::Code::Memory::filled, vectors::specs::Code::Lines::from_place))]
pub fn set_by_start(windows: &mut [f64; 8193], start: u64)
    ensures { windows.new ≡ filled start windows.old }
{
    for (i, w) in windows.iter_mut().enumerate() {
        *w = sixty_fourths(start, i);
    }
}

// Behind the end there is no place. Not `get_mut`: what an array becomes by it is not known.
#[tactic(auto, unfolding(crate::specs::Code::Memory::poked))]
pub fn set_place(windows: &mut [f64; 8193], place: usize, value: f64)
    ensures { windows.new ≡ poked place value windows.old }
{
    if place < windows.len() {
        windows[place] = value;
    }
}
