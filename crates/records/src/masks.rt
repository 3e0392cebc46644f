// What the masks of a write-back record mark.
ghost use Rattle.std.specs.Prelude.{◌≡◌, ◌≤◌};
ghost use Rattle.std.specs.Int.Count.{ones};
ghost use Rattle.records.specs.Masks.{dirty_bytes};

// The bits that are set in a mask.
fn set_bits(mask: u32) -> u64
    ensures { (result ≡ ones mask) × (result ≤ 32) }
{
    u32::count_ones(mask) as u64
}

// The dirty bytes that four masks mark.
pub fn dirty_bytes(m0: u32, m1: u32, m2: u32, m3: u32) -> u64
    ensures { result ≡ dirty_bytes m0 m1 m2 m3 }
{
    set_bits(m0) + set_bits(m1) + set_bits(m2) + set_bits(m3)
}
