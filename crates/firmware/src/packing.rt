// What the unit walk finds, as one number: the firmware's C code can't take an enum or a Result.
ghost use Rattle.std.specs.Prelude.{◌≡◌, ◌+◌, ◌*◌, ◌%◌, ◌^◌};
ghost use Rattle.firmware.specs.Values.{packed};

use answer::Refusal;
use units::DataUnit;

// What the walk finds as one number, for C: specs/Values.antt has its layout.
#[tactic(auto, unfolding(crate::specs::Values::packed))]
pub(crate) fn pack(unit: Result<DataUnit, Refusal>) -> u64
    ensures { result ≡ packed unit }
{
    match unit {
        Ok(DataUnit::End) => 0,
        Ok(DataUnit::Text(next)) => joined(254, next),
        Ok(DataUnit::Stuffing(next)) => joined(255, next),
        Err(r) => joined(r.no, r.at),
    }
}

fn joined(code: u8, place: usize) -> u64
    ensures { result ≡ code + 256 * (place % 2 ^ 56) }
{
    (code as u64) + 256 * ((place as u64) % 0x0100_0000_0000_0000)
}
