// Figures of measurements.
#![tactic(auto)]

ghost use Rattle.std.specs.Prelude.{◌≡◌, ◌-◌, ◌*◌, ◌/◌, ◌^◌, max, min};

// How many a second, of `count` done in some microseconds: no time counts as one microsecond, and more than fits is the most that does.
pub fn per_second(count: u64, micros: u128) -> u64
    ensures { result ≡ min (count * 1000000 / max micros 1) (2 ^ 64 - 1) }
{
    let figure = u128::from(count) * 1_000_000 / micros.max(1);
    u64::try_from(figure).unwrap_or(u64::MAX)
}
