//! Years of which every fourth is a leap year, but of those that end a century only every fourth.

ghost use Rattle.std.specs.Prelude.{◌≡◌, ◌≤◌, ◌<◌, ◌+◌, ◌*◌, ◌/◌};

/// How many whole years the first `days` days from the first of 400 such years on fill, and how many days are left.
#[tactic(auto, using(crate::proofs::CenturyLemmas::in_century))]
pub fn years_in(days: u32) -> (u32, u32)
    requires { days ≤ 100_000_000 }
    ensures sum { 365 * result.0 + result.0 / 4 + result.0 / 400 + result.1 ≡ days + result.0 / 100 }
    ensures inside { days + (result.0 + 1) / 100
        < 365 * (result.0 + 1) + (result.0 + 1) / 4 + (result.0 + 1) / 400 }
{
    // n centuries have 146097 * n / 4 days, and n years of a century 1461 * n / 4. Each day takes 4 of what they leave.
    let scaled = 4 * days + 3;
    let in_century = 4 * (scaled % 146_097 / 4) + 3;
    (
        100 * (scaled / 146_097) + in_century / 1461,
        in_century % 1461 / 4,
    )
}
