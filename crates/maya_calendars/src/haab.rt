//! The haab: eighteen months of twenty days, and five days behind them.

ghost use Rattle.std.specs.Prelude.{◌≡◌, ◌≤◌, ℕ};
ghost use Rattle.maya_calendars.specs.HaabNames.{all_months, month_names, last_day, haab_after, haab_of};
ghost use Rattle.day_numbers.specs.Numbered.{IsNumbered, name_of_number};
ghost use Rattle.maya_calendars.specs.Rounds.{StepsOnEachDay};

use crate::round::number_on;
use day_numbers::Day;

/// A month of the haab: eighteen of twenty days, and Uayeb of five.
#[derive(Clone, Copy, PartialEq, Eq, Debug)]
enum HaabMonth {
    Pop,
    Uo,
    Zip,
    Zotz,
    Tzec,
    Xul,
    Yaxkin,
    Mol,
    Chen,
    Yax,
    Zac,
    Ceh,
    Mac,
    Kankin,
    Muan,
    Pax,
    Kayab,
    Cumku,
    Uayeb,
}

impl HaabMonth {
    /// The month of this number, from 1 for Pop to 19 for Uayeb.
    fn numbered(number: u8) -> HaabMonth
        requires { (1 ≤ number) × (number ≤ 19) }
        ensures { IsNumbered all_months number result }
    {
        match number {
            1 => HaabMonth::Pop,
            2 => HaabMonth::Uo,
            3 => HaabMonth::Zip,
            4 => HaabMonth::Zotz,
            5 => HaabMonth::Tzec,
            6 => HaabMonth::Xul,
            7 => HaabMonth::Yaxkin,
            8 => HaabMonth::Mol,
            9 => HaabMonth::Chen,
            10 => HaabMonth::Yax,
            11 => HaabMonth::Zac,
            12 => HaabMonth::Ceh,
            13 => HaabMonth::Mac,
            14 => HaabMonth::Kankin,
            15 => HaabMonth::Muan,
            16 => HaabMonth::Pax,
            17 => HaabMonth::Kayab,
            18 => HaabMonth::Cumku,
            _ => HaabMonth::Uayeb,
        }
    }
}

/// A name of the haab, the round of 365 days: a day of a month, counted from 0.
#[derive(Clone, Copy, PartialEq, Eq, Debug)]
pub struct Haab {
    day: u8,
    month: HaabMonth,
    pub ghost in_month: { (number : ℕ) → IsNumbered all_months number month → day ≤ last_day number },
}

impl Haab {
    /// The day of the month, from 0 to 19, and to 4 in Uayeb.
    #[tactic(auto, using(crate::proofs::NameListLemmas::day_below))]
    pub fn day(&self) -> u8
        ensures value { result ≡ self.now.day }
        ensures in_month { (number : ℕ) → IsNumbered all_months number self.now.month → result ≤ last_day number }
        ensures in_range { result ≤ 19 }
    {
        self.day
    }

    /// The number of the month, from 1 for Pop to 19 for Uayeb.
    #[tactic(auto, using(crate::proofs::NameListLemmas::month_at))]
    pub fn month(&self) -> u8
        ensures value { IsNumbered all_months result self.now.month }
        ensures in_range { (1 ≤ result) × (result ≤ 19) }
    {
        self.month as u8 + 1
    }

    /// The name of the month, from `Pop` to `Uayeb`.
    #[tactic(auto, using(crate::proofs::NameListLemmas::month_named))]
    pub fn month_name(&self) -> &str
        ensures { (number : ℕ) → IsNumbered all_months number self.now.month
            → result.now ≡ name_of_number month_names number }
    {
        match self.month {
            HaabMonth::Pop => "Pop",
            HaabMonth::Uo => "Uo",
            HaabMonth::Zip => "Zip",
            HaabMonth::Zotz => "Zotz",
            HaabMonth::Tzec => "Tzec",
            HaabMonth::Xul => "Xul",
            HaabMonth::Yaxkin => "Yaxkin",
            HaabMonth::Mol => "Mol",
            HaabMonth::Chen => "Chen",
            HaabMonth::Yax => "Yax",
            HaabMonth::Zac => "Zac",
            HaabMonth::Ceh => "Ceh",
            HaabMonth::Mac => "Mac",
            HaabMonth::Kankin => "Kankin",
            HaabMonth::Muan => "Muan",
            HaabMonth::Pax => "Pax",
            HaabMonth::Kayab => "Kayab",
            HaabMonth::Cumku => "Cumku",
            HaabMonth::Uayeb => "Uayeb",
        }
    }
}

/// The haab of a day.
///
/// It is 8 Cumku on R.D. -1137142, and from each day to the next, before that day as after it, it moves
/// one place on in the round: after day 19 of a month comes day 0 of the next, and after 4 Uayeb comes
/// 0 Pop (Reingold and Dershowitz, *Calendrical Calculations*).
#[tactic(auto, using(crate::proofs::HaabLemmas::haab_each_day))]
pub fn haab_on(day: Day) -> Haab
    ensures value { let h = haab_of day.number in (result.day ≡ h.0) × IsNumbered all_months h.1 result.month }
    ensures each_day { StepsOnEachDay haab_after haab_of }
{
    // 8 Cumku is the 349th of the 365 names, 0 Pop the first.
    let place = number_on(day, 349, 365) - 1;
    Haab {
        day: (place % 20) as u8,
        month: HaabMonth::numbered((place / 20) as u8 + 1),
    }
}
