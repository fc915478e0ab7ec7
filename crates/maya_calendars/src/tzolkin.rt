//! The tzolkin: thirteen numbers and twenty names, which both move on from each day to the next.

ghost use Rattle.std.specs.Prelude.{◌≡◌, ◌≤◌, ℕ};
ghost use Rattle.maya_calendars.specs.TzolkinNames.{all_names, name_texts, tzolkin_after, tzolkin_of};
ghost use Rattle.day_numbers.specs.Numbered.{IsNumbered, name_of_number};
ghost use Rattle.maya_calendars.specs.Rounds.{StepsOnEachDay};

use crate::round::number_on;
use day_numbers::Day;

/// A day name of the tzolkin.
#[derive(Clone, Copy, PartialEq, Eq, Debug)]
enum TzolkinName {
    Imix,
    Ik,
    Akbal,
    Kan,
    Chicchan,
    Cimi,
    Manik,
    Lamat,
    Muluc,
    Oc,
    Chuen,
    Eb,
    Ben,
    Ix,
    Men,
    Cib,
    Caban,
    Etznab,
    Cauac,
    Ahau,
}

impl TzolkinName {
    /// The name at this place among the twenty, from 1 for Imix to 20 for Ahau.
    fn at_place(place: u8) -> TzolkinName
        requires { (1 ≤ place) × (place ≤ 20) }
        ensures { IsNumbered all_names place result }
    {
        match place {
            1 => TzolkinName::Imix,
            2 => TzolkinName::Ik,
            3 => TzolkinName::Akbal,
            4 => TzolkinName::Kan,
            5 => TzolkinName::Chicchan,
            6 => TzolkinName::Cimi,
            7 => TzolkinName::Manik,
            8 => TzolkinName::Lamat,
            9 => TzolkinName::Muluc,
            10 => TzolkinName::Oc,
            11 => TzolkinName::Chuen,
            12 => TzolkinName::Eb,
            13 => TzolkinName::Ben,
            14 => TzolkinName::Ix,
            15 => TzolkinName::Men,
            16 => TzolkinName::Cib,
            17 => TzolkinName::Caban,
            18 => TzolkinName::Etznab,
            19 => TzolkinName::Cauac,
            _ => TzolkinName::Ahau,
        }
    }
}

/// A name of the tzolkin, the round of 260 days: a number and a day name.
#[derive(Clone, Copy, PartialEq, Eq, Debug)]
pub struct Tzolkin {
    number: u8,
    name: TzolkinName,
    pub ghost in_range: { (1 ≤ number) × (number ≤ 13) },
}

impl Tzolkin {
    /// The number, from 1 to 13.
    pub fn number(&self) -> u8
        ensures value { result ≡ self.now.number }
        ensures in_range { (1 ≤ result) × (result ≤ 13) }
    {
        self.number
    }

    /// The day name, from `Imix` to `Ahau`.
    #[tactic(auto, using(crate::proofs::NameListLemmas::name_named))]
    pub fn name(&self) -> &str
        ensures { (place : ℕ) → IsNumbered all_names place self.now.name
            → result.now ≡ name_of_number name_texts place }
    {
        match self.name {
            TzolkinName::Imix => "Imix",
            TzolkinName::Ik => "Ik",
            TzolkinName::Akbal => "Akbal",
            TzolkinName::Kan => "Kan",
            TzolkinName::Chicchan => "Chicchan",
            TzolkinName::Cimi => "Cimi",
            TzolkinName::Manik => "Manik",
            TzolkinName::Lamat => "Lamat",
            TzolkinName::Muluc => "Muluc",
            TzolkinName::Oc => "Oc",
            TzolkinName::Chuen => "Chuen",
            TzolkinName::Eb => "Eb",
            TzolkinName::Ben => "Ben",
            TzolkinName::Ix => "Ix",
            TzolkinName::Men => "Men",
            TzolkinName::Cib => "Cib",
            TzolkinName::Caban => "Caban",
            TzolkinName::Etznab => "Etznab",
            TzolkinName::Cauac => "Cauac",
            TzolkinName::Ahau => "Ahau",
        }
    }
}

/// The tzolkin of a day.
///
/// It is 4 Ahau on R.D. -1137142, and from each day to the next, before that day as after it, its number
/// moves one place on in the round of 1 to 13 and its name in the round of the twenty day names
/// (Reingold and Dershowitz, *Calendrical Calculations*).
#[tactic(auto, using(crate::proofs::TzolkinLemmas::tzolkin_each_day))]
pub fn tzolkin_on(day: Day) -> Tzolkin
    ensures value { let t = tzolkin_of day.number in (result.number ≡ t.0) × IsNumbered all_names t.1 result.name }
    ensures each_day { StepsOnEachDay tzolkin_after tzolkin_of }
{
    let number = number_on(day, 4, 13) as u8;
    let place = number_on(day, 20, 20) as u8;
    Tzolkin {
        number,
        name: TzolkinName::at_place(place),
    }
}
