//! Long counts as they are written, place by place.

ghost use Rattle.std.specs.Prelude.{◌≡◌, ◌≤◌, ◌↔◌, IsSome, IfSome};
ghost use Rattle.maya_calendars.specs.Places.{ArePlaces};

/// A long count: five places, each from 0 to 9999, as it is written.
///
/// The places need not be a long count that runs: [`long_day_of`](crate::long_day_of) says whether they
/// are.
#[derive(Clone, Copy, PartialEq, Eq, Debug)]
pub struct LongCount {
    pub(crate) baktun: u16,
    pub(crate) katun: u16,
    pub(crate) tun: u16,
    pub(crate) uinal: u16,
    pub(crate) kin: u16,
    pub ghost places: { ArePlaces baktun katun tun uinal kin },
}

impl LongCount {
    /// The long count with these places, or `None` exactly where one of them is above 9999.
    pub fn new(baktun: u16, katun: u16, tun: u16, uinal: u16, kin: u16) -> Option<LongCount>
        ensures made { IsSome result ↔ ArePlaces baktun katun tun uinal kin }
        ensures value { IfSome result (λ c. (c.baktun ≡ baktun) × (c.katun ≡ katun) × (c.tun ≡ tun)
            × (c.uinal ≡ uinal) × (c.kin ≡ kin)) }
    {
        if baktun > 9_999 || katun > 9_999 || tun > 9_999 || uinal > 9_999 || kin > 9_999 {
            return None;
        }
        Some(LongCount {
            baktun,
            katun,
            tun,
            uinal,
            kin,
        })
    }

    /// The baktun, of 144000 days, from 0 to 9999.
    pub fn baktun(&self) -> u16
        ensures value { result ≡ self.now.baktun }
        ensures in_range { result ≤ 9_999 }
    {
        self.baktun
    }

    /// The katun, of 7200 days, from 0 to 9999.
    pub fn katun(&self) -> u16
        ensures value { result ≡ self.now.katun }
        ensures in_range { result ≤ 9_999 }
    {
        self.katun
    }

    /// The tun, of 360 days, from 0 to 9999.
    pub fn tun(&self) -> u16
        ensures value { result ≡ self.now.tun }
        ensures in_range { result ≤ 9_999 }
    {
        self.tun
    }

    /// The uinal, of 20 days, from 0 to 9999.
    pub fn uinal(&self) -> u16
        ensures value { result ≡ self.now.uinal }
        ensures in_range { result ≤ 9_999 }
    {
        self.uinal
    }

    /// The kin, of one day, from 0 to 9999.
    pub fn kin(&self) -> u16
        ensures value { result ≡ self.now.kin }
        ensures in_range { result ≤ 9_999 }
    {
        self.kin
    }
}
