//! Laws of the names of days. The functions do nothing: their contracts are the laws.

ghost use Rattle.church_days.specs.Laws.{OneName, NamesMeanDays, NamelessDays};
ghost use Rattle.church_days.specs.Texts.{NamesReadBack};

/// A day has one name, or none.
pub fn one_name()
    ensures { OneName }
{}

/// What a day is called is a name of the list that means its date; and a day has none exactly where no name of the list
/// means its date.
pub fn names_mean_days()
    ensures named { NamesMeanDays }
    ensures nameless { NamelessDays }
{}

/// A text that says the name of a day in its year is read as its date.
pub fn names_read_back()
    ensures { NamesReadBack }
{}
