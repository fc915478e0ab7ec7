//! Laws of what is written. The functions do nothing: their contracts are the laws.

ghost use Rattle.written_dates.specs.Laws.{FoldedWordsMatch, LettersAreAlike};
ghost use Rattle.written_dates.specs.Laws.{FoundIsLongest, FoundStands, MinusDatesStay, RegisterDatesStay};
ghost use Rattle.written_dates.specs.ReadLaws.{WeekdaysAgree, WeekdaysOnlyTest, NumberedWeekdays, NothingIsLeftOver};
ghost use Rattle.written_dates.specs.ReadLaws.{LongNumbersAreYears, NamedYearsAreWhole};
ghost use Rattle.written_dates.specs.Laws.{TimesAreFound, TimesAreLeftOut, TimesStandLast, UndatedTextsStay, WholeDatesStay};
ghost use Rattle.written_dates.specs.Stops.{OtherWeekdaysStop};
ghost use Rattle.written_dates.specs.Sums.{SumsStay};
ghost use Rattle.written_dates.specs.ReadLaws.{MonthsAreMonths, HyphensAreMinuses, MinusesAreNotRead, MinusesStay};
ghost use Rattle.written_dates.specs.ReadLaws.{YearsOfTheRepublic};
ghost use Rattle.written_dates.specs.ReadLaws.{DaysStandBehindMonths, RomanNumbersAreMonths, DecadeDaysAgree};
ghost use Rattle.written_dates.specs.ReadLaws.{MixedSignsStay, DaysToDaysStay, YearWordsNameYears};
ghost use Rattle.written_dates.specs.TextLaws.{AlikeTextsSayTheSame, LettersOfEitherCaseSayTheSame, SynonymsSayTheSame};
ghost use Rattle.written_dates.specs.TextLaws.{BlanksSayTheSame, OuterBlanksSayNothing, SignsOnlyPart, WrittenTextsStay};

/// Year, month and day as registers have them stay, whatever the names, where the year is not last and is kept, or has a
/// minus.
pub fn register_dates_stay()
    ensures year { RegisterDatesStay }
    ensures minus { MinusDatesStay }
{}

/// A time of day behind a date changes nothing; it is the end of its text, and found behind any text without a sign that
/// parts it; what is a date without this stays as it was, and so does what is no date before a time of day.
pub fn times_are_left_out()
    ensures out { TimesAreLeftOut }
    ensures whole { WholeDatesStay }
    ensures undated { UndatedTextsStay }
    ensures last { TimesStandLast }
    ensures found { TimesAreFound }
{}

/// What is found in front of parts is the longest name that stands there.
pub fn longest_names()
    ensures longest { FoundIsLongest }
    ensures stands { FoundStands }
{}

/// Of a text with a weekday only a date is read that is on it, and beside a date it changes nothing else; so it is with a
/// day of the decade; the second Sunday of a month is one of its second seven days; and where another weekday is the reason
/// that nothing is read, the text says a date that is not on it.
pub fn weekdays_agree()
    ensures agree { WeekdaysAgree }
    ensures test { WeekdaysOnlyTest }
    ensures numbered { NumberedWeekdays }
    ensures decade { DecadeDaysAgree }
    ensures other { OtherWeekdaysStop }
{}

/// Each number and each month of a text of which a date is read is a part of this date; a number of four digits, or behind a
/// word for year, is its year, and a month by name its month; a Gregorian or Julian year by name is no number below 100;
/// behind a month the day stands before the year; a Roman number between two others is the month; and the French Republic
/// had no year over 99.
pub fn nothing_is_left_over()
    ensures used { NothingIsLeftOver }
    ensures years { LongNumbersAreYears }
    ensures words { YearWordsNameYears }
    ensures whole { NamedYearsAreWhole }
    ensures months { MonthsAreMonths }
    ensures days { DaysStandBehindMonths }
    ensures roman { RomanNumbersAreMonths }
    ensures republic { YearsOfTheRepublic }
{}

/// A text in which a minus may stand is never read, and stays.
pub fn minuses_stay()
    ensures found { HyphensAreMinuses }
    ensures unread { MinusesAreNotRead }
    ensures stays { MinusesStay }
{}

/// A date in three numbers is read only where its signs are alike, and its dashes and slashes are none or two; and behind a
/// month, with a year that is not long, only where no dash and no slash stands between the day and the year.
pub fn mixed_signs_stay()
    ensures numbers { MixedSignsStay }
    ensures days { DaysToDaysStay }
{}

/// Where numbers by name are read as one, the sum of all numbers stays.
pub fn sums_stay()
    ensures { SumsStay }
{}

/// Words that differ in the case of A to Z alone are the same; and two that are UTF-8 and not too long are so exactly where
/// Unicode's canonical caseless match has them equal.
pub fn same_words()
    ensures letters { LettersAreAlike }
    ensures matching { FoldedWordsMatch }
{}

/// Texts say the same whose words are the same to a reader, or synonyms, and whose blanks may be more or fewer: letters of
/// either case but in Roman numbers; blanks for blanks, and none in front or behind; and a word for another that means the
/// same, where neither is a part of a longer name.
pub fn alike_texts_say_the_same()
    ensures alike { AlikeTextsSayTheSame }
    ensures letters { LettersOfEitherCaseSayTheSame }
    ensures blanks { BlanksSayTheSame }
    ensures outer { OuterBlanksSayNothing }
    ensures synonyms { SynonymsSayTheSame }
{}

/// But for a minus, and in a date of three numbers, or of two behind a month by name, signs part words and say nothing more.
pub fn signs_only_part()
    ensures { SignsOnlyPart }
{}

/// In a calendar whose dates are year, month and day: what is written for a text is written for itself, unless it is a date
/// whose year is last, or is short and not kept.
pub fn written_texts_stay()
    ensures { WrittenTextsStay }
{}
