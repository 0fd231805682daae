// The tables: names of patterns, and word lists.
ghost use Rattle.std.specs.Prelude.{◌≡◌};
ghost use Rattle.template_patterns.specs.Search.{name_table};
ghost use Rattle.template_patterns.specs.Words.{longest as longest_of, word_table, words_of};
ghost use Rattle.template_patterns.specs.declared.tables.WordList.TheVariants.{MonthsFull};

// The names of the patterns in table order, five bytes each, filled with spaces.
const DCH_NAMES: &[u8; 560] = b"\
    A.D. A.M. AD   AM   B.C. BC   CC   DAY  DDD  DD   DY   Day  Dy   D    \
    FF1  FF2  FF3  FF4  FF5  FF6  FX   HH24 HH12 HH   IDDD ID   IW   IYYY \
    IYY  IY   I    J    MI   MM   MONTHMON  MS   MonthMon  OF   P.M. PM   \
    Q    RM   SSSSSSSSS SS   TZH  TZM  TZ   US   WW   W    Y,YYYYYYY YYY  \
    YY   Y    a.d. a.m. ad   am   b.c. bc   cc   day  ddd  dd   dy   d    \
    ff1  ff2  ff3  ff4  ff5  ff6  fx   hh24 hh12 hh   iddd id   iw   iyyy \
    iyy  iy   i    j    mi   mm   monthmon  ms   of   p.m. pm   q    rm   \
    sssssssss ss   tzh  tzm  tz   us   ww   w    y,yyyyyyy yyy  yy   y    ";

// The word lists in small letters, nine bytes a word, filled with spaces.
const WORDS_MONTHS_FULL: &[u8; 108] =
    b"january  february march    april    may      june     july     august   septemberoctober  november december ";

const WORDS_MONTHS_ABBREV: &[u8; 108] =
    b"jan      feb      mar      apr      may      jun      jul      aug      sep      oct      nov      dec      ";

const WORDS_DAYS_FULL: &[u8; 108] =
    b"sunday   monday   tuesday  wednesdaythursday friday   saturday                                              ";

const WORDS_DAYS_ABBREV: &[u8; 108] =
    b"sun      mon      tue      wed      thu      fri      sat                                                   ";

const WORDS_AMPM: &[u8; 108] =
    b"am       pm       am       pm                                                                               ";

const WORDS_AMPM_LONG: &[u8; 108] =
    b"a.m.     p.m.     a.m.     p.m.                                                                             ";

const WORDS_ADBC: &[u8; 108] =
    b"ad       bc       ad       bc                                                                               ";

const WORDS_ADBC_LONG: &[u8; 108] =
    b"a.d.     b.c.     a.d.     b.c.                                                                             ";

const WORDS_RM_MONTHS_LOWER: &[u8; 108] =
    b"xii      xi       x        ix       viii     vii      vi       v        iv       iii      ii       i        ";

#[derive(Clone, Copy)]
pub enum WordList {
    MonthsFull,
    MonthsAbbrev,
    DaysFull,
    DaysAbbrev,
    AmPm,
    AmPmLong,
    AdBc,
    AdBcLong,
    RomanMonths,
}

// The length of a list's longest word.
pub fn longest(list: WordList) -> usize
    ensures { result ≡ longest_of (words_of list) }
{
    match list {
        WordList::MonthsFull => 9,
        WordList::MonthsAbbrev => 3,
        WordList::DaysFull => 9,
        WordList::DaysAbbrev => 3,
        WordList::AmPm => 2,
        WordList::AmPmLong => 4,
        WordList::AdBc => 2,
        WordList::AdBcLong => 4,
        WordList::RomanMonths => 4,
    }
}

// A list's table, lent from the library's data: a call copies nothing.
#[tactic(auto, unfolding(crate::specs::Words::word_table))]
pub fn words(list: WordList) -> &'static [u8; 108]
    ensures { result.now ≡ word_table list }
{
    match list {
        WordList::MonthsFull => WORDS_MONTHS_FULL,
        WordList::MonthsAbbrev => WORDS_MONTHS_ABBREV,
        WordList::DaysFull => WORDS_DAYS_FULL,
        WordList::DaysAbbrev => WORDS_DAYS_ABBREV,
        WordList::AmPm => WORDS_AMPM,
        WordList::AmPmLong => WORDS_AMPM_LONG,
        WordList::AdBc => WORDS_ADBC,
        WordList::AdBcLong => WORDS_ADBC_LONG,
        WordList::RomanMonths => WORDS_RM_MONTHS_LOWER,
    }
}

pub fn months_full() -> &'static [u8; 108]
    ensures { result.now ≡ word_table MonthsFull }
{
    words(WordList::MonthsFull)
}

#[tactic(auto, unfolding(crate::specs::Search::name_table))]
pub fn dch_names() -> &'static [u8; 560]
    ensures { result.now ≡ name_table }
{
    DCH_NAMES
}
