// Patterns that read a word.
#![tactic(auto)]

mod months;
mod spelling;

ghost use Rattle.std.specs.Prelude.{◌≡◌, ◌<◌, ◌≤◌};
ghost use Rattle.read_fields.specs.Fields.{fields_of, read_into};
ghost use Rattle.read_words.specs.Words.{kept_word, list_of, meant, noted_word, read_word, word_stored};

use base_refusals::Refusal;
pub use months::month_at;
use read_fields::{Outcome, Place, Task, field, state, table};
pub use spelling::Word;
use template_nodes::Node;
use template_patterns::WordList;

// The word lists by number.
fn list_of(k: u8) -> WordList
    ensures { result ≡ list_of k }
{
    match k {
        table::MONTHS_ABBREV => WordList::MonthsAbbrev,
        table::DAYS_FULL => WordList::DaysFull,
        table::DAYS_ABBREV => WordList::DaysAbbrev,
        table::AM_PM => WordList::AmPm,
        table::AM_PM_LONG => WordList::AmPmLong,
        table::AD_BC => WordList::AdBc,
        table::AD_BC_LONG => WordList::AdBcLong,
        table::ROMAN_MONTHS => WordList::RomanMonths,
        _ => WordList::MonthsFull,
    }
}

// The number of a word by its index in its list.
#[tactic(auto, unfolding(crate::specs::Words::meant))]
fn meant(rule: usize, k: usize) -> u8
    requires { k < 12 }
    ensures { (result ≡ meant rule k) × (result ≤ 12) }
{
    match rule {
        table::MONTH => (k + 1) as u8,
        table::WEEKDAY => k as u8,
        table::ROMAN_MONTH => (12 - k) as u8,
        _ => (k % 2) as u8,
    }
}

// A weekday is kept one higher.
fn kept_word(rule: usize, z: u8) -> u8
    requires { z ≤ 12 }
    ensures { result ≡ kept_word rule z }
{
    if rule == table::WEEKDAY { z + 1 } else { z }
}

fn noted_word(rule: usize, f: &mut [i32; 24])
    ensures { fields_of f.new ≡ noted_word rule (fields_of f.old) }
{
    if rule == table::ODD_HOUR12 {
        state::put(f, field::CLOCK, 12);
    }
}

// A word's number goes into its field, unless that was set to another value.
fn word_stored(n: Node, task: Task, z: u8, next: usize, f: &mut [i32; 24], p: Place) -> Outcome
    requires { (task.field < 24) × (z ≤ 12) }
    ensures { read_into result f.new ≡ word_stored n task z next (fields_of f.old) p }
{
    let kept = kept_word(task.rule, z);
    if state::holds_other(f, task.field, i32::from(z)) {
        return state::refuse(Refusal::Conflict { pattern: n.pattern }, p);
    }
    state::put(f, task.field, i32::from(kept));
    noted_word(task.rule, f);
    state::read(state::at_place(p, next))
}

#[tactic(auto, unfolding(crate::specs::Words::stored_word))]
pub fn read_word(s: &[u8], n: Node, task: Task, f: &mut [i32; 24], p: Place) -> Outcome
    requires { task.field < 24 }
    ensures { read_into result f.new ≡ read_word s.now n task (fields_of f.old) p }
{
    match spelling::seq_search_ascii(s, p.at, list_of(task.operand)) {
        None => state::refuse(Refusal::NoWord { pattern: n.pattern }, p),
        Some(Word { index, len }) => {
            word_stored(n, task, meant(task.rule, index), p.at + len, f, p)
        }
    }
}
