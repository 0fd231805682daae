// The date that fields make: the year, then a Julian day, weeks, the day and the month, the day of the year.
#![tactic(auto)]

mod date;

pub use date::{
    begun, date_in_range, dated_of, from_day_of_year, no_such_day, with_day, with_day_of_year,
    with_julian, with_month, with_month_week, with_week,
};

// The date so far: year, month and day, which of them are set (bits 1, 2 and 4), and the day of the month and of the
// year that are still to be used.
#[derive(Clone, Copy)]
pub struct Days {
    pub year: i32,
    pub month: i32,
    pub day: i32,
    pub set: u8,
    pub dd: i32,
    pub ddd: i32,
}
