// What is promised of the crates below (specs/), that it is kept (proofs/), and reading with all that holds of it.
#![tactic(auto)]

ghost use Rattle.promises.specs.Reading.{RightAndSafe};

use base_settings::Settings;
use moment_instants::Undated;
use moment_parts::{Parts, Unread};

// The three answers to an input.
#[derive(Clone, Copy)]
pub struct Readings {
    pub parts: Result<Parts, Unread>,
    pub instant: Result<i64, Undated>,
    pub day: Result<i32, Undated>,
}

// Reads an input s by a template t, for a caller with settings.
pub fn read(set: Settings, t: &[u8], s: &[u8]) -> Readings
    ensures { RightAndSafe set t.now s.now result }
{
    let parts = moment_parts::to_timestamp_parts(set, t, s);
    let instant = moment_instants::to_timestamp_text(set, t, s);
    let day = moment_instants::to_date_text(set, t, s);
    Readings {
        parts,
        instant,
        day,
    }
}
