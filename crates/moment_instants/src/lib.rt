// The instant and the day that an input has by a template.
#![tactic(auto)]

mod epoch;

ghost use Rattle.std.specs.Prelude.{◌≡◌};
ghost use Rattle.moment_parts.specs.Parts.{parts_by};
ghost use Rattle.template_nodes.specs.Bytes.{nodes_in};
ghost use Rattle.moment_instants.specs.ByTemplate.{instant_by, day_by, timestamp_of, date_of};

use base_settings::Settings;
pub use epoch::{
    Undated, day_of, instant_of, less_offset, report_of, round_to_precision, wall_from_tm,
};
use moment_parts::{Parts, Unread};

// The instant and the day of an answer.
fn instant_from(answer: Result<Parts, Unread>) -> Result<i64, Undated>
    ensures { result ≡ instant_by answer }
{
    instant_of(answer?)
}

fn day_from(answer: Result<Parts, Unread>) -> Result<i32, Undated>
    ensures { result ≡ day_by answer }
{
    day_of(answer?)
}

// The instant and the day of an input by a template.
#[tactic(auto, unfolding(crate::specs::ByTemplate::timestamp_of))]
pub fn to_timestamp_text(set: Settings, t: &[u8], s: &[u8]) -> Result<i64, Undated>
    ensures { result ≡ timestamp_of set t.now s.now }
{
    instant_from(moment_parts::to_timestamp_parts(set, t, s))
}

#[tactic(auto, unfolding(crate::specs::ByTemplate::date_of))]
pub fn to_date_text(set: Settings, t: &[u8], s: &[u8]) -> Result<i32, Undated>
    ensures { result ≡ date_of set t.now s.now }
{
    day_from(moment_parts::to_timestamp_parts(set, t, s))
}

// The same by the nodes that any bytes hold. t is the template that they were made from.
pub fn instant_by(set: Settings, c: &[u8], t: &[u8], s: &[u8]) -> Result<i64, Undated>
    ensures { result ≡ instant_by (parts_by set (nodes_in c.now) t.now s.now) }
{
    instant_from(moment_parts::parts_by(set, c, t, s))
}

pub fn day_by(set: Settings, c: &[u8], t: &[u8], s: &[u8]) -> Result<i32, Undated>
    ensures { result ≡ day_by (parts_by set (nodes_in c.now) t.now s.now) }
{
    day_from(moment_parts::parts_by(set, c, t, s))
}
