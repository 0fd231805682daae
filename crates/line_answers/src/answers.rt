// Lines "template TAB input", answered with the parts of the moment that is read, its instant or its day. The settings
// are those of the exercise pages.
ghost use Rattle.base_settings.specs.Limits.{pages};
ghost use Rattle.moment_parts.specs.Parts.{parts_of};
ghost use Rattle.moment_instants.specs.ByTemplate.{date_of, timestamp_of};
ghost use Rattle.line_answers.specs.Answers.{day_answer, instant_answer, parts_answer};
ghost use Rattle.line_answers.specs.Lines.{Answered};

use crate::items::{put_moment, put_report, put_value};

#[tactic(auto, unfolding(crate::specs::Answers::parts_answer))]
pub fn parts(t: &[u8], s: &[u8], out: &mut [u8], at: usize) -> usize
    ensures { Answered out.old at (parts_answer (parts_of pages t.now s.now)) out.new result }
{
    match moment_parts::to_timestamp_parts(base_settings::pages(), t, s) {
        Ok(p) => put_moment(p, out, at),
        Err(why) => put_report(moment_parts::report_of(why), out, at),
    }
}

#[tactic(auto, unfolding(crate::specs::Answers::instant_answer))]
pub fn instant(t: &[u8], s: &[u8], out: &mut [u8], at: usize) -> usize
    ensures { Answered out.old at (instant_answer (timestamp_of pages t.now s.now)) out.new result }
{
    match moment_instants::to_timestamp_text(base_settings::pages(), t, s) {
        Ok(micros) => put_value(micros, out, at),
        Err(why) => put_report(moment_instants::report_of(why), out, at),
    }
}

#[tactic(auto, unfolding(crate::specs::Answers::day_answer))]
pub fn day(t: &[u8], s: &[u8], out: &mut [u8], at: usize) -> usize
    ensures { Answered out.old at (day_answer (date_of pages t.now s.now)) out.new result }
{
    match moment_instants::to_date_text(base_settings::pages(), t, s) {
        Ok(days) => put_value(i64::from(days), out, at),
        Err(why) => put_report(moment_instants::report_of(why), out, at),
    }
}
