// The functions that other languages call: sorbilgan_c exports them. None asks anything of its caller.
// Reading and writing fill a record of 64-bit numbers and return its first: 0, or the number of the refusal.
// Each is there twice: with settings, and for the exercise pages, whose settings are 0.
#![tactic(auto)]

mod marks;
mod names;
mod version;
mod with_settings;
mod writing;

ghost use Rattle.base_settings.specs.Limits.{pages};
ghost use Rattle.moment_instants.specs.ByTemplate.{date_of, day_by, instant_by, timestamp_of};
ghost use Rattle.moment_parts.specs.Parts.{parts_by, parts_of};
ghost use Rattle.template_nodes.specs.Bytes.{nodes_in};
ghost use Rattle.sorbilgan.specs.Compiled.{CompiledTo};
ghost use Rattle.sorbilgan_records.specs.Records.{Recorded, day_record, instant_record, parts_record};

pub use marks::sorbilgan_has_lone_mark;
pub use names::sorbilgan_pattern;
pub use version::{sorbilgan_version, sorbilgan_version_4};
pub use with_settings::{
    sorbilgan_compile_with, sorbilgan_date_by_with, sorbilgan_date_with, sorbilgan_instant_by_with,
    sorbilgan_instant_with, sorbilgan_parts_by_with, sorbilgan_parts_with,
};
pub use writing::{
    sorbilgan_write, sorbilgan_write_by, sorbilgan_write_by_with, sorbilgan_write_with,
};

pub fn sorbilgan_parts(t: &[u8], s: &[u8], out: &mut [i64; 15]) -> u8
    ensures { Recorded (parts_record (parts_of pages t.now s.now)) out.new result }
{
    sorbilgan_parts_with(0, t, s, out)
}

pub fn sorbilgan_instant(t: &[u8], s: &[u8], out: &mut [i64; 5]) -> u8
    ensures { Recorded (instant_record (timestamp_of pages t.now s.now)) out.new result }
{
    sorbilgan_instant_with(0, t, s, out)
}

pub fn sorbilgan_date(t: &[u8], s: &[u8], out: &mut [i64; 5]) -> u8
    ensures { Recorded (day_record (date_of pages t.now s.now)) out.new result }
{
    sorbilgan_date_with(0, t, s, out)
}

pub fn sorbilgan_compile(t: &[u8], nodes: &mut [u8; 1536]) -> i64
    ensures { CompiledTo pages t.now nodes.old nodes.new result }
{
    sorbilgan_compile_with(0, t, nodes)
}

pub fn sorbilgan_parts_by(nodes: &[u8], t: &[u8], s: &[u8], out: &mut [i64; 15]) -> u8
    ensures { Recorded (parts_record (parts_by pages (nodes_in nodes.now) t.now s.now)) out.new result }
{
    sorbilgan_parts_by_with(0, nodes, t, s, out)
}

pub fn sorbilgan_instant_by(nodes: &[u8], t: &[u8], s: &[u8], out: &mut [i64; 5]) -> u8
    ensures { Recorded (instant_record (instant_by (parts_by pages (nodes_in nodes.now) t.now s.now))) out.new result }
{
    sorbilgan_instant_by_with(0, nodes, t, s, out)
}

pub fn sorbilgan_date_by(nodes: &[u8], t: &[u8], s: &[u8], out: &mut [i64; 5]) -> u8
    ensures { Recorded (day_record (day_by (parts_by pages (nodes_in nodes.now) t.now s.now))) out.new result }
{
    sorbilgan_date_by_with(0, nodes, t, s, out)
}
