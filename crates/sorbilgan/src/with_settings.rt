// Compiling and reading for a caller with settings, which are the bits of a number.
ghost use Rattle.base_settings.specs.Bits.{settings_of};
ghost use Rattle.moment_instants.specs.ByTemplate.{date_of, day_by, instant_by, timestamp_of};
ghost use Rattle.moment_parts.specs.Parts.{parts_by, parts_of};
ghost use Rattle.template_nodes.specs.Bytes.{nodes_in};
ghost use Rattle.sorbilgan.specs.Compiled.{CompiledTo};
ghost use Rattle.sorbilgan_records.specs.Records.{Recorded, day_record, instant_record, parts_record};

use base_settings::{Settings, settings_of};
use template_nodes::NODE;

// The record of the moment that an input has by a template, and by nodes.
fn record_of(set: Settings, t: &[u8], s: &[u8], out: &mut [i64; 15]) -> u8
    ensures { Recorded (parts_record (parts_of set t.now s.now)) out.new result }
{
    let mut f = [0; 24];
    let verdict = moment_parts::fields_of(set, t, s, &mut f);
    sorbilgan_records::put_read(set.strict, verdict, &f, out)
}

fn record_by(set: Settings, nodes: &[u8], t: &[u8], s: &[u8], out: &mut [i64; 15]) -> u8
    ensures { Recorded (parts_record (parts_by set (nodes_in nodes.now) t.now s.now)) out.new result }
{
    let mut f = [0; 24];
    let verdict = moment_parts::fields_by(set, nodes, t, s, &mut f);
    sorbilgan_records::put_read(set.strict, verdict, &f, out)
}

// The parts of the moment that an input s has by a template t.
pub fn sorbilgan_parts_with(settings: u32, t: &[u8], s: &[u8], out: &mut [i64; 15]) -> u8
    ensures { Recorded (parts_record (parts_of (settings_of settings) t.now s.now)) out.new result }
{
    record_of(settings_of(settings), t, s, out)
}

// The microseconds of that moment since 1970-01-01.
pub fn sorbilgan_instant_with(settings: u32, t: &[u8], s: &[u8], out: &mut [i64; 5]) -> u8
    ensures { Recorded (instant_record (timestamp_of (settings_of settings) t.now s.now)) out.new result }
{
    sorbilgan_records::put_instant(
        moment_instants::to_timestamp_text(settings_of(settings), t, s),
        out,
    )
}

// Its days since then.
pub fn sorbilgan_date_with(settings: u32, t: &[u8], s: &[u8], out: &mut [i64; 5]) -> u8
    ensures { Recorded (day_record (date_of (settings_of settings) t.now s.now)) out.new result }
{
    sorbilgan_records::put_day(
        moment_instants::to_date_text(settings_of(settings), t, s),
        out,
    )
}

// Puts the bytes of a template's nodes into the buffer, and gives how many they are; -1 for a template over its limit,
// -2 for one that is not UTF-8.
pub fn sorbilgan_compile_with(settings: u32, t: &[u8], nodes: &mut [u8; 1536]) -> i64
    ensures { CompiledTo (settings_of settings) t.now nodes.old nodes.new result }
{
    let set = settings_of(settings);
    if base_settings::template_limit(set) < t.len() {
        return -1;
    }
    if !base_chars::is_utf8(t) {
        return -2;
    }
    (NODE * template_nodes::parse_format(set.accents, t, nodes)) as i64
}

// The same three by the nodes of a template t that was compiled. Any bytes are taken for nodes.
pub fn sorbilgan_parts_by_with(
    settings: u32,
    nodes: &[u8],
    t: &[u8],
    s: &[u8],
    out: &mut [i64; 15],
) -> u8
    ensures { Recorded (parts_record (parts_by (settings_of settings) (nodes_in nodes.now) t.now s.now)) out.new result }
{
    record_by(settings_of(settings), nodes, t, s, out)
}

pub fn sorbilgan_instant_by_with(
    settings: u32,
    nodes: &[u8],
    t: &[u8],
    s: &[u8],
    out: &mut [i64; 5],
) -> u8
    ensures { Recorded (instant_record (instant_by (parts_by (settings_of settings) (nodes_in nodes.now) t.now s.now))) out.new result }
{
    sorbilgan_records::put_instant(
        moment_instants::instant_by(settings_of(settings), nodes, t, s),
        out,
    )
}

pub fn sorbilgan_date_by_with(
    settings: u32,
    nodes: &[u8],
    t: &[u8],
    s: &[u8],
    out: &mut [i64; 5],
) -> u8
    ensures { Recorded (day_record (day_by (parts_by (settings_of settings) (nodes_in nodes.now) t.now s.now))) out.new result }
{
    sorbilgan_records::put_day(
        moment_instants::day_by(settings_of(settings), nodes, t, s),
        out,
    )
}
