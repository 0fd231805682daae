// The functions of include/sorbilgan.h, in its order: each calls the function of its name in the library sorbilgan and
// states the clauses of that again. None asks anything of its caller.
#![tactic(auto)]

ghost use Rattle.std.specs.Prelude.{◌≡◌};
ghost use Rattle.base_notation.specs.Choice.{when◌then◌else◌};
ghost use Rattle.base_settings.specs.Bits.{settings_of};
ghost use Rattle.base_settings.specs.Limits.{pages};
ghost use Rattle.moment_instants.specs.ByTemplate.{date_of, day_by, instant_by, timestamp_of};
ghost use Rattle.moment_parts.specs.Parts.{parts_by, parts_of};
ghost use Rattle.template_nodes.specs.Bytes.{nodes_in};
ghost use Rattle.template_nodes.specs.Joined.{has_lone_mark};
ghost use Rattle.write_pieces.specs.Moment.{seven_numbers};
ghost use Rattle.sorbilgan_records.specs.Records.{Recorded, day_record, instant_record, parts_record};
ghost use Rattle.sorbilgan.specs.Compiled.{CompiledTo};
ghost use Rattle.sorbilgan.specs.Name.{Named};
ghost use Rattle.sorbilgan.specs.Version.{version};
ghost use Rattle.sorbilgan.specs.Writing.{RecordedWrite, RecordedWriteBy};

#[unsafe(no_mangle)]
pub extern "C" fn sorbilgan_version() -> u32
    ensures { result ≡ version }
{
    sorbilgan::sorbilgan_version()
}

#[unsafe(no_mangle)]
pub extern "C" fn sorbilgan_version_4() -> u32
    ensures { result ≡ version }
{
    sorbilgan::sorbilgan_version_4()
}

// For the exercise pages, whose settings are 0: by a template.
#[unsafe(no_mangle)]
pub extern "C" fn sorbilgan_parts(t: &[u8], s: &[u8], out: &mut [i64; 15]) -> u8
    ensures { Recorded (parts_record (parts_of pages t.now s.now)) out.new result }
{
    sorbilgan::sorbilgan_parts(t, s, out)
}

#[unsafe(no_mangle)]
pub extern "C" fn sorbilgan_instant(t: &[u8], s: &[u8], out: &mut [i64; 5]) -> u8
    ensures { Recorded (instant_record (timestamp_of pages t.now s.now)) out.new result }
{
    sorbilgan::sorbilgan_instant(t, s, out)
}

#[unsafe(no_mangle)]
pub extern "C" fn sorbilgan_date(t: &[u8], s: &[u8], out: &mut [i64; 5]) -> u8
    ensures { Recorded (day_record (date_of pages t.now s.now)) out.new result }
{
    sorbilgan::sorbilgan_date(t, s, out)
}

#[unsafe(no_mangle)]
pub extern "C" fn sorbilgan_write(
    t: &[u8],
    year: i32,
    month: i32,
    day: i32,
    hour: i32,
    minute: i32,
    second: i32,
    micros: i32,
    text: &mut [u8],
    out: &mut [i64; 5],
) -> u8
    ensures { RecordedWrite pages t.now (seven_numbers year month day hour minute second micros) text.old text.new out.new result }
{
    sorbilgan::sorbilgan_write(t, year, month, day, hour, minute, second, micros, text, out)
}

#[unsafe(no_mangle)]
pub extern "C" fn sorbilgan_compile(t: &[u8], nodes: &mut [u8; 1536]) -> i64
    ensures { CompiledTo pages t.now nodes.old nodes.new result }
{
    sorbilgan::sorbilgan_compile(t, nodes)
}

// By the nodes of a template that was compiled. Any bytes are taken for nodes.
#[unsafe(no_mangle)]
pub extern "C" fn sorbilgan_parts_by(nodes: &[u8], t: &[u8], s: &[u8], out: &mut [i64; 15]) -> u8
    ensures { Recorded (parts_record (parts_by pages (nodes_in nodes.now) t.now s.now)) out.new result }
{
    sorbilgan::sorbilgan_parts_by(nodes, t, s, out)
}

#[unsafe(no_mangle)]
pub extern "C" fn sorbilgan_instant_by(nodes: &[u8], t: &[u8], s: &[u8], out: &mut [i64; 5]) -> u8
    ensures { Recorded (instant_record (instant_by (parts_by pages (nodes_in nodes.now) t.now s.now))) out.new result }
{
    sorbilgan::sorbilgan_instant_by(nodes, t, s, out)
}

#[unsafe(no_mangle)]
pub extern "C" fn sorbilgan_date_by(nodes: &[u8], t: &[u8], s: &[u8], out: &mut [i64; 5]) -> u8
    ensures { Recorded (day_record (day_by (parts_by pages (nodes_in nodes.now) t.now s.now))) out.new result }
{
    sorbilgan::sorbilgan_date_by(nodes, t, s, out)
}

#[unsafe(no_mangle)]
pub extern "C" fn sorbilgan_write_by(
    nodes: &[u8],
    t: &[u8],
    year: i32,
    month: i32,
    day: i32,
    hour: i32,
    minute: i32,
    second: i32,
    micros: i32,
    text: &mut [u8],
    out: &mut [i64; 5],
) -> u8
    ensures { RecordedWriteBy pages nodes.now t.now (seven_numbers year month day hour minute second micros) text.old text.new out.new result }
{
    sorbilgan::sorbilgan_write_by(
        nodes, t, year, month, day, hour, minute, second, micros, text, out,
    )
}

// The same nine with settings, which are the bits of a number.
#[unsafe(no_mangle)]
pub extern "C" fn sorbilgan_parts_with(settings: u32, t: &[u8], s: &[u8], out: &mut [i64; 15]) -> u8
    ensures { Recorded (parts_record (parts_of (settings_of settings) t.now s.now)) out.new result }
{
    sorbilgan::sorbilgan_parts_with(settings, t, s, out)
}

#[unsafe(no_mangle)]
pub extern "C" fn sorbilgan_instant_with(
    settings: u32,
    t: &[u8],
    s: &[u8],
    out: &mut [i64; 5],
) -> u8
    ensures { Recorded (instant_record (timestamp_of (settings_of settings) t.now s.now)) out.new result }
{
    sorbilgan::sorbilgan_instant_with(settings, t, s, out)
}

#[unsafe(no_mangle)]
pub extern "C" fn sorbilgan_date_with(settings: u32, t: &[u8], s: &[u8], out: &mut [i64; 5]) -> u8
    ensures { Recorded (day_record (date_of (settings_of settings) t.now s.now)) out.new result }
{
    sorbilgan::sorbilgan_date_with(settings, t, s, out)
}

#[unsafe(no_mangle)]
pub extern "C" fn sorbilgan_write_with(
    settings: u32,
    t: &[u8],
    year: i32,
    month: i32,
    day: i32,
    hour: i32,
    minute: i32,
    second: i32,
    micros: i32,
    text: &mut [u8],
    out: &mut [i64; 5],
) -> u8
    ensures { RecordedWrite (settings_of settings) t.now (seven_numbers year month day hour minute second micros) text.old text.new out.new result }
{
    sorbilgan::sorbilgan_write_with(
        settings, t, year, month, day, hour, minute, second, micros, text, out,
    )
}

#[unsafe(no_mangle)]
pub extern "C" fn sorbilgan_compile_with(settings: u32, t: &[u8], nodes: &mut [u8; 1536]) -> i64
    ensures { CompiledTo (settings_of settings) t.now nodes.old nodes.new result }
{
    sorbilgan::sorbilgan_compile_with(settings, t, nodes)
}

#[unsafe(no_mangle)]
pub extern "C" fn sorbilgan_parts_by_with(
    settings: u32,
    nodes: &[u8],
    t: &[u8],
    s: &[u8],
    out: &mut [i64; 15],
) -> u8
    ensures { Recorded (parts_record (parts_by (settings_of settings) (nodes_in nodes.now) t.now s.now)) out.new result }
{
    sorbilgan::sorbilgan_parts_by_with(settings, nodes, t, s, out)
}

#[unsafe(no_mangle)]
pub extern "C" fn sorbilgan_instant_by_with(
    settings: u32,
    nodes: &[u8],
    t: &[u8],
    s: &[u8],
    out: &mut [i64; 5],
) -> u8
    ensures { Recorded (instant_record (instant_by (parts_by (settings_of settings) (nodes_in nodes.now) t.now s.now))) out.new result }
{
    sorbilgan::sorbilgan_instant_by_with(settings, nodes, t, s, out)
}

#[unsafe(no_mangle)]
pub extern "C" fn sorbilgan_date_by_with(
    settings: u32,
    nodes: &[u8],
    t: &[u8],
    s: &[u8],
    out: &mut [i64; 5],
) -> u8
    ensures { Recorded (day_record (day_by (parts_by (settings_of settings) (nodes_in nodes.now) t.now s.now))) out.new result }
{
    sorbilgan::sorbilgan_date_by_with(settings, nodes, t, s, out)
}

#[unsafe(no_mangle)]
pub extern "C" fn sorbilgan_write_by_with(
    settings: u32,
    nodes: &[u8],
    t: &[u8],
    year: i32,
    month: i32,
    day: i32,
    hour: i32,
    minute: i32,
    second: i32,
    micros: i32,
    text: &mut [u8],
    out: &mut [i64; 5],
) -> u8
    ensures { RecordedWriteBy (settings_of settings) nodes.now t.now (seven_numbers year month day hour minute second micros) text.old text.new out.new result }
{
    sorbilgan::sorbilgan_write_by_with(
        settings, nodes, t, year, month, day, hour, minute, second, micros, text, out,
    )
}

// 1 where a mark counts alone in a compiled template, else 0.
#[unsafe(no_mangle)]
pub extern "C" fn sorbilgan_has_lone_mark(nodes: &[u8], t: &[u8]) -> u8
    ensures { result ≡ (when has_lone_mark t.now (nodes_in nodes.now) then 1 else 0) }
{
    sorbilgan::sorbilgan_has_lone_mark(nodes, t)
}

// The name of a pattern, with a final 0, and its length.
#[unsafe(no_mangle)]
pub extern "C" fn sorbilgan_pattern(number: u8, name: &mut [u8; 6]) -> usize
    ensures { Named number name.new result }
{
    sorbilgan::sorbilgan_pattern(number, name)
}
