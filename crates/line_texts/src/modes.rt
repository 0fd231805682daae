// The modes by their names.
ghost use Rattle.line_texts.specs.Modes.{Chosen};

use line_answers::Mode;

// The mode of a name, if it is one.
pub fn choice_of(name: &[u8]) -> Option<Mode>
    ensures { Chosen name.now result }
{
    match name {
        b"parts" => Some(Mode::Parts),
        b"instant" => Some(Mode::Instant),
        b"date" => Some(Mode::Date),
        b"write" => Some(Mode::Write),
        _ => None,
    }
}
