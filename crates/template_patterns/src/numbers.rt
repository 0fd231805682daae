// The names of the patterns as numbers, and the first pattern for each first byte. A match with a number in each arm is
// a table that is there before a call, and so is a constant that is lent.
ghost use Rattle.std.specs.Prelude.{◌≡◌, map};
ghost use Rattle.template_patterns.specs.Numbers.{number_of};
ghost use Rattle.template_patterns.specs.Patterns.{names};
ghost use Rattle.template_patterns.specs.Search.{start_of};

// The name of each pattern: its bytes, the first the lowest, and above five of them how many bits they have.
const NAMES: &[u64; 112] = &[
    0x20002e442e41, // A.D.
    0x20002e4d2e41, // A.M.
    0x100000004441, // AD
    0x100000004d41, // AM
    0x20002e432e42, // B.C.
    0x100000004342, // BC
    0x100000004343, // CC
    0x180000594144, // DAY
    0x180000444444, // DDD
    0x100000004444, // DD
    0x100000005944, // DY
    0x180000796144, // Day
    0x100000007944, // Dy
    0x080000000044, // D
    0x180000314646, // FF1
    0x180000324646, // FF2
    0x180000334646, // FF3
    0x180000344646, // FF4
    0x180000354646, // FF5
    0x180000364646, // FF6
    0x100000005846, // FX
    0x200034324848, // HH24
    0x200032314848, // HH12
    0x100000004848, // HH
    0x200044444449, // IDDD
    0x100000004449, // ID
    0x100000005749, // IW
    0x200059595949, // IYYY
    0x180000595949, // IYY
    0x100000005949, // IY
    0x080000000049, // I
    0x08000000004a, // J
    0x10000000494d, // MI
    0x100000004d4d, // MM
    0x2848544e4f4d, // MONTH
    0x1800004e4f4d, // MON
    0x10000000534d, // MS
    0x2868746e6f4d, // Month
    0x1800006e6f4d, // Mon
    0x10000000464f, // OF
    0x20002e4d2e50, // P.M.
    0x100000004d50, // PM
    0x080000000051, // Q
    0x100000004d52, // RM
    0x285353535353, // SSSSS
    0x200053535353, // SSSS
    0x100000005353, // SS
    0x180000485a54, // TZH
    0x1800004d5a54, // TZM
    0x100000005a54, // TZ
    0x100000005355, // US
    0x100000005757, // WW
    0x080000000057, // W
    0x285959592c59, // Y,YYY
    0x200059595959, // YYYY
    0x180000595959, // YYY
    0x100000005959, // YY
    0x080000000059, // Y
    0x20002e642e61, // a.d.
    0x20002e6d2e61, // a.m.
    0x100000006461, // ad
    0x100000006d61, // am
    0x20002e632e62, // b.c.
    0x100000006362, // bc
    0x100000006363, // cc
    0x180000796164, // day
    0x180000646464, // ddd
    0x100000006464, // dd
    0x100000007964, // dy
    0x080000000064, // d
    0x180000316666, // ff1
    0x180000326666, // ff2
    0x180000336666, // ff3
    0x180000346666, // ff4
    0x180000356666, // ff5
    0x180000366666, // ff6
    0x100000007866, // fx
    0x200034326868, // hh24
    0x200032316868, // hh12
    0x100000006868, // hh
    0x200064646469, // iddd
    0x100000006469, // id
    0x100000007769, // iw
    0x200079797969, // iyyy
    0x180000797969, // iyy
    0x100000007969, // iy
    0x080000000069, // i
    0x08000000006a, // j
    0x10000000696d, // mi
    0x100000006d6d, // mm
    0x2868746e6f6d, // month
    0x1800006e6f6d, // mon
    0x10000000736d, // ms
    0x10000000666f, // of
    0x20002e6d2e70, // p.m.
    0x100000006d70, // pm
    0x080000000071, // q
    0x100000006d72, // rm
    0x287373737373, // sssss
    0x200073737373, // ssss
    0x100000007373, // ss
    0x180000687a74, // tzh
    0x1800006d7a74, // tzm
    0x100000007a74, // tz
    0x100000007375, // us
    0x100000007777, // ww
    0x080000000077, // w
    0x287979792c79, // y,yyy
    0x200079797979, // yyyy
    0x180000797979, // yyy
    0x100000007979, // yy
    0x080000000079, // y
];

pub fn names() -> &'static [u64; 112]
    ensures { result.now ≡ map number_of names }
{
    NAMES
}

// The number of the first pattern whose name begins with a byte, if there is one.
#[tactic(auto, unfolding(crate::specs::Search::start_of), using(crate::proofs::Keys::no_start))]
pub fn first_of(c: u8) -> Option<usize>
    ensures { result ≡ start_of c }
{
    match c {
        b'A' => Some(0),
        b'B' => Some(4),
        b'C' => Some(6),
        b'D' => Some(7),
        b'F' => Some(14),
        b'H' => Some(21),
        b'I' => Some(24),
        b'J' => Some(31),
        b'M' => Some(32),
        b'O' => Some(39),
        b'P' => Some(40),
        b'Q' => Some(42),
        b'R' => Some(43),
        b'S' => Some(44),
        b'T' => Some(47),
        b'U' => Some(50),
        b'W' => Some(51),
        b'Y' => Some(53),
        b'a' => Some(58),
        b'b' => Some(62),
        b'c' => Some(64),
        b'd' => Some(65),
        b'f' => Some(70),
        b'h' => Some(77),
        b'i' => Some(80),
        b'j' => Some(87),
        b'm' => Some(88),
        b'o' => Some(93),
        b'p' => Some(94),
        b'q' => Some(96),
        b'r' => Some(97),
        b's' => Some(98),
        b't' => Some(101),
        b'u' => Some(104),
        b'w' => Some(105),
        b'y' => Some(107),
        _ => None,
    }
}
