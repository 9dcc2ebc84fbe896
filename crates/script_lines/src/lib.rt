// A script's lines of four values, read byte by byte: what is kept of a line is its values, whatever its length. The contracts cite
// specs/: the form of a line, and the steps of reading one.
#![tactic(auto)]

ghost use Rattle.std.specs.Prelude.{◌≡◌, ◌<◌};
ghost use Rattle.script_lines.specs.Reading as R;

// The line end, and what stands between two values.
pub const NEWLINE: u8 = 10;

pub const SPACE: u8 = 32;

// How many values stand before the last.
const BEFORE_LAST: u32 = 3;

// The values of a line.
#[derive(Clone, Copy, Debug, PartialEq, Eq)]
pub struct Values {
    pub kind: u32,
    pub block: u32,
    pub time: u32,
    pub value: u32,
}

// What is read of a line: how many values stand before a space, the last three of them, and the value behind them, if begun.
#[derive(Clone, Copy, Debug, PartialEq, Eq)]
pub struct Line {
    pub count: u32,
    pub first: u32,
    pub second: u32,
    pub third: u32,
    pub begun: bool,
    pub last: u32,
}

// The line of which nothing is read.
pub fn blank() -> Line
    ensures { result ≡ R.blank }
{
    Line {
        count: 0,
        first: 0,
        second: 0,
        third: 0,
        begun: false,
        last: 0,
    }
}

// Whether nothing is read of a line.
#[tactic(auto, unfolding(crate::specs::Reading::is_blank))]
pub fn is_blank(line: Line) -> bool
    ensures { result ≡ R.is_blank line }
{
    !line.begun && line.count == 0
}

// A line after a space: a value stands before it, and one more is to come.
#[tactic(auto, unfolding(crate::specs::Reading::after_space))]
fn after_space(line: Line) -> Option<Line>
    ensures { result ≡ R.after_space line }
{
    if !line.begun || BEFORE_LAST <= line.count {
        return None;
    }
    Some(Line {
        count: line.count + 1,
        first: line.second,
        second: line.third,
        third: line.last,
        begun: false,
        last: 0,
    })
}

// A line after a digit: not behind a leading zero, and the value stays within 32 bits.
#[tactic(auto, unfolding(crate::specs::Reading::after_digit))]
fn after_digit(line: Line, digit: u32) -> Option<Line>
    requires { digit < 10 }
    ensures { result ≡ R.after_digit line digit }
{
    if line.begun && line.last == 0 {
        return None;
    }
    let last = line.last.checked_mul(10)?.checked_add(digit)?;
    Some(Line {
        begun: true,
        last,
        ..line
    })
}

// A line after one byte more: none where it can no longer be right.
#[tactic(auto, unfolding(crate::specs::Reading::after_byte))]
pub fn after_byte(line: Line, byte: u8) -> Option<Line>
    ensures { result ≡ R.after_byte line byte }
{
    if byte == SPACE {
        return after_space(line);
    }
    let digit = byte.checked_sub(decimal::ZERO_DIGIT)?;
    if 10 <= digit {
        return None;
    }
    after_digit(line, digit as u32)
}

// The values of a line at its end: none where it is not of the form.
#[tactic(auto, unfolding(crate::specs::Reading::judged))]
pub fn judge(line: Line) -> Option<Values>
    ensures { result ≡ R.judged line }
{
    if !line.begun || line.count != BEFORE_LAST {
        return None;
    }
    Some(Values {
        kind: line.first,
        block: line.second,
        time: line.third,
        value: line.last,
    })
}
