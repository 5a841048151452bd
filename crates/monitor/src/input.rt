// A line of commands, byte by byte, so that nothing past it is taken.
use std::io::Read;
use text::line::Line;

// A read that fails ends the input, as its end does: std's `bytes` would read again after one that was interrupted.
fn next_byte(source: &mut impl Read) -> Option<u8> {
    let mut one = [0u8; 1];
    match source.read(&mut one) {
        Ok(1) => Some(one[0]),
        _ => None,
    }
}

// Up to the line's end; none at the input's end. Input that ends in the middle of a line is a line too. A `loop` until input ends has no measure
// by which it is seen to end, so that this one counts, to a number that is never reached.
pub(crate) fn read_line(source: &mut impl Read) -> Option<Line> {
    let mut line = Line::new();
    for _ in 0..u64::MAX {
        match next_byte(source) {
            Some(b'\n') => return Some(line),
            Some(byte) => line = line.put(byte),
            None if line.is_empty() => return None,
            None => return Some(line),
        }
    }
    None
}
