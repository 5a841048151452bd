// The words of what was typed: what stands between blanks. The chain of `split` and `filter` is written twice, and loops over words go by a
// word's number: no function can hand out the iterator, since the type of one with closures has no name, and an iterator of our own would do by
// hand what `split` does. With `skip` it would stand a third time in each such loop, and these are defined by the words' numbers.
ghost use Rattle.std.specs.Prelude.{◌≡◌, ◌≤◌, length};
ghost use Rattle.text.specs.Typed.{is_blank, word_of, words_of};

fn is_blank(byte: u8) -> bool
    ensures { result ≡ is_blank byte }
{
    matches!(byte, b' ' | b'\t' | b'\r')
}

// The word with a number, from 0 on. Where the line has fewer words it has no bytes, and is no `None`: no word of a line is empty, and this
// is what a message shows of one that was not typed.
pub fn word(line: &[u8], wanted: usize) -> &[u8]
    ensures value { result.now ≡ word_of wanted line.now }
    ensures upper_bound { length result.now ≤ length line.now }
{
    line.split(|byte| is_blank(*byte))
        .filter(|part| !part.is_empty())
        .nth(wanted)
        .unwrap_or(&[])
}

// How many words the line has.
pub fn word_count(line: &[u8]) -> usize
    ensures value { result ≡ words_of line.now }
    ensures upper_bound { result ≤ length line.now }
{
    line.split(|byte| is_blank(*byte))
        .filter(|part| !part.is_empty())
        .count()
}
