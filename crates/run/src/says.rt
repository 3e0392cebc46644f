// The last line, on standard error: why the run stopped, what was consumed and written, and a few plain words.
use output::Output;
use streaming::work::Work;
use wording::stops;

// The last line: stop, bytes consumed and written, and why.
fn put_line(rest: &[u8], w: Work, out: &mut [u8]) -> usize {
    let stop = w.stop;
    let a = stops::put_number(b"stop ", values::stop_number(stop) as u64, out, 0);
    let b = stops::put_number(b" consumed ", w.consumed, out, a);
    let c = stops::put_number(b" written ", w.written, out, b);
    let d = text::put_text(b" (", out, c);
    let e = stops::put_why(stop, rest, w.consumed, out, d);
    text::put_text(b")\n", out, e)
}

// Writes the last line to standard error.
pub fn last_line(to: Output, buf: &[u8], w: Work) {
    let mut page = [0u8; 4096];
    let end = put_line(text::front(buf, w.have), w, &mut page);
    to.say(text::front(&page, end));
}
