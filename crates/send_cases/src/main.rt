// Sends the cases of standard input, one to a line, and writes for each its line's number, the answer, and the buffer afterwards in
// decimal.
//
// A line is `at`, command, row, column, back string, up string, lines, speed, pad byte and room; `send`, command, lines, speed, pad byte
// and room; `fill`, command, row, column, back string, up string and room; or `pad`, delay, star, bytes, lines, speed, pad byte and room;
// with a bar after each but the last. Any other line is a comment. In a text a backslash and two hexadecimal digits stand for a byte. The
// buffer has as many bytes as the room says, at most 64, and holds 255 in each before the call.
#![tactic(auto)]

use case_lines::{byte, number, room, show_bytes, show_refusal, show_written, text};
use spec::{Finished, Refusal};

fn call_at(line: &[u8], out: &mut [u8]) -> Result<usize, Refusal> {
    let mut command = [0u8; 256];
    let mut back = [0u8; 16];
    let mut up = [0u8; 16];
    let n = text(line, 1, &mut command);
    let b = text(line, 4, &mut back);
    let u = text(line, 5, &mut up);
    sending::send_at(
        &command[..n],
        number(line, 2),
        number(line, 3),
        &back[..b],
        &up[..u],
        number(line, 6),
        number(line, 7),
        byte(line, 8),
        out,
    )
}

fn call_send(line: &[u8], out: &mut [u8]) -> Result<usize, Refusal> {
    let mut command = [0u8; 256];
    let n = text(line, 1, &mut command);
    sending::send(
        &command[..n],
        number(line, 2),
        number(line, 3),
        byte(line, 4),
        out,
    )
}

fn call_fill(line: &[u8], out: &mut [u8]) -> Result<Finished, Refusal> {
    let mut command = [0u8; 256];
    let mut back = [0u8; 16];
    let mut up = [0u8; 16];
    let n = text(line, 1, &mut command);
    let b = text(line, 4, &mut back);
    let u = text(line, 5, &mut up);
    sending::fill(
        &command[..n],
        number(line, 2),
        number(line, 3),
        &back[..b],
        &up[..u],
        out,
    )
}

fn call_pad(line: &[u8], out: &mut [u8]) -> Result<usize, Refusal> {
    let mut bytes = [0u8; 256];
    let n = text(line, 3, &mut bytes);
    sending::pad(
        number(line, 1),
        number(line, 2) != 0,
        &bytes[..n],
        number(line, 4),
        number(line, 5),
        byte(line, 6),
        out,
    )
}

fn show_filled(answer: Result<Finished, Refusal>) {
    match answer {
        Ok(f) => {
            io::write_all(1, b" ok ");
            io::print_decimal(1, f.delay as u64);
            let star = if f.star {
                b" 1 ".as_slice()
            } else {
                b" 0 ".as_slice()
            };
            io::write_all(1, star);
            io::print_decimal(1, f.count as u64);
        }
        Err(r) => show_refusal(r.number()),
    }
}

fn show_case(n: u64, answer: Result<usize, Refusal>, out: &[u8]) {
    io::print_decimal(1, n);
    show_written(answer, out);
}

fn show_fill(n: u64, answer: Result<Finished, Refusal>, out: &[u8]) {
    io::print_decimal(1, n);
    show_filled(answer);
    io::write_all(1, b":");
    show_bytes(out);
    io::write_all(1, b"\n");
}

fn run_line(line: &[u8], n: u64) {
    let mut out = [255u8; 64];
    match line.first() {
        Some(b'a') => {
            let most = room(line, 9, &out);
            show_case(n, call_at(line, &mut out[..most]), &out[..most]);
        }
        Some(b's') => {
            let most = room(line, 5, &out);
            show_case(n, call_send(line, &mut out[..most]), &out[..most]);
        }
        Some(b'f') => {
            let most = room(line, 6, &out);
            show_fill(n, call_fill(line, &mut out[..most]), &out[..most]);
        }
        Some(b'p') => {
            let most = room(line, 7, &out);
            show_case(n, call_pad(line, &mut out[..most]), &out[..most]);
        }
        _ => {}
    }
}

fn run(cases: &[u8]) {
    for (i, line) in cases.split(|b| *b == b'\n').enumerate() {
        run_line(line, i as u64 + 1);
    }
}

fn main() {
    let mut space = [0u8; 16384];
    let n = io::read_full(0, &mut space);
    run(&space[..n]);
}
