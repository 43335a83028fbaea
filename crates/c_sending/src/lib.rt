// Send, Send at and its two halves as C takes their results. The C functions of `termcap` call these, under the same promises word for word
// (decision 112).
#![tactic(auto)]

ghost use Rattle.std.specs.Prelude.{◌≡◌};
ghost use Rattle.spec.specs.Sending.{send_outcome, send_report, send_at_outcome, send_at_report, fill_outcome, fill_report, pad_outcome, pad_report};
ghost use Rattle.c_results.specs.Results.{result_of, stored_value, stored_second, stored_third, has_star};

use c_results::{give_count, give_filled, has_star};

pub fn send(command: &[u8], lines: u64, speed: u64, pad: u8, out: &mut [u8], count: &mut u64) -> u32
    ensures { (result ≡ result_of (send_report command.now lines speed pad out.old))
        × (out.new ≡ (send_outcome command.now lines speed pad out.old).buffer)
        × (count.new ≡ stored_value (send_report command.now lines speed pad out.old) count.old) }
{
    give_count(sending::send(command, lines, speed, pad, out), count)
}

pub fn send_at(
    command: &[u8],
    row: u64,
    column: u64,
    back: &[u8],
    up: &[u8],
    lines: u64,
    speed: u64,
    pad: u8,
    out: &mut [u8],
    count: &mut u64,
) -> u32
    ensures { (result ≡ result_of (send_at_report command.now row column back.now up.now lines speed pad out.old))
        × (out.new ≡ (send_at_outcome command.now row column back.now up.now lines speed pad out.old).buffer)
        × (count.new
        ≡ stored_value (send_at_report command.now row column back.now up.now lines speed pad out.old)
        count.old) }
{
    give_count(
        sending::send_at(command, row, column, back, up, lines, speed, pad, out),
        count,
    )
}

// The first half of Send at: `out` gets the finished bytes, of which there are `count`; their delay is in tenths of a millisecond, before its star.
pub fn fill(
    command: &[u8],
    row: u64,
    column: u64,
    back: &[u8],
    up: &[u8],
    out: &mut [u8],
    delay: &mut u64,
    star: &mut u64,
    count: &mut u64,
) -> u32
    ensures { (result ≡ result_of (fill_report command.now row column back.now up.now out.old))
        × (out.new ≡ (fill_outcome command.now row column back.now up.now out.old).buffer)
        × (delay.new
        ≡ stored_value (fill_report command.now row column back.now up.now out.old) delay.old)
        × (star.new
        ≡ stored_second (fill_report command.now row column back.now up.now out.old) star.old)
        × (count.new
        ≡ stored_third (fill_report command.now row column back.now up.now out.old) count.old) }
{
    give_filled(
        sending::fill(command, row, column, back, up, out),
        delay,
        star,
        count,
    )
}

// The second half of Send at; any star but 0 is one.
pub fn pad(
    delay: u64,
    star: u64,
    bytes: &[u8],
    lines: u64,
    speed: u64,
    pad: u8,
    out: &mut [u8],
    count: &mut u64,
) -> u32
    ensures { (result ≡ result_of (pad_report delay (has_star star) bytes.now lines speed pad out.old))
        × (out.new ≡ (pad_outcome delay (has_star star) bytes.now lines speed pad out.old).buffer)
        × (count.new ≡ stored_value (pad_report delay (has_star star) bytes.now lines speed pad out.old) count.old) }
{
    give_count(
        sending::pad(delay, has_star(star), bytes, lines, speed, pad, out),
        count,
    )
}
