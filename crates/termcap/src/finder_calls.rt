// The finder for C: its state is lent, and changed where it stands. A refusal is given by its number, and 0 where there is none.
ghost use Rattle.std.specs.Prelude.{◌≡◌};
ghost use Rattle.spec.specs.Finder.{opened_finder, open_refusal, turn, feed_turn, end_turn, finder_outcome, finder_report};
ghost use Rattle.c_results.specs.Results.{result_of, stored_value};
ghost use Rattle.finder.specs.Answers.{refused_number};

use c_results::give_count;
use spec::Refusal;
use spec::finder::Finder;

fn number(answer: Result<(), Refusal>) -> u32
    ensures { result ≡ refused_number answer }
{
    match answer {
        Ok(()) => 0,
        Err(refusal) => u32::from(refusal.number()),
    }
}

// "A bad name is 1 at opening": the finder is stored all the same, and has ended.
pub fn termcap_finder_open(name: &[u8], finder: &mut Finder) -> u32
    ensures { (finder.new ≡ opened_finder name.now) × (result ≡ open_refusal name.now) }
{
    let (opened, answer) = finder::open(name);
    *finder = opened;
    number(answer)
}

// "Keeps its place between calls and is changed where it stands."
pub fn termcap_finder_feed(finder: &mut Finder, block: &[u8], text: &mut [u8]) -> u32
    ensures { turn result finder.new text.new ≡ feed_turn finder.old text.old block.now }
{
    number(finder::feed(finder, block, text))
}

pub fn termcap_finder_end(finder: &mut Finder, text: &mut [u8]) -> u32
    ensures { turn result finder.new text.new ≡ end_turn finder.old text.old }
{
    number(finder::end(finder, text))
}

pub fn termcap_finder_answer(finder: &Finder, text: &[u8], out: &mut [u8], count: &mut u64) -> u32
    ensures { (result ≡ result_of (finder_report finder.now text.now out.old))
        × (out.new ≡ (finder_outcome finder.now text.now out.old).buffer)
        × (count.new ≡ stored_value (finder_report finder.now text.now out.old) count.old) }
{
    give_count(finder::answer(*finder, text, out), count)
}
