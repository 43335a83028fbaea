// The finder of document 02, Ask 8: it is fed a database in blocks and collects the joined line of the first description with the asked
// name. The state is lent, and changed where it stands; a block or an end that is refused alters nothing.
#![tactic(auto)]

ghost use Rattle.std.specs.Prelude.{◌≡◌, ◌≢◌, ◌≤◌, length, MatchResult};
ghost use Rattle.spec.specs.Answers.{written_report};
ghost use Rattle.spec.specs.declared.Refusal.TheVariants.{InvalidState};
ghost use Rattle.finder.specs.Answers.{refused_number};
ghost use Rattle.spec.specs.Finder.{begun, with_zeros, opened_finder, open_refusal, turn, feed_turn, end_turn, line_copied, finder_outcome, finder_report};

use identifiers::is_good_name;
use line_collector::{COMPLETE, LINE_START, Place, feed_named, finish_named};
use spec::Refusal;
use spec::finder::{Finder, LONGEST_LINE, LineState};
use stores::put_bytes;

// A finder before its first byte: with a name of at most 64 bytes, or one that has ended.
fn begin(name: &[u8], ended: u8) -> Finder
    requires { length name.now ≤ 64 }
    ensures { result ≡ begun (length name.now) (with_zeros name.now) ended }
{
    let mut bytes = [0u8; 64];
    bytes[..name.len()].copy_from_slice(name);
    Finder {
        line: LINE_START,
        held: 0,
        ended,
        size: name.len() as u16,
        name: bytes,
    }
}

// The finder comes also where the name is refused.
#[tactic(auto, unfolding(spec::specs::Finder::opened_finder, spec::specs::Finder::open_refusal))]
pub fn open(name: &[u8]) -> (Finder, Result<(), Refusal>)
    ensures { (result.0 ≡ opened_finder name.now) × (refused_number result.1 ≡ open_refusal name.now) }
{
    if is_good_name(name) {
        return (begin(name, 0), Ok(()));
    }
    (begin(b"", 1), Err(Refusal::BadName))
}

// Where a finder stands, unless it has ended.
fn standing(finder: &Finder) -> Result<Place, Refusal>
    ensures { MatchResult result
        (λ p. (finder.now.ended ≡ 0) × (p.held ≡ finder.now.held) × (p.line ≡ finder.now.line))
        (λ r. (finder.now.ended ≢ 0) × (r ≡ InvalidState)) }
{
    if finder.ended != 0 {
        return Err(Refusal::InvalidState);
    }
    Ok(Place {
        held: finder.held,
        line: finder.line,
    })
}

#[tactic(auto, unfolding(spec::specs::Finder::feed_turn))]
pub fn feed(finder: &mut Finder, block: &[u8], text: &mut [u8]) -> Result<(), Refusal>
    ensures { turn (refused_number result) finder.new text.new ≡ feed_turn finder.old text.old block.now }
{
    let p = standing(finder)?;
    let q = feed_named(&finder.name, finder.size as usize, p, block, text);
    finder.held = q.held;
    finder.line = q.line;
    Ok(())
}

// The end of the database is declared.
#[tactic(auto, unfolding(spec::specs::Finder::end_turn))]
pub fn end(finder: &mut Finder, text: &mut [u8]) -> Result<(), Refusal>
    ensures { turn (refused_number result) finder.new text.new ≡ end_turn finder.old text.old }
{
    let p = standing(finder)?;
    finder.line = finish_named(&finder.name, finder.size as usize, p, text);
    finder.held = 0;
    finder.ended = 1;
    Ok(())
}

// The first n bytes of a finder's text are the line: they go to the start of the output, if the text had room for them and the output has.
fn copy_line(n: usize, text: &[u8], out: &mut [u8]) -> Result<usize, Refusal>
    ensures { (result ≡ (line_copied n text.now out.old).answer)
        × (out.new ≡ (line_copied n text.now out.old).buffer) }
{
    if n > text.len() || n > out.len() {
        return Err(Refusal::NoRoom);
    }
    // Not by `copy_from_slice`, for which the archive would need `memmove` from outside.
    put_bytes(out, 0, &text[..n]);
    Ok(n)
}

#[tactic(auto, unfolding(spec::specs::Finder::finder_outcome))]
pub fn answer(f: Finder, text: &[u8], out: &mut [u8]) -> Result<usize, Refusal>
    ensures { (result ≡ (finder_outcome f text.now out.old).answer)
        × (out.new ≡ (finder_outcome f text.now out.old).buffer)
        × (written_report result ≡ finder_report f text.now out.old) }
{
    if f.ended == 0 {
        return Err(Refusal::InvalidState);
    }
    let LineState { stage, count, .. } = f.line;
    if stage != COMPLETE {
        return Err(Refusal::UnknownName);
    }
    if count > LONGEST_LINE {
        return Err(Refusal::ChainTooLarge);
    }
    copy_line(count as usize, text, out)
}
