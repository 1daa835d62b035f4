// Set root: a root becomes nil or names an object.
ghost use Rattle.std.specs.Prelude.{◌≡◌};
ghost use Rattle.layout.specs.Refusal.{first, refusal_of};
ghost use Rattle.rules.specs.SetRoot as SetRoot;

use layout::answers::{Control, Done};
use layout::refusals::{Refusal, bad_control};
use layout::words::{Word, sort_word};
use records::legal;

// The first test that holds refuses. An immediate may stand in a slot and not in a root: so the last test is not that of a write.
#[tactic(auto, using(crate::proofs::SetRootLaws::ends))]
pub(crate) fn root_refusal(
    c: Control,
    index: u32,
    word: u32,
    records: &[u32],
    roots: &[u32],
) -> Result<(), Refusal>
    ensures { refusal_of result ≡ first (SetRoot.set_root_tests c index word records.now roots.now) }
{
    if bad_control(c) {
        return Err(Refusal::BadControl);
    }
    if records.len() < c.n as usize || roots.len() < c.r as usize {
        return Err(Refusal::TooShort);
    }
    if c.r <= index {
        return Err(Refusal::NoRoot);
    }
    match sort_word(c.n, word) {
        Word::Nil => Ok(()),
        Word::Object(x) => {
            if legal(c.n, records[(x - 1) as usize]) {
                Ok(())
            } else {
                Err(Refusal::NamesNone)
            }
        }
        Word::Immediate => Err(Refusal::BadWord),
        Word::Illegal => Err(Refusal::BadWord),
    }
}

#[tactic(auto, using(crate::proofs::SetRootLaws::storing))]
pub fn set_root(c: Control, index: u32, word: u32, records: &[u32], roots: &mut [u32]) -> Done
    ensures { SetRoot.gives result roots.new
        ≡ SetRoot.set_root c index word records.now roots.old }
{
    if let Err(e) = root_refusal(c, index, word, records, roots) {
        return Done {
            refusal: u32::from(e),
            control: c,
        };
    }
    roots[index as usize] = word;
    Done {
        refusal: 0,
        control: c,
    }
}
