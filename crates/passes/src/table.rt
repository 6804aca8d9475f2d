// A table of the brackets that a number of rounds leaves.
ghost use Rattle.std.specs.Prelude.{◌≡◌, ◌<◌, ◌≤◌, ◌↔◌, ◌⊎◌, length, slice_set, IsTrue};
ghost use Rattle.passes.specs.Tables.{HasBrackets, Written};

use limits::MAX_TOP;
use tile::Bracket;

// Places for the heights of any tile: 2 KiB, which lie on the stack of a check.
pub const PLACES: usize = MAX_TOP as usize + 1;

// The brackets that so many rounds leave of 0..top: at each low end stands its high end, and 0 at the other heights.
#[derive(Clone, Copy)]
pub struct BracketTable<'a> {
    pub top: u16,
    pub done: u8,
    pub highs: &'a [u16],
    ghost filled: { HasBrackets top done highs.now },
}

impl<'a> BracketTable<'a> {
    ghost use Rattle.passes.specs.Soundness.{SoundBracket};

    // Is the bracket one of them? Where none begins stands 0, which is below that height, as one begins at 0.
    #[tactic(auto, using(crate::proofs::Tables::table_sound, crate::proofs::Tables::sound_table))]
    pub fn has(&self, bracket: Bracket) -> bool
        ensures { IsTrue result ↔ (SoundBracket self.now.top self.now.done bracket) }
    {
        bracket.low <= bracket.high
            && bracket.high <= self.top
            && self.highs[usize::from(bracket.low)] == bracket.high
    }
}

// Do so many halvings leave the bracket as it is?
fn stays(rounds: u8, bracket: Bracket) -> bool
    ensures { IsTrue result ↔ ((rounds ≡ 0) ⊎ (bracket.low ≡ bracket.high)) }
{
    rounds == 0 || bracket.is_settled()
}

// Writes a bracket into the places: its high end at its low end.
fn write_bracket(bracket: Bracket, places: &mut [u16])
    requires { bracket.low < length places.old }
    ensures { places.new ≡ slice_set places.old bracket.low bracket.high }
{
    places[usize::from(bracket.low)] = bracket.high;
}

// Writes the brackets that so many halvings of one leave.
#[tactic(auto, using(crate::proofs::Tables::written_one, crate::proofs::Tables::written_both))]
fn write_halvings(rounds: u8, bracket: Bracket, places: &mut [u16])
    requires some { bracket.low ≤ bracket.high }
    requires room { bracket.high < length places.old }
    ensures { Written rounds bracket places.old places.new }
{
    if stays(rounds, bracket) {
        write_bracket(bracket, places);
    } else {
        write_halvings(rounds - 1, bracket.toward(bracket.low), places);
        write_halvings(rounds - 1, bracket.toward(bracket.high), places);
    }
}

// Fills the places for a `BracketTable`.
#[tactic(auto, using(crate::proofs::Tables::table_filled))]
pub fn fill(top: u16, done: u8, places: &mut [u16])
    requires { top < length places.old }
    ensures { HasBrackets top done places.new }
{
    places.fill(0);
    write_halvings(done, Bracket { low: 0, high: top }, places);
}
