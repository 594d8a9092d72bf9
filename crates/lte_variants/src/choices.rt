// A share of the choices of faults of which variants are made.
ghost use Rattle.std.specs.Prelude.{◌≡◌, ◌≤◌, [], ◌∷◌, IfSome, None};
ghost use Rattle.fault_sets.specs.Sets.{sets_of};
ghost use Rattle.lte_variants.specs.Choices.{in_share};
ghost use Rattle.lte_variants.specs.Request.{IsShare};

use crate::request::Share;
use fault_sets::{Choice, Sets};
use item_faults::Fault;
use std::marker::Model;

/// The choices of a share that are still to come.
#[derive(Drop)]
pub struct Shared<'a> {
    sets: Sets<'a>,
    share: Share,
    // the place of the next of all choices, modulo the number of shares
    place: u32,
}

impl<'a> Model for Shared<'a> {
    ghost use Rattle.std.specs.Prelude.{◌<◌, List};
    ghost use Rattle.item_faults.specs.declared.changes.Fault.{Fault as AFault};
    ghost use Rattle.lte_variants.specs.Choices.{share_from};

    ghost Value = { List (List AFault) };

    ghost view = { λ s. share_from s.share s.place s.sets };

    ghost invariant = { λ s. s.place < s.share.parts };
}

impl<'a> Shared<'a> {
    /// Those of all choices of so many of these faults.
    pub fn of(share: Share, count: usize, faults: &'a [Fault]) -> Shared<'a>
        requires share { IsShare share }
        requires few { count ≤ 8 }
        ensures { result ≡ in_share share (sets_of count faults.now) }
    {
        Shared {
            sets: Sets::of(count, faults),
            share,
            place: 0,
        }
    }

    /// The next choice.
    pub fn next(&mut self) -> Option<Choice>
        ensures next { IfSome result (λ choice. self.old ≡ choice ∷ self.new) }
        ensures none { result ≡ None → self.old ≡ [] }
    {
        'choices: loop {
            match self.sets.next() {
                Some(choice) => {
                    let (share, place) = (self.share, self.place);
                    self.place = share.after(place);
                    if share.takes(place) {
                        return Some(choice);
                    }
                }
                None => return None,
            }
        }
    }
}
