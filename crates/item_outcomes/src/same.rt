// Whether lines tell the same.
ghost use Rattle.std.specs.Prelude.{◌≡◌};
ghost use Rattle.std.specs.List.{list_all};
ghost use Rattle.item_outcomes.specs.Same.{is_same, others, same};

use crate::Standing;
use crate::names::is_among;
use item_lines::{Told, same_told};

pub(crate) fn same(own: &[u32], usual: &Standing, here: &Standing) -> bool
    ensures { result ≡ same own.now usual.now.told here.now.told }
{
    others(own, usual.told()) == others(own, here.told())
        && all_same(own, usual, here, usual.told())
        && all_same(own, usual, here, here.told())
}

// How many lines are not of the fault's own items.
fn others(own: &[u32], told: &[Told]) -> usize
    ensures { result ≡ others own.now told.now }
{
    told.iter().filter(|t| !is_among(own, t.name)).count()
}

// Whether the items of these lines have the same line in both.
fn all_same(own: &[u32], usual: &Standing, here: &Standing, told: &[Told]) -> bool
    ensures { result ≡ list_all (is_same own.now usual.now.told here.now.told) told.now }
{
    told.iter().all(|t| is_same(own, usual, here, t))
}

fn is_same(own: &[u32], usual: &Standing, here: &Standing, t: &Told) -> bool
    ensures { result ≡ is_same own.now usual.now.told here.now.told t.now }
{
    is_among(own, t.name) || same_told(usual.line_of(t.name), here.line_of(t.name))
}
