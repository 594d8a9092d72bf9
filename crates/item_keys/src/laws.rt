// Where keys part, of runs of items.
ghost use Rattle.item_keys.specs.Far.{ElseMade, ExactlyFar};
ghost use Rattle.item_keys.specs.Few.{FewKeep};
ghost use Rattle.item_keys.specs.Items.{DifferFar, PartsFar, TakesOne};
ghost use Rattle.item_runs.specs.Course.{Promises};

use item_runs::Course;

/// Keys part exactly where the phone takes a key eight or more steps ahead: at each line, and so at each item.
pub fn keys_part_exactly_far(course: &Course)
    requires promises { Promises course.now }
    ensures lines { ExactlyFar course.now }
    ensures items { PartsFar course.now }
{}

/// Keys differ from those of another run exactly where the phone does so at an item, and in the other run it does not at that item.
pub fn keys_differ_exactly_far(usual: &Course, here: &Course)
    requires promises { Promises usual.now }
    requires promises_too { Promises here.now }
    ensures differ { DifferFar usual.now here.now }
{}

/// No key parts in a run of one authentication in which no chain of the core comes to number 8.
pub fn few_steps_keep_keys(course: &Course)
    requires promises { Promises course.now }
    ensures keep { FewKeep course.now }
{}

/// Where the phone takes a key and keys do not part, it is the key, with its chain number and algorithms, that the station made: at each line,
/// and so at each item.
pub fn else_the_phone_takes_what_was_made(course: &Course)
    requires promises { Promises course.now }
    ensures lines { ElseMade course.now }
    ensures items { TakesOne course.now }
{}
