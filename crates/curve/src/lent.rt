// A curve that is lent to be judged on: it is well formed, and all of its rises are there.
ghost use Rattle.curve.specs.Held.{steps_of};
ghost use Rattle.curve.specs.Steps.{Lent as IsLent};

use crate::Held;

#[derive(Clone, Copy)]
pub struct Lent<'a> {
    pub held: Held<'a>,
    pub ghost lent: { IsLent (steps_of held) },
}
