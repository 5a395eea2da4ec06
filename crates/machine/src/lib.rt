#![tactic(auto)]

ghost use Rattle.std.specs.Prelude.{◌≡◌, not, ◌≤◌, get_or};
ghost use Rattle.base.specs.Numbers.{below};
ghost use Rattle.lanes.specs.Lists.{first};
ghost use Rattle.machine.specs.Machine.{spoilt};
ghost use Rattle.machine.specs.Outcome.{is_spoilt, is_done};

// What a lane's test yields: spoilt, done, or its mu to step with.
#[derive(Clone, Copy)]
pub enum Status {
    Spoilt,
    Done,
    Step(f64),
}

// How a solve ends: the test; the test and the lane; the limit.
#[derive(Clone, Copy)]
pub enum Outcome {
    Accepted(usize),
    NoAt11(usize, usize),
    NoAt12(usize),
}

impl Status {
    // By kind alone: a step's mu is not compared, so no derive says this.
    pub fn is_spoilt(self) -> bool
        ensures { result ≡ is_spoilt self }
    {
        matches!(self, Status::Spoilt)
    }

    pub fn is_done(self) -> bool
        ensures { result ≡ is_done self }
    {
        matches!(self, Status::Done)
    }
}

// The lowest spoilt lane of the first `width`.
pub fn lowest_spoilt(statuses: [Status; 4], width: usize) -> Option<usize>
    requires { width ≤ 4 }
    ensures { result ≡ below width (first width (λ l. is_spoilt (get_or statuses l spoilt))) }
{
    statuses[..width].iter().position(|t| t.is_spoilt())
}

// The lowest lane that is not done of the first `width`.
pub fn lowest_undone(statuses: [Status; 4], width: usize) -> Option<usize>
    requires { width ≤ 4 }
    ensures { result ≡ below width (first width (λ l. not (is_done (get_or statuses l spoilt)))) }
{
    statuses[..width].iter().position(|t| !t.is_done())
}
