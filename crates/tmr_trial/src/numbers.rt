//! The numbers of a trial.
ghost use Rattle.std.specs.Prelude.{◌≡◌, ◌<◌};
ghost use Rattle.tmr_trial.specs.Numbers.{next_state, drawn};

/// Draws numbers, each from a state of its own.
#[derive(Drop)]
pub struct Numbers {
    pub state: u64,
}

impl Numbers {
    /// The numbers behind this state.
    pub fn new(state: u64) -> Numbers
        ensures { result.state ≡ state }
    {
        Numbers { state }
    }
}

/// The state behind a state.
#[tactic(auto, unfolding(crate::specs::Numbers::next_state))]
fn next(state: u64) -> u64
    ensures { result ≡ next_state state }
{
    state
        .wrapping_mul(6_364_136_223_846_793_005)
        .wrapping_add(1_442_695_040_888_963_407)
}

/// The number below m that a state gives.
#[tactic(auto, unfolding(crate::specs::Numbers::drawn))]
fn drawn(state: u64, m: u32) -> u32
    requires { 0 < m }
    ensures value { result ≡ drawn state m }
    ensures below { result < m }
{
    ((state / 8_589_934_592) % u64::from(m)) as u32
}

/// Draws a number below m. The state is replaced first.
pub fn draw(numbers: &mut Numbers, m: u32) -> u32
    requires { 0 < m }
    ensures state { numbers.new.state ≡ next_state numbers.old.state }
    ensures value { result ≡ drawn (next_state numbers.old.state) m }
    ensures below { result < m }
{
    numbers.state = next(numbers.state);
    drawn(numbers.state, m)
}
